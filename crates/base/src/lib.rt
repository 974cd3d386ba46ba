// The ground floor: the refusals that document 01 numbers, with number and place of each, the test of samples, and the one leaf that
// cuts fields of numbers by shifts and masks. The functions are inner ones, for the other crates; users have no entry here. Nothing here has a `requires`.
#![tactic(auto)]

ghost use Rattle.std.specs.Prelude.{◌≡◌};
ghost use Rattle.base.specs.Bits.{cut, bit_value};
ghost use Rattle.base.specs.Refusals.{number_of, place_of, tells};
ghost use Rattle.base.specs.Samples.{checked_from};

// Why an input was refused, with the place that document 01 names, where it names one.
#[derive(Clone, Copy)]
pub enum Refusal {
    // 1: a sample is above 7, of two wires above 3; the lowest such place.
    Sample(u64),
    // 2: a scan's chip is not below N; so is a chip that is named for a command or to be looked at.
    ScanChip,
    // 3: N is not 1 to 8.
    ChipCount,
    // 4: the list's length isn't a multiple of N.
    PartRow,
    // 5: more than 64 rows, of a CH450 64 commands.
    Rows,
    // 6: a word is unlisted or above 4,095; its place in the list, 0 for a word alone.
    Unlisted(u64),
    // 7: a system word with KEYB 1 for a chip that isn't the last; its place in the list.
    Keypad(u64),
    // 8: the buffer is shorter than the samples.
    Room,
    // 9: a command field or a key's code is out of range, or a word of a CH450's list is neither parameters nor a digit; that word's
    // place in the list, 0 for a command alone.
    Field(u64),
    // 10: a line isn't of the form; its number from 1.
    Line(u64),
    // 11: the text is longer than 65,536 bytes.
    Text,
    // 12: a chip record or the levels hold what no chip can, of a CH450 what no run from power-on can; so is a tally of captures with more
    // chips than there can be.
    Record,
    // 13: a sleep word, unless the nearest earlier reset or system word for that same chip in the same list exists and is a reset or has
    // KEYB 0 and DISP 0; the sleep word's place in the list.
    LitSleep(u64),
    // 14: a settings text begins with 20 and a version above the newest; the version.
    Version(u64),
    // 15: a line of a settings text isn't of the form; its number from 1.
    Setting(u64),
    // 16: a count of a tally has no room for a line's samples and scans; the line's number from 1.
    Count(u64),
}

// What an entry hands back, and its answer: where it refuses, the value is the one that was given, or zeros where none was.
#[derive(Clone, Copy)]
pub struct Handed<S, A> {
    pub value: S,
    pub answer: Result<A, Refusal>,
}

// Document 01's number of a refusal.
pub fn number(e: Refusal) -> u64
    ensures { result ≡ number_of e }
{
    match e {
        Refusal::Sample(_) => 1,
        Refusal::ScanChip => 2,
        Refusal::ChipCount => 3,
        Refusal::PartRow => 4,
        Refusal::Rows => 5,
        Refusal::Unlisted(_) => 6,
        Refusal::Keypad(_) => 7,
        Refusal::Room => 8,
        Refusal::Field(_) => 9,
        Refusal::Line(_) => 10,
        Refusal::Text => 11,
        Refusal::Record => 12,
        Refusal::LitSleep(_) => 13,
        Refusal::Version(_) => 14,
        Refusal::Setting(_) => 15,
        Refusal::Count(_) => 16,
    }
}

// The place that a refusal names, or 0.
pub fn place(e: Refusal) -> u64
    ensures { result ≡ place_of e }
{
    match e {
        Refusal::Sample(at)
        | Refusal::Unlisted(at)
        | Refusal::Keypad(at)
        | Refusal::Field(at)
        | Refusal::Line(at)
        | Refusal::LitSleep(at)
        | Refusal::Version(at)
        | Refusal::Setting(at)
        | Refusal::Count(at) => at,
        Refusal::ScanChip
        | Refusal::ChipCount
        | Refusal::PartRow
        | Refusal::Rows
        | Refusal::Room
        | Refusal::Text
        | Refusal::Record => 0,
    }
}

// Refusal 1's test, given the highest sample: the lowest place of a sample above it.
pub fn checked(samples: &[u8], most: u8) -> Result<(), Refusal>
    ensures { tells result ≡ checked_from most 0 samples.now }
{
    match samples.iter().position(|s| *s > most) {
        Some(place) => Err(Refusal::Sample(place as u64)),
        None => Ok(()),
    }
}

// The field of `width` bits that starts at bit `at` of a number.
pub fn field(n: u16, at: u16, width: u16) -> u16
    ensures { result ≡ cut n at width }
{
    if at >= 16 {
        0
    } else if width >= 16 {
        n >> at
    } else {
        (n >> at) & ((1 << width) - 1)
    }
}

// The number of a bit: 1 or 0.
pub fn bit_value(b: bool) -> u16
    ensures { result ≡ bit_value b }
{
    u16::from(b)
}
