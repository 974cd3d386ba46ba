// One CH452 chip: its record, the edges of its wires, what commands do, the segments lit and key scans. The entries are
// `reset_chip`, `apply`, `sample`, `scan` and `segments_lit`. They count as N = 1 of document 01: each tests its chip first; where it
// refuses, it hands the chip back as it was, or no segments. `is_valid` and the modules are inner: other crates call them, they
// answer for every record, valid or not, and refuse nothing.
#![tactic(auto)]

use base::{Handed, Refusal};
use word::{Command, Display, System};

pub mod commands;
pub mod edges;
pub mod scans;
pub mod segments;

ghost use Rattle.std.specs.Prelude.{◌≡◌};
ghost use Rattle.base.specs.Refusals.{handed};
ghost use Rattle.chip.specs.Record.{reset_chip, valid, valid_line, valid_settings, valid_keys, valid_readout};
ghost use Rattle.chip.specs.Entries.{applied_of, sampled_of, handed_scan, scanned_of, segments_of};

// What is left of a readout: bits of a code, K6 first. With 0 bits left there is none.
#[derive(Clone, Copy)]
pub struct Readout {
    pub code: u8,
    pub left: u8,
}

// The line parts: the 12-bit register, the DOUT latch and the readout.
#[derive(Clone, Copy)]
pub struct LineParts {
    pub register: u16,
    pub latch: bool,
    pub readout: Readout,
}

// The settings: system, display, blink and custom bits and the sleeping mark.
#[derive(Clone, Copy)]
pub struct Settings {
    pub system: System,
    pub display: Display,
    pub blink: u8,
    pub custom: u8,
    pub sleeping: bool,
}

// The key record: code, interrupt and last scan, an address or NONE.
#[derive(Clone, Copy)]
pub struct Keys {
    pub code: u8,
    pub interrupt: bool,
    pub last: u8,
}

// The display is the digits: the data bytes of DIG0 to DIG7.
#[derive(Clone, Copy)]
pub struct Chip {
    pub line: LineParts,
    pub settings: Settings,
    pub digits: [u8; 8],
    pub keys: Keys,
}

// The last scan, or a scan's result, where no contact was closed. It is a number beside the addresses, as it is in C's panel.
pub const NONE: u8 = 64;

// What a scan recorded: one of four things.
#[derive(Clone, Copy)]
pub enum Recorded {
    // Nothing recorded.
    Nothing,
    // A key's code, 40H + its address.
    Key(u8),
    // The same over an unread code: an interrupt stood before the scan.
    OverUnread(u8),
    // Release noted: bit 6 of the code went from 1 to 0.
    Released,
}

// A chip as the capture text starts it: reset, a zero register and a latch of 1.
pub fn reset_chip() -> Chip
    ensures { result ≡ reset_chip }
{
    Chip {
        line: LineParts {
            register: 0,
            latch: true,
            readout: Readout { code: 0, left: 0 },
        },
        settings: commands::reset_settings(),
        digits: [0; 8],
        keys: commands::reset_keys(),
    }
}

// Whether a readout has at most 7 bits left, of a code of seven bits while any are left.
fn is_readout(r: Readout) -> bool
    ensures { result ≡ valid_readout r }
{
    r.left <= 7 && (r.left == 0 || r.code <= 127)
}

// Refusal 12's chip part, by parts. LineParts parts: register and readout.
fn is_line(line: LineParts) -> bool
    ensures { result ≡ valid_line line }
{
    line.register <= 4095 && is_readout(line.readout)
}

// Settings: custom and limit.
fn is_settings(settings: Settings) -> bool
    ensures { result ≡ valid_settings settings }
{
    settings.custom <= 127 && settings.display.limit <= 7
}

// Key record: code and last scan.
fn is_keys(keys: Keys) -> bool
    ensures { result ≡ valid_keys keys }
{
    keys.code <= 127 && keys.last <= NONE
}

// Whether a record is one that a chip can hold: every part is.
#[tactic(auto, unfolding(crate::specs::Record::valid))]
pub fn is_valid(chip: Chip) -> bool
    ensures { result ≡ valid chip }
{
    is_line(chip.line) && is_settings(chip.settings) && is_keys(chip.keys)
}

// A command applied directly, as a LOAD rise applies it: refusals 12, 9.
#[tactic(auto, unfolding(crate::specs::Entries::applied_of))]
pub fn apply(chip: Chip, command: Command) -> Handed<Chip, ()>
    ensures { handed result ≡ applied_of chip command }
{
    if !is_valid(chip) {
        return Handed {
            value: chip,
            answer: Err(Refusal::Record),
        };
    }
    if !word::is_legal(command) {
        return Handed {
            value: chip,
            answer: Err(Refusal::Field(0)),
        };
    }
    Handed {
        value: commands::applied(command, chip),
        answer: Ok(()),
    }
}

// One sample, after the levels given: refusals 12, 1.
#[tactic(auto, unfolding(crate::specs::Entries::sampled_of))]
pub fn sample(chip: Chip, levels: u8, sample: u8) -> Handed<Chip, ()>
    ensures { handed result ≡ sampled_of chip levels sample }
{
    if !is_valid(chip) || levels > 7 {
        return Handed {
            value: chip,
            answer: Err(Refusal::Record),
        };
    }
    if sample > 7 {
        return Handed {
            value: chip,
            answer: Err(Refusal::Sample(0)),
        };
    }
    Handed {
        value: edges::stepped(chip, levels, sample, edges::din(sample)),
        answer: Ok(()),
    }
}

// One key scan: refusal 12.
#[tactic(auto, unfolding(crate::specs::Entries::scanned_of))]
pub fn scan(chip: Chip, bytes: [u8; 8]) -> Handed<Chip, Recorded>
    ensures { handed_scan result ≡ scanned_of chip bytes }
{
    if !is_valid(chip) {
        return Handed {
            value: chip,
            answer: Err(Refusal::Record),
        };
    }
    let taken = scans::scanned(bytes, chip);
    Handed {
        value: taken.chip,
        answer: Ok(taken.recorded),
    }
}

// The segments lit of all eight digits: refusal 12.
#[tactic(auto, unfolding(crate::specs::Entries::segments_of))]
pub fn segments_lit(chip: Chip) -> Handed<[u8; 8], ()>
    ensures { handed result ≡ segments_of chip }
{
    if !is_valid(chip) {
        return Handed {
            value: [0; 8],
            answer: Err(Refusal::Record),
        };
    }
    Handed {
        value: segments::lit(chip),
        answer: Ok(()),
    }
}
