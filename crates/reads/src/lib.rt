// What the till read: the last chip's DOUT as a probe recorded it, looked at before each edge of DCLK or LOAD, by the chip's state there. The
// public functions are inner ones, for the other crates; none of them has a `requires`.
#![tactic(auto)]

mod ahead;
mod looks;
mod notes;

ghost use Rattle.std.specs.Prelude.{◌≡◌, ◌+◌, ◌*◌, ◌≤◌, true, length};
ghost use Rattle.chain.specs.Chain.{chip_count};
ghost use Rattle.reads.specs.Parts as P;
ghost use Rattle.reads.specs.Reads as R;

use capture::Report;
use chain::Chain;

// The recorded DOUT of the last sample.
#[derive(Clone, Copy)]
pub enum Dout {
    // No sample with a recorded DOUT has come.
    NotYet,
    // The last sample had none.
    Missing,
    Low,
    High,
}

// What is kept from one sample to the next: the last sample's recorded DOUT and its offset; a readout's bits so far behind a leading 1, or 0
// where it was told as cut; whether DOUT was high when last looked at outside readouts; and whether it was the latch when last looked at
// with KEYB off.
#[derive(Clone, Copy)]
pub struct Reader {
    pub dout: Dout,
    pub offset: u64,
    pub bits: u8,
    pub quiet: bool,
    pub agrees: bool,
}

// What a look tells.
#[derive(Clone, Copy)]
pub enum Note {
    Nothing,
    // A readout ended: the code.
    Code(u8),
    // A readout was cut.
    Cut,
    // An interrupt was seen.
    Interrupt,
    // DOUT begins to differ from the latch, at the sample with this offset.
    Differs(u64),
}

// The reader after a look, and what the look tells.
#[derive(Clone, Copy)]
pub struct Looked {
    pub reader: Reader,
    pub note: Note,
}

// Samples that were played: the chain and the reader after them, how many there were, and the place past what they wrote.
#[derive(Clone, Copy)]
pub struct Ran {
    pub chain: Chain,
    pub reader: Reader,
    pub count: usize,
    pub at: usize,
}

// Room for what one sample writes: a note, and the most chips' longest lines.
pub const SAMPLE_ROOM: usize = 19 + chain::MOST * 21;

// A reader before the first sample.
pub fn start() -> Reader
    ensures { result ≡ R.start_reader }
{
    Reader {
        dout: Dout::NotYet,
        offset: 0,
        bits: 1,
        quiet: true,
        agrees: true,
    }
}

// Whether a sample with a recorded DOUT has come.
pub fn is_looking(reader: Reader) -> bool
    ensures { result ≡ R.looking reader.dout }
{
    !matches!(reader.dout, Dout::NotYet)
}

// Whether a byte is a sample: 00H to 07H, or 10H to 1FH.
pub fn is_sample(b: u8) -> bool
    ensures { result ≡ R.is_sample b }
{
    matches!(b, 0x00..=0x07 | 0x10..=0x1F)
}

// How many samples stand before the next byte that is none, or the end.
fn run_length(bytes: &[u8]) -> usize
    ensures { result ≡ P.run_length bytes.now }
{
    bytes.iter().take_while(|b| is_sample(**b)).count()
}

// One sample: the look before it, and the sample played.
fn sampled(
    what: Report,
    n: usize,
    chain: Chain,
    reader: Reader,
    offset: u64,
    b: u8,
    out: &mut [u8],
    at: usize,
) -> Ran
    requires n_value { chip_count n ≡ true }
    requires at_in_bounds { at + P.sample_room ≤ length out.old }
    ensures { P.Runs (R.sampled what n offset b chain reader) 1 at out.old result out.new }
{
    let k = n - 1;
    let was = chain.levels;
    let levels = b % 8;
    let last = chain::one::chip_at(k, chain);
    let looked = looks::look(last, was, levels, reader);
    let end = notes::put(k as u8, looked.note, out, at);
    let took = capture::takes::samples(what, n, chain, &[levels], out, end);
    let last = chain::one::chip_at(k, took.chain);
    Ran {
        chain: took.chain,
        reader: looks::kept(last, was, b, offset, looked.reader),
        count: 1,
        at: took.at,
    }
}

// Some samples, those that stand first: as many as can be looked at ahead of the chain, or one.
fn some(
    what: Report,
    n: usize,
    chain: Chain,
    reader: Reader,
    offset: u64,
    bytes: &[u8],
    out: &mut [u8],
    at: usize,
) -> Ran
    requires n_value { chip_count n ≡ true }
    requires in_bounds { 1 ≤ length bytes.now }
    requires bytes_in_bounds { at + P.sample_room * length bytes.now ≤ length out.old }
    ensures { P.RunsSome what n offset bytes.now chain reader at out.old result out.new }
{
    let ahead = ahead::look_ahead(n, chain, reader, offset, bytes, out, at);
    if ahead.count == 0 {
        return sampled(what, n, chain, reader, offset, bytes[0], out, at);
    }
    let mut part = chain::play::to_next_rise(n, chain, &bytes[..ahead.count], 0);
    part.chain.levels = ahead.levels;
    Ran {
        chain: part.chain,
        reader: ahead.reader,
        count: ahead.count,
        at: ahead.at,
    }
}

// Samples, one after another.
fn played(
    what: Report,
    n: usize,
    chain: Chain,
    reader: Reader,
    offset: u64,
    bytes: &[u8],
    out: &mut [u8],
    at: usize,
) -> Ran
    requires n_value { chip_count n ≡ true }
    requires bytes_in_bounds { at + P.sample_room * length bytes.now ≤ length out.old }
    ensures { P.Runs (R.sampled_all what n offset bytes.now chain reader) (length bytes.now) at out.old result out.new }
{
    let mut ran = Ran {
        chain,
        reader,
        count: 0,
        at,
    };
    // a turn is as long as the samples that it plays, so no iterator counts it
    while ran.count < bytes.len() {
        let place = offset.wrapping_add(ran.count as u64);
        let rest = &bytes[ran.count..];
        let more = some(what, n, ran.chain, ran.reader, place, rest, out, ran.at);
        ran = Ran {
            count: ran.count + more.count,
            ..more
        };
    }
    ran
}

// Whether N is 1 to 8, and a buffer so long has room for so many samples at a place.
fn has_room(n: usize, count: usize, long: usize, at: usize) -> bool
    ensures { result ≡ P.has_room n count at long }
{
    chain::checks::is_count(n) && at <= long && (long - at) / SAMPLE_ROOM >= count
}

// Plays the samples up to the next byte that is none, the first of which has an offset, with the looks before them. Where N isn't 1 to 8,
// or there isn't room for whatever they may write, none is played.
pub fn samples(
    what: Report,
    n: usize,
    chain: Chain,
    reader: Reader,
    offset: u64,
    bytes: &[u8],
    out: &mut [u8],
    at: usize,
) -> Ran
    ensures { P.RunsFirst what n offset (P.first_of n bytes.now at out.old) chain reader at out.old result out.new }
{
    let count = run_length(bytes);
    if !has_room(n, count, out.len(), at) {
        return Ran {
            chain,
            reader,
            count: 0,
            at,
        };
    }
    played(what, n, chain, reader, offset, &bytes[..count], out, at)
}
