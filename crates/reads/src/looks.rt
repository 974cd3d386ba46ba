// One look at the last chip's DOUT, and what is kept after a sample.
ghost use Rattle.std.specs.Prelude.{◌≡◌};
ghost use Rattle.reads.specs.Reads as R;

use crate::{Dout, Looked, Note, Reader};
use chip::Chip;

// The recorded DOUT of a sample.
fn recorded_in(b: u8) -> Dout
    ensures { result ≡ R.recorded_in b }
{
    if b < 0x10 {
        Dout::Missing
    } else if base::field(b as u16, 3, 1) == 1 {
        Dout::High
    } else {
        Dout::Low
    }
}

// Whether there is an edge of DCLK or LOAD.
fn is_edge(was: u8, now: u8) -> bool
    ensures { result ≡ R.is_edge was «now» }
{
    base::field(was as u16, 1, 1) != base::field(now as u16, 1, 1)
        || base::field(was as u16, 2, 1) != base::field(now as u16, 2, 1)
}

// A readout's bits, and one more.
fn bits_with(dout: Dout, bits: u8) -> u8
    ensures { result ≡ R.bits_with dout bits }
{
    match dout {
        Dout::Low if bits != 0 => bits % 128 * 2,
        Dout::High if bits != 0 => bits % 128 * 2 + 1,
        _ => 0,
    }
}

// What a LOAD rise tells in a readout.
fn cut_by(rises: bool, bits: u8) -> Note
    ensures { result ≡ R.cut_by rises bits }
{
    if rises && bits != 0 {
        Note::Cut
    } else {
        Note::Nothing
    }
}

// What a fall of DCLK tells in a readout, with so many bits left before it.
fn fall_tells(rises: bool, left: u8, before: u8, bits: u8) -> Note
    ensures { result ≡ R.fall_tells rises left before bits }
{
    if bits == 0 {
        if before == 0 {
            Note::Nothing
        } else {
            Note::Cut
        }
    } else if left != 1 {
        cut_by(rises, bits)
    } else if bits < 128 {
        Note::Cut
    } else {
        Note::Code(bits % 128)
    }
}

// A readout runs: at a fall of DCLK DOUT is its next bit.
fn in_readout(falls: bool, rises: bool, left: u8, reader: Reader) -> Looked
    ensures { result ≡ R.in_readout falls rises left reader }
{
    if !falls {
        return Looked {
            reader,
            note: cut_by(rises, reader.bits),
        };
    }
    let bits = bits_with(reader.dout, reader.bits);
    Looked {
        reader: Reader { bits, ..reader },
        note: fall_tells(rises, left, reader.bits, bits),
    }
}

// An interrupt, where DOUT was high when last looked at.
fn interrupt(quiet: bool) -> Note
    ensures { result ≡ R.interrupt_where quiet }
{
    if quiet {
        Note::Interrupt
    } else {
        Note::Nothing
    }
}

// KEYB is on, and no readout runs.
fn outside(reader: Reader) -> Looked
    ensures { result ≡ R.outside reader.dout reader }
{
    match reader.dout {
        Dout::NotYet | Dout::Missing => Looked {
            reader,
            note: Note::Nothing,
        },
        Dout::Low => Looked {
            reader: Reader {
                quiet: false,
                ..reader
            },
            note: interrupt(reader.quiet),
        },
        Dout::High => Looked {
            reader: Reader {
                quiet: true,
                ..reader
            },
            note: Note::Nothing,
        },
    }
}

// DOUT is the latch, or it isn't.
fn latch_looked(same: bool, reader: Reader) -> Looked
    ensures { result ≡ R.latch_looked same reader }
{
    let note = if reader.agrees && !same {
        Note::Differs(reader.offset)
    } else {
        Note::Nothing
    };
    Looked {
        reader: Reader {
            agrees: same,
            ..reader
        },
        note,
    }
}

// KEYB is off: DOUT must be the latch.
fn keypad_off(latch: bool, reader: Reader) -> Looked
    ensures { result ≡ R.keypad_off reader.dout latch reader }
{
    match reader.dout {
        Dout::NotYet | Dout::Missing => Looked {
            reader,
            note: Note::Nothing,
        },
        Dout::Low => latch_looked(!latch, reader),
        Dout::High => latch_looked(latch, reader),
    }
}

// At an edge, by the last chip before it.
fn at_edge(last: Chip, was: u8, now: u8, reader: Reader) -> Looked
    ensures { result ≡ R.at_edge was «now» last reader }
{
    if !last.settings.system.keyb {
        keypad_off(last.line.latch, reader)
    } else if last.line.readout.left == 0 {
        outside(reader)
    } else {
        in_readout(
            chip::edges::dclk_falls(was, now),
            chip::edges::load_rises(was, now),
            last.line.readout.left,
            reader,
        )
    }
}

// Before a sample: where it is an edge, by the last chip.
#[tactic(auto, unfolding(crate::specs::Reads::looked))]
pub(crate) fn look(last: Chip, was: u8, now: u8, reader: Reader) -> Looked
    ensures { result ≡ R.looked was «now» last reader }
{
    if crate::is_looking(reader) && is_edge(was, now) {
        at_edge(last, was, now, reader)
    } else {
        Looked {
            reader,
            note: Note::Nothing,
        }
    }
}

// Whether a LOAD rise began a readout, by the last chip after it.
fn begins_readout(last: Chip, was: u8, now: u8) -> bool
    ensures { result ≡ R.begins_readout was «now» last }
{
    chip::edges::load_rises(was, now) && last.settings.system.keyb && last.line.readout.left != 0
}

// A read word begins a readout.
fn begun(begins: bool, reader: Reader) -> Reader
    ensures { result ≡ R.begun begins reader }
{
    if begins {
        Reader {
            bits: 1,
            quiet: true,
            ..reader
        }
    } else {
        reader
    }
}

// A sample's recorded DOUT and its offset are kept.
fn with_sample(dout: Dout, offset: u64, reader: Reader) -> Reader
    ensures { result ≡ R.with_sample dout offset reader }
{
    Reader {
        dout,
        offset,
        ..reader
    }
}

// After a sample, by the last chip after it.
#[tactic(auto, unfolding(crate::specs::Reads::kept))]
pub(crate) fn kept(last: Chip, was: u8, b: u8, offset: u64, reader: Reader) -> Reader
    ensures { result ≡ R.kept was b offset last reader }
{
    if crate::is_looking(reader) {
        let next = begun(begins_readout(last, was, b % 8), reader);
        with_sample(recorded_in(b), offset, next)
    } else if b < 0x10 {
        reader
    } else {
        with_sample(recorded_in(b), offset, reader)
    }
}
