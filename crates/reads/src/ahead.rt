// Looks ahead of the chain. Up to the next LOAD rise a look goes by the last chip alone: with KEYB on by its readout, with KEYB off by its
// latch, which takes the twelve bits that its register holds before any that the chips before it send. So a stretch of samples is looked at
// first, and the chain is played over it at once.
ghost use Rattle.std.specs.Prelude.{◌≡◌, ◌+◌, ◌*◌, ◌≤◌, true, ◌||◌, length, ◌==◌};
ghost use Rattle.chain.specs.Chain.{chip_count};
ghost use Rattle.chip.specs.Edges.{load_rises};
ghost use Rattle.reads.specs.Parts as P;

use crate::{Reader, looks, notes};
use chain::Chain;

// Samples that were looked at: the reader after them, how many they are, the last one's levels, and the place past their notes.
#[derive(Clone, Copy)]
pub(crate) struct Ahead {
    pub(crate) reader: Reader,
    pub(crate) count: usize,
    pub(crate) levels: u8,
    pub(crate) at: usize,
}

// How many of the last chip's register bits are known after a sample, of those known before it: with KEYB on none of them matters, and
// otherwise a DCLK rise takes in one that isn't.
fn known_after(keyb: bool, rises: bool, known: u8) -> u8
    ensures { result ≡ P.known_after keyb rises known }
{
    if rises && !keyb {
        chip::edges::moved_on(known)
    } else {
        known
    }
}

// Whether a sample can't be looked at ahead: no bit is known, or it is a LOAD rise.
fn is_end(known: u8, was: u8, now: u8) -> bool
    ensures { result ≡ (known == 0 || load_rises was «now») }
{
    known == 0 || chip::edges::load_rises(was, now)
}

// The looks at the samples that stand first.
pub(crate) fn look_ahead(
    n: usize,
    chain: Chain,
    reader: Reader,
    offset: u64,
    bytes: &[u8],
    out: &mut [u8],
    at: usize,
) -> Ahead
    requires n_value { chip_count n ≡ true }
    requires bytes_in_bounds { at + P.sample_room * length bytes.now ≤ length out.old }
    ensures { P.Looks n offset bytes.now chain reader at out.old result out.new }
{
    let k = n - 1;
    let mut last = chain::one::chip_at(k, chain);
    let mut was = chain.levels;
    let mut seen = reader;
    let mut end = at;
    let mut known = 12;
    for (i, b) in bytes.iter().enumerate() {
        let levels = *b % 8;
        if is_end(known, was, levels) {
            return Ahead {
                reader: seen,
                count: i,
                levels: was,
                at: end,
            };
        }
        let looked = looks::look(last, was, levels, seen);
        end = notes::put(k as u8, looked.note, out, end);
        let place = offset.wrapping_add(i as u64);
        seen = looks::kept(last, was, *b, place, looked.reader);
        let rises = chip::edges::dclk_rises(was, levels);
        known = known_after(last.settings.system.keyb, rises, known);
        last = chip::edges::stepped(last, was, levels, false);
        was = levels;
    }
    Ahead {
        reader: seen,
        count: bytes.len(),
        levels: was,
        at: end,
    }
}
