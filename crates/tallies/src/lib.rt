// The insurer's tally over captures: for each chip four counts, and a tally for each of the 128 seven-bit codes. The entries are `fresh`,
// a tally at the start; `count`, which counts one capture's text and goes on from the tally that it is given; and `print`, the lines of
// a tally in a lent array that always suffices.
#![tactic(auto)]

mod adds;
mod printed;
mod room;
mod walk;

ghost use Rattle.std.specs.Prelude.{◌≡◌};
ghost use Rattle.base.specs.Refusals.{handed};
ghost use Rattle.base.specs.Lent as Lent;
ghost use Rattle.tallies.specs.Counted as C;
ghost use Rattle.tallies.specs.Printed as P;
ghost use Rattle.tallies.specs.Tallies as T;

use base::{Handed, Refusal};

// What is counted of one chip: codes recorded; read words that found an interrupt; codes recorded over an unread one; interrupts
// cleared by reset or by KEYB 0.
#[derive(Clone, Copy)]
pub struct Counts {
    pub recorded: u64,
    pub read: u64,
    pub overwritten: u64,
    pub cleared: u64,
}

// The counts of each chip, how many times each code was recorded on all chips, and the largest N of the captures counted, 0 at the start.
#[derive(Clone, Copy)]
pub struct Tally {
    pub chips: [Counts; chain::MOST],
    pub codes: [u64; 128],
    pub largest: usize,
}

// How long the lines of any tally can be: 69 bytes a chip, 21 a code, and a refusal's 13.
pub const ROOM: usize = 69 * chain::MOST + 21 * 128 + 13;

// A tally at the start: all zero.
pub fn fresh() -> Tally
    ensures { result ≡ T.fresh }
{
    let zero = Counts {
        recorded: 0,
        read: 0,
        overwritten: 0,
        cleared: 0,
    };
    Tally {
        chips: [zero; chain::MOST],
        codes: [0; 128],
        largest: 0,
    }
}

// Counts a capture's text, and goes on from a tally: refusals 11, 12, 10, 16. What the lines before a refused one counted stands.
pub fn count(tally: Tally, text: &[u8]) -> Handed<Tally, ()>
    ensures { handed result ≡ C.counted_of tally text.now }
{
    if text.len() > capture::LONGEST {
        return Handed {
            value: tally,
            answer: Err(Refusal::Text),
        };
    }
    if tally.largest > chain::MOST {
        return Handed {
            value: tally,
            answer: Err(Refusal::Record),
        };
    }
    walk::whole(tally, text)
}

// The lines of a tally, and then that of a refusal, if the last capture was refused: how many bytes stand at the array's front.
pub fn print(tally: Tally, end: Result<(), Refusal>, out: &mut [u8; ROOM]) -> usize
    ensures prints { P.Prints tally end out.old result out.new }
    ensures counts { Lent.Counts result out.new }
{
    printed::all(tally, end, out)
}
