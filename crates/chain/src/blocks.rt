// Blocks of samples as they arrive: the record goes on from each to the next, and the places of a block's LOAD rises are written to a
// lent list.
ghost use Rattle.std.specs.Prelude.{◌≡◌, ◌≤◌, length};
ghost use Rattle.base.specs.Lent.{laid};
ghost use Rattle.chain.specs.Chain as C;
ghost use Rattle.chain.specs.Blocks as B;

use crate::play::to_next_rise;
use crate::{Chain, checks};
use base::{Handed, Refusal};

// How many LOAD rises samples have, given the levels before them.
fn counted(levels: u8, samples: &[u8]) -> usize
    ensures { result ≡ length (B.rises_from 0 levels samples.now) }
{
    let mut was = levels;
    let mut count = 0;
    for &s in samples {
        if chip::edges::load_rises(was, s) {
            count += 1;
        }
        was = s;
    }
    count
}

// All samples, one stretch after another; the place of each rise goes to the list.
fn listed(n: usize, chain: Chain, samples: &[u8], rises: &mut [u64]) -> Chain
    requires { length (B.rises_in chain samples.now) ≤ length rises.old }
    ensures value { result ≡ C.played n samples.now chain }
    ensures rises_after { rises.new ≡ laid (B.rises_in chain samples.now) rises.old }
{
    let mut next = chain;
    let mut i = 0;
    let mut at = 0;
    // the step is as long as a stretch, so no iterator counts it
    while i < samples.len() {
        let part = to_next_rise(n, next, samples, i);
        next = part.chain;
        i = part.stop;
        if part.rose {
            rises[at] = (i - 1) as u64;
            at += 1;
        }
    }
    next
}

// A block of samples, the places of whose LOAD rises go to the front of the list: refusals 3, 12, 1, 8. Refused: the record and the list
// as they were.
pub fn block(n: usize, chain: Chain, samples: &[u8], rises: &mut [u64]) -> Handed<Chain, usize>
    ensures { B.Blocks n chain samples.now rises.old result rises.new }
{
    if let Err(e) = checks::tested_with(n, chain, samples) {
        return Handed {
            value: chain,
            answer: Err(e),
        };
    }
    let count = counted(chain.levels, samples);
    if count > rises.len() {
        return Handed {
            value: chain,
            answer: Err(Refusal::Room),
        };
    }
    Handed {
        value: listed(n, chain, samples, rises),
        answer: Ok(count),
    }
}
