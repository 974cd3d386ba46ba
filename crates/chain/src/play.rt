// Playing samples. A sample without an edge touches the levels alone, a DCLK edge the line parts alone; only a LOAD rise copies
// whole chips.
ghost use Rattle.std.specs.Prelude.{◌≡◌, ◌≤◌, drop};
ghost use Rattle.base.specs.Refusals.{handed};
ghost use Rattle.chain.specs.Chain as C;
ghost use Rattle.chain.specs.Entries as E;
ghost use Rattle.chain.specs.Stretch as S;

use crate::{Chain, checks};
use base::Handed;

// Samples played up to and with a LOAD rise: the chain after them, the place past the last of them, and whether LOAD rose there.
// Chain and place are told without a rise too (specs/Stretch), so the flag stands beside them.
#[derive(Clone, Copy)]
pub struct Stretch {
    pub chain: Chain,
    pub stop: usize,
    pub rose: bool,
}

// One sample for every chip below N: each takes what the DOUT before it showed before this sample.
fn stepped(n: usize, chain: Chain, sample: u8) -> Chain
    requires { n ≤ C.most }
    ensures { result ≡ C.stepped_chain n sample chain }
{
    let mut chips = chain.chips;
    let mut d = chip::edges::din(sample);
    for c in &mut chips[..n] {
        let out = chip::edges::dout(*c);
        *c = chip::edges::stepped(*c, chain.levels, sample, d);
        d = out;
    }
    Chain {
        chips,
        levels: sample,
    }
}

// A stretch of at most the most chips, from a place of the samples on: up to and with the next LOAD rise, or to their end.
fn stretch_of(n: usize, chain: Chain, samples: &[u8], from: usize) -> Stretch
    requires { n ≤ C.most }
    ensures { result ≡ S.stretch_from n from (drop from samples.now) chain }
{
    let mut chips = chain.chips;
    let mut was = chain.levels;
    for i in from..samples.len() {
        let s = samples[i];
        if chip::edges::load_rises(was, s) {
            let before = Chain { chips, levels: was };
            return Stretch {
                chain: stepped(n, before, s),
                stop: i + 1,
                rose: true,
            };
        }
        if chip::edges::dclk_rises(was, s) {
            let mut d = chip::edges::din(s);
            for c in &mut chips[..n] {
                let out = chip::edges::shows(
                    c.settings.system.keyb,
                    c.line.latch,
                    c.keys.interrupt,
                    c.line.readout.code,
                    c.line.readout.left,
                );
                c.line.register = chip::edges::shifted(c.line.register, d);
                d = out;
            }
        } else if chip::edges::dclk_falls(was, s) {
            for c in &mut chips[..n] {
                c.line.latch = chip::edges::lowest_bit(c.line.register);
                c.line.readout.left = chip::edges::moved_on(c.line.readout.left);
            }
        }
        was = s;
    }
    Stretch {
        chain: Chain { chips, levels: was },
        stop: from.max(samples.len()),
        rose: false,
    }
}

// Plays samples from a place on, up to and with the next LOAD rise, or to their end: no tests, for any N, chain and samples.
pub fn to_next_rise(n: usize, chain: Chain, samples: &[u8], from: usize) -> Stretch
    ensures { result ≡ S.stretch_from n from (drop from samples.now) chain }
{
    stretch_of(n.min(crate::MOST), chain, samples, from)
}

// All samples, one stretch after another.
fn played(n: usize, chain: Chain, samples: &[u8]) -> Chain
    ensures { result ≡ C.played n samples.now chain }
{
    let mut next = chain;
    let mut i = 0;
    // the step is as long as a stretch, so no iterator counts it
    while i < samples.len() {
        let part = to_next_rise(n, next, samples, i);
        next = part.chain;
        i = part.stop;
    }
    next
}

// Plays a block of samples: refusals 3, 12, 1. All samples are tested before any is played.
pub fn play(n: usize, chain: Chain, samples: &[u8]) -> Handed<Chain, ()>
    ensures { handed result ≡ E.played_of n chain samples.now }
{
    if let Err(e) = checks::tested_with(n, chain, samples) {
        return Handed {
            value: chain,
            answer: Err(e),
        };
    }
    Handed {
        value: played(n, chain, samples),
        answer: Ok(()),
    }
}
