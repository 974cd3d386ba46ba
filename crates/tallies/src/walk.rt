// The walk over a capture's text: line by line, each tested whole before any of it is played and counted.
ghost use Rattle.std.specs.Prelude.{◌≡◌, true, ◌≤◌, ◌<◌, map, length, drop};
ghost use Rattle.base.specs.Refusals.{handed};
ghost use Rattle.capture.specs.Frames as F;
ghost use Rattle.chain.specs.Chain.{most};
ghost use Rattle.chain.specs.Events as Events;
ghost use Rattle.lines.specs.Answers.{held_by};
ghost use Rattle.lines.specs.Lines as L;
ghost use Rattle.tallies.specs.Counted as C;
ghost use Rattle.tallies.specs.Parts as P;
ghost use Rattle.tallies.specs.Tallies as T;

use crate::{Tally, adds, room};
use base::{Handed, Refusal};
use capture::frames::Form;
use chain::Chain;
use lines::Frame;

// The chain and the tally that a line finds and leaves.
#[derive(Clone, Copy)]
pub(crate) struct Counting {
    pub(crate) chain: Chain,
    pub(crate) tally: Tally,
}

// What a line leaves, and whether it was taken or what refused it.
#[derive(Clone, Copy)]
pub(crate) struct Took {
    pub(crate) state: Counting,
    pub(crate) answer: Result<(), Refusal>,
}

// Samples that passed their tests, from one LOAD rise to the next. Between them settings, display and key record stand still: at a
// rise the chips before the stretch and the registers after it say what is counted.
fn samples(n: usize, state: Counting, ss: &[u8]) -> Counting
    requires n_le_most { n ≤ most }
    requires tally_value { T.fits (length ss.now) state.tally ≡ true }
    ensures { result ≡ P.counting_after n (map Events.sample ss.now) state }
{
    let mut next = state.chain;
    let mut tally = state.tally;
    let mut i = 0;
    // each turn goes as far as the next rise, so no iterator counts it
    while i < ss.len() {
        let part = chain::play::to_next_rise(n, next, ss, i);
        let before = next;
        next = part.chain;
        i = part.stop;
        if part.rose {
            tally = adds::rise(n, before, next, tally);
        }
    }
    Counting { chain: next, tally }
}

// A line of samples that passed their test.
fn sample_line(n: usize, number: usize, state: Counting, ss: &[u8]) -> Took
    requires { n ≤ most }
    ensures { P.took_of result ≡ C.counted_line n number state (F.samples ss.now) }
{
    if !room::fits(state.tally, ss.len() as u64) {
        return Took {
            state,
            answer: Err(Refusal::Count(number as u64)),
        };
    }
    Took {
        state: samples(n, state, ss),
        answer: Ok(()),
    }
}

// A line of a scan of a chip below N.
fn scan_line(n: usize, number: usize, state: Counting, k: u8, bytes: [u8; 8]) -> Took
    requires n_le_most { n ≤ most }
    requires k_lt_n { k < n }
    ensures { P.took_of result ≡ C.counted_line n number state (F.scan k bytes) }
{
    let Counting { chain, tally } = state;
    if !room::fits(tally, 1) {
        return Took {
            state,
            answer: Err(Refusal::Count(number as u64)),
        };
    }
    let place = k as usize;
    let scanned = chain::one::scan_chip(place, bytes, chain);
    Took {
        state: Counting {
            chain: scanned.chain,
            tally: adds::scan(tally, place, scanned.taken.recorded),
        },
        answer: Ok(()),
    }
}

// A line after the first.
fn line(n: usize, number: usize, state: Counting, frame: Frame) -> Took
    requires n_le_most { n ≤ most }
    requires count_bound { frame.count ≤ 33 }
    ensures { P.took_of result ≡ C.counted_line n number state (F.form_of n (held_by frame)) }
{
    let Frame { bytes, count } = frame;
    match capture::frames::form_of(n, &bytes[..count]) {
        Form::Other => Took {
            state,
            answer: Err(Refusal::Line(number as u64)),
        },
        Form::Samples => sample_line(n, number, state, &bytes[1..count]),
        Form::Scan => {
            let mut eight = [0; 8];
            eight.copy_from_slice(&bytes[2..10]);
            scan_line(n, number, state, bytes[1], eight)
        }
    }
}

// The lines from a place of the text on, from line 2.
fn lines(n: usize, state: Counting, text: &[u8], from: usize) -> Took
    requires n_le_most { n ≤ most }
    requires from_in_bounds { (from ≤ length text.now) × (length text.now ≤ 65536) }
    ensures { P.took_of result ≡ C.counted_lines n 2 state (L.lines_of (drop from text.now)) }
{
    let mut next = state;
    let mut number = 2;
    let mut place = from;
    // each turn goes past a line's end, so no iterator counts it
    while place < text.len() {
        let end = lines::line_end(text, place);
        if end >= text.len() {
            return Took {
                state: next,
                answer: Err(Refusal::Line(number as u64)),
            };
        }
        let frame = lines::frame_of(&text[place..end]);
        let took = line(n, number, next, frame);
        if took.answer.is_err() {
            return took;
        }
        next = took.state;
        place = end + 1;
        number += 1;
    }
    Took {
        state: next,
        answer: Ok(()),
    }
}

// A tally whose largest N is that of a capture, where that is larger.
fn with_chips(n: usize, tally: Tally) -> Tally
    ensures { result ≡ C.with_chips n tally }
{
    Tally {
        largest: tally.largest.max(n),
        ..tally
    }
}

// A text that isn't too long.
pub(crate) fn whole(tally: Tally, text: &[u8]) -> Handed<Tally, ()>
    requires { length text.now ≤ 65536 }
    ensures { handed result ≡ P.tally_of (C.counted_all tally (L.lines_of text.now)) }
{
    let Some(n) = capture::frames::chips_of(text) else {
        return Handed {
            value: tally,
            answer: Err(Refusal::Line(1)),
        };
    };
    let end = lines::line_end(text, 0);
    let begun = chain::start(n);
    let tally = with_chips(n, tally);
    let first = Counting {
        chain: begun.value,
        tally,
    };
    let took = lines(n, first, text, end + 1);
    Handed {
        value: took.state.tally,
        answer: took.answer,
    }
}
