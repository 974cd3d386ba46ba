// The walk over a text: line by line, each tested whole before any of it is played.
ghost use Rattle.std.specs.Prelude.{◌+◌, ◌≤◌, ◌<◌, length, drop};
ghost use Rattle.base.specs.Refusals.{refused};
ghost use Rattle.chain.specs.Chain as C;
ghost use Rattle.lines.specs.Answers.{held_by};
ghost use Rattle.lines.specs.Lines as L;
ghost use Rattle.capture.specs.Frames as F;
ghost use Rattle.capture.specs.Parts as P;
ghost use Rattle.capture.specs.Replay as R;
ghost use Rattle.capture.specs.Reports.{refusal_line};

use crate::frames::Form;
use crate::{Replayed, Report, frames, put, reports};
use base::Refusal;
use chain::Chain;
use lines::Frame;

// A line: the chain after it, whether it was taken, and the place past what it wrote.
// Chain and place are told of a line that isn't taken too (specs/Parts `Takes`), so the flag stands beside them.
#[derive(Clone, Copy)]
pub struct Took {
    pub chain: Chain,
    pub taken: bool,
    pub at: usize,
}

// Samples that passed their test, from one LOAD rise to the next.
pub(crate) fn samples(
    what: Report,
    n: usize,
    chain: Chain,
    ss: &[u8],
    out: &mut [u8],
    at: usize,
) -> Took
    requires n_bound { n ≤ C.most }
    requires chain_in_bounds { at + length (R.rises_in what n ss.now chain) ≤ length out.old }
    ensures { P.Takes (R.taken what n chain (F.samples ss.now)) at out.old result out.new }
{
    let mut next = chain;
    let mut end = at;
    let mut i = 0;
    // each turn goes as far as the next rise, so no iterator counts it
    while i < ss.len() {
        let part = chain::play::to_next_rise(n, next, ss, i);
        next = part.chain;
        i = part.stop;
        if part.rose {
            end = reports::rise(what, n, next, out, end);
        }
    }
    Took {
        chain: next,
        taken: true,
        at: end,
    }
}

// A scan of a chip.
pub(crate) fn scan_line(
    what: Report,
    n: usize,
    chain: Chain,
    k: u8,
    bytes: [u8; 8],
    out: &mut [u8],
    at: usize,
) -> Took
    requires { at + length (P.out_of (R.taken what n chain (F.scan k bytes)).told) ≤ length out.old }
    ensures { P.Takes (R.taken what n chain (F.scan k bytes)) at out.old result out.new }
{
    let scanned = chain::one::scan_chip(k as usize, bytes, chain);
    Took {
        chain: scanned.chain,
        taken: true,
        at: reports::scan(what, k, scanned.before, scanned.taken, out, at),
    }
}

// A line after the first.
pub(crate) fn line(
    what: Report,
    n: usize,
    chain: Chain,
    frame: Frame,
    out: &mut [u8],
    at: usize,
) -> Took
    requires n_bound { n ≤ C.most }
    requires count_bound { frame.count ≤ 33 }
    requires frame_in_bounds { at + length (P.out_of (R.taken what n chain (F.form_of n (held_by frame))).told) ≤ length out.old }
    ensures { P.Takes (R.taken what n chain (F.form_of n (held_by frame))) at out.old result out.new }
{
    let Frame { bytes, count } = frame;
    match frames::form_of(n, &bytes[..count]) {
        Form::Samples => samples(what, n, chain, &bytes[1..count], out, at),
        Form::Scan => {
            let mut eight = [0; 8];
            eight.copy_from_slice(&bytes[2..10]);
            scan_line(what, n, chain, bytes[1], eight, out, at)
        }
        Form::Other => Took {
            chain,
            taken: false,
            at,
        },
    }
}

// A line that isn't of the form: refusal 10, written and answered.
fn wrong_line(number: usize, out: &mut [u8], at: usize) -> Replayed
    requires { at + 13 ≤ length out.old }
    ensures { P.Ends (refusal_line 10 number) (refused 10 number) at out.old result out.new }
{
    Replayed {
        bytes: put::refusal(Refusal::Line(number as u64), out, at),
        answer: Err(Refusal::Line(number as u64)),
    }
}

// The lines from a place of the text on, from line 2.
fn lines(what: Report, n: usize, chain: Chain, text: &[u8], from: usize, out: &mut [u8]) -> Replayed
    requires n_bound { n ≤ C.most }
    requires from_in_bounds { (from ≤ length text.now) × (length text.now ≤ 65536) }
    requires text_in_bounds { length (R.lines_out what n 2 chain (L.lines_of (drop from text.now))) ≤ length out.old }
    ensures { P.Ends (R.lines_out what n 2 chain (L.lines_of (drop from text.now))) (R.lines_end n 2 (L.lines_of (drop from text.now))) 0 out.old result out.new }
{
    let mut next = chain;
    let mut number = 2;
    let mut at = 0;
    let mut place = from;
    // each turn goes past a line's end, so no iterator counts it
    while place < text.len() {
        let end = lines::line_end(text, place);
        if end >= text.len() {
            return wrong_line(number, out, at);
        }
        let frame = lines::frame_of(&text[place..end]);
        let took = line(what, n, next, frame, out, at);
        if !took.taken {
            return wrong_line(number, out, at);
        }
        next = took.chain;
        at = took.at;
        place = end + 1;
        number += 1;
    }
    Replayed {
        bytes: at,
        answer: Ok(()),
    }
}

// A whole text.
pub(crate) fn whole(what: Report, text: &[u8], out: &mut [u8]) -> Replayed
    requires { length (R.output_of what text.now) ≤ length out.old }
    ensures { R.Replays what text.now out.old result out.new }
{
    if text.len() > crate::LONGEST {
        return Replayed {
            bytes: put::refusal(Refusal::Text, out, 0),
            answer: Err(Refusal::Text),
        };
    }
    let Some(n) = frames::chips_of(text) else {
        return wrong_line(1, out, 0);
    };
    let end = lines::line_end(text, 0);
    let begun = chain::start(n);
    lines(what, n, begun.value, text, end + 1, out)
}
