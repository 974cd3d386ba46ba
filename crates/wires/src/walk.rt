// The walk over a text: line by line, each tested whole before any of it is played.
ghost use Rattle.std.specs.Prelude.{◌+◌, ◌≤◌, length, drop};
ghost use Rattle.base.specs.Refusals.{refused};
ghost use Rattle.capture.specs.Parts.{Ends, out_of};
ghost use Rattle.capture.specs.Reports.{refusal_line};
ghost use Rattle.lines.specs.Answers.{held_by};
ghost use Rattle.lines.specs.Lines as L;
ghost use Rattle.wires.specs.Frames as F;
ghost use Rattle.wires.specs.Parts as P;
ghost use Rattle.wires.specs.Replay as R;

use crate::{Report, frames, reports};
use base::Refusal;
use capture::Replayed;
use ch450::Panel;
use lines::Frame;

// A line: the panel after it, whether it was taken, and the place past what it wrote.
// Panel and place are told of a line that isn't taken too (specs/Parts `Takes`), so the flag stands beside them.
#[derive(Clone, Copy)]
pub(crate) struct Took {
    pub(crate) panel: Panel,
    pub(crate) taken: bool,
    pub(crate) at: usize,
}

// Samples that passed their test, from one completed transfer to the next.
fn samples(what: Report, key: u8, panel: Panel, ss: &[u8], out: &mut [u8], at: usize) -> Took
    requires { at + length (R.written_by what key ss.now panel) ≤ length out.old }
    ensures { P.Takes (R.taken what key panel (F.samples ss.now)) at out.old result out.new }
{
    let mut next = panel;
    let mut end = at;
    let mut i = 0;
    // each turn goes as far as the next transfer, so no iterator counts it
    while i < ss.len() {
        let part = ch450::play::to_next_transfer(next, ss, i);
        next = part.panel;
        i = part.stop;
        end = reports::transfer(what, key, part.transfer, next, out, end);
    }
    Took {
        panel: next,
        taken: true,
        at: end,
    }
}

// A line after the first.
fn line(what: Report, key: u8, panel: Panel, frame: Frame, out: &mut [u8], at: usize) -> Took
    requires count_bound { frame.count ≤ 33 }
    requires frame_in_bounds { at + length (out_of (R.taken what key panel (F.form_of (held_by frame))).told) ≤ length out.old }
    ensures { P.Takes (R.taken what key panel (F.form_of (held_by frame))) at out.old result out.new }
{
    let Frame { bytes, count } = frame;
    if !frames::is_samples(&bytes[..count]) {
        return Took {
            panel,
            taken: false,
            at,
        };
    }
    samples(what, key, panel, &bytes[1..count], out, at)
}

// A line that isn't of the form: refusal 10, written and answered.
fn wrong_line(number: usize, out: &mut [u8], at: usize) -> Replayed
    requires { at + 13 ≤ length out.old }
    ensures { Ends (refusal_line 10 number) (refused 10 number) at out.old result out.new }
{
    Replayed {
        bytes: capture::put::refusal(Refusal::Line(number as u64), out, at),
        answer: Err(Refusal::Line(number as u64)),
    }
}

// The lines from a place of the text on, from line 2.
fn lines(what: Report, key: u8, panel: Panel, text: &[u8], from: usize, out: &mut [u8]) -> Replayed
    requires from_in_bounds { (from ≤ length text.now) × (length text.now ≤ 65536) }
    requires text_in_bounds { length (R.lines_out what key 2 panel (L.lines_of (drop from text.now))) ≤ length out.old }
    ensures { Ends (R.lines_out what key 2 panel (L.lines_of (drop from text.now))) (R.lines_end 2 (L.lines_of (drop from text.now))) 0 out.old result out.new }
{
    let mut next = panel;
    let mut number = 2;
    let mut at = 0;
    let mut place = from;
    // each turn goes past a line's end, so no iterator counts it
    while place < text.len() {
        let end = lines::line_end(text, place);
        if end >= text.len() {
            return wrong_line(number, out, at);
        }
        let frame = lines::frame_of(&text[place..end]);
        let took = line(what, key, next, frame, out, at);
        if !took.taken {
            return wrong_line(number, out, at);
        }
        next = took.panel;
        at = took.at;
        place = end + 1;
        number += 1;
    }
    Replayed {
        bytes: at,
        answer: Ok(()),
    }
}

// A whole text.
pub(crate) fn whole(what: Report, text: &[u8], out: &mut [u8]) -> Replayed
    requires { length (R.output_of what text.now) ≤ length out.old }
    ensures { R.Replays what text.now out.old result out.new }
{
    if text.len() > capture::LONGEST {
        return Replayed {
            bytes: capture::put::refusal(Refusal::Text, out, 0),
            answer: Err(Refusal::Text),
        };
    }
    let Some(first) = frames::first_of(text) else {
        return wrong_line(1, out, 0);
    };
    let end = lines::line_end(text, 0);
    let panel = ch450::power_on(first.digits);
    lines(what, first.key, panel, text, end + 1, out)
}
