// Texts: the lines of a capture text, without its limit of length. A line that a block's end cuts is held.
ghost use Rattle.std.specs.Prelude.{◌+◌, ◌<◌, ◌≤◌, length};
ghost use Rattle.base.specs.Refusals.{number_of, place_of};
ghost use Rattle.lines.specs.Answers.{held_by};
ghost use Rattle.capture.specs.Frames.{first_of};
ghost use Rattle.capture.specs.Reports.{refusal_line};
ghost use Rattle.capture.specs.Takes.{line_room};
ghost use Rattle.streams.specs.Parts as P;
ghost use Rattle.streams.specs.Steps as S;

use crate::{State, Step, held};
use base::Refusal;
use capture::Report;
use lines::Frame;

// The text is refused.
fn refused(state: State, e: Refusal, out: &mut [u8], at: usize) -> Step
    requires { at + 13 ≤ length out.old }
    ensures { P.Steps (S.stopped state (refusal_line (number_of e) (place_of e))) at out.old result out.new }
{
    Step {
        state,
        over: true,
        at: capture::put::refusal(e, out, at),
    }
}

// The first line: it gives N, and a chain is started.
fn first(state: State, frame: Frame, out: &mut [u8], at: usize) -> Step
    requires count_bound { frame.count ≤ 33 }
    requires place_bound { state.place < 4294967296 }
    requires at_in_bounds { at + 13 ≤ length out.old }
    ensures { P.Steps (S.first_taken state (first_of (held_by frame))) at out.old result out.new }
{
    let Some(n) = capture::frames::chips_in(&frame.bytes[..frame.count]) else {
        return refused(state, Refusal::Line(state.place), out, at);
    };
    Step {
        state: State {
            n,
            chain: chain::start(n).value,
            place: state.place + 1,
            held: held::none(),
            reader: reads::start(),
        },
        over: false,
        at,
    }
}

// The line that is held was ended.
fn ended(what: Report, state: State, out: &mut [u8], at: usize) -> Step
    requires place_bound { state.place < 4294967296 }
    requires line_room_in_bounds { at + line_room ≤ length out.old }
    ensures { P.Steps (S.line_ended what state) at out.old result out.new }
{
    let frame = held::frame(state.held);
    if !chain::checks::is_count(state.n) {
        return first(state, frame, out, at);
    }
    let took = capture::takes::line(what, state.n, state.chain, frame, out, at);
    if !took.taken {
        return refused(state, Refusal::Line(state.place), out, at);
    }
    Step {
        state: State {
            chain: took.chain,
            place: state.place + 1,
            held: held::none(),
            ..state
        },
        over: false,
        at: took.at,
    }
}

// A block of a text.
pub(crate) fn fed(what: Report, state: State, bytes: &[u8], out: &mut [u8]) -> Step
    requires bytes_len_bound { length bytes.now ≤ 4096 }
    requires in_bounds { P.most_written ≤ length out.old }
    ensures { P.Steps (S.steps (S.text_byte what) state bytes.now) 0 out.old result out.new }
{
    let mut next = state;
    let mut at = 0;
    let mut i = 0;
    // a turn is as long as the line that it takes, so no iterator counts it
    while i < bytes.len() {
        if next.place >= 4294967296 {
            return refused(next, Refusal::Text, out, at);
        }
        let end = lines::line_end(bytes, i);
        next.held = held::grown(next.held, &bytes[i..end]);
        if end >= bytes.len() {
            return Step {
                state: next,
                over: false,
                at,
            };
        }
        let step = ended(what, next, out, at);
        if step.over {
            return step;
        }
        next = step.state;
        at = step.at;
        i = end + 1;
    }
    Step {
        state: next,
        over: false,
        at,
    }
}
