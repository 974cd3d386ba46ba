// Raw streams: 00 01 N, then a byte for each sample, and nine for each scan of a chip.
ghost use Rattle.std.specs.Prelude.{◌≡◌, ◌+◌, ◌≤◌, true, false, length};
ghost use Rattle.chain.specs.Chain.{chip_count};
ghost use Rattle.lines.specs.Answers.{fitting, Puts};
ghost use Rattle.reads.specs.Reads.{next_offset};
ghost use Rattle.streams.specs.Parts as P;
ghost use Rattle.streams.specs.Raw as R;
ghost use Rattle.streams.specs.Steps as S;

use crate::{State, Step, held, samples};
use capture::Report;

// The line of a byte that may not stand at an offset: 1F, 0A, and the offset in eight bytes. Where it doesn't fit, nothing is written.
pub(crate) fn refusal(offset: u64, out: &mut [u8], at: usize) -> usize
    ensures { Puts (fitting (R.raw_refusal offset) at out.old) at out.old result out.new }
{
    let mut bytes = [0x1F, 0x0A, 0, 0, 0, 0, 0, 0, 0, 0];
    bytes[2..].copy_from_slice(&lines::eight_bytes(offset));
    lines::put_line(&bytes, out, at)
}

// A byte that may not stand there.
fn refused(state: State, out: &mut [u8], at: usize) -> Step
    requires { at + 21 ≤ length out.old }
    ensures { P.Steps (S.raw_refused state) at out.old result out.new }
{
    Step {
        state,
        over: true,
        at: refusal(state.place, out, at),
    }
}

// The state that holds one byte more.
fn kept(state: State, b: u8) -> State
    ensures { result ≡ S.holding (next_offset state.place) b state }
{
    State {
        place: state.place.wrapping_add(1),
        held: held::grown(state.held, &[b]),
        ..state
    }
}

// One of the first three bytes: 00, 01, N.
fn head_byte(state: State, b: u8, out: &mut [u8], at: usize) -> Step
    requires { at + 21 ≤ length out.old }
    ensures { P.Steps (S.head_byte state b) at out.old result out.new }
{
    let n = b as usize;
    if state.held.count < 2 {
        if n != state.held.count {
            return refused(state, out, at);
        }
        return Step {
            state: kept(state, b),
            over: false,
            at,
        };
    }
    if !chain::checks::is_count(n) {
        return refused(state, out, at);
    }
    Step {
        state: State {
            n,
            chain: chain::start(n).value,
            place: state.place.wrapping_add(1),
            held: held::none(),
            reader: reads::start(),
        },
        over: false,
        at,
    }
}

// An item that is whole: a scan whose first eight bytes are held, and its last one.
fn scan(what: Report, state: State, b: u8, out: &mut [u8], at: usize) -> Step
    requires { at + 21 ≤ length out.old }
    ensures { P.Steps (S.raw_taken what state (S.scan_held state.held b)) at out.old result out.new }
{
    let k = state.held.bytes[0] % 128;
    let mut eight = [b; 8];
    eight[..7].copy_from_slice(&state.held.bytes[1..8]);
    let took = capture::takes::scan(what, state.n, state.chain, k, eight, out, at);
    Step {
        state: State {
            chain: took.chain,
            place: state.place.wrapping_add(1),
            held: held::none(),
            ..state
        },
        over: false,
        at: took.at,
    }
}

// Whether a byte begins a scan: 80H + k, of a chip k below N.
fn is_scan(n: usize, b: u8) -> bool
    ensures { result ≡ R.is_scan n b }
{
    b >= 0x80 && ((b - 0x80) as usize) < n
}

// One byte of an item, other than a sample.
fn item_byte(what: Report, state: State, b: u8, out: &mut [u8], at: usize) -> Step
    requires n_value { chip_count state.n ≡ true }
    requires b_value { P.starts_run state b ≡ false }
    requires at_in_bounds { at + 21 ≤ length out.old }
    ensures { P.Steps (S.item_byte what state b) at out.old result out.new }
{
    let count = state.held.count;
    if count >= 8 {
        return scan(what, state, b, out, at);
    }
    if count == 0 && !is_scan(state.n, b) {
        return refused(state, out, at);
    }
    Step {
        state: kept(state, b),
        over: false,
        at,
    }
}

// One byte, other than a sample.
fn one_byte(what: Report, state: State, b: u8, out: &mut [u8], at: usize) -> Step
    requires b_value { P.starts_run state b ≡ false }
    requires at_in_bounds { at + 21 ≤ length out.old }
    ensures { P.Steps (S.raw_byte what state b) at out.old result out.new }
{
    if !chain::checks::is_count(state.n) {
        return head_byte(state, b, out, at);
    }
    item_byte(what, state, b, out, at)
}

// A block of a raw stream.
pub(crate) fn fed(what: Report, state: State, bytes: &[u8], out: &mut [u8]) -> Step
    requires bytes_len_bound { length bytes.now ≤ 4096 }
    requires in_bounds { P.most_written ≤ length out.old }
    ensures { P.Steps (S.steps (S.raw_byte what) state bytes.now) 0 out.old result out.new }
{
    let mut next = state;
    let mut at = 0;
    let mut i = 0;
    // a turn is a byte or a run of samples, so no iterator counts it
    while i < bytes.len() {
        let b = bytes[i];
        if samples::starts_run(next, b) {
            let ran = samples::run(what, next, bytes, i, out, at);
            next = ran.step.state;
            at = ran.step.at;
            i += ran.count;
            continue;
        }
        let step = one_byte(what, next, b, out, at);
        if step.over {
            return step;
        }
        next = step.state;
        at = step.at;
        i += 1;
    }
    Step {
        state: next,
        over: false,
        at,
    }
}
