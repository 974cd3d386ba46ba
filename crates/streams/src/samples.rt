// Runs of samples in a raw stream: before one has a recorded DOUT they are played at once, as they stand; from then on with the looks at DOUT.
ghost use Rattle.std.specs.Prelude.{◌≡◌, ◌+◌, ◌*◌, ◌≤◌, true, false, length, drop};
ghost use Rattle.base.specs.Below.{AllBelow};
ghost use Rattle.chain.specs.Chain.{chip_count};
ghost use Rattle.reads.specs.Parts.{sample_room, run_length};
ghost use Rattle.reads.specs.Reads.{looking};
ghost use Rattle.streams.specs.Parts as P;

use crate::{State, Step, held};
use capture::Report;

// Whether a byte is the first of a run of samples.
pub(crate) fn starts_run(state: State, b: u8) -> bool
    ensures { result ≡ P.starts_run state b }
{
    chain::checks::is_count(state.n) && state.held.count == 0 && reads::is_sample(b)
}

// How many samples without DOUT stand before the next byte that is none, or the end.
fn plain_length(bytes: &[u8]) -> usize
    ensures { result ≡ P.plain_length bytes.now }
{
    bytes.iter().take_while(|b| **b < 0x08).count()
}

// Samples before one has a recorded DOUT, played at once.
fn played(what: Report, state: State, levels: &[u8], out: &mut [u8], at: usize) -> Step
    requires n_value { chip_count state.n ≡ true }
    requires all_below { AllBelow 8 levels.now }
    requires dout_value { looking state.reader.dout ≡ false }
    requires levels_in_bounds { at + 84 * (length levels.now + 1) ≤ length out.old }
    ensures { P.Steps (P.ran what state levels.now) at out.old result out.new }
{
    let took = capture::takes::samples(what, state.n, state.chain, levels, out, at);
    Step {
        state: State {
            chain: took.chain,
            place: state.place.wrapping_add(levels.len() as u64),
            held: held::none(),
            ..state
        },
        over: false,
        at: took.at,
    }
}

// A run of samples that was played: the step, and how many there were.
#[derive(Clone, Copy)]
pub(crate) struct Ran {
    pub(crate) step: Step,
    pub(crate) count: usize,
}

// The samples that stand first, with the looks at DOUT.
fn looked(what: Report, state: State, bytes: &[u8], out: &mut [u8], at: usize) -> Ran
    requires n_value { chip_count state.n ≡ true }
    requires bound { 1 ≤ run_length bytes.now }
    requires bytes_in_bounds { at + sample_room * run_length bytes.now ≤ length out.old }
    ensures { P.Runs what state bytes.now at out.old result out.new }
{
    let ran = reads::samples(
        what,
        state.n,
        state.chain,
        state.reader,
        state.place,
        bytes,
        out,
        at,
    );
    Ran {
        step: Step {
            state: State {
                n: state.n,
                chain: ran.chain,
                place: state.place.wrapping_add(ran.count as u64),
                held: held::none(),
                reader: ran.reader,
            },
            over: false,
            at: ran.at,
        },
        count: ran.count,
    }
}

// Samples from a place on, some or all of those before the next byte that is none.
pub(crate) fn run(
    what: Report,
    state: State,
    bytes: &[u8],
    from: usize,
    out: &mut [u8],
    at: usize,
) -> Ran
    requires n_value { chip_count state.n ≡ true }
    requires from_in_bounds { from ≤ length bytes.now }
    requires bound { 1 ≤ run_length (drop from bytes.now) }
    requires bytes_in_bounds { at + sample_room * (run_length (drop from bytes.now) + 1) ≤ length out.old }
    ensures { P.Runs what state (drop from bytes.now) at out.old result out.new }
{
    let rest = &bytes[from..];
    if !reads::is_looking(state.reader) {
        let count = plain_length(rest);
        if count > 0 {
            return Ran {
                step: played(what, state, &rest[..count], out, at),
                count,
            };
        }
    }
    looked(what, state, rest, out, at)
}
