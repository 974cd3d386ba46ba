// A line's frame, samples or a scan taken into a buffer of any length: the walk's own steps, for the other crates. The public functions
// are inner ones; none of them has a `requires`.
ghost use Rattle.std.specs.Prelude.{◌≡◌, ◌+◌, leb};
ghost use Rattle.capture.specs.Parts.{Takes};
ghost use Rattle.capture.specs.Takes as T;

use crate::walk::Took;
use crate::{Report, walk};
use chain::Chain;
use lines::Frame;

// Room for what any line writes: 33 bytes of two digits, of each a quarter of the most chips' longest lines.
const LINE_ROOM: usize = chain::MOST / 4 * 21 * 66;

// Room for what one sample can write: a LOAD rise needs two, and writes the most chips' longest lines.
const SAMPLE_ROOM: usize = chain::MOST / 2 * 21;

// Room for what a scan writes: the longest line.
const SCAN_ROOM: usize = 21;

// Nothing was taken.
fn untaken(chain: Chain, at: usize) -> Took
    ensures { result ≡ T.untaken chain at }
{
    Took {
        chain,
        taken: false,
        at,
    }
}

// Whether a buffer so long has room for so much at a place.
fn has_room(long: usize, at: usize, much: usize) -> bool
    ensures { result ≡ leb (at + much) long }
{
    at <= long && long - at >= much
}

// The bytes of a line after the first. Where N is above the most chips, the frame counts more bytes than it has, or less than a line's
// room is left, nothing is taken.
#[tactic(auto, using(crate::proofs::Taken::line_fits))]
pub fn line(what: Report, n: usize, chain: Chain, frame: Frame, out: &mut [u8], at: usize) -> Took
    ensures { Takes (T.line_where what n chain frame at out.old) at out.old result out.new }
{
    if n > chain::MOST || frame.count > 33 || !has_room(out.len(), at, LINE_ROOM) {
        return untaken(chain, at);
    }
    walk::line(what, n, chain, frame, out, at)
}

// Samples, tested or not. Where N is above the most chips, or there isn't room for each of them and one more, nothing is taken.
#[tactic(auto, using(crate::proofs::Taken::samples_fit))]
pub fn samples(what: Report, n: usize, chain: Chain, ss: &[u8], out: &mut [u8], at: usize) -> Took
    ensures { Takes (T.samples_where what n chain ss.now at out.old) at out.old result out.new }
{
    if n > chain::MOST || at > out.len() || (out.len() - at) / SAMPLE_ROOM <= ss.len() {
        return untaken(chain, at);
    }
    walk::samples(what, n, chain, ss, out, at)
}

// A scan of a chip. Where there isn't room for a line, nothing is taken.
#[tactic(auto, using(crate::proofs::Taken::scan_fits))]
pub fn scan(
    what: Report,
    n: usize,
    chain: Chain,
    k: u8,
    bytes: [u8; 8],
    out: &mut [u8],
    at: usize,
) -> Took
    ensures { Takes (T.scan_where what n chain k bytes at out.old) at out.old result out.new }
{
    if !has_room(out.len(), at, SCAN_ROOM) {
        return untaken(chain, at);
    }
    walk::scan_line(what, n, chain, k, bytes, out, at)
}
