// What is written at a LOAD rise and at a scan.
ghost use Rattle.std.specs.Prelude.{◌+◌, ◌≤◌, [], ◌∷◌, length};
ghost use Rattle.chain.specs.Chain.{most};
ghost use Rattle.chip.specs.Scans.{recording_of, leaves_of};
ghost use Rattle.lines.specs.Answers as P;
ghost use Rattle.lines.specs.Lines as L;
ghost use Rattle.capture.specs.Reports as R;

use crate::Report;
use chain::Chain;
use chip::scans::AfterScan;
use chip::{Chip, Recorded};

// The segments lit of a chip: 30, chip, eight bytes.
fn screen_line(k: u8, chip: Chip, out: &mut [u8], at: usize) -> usize
    requires { at + 21 ≤ length out.old }
    ensures { P.Puts (R.screen_line k chip) at out.old result out.new }
{
    let mut bytes = [0x30, k, 0, 0, 0, 0, 0, 0, 0, 0];
    bytes[2..].copy_from_slice(&chip::segments::lit(chip));
    lines::put_line(&bytes, out, at)
}

// One chip after a LOAD rise: its register, which the rise obeyed, or its segments lit.
fn rise_line(what: Report, k: u8, chip: Chip, out: &mut [u8], at: usize) -> usize
    requires { at + length (R.rise_line what k chip) ≤ length out.old }
    ensures { P.Puts (R.rise_line what k chip) at out.old result out.new }
{
    match what {
        Report::Words => {
            let w = chip.line.register;
            let bytes = [
                0x10,
                k,
                base::field(w, 8, 8) as u8,
                base::field(w, 0, 8) as u8,
            ];
            lines::put_line(&bytes, out, at)
        }
        Report::Screen => screen_line(k, chip, out, at),
    }
}

// Every chip of a chain after a LOAD rise, from 0 up.
pub(crate) fn rise(what: Report, n: usize, chain: Chain, out: &mut [u8], at: usize) -> usize
    requires n_le_most { n ≤ most }
    requires chain_in_bounds { at + length (R.at_rise what n chain) ≤ length out.old }
    ensures { P.Puts (R.at_rise what n chain) at out.old result out.new }
{
    let mut end = at;
    for (k, chip) in chain.chips[..n].iter().enumerate() {
        end = rise_line(what, k as u8, *chip, out, end);
    }
    end
}

// A code of a chip: the line's kind, chip, code.
fn code_line(kind: u8, k: u8, code: u8, out: &mut [u8], at: usize) -> usize
    requires { at + length (L.line_for (kind ∷ k ∷ code ∷ [])) ≤ length out.old }
    ensures { P.Puts (L.line_for (kind ∷ k ∷ code ∷ [])) at out.old result out.new }
{
    lines::put_line(&[kind, k, code], out, at)
}

// A recorded key: 11, chip, code, or 12 where it overwrote an unread one; a release writes nothing.
fn key_line(k: u8, what: Recorded, out: &mut [u8], at: usize) -> usize
    requires { at + length (R.key_line k (recording_of what)) ≤ length out.old }
    ensures { P.Puts (R.key_line k (recording_of what)) at out.old result out.new }
{
    match what {
        Recorded::Key(code) => code_line(0x11, k, code, out, at),
        Recorded::OverUnread(code) => code_line(0x12, k, code, out, at),
        Recorded::Nothing | Recorded::Released => at,
    }
}

// One scan: the key recorded, or the segments lit where they differ from those before.
pub(crate) fn scan(
    what: Report,
    k: u8,
    before: Chip,
    taken: AfterScan,
    out: &mut [u8],
    at: usize,
) -> usize
    requires { at + length (R.scan_line what k before (leaves_of taken)) ≤ length out.old }
    ensures { P.Puts (R.scan_line what k before (leaves_of taken)) at out.old result out.new }
{
    match what {
        Report::Words => key_line(k, taken.recorded, out, at),
        Report::Screen => {
            if chip::segments::lit(before) == chip::segments::lit(taken.chip) {
                return at;
            }
            screen_line(k, taken.chip, out, at)
        }
    }
}
