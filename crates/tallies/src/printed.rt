// The lines of a tally.
ghost use Rattle.std.specs.Prelude.{◌+◌, ◌≤◌, length, take};
ghost use Rattle.base.specs.Refusals.{tells};
ghost use Rattle.capture.specs.Law.{end_line};
ghost use Rattle.lines.specs.Answers.{Puts};
ghost use Rattle.lines.specs.Lines as L;
ghost use Rattle.tallies.specs.Printed as P;

use crate::{Counts, Tally};
use base::Refusal;

// 13, chip, and its four counts.
fn chip_line(k: u8, c: Counts, out: &mut [u8], at: usize) -> usize
    requires { at + 69 ≤ length out.old }
    ensures { Puts (P.chip_line k c) at out.old result out.new }
{
    let mut bytes = [0; 34];
    bytes[0] = 0x13;
    bytes[1] = k;
    bytes[2..10].copy_from_slice(&lines::eight_bytes(c.recorded));
    bytes[10..18].copy_from_slice(&lines::eight_bytes(c.read));
    bytes[18..26].copy_from_slice(&lines::eight_bytes(c.overwritten));
    bytes[26..].copy_from_slice(&lines::eight_bytes(c.cleared));
    lines::put_line(&bytes, out, at)
}

// The chips below N.
fn chip_lines(n: usize, chips: [Counts; chain::MOST], out: &mut [u8], at: usize) -> usize
    requires { at + length (L.lines_at P.chip_line 0 (take n chips)) ≤ length out.old }
    ensures { Puts (L.lines_at P.chip_line 0 (take n chips)) at out.old result out.new }
{
    let mut end = at;
    for (k, counts) in chips.iter().enumerate() {
        if k >= n {
            return end;
        }
        end = chip_line(k as u8, *counts, out, end);
    }
    end
}

// 14, code and tally, where the tally is above 0.
fn code_line(code: u8, count: u64, out: &mut [u8], at: usize) -> usize
    requires { at + length (P.code_line code count) ≤ length out.old }
    ensures { Puts (P.code_line code count) at out.old result out.new }
{
    if count == 0 {
        return at;
    }
    let mut bytes = [0x14, code, 0, 0, 0, 0, 0, 0, 0, 0];
    bytes[2..].copy_from_slice(&lines::eight_bytes(count));
    lines::put_line(&bytes, out, at)
}

// The codes, by rising code.
fn code_lines(codes: [u64; 128], out: &mut [u8], at: usize) -> usize
    requires { at + length (L.lines_at P.code_line 0 codes) ≤ length out.old }
    ensures { Puts (L.lines_at P.code_line 0 codes) at out.old result out.new }
{
    let mut end = at;
    for (code, count) in codes.iter().enumerate() {
        end = code_line(code as u8, *count, out, end);
    }
    end
}

// The line of a refusal, if there is one.
fn end_line(answer: Result<(), Refusal>, out: &mut [u8], at: usize) -> usize
    requires { at + length (end_line (tells answer)) ≤ length out.old }
    ensures { Puts (end_line (tells answer)) at out.old result out.new }
{
    match answer {
        Ok(()) => at,
        Err(e) => capture::put::refusal(e, out, at),
    }
}

// All lines of a tally, and a refusal's.
pub(crate) fn all(tally: Tally, answer: Result<(), Refusal>, out: &mut [u8]) -> usize
    requires { length (P.printed_of tally answer) ≤ length out.old }
    ensures { P.Prints tally answer out.old result out.new }
{
    let first = chip_lines(tally.largest, tally.chips, out, 0);
    let second = code_lines(tally.codes, out, first);
    end_line(answer, out, second)
}
