// Writing the line of a refusal.
ghost use Rattle.base.specs.Refusals.{number_of, place_of};
ghost use Rattle.lines.specs.Answers.{fitting, Puts};
ghost use Rattle.capture.specs.Reports.{refusal_line};

use base::Refusal;

// A refusal: 1F, its number, and its place, a line's number, in four bytes. Where it doesn't fit, nothing is written, and the answer
// is the place given.
pub fn refusal(e: Refusal, out: &mut [u8], at: usize) -> usize
    ensures { Puts (fitting (refusal_line (number_of e) (place_of e)) at out.old) at out.old result out.new }
{
    let mut bytes = [0x1F, base::number(e) as u8, 0, 0, 0, 0];
    bytes[2..].copy_from_slice(&base::place(e).to_be_bytes()[4..]);
    lines::put_line(&bytes, out, at)
}
