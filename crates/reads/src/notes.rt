// What a look tells, as a line.
ghost use Rattle.std.specs.Prelude.{◌+◌, ◌≤◌, length};
ghost use Rattle.lines.specs.Answers.{Puts};
ghost use Rattle.reads.specs.Notes.{note_line};
ghost use Rattle.reads.specs.declared.Note.TheVariants as N;

use crate::Note;

// A code that was read: 16, chip, code.
fn code_line(k: u8, code: u8, out: &mut [u8], at: usize) -> usize
    requires { at + 19 ≤ length out.old }
    ensures { Puts (note_line k (N.Code code)) at out.old result out.new }
{
    lines::put_line(&[0x16, k, code], out, at)
}

// A readout that was cut: 17, chip.
fn cut_line(k: u8, out: &mut [u8], at: usize) -> usize
    requires { at + 19 ≤ length out.old }
    ensures { Puts (note_line k N.Cut) at out.old result out.new }
{
    lines::put_line(&[0x17, k], out, at)
}

// An interrupt that was seen: 18, chip.
fn interrupt_line(k: u8, out: &mut [u8], at: usize) -> usize
    requires { at + 19 ≤ length out.old }
    ensures { Puts (note_line k N.Interrupt) at out.old result out.new }
{
    lines::put_line(&[0x18, k], out, at)
}

// Where DOUT begins to differ from the latch: 15, and the sample's offset in eight bytes.
fn differs_line(k: u8, offset: u64, out: &mut [u8], at: usize) -> usize
    requires { at + 19 ≤ length out.old }
    ensures { Puts (note_line k (N.Differs offset)) at out.old result out.new }
{
    let mut bytes = [0x15; 9];
    bytes[1..].copy_from_slice(&lines::eight_bytes(offset));
    lines::put_line(&bytes, out, at)
}

// A note's line.
pub(crate) fn put(k: u8, note: Note, out: &mut [u8], at: usize) -> usize
    requires { at + 19 ≤ length out.old }
    ensures { Puts (note_line k note) at out.old result out.new }
{
    match note {
        Note::Nothing => at,
        Note::Code(code) => code_line(k, code, out, at),
        Note::Cut => cut_line(k, out, at),
        Note::Interrupt => interrupt_line(k, out, at),
        Note::Differs(offset) => differs_line(k, offset, out, at),
    }
}
