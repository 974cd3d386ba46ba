// What is written at an obeyed command.
ghost use Rattle.std.specs.Prelude.{◌+◌, ◌≤◌, length};
ghost use Rattle.lines.specs.Answers as P;
ghost use Rattle.wires.specs.Reports as R;

use crate::Report;
use ch450::play::Transfer;
use ch450::{Command, Panel};

// The segments lit: 44, six bytes.
fn screen_line(panel: Panel, out: &mut [u8], at: usize) -> usize
    requires { at + 15 ≤ length out.old }
    ensures { P.Puts (R.screen_line panel) at out.old result out.new }
{
    let mut bytes = [0x44, 0, 0, 0, 0, 0, 0];
    bytes[1..].copy_from_slice(&ch450::shining(panel));
    lines::put_line(&bytes, out, at)
}

// Byte 1 and byte 2 as clocked: 42, both; and 43, code where the key is read.
fn command_lines(key: u8, first: u8, second: u8, read: bool, out: &mut [u8], at: usize) -> usize
    requires { at + length (R.command_lines key first second read) ≤ length out.old }
    ensures { P.Puts (R.command_lines key first second read) at out.old result out.new }
{
    let bytes = [0x42, first, second];
    let end = lines::put_line(&bytes, out, at);
    if !read {
        return end;
    }
    let code = [0x43, key];
    lines::put_line(&code, out, end)
}

// An obeyed command, given the panel after it.
fn obeyed(
    what: Report,
    key: u8,
    first: u8,
    second: u8,
    meaning: Option<Command>,
    panel: Panel,
    out: &mut [u8],
    at: usize,
) -> usize
    requires { at + length (R.obeyed_lines what key first second meaning panel) ≤ length out.old }
    ensures { P.Puts (R.obeyed_lines what key first second meaning panel) at out.old result out.new }
{
    match meaning {
        None => at,
        Some(_) => match what {
            Report::Commands => {
                let read = ch450::commands::is_read(meaning);
                command_lines(key, first, second, read, out, at)
            }
            Report::Screen => screen_line(panel, out, at),
        },
    }
}

// A transfer that a stop completed, given the panel after it.
pub(crate) fn transfer(
    what: Report,
    key: u8,
    transfer: Option<Transfer>,
    panel: Panel,
    out: &mut [u8],
    at: usize,
) -> usize
    requires { at + length (R.transfer_lines what key transfer panel) ≤ length out.old }
    ensures { P.Puts (R.transfer_lines what key transfer panel) at out.old result out.new }
{
    let Some(Transfer { first, second }) = transfer else {
        return at;
    };
    let meaning = ch450::commands::meaning_of(first, second);
    obeyed(what, key, first, second, meaning, panel, out, at)
}
