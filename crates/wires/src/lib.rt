// Text of two wires: a whole text of a CH450's samples replayed into a lent array that always suffices. One walk over the text serves
// two reports: the commands obeyed and the key's code read, and the segments lit. The entries are `replay` and `screen`; nothing else is
// public.
#![tactic(auto)]

mod frames;
mod reports;
mod walk;

ghost use Rattle.base.specs.Lent.{Counts};
ghost use Rattle.wires.specs.Replay.{Replays};

use capture::Replayed;

// What is written at each obeyed command.
#[derive(Clone, Copy)]
pub enum Report {
    // 42, byte 1, byte 2; and 43, code after it where the key is read.
    Commands,
    // 44 and the segments lit.
    Screen,
}

// How long any output of a text can be: at most one byte for each sample, of two digits each, for a command takes 19 rises and
// writes at most 15 bytes; and a refusal's 13.
pub const ROOM: usize = capture::LONGEST / 2 + 13;

// Replays a text: the commands obeyed and the code read.
pub fn replay(text: &[u8], out: &mut [u8; ROOM]) -> Replayed
    ensures replays { Replays Report.Commands text.now out.old result out.new }
    ensures counts { Counts result.bytes out.new }
{
    walk::whole(Report::Commands, text, out)
}

// Replays a text: the segments lit.
pub fn screen(text: &[u8], out: &mut [u8; ROOM]) -> Replayed
    ensures replays { Replays Report.Screen text.now out.old result out.new }
    ensures counts { Counts result.bytes out.new }
{
    walk::whole(Report::Screen, text, out)
}
