// Capture text: a whole text replayed into a lent array that always suffices. One walk over the text serves two reports: the
// words obeyed and the keys recorded, and the segments lit. The entries are `replay` and `screen`; the modules `frames`,
// `put` and `takes` have inner functions, for the other crates, and `walk` what those of `takes` answer.
#![tactic(auto)]

pub mod frames;
pub mod put;
mod reports;
pub mod takes;
pub mod walk;

ghost use Rattle.base.specs.Lent.{Counts};
ghost use Rattle.capture.specs.Replay.{Replays};

use base::Refusal;

// What is written at each LOAD rise and at each scan.
#[derive(Clone, Copy)]
pub enum Report {
    // 10 chip word at a rise; 11 chip code at a recorded key, or 12 in place of 11 where an unread code was overwritten.
    Words,
    // 30 chip and the segments lit, at a rise, and at a scan that changes them.
    Screen,
}

// How a text was replayed: how many bytes stand at the array's front, and whether it was taken to its end or what refused it.
// A refused text has written too, so the count stands beside the answer.
#[derive(Clone, Copy)]
pub struct Replayed {
    pub bytes: usize,
    pub answer: Result<(), Refusal>,
}

// The longest text.
pub const LONGEST: usize = 65536;

// How long any output of a text can be: for each of its bytes a quarter of the most chips' lines (a LOAD rise needs two samples, of two
// digits each), of 9 bytes for words and 21 for the screen; and a refusal's 13.
pub const WORDS_ROOM: usize = chain::MOST / 4 * 9 * LONGEST + 13;

pub const SCREEN_ROOM: usize = chain::MOST / 4 * 21 * LONGEST + 13;

// Replays a text: the words obeyed and the keys recorded.
pub fn replay(text: &[u8], out: &mut [u8; WORDS_ROOM]) -> Replayed
    ensures replays { Replays Report.Words text.now out.old result out.new }
    ensures counts { Counts result.bytes out.new }
{
    walk::whole(Report::Words, text, out)
}

// Replays a text: the segments lit.
pub fn screen(text: &[u8], out: &mut [u8; SCREEN_ROOM]) -> Replayed
    ensures replays { Replays Report.Screen text.now out.old result out.new }
    ensures counts { Counts result.bytes out.new }
{
    walk::whole(Report::Screen, text, out)
}
