// What is held of a line or of an item that isn't whole yet, from one block to the next.
ghost use Rattle.std.specs.Prelude.{◌≡◌};
ghost use Rattle.lines.specs.Answers.{frame_for};
ghost use Rattle.streams.specs.Held.{none_held, too_long, grown_by, line_held};

use lines::Frame;

// The characters of a line, or the bytes of an item: the first `count` of the array. 67 stands for more than any line has.
#[derive(Clone, Copy)]
pub struct Held {
    pub bytes: [u8; 66],
    pub count: usize,
}

// Nothing.
pub(crate) fn none() -> Held
    ensures { result ≡ none_held }
{
    Held {
        bytes: [0; 66],
        count: 0,
    }
}

// More than any line has.
fn too_long() -> Held
    ensures { result ≡ too_long }
{
    Held {
        bytes: [0; 66],
        count: 67,
    }
}

// More bytes, one after another.
pub(crate) fn grown(held: Held, more: &[u8]) -> Held
    ensures { result ≡ grown_by held more.now }
{
    let mut next = held;
    for b in more {
        if next.count >= 66 {
            return too_long();
        }
        next.bytes[next.count] = *b;
        next.count += 1;
    }
    next
}

// The bytes of the line that is held; none, where it is too long.
pub(crate) fn frame(held: Held) -> Frame
    ensures { result ≡ frame_for (line_held held) }
{
    if held.count > 66 {
        return lines::frame_of(&[]);
    }
    lines::frame_of(&held.bytes[..held.count])
}
