// Commands as numbers, and back.
ghost use Rattle.std.specs.Prelude.{◌≡◌, ◌%◌, ◌∷◌};
ghost use Rattle.base.specs.Refusals.{done};
ghost use Rattle.zhaqsumir.specs.Commands as C;

use word::{Command, Display, System};

// The answer of a word that means a command: no refusal, its kind, from 0 in document 01's order, and five fields.
pub(crate) fn meaning(command: Command) -> [u64; 8]
    ensures { result ≡ 0 ∷ 0 ∷ C.numbers_of command }
{
    match command {
        Command::NoOperation => [0, 0, 0, 0, 0, 0, 0, 0],
        Command::BarLevel(level) => [0, 0, 1, u64::from(level), 0, 0, 0, 0],
        Command::SegmentClear(addr) => [0, 0, 2, u64::from(addr), 0, 0, 0, 0],
        Command::SegmentSet(addr) => [0, 0, 3, u64::from(addr), 0, 0, 0, 0],
        Command::Reset => [0, 0, 4, 0, 0, 0, 0, 0],
        Command::Sleep => [0, 0, 5, 0, 0, 0, 0, 0],
        Command::ShiftLeft => [0, 0, 6, 0, 0, 0, 0, 0],
        Command::ShiftRight => [0, 0, 7, 0, 0, 0, 0, 0],
        Command::RotateLeft => [0, 0, 8, 0, 0, 0, 0, 0],
        Command::RotateRight => [0, 0, 9, 0, 0, 0, 0, 0],
        Command::CustomCharacter(shape) => [0, 0, 10, u64::from(shape), 0, 0, 0, 0],
        Command::SystemParameters(s) => [
            0,
            0,
            11,
            u64::from(s.intm),
            u64::from(s.sspd),
            u64::from(s.dplr),
            u64::from(s.keyb),
            u64::from(s.disp),
        ],
        Command::DisplayParameters(d) => [0, 0, 12, u64::from(d.mode), u64::from(d.limit), 0, 0, 0],
        Command::BlinkByte(byte) => [0, 0, 13, u64::from(byte), 0, 0, 0, 0],
        Command::ReadKey => [0, 0, 14, 0, 0, 0, 0, 0],
        Command::LoadDigit { digit, byte } => [
            0,
            0,
            15,
            u64::from(digit),
            u64::from(byte),
            0,
            0,
            0,
        ],
    }
}

// Five bits.
fn system_from(a: u64, b: u64, c: u64, d: u64, e: u64) -> Option<Command>
    ensures { C.given_tells result ≡ C.system_from a b c d e }
{
    if a > 1 || b > 1 || c > 1 || d > 1 || e > 1 {
        return None;
    }
    Some(Command::SystemParameters(System {
        intm: a == 1,
        sspd: b == 1,
        dplr: c == 1,
        keyb: d == 1,
        disp: e == 1,
    }))
}

// A bit, and a limit.
fn display_from(a: u64, b: u64) -> Option<Command>
    ensures { C.given_tells result ≡ C.display_from a b }
{
    if a > 1 || b > u64::from(word::MOST_LIMIT) {
        return None;
    }
    Some(Command::DisplayParameters(Display {
        mode: a == 1,
        limit: b as u8,
    }))
}

// A digit, and a byte.
fn digit_from(a: u64, b: u64) -> Option<Command>
    ensures { C.given_tells result ≡ C.digit_from a b }
{
    if a > u64::from(word::MOST_DIGIT) || b > 255 {
        return None;
    }
    Some(Command::LoadDigit {
        digit: a as u8,
        byte: b as u8,
    })
}

// The low byte of a number.
fn low(a: u64) -> u8
    ensures { result ≡ a % 256 }
{
    (a % 256) as u8
}

// A command with one field, the number given for it, and the most that it may be.
fn one_field(a: u64, most: u8, command: Command) -> Option<Command>
    ensures { C.given_tells result ≡ C.fits most a (done command) }
{
    if a > u64::from(most) {
        return None;
    }
    Some(command)
}

// The command of a kind and five fields.
pub(crate) fn command_from(kind: u64, a: u64, b: u64, c: u64, d: u64, e: u64) -> Option<Command>
    ensures { C.given_tells result ≡ C.command_from kind a b c d e }
{
    match kind {
        0 => Some(Command::NoOperation),
        1 => one_field(a, word::MOST_LEVEL, Command::BarLevel(low(a))),
        2 => one_field(a, word::MOST_ADDRESS, Command::SegmentClear(low(a))),
        3 => one_field(a, word::MOST_ADDRESS, Command::SegmentSet(low(a))),
        4 => Some(Command::Reset),
        5 => Some(Command::Sleep),
        6 => Some(Command::ShiftLeft),
        7 => Some(Command::ShiftRight),
        8 => Some(Command::RotateLeft),
        9 => Some(Command::RotateRight),
        10 => one_field(a, word::MOST_SHAPE, Command::CustomCharacter(low(a))),
        11 => system_from(a, b, c, d, e),
        12 => display_from(a, b),
        13 => one_field(a, 255, Command::BlinkByte(low(a))),
        14 => Some(Command::ReadKey),
        15 => digit_from(a, b),
        _ => None,
    }
}
