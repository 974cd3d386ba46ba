// Commands and 12-bit words: document 01's chapter "The words". A word decodes to one of sixteen kinds of command, and a
// command encodes to its word. The entries are `decode` and `encode`, which answer every input, by document 01's table or with its
// refusal; `is_legal` is an inner function, for the other crates.
#![tactic(auto)]

ghost use Rattle.std.specs.Prelude.{◌≡◌, ◌+◌, ◌/◌, ◌≤◌, leb};
ghost use Rattle.base.specs.Pick.{pick};
ghost use Rattle.base.specs.Refusals.{done, refused, tells};
ghost use Rattle.word.specs.Words.{decoded_of, encoded_of, word_of, legal};

use base::Refusal;

// The most of each field that has a range narrower than its type: a bar level, a segment's address, a custom character, LIMIT, DIG.
pub const MOST_LEVEL: u8 = 127;

pub const MOST_ADDRESS: u8 = 63;

pub const MOST_SHAPE: u8 = 127;

pub const MOST_LIMIT: u8 = 7;

pub const MOST_DIGIT: u8 = 7;

// System parameters: INTM SSPD DPLR KEYB DISP.
#[derive(Clone, Copy)]
pub struct System {
    pub intm: bool,
    pub sspd: bool,
    pub dplr: bool,
    pub keyb: bool,
    pub disp: bool,
}

// Display parameters: MODE, and LIMIT as the word codes it.
#[derive(Clone, Copy)]
pub struct Display {
    pub mode: bool,
    pub limit: u8,
}

// What a word tells a chip to do.
#[derive(Clone, Copy)]
pub enum Command {
    NoOperation,
    BarLevel(u8),
    SegmentClear(u8),
    SegmentSet(u8),
    Reset,
    Sleep,
    ShiftLeft,
    ShiftRight,
    RotateLeft,
    RotateRight,
    CustomCharacter(u8),
    SystemParameters(System),
    DisplayParameters(Display),
    BlinkByte(u8),
    ReadKey,
    LoadDigit { digit: u8, byte: u8 },
}

// The command that a word means, or refusal 6.
pub fn decode(word: u16) -> Result<Command, Refusal>
    ensures { tells result ≡ decoded_of word }
{
    if word > 4095 {
        return Err(Refusal::Unlisted(0));
    }
    let kind = base::field(word, 8, 4);
    match kind {
        0b0000 => Ok(Command::NoOperation),
        0b0001 => bar_or_segment(word),
        0b0010 => reset_or_sleep(word),
        0b0011 => move_or_custom(word),
        0b0100 => system_of(word),
        0b0101 => display_of(word),
        0b0110 => Ok(Command::BlinkByte(base::field(word, 0, 8) as u8)),
        0b0111 => Ok(Command::ReadKey),
        _ => Ok(Command::LoadDigit {
            digit: base::field(word, 8, 3) as u8,
            byte: base::field(word, 0, 8) as u8,
        }),
    }
}

// 00010 LEVEL(7), 000110 ADDR(6), 000111 ADDR(6)
fn bar_or_segment(word: u16) -> Result<Command, Refusal>
    requires { word / 256 ≡ 0b0001 }
    ensures { tells result ≡ decoded_of word }
{
    if base::field(word, 7, 1) == 0 {
        return Ok(Command::BarLevel(base::field(word, 0, 7) as u8));
    }
    let addr = base::field(word, 0, 6) as u8;
    if base::field(word, 6, 1) == 0 {
        Ok(Command::SegmentClear(addr))
    } else {
        Ok(Command::SegmentSet(addr))
    }
}

// 001000000001, 001000000010
fn reset_or_sleep(word: u16) -> Result<Command, Refusal>
    requires { word / 256 ≡ 0b0010 }
    ensures { tells result ≡ decoded_of word }
{
    match word {
        0b001000000001 => Ok(Command::Reset),
        0b001000000010 => Ok(Command::Sleep),
        _ => Err(Refusal::Unlisted(0)),
    }
}

// 001100000000, ..10, ..01, ..11, 00111 CUSTOM(7)
fn move_or_custom(word: u16) -> Result<Command, Refusal>
    requires { word / 256 ≡ 0b0011 }
    ensures { tells result ≡ decoded_of word }
{
    if base::field(word, 7, 1) == 1 {
        return Ok(Command::CustomCharacter(base::field(word, 0, 7) as u8));
    }
    match word {
        0b001100000000 => Ok(Command::ShiftLeft),
        0b001100000010 => Ok(Command::ShiftRight),
        0b001100000001 => Ok(Command::RotateLeft),
        0b001100000011 => Ok(Command::RotateRight),
        _ => Err(Refusal::Unlisted(0)),
    }
}

// 010000 INTM SSPD DPLR 0 KEYB DISP
fn system_of(word: u16) -> Result<Command, Refusal>
    requires { word / 256 ≡ 0b0100 }
    ensures { tells result ≡ decoded_of word }
{
    if base::field(word, 6, 2) != 0 || base::field(word, 2, 1) != 0 {
        return Err(Refusal::Unlisted(0));
    }
    Ok(Command::SystemParameters(System {
        intm: base::field(word, 5, 1) == 1,
        sspd: base::field(word, 4, 1) == 1,
        dplr: base::field(word, 3, 1) == 1,
        keyb: base::field(word, 1, 1) == 1,
        disp: base::field(word, 0, 1) == 1,
    }))
}

// 0101 MODE LIMIT(3) 0000
fn display_of(word: u16) -> Result<Command, Refusal>
    requires { word / 256 ≡ 0b0101 }
    ensures { tells result ≡ decoded_of word }
{
    if base::field(word, 0, 4) != 0 {
        return Err(Refusal::Unlisted(0));
    }
    Ok(Command::DisplayParameters(Display {
        mode: base::field(word, 7, 1) == 1,
        limit: base::field(word, 4, 3) as u8,
    }))
}

// The word of a command, x bits 0, or refusal 9.
#[tactic(auto, unfolding(crate::specs::Words::encoded_of))]
pub fn encode(command: Command) -> Result<u16, Refusal>
    ensures { tells result ≡ encoded_of command }
{
    match command {
        Command::NoOperation => Ok(0b000000000000),
        Command::BarLevel(level) => leading(0b000100000000, level, MOST_LEVEL),
        Command::SegmentClear(addr) => leading(0b000110000000, addr, MOST_ADDRESS),
        Command::SegmentSet(addr) => leading(0b000111000000, addr, MOST_ADDRESS),
        Command::Reset => Ok(0b001000000001),
        Command::Sleep => Ok(0b001000000010),
        Command::ShiftLeft => Ok(0b001100000000),
        Command::ShiftRight => Ok(0b001100000010),
        Command::RotateLeft => Ok(0b001100000001),
        Command::RotateRight => Ok(0b001100000011),
        Command::CustomCharacter(shape) => leading(0b001110000000, shape, MOST_SHAPE),
        Command::SystemParameters(s) => Ok(system_word(s)),
        Command::DisplayParameters(d) => display_word(d),
        Command::BlinkByte(byte) => leading(0b011000000000, byte, 255),
        Command::ReadKey => Ok(0b011100000000),
        Command::LoadDigit { digit, byte } => digit_word(digit, byte),
    }
}

// A word that ends in a field, which may be at most so large.
fn leading(bits: u16, value: u8, most: u8) -> Result<u16, Refusal>
    requires { bits ≤ 4095 }
    ensures { tells result ≡ pick (leb value most) (done (bits + value)) (refused 9 0) }
{
    if value > most {
        return Err(Refusal::Field(0));
    }
    Ok(bits + u16::from(value))
}

#[tactic(auto, using(base::proofs::Cuts::bit_value_lt))]
fn system_word(s: System) -> u16
    ensures { result ≡ word_of (Command.SystemParameters s) }
{
    0b010000000000
        + 32 * base::bit_value(s.intm)
        + 16 * base::bit_value(s.sspd)
        + 8 * base::bit_value(s.dplr)
        + 2 * base::bit_value(s.keyb)
        + base::bit_value(s.disp)
}

#[tactic(auto, using(base::proofs::Cuts::bit_value_lt), unfolding(crate::specs::Words::encoded_of))]
fn display_word(d: Display) -> Result<u16, Refusal>
    ensures { tells result ≡ encoded_of (Command.DisplayParameters d) }
{
    if d.limit > MOST_LIMIT {
        return Err(Refusal::Field(0));
    }
    Ok(0b010100000000 + 128 * base::bit_value(d.mode) + 16 * u16::from(d.limit))
}

#[tactic(auto, unfolding(crate::specs::Words::encoded_of))]
fn digit_word(digit: u8, byte: u8) -> Result<u16, Refusal>
    ensures { tells result ≡ encoded_of (Command.LoadDigit digit byte) }
{
    if digit > MOST_DIGIT {
        return Err(Refusal::Field(0));
    }
    Ok(0b100000000000 + 256 * u16::from(digit) + u16::from(byte))
}

// Whether every field of a command is in range.
#[tactic(auto, unfolding(crate::specs::Words::encoded_of))]
pub fn is_legal(command: Command) -> bool
    ensures { result ≡ legal command }
{
    matches!(encode(command), Ok(_))
}
