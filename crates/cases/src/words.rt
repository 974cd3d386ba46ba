// The worked examples of 12-bit words in the sheet's chapter 6 and in the notation of 5.5: each word's section, the word, what
// `decode` says that it means, and the word that `encode` makes of that.
use base::Refusal;
use std::io;
use word::Command;

// The sheet's words in its order, by its sections.
pub fn run(rt: &impl Print) -> io::Result<()> {
    sections_to_6_3(rt)?;
    sections_to_6_8(rt)?;
    sections_to_6_12(rt)?;
    sections_to_6_16(rt)
}

fn sections_to_6_3(rt: &impl Print) -> io::Result<()> {
    show(rt, "5.5", 0b001000000001)?;
    show(rt, "5.5", 0b011100000000)?;
    show(rt, "6.1", 0b000000000000)?;
    show(rt, "6.1", 0b000011111111)?;
    show(rt, "6.2", 0b001000000001)?;
    show(rt, "6.3", 0b001100000000)
}

fn sections_to_6_8(rt: &impl Print) -> io::Result<()> {
    show(rt, "6.4", 0b001100000010)?;
    show(rt, "6.5", 0b001100000001)?;
    show(rt, "6.6", 0b001100000011)?;
    show(rt, "6.7", 0b010000000001)?;
    show(rt, "6.8", 0b010101110000)?;
    show(rt, "6.8", 0b010110000000)
}

fn sections_to_6_12(rt: &impl Print) -> io::Result<()> {
    show(rt, "6.9", 0b011000100001)?;
    show(rt, "6.10", 0b100001111001)?;
    show(rt, "6.10", 0b110010001000)?;
    show(rt, "6.11", 0b011111111111)?;
    show(rt, "6.12", 0b000100000000)?;
    show(rt, "6.12", 0b000100010110)
}

fn sections_to_6_16(rt: &impl Print) -> io::Result<()> {
    show(rt, "6.12", 0b000101000000)?;
    show(rt, "6.13", 0b000110111010)?;
    show(rt, "6.14", 0b000111000110)?;
    show(rt, "6.15", 0b001110111110)?;
    show(rt, "6.16", 0b001000000010)
}

fn show(rt: &impl Print, section: &str, w: u16) -> io::Result<()> {
    print!(rt; "{section} {w:012b}: ")?;
    match word::decode(w) {
        Ok(c) => {
            put_command(rt, c)?;
            rt.print(": ")?;
            put_encoded(rt, word::encode(c))?;
        }
        Err(_) => rt.print("refused")?,
    }
    rt.println("")
}

fn put_encoded(rt: &impl Print, e: Result<u16, Refusal>) -> io::Result<()> {
    match e {
        Ok(w) => print!(rt; "{w:012b}"),
        Err(_) => rt.print("refused"),
    }
}

fn put_command(rt: &impl Print, c: Command) -> io::Result<()> {
    match c {
        Command::NoOperation => rt.print("no operation"),
        Command::BarLevel(level) => print!(rt; "bar level {level:02X}"),
        Command::SegmentClear(addr) => print!(rt; "segment clear {addr:02X}"),
        Command::SegmentSet(addr) => print!(rt; "segment set {addr:02X}"),
        Command::Reset => rt.print("reset"),
        Command::Sleep => rt.print("sleep"),
        Command::ShiftLeft => rt.print("shift left"),
        Command::ShiftRight => rt.print("shift right"),
        Command::RotateLeft => rt.print("rotate left"),
        Command::RotateRight => rt.print("rotate right"),
        Command::CustomCharacter(shape) => print!(rt; "custom character {shape:02X}"),
        Command::SystemParameters(s) => {
            rt.print("system parameters")?;
            put_flag(rt, "INTM", s.intm)?;
            put_flag(rt, "SSPD", s.sspd)?;
            put_flag(rt, "DPLR", s.dplr)?;
            put_flag(rt, "KEYB", s.keyb)?;
            put_flag(rt, "DISP", s.disp)
        }
        Command::DisplayParameters(d) => {
            rt.print("display parameters")?;
            put_flag(rt, "MODE", d.mode)?;
            print!(rt; " LIMIT {:02X}", d.limit)
        }
        Command::BlinkByte(byte) => print!(rt; "blink byte {byte:02X}"),
        Command::ReadKey => rt.print("read key"),
        Command::LoadDigit { digit, byte } => print!(rt; "load digit {digit:02X} with {byte:02X}"),
    }
}

// A name and its bit, as ` KEYB 1`.
fn put_flag(rt: &impl Print, name: &str, on: bool) -> io::Result<()> {
    let bit = u8::from(on);
    print!(rt; " {name} {bit}")
}
