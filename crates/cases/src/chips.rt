// The worked examples of one chip: the sheet's 5.3 to 5.5 and 6.3 to 6.16. Digits are shown as the sheet shows them, DIG7
// leftmost; a digit of 1 to 8 is named by its character.
use chip::{Chip, Recorded};
use std::io;
use word::{Command, Display, System};

pub fn run(rt: &impl Print) -> io::Result<()> {
    moves(rt, "6.3", Command::ShiftLeft)?;
    moves(rt, "6.4", Command::ShiftRight)?;
    moves(rt, "6.5", Command::RotateLeft)?;
    moves(rt, "6.6", Command::RotateRight)?;
    parameters(rt)?;
    loads(rt)?;
    bars(rt)?;
    one_segment(rt)?;
    custom(rt)?;
    keys(rt)?;
    keys_in_a_row(rt)?;
    sleeping(rt)
}

// A chip after a command applied directly.
pub fn told(c: Chip, command: Command) -> Chip {
    let r = chip::apply(c, command);
    r.value
}

fn load(c: Chip, digit: u8, byte: u8) -> Chip {
    told(c, Command::LoadDigit { digit, byte })
}

// A reset chip with the display on, in one mode or the other.
fn lit_chip(mode: bool) -> Chip {
    let on = System {
        intm: false,
        sspd: false,
        dplr: false,
        keyb: false,
        disp: true,
    };
    let c = told(chip::reset_chip(), Command::SystemParameters(on));
    told(c, Command::DisplayParameters(Display { mode, limit: 0 }))
}

// 87654321, as BCD codes.
fn codes() -> Chip {
    let c = load(load(load(load(lit_chip(true), 0, 1), 1, 2), 2, 3), 3, 4);
    load(load(load(load(c, 4, 5), 5, 6), 6, 7), 7, 8)
}

// 87654321, as segments.
fn segments() -> Chip {
    let c = load(
        load(load(load(lit_chip(false), 0, 0x06), 1, 0x5B), 2, 0x4F),
        3,
        0x66,
    );
    load(load(load(load(c, 4, 0x6D), 5, 0x7D), 6, 0x07), 7, 0x7F)
}

fn moves(rt: &impl Print, section: &str, command: Command) -> io::Result<()> {
    print!(rt; "{section} ")?;
    show(rt, segments())?;
    rt.print(" becomes ")?;
    show(rt, told(segments(), command))?;
    rt.print("; decoded ")?;
    show(rt, codes())?;
    rt.print(" becomes ")?;
    show(rt, told(codes(), command))?;
    rt.println("")
}

// What is seen of all eight digits, DIG7 first.
fn show(rt: &impl Print, c: Chip) -> io::Result<()> {
    let lit = chip::segments_lit(c);
    let s = lit.value;
    rt.print("[")?;
    glyph(rt, s[7])?;
    glyph(rt, s[6])?;
    glyph(rt, s[5])?;
    glyph(rt, s[4])?;
    glyph(rt, s[3])?;
    glyph(rt, s[2])?;
    glyph(rt, s[1])?;
    glyph(rt, s[0])?;
    rt.print("]")
}

// The character of the segments lit, by the sheet's table, and its point.
pub fn glyph(rt: &impl Print, s: u8) -> io::Result<()> {
    let shown = match s % 128 {
        0x00 => " ",
        0x3F => "0",
        0x06 => "1",
        0x5B => "2",
        0x4F => "3",
        0x66 => "4",
        0x6D => "5",
        0x7D => "6",
        0x07 => "7",
        0x7F => "8",
        0x6F => "9",
        0x79 => "E",
        0x3E => "U",
        0x41 => "=",
        _ => "?",
    };
    let point = if s >= 128 { "." } else { "" };
    print!(rt; "{shown}{point}")
}

// The data bytes, DIG0 first.
fn bytes(rt: &impl Print, c: Chip) -> io::Result<()> {
    let d = c.digits;
    print!(rt; "{:02X}", d[0])?;
    print!(rt; "{:02X}", d[1])?;
    print!(rt; "{:02X}", d[2])?;
    print!(rt; "{:02X}", d[3])?;
    print!(rt; "{:02X}", d[4])?;
    print!(rt; "{:02X}", d[5])?;
    print!(rt; "{:02X}", d[6])?;
    print!(rt; "{:02X}", d[7])
}

fn parameters(rt: &impl Print) -> io::Result<()> {
    let dark = System {
        intm: false,
        sspd: false,
        dplr: false,
        keyb: false,
        disp: false,
    };
    rt.print("6.7 display off ")?;
    show(rt, told(codes(), Command::SystemParameters(dark)))?;
    rt.println("")?;
    rt.print("6.8 limit 7 ")?;
    show(
        rt,
        told(
            segments(),
            Command::DisplayParameters(Display {
                mode: false,
                limit: 7,
            }),
        ),
    )?;
    rt.print(" limit 8 decoded ")?;
    show(
        rt,
        told(
            codes(),
            Command::DisplayParameters(Display {
                mode: true,
                limit: 0,
            }),
        ),
    )?;
    rt.println("")?;
    let blinking = told(codes(), Command::BlinkByte(0x21));
    print!(rt; "6.9 blink byte {:02X}", blinking.settings.blink)?;
    rt.print(", after a shift ")?;
    let moved = told(blinking, Command::ShiftLeft);
    println!(rt; "{:02X}", moved.settings.blink)
}

fn loads(rt: &impl Print) -> io::Result<()> {
    rt.print("6.10 79 in DIG0 ")?;
    show(rt, load(lit_chip(false), 0, 0x79))?;
    rt.print(" 88 in DIG4 decoded ")?;
    let c = load(
        load(load(load(lit_chip(true), 0, 0x10), 1, 0x10), 2, 0x10),
        3,
        0x10,
    );
    show(
        rt,
        load(load(load(load(c, 5, 0x10), 6, 0x10), 7, 0x10), 4, 0x88),
    )?;
    rt.println("")
}

fn bars(rt: &impl Print) -> io::Result<()> {
    rt.print("6.12 bar 00 ")?;
    bytes(rt, told(segments(), Command::BarLevel(0x00)))?;
    rt.print(" bar 16 ")?;
    bytes(rt, told(segments(), Command::BarLevel(0x16)))?;
    rt.print(" bar 40 ")?;
    bytes(rt, told(segments(), Command::BarLevel(0x40)))?;
    rt.println("")
}

fn one_segment(rt: &impl Print) -> io::Result<()> {
    let all = told(segments(), Command::BarLevel(0x40));
    rt.print("6.13 clear 3A ")?;
    bytes(rt, told(all, Command::SegmentClear(0x3A)))?;
    rt.println("")?;
    let off = told(segments(), Command::BarLevel(0x00));
    rt.print("6.14 set 06 ")?;
    bytes(rt, told(off, Command::SegmentSet(0x06)))?;
    rt.println("")
}

fn custom(rt: &impl Print) -> io::Result<()> {
    let u = told(
        told(lit_chip(true), Command::BarLevel(0)),
        Command::CustomCharacter(0x3E),
    );
    rt.print("6.15 custom 3E: 1E ")?;
    show(rt, load(u, 7, 0x1E))?;
    rt.print(" 9E ")?;
    show(rt, load(u, 7, 0x9E))?;
    rt.print(" 1A ")?;
    show(rt, load(u, 7, 0x1A))?;
    rt.println("")
}

// A chip after a scan of one byte at DIG3 and one at DIG4, with what it recorded written: a dash, a code, a code over an unread one, or
// that the key was let go.
fn scan(rt: &impl Print, c: Chip, dig3: u8, dig4: u8) -> io::Result<Chip> {
    let r = chip::scan(c, [0, 0, 0, dig3, dig4, 0, 0, 0]);
    match r.answer {
        Ok(what) => match what {
            Recorded::Nothing => rt.print("- ")?,
            Recorded::Key(code) => print!(rt; "{code:02X} ")?,
            Recorded::OverUnread(code) => print!(rt; "over {code:02X} ")?,
            Recorded::Released => rt.print("free ")?,
        },
        Err(_) => rt.print("refused ")?,
    }
    Ok(r.value)
}

// A reset chip with the keypad on.
pub fn keypad_chip() -> Chip {
    let on = System {
        intm: false,
        sspd: false,
        dplr: false,
        keyb: true,
        disp: false,
    };
    told(chip::reset_chip(), Command::SystemParameters(on))
}

fn keys(rt: &impl Print) -> io::Result<()> {
    rt.print("5.3 DIG3 SEG4: ")?;
    let pressed = scan(
        rt,
        scan(rt, scan(rt, keypad_chip(), 0x10, 0)?, 0x10, 0)?,
        0x10,
        0,
    )?;
    print!(rt; "code {:02X}", pressed.keys.code)?;
    rt.print("; released: ")?;
    let free = scan(rt, scan(rt, scan(rt, pressed, 0, 0)?, 0, 0)?, 0, 0)?;
    println!(rt; "code {:02X}", free.keys.code)?;
    rt.print("5.3 two keys, 23 and 0C: ")?;
    let both = scan(rt, scan(rt, keypad_chip(), 0x10, 0x02)?, 0x10, 0x02)?;
    println!(rt; "code {:02X}", both.keys.code)
}

// A second key before the first is read, after it is read, and the same key again.
fn keys_in_a_row(rt: &impl Print) -> io::Result<()> {
    rt.print("5.3 23, then 0C: ")?;
    let pressed = scan(rt, scan(rt, keypad_chip(), 0x10, 0)?, 0x10, 0)?;
    let over = scan(rt, scan(rt, pressed, 0, 0x02)?, 0, 0x02)?;
    print!(rt; "code {:02X}", over.keys.code)?;
    rt.print("; 23 read, then 0C: ")?;
    let after = scan(
        rt,
        scan(rt, told(pressed, Command::ReadKey), 0, 0x02)?,
        0,
        0x02,
    )?;
    print!(rt; "code {:02X}", after.keys.code)?;
    rt.print("; 23 let go, then 23: ")?;
    let again = scan(
        rt,
        scan(rt, scan(rt, scan(rt, pressed, 0, 0)?, 0, 0)?, 0x10, 0)?,
        0x10,
        0,
    )?;
    println!(rt; "code {:02X}", again.keys.code)
}

fn sleeping(rt: &impl Print) -> io::Result<()> {
    let asleep = told(codes(), Command::Sleep);
    rt.print("6.16 asleep ")?;
    show(rt, asleep)?;
    rt.print(" no operation ")?;
    show(rt, told(asleep, Command::NoOperation))?;
    rt.print(" key on SEG4 ")?;
    show(rt, scan(rt, asleep, 0x10, 0)?)?;
    rt.print(" key on SEG3 ")?;
    show(rt, scan(rt, asleep, 0x08, 0)?)?;
    rt.println("")
}
