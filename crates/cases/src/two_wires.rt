// The worked examples of the CH450's sheet: the write of 5.5 and its samples, the letter of 6.2, sleep of 6.1 and the key of 5.3. Digits
// are shown DIG7 leftmost.
use crate::chips::glyph;
use ch450::Panel;
use std::io;

pub fn run(rt: &impl Print) -> io::Result<()> {
    figure(rt)?;
    letter(rt)?;
    sleeping(rt)?;
    rt.print("CH450 5.3 DIG3 SEG4: pressed, 63 read as ")?;
    let pressed = read(rt, digits(), 0x63)?;
    rt.print("; let go, 23 read as ")?;
    read(rt, pressed, 0x23)?;
    rt.println("")
}

// A panel at power-on with 1 to 6 in DIG2 to DIG7.
fn digits() -> Panel {
    ch450::power_on([0x06, 0x5B, 0x4F, 0x66, 0x6D, 0x7D])
}

// What is seen of all six digits, DIG7 first.
fn show(rt: &impl Print, p: Panel) -> io::Result<()> {
    let lit = ch450::segments_lit(p);
    let s = lit.value;
    rt.print("[")?;
    glyph(rt, s[5])?;
    glyph(rt, s[4])?;
    glyph(rt, s[3])?;
    glyph(rt, s[2])?;
    glyph(rt, s[1])?;
    glyph(rt, s[0])?;
    rt.print("]")
}

// A panel after a word was written and played.
fn told(p: Panel, word: u16) -> Panel {
    let words = [word];
    let mut out = [0u8; 40];
    match ch450::writer::write(&words, &mut out) {
        Ok(_) => {
            let h = ch450::play::play(p, 0, &out);
            h.value
        }
        Err(_) => p,
    }
}

fn level(s: u8) -> &'static str {
    match s {
        0 => "0",
        1 => "1",
        2 => "2",
        3 => "3",
        _ => "?",
    }
}

fn four(rt: &impl Print, a: u8, b: u8, c: u8, d: u8) -> io::Result<()> {
    print!(rt; "{}{}{}{}", level(a), level(b), level(c), level(d))
}

// 48H, 01H as samples, and what it does.
fn figure(rt: &impl Print) -> io::Result<()> {
    let words = [0x4801u16];
    let mut out = [0u8; 40];
    let _ = ch450::writer::write(&words, &mut out);
    rt.print("CH450 5.5 48 01: samples ")?;
    four(rt, out[0], out[1], out[2], out[3])?;
    four(rt, out[4], out[5], out[6], out[7])?;
    four(rt, out[8], out[9], out[10], out[11])?;
    four(rt, out[12], out[13], out[14], out[15])?;
    four(rt, out[16], out[17], out[18], out[19])?;
    four(rt, out[20], out[21], out[22], out[23])?;
    four(rt, out[24], out[25], out[26], out[27])?;
    four(rt, out[28], out[29], out[30], out[31])?;
    four(rt, out[32], out[33], out[34], out[35])?;
    four(rt, out[36], out[37], out[38], out[39])?;
    rt.print(", ")?;
    show(rt, digits())?;
    rt.print(" becomes ")?;
    show(rt, told(digits(), 0x4801))?;
    rt.println("")
}

fn letter(rt: &impl Print) -> io::Result<()> {
    rt.print("CH450 6.2 64 79: ")?;
    show(rt, told(told(digits(), 0x4801), 0x6479))?;
    rt.println("")
}

// 48H, 81H: asleep with the display on; any command that is obeyed wakes it.
fn sleeping(rt: &impl Print) -> io::Result<()> {
    let asleep = told(digits(), 0x4881);
    rt.print("CH450 6.1 asleep ")?;
    show(rt, asleep)?;
    rt.print(" 64 06 ")?;
    show(rt, told(asleep, 0x6406))?;
    rt.print(" 4F, read as ")?;
    let awake = read(rt, asleep, 0x63)?;
    rt.print(" ")?;
    show(rt, awake)?;
    rt.println("")
}

// 4FH, with SDA held high while the code comes: the panel after it, with the code that its stop answers written.
fn read(rt: &impl Print, p: Panel, key: u8) -> io::Result<Panel> {
    let first = ch450::play::play(
        p,
        key,
        b"\x01\x00\x01\x02\x03\x00\x01\x00\x01\x02\x03\x02\x03\x02\x03\x02\x03\x02\x03",
    );
    let second = ch450::play::play(
        first.value,
        key,
        b"\x02\x03\x02\x03\x02\x03\x02\x03\x02\x03\x02\x03\x02\x03\x02\x03\x02\x03\x00\x01",
    );
    let last = ch450::play::sample(second.value, key, 3);
    match last.answer {
        Ok(what) => match what {
            Some(code) => print!(rt; "{code:02X}")?,
            None => rt.print("-")?,
        },
        Err(_) => rt.print("refused")?,
    }
    Ok(last.value)
}
