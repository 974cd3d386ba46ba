// Document 01's cases of the writer: 64 and 65 rows, 8 and 9 chips, a buffer exact and one short, lists that are refused, and a
// list that is written, played and scanned between.
use crate::chains::refused;
use base::Refusal;
use chain::Chain;
use std::io;

pub fn run(rt: &impl Print) -> io::Result<()> {
    rows(rt)?;
    chips(rt)?;
    lists(rt)?;
    played(rt)
}

// How many samples were written, or the refusal.
pub fn answered(rt: &impl Print, w: Result<usize, Refusal>) -> io::Result<()> {
    match w {
        Ok(count) => print!(rt; "{count} samples")?,
        Err(e) => refused(rt, e)?,
    }
    rt.println("")
}

// A list, and what the writer answers with room for all of it.
pub fn with_room(rt: &impl Print, n: usize, words: &[u16]) -> io::Result<()> {
    let mut out = [0u8; 220];
    answered(rt, writer::write(n, words, &mut out))
}

fn rows(rt: &impl Print) -> io::Result<()> {
    let many = [0u16; 65];
    let all = [0u16; 64];
    let mut exact = [0u8; 1664];
    rt.print("64 rows, the buffer exact: ")?;
    answered(rt, writer::write(1, &all, &mut exact))?;
    let mut short = [0u8; 1663];
    rt.print("64 rows, the buffer one short: ")?;
    answered(rt, writer::write(1, &all, &mut short))?;
    let mut large = [0u8; 1690];
    rt.print("65 rows: ")?;
    answered(rt, writer::write(1, &many, &mut large))?;
    rt.print("64 rows, the buffer longer: ")?;
    answered(rt, writer::write(1, &all, &mut large))
}

fn chips(rt: &impl Print) -> io::Result<()> {
    let eight = [0u16; 8];
    let nine = [0u16; 9];
    rt.print("a row for 8 chips: ")?;
    with_room(rt, 8, &eight)?;
    rt.print("a row for 9 chips: ")?;
    with_room(rt, 9, &nine)?;
    rt.print("a list of 9 words for 8 chips: ")?;
    with_room(rt, 8, &nine)
}

fn lists(rt: &impl Print) -> io::Result<()> {
    let none = [0u16; 0];
    let mut no_room = [0u8; 1];
    rt.print("no words: ")?;
    with_room(rt, 2, &none)?;
    let last = [0x000u16, 0x403];
    rt.print("KEYB 1 for the last chip: ")?;
    with_room(rt, 2, &last)?;
    let first = [0x403u16, 0x000];
    rt.print("KEYB 1 for another chip: ")?;
    with_room(rt, 2, &first)?;
    let full = [0x141u16, 0x17F];
    rt.print("bar levels 65 and 127: ")?;
    with_room(rt, 2, &full)?;
    let unlisted = [0x000u16, 0x404];
    rt.print("an unlisted word and no room: ")?;
    answered(rt, writer::write(2, &unlisted, &mut no_room))?;
    let large = [5000u16, 0x403];
    rt.print("a word above 4,095: ")?;
    with_room(rt, 2, &large)
}

// What stands in DIG0 of three chips, and the last one's key code.
fn seen(rt: &impl Print, ch: Chain) -> io::Result<()> {
    let a = chain::one::chip_at(0, ch);
    let b = chain::one::chip_at(1, ch);
    let c = chain::one::chip_at(2, ch);
    let p = a.digits;
    let q = b.digits;
    let r = c.digits;
    println!(rt;
        "DIG0 {:02x} {:02x} {:02x}, code {:02x}",
        p[0], q[0], r[0], c.keys.code
    )
}

fn play(ch: Chain, block: &[u8]) -> Chain {
    let h = chain::play::play(3, ch, block);
    h.value
}

fn press(ch: Chain) -> Chain {
    let h = chain::one::scan(3, ch, 2, [0, 0, 0, 0x10, 0, 0, 0, 0]);
    h.value
}

// Three chips: 11H, 22H in the first two and the keypad on in the last; a key pressed in the middle of the second row, which
// loads 33H in the last.
fn played(rt: &impl Print) -> io::Result<()> {
    let words = [0x811u16, 0x822, 0x403, 0x000, 0x000, 0x833];
    let mut out = [0u8; 148];
    rt.print("two rows for 3 chips: ")?;
    answered(rt, writer::write(3, &words, &mut out))?;
    let s = &out[..];
    let start = chain::start(3);
    let first = play(start.value, &s[0..74]);
    rt.print("after the first row: ")?;
    seen(rt, first)?;
    let pressed = press(press(play(first, &s[74..100])));
    rt.print("a key pressed in the second row: ")?;
    seen(rt, pressed)?;
    rt.print("after the second row: ")?;
    seen(rt, play(pressed, &s[100..148]))
}
