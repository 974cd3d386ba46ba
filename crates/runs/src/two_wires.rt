// C-15's run-only cases of the CH450: 18 and 20 rises, a repeated start, a stop with both lines moving, an unknown byte 1
// while asleep, sample 4 after a good command, key codes 127 and 128, 64 and 65 commands, a buffer exact and one short. The command is 48H,
// 01H, which turns the display on.
use crate::chains;
use base::{Handed, Refusal};
use ch450::Panel;
use std::io;

pub fn run(rt: &impl Print) -> io::Result<()> {
    rises(rt)?;
    edges(rt)?;
    asleep(rt)?;
    refused(rt)?;
    written(rt)
}

// The command whole.
fn command(p: Panel, key: u8) -> Handed<Panel, usize> {
    let words = [0x4801u16];
    let mut out = [0u8; 40];
    let _ = ch450::writer::write(&words, &mut out);
    ch450::play::play(p, key, &out)
}

// And sample 4 after it.
fn command_and_four(key: u8) -> Handed<Panel, usize> {
    let words = [0x4801u16];
    let mut out = [4u8; 41];
    let _ = ch450::writer::write(&words, &mut out);
    ch450::play::play(idle(), key, &out)
}

// Both bytes, without the second acknowledge.
fn bytes() -> Panel {
    let words = [0x4801u16];
    let mut out = [0u8; 40];
    let _ = ch450::writer::write(&words, &mut out);
    let s = &out[..];
    after(play(idle(), &s[0..35]))
}

// The command before SCL is high for its stop.
fn all_but_the_stop() -> Panel {
    let words = [0x4801u16];
    let mut out = [0u8; 40];
    let _ = ch450::writer::write(&words, &mut out);
    let s = &out[..];
    after(play(idle(), &s[0..38]))
}

// An acknowledge is a clock, and the stop needs one.
fn rises(rt: &impl Print) -> io::Result<()> {
    rt.print("CH450 19 rises: ")?;
    shown(rt, command(idle(), 0x23))?;
    rt.print("CH450 18 rises: ")?;
    shown(rt, play(bytes(), b"\x00\x01\x03"))?;
    rt.print("CH450 20 rises: ")?;
    shown(rt, play(bytes(), b"\x02\x03\x02\x03\x00\x01\x03"))
}

fn edges(rt: &impl Print) -> io::Result<()> {
    rt.print("CH450 a repeated start: ")?;
    shown(rt, command(after(play(idle(), b"\x01\x02\x03")), 0x23))?;
    rt.print("CH450 a stop with both lines moving: ")?;
    shown(rt, play(all_but_the_stop(), b"\x03"))
}

// SLEEP of a panel.
fn sleep_of(p: Panel) -> u8 {
    u8::from(p.settings.sleep)
}

// An unknown byte 1 leaves SLEEP, which no text can show; a read clears it. 48H, 81H, then 47H, 01H, then 4FH, FFH.
fn asleep(rt: &impl Print) -> io::Result<()> {
    let words = [0x4881u16];
    let mut out = [0u8; 40];
    let _ = ch450::writer::write(&words, &mut out);
    let sleeping = after(play(idle(), &out));
    let unknown =
        b"\x01\x00\x01\x02\x03\x00\x01\x00\x01\x00\x01\x02\x03\x02\x03\x02\x03\x02\x03\x00\x01\x00\x01\x00\x01\x00\x01\x00\x01\x00\x01\x00\x01\x02\x03\x02\x03\x00\x01\x03";
    let still = after(play(sleeping, unknown));
    let read =
        b"\x01\x00\x01\x02\x03\x00\x01\x00\x01\x02\x03\x02\x03\x02\x03\x02\x03\x02\x03\x02\x03\x02\x03\x02\x03\x02\x03\x02\x03\x02\x03\x02\x03\x02\x03\x02\x03\x00\x01\x03";
    let awake = after(play(still, read));
    print!(rt; "CH450 asleep: SLEEP {}", sleep_of(sleeping))?;
    print!(rt; ", after an unknown byte 1 {}", sleep_of(still))?;
    println!(rt; ", after a read {}", sleep_of(awake))
}

fn refused(rt: &impl Print) -> io::Result<()> {
    rt.print("CH450 sample 4 after a good command: ")?;
    shown(rt, command_and_four(0x23))?;
    rt.print("CH450 key code 127: ")?;
    shown(rt, command(idle(), 127))?;
    rt.print("CH450 key code 128: ")?;
    shown(rt, command_and_four(128))
}

// A panel at power-on.
fn idle() -> Panel {
    ch450::power_on([0; 6])
}

fn play(p: Panel, samples: &[u8]) -> Handed<Panel, usize> {
    ch450::play::play(p, 0x23, samples)
}

fn after(h: Handed<Panel, usize>) -> Panel {
    h.value
}

// How many reads there were, or the refusal; and the panel after it.
fn shown(rt: &impl Print, h: Handed<Panel, usize>) -> io::Result<()> {
    match h.answer {
        Ok(count) => print!(rt; "{count} reads")?,
        Err(e) => chains::refused(rt, e)?,
    }
    let p = h.value;
    let disp = u8::from(p.settings.disp);
    let running = u8::from(p.wires.running);
    println!(rt;
        ", DISP {disp}, levels {:02x}, running {running}",
        p.wires.levels
    )
}

// How many samples were written, or the refusal.
fn answered(rt: &impl Print, w: Result<usize, Refusal>) -> io::Result<()> {
    match w {
        Ok(count) => print!(rt; "{count} samples")?,
        Err(e) => chains::refused(rt, e)?,
    }
    rt.println("")
}

fn written(rt: &impl Print) -> io::Result<()> {
    let all = [0x4801u16; 64];
    let mut exact = [0u8; 2560];
    rt.print("CH450 64 commands, the buffer exact: ")?;
    answered(rt, ch450::writer::write(&all, &mut exact))?;
    let mut short = [0u8; 2559];
    rt.print("CH450 64 commands, the buffer one short: ")?;
    answered(rt, ch450::writer::write(&all, &mut short))?;
    let many = [0x4801u16; 65];
    let mut large = [0u8; 2600];
    rt.print("CH450 65 commands: ")?;
    answered(rt, ch450::writer::write(&many, &mut large))?;
    let none = [0u16; 0];
    rt.print("CH450 no commands: ")?;
    answered(rt, ch450::writer::write(&none, &mut short))?;
    let read = [0x4801u16, 0x4F00];
    rt.print("CH450 a read in the list and no room: ")?;
    let mut no_room = [0u8; 1];
    answered(rt, ch450::writer::write(&read, &mut no_room))
}
