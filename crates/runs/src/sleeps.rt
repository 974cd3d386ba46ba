// C-17's cases: lists with sleep words, accepted and refused, and one that is played.
use crate::writes::{answered, with_room};
use chain::Chain;
use std::io;

pub fn run(rt: &impl Print) -> io::Result<()> {
    one_chip(rt)?;
    two_chips(rt)?;
    other_refusals(rt)?;
    played(rt)
}

fn one_chip(rt: &impl Print) -> io::Result<()> {
    let alone = [0x202u16];
    rt.print("sleep alone: ")?;
    with_room(rt, 1, &alone)?;
    let twice = [0x400u16, 0x202, 0x202];
    rt.print("KEYB 0 and DISP 0, sleep, sleep: ")?;
    with_room(rt, 1, &twice)?;
    let display = [0x401u16, 0x202];
    rt.print("DISP 1, sleep: ")?;
    with_room(rt, 1, &display)?;
    let keypad = [0x402u16, 0x202];
    rt.print("KEYB 1, sleep: ")?;
    with_room(rt, 1, &keypad)?;
    let nearest = [0x201u16, 0x403, 0x202];
    rt.print("a reset, KEYB 1 and DISP 1, sleep: ")?;
    with_room(rt, 1, &nearest)?;
    let reset = [0x403u16, 0x201, 0x202];
    rt.print("KEYB 1 and DISP 1, a reset, sleep: ")?;
    with_room(rt, 1, &reset)?;
    let others = [0x438u16, 0x202];
    rt.print("INTM, SSPD and DPLR 1, sleep: ")?;
    with_room(rt, 1, &others)?;
    let off = [0x400u16];
    rt.print("KEYB 0 and DISP 0 in one list: ")?;
    with_room(rt, 1, &off)?;
    rt.print("sleep in the next list: ")?;
    with_room(rt, 1, &alone)
}

fn two_chips(rt: &impl Print) -> io::Result<()> {
    let neighbour = [0x000u16, 0x201, 0x202, 0x000];
    rt.print("a reset for chip 1, sleep for chip 0: ")?;
    with_room(rt, 2, &neighbour)?;
    let own = [0x201u16, 0x403, 0x202, 0x000];
    rt.print("a reset for chip 0, KEYB 1 and DISP 1 for chip 1, sleep for chip 0: ")?;
    with_room(rt, 2, &own)
}

// Beside 6, 7 and 8.
fn other_refusals(rt: &impl Print) -> io::Result<()> {
    let mut no_room = [0u8; 1];
    let before_6 = [0x202u16, 0x404];
    rt.print("sleep and an unlisted word: ")?;
    with_room(rt, 1, &before_6)?;
    let after_6 = [0x404u16, 0x202];
    rt.print("an unlisted word and sleep: ")?;
    with_room(rt, 1, &after_6)?;
    let after_7 = [0x403u16, 0x202];
    rt.print("KEYB 1 for chip 0 and sleep for chip 1: ")?;
    with_room(rt, 2, &after_7)?;
    let large = [0x1202u16];
    rt.print("sleep above 4,095: ")?;
    with_room(rt, 1, &large)?;
    let alone = [0x202u16];
    rt.print("sleep and no room: ")?;
    answered(rt, writer::write(1, &alone, &mut no_room))
}

// What DIG0 lights, and whether the chip sleeps.
fn seen(rt: &impl Print, ch: Chain) -> io::Result<()> {
    let c = chain::one::chip_at(0, ch);
    let lit = chip::segments::lit(c);
    let state = if c.settings.sleeping {
        "asleep"
    } else {
        "awake"
    };
    println!(rt; "{:02x}, {state}", lit[0])
}

fn play(ch: Chain, row: &[u8]) -> Chain {
    let h = chain::play::play(1, ch, row);
    h.value
}

// The display on and 06H in DIG0, then off, then sleep.
fn played(rt: &impl Print) -> io::Result<()> {
    let words = [0x401u16, 0x806, 0x400, 0x202];
    let mut out = [0u8; 104];
    rt.print("DISP 1, 06H in DIG0, DISP 0, sleep: ")?;
    answered(rt, writer::write(1, &words, &mut out))?;
    let s = &out[..];
    let start = chain::start(1);
    let lit = play(start.value, &s[0..52]);
    rt.print("DIG0 lights ")?;
    seen(rt, lit)?;
    let dark = play(lit, &s[52..78]);
    rt.print("before the sleep word DIG0 lights ")?;
    seen(rt, dark)?;
    rt.print("after it DIG0 lights ")?;
    seen(rt, play(dark, &s[78..104]))
}
