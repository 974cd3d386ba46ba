// Document 01's cases of a chain: 8 and 9 chips, samples 7 and 8, empty blocks, and the readout of P12 at the host's DOUT.
use base::{Handed, Refusal};
use chain::Chain;
use chip::Recorded;
use std::io;
use word::{Command, System};

pub fn run(rt: &impl Print) -> io::Result<()> {
    rt.print("start 8 chips: ")?;
    answered(rt, chain::start(8))?;
    rt.print("start 9 chips: ")?;
    answered(rt, chain::start(9))?;
    rt.print("start 0 chips: ")?;
    answered(rt, chain::start(0))?;
    blocks(rt)?;
    records(rt)?;
    readout(rt)?;
    finder(rt)
}

pub fn verdict(rt: &impl Print, v: Result<(), Refusal>) -> io::Result<()> {
    match v {
        Ok(()) => rt.print("done"),
        Err(e) => refused(rt, e),
    }
}

// A refusal's number and place.
pub fn refused(rt: &impl Print, e: Refusal) -> io::Result<()> {
    let (number, place) = match e {
        Refusal::Sample(place) => (1, place),
        Refusal::ScanChip => (2, 0),
        Refusal::ChipCount => (3, 0),
        Refusal::PartRow => (4, 0),
        Refusal::Rows => (5, 0),
        Refusal::Unlisted(place) => (6, place),
        Refusal::Keypad(place) => (7, place),
        Refusal::Room => (8, 0),
        Refusal::Field(place) => (9, place),
        Refusal::Line(place) => (10, place),
        Refusal::Text => (11, 0),
        Refusal::Record => (12, 0),
        Refusal::LitSleep(place) => (13, place),
        Refusal::Version(version) => (14, version),
        Refusal::Setting(line) => (15, line),
        Refusal::Count(place) => (16, place),
    };
    print!(rt; "refused {number} at {place}")
}

// Whether a chain was refused, and the levels that it keeps.
fn answered(rt: &impl Print, h: Handed<Chain, ()>) -> io::Result<()> {
    verdict(rt, h.answer)?;
    println!(rt; ", levels {:02x}", h.value.levels)
}

fn blocks(rt: &impl Print) -> io::Result<()> {
    let eight = chain::start(8);
    let ch = eight.value;
    rt.print("an empty block: ")?;
    answered(rt, chain::play::play(8, ch, b""))?;
    rt.print("samples 3, 7: ")?;
    answered(rt, chain::play::play(8, ch, b"\x03\x07"))?;
    rt.print("samples 3, 8: ")?;
    answered(rt, chain::play::play(8, ch, b"\x03\x08"))?;
    rt.print("samples 3 for 9 chips: ")?;
    answered(rt, chain::play::play(9, ch, b"\x03"))?;
    rt.print("a command to chip 8 of 8: ")?;
    answered(rt, chain::one::apply(8, ch, 8, Command::NoOperation))?;
    rt.print("a command out of range: ")?;
    answered(rt, chain::one::apply(8, ch, 8, Command::BarLevel(128)))
}

// What a scan answers, without what it recorded.
fn scan_verdict(s: Handed<Chain, Recorded>) -> Result<(), Refusal> {
    let answer = s.answer;
    match answer {
        Ok(_) => Ok(()),
        Err(e) => Err(e),
    }
}

// A scan of a chip that isn't there, and a record that no chip can hold, below N and from N on.
fn records(rt: &impl Print) -> io::Result<()> {
    let eight = chain::start(8);
    let mut ch = eight.value;
    rt.print("a scan of chip 8 of 8: ")?;
    verdict(rt, scan_verdict(chain::one::scan(8, ch, 8, [0; 8])))?;
    rt.println("")?;
    ch.chips[7].settings.custom = 128;
    rt.print("custom 128 in chip 7 of 8: ")?;
    answered(rt, chain::play::play(8, ch, b"\x07"))?;
    rt.print("custom 128 in chip 7, 7 chips used: ")?;
    answered(rt, chain::play::play(7, ch, b"\x07"))
}

// A chain of one chip with the keypad on and 63H held.
fn holding() -> Chain {
    let on = System {
        intm: false,
        sspd: false,
        dplr: false,
        keyb: true,
        disp: false,
    };
    let first = chain::start(1);
    let told = chain::one::apply(1, first.value, 0, Command::SystemParameters(on));
    let once = chain::one::scan(1, told.value, 0, [0, 0, 0, 0x10, 0, 0, 0, 0]);
    let twice = chain::one::scan(1, once.value, 0, [0, 0, 0, 0x10, 0, 0, 0, 0]);
    twice.value
}

// What the host sees: H or L.
fn see(rt: &impl Print, ch: Chain) -> io::Result<()> {
    let seen = chain::host_sees(1, ch);
    rt.print(if seen.value { "H" } else { "L" })
}

// One clock, after which the host looks.
fn clock(rt: &impl Print, ch: Chain) -> io::Result<Chain> {
    let fall = chain::play::play(1, ch, b"\x05");
    let mid = fall.value;
    see(rt, mid)?;
    let rise = chain::play::play(1, mid, b"\x07");
    Ok(rise.value)
}

// 1^1^1^0^ and LOAD, then clocks: the sheet's 5.5 and P12.
fn readout(rt: &impl Print) -> io::Result<()> {
    let ch = holding();
    rt.print("5.5 code 63: interrupt ")?;
    see(rt, ch)?;
    let sent = chain::play::play(1, ch, b"\x05\x07\x05\x07\x05\x07\x04\x06\x03\x07");
    let start = sent.value;
    rt.print(", readout ")?;
    see(rt, start)?;
    let six = clock(
        rt,
        clock(rt, clock(rt, clock(rt, clock(rt, clock(rt, start)?)?)?)?)?,
    )?;
    rt.print(", then ")?;
    clock(rt, clock(rt, six)?)?;
    rt.println("")
}

fn finder(rt: &impl Print) -> io::Result<()> {
    rt.print("next LOAD rise in 3, 3, 7, 3, 7: ")?;
    found(rt, chain::finder::next_rise(7, b"\x03\x03\x07\x03\x07"))?;
    rt.print("next LOAD rise in 6, 7: ")?;
    found(rt, chain::finder::next_rise(7, b"\x06\x07"))?;
    rt.print("next LOAD rise in 3, 7, 8: ")?;
    found(rt, chain::finder::next_rise(7, b"\x03\x07\x08"))?;
    rt.print("next LOAD rise after levels 8: ")?;
    found(rt, chain::finder::next_rise(8, b"\x03\x07\x08"))
}

fn found(rt: &impl Print, f: chain::finder::Found) -> io::Result<()> {
    match f.rise {
        Some(place) => print!(rt; "at {place}")?,
        None => rt.print("none")?,
    }
    print!(rt; ", passed {}, ", f.passed)?;
    verdict(rt, f.answer)?;
    rt.println("")
}
