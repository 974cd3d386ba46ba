// Samples and edges: what one sample does to one chip.
ghost use Rattle.std.specs.Prelude.{◌≡◌, ◌-◌};
ghost use Rattle.base.specs.Bits.{bit};
ghost use Rattle.chip.specs.Commands as C;
ghost use Rattle.chip.specs.Edges as E;

use crate::{Chip, LineParts, commands};

// Whether a wire is high: 0 is DIN, 1 DCLK, 2 LOAD.
fn wire(sample: u8, at: u16) -> bool
    ensures { result ≡ bit sample at }
{
    base::field(u16::from(sample), at, 1) == 1
}

pub fn din(sample: u8) -> bool
    ensures { result ≡ E.din sample }
{
    wire(sample, 0)
}

pub fn dclk_rises(was: u8, now: u8) -> bool
    ensures { result ≡ E.dclk_rises was «now» }
{
    !wire(was, 1) && wire(now, 1)
}

pub fn dclk_falls(was: u8, now: u8) -> bool
    ensures { result ≡ E.dclk_falls was «now» }
{
    wire(was, 1) && !wire(now, 1)
}

pub fn load_rises(was: u8, now: u8) -> bool
    ensures { result ≡ E.load_rises was «now» }
{
    !wire(was, 2) && wire(now, 2)
}

// The register moves down one place, its lowest bit is lost, and DIN is placed at bit 11.
pub fn shifted(register: u16, din: bool) -> u16
    ensures { result ≡ E.shifted register din }
{
    (register >> 1) + (base::bit_value(din) << 11)
}

// Register bit 0, which the latch takes at a DCLK fall.
pub fn lowest_bit(register: u16) -> bool
    ensures { result ≡ bit register 0 }
{
    base::field(register, 0, 1) == 1
}

// One bit fewer left to read out; where none is left, none.
pub fn moved_on(left: u8) -> u8
    ensures { result ≡ left - 1 }
{
    left.saturating_sub(1)
}

// What DOUT shows, of the parts of a chip that decide it.
pub fn shows(keyb: bool, latch: bool, interrupt: bool, code: u8, left: u8) -> bool
    ensures { result ≡ C.shows keyb latch interrupt code left }
{
    if !keyb {
        latch
    } else if left == 0 {
        !interrupt
    } else {
        base::field(u16::from(code), u16::from(left - 1), 1) == 1
    }
}

#[tactic(auto, unfolding(crate::specs::Commands::dout))]
pub fn dout(chip: Chip) -> bool
    ensures { result ≡ C.dout chip }
{
    shows(
        chip.settings.system.keyb,
        chip.line.latch,
        chip.keys.interrupt,
        chip.line.readout.code,
        chip.line.readout.left,
    )
}

// What DCLK does to the line parts.
#[tactic(auto, unfolding(crate::specs::Edges::clocked))]
fn clocked(was: u8, now: u8, din: bool, line: LineParts) -> LineParts
    ensures { result ≡ E.clocked was «now» din line }
{
    let mut l = line;
    if dclk_falls(was, now) {
        l.latch = lowest_bit(line.register);
        l.readout.left = moved_on(line.readout.left);
    } else if dclk_rises(was, now) {
        l.register = shifted(line.register, din);
    }
    l
}

// One sample: DCLK's edge, then LOAD's rise.
#[tactic(auto, unfolding(crate::specs::Edges::stepped))]
pub fn stepped(chip: Chip, was: u8, now: u8, din: bool) -> Chip
    ensures { result ≡ E.stepped was «now» din chip }
{
    let mut next = chip;
    next.line = clocked(was, now, din, chip.line);
    if load_rises(was, now) {
        commands::loaded(next)
    } else {
        next
    }
}
