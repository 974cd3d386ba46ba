// Samples and edges: what one sample does to the wires. A sample is SCL + 2·SDA.
ghost use Rattle.std.specs.Prelude.{◌≡◌, ◌≤◌};
ghost use Rattle.base.specs.Bits.{cut};
ghost use Rattle.ch450.specs.Commands as C;
ghost use Rattle.ch450.specs.Edges as E;

use crate::{Command, Wires, commands};

pub(crate) fn scl(sample: u8) -> bool
    ensures { result ≡ E.scl sample }
{
    base::field(u16::from(sample), 0, 1) == 1
}

pub(crate) fn sda(sample: u8) -> bool
    ensures { result ≡ E.sda sample }
{
    base::field(u16::from(sample), 1, 1) == 1
}

fn scl_rises(was: u8, now: u8) -> bool
    ensures { result ≡ E.scl_rises was «now» }
{
    !scl(was) && scl(now)
}

// SCL stays high.
fn stays_high(was: u8, now: u8) -> bool
    ensures { result ≡ E.stays_high was «now» }
{
    scl(was) && scl(now)
}

// SDA falls while SCL stays high: a transfer starts.
fn starts(was: u8, now: u8) -> bool
    ensures { result ≡ E.starts was «now» }
{
    stays_high(was, now) && sda(was) && !sda(now)
}

// SDA rises while SCL stays high: a transfer ends.
fn stops(was: u8, now: u8) -> bool
    ensures { result ≡ E.stops was «now» }
{
    stays_high(was, now) && !sda(was) && sda(now)
}

// SCL rises while a transfer runs: a bit is taken.
fn takes(wires: Wires, sample: u8) -> bool
    ensures { result ≡ E.takes sample wires }
{
    wires.running && scl_rises(wires.levels, sample)
}

// One rise more, up to 20.
fn one_more(rises: u8) -> u8
    ensures { result ≡ E.one_more rises }
{
    if rises < 20 { rises + 1 } else { rises }
}

// The bits move up one place, the highest of 19 is lost, and SDA is placed at bit 0.
fn moved_up(bits: u32, sda: bool) -> u32
    ensures { result ≡ E.moved_up bits sda }
{
    ((bits & 0x3FFFF) << 1) + u32::from(sda)
}

// One sample.
#[tactic(auto, unfolding(crate::specs::Edges::stepped))]
pub(crate) fn stepped(wires: Wires, sample: u8) -> Wires
    ensures { result ≡ E.stepped sample wires }
{
    if starts(wires.levels, sample) {
        return Wires {
            levels: sample,
            running: true,
            rises: 0,
            bits: 0,
        };
    }
    if stops(wires.levels, sample) {
        return Wires {
            levels: sample,
            running: false,
            rises: 0,
            bits: 0,
        };
    }
    if takes(wires, sample) {
        return Wires {
            levels: sample,
            running: true,
            rises: one_more(wires.rises),
            bits: moved_up(wires.bits, sda(sample)),
        };
    }
    Wires {
        levels: sample,
        ..wires
    }
}

// Whether a sample is a stop after exactly 19 rises since the start.
#[tactic(auto, unfolding(crate::specs::Edges::completes))]
pub(crate) fn completes(wires: Wires, sample: u8) -> bool
    ensures { result ≡ E.completes sample wires }
{
    wires.running && wires.rises == 19 && stops(wires.levels, sample)
}

// The eight bits that start at a bit.
fn byte_at(bits: u32, at: u32) -> u8
    requires { at ≤ 11 }
    ensures { result ≡ cut bits at 8 }
{
    ((bits >> at) & 255) as u8
}

// Byte 1 of the 19 bits: the first eight.
pub(crate) fn first_byte(wires: Wires) -> u8
    ensures { result ≡ E.first_byte wires }
{
    byte_at(wires.bits, 11)
}

// Byte 2: the eight after the acknowledge.
pub(crate) fn second_byte(wires: Wires) -> u8
    ensures { result ≡ E.second_byte wires }
{
    byte_at(wires.bits, 2)
}

// What a sample makes the panel do.
#[tactic(auto, unfolding(crate::specs::Commands::told_at))]
pub(crate) fn told_at(wires: Wires, sample: u8) -> Option<Command>
    ensures { result ≡ C.told_at sample wires }
{
    if completes(wires, sample) {
        commands::meaning_of(first_byte(wires), second_byte(wires))
    } else {
        None
    }
}
