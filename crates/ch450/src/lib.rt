// One CH450 on two wires, the panel of the old kiosks: its record, the edges of its wires, what commands do, the segments lit, and the
// writer. The entries are `power_on`, `apply`, `segments_lit`, `commands::encode`, `play::sample`, `play::play` and `writer::write`.
// Each tests everything first; where it refuses, it hands the panel back as it was, or zeros, or leaves the buffer. The other public
// functions are inner ones: other crates call them, they answer for every record, valid or not, and refuse nothing.
#![tactic(auto)]

use base::{Handed, Refusal};

pub mod commands;
mod edges;
pub mod play;
pub mod writer;

ghost use Rattle.std.specs.Prelude.{◌≡◌};
ghost use Rattle.base.specs.Refusals.{handed};
ghost use Rattle.ch450.specs.Entries as E;
ghost use Rattle.ch450.specs.Panel as P;

// The two wires: the levels last seen, whether a transfer runs, the SCL rises since its start, up to 20, and the bits taken at
// them, the last 19.
#[derive(Clone, Copy)]
pub struct Wires {
    pub levels: u8,
    pub running: bool,
    pub rises: u8,
    pub bits: u32,
}

// The system parameters: SLEEP, INTENS, KEYB, DISP.
#[derive(Clone, Copy)]
pub struct Settings {
    pub sleep: bool,
    pub intens: u8,
    pub keyb: bool,
    pub disp: bool,
}

// The display is the digits: the data bytes of DIG2 to DIG7.
#[derive(Clone, Copy)]
pub struct Panel {
    pub wires: Wires,
    pub settings: Settings,
    pub digits: [u8; 6],
}

// What two bytes tell the chip to do.
#[derive(Clone, Copy)]
pub enum Command {
    // Byte 1 is 48H: the system parameters.
    Parameters(Settings),
    // Byte 1 is 64H to 6EH, even: the data byte of DIG2 to DIG7.
    LoadDigit { digit: u8, byte: u8 },
    // Byte 1 is 4FH: the key's code is read.
    ReadKey,
}

// A panel at power-on: awake, every parameter 0, the lines idle, and the digits that the caller says.
pub fn power_on(digits: [u8; 6]) -> Panel
    ensures { result ≡ P.power_on digits }
{
    Panel {
        wires: Wires {
            levels: 3,
            running: false,
            rises: 0,
            bits: 0,
        },
        settings: Settings {
            sleep: false,
            intens: 0,
            keyb: false,
            disp: false,
        },
        digits,
    }
}

// Whether the levels are those that a transfer leaves: while SCL is high, SDA is the bit taken last.
fn is_last_bit(levels: u8, bits: u32) -> bool
    ensures { result ≡ P.last_bit levels bits }
{
    !edges::scl(levels) || edges::sda(levels) == (bits % 2 == 1)
}

// How many bits of so many rises are kept: the last 19.
fn kept(rises: u8) -> u32
    ensures { result ≡ P.kept_of rises }
{
    u32::from(rises.min(19))
}

// Whether a running transfer is one that a run can hold.
#[tactic(auto, unfolding(crate::specs::Panel::valid_transfer))]
fn is_transfer(wires: Wires) -> bool
    ensures { result ≡ P.valid_transfer wires }
{
    wires.rises <= 20
        && wires.bits < 1 << kept(wires.rises)
        && is_last_bit(wires.levels, wires.bits)
}

// Whether wires are such as a run can hold.
#[tactic(auto, unfolding(crate::specs::Panel::valid_wires))]
fn is_wires(wires: Wires) -> bool
    ensures { result ≡ P.valid_wires wires }
{
    let is_held = if wires.running {
        is_transfer(wires)
    } else {
        wires.rises == 0 && wires.bits == 0
    };
    wires.levels <= 3 && is_held
}

// Whether a record is one that a run can hold: every part is.
#[tactic(auto, unfolding(crate::specs::Panel::valid))]
pub(crate) fn is_valid(panel: Panel) -> bool
    ensures { result ≡ P.valid panel }
{
    is_wires(panel.wires) && panel.settings.intens <= 3
}

// A command applied directly, as a stop applies it: refusals 12, 9.
pub fn apply(panel: Panel, command: Command) -> Handed<Panel, ()>
    ensures { handed result ≡ E.applied_of panel command }
{
    if !is_valid(panel) {
        return Handed {
            value: panel,
            answer: Err(Refusal::Record),
        };
    }
    if !commands::is_legal(command) {
        return Handed {
            value: panel,
            answer: Err(Refusal::Field(0)),
        };
    }
    Handed {
        value: commands::applied(command, panel),
        answer: Ok(()),
    }
}

// The segments that shine: none while the panel is asleep or DISP is off, else the data bytes.
#[tactic(auto, unfolding(crate::specs::Panel::lit_of))]
pub fn shining(panel: Panel) -> [u8; 6]
    ensures { result ≡ P.lit_of panel }
{
    if panel.settings.disp && !panel.settings.sleep {
        panel.digits
    } else {
        [0; 6]
    }
}

// The segments lit of all six digits: refusal 12.
pub fn segments_lit(panel: Panel) -> Handed<[u8; 6], ()>
    ensures { handed result ≡ E.segments_of panel }
{
    if !is_valid(panel) {
        return Handed {
            value: [0; 6],
            answer: Err(Refusal::Record),
        };
    }
    Handed {
        value: shining(panel),
        answer: Ok(()),
    }
}
