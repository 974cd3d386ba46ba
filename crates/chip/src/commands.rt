// What commands do.
ghost use Rattle.std.specs.Prelude.{◌≡◌, ◌<◌, ltb, eqb, set};
ghost use Rattle.base.specs.Pick.{pick};
ghost use Rattle.base.specs.Bits.{bit, byte_of};
ghost use Rattle.chip.specs.Record.{reset_settings, reset_keys};
ghost use Rattle.chip.specs.Record as P;
ghost use Rattle.chip.specs.Commands as C;
ghost use Rattle.chip.specs.Edges as E;

use crate::{Chip, Keys, NONE, Settings};
use std::array;
use word::{Command, Display, System};

pub fn reset_settings() -> Settings
    ensures { result ≡ reset_settings }
{
    Settings {
        system: System {
            intm: false,
            sspd: false,
            dplr: false,
            keyb: false,
            disp: false,
        },
        display: Display {
            mode: false,
            limit: 0,
        },
        blink: 0,
        custom: 0,
        sleeping: false,
    }
}

pub(crate) fn reset_keys() -> Keys
    ensures { result ≡ reset_keys }
{
    Keys {
        code: 0,
        interrupt: false,
        last: NONE,
    }
}

// The byte of one digit under a bar: segment s is lit where 8·s + dig is below the level.
fn bar_byte(level: u8, dig: u8) -> u8
    requires { dig < 8 }
    ensures { result ≡ byte_of (λ s. ltb (C.address s dig) level) }
{
    let lit = (u16::from(level) + 7 - u16::from(dig)) / 8;
    if lit >= 8 {
        255
    } else {
        base::field(255, 8 - lit, 8) as u8
    }
}

// Every digit under a bar.
#[tactic(auto, unfolding(crate::specs::Commands::bar))]
fn bar(level: u8) -> [u8; 8]
    ensures { result ≡ C.bar level }
{
    array::from_fn(|dig| bar_byte(level, dig as u8))
}

// A byte with one bit made on or off.
fn with_bit(byte: u8, seg: u8, on: bool) -> u8
    requires { seg < 8 }
    ensures { result ≡ byte_of (λ s. pick (eqb s seg) on (bit byte s)) }
{
    let mask = 1 << seg;
    if on { byte | mask } else { byte & !mask }
}

// One segment made on or off: ADDR is 8·SEG + DIG.
fn segment(on: bool, addr: u8, digits: [u8; 8]) -> [u8; 8]
    ensures { result ≡ C.segment on addr digits }
{
    if addr > 63 {
        return digits;
    }
    let wide = u16::from(addr);
    let dig = usize::from(base::field(wide, 0, 3));
    let mut ds = digits;
    ds[dig] = with_bit(digits[dig], base::field(wide, 3, 3) as u8, on);
    ds
}

// DIG d goes to DIG d+1, and DIG0 is filled.
fn moved_left(fill: u8, ds: [u8; 8]) -> [u8; 8]
    ensures { result ≡ C.moved_left fill ds }
{
    [fill, ds[0], ds[1], ds[2], ds[3], ds[4], ds[5], ds[6]]
}

// DIG d+1 goes to DIG d, and DIG7 is filled.
fn moved_right(fill: u8, ds: [u8; 8]) -> [u8; 8]
    ensures { result ≡ C.moved_right fill ds }
{
    [ds[1], ds[2], ds[3], ds[4], ds[5], ds[6], ds[7], fill]
}

// One digit's data byte exchanged.
fn with_digit(dig: u8, byte: u8, digits: [u8; 8]) -> [u8; 8]
    ensures { result ≡ set digits dig byte }
{
    let mut ds = digits;
    let at = usize::from(dig);
    if at < 8 {
        ds[at] = byte;
    }
    ds
}

// Everything as at the start but for the register, the latch, and the code of a readout that is over.
#[tactic(auto, unfolding(crate::specs::Commands::reset))]
fn reset(chip: Chip) -> Chip
    ensures { result ≡ C.reset chip }
{
    let mut line = chip.line;
    line.readout.left = 0;
    Chip {
        line,
        settings: reset_settings(),
        digits: [0; 8],
        keys: reset_keys(),
    }
}

// System parameters; KEYB 0 also clears the interrupt, forgets the last scan and ends the readout.
#[tactic(auto, unfolding(crate::specs::Commands::system))]
fn system(s: System, chip: Chip) -> Chip
    ensures { result ≡ C.system s chip }
{
    let mut next = chip;
    next.settings.system = s;
    if !s.keyb {
        next.keys.interrupt = false;
        next.keys.last = NONE;
        next.line.readout.left = 0;
    }
    next
}

// With KEYB on, the interrupt is cleared and a readout of the code starts.
#[tactic(auto, unfolding(crate::specs::Commands::read_key))]
fn read_key(chip: Chip) -> Chip
    ensures { result ≡ C.read_key chip }
{
    let mut next = chip;
    if chip.settings.system.keyb {
        next.line.readout.code = chip.keys.code;
        next.line.readout.left = 7;
        next.keys.interrupt = false;
    }
    next
}

fn with_digits(digits: [u8; 8], chip: Chip) -> Chip
    ensures { result ≡ P.with_digits digits chip }
{
    Chip { digits, ..chip }
}

fn with_display(d: Display, chip: Chip) -> Chip
    ensures { result ≡ P.with_display d chip }
{
    let mut next = chip;
    next.settings.display = d;
    next
}

// What a command does to a chip that is awake.
#[tactic(auto, unfolding(crate::specs::Commands::obey))]
fn obey(command: Command, chip: Chip) -> Chip
    ensures { result ≡ C.obey command chip }
{
    let mut next = chip;
    let digits = chip.digits;
    match command {
        Command::NoOperation => chip,
        Command::BarLevel(level) => with_digits(bar(level), chip),
        Command::SegmentClear(addr) => with_digits(segment(false, addr, digits), chip),
        Command::SegmentSet(addr) => with_digits(segment(true, addr, digits), chip),
        Command::Reset => reset(chip),
        Command::Sleep => {
            next.settings.sleeping = true;
            next
        }
        Command::ShiftLeft => with_digits(moved_left(0, digits), chip),
        Command::ShiftRight => with_digits(moved_right(0, digits), chip),
        Command::RotateLeft => with_digits(moved_left(digits[7], digits), chip),
        Command::RotateRight => with_digits(moved_right(digits[0], digits), chip),
        Command::CustomCharacter(shape) => {
            next.settings.custom = shape;
            next
        }
        Command::SystemParameters(s) => system(s, chip),
        Command::DisplayParameters(d) => with_display(d, chip),
        Command::BlinkByte(byte) => {
            next.settings.blink = byte;
            next
        }
        Command::ReadKey => read_key(chip),
        Command::LoadDigit { digit, byte } => with_digits(with_digit(digit, byte, digits), chip),
    }
}

// What any LOAD rise does first: the chip wakes and a readout ends.
fn woken(chip: Chip) -> Chip
    ensures { result ≡ C.woken chip }
{
    let mut next = chip;
    next.settings.sleeping = false;
    next.line.readout.left = 0;
    next
}

// A command applied directly, as a LOAD rise applies it.
#[tactic(auto, unfolding(crate::specs::Commands::applied))]
pub fn applied(command: Command, chip: Chip) -> Chip
    ensures { result ≡ C.applied command chip }
{
    obey(command, woken(chip))
}

// A LOAD rise: the register is obeyed, whatever it holds.
#[tactic(auto, unfolding(crate::specs::Edges::loaded))]
pub(crate) fn loaded(chip: Chip) -> Chip
    ensures { result ≡ E.loaded chip }
{
    match word::decode(chip.line.register) {
        Ok(command) => applied(command, chip),
        Err(_) => woken(chip),
    }
}
