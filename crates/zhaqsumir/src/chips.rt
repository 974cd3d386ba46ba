// One chip of a CH452 panel as 25 numbers: register, latch, the readout's code and bits left; INTM, SSPD, DPLR, KEYB, DISP, MODE,
// LIMIT, blink byte, custom character, sleeping; DIG0 to DIG7; key code, interrupt, last scan. A number that is missing counts as 0.
ghost use Rattle.std.specs.Prelude.{◌≡◌, ◌%◌, get_or, leb, length};
ghost use Rattle.base.specs.Below.{below};
ghost use Rattle.zhaqsumir.specs.Panels as P;

use crate::panels::CHIP;
use chip::{Chip, Keys, LineParts, Readout, Settings};
use std::array;
use word::{Display, System};

// The most that each number of a chip can be.
const MOSTS: [u64; CHIP] = [
    65535, 1, 255, 255, 1, 1, 1, 1, 1, 1, 255, 255, 255, 1, 255, 255, 255, 255, 255, 255, 255, 255,
    255, 1, 255,
];

// Where the numbers of the digits start.
const DIGITS: usize = 14;

// Where those of the key record start.
const KEYS: usize = 22;

// Whether the number at each place is no more than the most there.
pub(crate) fn are_within(numbers: &[u64], mosts: &[u64]) -> bool
    ensures { result ≡ below (λ j. leb (get_or numbers.now j 0) (get_or mosts.now j 0)) (length mosts.now) }
{
    numbers
        .iter()
        .zip(mosts)
        .all(|(number, most)| number <= most)
}

// The number at a place.
pub(crate) fn at(numbers: &[u64], j: usize) -> u64
    ensures { result ≡ get_or numbers.now j 0 }
{
    numbers.get(j).copied().unwrap_or(0)
}

// The byte at a place.
pub(crate) fn byte_at(numbers: &[u64], j: usize) -> u8
    ensures { result ≡ P.byte_at numbers.now j }
{
    (at(numbers, j) % 256) as u8
}

// The bit at a place.
pub(crate) fn bit_at(numbers: &[u64], j: usize) -> bool
    ensures { result ≡ P.bit_at numbers.now j }
{
    at(numbers, j) == 1
}

// The register.
fn register_of(numbers: &[u64]) -> u16
    ensures { result ≡ get_or numbers.now 0 0 % 65536 }
{
    (at(numbers, 0) % 65536) as u16
}

// The line parts.
fn line_of(numbers: &[u64]) -> LineParts
    ensures { result ≡ P.line_of numbers.now }
{
    LineParts {
        register: register_of(numbers),
        latch: bit_at(numbers, 1),
        readout: Readout {
            code: byte_at(numbers, 2),
            left: byte_at(numbers, 3),
        },
    }
}

// The settings.
fn settings_of(numbers: &[u64]) -> Settings
    ensures { result ≡ P.settings_of numbers.now }
{
    Settings {
        system: System {
            intm: bit_at(numbers, 4),
            sspd: bit_at(numbers, 5),
            dplr: bit_at(numbers, 6),
            keyb: bit_at(numbers, 7),
            disp: bit_at(numbers, 8),
        },
        display: Display {
            mode: bit_at(numbers, 9),
            limit: byte_at(numbers, 10),
        },
        blink: byte_at(numbers, 11),
        custom: byte_at(numbers, 12),
        sleeping: bit_at(numbers, 13),
    }
}

// The digits.
fn digits_of(numbers: &[u64]) -> [u8; 8]
    ensures { result ≡ P.digits_of numbers.now }
{
    array::from_fn(|k| byte_at(numbers, DIGITS + k))
}

// The key record.
fn keys_of(numbers: &[u64]) -> Keys
    ensures { result ≡ P.keys_of numbers.now }
{
    Keys {
        code: byte_at(numbers, 22),
        interrupt: bit_at(numbers, 23),
        last: byte_at(numbers, 24),
    }
}

// The record that the first 25 numbers stand for.
pub(crate) fn chip_of(numbers: &[u64]) -> Chip
    ensures { result ≡ P.chip_of numbers.now }
{
    Chip {
        line: line_of(numbers),
        settings: settings_of(numbers),
        digits: digits_of(numbers),
        keys: keys_of(numbers),
    }
}

// Whether each of the first 25 numbers is one that its field can hold.
pub(crate) fn is_fitting(numbers: &[u64]) -> bool
    ensures { result ≡ P.chip_fits numbers.now }
{
    are_within(numbers, &MOSTS)
}

// Bytes as numbers.
pub(crate) fn wide<const N: usize>(bytes: [u8; N]) -> [u64; N]
    ensures { result ≡ bytes.entry }
{
    bytes.map(u64::from)
}

// The numbers of a record.
pub(crate) fn numbers_of(chip: Chip) -> [u64; CHIP]
    ensures { result ≡ P.record_numbers chip }
{
    let Chip {
        line,
        settings,
        digits,
        keys,
    } = chip;
    let Settings {
        system,
        display,
        ..
    } = settings;
    let mut numbers = [0; CHIP];
    numbers[..DIGITS].copy_from_slice(&[
        u64::from(line.register),
        u64::from(line.latch),
        u64::from(line.readout.code),
        u64::from(line.readout.left),
        u64::from(system.intm),
        u64::from(system.sspd),
        u64::from(system.dplr),
        u64::from(system.keyb),
        u64::from(system.disp),
        u64::from(display.mode),
        u64::from(display.limit),
        u64::from(settings.blink),
        u64::from(settings.custom),
        u64::from(settings.sleeping),
    ]);
    numbers[DIGITS..KEYS].copy_from_slice(&wide(digits));
    numbers[KEYS..].copy_from_slice(&[
        u64::from(keys.code),
        u64::from(keys.interrupt),
        u64::from(keys.last),
    ]);
    numbers
}
