// Kiosk settings as 73 numbers: N, then nine for each of eight chips: INTM, SSPD, DPLR, KEYB, DISP, MODE, LIMIT, blink byte, custom
// character. What they stand for, and the numbers of settings put. Numbers of chips from N on are not looked at.
ghost use Rattle.std.specs.Prelude.{◌≡◌, ◌+◌, ◌*◌, ◌≤◌, length};
ghost use Rattle.base.specs.Below.{below};
ghost use Rattle.base.specs.Refusals.{tells};
ghost use Rattle.lines.specs.Answers.{Puts};
ghost use Rattle.zhaqsumir.specs.Settings as S;

use crate::chips::{are_within, bit_at, byte_at};
use base::Refusal;
use settings::{Kept, Kiosk};
use std::array;
use word::{Display, System};

// How many numbers a chip's settings are.
const KEPT: usize = 9;

// How many numbers a panel's settings are.
pub(crate) const SETTINGS: usize = 1 + KEPT * chain::MOST;

// The most that each number of a chip's settings can be.
const MOSTS: [u64; KEPT] = [1, 1, 1, 1, 1, 1, 7, 255, 127];

// Whether each of the first nine numbers is in its field's range.
fn is_fitting(numbers: &[u64]) -> bool
    ensures { result ≡ S.kept_fits numbers.now }
{
    are_within(numbers, &MOSTS)
}

// Whether each number of the first n chips is.
fn are_fitting(numbers: &[u64], n: usize) -> bool
    requires { 1 + 9 * n ≤ length numbers.now }
    ensures { result ≡ below (S.kept_fits_in numbers.now) n }
{
    (0..n).all(|k| is_fitting(&numbers[1 + KEPT * k..]))
}

// The tests of the numbers of settings: refusals 3, 9.
pub(crate) fn tested(numbers: &[u64; SETTINGS]) -> Result<(), Refusal>
    ensures { tells result ≡ S.settings_tested numbers.now }
{
    let n = numbers[0] as usize;
    if !chain::checks::is_count(n) {
        return Err(Refusal::ChipCount);
    }
    if !are_fitting(numbers, n) {
        return Err(Refusal::Field(0));
    }
    Ok(())
}

// The settings that the first nine numbers stand for.
fn kept_of(numbers: &[u64]) -> Kept
    ensures { result ≡ S.kept_of numbers.now }
{
    Kept {
        system: System {
            intm: bit_at(numbers, 0),
            sspd: bit_at(numbers, 1),
            dplr: bit_at(numbers, 2),
            keyb: bit_at(numbers, 3),
            disp: bit_at(numbers, 4),
        },
        display: Display {
            mode: bit_at(numbers, 5),
            limit: byte_at(numbers, 6),
        },
        blink: byte_at(numbers, 7),
        custom: byte_at(numbers, 8),
    }
}

// The settings of chip k.
fn kept_in(numbers: &[u64], k: usize) -> Kept
    requires { 1 + 9 * k ≤ length numbers.now }
    ensures { result ≡ S.kept_in numbers.now k }
{
    kept_of(&numbers[1 + KEPT * k..])
}

// The settings that the numbers stand for.
pub(crate) fn kiosk_of(numbers: &[u64; SETTINGS]) -> Kiosk
    ensures { result ≡ S.kiosk_of numbers.now }
{
    Kiosk {
        n: numbers[0] as usize,
        chips: array::from_fn(|k| kept_in(numbers, k)),
    }
}

// The numbers of a chip's settings.
fn numbers_of(c: Kept) -> [u64; KEPT]
    ensures { result ≡ S.kept_numbers c }
{
    let Kept {
        system,
        display,
        ..
    } = c;
    [
        u64::from(system.intm),
        u64::from(system.sspd),
        u64::from(system.dplr),
        u64::from(system.keyb),
        u64::from(system.disp),
        u64::from(display.mode),
        u64::from(display.limit),
        u64::from(c.blink),
        u64::from(c.custom),
    ]
}

// Puts a chip's numbers at a place.
fn put(numbers: &mut [u64], from: usize, own: [u64; KEPT]) -> usize
    requires { from + 9 ≤ length numbers.old }
    ensures { Puts own from numbers.old result numbers.new }
{
    let end = from + KEPT;
    numbers[from..end].copy_from_slice(&own);
    end
}

// Puts the numbers of all eight chips from a place on.
pub(crate) fn put_all(numbers: &mut [u64], from: usize, chips: [Kept; chain::MOST]) -> usize
    requires { from + 72 ≤ length numbers.old }
    ensures { Puts (S.chips_numbers chips) from numbers.old result numbers.new }
{
    let mut end = from;
    for c in chips {
        end = put(numbers, end, numbers_of(c));
    }
    end
}
