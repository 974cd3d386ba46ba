// Segments lit.
ghost use Rattle.std.specs.Prelude.{◌≡◌, ◌<◌};
ghost use Rattle.chip.specs.Segments as L;

use crate::{Chip, Settings};
use std::array;

// Segments G to A of the BCD codes 00H to 1FH; the place of 1EH, the custom character, is not looked at.
const SHAPES: [u8; 32] = [
    0x3F, 0x06, 0x5B, 0x4F, 0x66, 0x6D, 0x7D, 0x07, 0x7F, 0x6F, 0x77, 0x7C, 0x58, 0x5E, 0x79, 0x71,
    0x00, 0x46, 0x40, 0x41, 0x39, 0x0F, 0x08, 0x76, 0x38, 0x73, 0x00, 0x00, 0x00, 0x00, 0x00, 0x00,
];

// Segments G to A of a BCD code.
#[tactic(auto, unfolding(crate::specs::Segments::shape))]
fn shape(custom: u8, code: u8) -> u8
    requires { code < 32 }
    ensures { result ≡ L.shape custom code }
{
    if code == 0x1E {
        base::field(u16::from(custom), 0, 7) as u8
    } else {
        SHAPES[usize::from(code)]
    }
}

// The segments of a BCD byte: bits 4 to 0 choose the shape, bit 7 alone is the point.
#[tactic(auto, using(crate::proofs::Shapes::shape_lt), unfolding(crate::specs::Segments::bcd))]
fn bcd(custom: u8, byte: u8) -> u8
    ensures { result ≡ L.bcd custom byte }
{
    let wide = u16::from(byte);
    let low = shape(custom, base::field(wide, 0, 5) as u8);
    if base::field(wide, 7, 1) == 1 {
        low + 128
    } else {
        low
    }
}

// Whether nothing of a digit is lit: DISP 0, asleep, or not below the limit.
fn is_dark(s: Settings, dig: u8) -> bool
    ensures { result ≡ L.dark s dig }
{
    let limit = match s.display.limit {
        0 => 8,
        limit => limit,
    };
    !s.system.disp || s.sleeping || dig >= limit
}

// The segments lit of one digit.
#[tactic(auto, unfolding(crate::specs::Segments::lit_digit))]
fn lit_digit(s: Settings, dig: u8, byte: u8) -> u8
    ensures { result ≡ L.lit_digit s dig byte }
{
    if is_dark(s, dig) {
        0
    } else if s.display.mode {
        bcd(s.custom, byte)
    } else {
        byte
    }
}

// The segments lit of all eight digits, DIG0 first.
pub fn lit(chip: Chip) -> [u8; 8]
    ensures { result ≡ L.lit_of chip }
{
    array::from_fn(|dig| lit_digit(chip.settings, dig as u8, chip.digits[dig]))
}
