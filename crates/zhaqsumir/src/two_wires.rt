// CH450 commands and panels as numbers, and what the functions for a CH450 answer. A panel is 14 numbers: levels, running, rises, bits,
// SLEEP, INTENS, KEYB, DISP, DIG2 to DIG7.
ghost use Rattle.std.specs.Prelude.{true, ◌≡◌};
ghost use Rattle.base.specs.Refusals.{tells, handed};
ghost use Rattle.zhaqsumir.specs.Numbers as N;
ghost use Rattle.zhaqsumir.specs.TwoWires as T;

use crate::chips;
use base::Handed;
use ch450::{Command, Panel, Settings, Wires};
use std::array;

// A panel's numbers after a block of samples, and those of the answer.
#[derive(Clone, Copy)]
pub(crate) struct After {
    pub(crate) panel: [u64; 14],
    pub(crate) answer: [u64; 3],
}

// The most that each number of a panel can be.
const MOSTS: [u64; 14] = [3, 1, 20, 0x7FFFF, 1, 3, 1, 1, 255, 255, 255, 255, 255, 255];

// Where the numbers of the digits start.
const DIGITS: usize = 8;

// SLEEP, INTENS, KEYB, DISP.
fn parameters_from(a: u64, b: u64, c: u64, d: u64) -> Option<Command>
    ensures { T.asked_tells result ≡ T.parameters_from a b c d }
{
    if a > 1 || b > 3 || c > 1 || d > 1 {
        return None;
    }
    Some(Command::Parameters(Settings {
        sleep: a == 1,
        intens: b as u8,
        keyb: c == 1,
        disp: d == 1,
    }))
}

// A digit, and a byte.
fn digit_from(a: u64, b: u64) -> Option<Command>
    ensures { T.asked_tells result ≡ T.digit_from a b }
{
    if a > 7 || b > 255 {
        return None;
    }
    Some(Command::LoadDigit {
        digit: a as u8,
        byte: b as u8,
    })
}

// The command of a kind and four fields.
pub(crate) fn command_from(kind: u64, a: u64, b: u64, c: u64, d: u64) -> Option<Command>
    ensures { T.asked_tells result ≡ T.command_from kind a b c d }
{
    match kind {
        0 => parameters_from(a, b, c, d),
        1 => digit_from(a, b),
        2 => Some(Command::ReadKey),
        _ => None,
    }
}

// The word of a command that was given.
pub(crate) fn word_of(asked: Option<Command>) -> [u64; 3]
    ensures { result ≡ N.alone (T.word_by (T.asked_tells asked)) }
{
    let Some(command) = asked else {
        return [9, 0, 0];
    };
    crate::alone(ch450::commands::encode(command).map(usize::from))
}

// Whether each number is one that its place can hold.
fn is_fitting(numbers: &[u64; 14]) -> bool
    ensures { result ≡ T.fitting numbers.now }
{
    chips::are_within(numbers, &MOSTS)
}

// The panel that numbers stand for.
fn panel_of(numbers: &[u64; 14]) -> Panel
    requires { T.fitting numbers.now ≡ true }
    ensures { result ≡ T.panel_of numbers.now }
{
    Panel {
        wires: Wires {
            levels: numbers[0] as u8,
            running: numbers[1] == 1,
            rises: numbers[2] as u8,
            bits: numbers[3] as u32,
        },
        settings: Settings {
            sleep: numbers[4] == 1,
            intens: numbers[5] as u8,
            keyb: numbers[6] == 1,
            disp: numbers[7] == 1,
        },
        digits: array::from_fn(|k| numbers[DIGITS + k] as u8),
    }
}

// The numbers of a panel.
fn numbers_of(panel: Panel) -> [u64; 14]
    ensures { result ≡ T.panel_numbers panel }
{
    let Panel {
        wires,
        settings,
        digits,
    } = panel;
    let mut numbers = [0; 14];
    numbers[..DIGITS].copy_from_slice(&[
        u64::from(wires.levels),
        u64::from(wires.running),
        u64::from(wires.rises),
        u64::from(wires.bits),
        u64::from(settings.sleep),
        u64::from(settings.intens),
        u64::from(settings.keyb),
        u64::from(settings.disp),
    ]);
    numbers[DIGITS..].copy_from_slice(&chips::wide(digits));
    numbers
}

// A block that was played; the numbers lent are those of the panel before it.
fn after_block(played: Handed<Panel, usize>, numbers: &[u64; 14]) -> After
    ensures panel_value { result.panel ≡ (T.played_by (handed played) numbers.now).state }
    ensures answer_value { result.answer ≡ N.alone (tells played.answer) }
{
    let Handed { value, answer } = played;
    let panel = match answer {
        Ok(_) => numbers_of(value),
        Err(_) => *numbers,
    };
    After {
        panel,
        answer: crate::alone(answer),
    }
}

// Plays a block of samples into the panel that numbers stand for.
pub(crate) fn play(numbers: &[u64; 14], key: u8, samples: &[u8]) -> After
    ensures { T.Ch450Plays numbers.now key samples.now result.answer result.panel }
{
    if !is_fitting(numbers) {
        return After {
            panel: *numbers,
            answer: [12, 0, 0],
        };
    }
    after_block(ch450::play::play(panel_of(numbers), key, samples), numbers)
}

// The segments lit.
fn segments(lit: Handed<[u8; 6], ()>) -> [u64; 8]
    ensures { result ≡ T.lit_by (handed lit) }
{
    let mut numbers = [0; 8];
    numbers[..2].copy_from_slice(&crate::verdict(lit.answer));
    numbers[2..].copy_from_slice(&chips::wide(lit.value));
    numbers
}

// The segments lit of the panel that numbers stand for.
pub(crate) fn lit(numbers: &[u64; 14]) -> [u64; 8]
    ensures { result ≡ T.ch450_lit numbers.now }
{
    if !is_fitting(numbers) {
        return [12, 0, 0, 0, 0, 0, 0, 0];
    }
    segments(ch450::segments_lit(panel_of(numbers)))
}
