// The functions for kiosk settings, which are lent and answered as the 73 numbers of src/kept.rt.
ghost use Rattle.std.specs.Prelude.{◌≡◌};
ghost use Rattle.base.specs.Refusals.{tells, handed};
ghost use Rattle.zhaqsumir.specs.Numbers as N;
ghost use Rattle.zhaqsumir.specs.Settings as S;

use crate::kept;
use crate::kept::SETTINGS;
use base::{Handed, Refusal};
use settings::Kiosk;

// How many numbers the answer of a read is.
const READ: usize = 2 + SETTINGS;

// Settings that were read, or refused.
fn told(read: Handed<Kiosk, ()>) -> [u64; READ]
    ensures { result ≡ S.read_by (handed read) }
{
    let Handed {
        value: kiosk,
        answer,
    } = read;
    let [number, place] = crate::verdict(answer);
    let mut numbers = [0; READ];
    numbers[0] = number;
    numbers[1] = place;
    numbers[2] = kiosk.n as u64;
    kept::put_all(&mut numbers, 3, kiosk.chips);
    numbers
}

// Writes the settings that numbers stand for.
fn write(numbers: &[u64; SETTINGS], out: &mut [u8]) -> Result<usize, Refusal>
    ensures { S.WritesSettings numbers.now out.old (N.alone (tells result)) out.new }
{
    kept::tested(numbers)?;
    settings::write(kept::kiosk_of(numbers), out)
}

// Turns the settings that numbers stand for into words.
fn rows(numbers: &[u64; SETTINGS], words: &mut [u16; settings::WORDS]) -> Result<usize, Refusal>
    ensures { S.FillsWords numbers.now words.old (N.alone (tells result)) words.new }
{
    kept::tested(numbers)?;
    settings::rows(kept::kiosk_of(numbers), words)
}

// Reads a settings text: number, place, and the settings as 73 numbers.
pub fn zhaqsumir_settings_read(text: &[u8], answer: &mut [u64; 75])
    ensures { answer.new ≡ S.read_numbers text.now }
{
    *answer = told(settings::read(text));
}

// Writes settings, given as 73 numbers, as text: number, place, how many bytes.
pub fn zhaqsumir_settings_write(settings: &[u64; 73], out: &mut [u8], answer: &mut [u64; 3])
    ensures { S.WritesSettings settings.now out.old answer.new out.new }
{
    *answer = crate::alone(write(settings, out));
}

// Turns settings, given as 73 numbers, into the words of four rows: number, place, how many words.
pub fn zhaqsumir_settings_rows(settings: &[u64; 73], words: &mut [u16; 32], answer: &mut [u64; 3])
    ensures { S.FillsWords settings.now words.old answer.new words.new }
{
    *answer = crate::alone(rows(settings, words));
}
