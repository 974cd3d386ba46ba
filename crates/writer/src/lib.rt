// The writer: rows of words to samples, each row into its own stretch of the lent buffer. The entry is `write`; nothing else is
// public.
#![tactic(auto)]

mod lights;

ghost use Rattle.std.specs.Prelude.{◌≡◌, not, ◌&&◌, ◌+◌, ◌*◌, ◌/◌, ◌≤◌, ◌<◌, length, get_or};
ghost use Rattle.base.specs.Lent.{laid};
ghost use Rattle.base.specs.Refusals.{tells};
ghost use Rattle.writer.specs.Rows.{word_bits, clocking};
ghost use Rattle.chain.specs.Chain.{most};
ghost use Rattle.writer.specs.Rows as R;
ghost use Rattle.writer.specs.Written.{Writes};

use base::Refusal;
use word::Command;

// Whether a command is a system word with KEYB 1.
fn turns_keypad_on(command: Command) -> bool
    ensures { result ≡ R.keypad_on command }
{
    matches!(command, Command::SystemParameters(s) if s.keyb)
}

// Whether a command at a place of the list turns the keypad on before the last chip.
fn is_early_keypad(n: usize, place: usize, command: Command) -> bool
    requires { 0 < n }
    ensures { result ≡ (R.keypad_on command && not (R.for_last n place)) }
{
    turns_keypad_on(command) && place % n != n - 1
}

// One word at its place of the list: 6 where it is unlisted, 7 where it turns the keypad on before the last chip, 13 where it is a sleep
// word and the chip's display and keypad weren't switched off before.
fn tested(n: usize, words: &[u16], place: usize) -> Result<(), Refusal>
    requires n_nonzero { 0 < n }
    requires place_in_bounds { place < length words.now }
    ensures { tells result ≡ R.test_at n words.now place (get_or words.now place 0) }
{
    let w = words[place];
    let Ok(command) = word::decode(w) else {
        return Err(Refusal::Unlisted(place as u64));
    };
    if is_early_keypad(n, place, command) {
        return Err(Refusal::Keypad(place as u64));
    }
    if lights::is_lit_sleep(n, words, place, command) {
        return Err(Refusal::LitSleep(place as u64));
    }
    Ok(())
}

// The words from the first on.
fn tested_all(n: usize, words: &[u16]) -> Result<(), Refusal>
    requires { 0 < n }
    ensures { tells result ≡ R.words_from n words.now 0 words.now }
{
    for i in 0..words.len() {
        tested(n, words, i)?;
    }
    Ok(())
}

// The list, whatever the buffer: refusals 3, 4, 5, then words from the first on.
fn tested_list(n: usize, words: &[u16]) -> Result<(), Refusal>
    ensures { tells result ≡ R.list_test n words.now }
{
    if !chain::checks::is_count(n) {
        return Err(Refusal::ChipCount);
    }
    if words.len() % n != 0 {
        return Err(Refusal::PartRow);
    }
    if words.len() / n > 64 {
        return Err(Refusal::Rows);
    }
    tested_all(n, words)
}

// One word into 24 samples, lowest bit first.
fn write_word(w: u16, out: &mut [u8])
    requires { length out.old ≡ 24 }
    ensures { out.new ≡ clocking 4 (word_bits w) }
{
    for at in 0..12 {
        let b = base::field(w, at, 1) as u8;
        let i = (at as usize) * 2;
        out[i] = 4 + b;
        out[i + 1] = 6 + b;
    }
}

// One row into its own stretch: last chip first, then 3, 7.
fn write_row(words: &[u16], out: &mut [u8])
    requires out_len { length out.old ≡ 24 * length words.now + 2 }
    requires words_len_bound { length words.now ≤ most }
    ensures { out.new ≡ R.row_samples words.now }
{
    for (k, word) in words.iter().rev().enumerate() {
        let at = 24 * k;
        write_word(*word, &mut out[at..at + 24]);
    }
    let end = 24 * words.len();
    out[end] = 3;
    out[end + 1] = 7;
}

// Rows one after another, each into its own stretch.
fn write_rows(n: usize, words: &[u16], out: &mut [u8]) -> usize
    requires n_nonzero { (0 < n) × (n ≤ most) }
    requires words_len_bound { length words.now ≤ 64 * most }
    requires n_in_bounds { R.width n * (length words.now / n) ≤ length out.old }
    ensures value { result ≡ R.width n * (length words.now / n) }
    ensures out_after { out.new ≡ laid (R.written n words.now) out.old }
{
    let width = 24 * n + 2;
    for (r, row) in words.chunks_exact(n).enumerate() {
        let at = width * r;
        write_row(row, &mut out[at..at + width]);
    }
    width * (words.len() / n)
}

// Writes rows of words, chip 0 first in each row: refusals 3, 4, 5, then words from the first on (6, 7, 13), then 8.
pub fn write(n: usize, words: &[u16], out: &mut [u8]) -> Result<usize, Refusal>
    ensures { Writes n words.now out.old result out.new }
{
    tested_list(n, words)?;
    if out.len() < (24 * n + 2) * (words.len() / n) {
        return Err(Refusal::Room);
    }
    Ok(write_rows(n, words, out))
}
