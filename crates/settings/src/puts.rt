// Settings put into a lent buffer, once they are tested: as text, and as the words of rows.
ghost use Rattle.std.specs.Prelude.{◌≡◌, true, ◌+◌, ◌*◌, ◌≤◌, length, take};
ghost use Rattle.base.specs.Refusals.{done, tells};
ghost use Rattle.chain.specs.Chain.{most};
ghost use Rattle.lines.specs.Answers.{Puts};
ghost use Rattle.lines.specs.Lines.{line_for};
ghost use Rattle.word.specs.Words.{legal, word_of};
ghost use Rattle.settings.specs.Putting as W;
ghost use Rattle.settings.specs.Settings as S;

use crate::{Kept, Kiosk, Part, frames};
use base::Refusal;
use word::{Command, Display, System};

// The command that sets a part of a chip's settings.
fn command_for(part: Part, c: Kept) -> Command
    ensures { result ≡ S.command_for part c }
{
    match part {
        Part::System => Command::SystemParameters(c.system),
        Part::Display => Command::DisplayParameters(c.display),
        Part::Blink => Command::BlinkByte(c.blink),
        Part::Custom => Command::CustomCharacter(c.custom),
    }
}

// Whether no field of a chip's settings is out of range.
fn is_legal(c: Kept) -> bool
    ensures { result ≡ S.legal_kept c }
{
    word::is_legal(command_for(Part::System, c))
        && word::is_legal(command_for(Part::Display, c))
        && word::is_legal(command_for(Part::Blink, c))
        && word::is_legal(command_for(Part::Custom, c))
}

// Whether none of the first n chips' is.
fn all_legal(n: usize, chips: [Kept; chain::MOST]) -> bool
    requires { n ≤ most }
    ensures { result ≡ S.all_legal (take n chips) }
{
    chips[..n].iter().all(|c| is_legal(*c))
}

// The tests of settings: refusals 3, 9.
pub(crate) fn tested(kiosk: Kiosk) -> Result<(), Refusal>
    ensures { tells result ≡ W.settings_test kiosk }
{
    let Kiosk { n, chips } = kiosk;
    if !chain::checks::is_count(n) {
        return Err(Refusal::ChipCount);
    }
    if !all_legal(n, chips) {
        return Err(Refusal::Field(0));
    }
    Ok(())
}

// The word of a command that is in range.
fn word_of(command: Command) -> u16
    requires { legal command ≡ true }
    ensures { result ≡ word_of command }
{
    word::encode(command).unwrap_or(0)
}

// The system byte: its word's low eight bits.
fn system_byte(s: System) -> u8
    ensures { result ≡ S.system_byte s }
{
    (word_of(Command::SystemParameters(s)) % 256) as u8
}

// The display byte.
fn display_byte(d: Display) -> u8
    requires { d.limit ≤ 7 }
    ensures { result ≡ S.display_byte d }
{
    8 * base::bit_value(d.mode) as u8 + d.limit
}

// The line of chip k.
fn chip_line(k: u8, c: Kept, out: &mut [u8], at: usize) -> usize
    requires c_value { S.legal_kept c ≡ true }
    requires at_in_bounds { at + 13 ≤ length out.old }
    ensures { Puts (line_for (S.chip_frame k c)) at out.old result out.new }
{
    let bytes = [
        0x21,
        k,
        system_byte(c.system),
        display_byte(c.display),
        c.blink,
        c.custom,
    ];
    lines::put_line(&bytes, out, at)
}

// The lines of the first n chips.
fn chip_lines(n: usize, chips: [Kept; chain::MOST], out: &mut [u8], at: usize) -> usize
    requires n_le_most { n ≤ most }
    requires chips_value { S.all_legal (take n chips) ≡ true }
    requires n_in_bounds { at + 13 * n ≤ length out.old }
    ensures { Puts (S.chip_lines 0 (take n chips)) at out.old result out.new }
{
    let mut end = at;
    for (k, c) in chips[..n].iter().enumerate() {
        end = chip_line(k as u8, *c, out, end);
    }
    end
}

// The text of settings that passed their test, at the front of a buffer where it fits.
pub(crate) fn text(kiosk: Kiosk, out: &mut [u8]) -> usize
    requires kiosk_value { W.settings_test kiosk ≡ done tt }
    requires n_in_bounds { 7 + 13 * kiosk.n ≤ length out.old }
    ensures { Puts (S.text_of kiosk) 0 out.old result out.new }
{
    let Kiosk { n, chips } = kiosk;
    let at = lines::put_line(&[0x20, frames::version_for(n), n as u8], out, 0);
    chip_lines(n, chips, out, at)
}

// The row of a part for the first n chips, at a place.
fn row(part: Part, n: usize, chips: [Kept; chain::MOST], words: &mut [u16], at: usize) -> usize
    requires n_le_most { n ≤ most }
    requires chips_value { S.all_legal (take n chips) ≡ true }
    requires n_in_bounds { at + n ≤ length words.old }
    ensures { Puts (S.row_for part (take n chips)) at words.old result words.new }
{
    for (k, c) in chips[..n].iter().enumerate() {
        words[at + k] = word_of(command_for(part, *c));
    }
    at + n
}

// The words of settings that passed their test: system, display, blink, custom.
pub(crate) fn words(kiosk: Kiosk, words: &mut [u16]) -> usize
    requires kiosk_value { W.settings_test kiosk ≡ done tt }
    requires most_in_bounds { 4 * most ≤ length words.old }
    ensures { Puts (S.words_of (S.kept_in kiosk)) 0 words.old result words.new }
{
    let Kiosk { n, chips } = kiosk;
    let system = row(Part::System, n, chips, words, 0);
    let display = row(Part::Display, n, chips, words, system);
    let blink = row(Part::Blink, n, chips, words, display);
    row(Part::Custom, n, chips, words, blink)
}
