// The till's own library: the proved functions that C links, which the crate `zhaqsumir_c` exports under their names. Each takes numbers and
// slices, and answers by numbers in a lent array: a refusal's number and place, 0 and 0 where there is none, then the answer, zeros where it
// is refused. A replay counts the bytes that it wrote either way; a tally and the panel of a CH450 are lent as numbers, that of CH452 chips
// as a struct of numbers, and go on. include/zhaqsumir.h is their header.
#![tactic(auto)]

mod chains;
mod chips;
mod commands;
mod kept;
pub mod kiosks;
mod panels;
mod tallied;
mod two_wires;

ghost use Rattle.std.specs.Prelude.{◌≡◌, [], ◌∷◌};
ghost use Rattle.base.specs.Refusals.{tells};
ghost use Rattle.chain.specs.Finder.{next_rise_of};
ghost use Rattle.zhaqsumir.specs.Commands.{given_tells};
ghost use Rattle.zhaqsumir.specs.Numbers as N;
ghost use Rattle.zhaqsumir.specs.Panels as P;
ghost use Rattle.zhaqsumir.specs.TwoWires as T;

use base::{Handed, Refusal};
use capture::Replayed;
use chain::finder::Found;
pub use panels::Panel;
use tallies::Tally;
use two_wires::After;
use word::Command;

// The number and the place of an answer's refusal; zeros where it is none.
pub(crate) fn verdict(v: Result<(), Refusal>) -> [u64; 2]
    ensures { result ≡ N.number_in (tells v) ∷ N.place_in (tells v) ∷ [] }
{
    match v {
        Ok(()) => [0, 0],
        Err(e) => [base::number(e), base::place(e)],
    }
}

// An answer of one number: the word of a command, or how many there are.
pub(crate) fn alone(answer: Result<usize, Refusal>) -> [u64; 3]
    ensures { result ≡ N.alone (tells answer) }
{
    match answer {
        Ok(number) => [0, 0, number as u64],
        Err(e) => [base::number(e), base::place(e), 0],
    }
}

// What a word means.
fn decoded(answer: Result<Command, Refusal>) -> [u64; 8]
    ensures { result ≡ N.decode_by (tells answer) }
{
    match answer {
        Ok(c) => commands::meaning(c),
        Err(e) => [base::number(e), base::place(e), 0, 0, 0, 0, 0, 0],
    }
}

// The word of a command that was given.
fn given(g: Option<Command>) -> [u64; 3]
    ensures { result ≡ N.alone (N.encoded_by (given_tells g)) }
{
    let Some(command) = g else {
        return [9, 0, 0];
    };
    alone(word::encode(command).map(usize::from))
}

// 1 where there is a rise.
fn is_rise(rise: Option<usize>) -> u64
    ensures { result ≡ N.is_rise (next_rise_of rise) }
{
    match rise {
        Some(_) => 1,
        None => 0,
    }
}

// The place of a rise, or 0.
fn rise_place(rise: Option<usize>) -> u64
    ensures { result ≡ N.rise_place (next_rise_of rise) }
{
    match rise {
        Some(at) => at as u64,
        None => 0,
    }
}

// The next rise.
fn found(f: Found) -> [u64; 5]
    ensures { result ≡ N.find_by (tells f.answer) (next_rise_of f.rise) f.passed }
{
    let [number, place] = verdict(f.answer);
    [
        number,
        place,
        is_rise(f.rise),
        rise_place(f.rise),
        f.passed as u64,
    ]
}

// How a text was replayed.
fn replayed(r: Replayed) -> [u64; 3]
    ensures { result ≡ N.replay_by (tells r.answer) r.bytes }
{
    let [number, place] = verdict(r.answer);
    [number, place, r.bytes as u64]
}

// What a word means: number, place, kind, five fields.
pub fn zhaqsumir_decode(word: u16, answer: &mut [u64; 8])
    ensures { answer.new ≡ N.decode_numbers word }
{
    *answer = decoded(word::decode(word));
}

// The word of a command, given as kind and five fields: number, place, word.
pub fn zhaqsumir_encode(command: &[u64; 6], answer: &mut [u64; 3])
    ensures { answer.new ≡ N.encode_numbers command.now }
{
    let [kind, a, b, c, d, e] = *command;
    *answer = given(commands::command_from(kind, a, b, c, d, e));
}

// Writes rows of words, chip 0 first in each row: number, place, how many samples.
pub fn zhaqsumir_write(n: usize, words: &[u16], out: &mut [u8], answer: &mut [u64; 3])
    ensures { N.WritesNumbers n words.now out.old answer.new out.new }
{
    *answer = alone(writer::write(n, words, out));
}

// Looks for the next LOAD rise: number, place, 1 where there is one, its place, how many samples were passed.
pub fn zhaqsumir_find(levels: u8, samples: &[u8], answer: &mut [u64; 5])
    ensures { answer.new ≡ N.find_numbers levels samples.now }
{
    *answer = found(chain::finder::next_rise(levels, samples));
}

// Replays a capture text: number, line, how many bytes stand at the front of `out`.
pub fn zhaqsumir_replay(text: &[u8], out: &mut [u8; capture::WORDS_ROOM], answer: &mut [u64; 3])
    ensures { N.ReplaysNumbers text.now out.old answer.new out.new }
{
    *answer = replayed(capture::replay(text, out));
}

// Counts a capture text, and goes on from the tally that is lent: number, line.
pub fn zhaqsumir_tally(
    text: &[u8],
    chips: &mut [u64; 32],
    codes: &mut [u64; 128],
    largest: &mut u64,
    answer: &mut [u64; 2],
)
    ensures { N.TalliesNumbers text.now chips.old codes.old largest.old answer.new chips.new codes.new largest.new }
{
    let before = Tally {
        chips: tallied::chips_from(chips),
        codes: *codes,
        largest: *largest as usize,
    };
    let Handed {
        value: tally,
        answer: counted,
    } = tallies::count(before, text);
    let Tally {
        chips: counts,
        codes: times,
        largest: most,
    } = tally;
    *chips = tallied::numbers_of(counts);
    *codes = times;
    *largest = most as u64;
    *answer = verdict(counted);
}

// The word of a CH450 command, given as kind and four fields: number, place, word.
pub fn zhaqsumir_ch450_encode(command: &[u64; 5], answer: &mut [u64; 3])
    ensures { answer.new ≡ T.ch450_word command.now }
{
    let [kind, a, b, c, d] = *command;
    *answer = two_wires::word_of(two_wires::command_from(kind, a, b, c, d));
}

// Writes CH450 commands, given as words: number, place, how many samples.
pub fn zhaqsumir_ch450_write(words: &[u16], out: &mut [u8], answer: &mut [u64; 3])
    ensures { T.Ch450Writes words.now out.old answer.new out.new }
{
    *answer = alone(ch450::writer::write(words, out));
}

// Plays samples into the CH450 panel that is lent as numbers: number, place, how many times the key was read.
pub fn zhaqsumir_ch450_play(panel: &mut [u64; 14], key: u8, samples: &[u8], answer: &mut [u64; 3])
    ensures { T.Ch450Plays panel.old key samples.now answer.new panel.new }
{
    let After {
        panel: numbers,
        answer: told,
    } = two_wires::play(panel, key, samples);
    *panel = numbers;
    *answer = told;
}

// The segments that a CH450 panel lights: number, place, six bytes.
pub fn zhaqsumir_ch450_lit(panel: &[u64; 14], answer: &mut [u64; 8])
    ensures { answer.new ≡ T.ch450_lit panel.now }
{
    *answer = two_wires::lit(panel);
}

// Starts a CH452 panel of n chips in the 202 numbers lent: number, place.
pub fn zhaqsumir_start(n: usize, panel: &mut [u64; 202], answer: &mut [u64; 2])
    ensures { P.StartsNumbers n panel.old answer.new panel.new }
{
    *answer = panels::start(n, panel);
}

// Plays a block of samples into the panel that is lent, and changes it in place; the places of its LOAD rises go to the list: number,
// place, how many rises.
pub fn zhaqsumir_block(panel: &mut Panel, samples: &[u8], rises: &mut [u64], answer: &mut [u64; 3])
    ensures { P.BlocksNumbers panel.old.numbers samples.now rises.old answer.new panel.new.numbers rises.new }
{
    *panel = panels::block(*panel, samples, rises, answer);
}

// Scans a chip of the panel that is lent as numbers, with the contacts closed: number, place, what was recorded, its code.
pub fn zhaqsumir_scan(
    panel: &mut [u64; 202],
    chip: usize,
    contacts: &[u8; 8],
    answer: &mut [u64; 4],
)
    ensures { P.ScansNumbers panel.old chip contacts.now answer.new panel.new }
{
    *answer = panels::scan(panel, chip, *contacts);
}

// The segments that a chip of a panel lights: number, place, eight bytes.
pub fn zhaqsumir_lit(panel: &[u64; 202], chip: usize, answer: &mut [u64; 10])
    ensures { answer.new ≡ P.lit_numbers panel.now chip }
{
    *answer = panels::lit(panel, chip);
}

// What the host sees of a panel: number, place, the level of the last chip's DOUT.
pub fn zhaqsumir_sees(panel: &[u64; 202], answer: &mut [u64; 3])
    ensures { answer.new ≡ P.sees_numbers panel.now }
{
    *answer = panels::sees(panel);
}
