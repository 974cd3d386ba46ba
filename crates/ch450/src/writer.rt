// The writer: words to samples, each command into its own stretch of the lent buffer. The entry is `write`.
ghost use Rattle.std.specs.Prelude.{◌≡◌, ◌*◌, ◌≤◌, length};
ghost use Rattle.base.specs.Lent.{laid};
ghost use Rattle.base.specs.Refusals.{tells};
ghost use Rattle.ch450.specs.Written as W;

use crate::commands;
use base::Refusal;

// The most commands of a list, and the samples of each.
pub const MOST_COMMANDS: usize = 64;

pub const COMMAND_SAMPLES: usize = 40;

// Whether a word is a parameter or digit command, by its byte 1.
fn is_writable(word: u16) -> bool
    ensures { result ≡ W.writable word }
{
    let first = base::field(word, 8, 8) as u8;
    first == 0x48 || commands::is_digit_byte(first)
}

// The list, whatever the buffer: refusals 5, then 9 with the lowest place.
fn tested(words: &[u16]) -> Result<(), Refusal>
    ensures { tells result ≡ W.list_test words.now }
{
    if words.len() > MOST_COMMANDS {
        return Err(Refusal::Rows);
    }
    match words.iter().position(|word| !is_writable(*word)) {
        Some(place) => Err(Refusal::Field(place as u64)),
        None => Ok(()),
    }
}

// A byte into 18 samples, highest bit first, and its acknowledge.
fn write_byte(byte: u16, out: &mut [u8])
    requires { length out.old ≡ 18 }
    ensures { out.new ≡ W.clocking (W.byte_bits byte) }
{
    for at in 0..8 {
        let b = base::field(byte, (7 - at) as u16, 1) as u8;
        out[at * 2] = 2 * b;
        out[at * 2 + 1] = 2 * b + 1;
    }
    out[16] = 2;
    out[17] = 3;
}

// A command into its own stretch: the start, both bytes, the stop.
fn write_command(word: u16, out: &mut [u8])
    requires { length out.old ≡ 40 }
    ensures { out.new ≡ W.command_samples word }
{
    out[0] = 1;
    write_byte(base::field(word, 8, 8), &mut out[1..19]);
    write_byte(base::field(word, 0, 8), &mut out[19..37]);
    out[37] = 0;
    out[38] = 1;
    out[39] = 3;
}

// Commands one after another, each into its own stretch.
fn write_commands(words: &[u16], out: &mut [u8]) -> usize
    requires words_len_bound { length words.now ≤ 64 }
    requires words_in_bounds { 40 * length words.now ≤ length out.old }
    ensures value { result ≡ 40 * length words.now }
    ensures out_after { out.new ≡ laid (W.written words.now) out.old }
{
    for (k, &word) in words.iter().enumerate() {
        let a = COMMAND_SAMPLES * k;
        let e = a + COMMAND_SAMPLES;
        write_command(word, &mut out[a..e]);
    }
    COMMAND_SAMPLES * words.len()
}

// Writes commands, given as words: refusals 5, 9, 8.
pub fn write(words: &[u16], out: &mut [u8]) -> Result<usize, Refusal>
    ensures { W.Writes words.now out.old result out.new }
{
    tested(words)?;
    if out.len() < COMMAND_SAMPLES * words.len() {
        return Err(Refusal::Room);
    }
    Ok(write_commands(words, out))
}
