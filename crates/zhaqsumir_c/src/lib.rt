// The till's own library for C to link: each export is the function of the crate `zhaqsumir` with its name, parameters and contract, and
// calls it. include/zhaqsumir.h is their header.
#![tactic(auto)]

ghost use Rattle.std.specs.Prelude.{◌≡◌};
ghost use Rattle.zhaqsumir.specs.Numbers as N;
ghost use Rattle.zhaqsumir.specs.Panels as P;
ghost use Rattle.zhaqsumir.specs.Settings as S;
ghost use Rattle.zhaqsumir.specs.TwoWires as T;

use zhaqsumir::Panel;

// What a word means: number, place, kind, five fields.
#[unsafe(no_mangle)]
pub extern "C" fn zhaqsumir_decode(word: u16, answer: &mut [u64; 8])
    ensures { answer.new ≡ N.decode_numbers word }
{
    zhaqsumir::zhaqsumir_decode(word, answer);
}

// The word of a command, given as kind and five fields: number, place, word.
#[unsafe(no_mangle)]
pub extern "C" fn zhaqsumir_encode(command: &[u64; 6], answer: &mut [u64; 3])
    ensures { answer.new ≡ N.encode_numbers command.now }
{
    zhaqsumir::zhaqsumir_encode(command, answer);
}

// Writes rows of words, chip 0 first in each row: number, place, how many samples.
#[unsafe(no_mangle)]
pub extern "C" fn zhaqsumir_write(n: usize, words: &[u16], out: &mut [u8], answer: &mut [u64; 3])
    ensures { N.WritesNumbers n words.now out.old answer.new out.new }
{
    zhaqsumir::zhaqsumir_write(n, words, out, answer);
}

// Looks for the next LOAD rise: number, place, 1 where there is one, its place, how many samples were passed.
#[unsafe(no_mangle)]
pub extern "C" fn zhaqsumir_find(levels: u8, samples: &[u8], answer: &mut [u64; 5])
    ensures { answer.new ≡ N.find_numbers levels samples.now }
{
    zhaqsumir::zhaqsumir_find(levels, samples, answer);
}

// Replays a capture text: number, line, how many bytes stand at the front of `out`.
#[unsafe(no_mangle)]
pub extern "C" fn zhaqsumir_replay(
    text: &[u8],
    out: &mut [u8; capture::WORDS_ROOM],
    answer: &mut [u64; 3],
)
    ensures { N.ReplaysNumbers text.now out.old answer.new out.new }
{
    zhaqsumir::zhaqsumir_replay(text, out, answer);
}

// Counts a capture text, and goes on from the tally that is lent: number, line.
#[unsafe(no_mangle)]
pub extern "C" fn zhaqsumir_tally(
    text: &[u8],
    chips: &mut [u64; 32],
    codes: &mut [u64; 128],
    largest: &mut u64,
    answer: &mut [u64; 2],
)
    ensures { N.TalliesNumbers text.now chips.old codes.old largest.old answer.new chips.new codes.new largest.new }
{
    zhaqsumir::zhaqsumir_tally(text, chips, codes, largest, answer);
}

// The word of a CH450 command, given as kind and four fields: number, place, word.
#[unsafe(no_mangle)]
pub extern "C" fn zhaqsumir_ch450_encode(command: &[u64; 5], answer: &mut [u64; 3])
    ensures { answer.new ≡ T.ch450_word command.now }
{
    zhaqsumir::zhaqsumir_ch450_encode(command, answer);
}

// Writes CH450 commands, given as words: number, place, how many samples.
#[unsafe(no_mangle)]
pub extern "C" fn zhaqsumir_ch450_write(words: &[u16], out: &mut [u8], answer: &mut [u64; 3])
    ensures { T.Ch450Writes words.now out.old answer.new out.new }
{
    zhaqsumir::zhaqsumir_ch450_write(words, out, answer);
}

// Plays samples into the CH450 panel that is lent as numbers: number, place, how many times the key was read.
#[unsafe(no_mangle)]
pub extern "C" fn zhaqsumir_ch450_play(
    panel: &mut [u64; 14],
    key: u8,
    samples: &[u8],
    answer: &mut [u64; 3],
)
    ensures { T.Ch450Plays panel.old key samples.now answer.new panel.new }
{
    zhaqsumir::zhaqsumir_ch450_play(panel, key, samples, answer);
}

// The segments that a CH450 panel lights: number, place, six bytes.
#[unsafe(no_mangle)]
pub extern "C" fn zhaqsumir_ch450_lit(panel: &[u64; 14], answer: &mut [u64; 8])
    ensures { answer.new ≡ T.ch450_lit panel.now }
{
    zhaqsumir::zhaqsumir_ch450_lit(panel, answer);
}

// Starts a CH452 panel of n chips in the 202 numbers lent: number, place.
#[unsafe(no_mangle)]
pub extern "C" fn zhaqsumir_start(n: usize, panel: &mut [u64; 202], answer: &mut [u64; 2])
    ensures { P.StartsNumbers n panel.old answer.new panel.new }
{
    zhaqsumir::zhaqsumir_start(n, panel, answer);
}

// Plays a block of samples into the panel that is lent, and changes it in place; the places of its LOAD rises go to the list: number,
// place, how many rises.
#[unsafe(no_mangle)]
pub extern "C" fn zhaqsumir_block(
    panel: &mut Panel,
    samples: &[u8],
    rises: &mut [u64],
    answer: &mut [u64; 3],
)
    ensures { P.BlocksNumbers panel.old.numbers samples.now rises.old answer.new panel.new.numbers rises.new }
{
    zhaqsumir::zhaqsumir_block(panel, samples, rises, answer);
}

// Scans a chip of the panel that is lent as numbers, with the contacts closed: number, place, what was recorded, its code.
#[unsafe(no_mangle)]
pub extern "C" fn zhaqsumir_scan(
    panel: &mut [u64; 202],
    chip: usize,
    contacts: &[u8; 8],
    answer: &mut [u64; 4],
)
    ensures { P.ScansNumbers panel.old chip contacts.now answer.new panel.new }
{
    zhaqsumir::zhaqsumir_scan(panel, chip, contacts, answer);
}

// The segments that a chip of a panel lights: number, place, eight bytes.
#[unsafe(no_mangle)]
pub extern "C" fn zhaqsumir_lit(panel: &[u64; 202], chip: usize, answer: &mut [u64; 10])
    ensures { answer.new ≡ P.lit_numbers panel.now chip }
{
    zhaqsumir::zhaqsumir_lit(panel, chip, answer);
}

// What the host sees of a panel: number, place, the level of the last chip's DOUT.
#[unsafe(no_mangle)]
pub extern "C" fn zhaqsumir_sees(panel: &[u64; 202], answer: &mut [u64; 3])
    ensures { answer.new ≡ P.sees_numbers panel.now }
{
    zhaqsumir::zhaqsumir_sees(panel, answer);
}

// Reads a settings text: number, place, and the settings as 73 numbers.
#[unsafe(no_mangle)]
pub extern "C" fn zhaqsumir_settings_read(text: &[u8], answer: &mut [u64; 75])
    ensures { answer.new ≡ S.read_numbers text.now }
{
    zhaqsumir::kiosks::zhaqsumir_settings_read(text, answer);
}

// Writes settings, given as 73 numbers, as text: number, place, how many bytes.
#[unsafe(no_mangle)]
pub extern "C" fn zhaqsumir_settings_write(
    settings: &[u64; 73],
    out: &mut [u8],
    answer: &mut [u64; 3],
)
    ensures { S.WritesSettings settings.now out.old answer.new out.new }
{
    zhaqsumir::kiosks::zhaqsumir_settings_write(settings, out, answer);
}

// Turns settings, given as 73 numbers, into the words of four rows: number, place, how many words.
#[unsafe(no_mangle)]
pub extern "C" fn zhaqsumir_settings_rows(
    settings: &[u64; 73],
    words: &mut [u16; 32],
    answer: &mut [u64; 3],
)
    ensures { S.FillsWords settings.now words.old answer.new words.new }
{
    zhaqsumir::kiosks::zhaqsumir_settings_rows(settings, words, answer);
}
