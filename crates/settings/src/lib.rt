// Kiosk settings: the settings of a panel's chips as lines of hexadecimal, read and written, and turned into rows for the writer. The
// entries are `read`, `write` and `rows`; and `again` and `setup`, which take a text and write into a lent array that always suffices
// what a program prints: the text written again, and the capture text that sets a panel to it.
#![tactic(auto)]

mod frames;
mod printed;
mod puts;
mod walk;

ghost use Rattle.std.specs.Prelude.{◌≡◌};
ghost use Rattle.base.specs.Refusals.{handed};
ghost use Rattle.base.specs.Lent.{Counts};
ghost use Rattle.settings.specs.Printing as P;
ghost use Rattle.settings.specs.Putting as W;
ghost use Rattle.settings.specs.Reading as R;

use base::{Handed, Refusal};
use capture::Replayed;
use word::{Display, System};

// The settings of one chip that are kept: the sleeping mark isn't.
#[derive(Clone, Copy)]
pub struct Kept {
    pub system: System,
    pub display: Display,
    pub blink: u8,
    pub custom: u8,
}

// Those of a panel of n chips; those from n on are not looked at.
#[derive(Clone, Copy)]
pub struct Kiosk {
    pub n: usize,
    pub chips: [Kept; chain::MOST],
}

// A part of a chip's settings, each with its own row.
#[derive(Clone, Copy)]
pub enum Part {
    System,
    Display,
    Blink,
    Custom,
}

// The newest version of a text.
pub const NEWEST: u8 = 0x01;

// The longest text: 7 bytes, and 13 a chip.
pub const LONGEST: usize = 7 + 13 * chain::MOST;

// The words of the rows of the most chips.
pub const WORDS: usize = 4 * chain::MOST;

// The longest capture text of rows: 7 bytes, three lines a chip of 32 samples, and one of 8.
pub const SETUP_ROOM: usize = 7 + 3 * 67 * chain::MOST + 19;

// Reads a settings text: refusals 14, 15.
pub fn read(text: &[u8]) -> Handed<Kiosk, ()>
    ensures { handed result ≡ R.read_of text.now }
{
    let version = frames::version_of(text);
    if version > NEWEST {
        return walk::refused(Refusal::Version(version as u64));
    }
    walk::lines(text)
}

// Writes settings as text: refusals 3, 9, 8.
pub fn write(kiosk: Kiosk, out: &mut [u8]) -> Result<usize, Refusal>
    ensures { W.Writes kiosk out.old result out.new }
{
    puts::tested(kiosk)?;
    if out.len() < 7 + 13 * kiosk.n {
        return Err(Refusal::Room);
    }
    Ok(puts::text(kiosk, out))
}

// Turns settings into the words of four rows, system, display, blink, custom, for the writer: refusals 3, 9.
pub fn rows(kiosk: Kiosk, words: &mut [u16; WORDS]) -> Result<usize, Refusal>
    ensures { W.Fills kiosk words.old result words.new }
{
    puts::tested(kiosk)?;
    Ok(puts::words(kiosk, words))
}

// Reads a settings text and writes it again, or its refusal's line.
pub fn again(text: &[u8], out: &mut [u8; LONGEST]) -> Replayed
    ensures prints_again { P.PrintsAgain text.now out.old result out.new }
    ensures counts { Counts result.bytes out.new }
{
    printed::again(text, out)
}

// Reads a settings text and writes the capture text that sets a panel to it, or the line of its refusal or of the writer's.
pub fn setup(text: &[u8], out: &mut [u8; SETUP_ROOM]) -> Replayed
    ensures prints_setup { P.PrintsSetup text.now out.old result out.new }
    ensures counts { Counts result.bytes out.new }
{
    printed::setup(text, out)
}
