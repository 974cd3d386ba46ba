// What bytes mean, the words of commands, and what commands do. A command's word is byte 1 · 256 + byte 2. The entry is `encode`.
ghost use Rattle.std.specs.Prelude.{◌≡◌};
ghost use Rattle.base.specs.Refusals.{tells};
ghost use Rattle.ch450.specs.Commands as C;

use crate::{Command, Panel, Settings};
use base::Refusal;

// Whether there is such a digit: DIG2 to DIG7.
fn is_digit(digit: u8) -> bool
    ensures { result ≡ C.is_digit digit }
{
    2 <= digit && digit <= 7
}

// Whether every field is in its range.
pub(crate) fn is_legal(command: Command) -> bool
    ensures { result ≡ C.legal command }
{
    match command {
        Command::Parameters(s) => s.intens <= 3,
        Command::LoadDigit { digit, byte: _ } => is_digit(digit),
        Command::ReadKey => true,
    }
}

// 48H, and SLEEP INTENS(2) 000 KEYB DISP.
#[tactic(auto, unfolding(crate::specs::Commands::encoded_of))]
fn parameters_word(s: Settings) -> Result<u16, Refusal>
    ensures { tells result ≡ C.encoded_of (Command.Parameters s) }
{
    if s.intens > 3 {
        return Err(Refusal::Field(0));
    }
    let sleep = u16::from(s.sleep) << 7;
    let intens = u16::from(s.intens) << 5;
    let keyb = u16::from(s.keyb) << 1;
    Ok(0x4800 + sleep + intens + keyb + u16::from(s.disp))
}

// 64H for DIG2 and two more for each next digit, and the data byte.
#[tactic(auto, unfolding(crate::specs::Commands::encoded_of))]
fn digit_word(digit: u8, byte: u8) -> Result<u16, Refusal>
    ensures { tells result ≡ C.encoded_of (Command.LoadDigit digit byte) }
{
    if !is_digit(digit) {
        return Err(Refusal::Field(0));
    }
    Ok(((0x60 + 2 * u16::from(digit)) << 8) + u16::from(byte))
}

// The word of a command: refusal 9.
pub fn encode(command: Command) -> Result<u16, Refusal>
    ensures { tells result ≡ C.encoded_of command }
{
    match command {
        Command::Parameters(s) => parameters_word(s),
        Command::LoadDigit { digit, byte } => digit_word(digit, byte),
        Command::ReadKey => Ok(0x4F00),
    }
}

// The parameters of a byte 2; its bits 4 to 2 are ignored.
fn settings_of(byte: u8) -> Settings
    ensures { result ≡ C.settings_of byte }
{
    let wide = u16::from(byte);
    Settings {
        sleep: base::field(wide, 7, 1) == 1,
        intens: base::field(wide, 5, 2) as u8,
        keyb: base::field(wide, 1, 1) == 1,
        disp: base::field(wide, 0, 1) == 1,
    }
}

// Whether byte 1 names a digit: 64H to 6EH, even.
pub(crate) fn is_digit_byte(byte: u8) -> bool
    ensures { result ≡ C.is_digit_byte byte }
{
    0x64 <= byte && byte <= 0x6E && byte % 2 == 0
}

// What two bytes mean.
#[tactic(auto, unfolding(crate::specs::Commands::meaning_of))]
pub fn meaning_of(first: u8, second: u8) -> Option<Command>
    ensures { result ≡ C.meaning_of first second }
{
    if first == 0x48 {
        return Some(Command::Parameters(settings_of(second)));
    }
    if is_digit_byte(first) {
        return Some(Command::LoadDigit {
            digit: base::field(u16::from(first), 1, 3) as u8,
            byte: second,
        });
    }
    if first == 0x4F {
        return Some(Command::ReadKey);
    }
    None
}

// Whether the key is read.
pub fn is_read(what: Option<Command>) -> bool
    ensures { result ≡ C.is_read what }
{
    match what {
        Some(command) => reads_key(command),
        None => false,
    }
}

// Whether a command reads the key.
fn reads_key(command: Command) -> bool
    ensures { result ≡ C.reads_key command }
{
    matches!(command, Command::ReadKey)
}

// One digit's data byte exchanged; DIG2 is the first, and there is none past DIG7.
fn with_digit(digit: u8, byte: u8, digits: [u8; 6]) -> [u8; 6]
    ensures { result ≡ C.with_digit digit byte digits }
{
    let mut ds = digits;
    if is_digit(digit) {
        ds[usize::from(digit - 2)] = byte;
    }
    ds
}

// What any obeyed command does first: the panel wakes.
fn woken(panel: Panel) -> Panel
    ensures { result ≡ C.woken panel }
{
    let mut next = panel;
    next.settings.sleep = false;
    next
}

// What a command does to a panel that is awake.
fn obey(command: Command, panel: Panel) -> Panel
    ensures { result ≡ C.obey command panel }
{
    match command {
        Command::Parameters(settings) => Panel { settings, ..panel },
        Command::LoadDigit { digit, byte } => Panel {
            digits: with_digit(digit, byte, panel.digits),
            ..panel
        },
        Command::ReadKey => panel,
    }
}

// A command applied directly, as a stop applies it.
#[tactic(auto, unfolding(crate::specs::Commands::applied))]
pub(crate) fn applied(command: Command, panel: Panel) -> Panel
    ensures { result ≡ C.applied command panel }
{
    obey(command, woken(panel))
}

// What a panel does by what two bytes mean; an unknown byte 1 has no effect at all.
pub(crate) fn obeyed(what: Option<Command>, panel: Panel) -> Panel
    ensures { result ≡ C.obeyed what panel }
{
    match what {
        Some(command) => applied(command, panel),
        None => panel,
    }
}
