// No sleep with the lights on (document 02, C-17): what a command says of its chip's display and keypad, and whether a command is a
// sleep word at a place of a list where these weren't switched off before. Nothing here is public.
ghost use Rattle.std.specs.Prelude.{◌≡◌, ◌<◌, length};
ghost use Rattle.word.specs.Words.{decoded_of};
ghost use Rattle.writer.specs.Lights as L;

use word::Command;

// What a command says of its chip's display and keypad.
#[derive(Clone, Copy)]
pub(crate) enum Lights {
    // Both off: a reset, or system parameters with KEYB 0 and DISP 0.
    Off,
    // Not both off: any other system parameters.
    On,
    // Nothing, but the chip is put to sleep.
    Asleep,
    // Nothing, by any other command.
    Unsaid,
}

// What system parameters with this KEYB and this DISP say.
fn lights_by_bits(keyb: bool, disp: bool) -> Lights
    ensures { L.said_in result ≡ L.said_by_bits keyb disp }
{
    if keyb || disp {
        Lights::On
    } else {
        Lights::Off
    }
}

// What a command says.
fn lights_by_command(command: Command) -> Lights
    ensures { L.said_in result ≡ L.said_by_command command }
{
    match command {
        Command::Reset => Lights::Off,
        Command::Sleep => Lights::Asleep,
        Command::SystemParameters(s) => lights_by_bits(s.keyb, s.disp),
        _ => Lights::Unsaid,
    }
}

// What a word says; an unlisted one says nothing.
fn lights_by_word(w: u16) -> Lights
    ensures { L.said_in result ≡ L.said_by_meaning (decoded_of w) }
{
    let Ok(command) = word::decode(w) else {
        return Lights::Unsaid;
    };
    lights_by_command(command)
}

// Whether a sleep word may stand at a place: the words of the same chip in the rows before it, the nearest first, are looked through for
// one that says off or on.
fn may_sleep(n: usize, words: &[u16], place: usize) -> bool
    requires n_nonzero { 0 < n }
    requires place_in_bounds { place < length words.now }
    ensures { result ≡ L.may_sleep n words.now place }
{
    let chip = place % n;
    for row in (0..place / n).rev() {
        match lights_by_word(words[row * n + chip]) {
            Lights::Off => {
                return true;
            }
            Lights::On => {
                return false;
            }
            Lights::Asleep | Lights::Unsaid => {}
        }
    }
    false
}

// Whether a command at a place is sleep where it may not stand.
pub(crate) fn is_lit_sleep(n: usize, words: &[u16], place: usize, command: Command) -> bool
    requires n_nonzero { 0 < n }
    requires place_in_bounds { place < length words.now }
    ensures { result ≡ L.lit_sleep (L.said_by_command command) (L.may_sleep n words.now place) }
{
    match lights_by_command(command) {
        Lights::Off => false,
        Lights::On => false,
        Lights::Asleep => !may_sleep(n, words, place),
        Lights::Unsaid => false,
    }
}
