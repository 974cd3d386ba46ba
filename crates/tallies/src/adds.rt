// What a LOAD rise and a scan add to a tally. A caller has made sure that every count has room for one more.
ghost use Rattle.std.specs.Prelude.{◌≡◌, true, ◌+◌, ◌≤◌, ◌<◌};
ghost use Rattle.chain.specs.Chain.{most};
ghost use Rattle.chain.specs.Events.{obeyed};
ghost use Rattle.chip.specs.History.{told};
ghost use Rattle.chip.specs.Scans.{recording_of};
ghost use Rattle.word.specs.Words.{decoded_of};
ghost use Rattle.tallies.specs.Counts as C;
ghost use Rattle.base.specs.Below.{every};
ghost use Rattle.tallies.specs.Parts as P;
ghost use Rattle.tallies.specs.Tallies as T;

use crate::{Counts, Tally};
use chain::Chain;
use chip::{Chip, Recorded};
use word::Command;

// Four counts.
fn four(recorded: u64, read: u64, overwritten: u64, cleared: u64) -> Counts
    ensures { result ≡ C.counts recorded read overwritten cleared }
{
    Counts {
        recorded,
        read,
        overwritten,
        cleared,
    }
}

// No counts.
fn none() -> Counts
    ensures { result ≡ C.no_counts }
{
    four(0, 0, 0, 0)
}

// What a command counts, by KEYB and the interrupt before it.
fn of_command(command: Command, keyb: bool, stands: bool) -> Counts
    ensures { result ≡ C.command_counts command keyb stands }
{
    let one = u64::from(stands);
    match command {
        Command::Reset => four(0, 0, 0, one),
        Command::SystemParameters(s) if !s.keyb => four(0, 0, 0, one),
        Command::ReadKey if keyb => four(0, one, 0, 0),
        _ => none(),
    }
}

// What a scan counts, by what it recorded.
fn of_record(what: Recorded) -> Counts
    ensures { result ≡ C.record_counts (recording_of what) }
{
    match what {
        Recorded::Key(_) => four(1, 0, 0, 0),
        Recorded::OverUnread(_) => four(1, 0, 1, 0),
        Recorded::Nothing | Recorded::Released => none(),
    }
}

// Counts that go on from others.
fn plus(a: Counts, b: Counts) -> Counts
    requires a_value { T.have_room 1 a ≡ true }
    requires at_most_one { P.AtMostOne b }
    ensures { result ≡ C.plus a b }
{
    Counts {
        recorded: a.recorded + b.recorded,
        read: a.read + b.read,
        overwritten: a.overwritten + b.overwritten,
        cleared: a.cleared + b.cleared,
    }
}

// A chip at a LOAD rise: its counts, the chip before it, and the word that it obeys.
fn obeys(c: Counts, before: Chip, word: u16) -> Counts
    requires { T.have_room 1 c ≡ true }
    ensures { result ≡ C.plus c (C.step_counts (told (obeyed (decoded_of word))) before) }
{
    let keyb = before.settings.system.keyb;
    let stands = before.keys.interrupt;
    match word::decode(word) {
        Ok(command) => plus(c, of_command(command, keyb, stands)),
        Err(_) => c,
    }
}

// Every chip below N at a LOAD rise: the chips before the samples that end with it, and after them.
pub(crate) fn rise(n: usize, before: Chain, after: Chain, tally: Tally) -> Tally
    requires n_le_most { n ≤ most }
    requires tally_value { T.fits 1 tally ≡ true }
    ensures { result ≡ P.risen n before after tally }
{
    let mut chips = tally.chips;
    for k in 0..n {
        chips[k] = obeys(chips[k], before.chips[k], after.chips[k].line.register);
    }
    Tally { chips, ..tally }
}

// One more for a code; one above 127 has no tally.
fn one_more(codes: [u64; 128], code: u8) -> [u64; 128]
    requires { every (T.has_room 1) codes ≡ true }
    ensures { result ≡ P.one_more code codes }
{
    let mut next = codes;
    let at = code as usize;
    if at < next.len() {
        next[at] += 1;
    }
    next
}

// The tallies of the codes after a scan, by what it recorded.
fn codes_after(codes: [u64; 128], what: Recorded) -> [u64; 128]
    requires { every (T.has_room 1) codes ≡ true }
    ensures { result ≡ P.codes_after (recording_of what) codes }
{
    match what {
        Recorded::Key(code) | Recorded::OverUnread(code) => one_more(codes, code),
        Recorded::Nothing | Recorded::Released => codes,
    }
}

// A scan of a chip, by what it recorded.
pub(crate) fn scan(tally: Tally, k: usize, what: Recorded) -> Tally
    requires k_lt_most { k < most }
    requires tally_value { T.fits 1 tally ≡ true }
    ensures { result ≡ P.scanned_tally k (recording_of what) tally }
{
    let mut chips = tally.chips;
    chips[k] = plus(chips[k], of_record(what));
    Tally {
        chips,
        codes: codes_after(tally.codes, what),
        largest: tally.largest,
    }
}
