// Playing samples. A sample that completes no command touches the wires alone.
ghost use Rattle.std.specs.Prelude.{◌≡◌, drop};
ghost use Rattle.base.specs.Refusals.{tells, handed};
ghost use Rattle.ch450.specs.Entries as E;
ghost use Rattle.ch450.specs.Samples as S;
ghost use Rattle.ch450.specs.Stretch as T;

use crate::{Command, Panel, commands, edges};
use base::{Handed, Refusal};

// The bytes of a transfer that a stop completed.
#[derive(Clone, Copy)]
pub struct Transfer {
    pub first: u8,
    pub second: u8,
}

// Samples played up to and with a stop that completes a transfer: the panel after them, the place past the last of them, and the
// transfer's bytes.
#[derive(Clone, Copy)]
pub struct Stretch {
    pub panel: Panel,
    pub stop: usize,
    pub transfer: Option<Transfer>,
}

// All samples played, and how many times the key was read.
#[derive(Clone, Copy)]
pub(crate) struct Run {
    pub(crate) panel: Panel,
    pub(crate) reads: usize,
}

// One sample.
#[tactic(auto, unfolding(crate::specs::Samples::stepped_panel))]
pub(crate) fn stepped(panel: Panel, sample: u8) -> Panel
    ensures { result ≡ S.stepped_panel sample panel }
{
    let what = edges::told_at(panel.wires, sample);
    let wires = edges::stepped(panel.wires, sample);
    commands::obeyed(what, Panel { wires, ..panel })
}

// Plays samples from a place on, up to and with the next stop that completes a transfer, or to their end: no tests, for any panel
// and samples.
pub fn to_next_transfer(panel: Panel, samples: &[u8], from: usize) -> Stretch
    ensures { result ≡ T.stretch_from from (drop from samples.now) panel }
{
    let mut wires = panel.wires;
    for i in from..samples.len() {
        let s = samples[i];
        if edges::completes(wires, s) {
            return Stretch {
                panel: stepped(Panel { wires, ..panel }, s),
                stop: i + 1,
                transfer: Some(Transfer {
                    first: edges::first_byte(wires),
                    second: edges::second_byte(wires),
                }),
            };
        }
        wires = edges::stepped(wires, s);
    }
    Stretch {
        panel: Panel { wires, ..panel },
        stop: from.max(samples.len()),
        transfer: None,
    }
}

// 1 where a transfer read the key.
fn read_by(transfer: Option<Transfer>) -> usize
    ensures { result ≡ T.read_by transfer }
{
    let Some(Transfer { first, second }) = transfer else {
        return 0;
    };
    usize::from(commands::is_read(commands::meaning_of(first, second)))
}

// All samples, one stretch after another.
fn all_played(panel: Panel, samples: &[u8]) -> Run
    ensures { result ≡ T.run_of samples.now panel }
{
    let mut next = panel;
    let mut reads = 0;
    let mut i = 0;
    // the step is as long as a stretch, so no iterator counts it
    while i < samples.len() {
        let part = to_next_transfer(next, samples, i);
        next = part.panel;
        reads += read_by(part.transfer);
        i = part.stop;
    }
    Run { panel: next, reads }
}

// Refusal 1's test: the lowest place of a sample above 3.
#[tactic(auto, unfolding(crate::specs::Entries::checked_from))]
pub fn checked(samples: &[u8]) -> Result<(), Refusal>
    ensures { tells result ≡ E.checked_from 0 samples.now }
{
    base::checked(samples, 3)
}

// The tests that come first: refusals 12, 9.
fn tested(panel: Panel, key: u8) -> Result<(), Refusal>
    ensures { tells result ≡ E.tested_of panel key }
{
    if !crate::is_valid(panel) {
        return Err(Refusal::Record);
    }
    if key > 127 {
        return Err(Refusal::Field(0));
    }
    Ok(())
}

// The key's code, where the key is read.
fn code_read(key: u8, what: Option<Command>) -> Option<u8>
    ensures { result ≡ E.answer_to key what }
{
    commands::is_read(what).then_some(key)
}

// One sample, with the code of the key: refusals 12, 9, 1.
pub fn sample(panel: Panel, key: u8, sample: u8) -> Handed<Panel, Option<u8>>
    ensures { handed result ≡ E.sampled_of panel key sample }
{
    if let Err(e) = tested(panel, key) {
        return Handed {
            value: panel,
            answer: Err(e),
        };
    }
    if sample > 3 {
        return Handed {
            value: panel,
            answer: Err(Refusal::Sample(0)),
        };
    }
    Handed {
        value: stepped(panel, sample),
        answer: Ok(code_read(key, edges::told_at(panel.wires, sample))),
    }
}

// A block of samples, with the code of the key: refusals 12, 9, 1. All samples are tested before any is played.
pub fn play(panel: Panel, key: u8, samples: &[u8]) -> Handed<Panel, usize>
    ensures { handed result ≡ E.played_of panel key samples.now }
{
    if let Err(e) = tested(panel, key) {
        return Handed {
            value: panel,
            answer: Err(e),
        };
    }
    if let Err(e) = checked(samples) {
        return Handed {
            value: panel,
            answer: Err(e),
        };
    }
    let run = all_played(panel, samples);
    Handed {
        value: run.panel,
        answer: Ok(run.reads),
    }
}
