// One chip of a chain: scan it, apply a command to it, see its segments lit.
ghost use Rattle.std.specs.Prelude.{◌≡◌};
ghost use Rattle.base.specs.Refusals.{handed};
ghost use Rattle.chip.specs.Entries.{handed_scan};
ghost use Rattle.chip.specs.Scans as S;
ghost use Rattle.chain.specs.Entries as E;

use crate::{Chain, checks};
use base::{Handed, Refusal};
use chip::scans::AfterScan;
use chip::{Chip, Recorded};
use word::Command;

// One chip of a chain scanned: the chain after it, the chip before it, and what the scan took.
#[derive(Clone, Copy)]
pub struct ChipScan {
    pub chain: Chain,
    pub before: Chip,
    pub taken: AfterScan,
}

// The record at a place, or a reset chip past the last.
pub fn chip_at(k: usize, chain: Chain) -> Chip
    ensures { result ≡ E.chip_at k chain }
{
    match chain.chips.get(k) {
        Some(c) => *c,
        None => chip::reset_chip(),
    }
}

// The chain with another record at a place; past the last, as it was.
fn with_chip(k: usize, c: Chip, chain: Chain) -> Chain
    ensures { result ≡ E.with_chip k c chain }
{
    let mut chips = chain.chips;
    if k < crate::MOST {
        chips[k] = c;
    }
    Chain {
        chips,
        levels: chain.levels,
    }
}

// One chip scanned: no tests, for any place, chain and bytes.
pub fn scan_chip(k: usize, bytes: [u8; 8], chain: Chain) -> ChipScan
    ensures chain_value { result.chain ≡ E.with_chip k (S.scanned bytes (E.chip_at k chain)) chain }
    ensures before_value { result.before ≡ E.chip_at k chain }
    ensures taken_value { S.leaves_of result.taken ≡ S.scan_leaves bytes (E.chip_at k chain) }
{
    let before = chip_at(k, chain);
    let taken = chip::scans::scanned(bytes, before);
    ChipScan {
        chain: with_chip(k, taken.chip, chain),
        before,
        taken,
    }
}

// Scans one chip: refusals 3, 12, 2.
pub fn scan(n: usize, chain: Chain, k: usize, bytes: [u8; 8]) -> Handed<Chain, Recorded>
    ensures { handed_scan result ≡ E.scanned_of n chain k bytes }
{
    if let Err(e) = checks::tested_at(n, chain, k) {
        return Handed {
            value: chain,
            answer: Err(e),
        };
    }
    let done = scan_chip(k, bytes, chain);
    Handed {
        value: done.chain,
        answer: Ok(done.taken.recorded),
    }
}

// Applies a command directly to one chip: refusals 3, 12, 9, 2.
pub fn apply(n: usize, chain: Chain, k: usize, command: Command) -> Handed<Chain, ()>
    ensures { handed result ≡ E.applied_of n chain k command }
{
    if let Err(e) = checks::tested(n, chain) {
        return Handed {
            value: chain,
            answer: Err(e),
        };
    }
    if !word::is_legal(command) {
        return Handed {
            value: chain,
            answer: Err(Refusal::Field(0)),
        };
    }
    if k >= n {
        return Handed {
            value: chain,
            answer: Err(Refusal::ScanChip),
        };
    }
    let after = chip::commands::applied(command, chip_at(k, chain));
    Handed {
        value: with_chip(k, after, chain),
        answer: Ok(()),
    }
}

// The segments lit of one chip: refusals 3, 12, 2.
pub fn segments_lit(n: usize, chain: Chain, k: usize) -> Handed<[u8; 8], ()>
    ensures { handed result ≡ E.segments_of n chain k }
{
    if let Err(e) = checks::tested_at(n, chain, k) {
        return Handed {
            value: [0; 8],
            answer: Err(e),
        };
    }
    Handed {
        value: chip::segments::lit(chip_at(k, chain)),
        answer: Ok(()),
    }
}
