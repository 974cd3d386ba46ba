// CH452 panels as numbers, and what the functions for a panel answer. A panel is 202 numbers: N, the levels last played, then 25 for
// each of eight chips. A start sets all; the other functions neither look at nor change those of chips from N on.
ghost use Rattle.std.specs.Prelude.{◌≡◌};
ghost use Rattle.base.specs.Refusals.{tells, handed};
ghost use Rattle.chip.specs.Entries.{scan_tells};
ghost use Rattle.chip.specs.Scans.{recording_of};
ghost use Rattle.zhaqsumir.specs.Numbers as N;
ghost use Rattle.zhaqsumir.specs.Panels as P;
ghost use Rattle.zhaqsumir.specs.TwoWires.{lit_by};

use crate::chains::{chain_of, put_all, tested};
use crate::chips;
use base::Handed;
use chain::Chain;
use chip::Recorded;

// How many numbers a chip is.
pub(crate) const CHIP: usize = 25;

// How many numbers a panel is.
pub(crate) const PANEL: usize = 2 + CHIP * chain::MOST;

// A panel, as `zhaqsumir_block` is lent one.
#[repr(C)]
#[derive(Clone, Copy)]
pub struct Panel {
    pub numbers: [u64; PANEL],
}

// Starts a panel of n chips.
pub(crate) fn start(n: usize, numbers: &mut [u64; PANEL]) -> [u64; 2]
    ensures { P.StartsNumbers n numbers.old result numbers.new }
{
    let started = chain::start(n);
    match started.answer {
        Ok(()) => {
            put_all(numbers, n, chain::MOST, started.value);
            [0, 0]
        }
        Err(e) => [base::number(e), base::place(e)],
    }
}

// A block that was played, or refused; the numbers lent are those of the panel before it.
fn after_block(numbers: &mut [u64; PANEL], n: usize, after: Handed<Chain, usize>) -> [u64; 3]
    ensures value { result ≡ N.alone (tells after.answer) }
    ensures numbers_after { numbers.new ≡ P.panel_by (tells after.answer) (P.chain_numbers n n after.value) numbers.old }
{
    let Handed { value, answer } = after;
    if answer.is_ok() {
        put_all(numbers, n, n, value);
    }
    crate::alone(answer)
}

// Plays a block of samples into the panel that numbers stand for; the places of its LOAD rises go to the list.
pub(crate) fn block(panel: Panel, samples: &[u8], rises: &mut [u64], answer: &mut [u64; 3]) -> Panel
    ensures { P.BlocksNumbers panel.numbers samples.now rises.old answer.new result.numbers rises.new }
{
    let mut numbers = panel.numbers;
    let test = tested(&numbers);
    match test {
        Err(e) => {
            *answer = [base::number(e), base::place(e), 0];
            Panel { numbers }
        }
        Ok(()) => {
            let n = numbers[0] as usize;
            let after = chain::blocks::block(n, chain_of(&numbers), samples, rises);
            *answer = after_block(&mut numbers, n, after);
            Panel { numbers }
        }
    }
}

// What a scan recorded: 0 nothing, 1 a key's code, 2 a code over an unread one, 3 release noted.
fn what(recorded: Recorded) -> u64
    ensures { result ≡ P.what_of (recording_of recorded) }
{
    match recorded {
        Recorded::Nothing => 0,
        Recorded::Key(_) => 1,
        Recorded::OverUnread(_) => 2,
        Recorded::Released => 3,
    }
}

// The code recorded, or 0.
fn code(recorded: Recorded) -> u64
    ensures { result ≡ P.code_in (recording_of recorded) }
{
    match recorded {
        Recorded::Key(code) | Recorded::OverUnread(code) => u64::from(code),
        Recorded::Nothing | Recorded::Released => 0,
    }
}

// A scan that was taken, or refused; the numbers lent are those of the panel before it.
fn after_scan(numbers: &mut [u64; PANEL], n: usize, scanned: Handed<Chain, Recorded>) -> [u64; 4]
    ensures value { result ≡ P.scan_by (scan_tells scanned.answer) }
    ensures numbers_after { numbers.new ≡ P.panel_by (scan_tells scanned.answer) (P.chain_numbers n n scanned.value) numbers.old }
{
    match scanned.answer {
        Ok(recorded) => {
            put_all(numbers, n, n, scanned.value);
            [0, 0, what(recorded), code(recorded)]
        }
        Err(e) => [base::number(e), base::place(e), 0, 0],
    }
}

// Scans chip k of the panel that numbers stand for.
pub(crate) fn scan(numbers: &mut [u64; PANEL], k: usize, contacts: [u8; 8]) -> [u64; 4]
    ensures { P.ScansNumbers numbers.old k contacts result numbers.new }
{
    let test = tested(numbers);
    match test {
        Err(e) => [base::number(e), base::place(e), 0, 0],
        Ok(()) => {
            let n = numbers[0] as usize;
            let scanned = chain::one::scan(n, chain_of(numbers), k, contacts);
            after_scan(numbers, n, scanned)
        }
    }
}

// The segments lit.
fn segments(lit: Handed<[u8; 8], ()>) -> [u64; 10]
    ensures { result ≡ lit_by (handed lit) }
{
    let mut numbers = [0; 10];
    numbers[..2].copy_from_slice(&crate::verdict(lit.answer));
    numbers[2..].copy_from_slice(&chips::wide(lit.value));
    numbers
}

// The segments lit of chip k of the panel that numbers stand for.
pub(crate) fn lit(numbers: &[u64; PANEL], k: usize) -> [u64; 10]
    ensures { result ≡ P.lit_numbers numbers.now k }
{
    let test = tested(numbers);
    match test {
        Err(e) => [base::number(e), base::place(e), 0, 0, 0, 0, 0, 0, 0, 0],
        Ok(()) => {
            let n = numbers[0] as usize;
            segments(chain::one::segments_lit(n, chain_of(numbers), k))
        }
    }
}

// The level of a DOUT.
fn level(seen: Handed<bool, ()>) -> [u64; 3]
    ensures { result ≡ P.sees_by (handed seen) }
{
    let [number, place] = crate::verdict(seen.answer);
    [number, place, u64::from(seen.value)]
}

// What the host sees of the panel that numbers stand for.
pub(crate) fn sees(numbers: &[u64; PANEL]) -> [u64; 3]
    ensures { result ≡ P.sees_numbers numbers.now }
{
    let test = tested(numbers);
    match test {
        Err(e) => [base::number(e), base::place(e), 0],
        Ok(()) => {
            let n = numbers[0] as usize;
            level(chain::host_sees(n, chain_of(numbers)))
        }
    }
}
