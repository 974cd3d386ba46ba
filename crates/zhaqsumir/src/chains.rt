// A chain as the 202 numbers of a panel: what they stand for, and its numbers put. Numbers of chips from N on are neither looked at nor
// changed.
ghost use Rattle.std.specs.Prelude.{◌≡◌, ◌+◌, ◌*◌, ◌≤◌, length};
ghost use Rattle.base.specs.Below.{below};
ghost use Rattle.base.specs.Lent.{laid, placed};
ghost use Rattle.base.specs.Refusals.{tells};
ghost use Rattle.zhaqsumir.specs.Panels as P;

use crate::chips;
use crate::panels::{CHIP, PANEL};
use base::Refusal;
use chain::Chain;

// Whether each number of the first n chips is one that its field can hold.
fn are_fitting(numbers: &[u64], n: usize) -> bool
    requires { 2 + 25 * n ≤ length numbers.now }
    ensures { result ≡ below (P.chip_fits_in numbers.now) n }
{
    (0..n).all(|k| chips::is_fitting(&numbers[2 + CHIP * k..]))
}

// The tests of a panel's numbers: refusals 3, 12.
pub(crate) fn tested(numbers: &[u64; PANEL]) -> Result<(), Refusal>
    ensures { tells result ≡ P.tested_in numbers.now }
{
    let n = numbers[0] as usize;
    if !chain::checks::is_count(n) {
        return Err(Refusal::ChipCount);
    }
    if numbers[1] > 255 {
        return Err(Refusal::Record);
    }
    if !are_fitting(numbers, n) {
        return Err(Refusal::Record);
    }
    Ok(())
}

// The chain that the numbers stand for; from N on its chips are reset chips.
pub(crate) fn chain_of(numbers: &[u64; PANEL]) -> Chain
    ensures { result ≡ P.chain_of numbers.now }
{
    let n = numbers[0] as usize;
    let mut chips = [chip::reset_chip(); chain::MOST];
    let first = &mut chips[..n.min(chain::MOST)];
    for (k, chip) in first.iter_mut().enumerate() {
        *chip = chips::chip_of(&numbers[2 + CHIP * k..]);
    }
    Chain {
        chips,
        levels: chips::byte_at(numbers, 1),
    }
}

// Puts the numbers of chip k.
fn put(numbers: &mut [u64], k: usize, chip: [u64; CHIP])
    requires { 2 + 25 * k + 25 ≤ length numbers.old }
    ensures { numbers.new ≡ placed (2 + 25 * k) chip numbers.old }
{
    let from = 2 + CHIP * k;
    numbers[from..from + CHIP].copy_from_slice(&chip);
}

// Puts N, the levels and the numbers of the first records.
pub(crate) fn put_all(numbers: &mut [u64], n: usize, count: usize, chain: Chain)
    requires { 202 ≤ length numbers.old }
    ensures { numbers.new ≡ laid (P.chain_numbers n count chain) numbers.old }
{
    numbers[0] = n as u64;
    numbers[1] = u64::from(chain.levels);
    let first = &chain.chips[..count.min(chain::MOST)];
    for (k, chip) in first.iter().enumerate() {
        put(numbers, k, chips::numbers_of(*chip));
    }
}
