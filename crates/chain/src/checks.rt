// What every entry tests first: the number of chips, the records, the samples.
ghost use Rattle.std.specs.Prelude.{◌≡◌};
ghost use Rattle.base.specs.Refusals.{tells};
ghost use Rattle.chain.specs.Chain as C;

use crate::Chain;
use base::Refusal;

// Refusal 3's test: N is 1 to 8.
pub fn is_count(n: usize) -> bool
    ensures { result ≡ C.chip_count n }
{
    1 <= n && n <= crate::MOST
}

// Refusal 12's test: every record below N is valid, and the levels are at most 7.
fn is_valid(n: usize, chain: Chain) -> bool
    ensures { result ≡ C.valid_chain n chain }
{
    chain.chips.iter().take(n).all(|c| chip::is_valid(*c)) && chain.levels <= 7
}

// Refusal 1's test: the lowest place of a sample above 7.
#[tactic(auto, unfolding(crate::specs::Chain::checked_from))]
pub fn checked(samples: &[u8]) -> Result<(), Refusal>
    ensures { tells result ≡ C.checked_from 0 samples.now }
{
    base::checked(samples, 7)
}

// The tests that come first in every entry that is given a chain: refusals 3, 12.
pub(crate) fn tested(n: usize, chain: Chain) -> Result<(), Refusal>
    ensures { tells result ≡ C.tested_of n chain }
{
    if !is_count(n) {
        return Err(Refusal::ChipCount);
    }
    if !is_valid(n, chain) {
        return Err(Refusal::Record);
    }
    Ok(())
}

// The tests of an entry that names a chip: refusals 3, 12, 2.
pub(crate) fn tested_at(n: usize, chain: Chain, k: usize) -> Result<(), Refusal>
    ensures { tells result ≡ C.tested_at n chain k }
{
    tested(n, chain)?;
    if k >= n {
        return Err(Refusal::ScanChip);
    }
    Ok(())
}

// The tests of an entry that plays samples: refusals 3, 12, 1.
pub(crate) fn tested_with(n: usize, chain: Chain, samples: &[u8]) -> Result<(), Refusal>
    ensures { tells result ≡ C.tested_with n chain samples.now }
{
    tested(n, chain)?;
    checked(samples)
}
