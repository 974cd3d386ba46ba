// The counts of a tally's chips as numbers: four for each chip, as the tally has them.
ghost use Rattle.std.specs.Prelude.{◌≡◌, [], ◌∷◌};
ghost use Rattle.zhaqsumir.specs.Numbers as N;

use std::array;
use tallies::Counts;

// The counts that numbers stand for.
pub(crate) fn chips_from(numbers: &[u64; 32]) -> [Counts; 8]
    ensures { result ≡ N.chips_in numbers.now }
{
    array::from_fn(|k| Counts {
        recorded: numbers[4 * k],
        read: numbers[4 * k + 1],
        overwritten: numbers[4 * k + 2],
        cleared: numbers[4 * k + 3],
    })
}

// The four numbers of a chip's counts.
fn four(c: Counts) -> [u64; 4]
    ensures { result ≡ N.chip_numbers (c ∷ []) }
{
    [c.recorded, c.read, c.overwritten, c.cleared]
}

// The numbers of the counts.
pub(crate) fn numbers_of(chips: [Counts; 8]) -> [u64; 32]
    ensures { result ≡ N.chip_numbers chips }
{
    let mut numbers = [0; 32];
    numbers.copy_from_slice(chips.map(four).as_flattened());
    numbers
}
