// Refusal 16's test: whether every count of a tally has room for a line's samples and scans.
ghost use Rattle.std.specs.Prelude.{◌≡◌};
ghost use Rattle.std.specs.List.{list_all};
ghost use Rattle.tallies.specs.Parts as P;
ghost use Rattle.tallies.specs.Tallies as T;

use crate::{Counts, Tally};

// Whether no count of a chip is above a number.
fn chip_within(c: Counts, top: u64) -> bool
    ensures { result ≡ P.within top c }
{
    c.recorded <= top && c.read <= top && c.overwritten <= top && c.cleared <= top
}

// Whether no chip has such a count.
fn chips_within(chips: [Counts; chain::MOST], top: u64) -> bool
    ensures { result ≡ list_all (P.within top) chips }
{
    chips.iter().all(|c| chip_within(*c, top))
}

// Whether no code's tally is above a number.
fn codes_within(codes: [u64; 128], top: u64) -> bool
    ensures { result ≡ list_all (P.at_most top) codes }
{
    codes.iter().all(|count| *count <= top)
}

// Whether every count has room for so many more.
pub(crate) fn fits(tally: Tally, many: u64) -> bool
    ensures { result ≡ T.fits many tally }
{
    let top = u64::MAX - many;
    chips_within(tally.chips, top) && codes_within(tally.codes, top)
}
