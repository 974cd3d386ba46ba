// The finder of the next LOAD rise.
ghost use Rattle.std.specs.Prelude.{◌≡◌};
ghost use Rattle.chain.specs.Finder as F;

use base::Refusal;

// What the finder reports: the rise and how many samples it passed. Refused, both are there too (specs/Finder `handed_found`).
#[derive(Clone, Copy)]
pub struct Found {
    pub rise: Option<usize>,
    pub passed: usize,
    pub answer: Result<(), Refusal>,
}

// The rise, and the samples counted on the way to it.
#[derive(Clone, Copy)]
struct Way {
    rise: Option<usize>,
    passed: usize,
}

// Looks for the next LOAD rise and stops at it.
fn looked(levels: u8, samples: &[u8]) -> Way
    ensures { F.report_of result ≡ F.looked_of levels samples.now }
{
    let mut was = levels;
    let mut passed = 0;
    let rise = loop {
        let Some(&s) = samples.get(passed) else {
            break None;
        };
        passed += 1;
        if chip::edges::load_rises(was, s) {
            break Some(passed - 1);
        }
        was = s;
    };
    Way { rise, passed }
}

// The next LOAD rise of a block, given the levels before it: refusals 12, 1. Refused: no rise and 0 passed.
pub fn next_rise(levels: u8, samples: &[u8]) -> Found
    ensures { F.handed_found result ≡ F.found_of levels samples.now }
{
    if levels > 7 {
        return Found {
            rise: None,
            passed: 0,
            answer: Err(Refusal::Record),
        };
    }
    if let Err(e) = crate::checks::checked(samples) {
        return Found {
            rise: None,
            passed: 0,
            answer: Err(e),
        };
    }
    let Way { rise, passed } = looked(levels, samples);
    Found {
        rise,
        passed,
        answer: Ok(()),
    }
}
