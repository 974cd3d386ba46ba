// A chain of N chips, N from 1 to 8: start it, play a block of samples, scan a chip, look at it, and find the next LOAD rise.
// The entries are `start`, `host_sees`, `play::play`, `blocks::block`, `one::scan`, `one::apply`, `one::segments_lit` and
// `finder::next_rise`. Each tests everything first; where it refuses, it hands back the record as it was, or zeros where it answers no
// record. Records from N on are never changed. `play::to_next_rise`, `one::chip_at`, `one::scan_chip` and those of the module `checks` are
// inner functions, which other crates call: they test no record and refuse nothing.
#![tactic(auto)]

use base::{Handed, Refusal};
use chip::{Chip, Keys, LineParts, Readout};

pub mod blocks;
pub mod checks;
pub mod finder;
pub mod one;
pub mod play;

ghost use Rattle.std.specs.Prelude.{◌≡◌};
ghost use Rattle.base.specs.Refusals.{handed};
ghost use Rattle.chain.specs.Entries as E;

// The most chips in a chain.
pub const MOST: usize = 8;

// The chips, and the levels last seen on the three wires.
#[derive(Clone, Copy)]
pub struct Chain {
    pub chips: [Chip; MOST],
    pub levels: u8,
}

// A record of zeros, for a refusal that was given none to hand back.
fn zero_chain() -> Chain
    ensures { result ≡ E.zero_chain }
{
    let zero = Chip {
        line: LineParts {
            register: 0,
            latch: false,
            readout: Readout { code: 0, left: 0 },
        },
        settings: chip::commands::reset_settings(),
        digits: [0; 8],
        keys: Keys {
            code: 0,
            interrupt: false,
            last: 0,
        },
    };
    Chain {
        chips: [zero; MOST],
        levels: 0,
    }
}

// Reset chips with zero registers and latches of 1, the wires idle: refusal 3. All places of the record are set, and N are used.
pub fn start(n: usize) -> Handed<Chain, ()>
    ensures { handed result ≡ E.started_of n }
{
    if !checks::is_count(n) {
        return Handed {
            value: zero_chain(),
            answer: Err(Refusal::ChipCount),
        };
    }
    Handed {
        value: Chain {
            chips: [chip::reset_chip(); MOST],
            levels: 7,
        },
        answer: Ok(()),
    }
}

// What the host sees at the last chip's DOUT: refusals 3, 12.
pub fn host_sees(n: usize, chain: Chain) -> Handed<bool, ()>
    ensures { handed result ≡ E.seen_of n chain }
{
    if let Err(e) = checks::tested(n, chain) {
        return Handed {
            value: false,
            answer: Err(e),
        };
    }
    Handed {
        value: chip::edges::dout(one::chip_at(n - 1, chain)),
        answer: Ok(()),
    }
}
