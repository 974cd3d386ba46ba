// C-21's cases of refusal 16: counts near 2^64 - 1, of a chip, of a code and of a chip that the capture hasn't: one below the limit, at
// it and above it. A line of samples wants room for as many as it has, a scan for one.
use crate::chains::verdict;
use std::io;
use tallies::Tally;

pub fn run(rt: &impl Print) -> io::Result<()> {
    rt.print("chip 0 at 2^64 - 5, 3 samples: ")?;
    three_samples(rt, with_chip(u64::MAX - 4))?;
    rt.print("chip 0 at 2^64 - 4, 3 samples: ")?;
    three_samples(rt, with_chip(u64::MAX - 3))?;
    rt.print("chip 0 at 2^64 - 3, 3 samples: ")?;
    three_samples(rt, with_chip(u64::MAX - 2))?;
    rt.print("code 63 at 2^64 - 5, 3 samples: ")?;
    three_samples(rt, with_code(u64::MAX - 4))?;
    rt.print("code 63 at 2^64 - 4, 3 samples: ")?;
    three_samples(rt, with_code(u64::MAX - 3))?;
    rt.print("code 63 at 2^64 - 3, 3 samples: ")?;
    three_samples(rt, with_code(u64::MAX - 2))?;
    rt.print("chip 7 of 1 at 2^64 - 3, a scan: ")?;
    one_scan(rt, with_other_chip(u64::MAX - 2))?;
    rt.print("chip 7 of 1 at 2^64 - 2, a scan: ")?;
    one_scan(rt, with_other_chip(u64::MAX - 1))?;
    rt.print("chip 7 of 1 at 2^64 - 1, a scan: ")?;
    one_scan(rt, with_other_chip(u64::MAX))?;
    rt.print("chip 0 at 2^64 - 1, a line of no form: ")?;
    counted(rt, with_chip(u64::MAX), b"000101\n03\n")?;
    rt.print("chip 0 at 2^64 - 1, the first line alone: ")?;
    counted(rt, with_chip(u64::MAX), b"000101\n")?;
    rt.print("a tally of 9 chips: ")?;
    counted(rt, with_largest(9), b"000101\n")
}

// A tally with one count of chip 0.
fn with_chip(count: u64) -> Tally {
    let mut tally = tallies::fresh();
    tally.chips[0].recorded = count;
    tally
}

// A tally of one code.
fn with_code(count: u64) -> Tally {
    let mut tally = tallies::fresh();
    tally.codes[0x63] = count;
    tally
}

// A tally with one count of a chip that a capture of one chip hasn't.
fn with_other_chip(count: u64) -> Tally {
    let mut tally = tallies::fresh();
    tally.chips[7].cleared = count;
    tally
}

// A tally of captures of so many chips.
fn with_largest(n: usize) -> Tally {
    let mut tally = tallies::fresh();
    tally.largest = n;
    tally
}

fn three_samples(rt: &impl Print, tally: Tally) -> io::Result<()> {
    counted(rt, tally, b"000101\n01070707\n")
}

fn one_scan(rt: &impl Print, tally: Tally) -> io::Result<()> {
    counted(rt, tally, b"000101\n02000000000000000000\n")
}

// Whether the text was taken, or what refused it.
fn counted(rt: &impl Print, tally: Tally, text: &[u8]) -> io::Result<()> {
    let r = tallies::count(tally, text);
    verdict(rt, r.answer)?;
    rt.println("")
}
