// Runs document 01's run-only cases and others of chains, blocks, the finder, the writer and full counts, and those of the CH450, and
// writes a line for each. What it must write stands in the file `stdout`, which was written from document 01, C-11, C-15 and C-17.
#![tactic(auto)]

mod blocks;
mod chains;
mod full;
mod sleeps;
mod two_wires;
mod writes;

use std::io;

fn main(rt: HostRuntime) -> io::Result<()> {
    chains::run(&rt)?;
    blocks::run(&rt)?;
    writes::run(&rt)?;
    sleeps::run(&rt)?;
    full::run(&rt)?;
    two_wires::run(&rt)
}
