// Runs the worked examples of the maker's sheets for the CH452 and the CH450, and writes a line for each. What it must write stands in
// the file `stdout`, which was written from the sheets and from document 01.
#![tactic(auto)]

mod chips;
mod two_wires;
mod words;

use std::io;

fn main(rt: HostRuntime) -> io::Result<()> {
    words::run(&rt)?;
    chips::run(&rt)?;
    two_wires::run(&rt)
}
