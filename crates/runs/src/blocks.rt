// C-11's blocks: the places of LOAD rises in a lent list, a record that goes on from block to block, and its refusals.
use crate::chains::refused;
use base::Handed;
use chain::Chain;
use std::io;

pub fn run(rt: &impl Print) -> io::Result<()> {
    let first = chain::start(1);
    let idle = first.value;
    rt.print("block 3, 7, a list of 1: ")?;
    one(rt, 1, idle, b"\x03\x07")?;
    rt.print("block 3, 7, a list of 0: ")?;
    none(rt, 1, idle, b"\x03\x07")?;
    rt.print("block 3, 8, a list of 0: ")?;
    none(rt, 1, idle, b"\x03\x08")?;
    rt.print("block 3, 7, 3, 7, 3: ")?;
    let low = three(rt, 1, idle, b"\x03\x07\x03\x07\x03")?;
    rt.print("an empty block after it: ")?;
    let still = none(rt, 1, low, b"")?;
    rt.print("block 7, 3, 7 after the empty block: ")?;
    three(rt, 1, still, b"\x07\x03\x07")?;
    rt.print("block 7, 3, 7 after the empty block, a list of 1: ")?;
    one(rt, 1, still, b"\x07\x03\x07")?;
    rt.print("an empty block for 9 chips: ")?;
    three(rt, 9, idle, b"")?;
    let mut wrong = idle;
    wrong.levels = 8;
    rt.print("an empty block from levels 8: ")?;
    three(rt, 1, wrong, b"")?;
    Ok(())
}

// Plays a block with a list of three places, each 99 before it; writes the answer, the list and the levels kept.
fn three(rt: &impl Print, n: usize, before: Chain, samples: &[u8]) -> io::Result<Chain> {
    let mut list = [99; 3];
    let after = chain::blocks::block(n, before, samples, &mut list);
    rises(rt, after)?;
    place(rt, list[0])?;
    place(rt, list[1])?;
    place(rt, list[2])?;
    kept(rt, after)
}

// The same with a list of one place.
fn one(rt: &impl Print, n: usize, before: Chain, samples: &[u8]) -> io::Result<Chain> {
    let mut list = [99; 1];
    let after = chain::blocks::block(n, before, samples, &mut list);
    rises(rt, after)?;
    place(rt, list[0])?;
    kept(rt, after)
}

// The same with a list that has no room.
fn none(rt: &impl Print, n: usize, before: Chain, samples: &[u8]) -> io::Result<Chain> {
    let mut list = [99; 0];
    let after = chain::blocks::block(n, before, samples, &mut list);
    rises(rt, after)?;
    kept(rt, after)
}

// A number of the list.
fn place(rt: &impl Print, n: u64) -> io::Result<()> {
    print!(rt; ", {n}")
}

// The levels kept, and the record.
fn kept(rt: &impl Print, after: Handed<Chain, usize>) -> io::Result<Chain> {
    let next = after.value;
    println!(rt; ", levels {:02x}", next.levels)?;
    Ok(next)
}

// How many rises there were, or why the block was refused.
fn rises(rt: &impl Print, after: Handed<Chain, usize>) -> io::Result<()> {
    match after.answer {
        Ok(count) => print!(rt; "{count} in the list"),
        Err(e) => refused(rt, e),
    }
}
