// Replays a text of two wires: standard input to standard output. All the work is in the library `wires`.
#![tactic(auto)]

use std::io::Read;
use std::{io, mem};

// One byte more than the longest text.
const ROOM: usize = 65537;

fn main(rt: HostRuntime) -> io::Result<()> {
    let mut text = [0u8; ROOM];
    let mut out = [0u8; wires::ROOM];
    let mut rest = &mut text[..];
    // straight into the text: `io::copy` has 8,192 bytes of its own, and would lose what a longer message has beyond these
    for _ in 0..ROOM {
        // a read that fails counts as the end
        let count = rt.stdin().read(rest).unwrap_or(0);
        if count == 0 {
            break;
        }
        rest = &mut mem::take(&mut rest)[count..];
    }
    let got = ROOM.saturating_sub(rest.len());
    let r = wires::replay(&text[..got], &mut out);
    rt.write_all(&out[..r.bytes])
}
