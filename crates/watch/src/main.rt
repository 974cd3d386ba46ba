// Watches a stream of any length: standard input to standard output, in the lines of `replay`, or told `screen` in those of `screen`. What a
// read brought is written before the next is waited for. All the work is in the library `streams`.
#![tactic(auto)]

use capture::Report;
use std::env::{Env, FillError};
use std::io;
use std::io::Read;
use streams::Kind;

// Whether the stream goes on.
fn is_open(kind: Kind) -> bool {
    match kind {
        Kind::Over => false,
        _ => true,
    }
}

// Reads again and again, and writes what each read brought, and at last what the end brings. A read that fails counts as the end. A proved
// loop has to end, and nothing says that a stream does: so the loop counts its turns, up to a number that no run uses up.
fn watch(rt: HostRuntime, what: Report) -> io::Result<()> {
    let mut bytes = [0u8; 4096];
    let mut out = [0u8; streams::ROOM];
    let mut stream = streams::start();
    let mut input = rt.stdin();
    for _ in 0..u64::MAX {
        let count = input.read(&mut bytes).unwrap_or(0);
        if count == 0 {
            let last = streams::finish(stream, &mut out);
            return rt.write_all(&out[..last]);
        }
        let fed = streams::feed(what, stream, &bytes[..count], &mut out);
        rt.write_all(&out[..fed.bytes])?;
        stream = fed.stream;
        if !is_open(stream.kind) {
            break;
        }
    }
    Ok(())
}

// What the program is told to write, where it is told that.
fn told(rt: HostRuntime) -> Option<Report> {
    let mut word = [0u8; 6];
    match (rt.arg(1, &mut word), rt.arg(2, &mut [])) {
        (Err(FillError::NotPresent), _) => Some(Report::Words),
        (Ok(_), Err(FillError::NotPresent)) if word == *b"screen" => Some(Report::Screen),
        _ => None,
    }
}

fn main(rt: HostRuntime) -> io::Result<()> {
    match told(rt) {
        Some(what) => watch(rt, what),
        None => rt.eprintln("usage: watch [screen]"),
    }
}
