// Reads a settings text from standard input and writes it again, or told `rows` the capture text that sets a panel to it. All the work is
// in the library `settings`. The first bytes of a text, one more than the longest has, say all of it (`settings` proofs/Beginnings).
#![tactic(auto)]

use std::env::{Env, FillError};
use std::io::Read;
use std::{io, mem};

// One byte more than the longest text.
const ROOM: usize = settings::LONGEST + 1;

// The text written again.
fn again(rt: HostRuntime, text: &[u8]) -> io::Result<()> {
    let mut out = [0u8; settings::LONGEST];
    let r = settings::again(text, &mut out);
    rt.write_all(&out[..r.bytes])
}

// The capture text.
fn rows(rt: HostRuntime, text: &[u8]) -> io::Result<()> {
    let mut out = [0u8; settings::SETUP_ROOM];
    let r = settings::setup(text, &mut out);
    rt.write_all(&out[..r.bytes])
}

// What the program writes.
#[derive(Clone, Copy)]
enum Form {
    Text,
    Rows,
}

// What the program is told to write, where it is told that.
fn told(rt: HostRuntime) -> Option<Form> {
    let mut word = [0u8; 4];
    match (rt.arg(1, &mut word), rt.arg(2, &mut [])) {
        (Err(FillError::NotPresent), _) => Some(Form::Text),
        (Ok(_), Err(FillError::NotPresent)) if word == *b"rows" => Some(Form::Rows),
        _ => None,
    }
}

// Reads the settings text and writes it in this form.
fn turn(rt: HostRuntime, form: Form) -> io::Result<()> {
    let mut text = [0u8; ROOM];
    let mut rest = &mut text[..];
    // straight into the text, as the programs do that read a longer one
    for _ in 0..ROOM {
        // a read that fails counts as the end
        let count = rt.stdin().read(rest).unwrap_or(0);
        if count == 0 {
            break;
        }
        rest = &mut mem::take(&mut rest)[count..];
    }
    let got = ROOM.saturating_sub(rest.len());
    match form {
        Form::Text => again(rt, &text[..got]),
        Form::Rows => rows(rt, &text[..got]),
    }
}

fn main(rt: HostRuntime) -> io::Result<()> {
    match told(rt) {
        Some(form) => turn(rt, form),
        None => rt.eprintln("usage: settext [rows]"),
    }
}
