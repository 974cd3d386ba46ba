// Counts captures, given as files by name, one after another, and writes the lines of their tally. All the work is in the library
// `tallies`. Where a capture is refused, its place among the arguments is told on standard error, and no further one is read.
#![tactic(auto)]

ghost use Rattle.std.specs.Prelude.{◌≤◌};

use base::Handed;
use std::env::{Env, FillError};
use std::fs::{File, OpenOptions};
use std::io::{Read, Write};
use std::rt::Files;
use std::{io, mem, str};
use tallies::Tally;

// One byte more than the longest text.
const ROOM: usize = 65537;

// Opens the file of this name, which has to be UTF-8.
fn open(rt: HostRuntime, name: &[u8]) -> io::Result<File> {
    let Ok(path) = str::from_utf8(name) else {
        return Err(io::Error::from(io::ErrorKind::InvalidFilename));
    };
    rt.open_file(OpenOptions::new().read(true), path)
}

// Tells why a file can't be opened, by the system's words alone: `NAME: No such file or directory`. What can't be told is left.
fn tell(rt: HostRuntime, name: &[u8], why: io::Error) {
    let mut said = [0u8; 256];
    let mut rest = &mut said[..];
    let _ = write!(rest, "{why}");
    let end = 256usize.saturating_sub(rest.len());
    let text = str::from_utf8(&said[..end]).unwrap_or("");
    let words = match text.split_once(" (os error ") {
        Some((words, _)) => words,
        None => text,
    };
    let errors = rt.stderr();
    let _ = Print::write_all(&errors, name);
    let _ = errors.println(format_args!(": {words}"));
}

// Reads until the text is full, the file ends or a read fails, and returns how many bytes came.
fn fill(mut file: File, text: &mut [u8; ROOM]) -> usize
    ensures { result ≤ ROOM }
{
    let mut rest = &mut text[..];
    // straight into the text, as the programs do that read a text from standard input
    for _ in 0..ROOM {
        let count = file.read(rest).unwrap_or(0);
        if count == 0 {
            break;
        }
        rest = &mut mem::take(&mut rest)[count..];
    }
    ROOM.saturating_sub(rest.len())
}

// Counts the capture in the file of this name. One that can't be opened is told, and is an empty text.
fn count_file(rt: HostRuntime, name: &[u8], tally: Tally) -> Handed<Tally, ()> {
    let mut text = [0u8; ROOM];
    let got = match open(rt, name) {
        Ok(file) => fill(file, &mut text),
        Err(why) => {
            tell(rt, name, why);
            0
        }
    };
    tallies::count(tally, &text[..got])
}

// Counts one capture after another, up to the first that is refused.
fn count_files(rt: HostRuntime) -> Handed<Tally, ()> {
    let mut name = [0u8; 4096];
    let mut last = Handed {
        value: tallies::fresh(),
        answer: Ok(()),
    };
    for i in 1..usize::MAX {
        let length = match rt.arg(i, &mut name) {
            Ok(length) => length,
            Err(FillError::TooLong) => 0,
            Err(FillError::NotPresent) => break,
        };
        last = count_file(rt, &name[..length], last.value);
        if last.answer.is_err() {
            let _ = rt.stderr().println(i);
            break;
        }
    }
    last
}

fn main(rt: HostRuntime) -> io::Result<()> {
    let mut out = [0u8; tallies::ROOM];
    let counted = count_files(rt);
    let n = tallies::print(counted.value, counted.answer, &mut out);
    Print::write_all(&rt, &out[..n])
}
