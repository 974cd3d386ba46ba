// Streams of any length, taken in blocks as they arrive: a capture text without its limit of length, or raw samples, told apart by the first
// byte. The entries are `start`, `feed` and `finish`; each takes any record, any bytes. What they write, put together, is one definition
// of the whole stream, however it is cut: specs/Streams, proofs/Whole.
#![tactic(auto)]

pub mod held;
mod raw;
mod samples;
mod text;

ghost use Rattle.std.specs.Prelude.{◌≡◌, ◌≤◌, min, length};
ghost use Rattle.base.specs.Lent.{Counts};
ghost use Rattle.lines.specs.Answers.{Puts};
ghost use Rattle.streams.specs.Parts as P;
ghost use Rattle.streams.specs.Steps as S;

use base::Refusal;
use capture::Report;
use chain::Chain;
use held::Held;
use reads::Reader;

// What a stream is.
#[derive(Clone, Copy)]
pub enum Kind {
    // Its first byte hasn't come.
    Unknown,
    Text,
    Raw,
    // It was refused; nothing more is taken.
    Over,
}

// How far a stream has come: N, or 0 before it is known; the chain; the line's number in a text, or the next byte's offset in a raw
// stream; what is held of a line, or of the first three bytes or a scan; and the reader of the last chip's recorded DOUT.
#[derive(Clone, Copy)]
pub struct State {
    pub n: usize,
    pub chain: Chain,
    pub place: u64,
    pub held: Held,
    pub reader: Reader,
}

// A stream, at any place.
#[derive(Clone, Copy)]
pub struct Stream {
    pub kind: Kind,
    pub state: State,
}

// A block was taken: the stream after it, how many of its bytes were passed (all, or the first 4,096, also where the stream is refused), and
// how many bytes they wrote.
#[derive(Clone, Copy)]
pub struct Fed {
    pub stream: Stream,
    pub passed: usize,
    pub bytes: usize,
}

// A step of a stream: the state after it, whether it was refused, and the place past what it wrote.
// A refused step has its state and its place too (specs/Parts `Steps`), so the flag stands beside them.
#[derive(Clone, Copy)]
pub(crate) struct Step {
    pub(crate) state: State,
    pub(crate) over: bool,
    pub(crate) at: usize,
}

// The stream after a block, and how many bytes the block wrote.
#[derive(Clone, Copy)]
pub(crate) struct Output {
    pub(crate) stream: Stream,
    pub(crate) bytes: usize,
}

// The most bytes that a call takes.
pub const BLOCK: usize = 4096;

// How long any output of a block can be: for each of its bytes what a sample can write, and for 64 more.
pub const ROOM: usize = reads::SAMPLE_ROOM * (BLOCK + 64);

// A stream before its first byte.
pub fn start() -> Stream
    ensures { result ≡ S.start_stream }
{
    Stream {
        kind: Kind::Unknown,
        state: State {
            n: 0,
            chain: chain::start(1).value,
            place: 0,
            held: held::none(),
            reader: reads::start(),
        },
    }
}

// A state at a place.
fn placed_at(place: u64, state: State) -> State
    ensures { result ≡ S.placed_at place state }
{
    State { place, ..state }
}

// The stream of a kind after steps.
fn after(kind: Kind, step: Step) -> Output
    ensures stream_value { result.stream ≡ P.stream_after kind step }
    ensures bytes_value { result.bytes ≡ step.at }
{
    Output {
        stream: Stream {
            kind: if step.over { Kind::Over } else { kind },
            state: step.state,
        },
        bytes: step.at,
    }
}

// A block of a stream whose first byte hasn't come.
fn begin(what: Report, state: State, bytes: &[u8], out: &mut [u8]) -> Output
    requires bytes_len_bound { length bytes.now ≤ 4096 }
    requires in_bounds { P.most_written ≤ length out.old }
    ensures { P.Writes (S.fed_by what Kind.Unknown state bytes.now) out.old result out.new }
{
    if bytes.is_empty() {
        return Output {
            stream: Stream {
                kind: Kind::Unknown,
                state,
            },
            bytes: 0,
        };
    }
    if bytes[0] == 0x00 {
        return after(Kind::Raw, raw::fed(what, placed_at(0, state), bytes, out));
    }
    after(Kind::Text, text::fed(what, placed_at(1, state), bytes, out))
}

// A block of a stream.
fn block(what: Report, stream: Stream, bytes: &[u8], out: &mut [u8]) -> Output
    requires bytes_len_bound { length bytes.now ≤ 4096 }
    requires in_bounds { P.most_written ≤ length out.old }
    ensures { P.Writes (S.fed what stream bytes.now) out.old result out.new }
{
    match stream.kind {
        Kind::Unknown => begin(what, stream.state, bytes, out),
        Kind::Text => after(Kind::Text, text::fed(what, stream.state, bytes, out)),
        Kind::Raw => after(Kind::Raw, raw::fed(what, stream.state, bytes, out)),
        Kind::Over => Output { stream, bytes: 0 },
    }
}

// Takes a block, or its first 4,096 bytes: what they write stands at the front of the array, which always suffices.
pub fn feed(what: Report, stream: Stream, bytes: &[u8], out: &mut [u8; ROOM]) -> Fed
    ensures feeds { S.Feeds what stream bytes.now out.old result out.new }
    ensures counts { Counts result.bytes out.new }
{
    let passed = bytes.len().min(BLOCK);
    let written = block(what, stream, &bytes[..passed], out);
    Fed {
        stream: written.stream,
        passed,
        bytes: written.bytes,
    }
}

// The end of a text.
fn text_end(state: State, out: &mut [u8]) -> usize
    requires { P.most_written ≤ length out.old }
    ensures { Puts (S.end_by Kind.Text state) 0 out.old result out.new }
{
    if state.held.count == 0 {
        return 0;
    }
    capture::put::refusal(Refusal::Line(state.place), out, 0)
}

// The end of a raw stream.
fn raw_end(state: State, out: &mut [u8]) -> usize
    requires { P.most_written ≤ length out.old }
    ensures { Puts (S.end_by Kind.Raw state) 0 out.old result out.new }
{
    if state.held.count == 0 {
        return 0;
    }
    raw::refusal(state.place, out, 0)
}

// The end of a stream: a refusal, where the first line is missing, or the end stands inside a line, the first three bytes or a scan. It stands at
// the front of the array.
pub fn finish(stream: Stream, out: &mut [u8; ROOM]) -> usize
    ensures finishes { S.Finishes stream out.old result out.new }
    ensures counts { Counts result out.new }
{
    match stream.kind {
        Kind::Unknown => capture::put::refusal(Refusal::Line(1), out, 0),
        Kind::Text => text_end(stream.state, out),
        Kind::Raw => raw_end(stream.state, out),
        Kind::Over => 0,
    }
}
