// Lines of hexadecimal: where a line ends, its bytes, two digits a byte, and a line written into a lent buffer. The four public
// functions are inner ones, for the other crates; users have no entry here. None of them has a `requires`.
#![tactic(auto)]

ghost use Rattle.std.specs.Prelude.{◌≡◌, ◌+◌, ◌≤◌, ◌<◌, [], T, length, drop};
ghost use Rattle.lines.specs.Answers.{line_length, held_in, frame_for, fitting, Puts};
ghost use Rattle.lines.specs.Lines as L;

// The bytes of a line: the first `count` of the array, and zeros past them. No form of a line has more than 33.
#[derive(Clone, Copy)]
pub struct Frame {
    pub bytes: [u8; 33],
    pub count: usize,
}

// What an upper-case hexadecimal digit counts; 16 where the character is none.
// It is 16 and no `Option`, since the definition by which lines are tested and read has 16 there too.
#[tactic(auto, unfolding(crate::specs::Lines::hex_of))]
fn hex_value(ch: u8) -> u8
    ensures { result ≡ L.hex_of ch }
{
    match ch {
        b'0'..=b'9' => ch - b'0',
        b'A'..=b'F' => ch - b'A' + 10,
        _ => 16,
    }
}

// Whether every character is such a digit.
fn all_hex(line: &[u8]) -> bool
    ensures { result ≡ L.all_hex line.now }
{
    line.iter().all(|ch| hex_value(*ch) < 16)
}

// Hexadecimal digits two by two to bytes, the high one first.
fn bytes_of(line: &[u8]) -> Frame
    requires t { T (L.all_hex line.now) }
    requires line_len_bound { length line.now ≤ 66 }
    ensures { result ≡ frame_for (L.bytes_of line.now) }
{
    let mut bytes = [0u8; 33];
    for (i, digits) in line.chunks_exact(2).enumerate() {
        bytes[i] = 16 * hex_value(digits[0]) + hex_value(digits[1]);
    }
    Frame {
        bytes,
        count: line.len() / 2,
    }
}

// No bytes.
fn no_bytes() -> Frame
    ensures { result ≡ frame_for [] }
{
    Frame {
        bytes: [0u8; 33],
        count: 0,
    }
}

// The bytes of a line that was ended; none where it isn't digits two by two, or is longer than any form.
pub fn frame_of(line: &[u8]) -> Frame
    ensures { result ≡ frame_for (held_in line.now) }
{
    if line.len() > 66 || line.len() % 2 != 0 || !all_hex(line) {
        return no_bytes();
    }
    bytes_of(line)
}

// The place of the next 0AH from a place on, or the text's end; the place itself where it is past that.
pub fn line_end(text: &[u8], from: usize) -> usize
    ensures { result ≡ from + line_length (drop from text.now) }
{
    let rest = text.get(from..).unwrap_or(&[]);
    let length = rest
        .iter()
        .position(|ch| *ch == b'\n')
        .unwrap_or(rest.len());
    from + length
}

// The hexadecimal digit that counts so much.
fn hex_char(v: u8) -> u8
    requires { v < 16 }
    ensures { result ≡ L.hex_for v }
{
    match v {
        0..=9 => b'0' + v,
        _ => b'A' + (v - 10),
    }
}

// A line of bytes, at a place where it fits.
#[tactic(auto, using(crate::proofs::Puts::line_for_length))]
fn line(bytes: &[u8], out: &mut [u8], at: usize) -> usize
    requires { at + length (L.line_for bytes.now) ≤ length out.old }
    ensures { Puts (L.line_for bytes.now) at out.old result out.new }
{
    let mut end = at;
    for byte in bytes {
        out[end] = hex_char(byte / 16);
        out[end + 1] = hex_char(byte % 16);
        end += 2;
    }
    out[end] = b'\n';
    end + 1
}

// A line of bytes, at a place: the place past it. Where it doesn't fit, nothing is written, and the answer is the place given,
// which is past no line.
#[tactic(auto, using(crate::proofs::Puts::line_for_length, crate::proofs::Puts::put_none))]
pub fn put_line(bytes: &[u8], out: &mut [u8], at: usize) -> usize
    ensures { Puts (fitting (L.line_for bytes.now) at out.old) at out.old result out.new }
{
    let room = out.len().saturating_sub(at);
    if bytes.len() >= room.div_ceil(2) {
        return at;
    }
    line(bytes, out, at)
}

// A number in eight bytes, the high one first.
pub fn eight_bytes(n: u64) -> [u8; 8]
    ensures { result ≡ L.eight_bytes n }
{
    n.to_be_bytes()
}
