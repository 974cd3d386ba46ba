// A line's form, and the number of chips that a text's first line gives. The public functions are inner ones, for the other crates that
// read capture text; none of them has a `requires`.
ghost use Rattle.std.specs.Prelude.{◌≡◌, ◌∷◌};
ghost use Rattle.lines.specs.Lines as L;
ghost use Rattle.capture.specs.Frames as F;
ghost use Rattle.capture.specs.Parts as P;

// The form of a line after the first.
#[derive(Clone, Copy)]
pub enum Form {
    // After 01: 1 to 32 samples.
    Samples,
    // After 02: a chip below N, and 8 scan bytes.
    Scan,
    // Neither.
    Other,
}

// After 01: all samples are tested.
fn samples_form(ss: &[u8]) -> Form
    ensures { F.read_as result (0x01 ∷ ss.now) ≡ F.samples_form ss.now }
{
    if ss.is_empty() || ss.len() > 32 {
        return Form::Other;
    }
    match chain::checks::checked(ss) {
        Err(_) => Form::Other,
        Ok(()) => Form::Samples,
    }
}

// The form of a line's bytes, for a chain of N chips.
#[tactic(auto, using(crate::proofs::Forms::form_at, crate::proofs::Forms::read_front, std::proofs::lemmas::List::take_all))]
pub fn form_of(n: usize, bytes: &[u8]) -> Form
    ensures { F.read_as result bytes.now ≡ F.form_of n bytes.now }
{
    match bytes {
        [0x01, ss @ ..] => samples_form(ss),
        [0x02, k, eight @ ..] if (*k as usize) < n && eight.len() == 8 => Form::Scan,
        _ => Form::Other,
    }
}

// N of a first line's bytes, 00 01 N; none where they aren't of that form.
#[tactic(auto, using(crate::proofs::Firsts::first_at))]
pub fn chips_in(bytes: &[u8]) -> Option<usize>
    ensures { result ≡ P.chips_told (F.first_of bytes.now) }
{
    match bytes {
        [0x00, 0x01, n] if chain::checks::is_count(*n as usize) => Some(*n as usize),
        _ => None,
    }
}

// N of a text's first line; none where it isn't of its form.
#[tactic(auto, using(crate::proofs::Firsts::first_cut, crate::proofs::Firsts::frame_says))]
pub fn chips_of(text: &[u8]) -> Option<usize>
    ensures { result ≡ P.chips_told (P.first_in (L.lines_of text.now)) }
{
    let end = lines::line_end(text, 0);
    if end >= text.len() {
        return None;
    }
    let frame = lines::frame_of(&text[..end]);
    chips_in(&frame.bytes[..frame.count])
}
