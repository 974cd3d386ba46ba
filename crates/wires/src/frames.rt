// The forms of the lines: the first, and those after it.
ghost use Rattle.std.specs.Prelude.{◌≡◌};
ghost use Rattle.lines.specs.Lines as L;
ghost use Rattle.wires.specs.Frames as F;
ghost use Rattle.wires.specs.Parts as P;

// What the first line says: the key's code and the digits at power-on.
#[derive(Clone, Copy)]
pub(crate) struct First {
    pub(crate) key: u8,
    pub(crate) digits: [u8; 6],
}

// The first line of a text: 40 01, the key's code, DIG2 to DIG7; none, where it isn't of that form.
#[tactic(auto, using(crate::proofs::Firsts::first_cut, crate::proofs::Firsts::frame_says, std::proofs::lemmas::List::take_all), unfolding(crate::specs::Frames::first_of))]
pub(crate) fn first_of(text: &[u8]) -> Option<First>
    ensures { result ≡ P.first_by (P.first_in (L.lines_of text.now)) }
{
    let end = lines::line_end(text, 0);
    if end >= text.len() {
        return None;
    }
    let frame = lines::frame_of(&text[..end]);
    match &frame.bytes[..frame.count] {
        [0x40, 0x01, key, rest @ ..] if *key <= 127 && rest.len() == 6 => {
            let mut digits = [0; 6];
            digits.copy_from_slice(rest);
            Some(First { key: *key, digits })
        }
        _ => None,
    }
}

// Whether a line's bytes are 41 and 1 to 32 samples, all of them good.
#[tactic(auto, using(std::proofs::lemmas::List::take_all), unfolding(crate::specs::Frames::is_samples))]
pub(crate) fn is_samples(bytes: &[u8]) -> bool
    ensures { result ≡ F.is_samples bytes.now }
{
    (2..=33).contains(&bytes.len()) && bytes[0] == 0x41 && ch450::play::checked(&bytes[1..]).is_ok()
}
