// The walk over a settings text: the first line, then a line for each chip, and nothing more.
ghost use Rattle.std.specs.Prelude.{◌≡◌, ◌≤◌, length, drop};
ghost use Rattle.base.specs.Refusals.{hands_back, number_of, place_of, handed};
ghost use Rattle.chain.specs.Chain.{most};
ghost use Rattle.lines.specs.Lines as L;
ghost use Rattle.settings.specs.Reading as R;
ghost use Rattle.settings.specs.Settings as S;

use crate::{Kept, Kiosk, frames};
use base::{Handed, Refusal};
use lines::Frame;
use word::{Display, System};

// No settings: zeros.
fn none() -> Kept
    ensures { result ≡ S.no_kept }
{
    Kept {
        system: System {
            intm: false,
            sspd: false,
            dplr: false,
            keyb: false,
            disp: false,
        },
        display: Display {
            mode: false,
            limit: 0,
        },
        blink: 0,
        custom: 0,
    }
}

// A refusal, with zeros.
pub(crate) fn refused(e: Refusal) -> Handed<Kiosk, ()>
    ensures { handed result ≡ hands_back S.no_kiosk (number_of e) (place_of e) }
{
    Handed {
        value: Kiosk {
            n: 0,
            chips: [none(); chain::MOST],
        },
        answer: Err(e),
    }
}

// The lines of n chips from a place of the text on, to its end.
fn chips(n: usize, text: &[u8], from: usize) -> Handed<Kiosk, ()>
    requires n_le_most { n ≤ most }
    requires from_in_bounds { from ≤ length text.now }
    ensures { handed result ≡ R.kiosk_by n (R.chips_from n 0 S.no_kepts (L.lines_of (drop from text.now))) }
{
    let mut chips = [none(); chain::MOST];
    let mut place = from;
    for k in 0..n {
        let end = lines::line_end(text, place);
        if end >= text.len() {
            return refused(Refusal::Setting(k as u64 + 2));
        }
        let Frame { count, bytes } = lines::frame_of(&text[place..end]);
        if !frames::is_chip(k, &bytes[..count]) {
            return refused(Refusal::Setting(k as u64 + 2));
        }
        chips[k] = frames::kept_by(&bytes[..count]);
        place = end + 1;
    }
    if place < text.len() {
        return refused(Refusal::Setting(n as u64 + 2));
    }
    Handed {
        value: Kiosk { n, chips },
        answer: Ok(()),
    }
}

// All lines.
pub(crate) fn lines(text: &[u8]) -> Handed<Kiosk, ()>
    ensures { handed result ≡ R.lines_read (L.lines_of text.now) }
{
    let end = lines::line_end(text, 0);
    if end >= text.len() {
        return refused(Refusal::Setting(1));
    }
    let Frame { count, bytes } = lines::frame_of(&text[..end]);
    if !frames::is_first(&bytes[..count]) {
        return refused(Refusal::Setting(1));
    }
    chips(bytes[2] as usize, text, end + 1)
}
