// The frames of a text: its version, the first line, and a chip's.
ghost use Rattle.std.specs.Prelude.{◌≡◌, ◌≤◌, length};
ghost use Rattle.base.specs.Bits as B;
ghost use Rattle.settings.specs.Reading as R;
ghost use Rattle.settings.specs.Settings as S;

use crate::Kept;
use word::{Display, System};

// The version that the first four characters give, 0 where they give none.
pub(crate) fn version_of(text: &[u8]) -> u8
    ensures { result ≡ R.version_in text.now }
{
    if text.len() < 4 {
        return 0;
    }
    let bytes = lines::frame_of(&text[..4]).bytes;
    if bytes[0] != 0x20 {
        return 0;
    }
    bytes[1]
}

// The version that a text of n chips has.
pub(crate) fn version_for(n: usize) -> u8
    ensures { result ≡ S.version_for n }
{
    0x01
}

// Whether a line's bytes are 20, the version, N.
#[tactic(auto, unfolding(crate::specs::Reading::is_first))]
pub(crate) fn is_first(bytes: &[u8]) -> bool
    ensures { result ≡ R.is_first bytes.now }
{
    bytes.len() == 3
        && bytes[0] == 0x20
        && chain::checks::is_count(bytes[2] as usize)
        && bytes[1] == version_for(bytes[2] as usize)
}

// Whether no bit outside its field is set.
fn is_in_fields(system: u8, display: u8, custom: u8) -> bool
    ensures { result ≡ R.in_fields system display custom }
{
    base::field(system as u16, 6, 2) == 0 && !bit(system, 2) && display <= 0x0F && custom <= 0x7F
}

// Whether a line's bytes are 21, chip k, and four bytes of settings.
#[tactic(auto, unfolding(crate::specs::Reading::is_chip))]
pub(crate) fn is_chip(k: usize, bytes: &[u8]) -> bool
    ensures { result ≡ R.is_chip k bytes.now }
{
    bytes.len() == 6
        && bytes[0] == 0x21
        && bytes[1] as usize == k
        && is_in_fields(bytes[2], bytes[3], bytes[5])
}

// The bit at a place of a byte.
fn bit(byte: u8, at: u16) -> bool
    ensures { result ≡ B.bit byte at }
{
    base::field(byte as u16, at, 1) == 1
}

// The settings that four bytes give.
fn kept(system: u8, display: u8, blink: u8, custom: u8) -> Kept
    ensures { result ≡ R.kept_from system display blink custom }
{
    Kept {
        system: System {
            intm: bit(system, 5),
            sspd: bit(system, 4),
            dplr: bit(system, 3),
            keyb: bit(system, 1),
            disp: bit(system, 0),
        },
        display: Display {
            mode: bit(display, 3),
            limit: base::field(display as u16, 0, 3) as u8,
        },
        blink,
        custom,
    }
}

// The settings that a chip's line gives.
pub(crate) fn kept_by(bytes: &[u8]) -> Kept
    requires { 6 ≤ length bytes.now }
    ensures { result ≡ R.kept_by bytes.now }
{
    kept(bytes[2], bytes[3], bytes[4], bytes[5])
}
