// Key scans: the smallest closed address, what a scan does to a chip, and what it records.
ghost use Rattle.std.specs.Prelude.{◌≡◌, ◌≤◌, ◌<◌};
ghost use Rattle.chip.specs.Masks as M;
ghost use Rattle.chip.specs.Scans as S;

use crate::{Chip, Keys, NONE, Recorded};

// The contacts as one number: bit 8·DIG + SEG, a byte for each DIG.
fn packed(bytes: [u8; 8]) -> u64
    ensures { M.Packs bytes result }
{
    u64::from_le_bytes(bytes)
}

// The SEGs with a contact closed, bit s for SEG s: the eight bytes laid over each other, half over half, into four, two and one.
fn closed_segs(contacts: u64) -> u8
    ensures { result ≡ M.closed_segs contacts }
{
    let in_four = contacts | (contacts >> 32);
    let in_two = in_four | (in_four >> 16);
    let in_one = in_two | (in_two >> 8);
    (in_one & 255) as u8
}

// The row of a SEG, bit d for DIG d: a mask keeps its bit of each byte, and the eight are moved together, into four bytes, two and one.
fn row(contacts: u64, seg: u8) -> u8
    requires { seg < 8 }
    ensures { result ≡ M.row_of contacts seg }
{
    let kept = (contacts >> seg) & 0x0101010101010101;
    let in_four = kept | (kept >> 28);
    let in_two = in_four | (in_four >> 14);
    let in_one = in_two | (in_two >> 7);
    (in_one & 255) as u8
}

// The lowest DIG of the lowest SEG, as an address. Nothing is counted before some SEG is known to have a contact.
fn lowest(contacts: u64, segs: u8) -> u8
    requires { segs ≡ 0 → ⊥ }
    ensures { result ≡ M.lowest_in contacts segs }
{
    let seg = u8::trailing_zeros(segs) as u8;
    let dig = u8::trailing_zeros(row(contacts, seg)) as u8;
    8 * seg + dig
}

// The smallest closed address, or NONE.
fn result(bytes: [u8; 8]) -> u8
    ensures { result ≡ S.result bytes }
{
    let contacts = packed(bytes);
    let segs = closed_segs(contacts);
    if segs == 0 {
        NONE
    } else {
        lowest(contacts, segs)
    }
}

// Result and last scan are the same address, and its code isn't held already.
fn is_new_key(r: u8, keys: Keys) -> bool
    ensures { result ≡ S.new_key r keys }
{
    r == keys.last && r != NONE && u16::from(keys.code) != 64 + u16::from(r)
}

// What a code that is recorded is told as: over an unread one, where an interrupt stood.
fn code_taken(stood: bool, code: u8) -> Recorded
    ensures { S.recording_of result ≡ S.code_taken stood code }
{
    if stood {
        Recorded::OverUnread(code)
    } else {
        Recorded::Key(code)
    }
}

// A key record after a scan, and what the scan recorded.
#[derive(Clone, Copy)]
struct AfterKeys {
    keys: Keys,
    recorded: Recorded,
}

// A scan of a chip that is awake with KEYB on: what it does to the key record, and what it records.
fn keyed(r: u8, keys: Keys) -> AfterKeys
    requires { r ≤ 64 }
    ensures keys_value { result.keys ≡ S.keyed r keys }
    ensures recorded_value { S.recording_of result.recorded ≡ S.keys_record r keys }
{
    let mut next = keys;
    next.last = r;
    let mut recorded = Recorded::Nothing;
    if is_new_key(r, keys) {
        next.code = 64 + r;
        next.interrupt = true;
        recorded = code_taken(keys.interrupt, next.code);
    } else if r == NONE && keys.last == NONE && base::field(u16::from(keys.code), 6, 1) == 1 {
        next.code = keys.code - 64;
        recorded = Recorded::Released;
    }
    AfterKeys {
        keys: next,
        recorded,
    }
}

// A chip after a scan, and what the scan recorded.
#[derive(Clone, Copy)]
pub struct AfterScan {
    pub chip: Chip,
    pub recorded: Recorded,
}

// A scan with a result: what it does to a chip, and what it records.
#[tactic(auto, unfolding(crate::specs::Scans::scanned_by, crate::specs::Scans::recorded_by))]
fn scanned_by(r: u8, chip: Chip) -> AfterScan
    requires { r ≤ 64 }
    ensures chip_value { result.chip ≡ S.scanned_by r chip }
    ensures recorded_value { S.recording_of result.recorded ≡ S.recorded_by r chip }
{
    let mut after = AfterScan {
        chip,
        recorded: Recorded::Nothing,
    };
    if chip.settings.sleeping {
        if r < 32 {
            after.chip.settings.sleeping = false;
            after.chip.keys.last = NONE;
        }
    } else if chip.settings.system.keyb {
        let AfterKeys { keys, recorded } = keyed(r, chip.keys);
        after.chip.keys = keys;
        after.recorded = recorded;
    }
    after
}

// One scan of a chip.
#[tactic(auto, using(crate::proofs::Closed::result_le))]
pub fn scanned(bytes: [u8; 8], chip: Chip) -> AfterScan
    ensures { S.leaves_of result ≡ S.scan_leaves bytes chip }
{
    scanned_by(result(bytes), chip)
}
