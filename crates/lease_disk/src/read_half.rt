//! What a half holds.
ghost use Rattle.std.specs.Prelude.{◌≡◌, ◌≤◌, ◌+◌, ◌<◌, length, slice_index};
ghost use Rattle.std.specs.Int.{w32, w64, from_be_bytes};
ghost use Rattle.lease_disk.specs.Layout.{half, with_halves};
ghost use Rattle.lease_disk.specs.Recovered.{bytes_at, is_counting, slot4_of, slot6_of};

use crate::half::{
    GATE_OPEN, HALF_SIZE, Half, IAID_AT, KEY_AT, LENGTH_AT, SEQUENCE_AT, STATE_AT, UNTIL_AT,
    sequence_after,
};
use byteorder::{BigEndian, ByteOrder};
use types::{Key4, Key6, LAST_MOMENT, MAX_LEASE, Slot4, Slot6};

/// The last moment until which a lease or a bar can be: the longest lease after the last clock.
const LAST_UNTIL: u64 = LAST_MOMENT + MAX_LEASE as u64;

/// The bytes of a half, of those of all slots.
pub fn half_of(halves: &[u8], slot: usize, which: Half) -> &[u8]
    requires all { length halves.now ≡ 16384 }
    requires exists { slot < 32 }
    ensures bytes { slice_index result.now ≡ half (with_halves halves.now) slot which }
    ensures size { length result.now ≡ 256 }
{
    let at = which.at(slot);
    &halves[at..at + HALF_SIZE]
}

pub fn number8(bytes: &[u8], at: usize) -> u64
    requires { at + 8 ≤ length bytes.now }
    ensures { result ≡ from_be_bytes w64 (bytes_at (slice_index bytes.now) at 8) }
{
    BigEndian::read_u64(&bytes[at..at + 8])
}

fn number4(bytes: &[u8], at: usize) -> u32
    requires { at + 4 ≤ length bytes.now }
    ensures { result ≡ from_be_bytes w32 (bytes_at (slice_index bytes.now) at 4) }
{
    BigEndian::read_u32(&bytes[at..at + 4])
}

/// Whether a half counts before the other half of its slot.
pub fn counts_before(own: &[u8], opposite: &[u8]) -> bool
    requires own { length own.now ≡ 256 }
    requires opposite { length opposite.now ≡ 256 }
    ensures { result ≡ is_counting (slice_index own.now) (slice_index opposite.now) }
{
    let (sequence, opposite_sequence) = (own[SEQUENCE_AT], opposite[SEQUENCE_AT]);
    if own[0] != GATE_OPEN || sequence > 2 {
        return false;
    }
    if opposite[0] != GATE_OPEN {
        return true;
    }
    opposite_sequence <= 2 && sequence == sequence_after(opposite_sequence)
}

/// The DHCPv4 slot that a half holds; `None` where it is damaged.
#[tactic(auto, using(crate::proofs::Reading::bytes_at_slice))]
pub fn read_slot4(half: &[u8]) -> Option<Slot4>
    requires { length half.now ≡ 256 }
    ensures { result ≡ slot4_of (slice_index half.now) }
{
    if half[STATE_AT] == 0 {
        return Some(Slot4::Free);
    }
    let until = number8(half, UNTIL_AT);
    if until > LAST_UNTIL {
        return None;
    }
    match half[STATE_AT] {
        1 => {
            let len = usize::from(half[LENGTH_AT]);
            if len < 2 || len > 64 {
                return None;
            }
            let key = Key4::new(&half[KEY_AT..KEY_AT + len])?;
            Some(Slot4::Bound(key, until))
        }
        2 => Some(Slot4::Barred(until)),
        _ => None,
    }
}

/// The DHCPv6 slot that a half holds; `None` where it is damaged.
#[tactic(auto, using(crate::proofs::Reading::bytes_at_slice))]
pub fn read_slot6(half: &[u8]) -> Option<Slot6>
    requires { length half.now ≡ 256 }
    ensures { result ≡ slot6_of (slice_index half.now) }
{
    if half[STATE_AT] == 0 {
        return Some(Slot6::Free);
    }
    let until = number8(half, UNTIL_AT);
    if until > LAST_UNTIL {
        return None;
    }
    match half[STATE_AT] {
        1 => {
            let len = usize::from(half[LENGTH_AT]);
            if len < 3 || len > 130 {
                return None;
            }
            let key = Key6::new(&half[KEY_AT..KEY_AT + len], number4(half, IAID_AT))?;
            Some(Slot6::Bound(key, until))
        }
        2 => Some(Slot6::Barred(until)),
        _ => None,
    }
}
