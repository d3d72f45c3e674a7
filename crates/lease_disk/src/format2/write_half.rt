//! The bytes of a half.
ghost use Rattle.std.specs.Prelude.{◌≡◌, ◌≤◌, ◌+◌, ◌-◌, ◌++◌, [], length, replicate};
ghost use Rattle.std.specs.Int.{to_be_bytes};
ghost use Rattle.lease_disk.specs.HalfBytes.{half_bytes, half_with};
ghost use Rattle.lease_disk.specs.Keys.{HasKey};

use crate::content::Content;
use crate::half::GATE_OPEN;
use arrayvec::ArrayVec;
use types::{Moment, Slot4, Slot6};

/// A half, as far as it is written.
pub type HalfBytes = ArrayVec<u8, 256>;

fn extend(half: &mut HalfBytes, bytes: &[u8])
    requires { length half.old.items + length bytes.now ≤ 256 }
    ensures { half.new.items ≡ half.old.items ++ bytes.now }
{
    // the caller left room
    let _ = half.try_extend_from_slice(bytes);
}

fn push_zeros(half: &mut HalfBytes, n: usize)
    requires room { length half.old.items + n ≤ 256 }
    requires few { n ≤ 224 }
    ensures { half.new.items ≡ half.old.items ++ replicate n 0 }
{
    extend(half, &[0; 224][..n]);
}

/// What stands before the key.
#[derive(Clone, Copy)]
struct Head {
    sequence: u8,
    state: u8,
    iaid: u32,
    clock: u64,
    until: u64,
}

/// A half with this head and key, and with its gate open.
fn half_with(head: Head, key: &[u8]) -> HalfBytes
    requires { length key.now ≤ 224 }
    ensures bytes { result.items ≡ half_with head.sequence head.state head.iaid head.clock head.until key.now }
    ensures size { length result.items ≡ 256 }
{
    let mut half = HalfBytes::new();
    extend(
        &mut half,
        &[GATE_OPEN, head.state, key.len() as u8, head.sequence],
    );
    extend(&mut half, &head.iaid.to_be_bytes());
    extend(&mut half, &head.clock.to_be_bytes());
    extend(&mut half, &head.until.to_be_bytes());
    push_zeros(&mut half, 8);
    extend(&mut half, key);
    push_zeros(&mut half, 224 - key.len());
    half
}

/// The bytes of a half that holds this from a clock on, with its gate open.
pub fn write_half(sequence: u8, clock: Moment, content: &Content) -> HalfBytes
    ensures bytes { result.items ≡ half_bytes sequence clock content.now }
    ensures size { length result.items ≡ 256 }
    ensures key { HasKey content.now }
    ensures clock { clock ≤ 1099511627775 }
{
    let clock = clock.seconds();
    let (state, iaid, until, key): (u8, u32, u64, &[u8]) = match content {
        Content::Four(Slot4::Free) | Content::Six(Slot6::Free) => (0, 0, 0, &[]),
        Content::Four(Slot4::Bound(key, until)) => (1, 0, *until, key.as_bytes()),
        Content::Six(Slot6::Bound(key, until)) => (1, key.iaid(), *until, key.duid()),
        Content::Four(Slot4::Barred(until)) | Content::Six(Slot6::Barred(until)) => (
            2,
            0,
            *until,
            &[],
        ),
    };
    half_with(
        Head {
            sequence,
            state,
            iaid,
            clock,
            until,
        },
        key,
    )
}
