//! What a slot of either protocol holds, and the clock by which it was saved.
ghost use Rattle.std.specs.Prelude.{◌≡◌, ◌<◌, ℕ, Bool, length, slice_index, Option};
ghost use Rattle.types.specs.Slots.{live4, live6, same_client4, same_client6};
ghost use Rattle.types.specs.declared.slot4.Slot4.TheVariants as S4;
ghost use Rattle.types.specs.declared.slot6.Slot6.TheVariants as S6;
ghost use Rattle.lease_disk.specs.Layout.{with_halves};
ghost use Rattle.lease_disk.specs.Recovered.{entry, held, slot4_of, slot6_of};

use crate::half::{CLOCK_AT, Half};
use crate::read_half::{counts_before, half_of, number8, read_slot4, read_slot6};
use types::{Moment, Slot4, Slot6};

/// What a slot holds, and the clock by which it was saved.
#[derive(Clone, Copy)]
pub struct Entry<S> {
    pub clock: Moment,
    pub content: S,
}

/// A slot of either protocol.
pub trait Slot: Copy {
    ghost FREE: { Self };

    ghost read: { (ℕ → ℕ) → Option Self };

    ghost live: { ℕ → Self → Self };

    ghost same_client: { Self → Self → Bool };

    const FREE: Self;

    /// The slot that a half holds; `None` where it is damaged.
    fn read(half: &[u8]) -> Option<Self>
        requires { length half.now ≡ 256 }
        ensures { result ≡ read (slice_index half.now) };

    /// The slot at a clock, in seconds: free where what it holds has expired.
    fn at_clock(self, clock: u64) -> Self
        ensures { result ≡ live clock self };

    /// Whether both are bound, and to one client.
    fn is_twin(self, other: Self) -> bool
        ensures { result ≡ same_client self other };
}

impl Slot for Slot4 {
    ghost FREE = { S4.Free };

    ghost read = { slot4_of };

    ghost live = { live4 };

    ghost same_client = { same_client4 };

    const FREE: Slot4 = Slot4::Free;

    fn read(half: &[u8]) -> Option<Slot4> {
        read_slot4(half)
    }

    fn at_clock(self, clock: u64) -> Slot4 {
        self.live_at(clock)
    }

    fn is_twin(self, other: Slot4) -> bool {
        match (&self, &other) {
            (Slot4::Bound(a, _), Slot4::Bound(b, _)) => a == b,
            _ => false,
        }
    }
}

impl Slot for Slot6 {
    ghost FREE = { S6.Free };

    ghost read = { slot6_of };

    ghost live = { live6 };

    ghost same_client = { same_client6 };

    const FREE: Slot6 = Slot6::Free;

    fn read(half: &[u8]) -> Option<Slot6> {
        read_slot6(half)
    }

    fn at_clock(self, clock: u64) -> Slot6 {
        self.live_at(clock)
    }

    fn is_twin(self, other: Slot6) -> bool {
        match (&self, &other) {
            (Slot6::Bound(a, _), Slot6::Bound(b, _)) => a == b,
            _ => false,
        }
    }
}

/// What a half holds; `None` where it is damaged.
fn read_held<S: Slot>(half: &[u8]) -> Option<Entry<S>>
    requires { length half.now ≡ 256 }
    ensures { result ≡ held S.read (slice_index half.now) }
{
    let clock = Moment::new(number8(half, CLOCK_AT))?;
    let content = S::read(half)?;
    Some(Entry { clock, content })
}

/// What the half of a slot that counts holds; `None` where none counts or that one is damaged.
pub fn read_entry<S: Slot>(halves: &[u8], slot: usize) -> Option<Entry<S>>
    requires all { length halves.now ≡ 16384 }
    requires exists { slot < 32 }
    ensures { result ≡ entry S.read (with_halves halves.now) slot }
{
    let first = half_of(halves, slot, Half::First);
    let second = half_of(halves, slot, Half::Second);
    if counts_before(first, second) {
        return read_held(first);
    }
    if counts_before(second, first) {
        return read_held(second);
    }
    None
}
