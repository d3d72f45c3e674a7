//! What a region keeps of a pool's slots.
ghost use Rattle.std.specs.Prelude.{◌≡◌, ◌≤◌, length, map, take};
ghost use Rattle.types.specs.Slots.{live4};
ghost use Rattle.bindings_v4.specs.Kept4.{slot_of, kept_slots};
ghost use Rattle.bindings_v4.specs.Slots4.{holder_of};

use arrayvec::ArrayVec;
use slots::{Holder, kept, live};
use types::{Key4, MAX_POOL, Slot4};

/// The holder that a kept slot has.
pub fn holder_of(content: Slot4) -> Option<Holder<Key4>>
    ensures { result ≡ holder_of content }
{
    match content {
        Slot4::Free => None,
        Slot4::Bound(key, until) => Some(Holder::Bound(key, until)),
        Slot4::Barred(until) => Some(Holder::Barred(until)),
    }
}

/// A holder as a region writes it: an offer is in memory only.
fn slot_of(holder: Option<Holder<Key4>>) -> Slot4
    ensures { result ≡ slot_of holder }
{
    match holder {
        Some(Holder::Bound(key, until)) => Slot4::Bound(key, until),
        Some(Holder::Barred(until)) => Slot4::Barred(until),
        _ => Slot4::Free,
    }
}

/// The holder that a kept slot has at this clock. What has expired has none: a client that got
/// another address since would otherwise have two slots.
fn live_holder(slot: Slot4, clock: u64) -> Option<Holder<Key4>>
    ensures { result ≡ holder_of (live4 clock slot) }
{
    live(holder_of(slot), clock)
}

/// The holders that the first slots of a region have at this clock.
pub fn live_holders(
    kept: &[Slot4; MAX_POOL],
    count: u8,
    clock: u64,
) -> ArrayVec<Option<Holder<Key4>>, MAX_POOL>
    requires { count ≤ 16 }
    ensures holders { result.items ≡ map (λ slot. holder_of (live4 clock slot)) (take count kept.now) }
    ensures size { length result.items ≡ count }
    ensures whole { length kept.now ≡ 16 }
{
    let mut holders = ArrayVec::new();
    for slot in &kept[..usize::from(count)] {
        holders.push(live_holder(*slot, clock));
    }
    holders
}

/// What is kept of a pool's slots. Those past the pool are free.
pub fn kept_slots(holders: &[Option<Holder<Key4>>], clock: u64) -> [Slot4; MAX_POOL]
    requires { length holders.now ≤ 16 }
    ensures { result ≡ kept_slots clock holders.now }
{
    let mut slots = [Slot4::Free; MAX_POOL];
    for (i, holder) in holders.iter().enumerate() {
        slots[i] = slot_of(kept(*holder, clock));
    }
    slots
}
