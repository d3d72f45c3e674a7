//! A table of slots.
ghost use Rattle.std.specs.Prelude.{◌≡◌, ◌<◌, length, IfSome};
ghost use Rattle.std.specs.List.{position};
ghost use Rattle.slots.specs.Lookup.{is_vacant, is_bound_to, is_offered_to, picked_slot};
ghost use Rattle.slots.specs.Slots.{AreDistinct, with_slot};
ghost use Rattle.slots.specs.Used.{IsUsed, used_after};

use crate::holder::{Holder, is_bound, is_offered, is_vacant};
use crate::key::SlotKey;
use crate::lookup::{first_bound, first_vacant};
use crate::write::{clients_slot, write_slot};
use arrayvec::ArrayVec;
use std::marker::Model;
use types::MAX_POOL;

/// What each slot of a pool holds, 0 the lowest. No client has two slots.
#[derive(Drop)]
pub struct SlotTable<K: SlotKey> {
    // Nobody holds a slot from this one on, so that look-ups don't read them: a slot is large, and
    // the lowest one that is free is given out first.
    used: usize,
    slots: ArrayVec<Option<Holder<K>>, MAX_POOL>,
}

impl<K: SlotKey> Model for SlotTable<K> {
    ghost use Rattle.std.specs.Prelude.{List, Option};
    ghost use Rattle.slots.specs.declared.holder.Holder.{Holder};
    ghost use Rattle.slots.specs.Used.{IsTable};

    ghost Value = { List (Option (Holder K)) };

    ghost view = { λ t. t.slots.items };

    ghost invariant = { λ t. IsTable K.eq t.used t.slots.items };
}

impl<K: SlotKey> SlotTable<K> {
    /// The table of these slots.
    pub fn of(slots: ArrayVec<Option<Holder<K>>, MAX_POOL>) -> SlotTable<K>
        requires { AreDistinct K.eq slots.items }
        ensures { result ≡ slots.items }
    {
        let used = used_slots(slots.as_slice());
        SlotTable { used, slots }
    }

    /// What each slot holds.
    pub fn slots(&self) -> &[Option<Holder<K>>]
        ensures value { result.now ≡ self.now }
        ensures distinct { AreDistinct K.eq self.now }
    {
        self.slots.as_slice()
    }

    /// The slot that this client has a live binding of.
    pub fn bound_slot(&self, client: &K, clock: u64) -> Option<usize>
        ensures slot { result ≡ position (is_bound_to K.eq clock client.now) self.now }
        ensures below { IfSome result (λ slot. slot < length self.now) }
    {
        first_bound(&self.slots.as_slice()[..self.used], client, clock)
    }

    /// The slots that this client has a live binding and a live offer of. It has one of the two at most, since no client has two
    /// slots.
    pub fn held_slots(&self, client: &K, clock: u64) -> (Option<usize>, Option<usize>)
        ensures bound { result.0 ≡ position (is_bound_to K.eq clock client.now) self.now }
        ensures offered { result.1 ≡ position (is_offered_to K.eq clock client.now) self.now }
        ensures bound_below { IfSome result.0 (λ slot. slot < length self.now) }
        ensures offered_below { IfSome result.1 (λ slot. slot < length self.now) }
    {
        let slots = self.slots.as_slice();
        let Some(slot) = clients_slot(slots, self.used, client) else {
            return (None, None);
        };
        let held = &slots[slot];
        (
            is_bound(held, clock).then_some(slot),
            is_offered(held, clock).then_some(slot),
        )
    }

    /// The slot for a client: the one that it has, the one that it asks for where that is vacant, the first
    /// vacant one.
    pub fn picked_slot(
        &self,
        own_slot: Option<usize>,
        requested_slot: Option<usize>,
        clock: u64,
    ) -> Option<usize>
        requires own { IfSome own_slot (λ slot. slot < length self.now) }
        requires requested { IfSome requested_slot (λ slot. slot < length self.now) }
        ensures slot { result ≡ picked_slot clock self.now own_slot requested_slot }
        ensures below { IfSome result (λ slot. slot < length self.now) }
    {
        if own_slot.is_some() {
            return own_slot;
        }
        if let Some(slot) = requested_slot {
            if is_vacant(&self.slots[slot], clock) {
                return requested_slot;
            }
        }
        self.vacant_slot(clock)
    }

    /// The first vacant slot.
    fn vacant_slot(&self, clock: u64) -> Option<usize>
        ensures slot { result ≡ position (is_vacant clock) self.now }
        ensures below { IfSome result (λ slot. slot < length self.now) }
    {
        let held = first_vacant(&self.slots.as_slice()[..self.used], clock);
        if held.is_some() {
            return held;
        }
        if self.used < self.slots.len() {
            Some(self.used)
        } else {
            None
        }
    }

    /// Gives a slot a new holder, who keeps no other slot. A slot past the end is ignored.
    pub fn write(&mut self, slot: usize, holder: Option<Holder<K>>)
        ensures { self.new ≡ with_slot K.eq slot holder self.old }
    {
        write_slot(self.slots.as_mut_slice(), self.used, slot, holder);
        self.used = used_after(self.used, slot, self.slots.len());
    }
}

/// How many slots may be held after this one of so many was written.
fn used_after(used: usize, slot: usize, count: usize) -> usize
    ensures { result ≡ used_after used slot count }
{
    if used <= slot && slot < count {
        slot + 1
    } else {
        used
    }
}

/// How many slots there are up to the last one that is held.
fn used_slots<K>(slots: &[Option<Holder<K>>]) -> usize
    ensures { IsUsed result slots.now }
{
    let mut used = slots.len();
    'slots: while used > 0 {
        if slots[used - 1].is_some() {
            return used;
        }
        used -= 1;
    }
    0
}
