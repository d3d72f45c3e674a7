//! The book of one circuit's DHCPv6 leases.
ghost use Rattle.std.specs.Prelude.{◌≡◌, ◌+◌, ◌<◌, ◌≤◌, ℕ, true, is_some, length, option_map, map, slice_index_or, IfSome, All};
ghost use Rattle.slots.specs.Kept.{AreOffersWithin, AreWithin};
ghost use Rattle.slots.specs.Lookup.{live, slot_in, until_of};
ghost use Rattle.types.specs.Addr.{number6};
ghost use Rattle.types.specs.Slots.{IsWithin6, live6, none_twice, same_client6};
ghost use Rattle.types.specs.declared.slot6.Slot6.TheVariants.{Free};
ghost use Rattle.bindings_v6.specs.Decision6.{decision_of};
ghost use Rattle.bindings_v6.specs.Kept6.{EndsBy, book6_in, keep_in, kept_slots};
ghost use Rattle.bindings_v6.specs.Lookup6.{IsAt, IsLookup, lookup_of};
ghost use Rattle.bindings_v6.specs.Slots6.{AreSlots, book6_of, with_decision, with_written};
ghost use Rattle.bindings_v6.specs.Table6.{answer6, lookup_in, row6};

use crate::case6::{Case6, SlotAddress};
use crate::decision6::Decision6;
use crate::kept::{holder_of, kept_slots, live_holders};
use crate::table6::{Lookup6, decision_for, first_listed};
use exchange::Request6;
use slots::{Holder, SlotTable};
use std::marker::Model;
use types::{Addr6, Key6, Moment, Pool6, Slots};

/// The leases of one circuit's pool, by slot. It has no clock: what has expired counts no longer, and
/// stays until its slot or its client gets something new.
#[derive(Drop)]
pub struct Book6 {
    pool: Pool6,
    slots: SlotTable<Key6>,
}

impl Model for Book6 {
    ghost use Rattle.bindings_v6.specs.Slots6.{PoolSlots};

    ghost Value = { PoolSlots };

    ghost use Rattle.bindings_v6.specs.Slots6.{AreSlots};

    ghost view = { λ b. record { pool = b.pool; slots = b.slots } };

    ghost invariant = { λ b. AreSlots b.pool b.slots };
}

impl Book6 {
    /// The book that the slots of a region mean, without what has expired by their clock.
    pub fn new(pool: Pool6, slots: &Slots) -> Book6
        requires past { (i : ℕ) → pool.count ≤ i → slice_index_or slots.now.six i Free ≡ Free }
        requires once { none_twice same_client6 (map (live6 slots.now.clock) slots.now.six) ≡ true }
        ensures pool { result.pool ≡ pool }
        ensures book { book6_of slots.now.clock result ≡ book6_in pool slots.now }
        ensures within { All IsWithin6 slots.now.six → AreWithin result.slots }
        ensures offers { AreOffersWithin result.slots }
        ensures kept { kept_slots slots.now.clock result.slots ≡ map (live6 slots.now.clock) slots.now.six }
    {
        let holders = live_holders(&slots.six, pool.count(), slots.clock.seconds());
        Book6 {
            pool,
            slots: SlotTable::of(holders),
        }
    }

    /// Writes what has to be kept of the book at the slots' clock: live bindings and bars.
    pub fn put(&self, slots: &mut Slots)
        ensures six { slots.new.six ≡ kept_slots slots.old.clock self.now.slots }
        ensures four { slots.new.four ≡ slots.old.four }
        ensures clock { slots.new.clock ≡ slots.old.clock }
        ensures book { book6_in self.now.pool slots.new ≡ book6_of slots.old.clock self.now }
        ensures past { (i : ℕ) → self.now.pool.count ≤ i → slice_index_or slots.new.six i Free ≡ Free }
        ensures live { All (λ slot. live6 slots.old.clock slot ≡ slot) slots.new.six }
        ensures once { none_twice same_client6 slots.new.six ≡ true }
        ensures within { AreWithin self.now.slots → All IsWithin6 slots.new.six }
    {
        slots.six = kept_slots(self.slots(), slots.clock.seconds());
    }

    /// What a client's message calls for at this clock. Nothing is changed.
    pub fn decide(&self, request: &Request6, clock: Moment) -> Decision6
        ensures exact { result
            ≡ decision_of (number6 self.now.pool.first) clock request.now.key
            (row6 self.now.pool clock (book6_of clock self.now) request.now) }
        ensures clock { result.clock ≡ clock }
        ensures keep { is_some result.keep ≡ (answer6 self.now.pool clock (book6_of clock self.now) request.now).is_kept }
        ensures answer { result.answer ≡ (answer6 self.now.pool clock (book6_of clock self.now) request.now).answer }
        ensures book { book6_of clock (with_decision result self.now)
            ≡ (answer6 self.now.pool clock (book6_of clock self.now) request.now).book }
        ensures within { IfSome result.keep (λ kept. EndsBy (clock + 604800) kept.content) }
        ensures slot { IfSome result.keep (λ kept. kept.slot < self.now.pool.count) }
        ensures few { self.now.pool.count ≤ 16 }
        ensures size { length self.now.slots ≡ self.now.pool.count }
        ensures others { map (live clock) (with_decision result self.now).slots ≡ map (live clock) (with_written result self.now.slots) }
        ensures kept { kept_slots clock (with_decision result self.now).slots ≡ keep_in result.keep (kept_slots clock self.now.slots) }
    {
        let found = self.look_up(request, clock);
        let case = Case6 {
            pool: self.pool(),
            clock,
            client: request.key,
        };
        decision_for(&case, &found, request)
    }

    /// Makes a decision's change.
    pub fn commit(&mut self, decision: &Decision6)
        ensures slots { self.new ≡ with_decision decision.now self.old }
        ensures pool { self.new.pool ≡ self.old.pool }
        ensures within { AreWithin self.old.slots → IfSome decision.now.keep (λ kept. IsWithin6 kept.content) → AreWithin self.new.slots }
        ensures offers { AreOffersWithin self.old.slots → AreOffersWithin self.new.slots }
    {
        if let Some(kept) = decision.keep {
            self.slots.write(kept.slot, holder_of(kept.content));
        }
    }

    /// Until when a slot of the pool is held, live or expired, in seconds; `None` where nobody holds it, or
    /// there is none.
    pub fn until(&self, slot: usize) -> Option<u64>
        ensures { result ≡ option_map until_of (slice_index_or self.now.slots slot None) }
    {
        match self.slots().get(slot) {
            Some(Some(holder)) => Some(holder.until()),
            _ => None,
        }
    }

    /// What the table looks at of this client.
    fn look_up(&self, request: &Request6, clock: Moment) -> Lookup6
        ensures found { lookup_of result ≡ lookup_in self.now.pool (book6_of clock self.now) request.now }
        ensures at { IsLookup self.now.pool result }
        ensures slots { AreSlots self.now.pool self.now.slots }
    {
        let (slots, key, seconds) = (&self.slots, &request.key, clock.seconds());
        let bound = slots.bound_slot(key, seconds);
        let wanted = self.slot_of(first_listed(request.listed.as_slice()));
        let picked = slots.picked_slot(bound, wanted, seconds);
        Lookup6 {
            binding: self.located(bound),
            pick: self.located(picked),
        }
    }

    /// The slot of the address that a client asks for.
    fn slot_of(&self, wanted: Option<Addr6>) -> Option<usize>
        ensures slot { result ≡ slot_in (number6 self.now.pool.first) self.now.pool.count (option_map number6 wanted) }
        ensures below { IfSome result (λ slot. slot < self.now.pool.count) }
    {
        self.pool.slot(wanted?)
    }

    /// A slot of the pool with its address.
    fn located(&self, slot: Option<usize>) -> Option<SlotAddress>
        requires { IfSome slot (λ slot. slot < self.now.pool.count) }
        ensures address { option_map (λ found. number6 found.address) result
            ≡ option_map (λ slot. number6 self.now.pool.first + slot) slot }
        ensures at { IfSome result (λ found. IsAt self.now.pool found) }
    {
        let slot = slot?;
        let address = Addr6::from_number(self.pool.address(slot)?.number());
        Some(SlotAddress { slot, address })
    }

    /// The pool whose leases these are.
    fn pool(&self) -> Pool6
        ensures { result ≡ self.now.pool }
    {
        self.pool
    }

    /// What each slot of the pool holds; no client has two.
    pub fn slots(&self) -> &[Option<Holder<Key6>>]
        ensures value { result.now ≡ self.now.slots }
        ensures within { AreSlots self.now.pool self.now.slots }
    {
        self.slots.slots()
    }
}
