//! The book of one circuit's DHCPv4 leases.
ghost use Rattle.std.specs.Prelude.{◌≡◌, ◌+◌, ◌<◌, ◌≤◌, ℕ, true, is_some, length, option_map, map, slice_index_or, IfSome, All};
ghost use Rattle.slots.specs.Kept.{AreOffersWithin, AreWithin};
ghost use Rattle.slots.specs.Lookup.{live, slot_in, until_of};
ghost use Rattle.types.specs.Addr.{number4};
ghost use Rattle.types.specs.Slots.{IsWithin4, live4, none_twice, same_client4};
ghost use Rattle.types.specs.declared.slot4.Slot4.TheVariants.{Free};
ghost use Rattle.bindings_v4.specs.Decision4.{IsOffer, decision_of, kept_slot, offer_change};
ghost use Rattle.bindings_v4.specs.Kept4.{EndsBy, book4_in, keep_in, kept_book, kept_slots};
ghost use Rattle.bindings_v4.specs.Lookup4.{IsAt, IsLookup, lookup_of};
ghost use Rattle.bindings_v4.specs.Slots4.{AreSlots, IsOfferWithin, book4_of, with_decision, with_written, without_offers};
ghost use Rattle.bindings_v4.specs.Table4.{answer4, lookup_in, row4};

use crate::case4::{Case4, SlotAddress};
use crate::decision4::Decision4;
use crate::kept::{kept_slots, live_holders};
use crate::table4::{Lookup4, decision_for};
use crate::write::{withdraw_offers, write_change};
use exchange::Request4;
use slots::{Holder, SlotTable};
use std::marker::Model;
use types::{Addr4, Key4, Moment, Pool4, Slots};

/// The leases of one circuit's pool, by slot. It has no clock: what has expired counts no longer, and
/// stays until its slot or its client gets something new.
#[derive(Drop)]
pub struct Book4 {
    pool: Pool4,
    slots: SlotTable<Key4>,
}

impl Model for Book4 {
    ghost use Rattle.bindings_v4.specs.Slots4.{PoolSlots};

    ghost Value = { PoolSlots };

    ghost use Rattle.bindings_v4.specs.Slots4.{AreSlots};

    ghost view = { λ b. record { pool = b.pool; slots = b.slots } };

    ghost invariant = { λ b. AreSlots b.pool b.slots };
}

impl Book4 {
    /// The book that the slots of a region mean, without what has expired by their clock.
    pub fn new(pool: Pool4, slots: &Slots) -> Book4
        requires past { (i : ℕ) → pool.count ≤ i → slice_index_or slots.now.four i Free ≡ Free }
        requires once { none_twice same_client4 (map (live4 slots.now.clock) slots.now.four) ≡ true }
        ensures pool { result.pool ≡ pool }
        ensures book { book4_of slots.now.clock result ≡ book4_in pool slots.now }
        ensures within { All IsWithin4 slots.now.four → AreWithin result.slots }
        ensures offers { AreOffersWithin result.slots }
        ensures kept { kept_slots slots.now.clock result.slots ≡ map (live4 slots.now.clock) slots.now.four }
    {
        let holders = live_holders(&slots.four, pool.count(), slots.clock.seconds());
        Book4 {
            pool,
            slots: SlotTable::of(holders),
        }
    }

    /// Writes what has to be kept of the book at the slots' clock: live bindings and bars. Offers are
    /// in memory only.
    pub fn put(&self, slots: &mut Slots)
        ensures four { slots.new.four ≡ kept_slots slots.old.clock self.now.slots }
        ensures six { slots.new.six ≡ slots.old.six }
        ensures clock { slots.new.clock ≡ slots.old.clock }
        ensures book { book4_in self.now.pool slots.new ≡ kept_book (book4_of slots.old.clock self.now) }
        ensures past { (i : ℕ) → self.now.pool.count ≤ i → slice_index_or slots.new.four i Free ≡ Free }
        ensures live { All (λ slot. live4 slots.old.clock slot ≡ slot) slots.new.four }
        ensures once { none_twice same_client4 slots.new.four ≡ true }
        ensures within { AreWithin self.now.slots → All IsWithin4 slots.new.four }
    {
        slots.four = kept_slots(self.slots(), slots.clock.seconds());
    }

    /// What a client's message calls for at this clock. Nothing is changed.
    pub fn decide(&self, request: &Request4, clock: Moment) -> Decision4
        ensures exact { result
            ≡ decision_of (number4 self.now.pool.first) clock request.now.key
            (row4 self.now.pool clock (book4_of clock self.now) request.now) }
        ensures clock { result.clock ≡ clock }
        ensures keep { is_some (kept_slot result.change) ≡ (answer4 self.now.pool clock (book4_of clock self.now) request.now).is_kept }
        ensures answer { result.answer ≡ (answer4 self.now.pool clock (book4_of clock self.now) request.now).answer }
        ensures book { book4_of clock (with_decision result self.now)
            ≡ (answer4 self.now.pool clock (book4_of clock self.now) request.now).book }
        ensures within { IfSome (kept_slot result.change) (λ kept. EndsBy (clock + 604800) kept.content) }
        ensures slot { IfSome (kept_slot result.change) (λ kept. kept.slot < self.now.pool.count) }
        ensures offer { IfSome (offer_change result.change) (IsOffer clock self.now.pool.count) }
        ensures few { self.now.pool.count ≤ 16 }
        ensures size { length self.now.slots ≡ self.now.pool.count }
        ensures others { map (live clock) (with_decision result self.now).slots ≡ map (live clock) (with_written result self.now.slots) }
        ensures kept { kept_slots clock (with_decision result self.now).slots
            ≡ keep_in (kept_slot result.change) (kept_slots clock self.now.slots) }
    {
        let found = self.look_up(request, clock);
        let case = Case4 {
            pool: self.pool(),
            clock,
            client: &request.key,
        };
        decision_for(&case, &found, request)
    }

    /// Makes a decision's changes.
    pub fn commit(&mut self, decision: &Decision4)
        ensures slots { self.new ≡ with_decision decision.now self.old }
        ensures pool { self.new.pool ≡ self.old.pool }
        ensures within { AreWithin self.old.slots
            → IfSome (kept_slot decision.now.change) (λ kept. IsWithin4 kept.content) → AreWithin self.new.slots }
        ensures offers { AreOffersWithin self.old.slots → IfSome (offer_change decision.now.change) IsOfferWithin
            → AreOffersWithin self.new.slots }
    {
        write_change(&mut self.slots, &decision.change);
    }

    /// Drops every offer, live or expired. Bindings and bars stay.
    pub fn withdraw_offers(&mut self)
        ensures slots { self.new ≡ record self.old { slots = without_offers self.old.slots } }
        ensures pool { self.new.pool ≡ self.old.pool }
        ensures book { (clock : ℕ) → book4_of clock self.new ≡ kept_book (book4_of clock self.old) }
        ensures kept { (clock : ℕ) → kept_slots clock self.new.slots ≡ kept_slots clock self.old.slots }
        ensures within { AreWithin self.old.slots → AreWithin self.new.slots }
        ensures offers { AreOffersWithin self.new.slots }
    {
        withdraw_offers(&mut self.slots);
    }

    /// Until when a slot of the pool is held, live or expired, in seconds; `None` where nobody holds it, or
    /// there is none.
    pub fn until(&self, slot: usize) -> Option<u64>
        ensures { result ≡ option_map until_of (slice_index_or self.now.slots slot None) }
    {
        match self.slots().get(slot) {
            Some(Some(holder)) => Some(holder.until()),
            _ => None,
        }
    }

    /// What the table looks at of this client.
    fn look_up(&self, request: &Request4, clock: Moment) -> Lookup4
        ensures found { lookup_of result ≡ lookup_in self.now.pool (book4_of clock self.now) request.now }
        ensures at { IsLookup self.now.pool result }
        ensures slots { AreSlots self.now.pool self.now.slots }
    {
        let (slots, key, seconds) = (&self.slots, &request.key, clock.seconds());
        let (bound, offered) = slots.held_slots(key, seconds);
        let wanted = self.slot_of(request.wanted);
        let picked = slots.picked_slot(bound.or(offered), wanted, seconds);
        Lookup4 {
            binding: self.located(bound),
            offer: self.located(offered),
            pick: self.located(picked),
        }
    }

    /// The slot of the address that a client asks for.
    fn slot_of(&self, wanted: Option<Addr4>) -> Option<usize>
        ensures slot { result ≡ slot_in (number4 self.now.pool.first) self.now.pool.count (option_map number4 wanted) }
        ensures below { IfSome result (λ slot. slot < self.now.pool.count) }
    {
        self.pool.slot(wanted?)
    }

    /// A slot of the pool with its address.
    fn located(&self, slot: Option<usize>) -> Option<SlotAddress>
        requires { IfSome slot (λ slot. slot < self.now.pool.count) }
        ensures address { option_map (λ found. number4 found.address) result
            ≡ option_map (λ slot. number4 self.now.pool.first + slot) slot }
        ensures at { IfSome result (λ found. IsAt self.now.pool found) }
    {
        let slot = slot?;
        let address = self.pool.address(slot)?;
        Some(SlotAddress { slot, address })
    }

    /// The pool whose leases these are.
    fn pool(&self) -> Pool4
        ensures { result ≡ self.now.pool }
    {
        self.pool
    }

    /// What each slot of the pool holds; no client has two.
    pub fn slots(&self) -> &[Option<Holder<Key4>>]
        ensures value { result.now ≡ self.now.slots }
        ensures within { AreSlots self.now.pool self.now.slots }
    {
        self.slots.slots()
    }
}
