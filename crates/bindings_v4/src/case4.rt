//! The decisions that the rows of the table have.
ghost use Rattle.std.specs.Prelude.{◌≡◌, ◌+◌};
ghost use Rattle.types.specs.Addr.{number4, addr4};
ghost use Rattle.types.specs.declared.discard.Discard.TheVariants.{NothingToSay, OtherServer};
ghost use Rattle.exchange.specs.declared.request4.Reply4.TheVariants.{Offer};
ghost use Rattle.bindings_v4.specs.Lookup4.{IsAt, decision_in};
ghost use Rattle.slots.specs.Row.{Unchanged, Offers, Withdraws, Bars, Frees, drops, replies};
ghost use Rattle.bindings_v4.specs.Table4.{grants};

use crate::decision4::{Change4, Decision4, KeptSlot, OfferChange};
use exchange::Reply4;
use types::{Addr4, Discard, Key4, Moment, Pool4, Slot4};

/// How long an offer holds its address, in seconds.
const OFFER_TIME: u64 = 60;

/// How long an address that a client declined is given to nobody, in seconds.
const BAR_TIME: u64 = 3600;

/// A slot of the pool and its address.
#[derive(Clone, Copy)]
pub struct SlotAddress {
    pub slot: usize,
    pub address: Addr4,
}

/// What a decision is about: a pool, the clock and the client.
#[derive(Clone, Copy)]
pub struct Case4<'a> {
    pub pool: Pool4,
    pub clock: Moment,
    pub client: &'a Key4,
}

impl Case4<'_> {
    /// No answer and no change.
    pub fn drops(&self, why: Discard) -> Decision4
        ensures { result ≡ decision_in self.now (drops why Unchanged) }
    {
        Decision4 {
            clock: self.clock,
            answer: Err(why),
            change: Change4::Nothing,
        }
    }

    /// A reply and no change.
    pub fn replies(&self, reply: Reply4) -> Decision4
        ensures { result ≡ decision_in self.now (replies reply Unchanged) }
    {
        Decision4 {
            clock: self.clock,
            answer: Ok(reply),
            change: Change4::Nothing,
        }
    }

    /// A DHCPOFFER of the client's binding.
    pub fn reoffers(&self, held: SlotAddress) -> Decision4
        requires { IsAt self.now.pool held }
        ensures { result ≡ decision_in self.now (replies (Offer (addr4 (number4 held.address))) Unchanged) }
    {
        self.replies(Reply4::Offer(held.address))
    }

    /// A DHCPOFFER that holds the address for a minute.
    pub fn offers(&self, free: SlotAddress) -> Decision4
        requires { IsAt self.now.pool free }
        ensures { result
            ≡ decision_in self.now
            (replies (Offer (addr4 (number4 free.address))) (Offers (number4 free.address) (self.now.clock + 60))) }
    {
        let until = self.clock.seconds() + OFFER_TIME;
        Decision4 {
            clock: self.clock,
            answer: Ok(Reply4::Offer(free.address)),
            change: Change4::Offers(OfferChange::Made(free.slot, *self.client, until)),
        }
    }

    /// No answer, since the client speaks to another server; its offer is gone.
    pub fn withdraws(&self, offered: SlotAddress) -> Decision4
        requires { IsAt self.now.pool offered }
        ensures { result ≡ decision_in self.now (drops OtherServer (Withdraws (number4 offered.address))) }
    {
        Decision4 {
            change: Change4::Offers(OfferChange::Withdrawn(offered.slot)),
            ..self.drops(Discard::OtherServer)
        }
    }

    /// A DHCPACK that leases the address from now on.
    pub fn grants(&self, held: SlotAddress) -> Decision4
        requires { IsAt self.now.pool held }
        ensures { result ≡ decision_in self.now (grants (number4 held.address) (self.now.clock + self.now.pool.lease)) }
    {
        let until = self.clock.seconds() + u64::from(self.pool.lease());
        Decision4 {
            clock: self.clock,
            answer: Ok(Reply4::Ack(held.address)),
            change: Change4::Keeps(KeptSlot {
                slot: held.slot,
                content: Slot4::Bound(*self.client, until),
            }),
        }
    }

    /// No answer; the client's binding is gone, and the address is given to nobody for an hour.
    pub fn bars(&self, bound: SlotAddress) -> Decision4
        requires { IsAt self.now.pool bound }
        ensures { result ≡ decision_in self.now (drops NothingToSay (Bars (number4 bound.address) (self.now.clock + 3600))) }
    {
        let until = self.clock.seconds() + BAR_TIME;
        Decision4 {
            change: Change4::Keeps(KeptSlot {
                slot: bound.slot,
                content: Slot4::Barred(until),
            }),
            ..self.drops(Discard::NothingToSay)
        }
    }

    /// No answer; the client's binding is gone.
    pub fn frees(&self, bound: SlotAddress) -> Decision4
        requires { IsAt self.now.pool bound }
        ensures { result ≡ decision_in self.now (drops NothingToSay (Frees (number4 bound.address))) }
    {
        Decision4 {
            change: Change4::Keeps(KeptSlot {
                slot: bound.slot,
                content: Slot4::Free,
            }),
            ..self.drops(Discard::NothingToSay)
        }
    }
}
