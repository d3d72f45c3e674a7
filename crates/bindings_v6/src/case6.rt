//! The replies and the decisions that the rows of the table have.
ghost use Rattle.std.specs.Prelude.{◌≡◌, ◌+◌, Some, None};
ghost use Rattle.types.specs.Addr.{number6, addr6};
ghost use Rattle.exchange.specs.declared.request6.Status6.TheVariants.{Success};
ghost use Rattle.bindings_v6.specs.Lookup6.{IsAt, decision_in};
ghost use Rattle.slots.specs.Row.{Unchanged, Bars, Frees, drops, replies};
ghost use Rattle.bindings_v6.specs.Table6.{grants, refusal, assignment, message_status};

use crate::decision6::{Decision6, KeptSlot};
use arrayvec::ArrayVec;
use exchange::{MAX_LISTED, Reply6, ReplyIa, ReplyKind6, Status6};
use types::{Addr6, Discard, Key6, Moment, Pool6, Slot6};

/// How long an address that a client declined is given to nobody, in seconds.
const BAR_TIME: u64 = 3600;

/// A slot of the pool and its address.
#[derive(Clone, Copy)]
pub struct SlotAddress {
    pub slot: usize,
    pub address: Addr6,
}

/// What a decision is about: a pool, the clock and the client.
#[derive(Clone, Copy)]
pub struct Case6 {
    pub pool: Pool6,
    pub clock: Moment,
    pub client: Key6,
}

/// An IA_NA without an address, and why.
pub fn refusal(kind: ReplyKind6, status: Status6) -> Reply6
    ensures { result ≡ refusal kind status }
{
    Reply6 {
        kind,
        status: None,
        ia: ReplyIa::Status(status),
    }
}

/// An IA_NA of these addresses with lifetimes of 0, and then of the address that the client has.
pub fn assignment(kind: ReplyKind6, zeroed: ArrayVec<Addr6, MAX_LISTED>, address: Addr6) -> Reply6
    requires { addr6 (number6 address) ≡ address }
    ensures { result ≡ assignment kind zeroed.items (number6 address) }
{
    Reply6 {
        kind,
        status: None,
        ia: ReplyIa::Given(zeroed, address),
    }
}

/// A status of the whole message, and no IA_NA.
pub fn message_status(status: Status6) -> Reply6
    ensures { result ≡ message_status status }
{
    Reply6 {
        kind: ReplyKind6::Reply,
        status: Some(status),
        ia: ReplyIa::None,
    }
}

impl Case6 {
    /// No answer and no change.
    pub fn drops(&self, why: Discard) -> Decision6
        ensures { result ≡ decision_in self.now (drops why Unchanged) }
    {
        Decision6 {
            clock: self.clock,
            answer: Err(why),
            keep: None,
        }
    }

    /// A reply and no change.
    pub fn replies(&self, reply: Reply6) -> Decision6
        ensures { result ≡ decision_in self.now (replies reply Unchanged) }
    {
        Decision6 {
            clock: self.clock,
            answer: Ok(reply),
            keep: None,
        }
    }

    /// A Reply that leases the address from now on, and has others with lifetimes of 0.
    pub fn grants(&self, zeroed: ArrayVec<Addr6, MAX_LISTED>, held: SlotAddress) -> Decision6
        requires { IsAt self.now.pool held }
        ensures { result ≡ decision_in self.now (grants zeroed.items (number6 held.address) (self.now.clock + self.now.pool.lease)) }
    {
        let until = self.clock.seconds() + u64::from(self.pool.lease());
        Decision6 {
            clock: self.clock,
            answer: Ok(assignment(ReplyKind6::Reply, zeroed, held.address)),
            keep: Some(KeptSlot {
                slot: held.slot,
                content: Slot6::Bound(self.client, until),
            }),
        }
    }

    /// The client's binding is gone, and the address is given to nobody for an hour.
    pub fn bars(&self, bound: SlotAddress) -> Decision6
        requires { IsAt self.now.pool bound }
        ensures { result ≡ decision_in self.now (replies (message_status Success) (Bars (number6 bound.address) (self.now.clock + 3600))) }
    {
        let until = self.clock.seconds() + BAR_TIME;
        Decision6 {
            clock: self.clock,
            answer: Ok(message_status(Status6::Success)),
            keep: Some(KeptSlot {
                slot: bound.slot,
                content: Slot6::Barred(until),
            }),
        }
    }

    /// The client's binding is gone.
    pub fn frees(&self, bound: SlotAddress) -> Decision6
        requires { IsAt self.now.pool bound }
        ensures { result ≡ decision_in self.now (replies (message_status Success) (Frees (number6 bound.address))) }
    {
        Decision6 {
            clock: self.clock,
            answer: Ok(message_status(Status6::Success)),
            keep: Some(KeptSlot {
                slot: bound.slot,
                content: Slot6::Free,
            }),
        }
    }
}
