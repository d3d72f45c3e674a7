//! What a book decides on a client's message.
use exchange::Reply4;
use types::{Discard, Key4, Moment, Slot4};

/// What a client is answered, and what the answer changes. Nothing is changed until `Book4::commit`.
#[derive(Clone, Copy, PartialEq, Eq)]
pub struct Decision4 {
    /// The clock by which it was decided.
    pub clock: Moment,
    /// A reply, or why there is none.
    pub answer: Result<Reply4, Discard>,
    pub change: Change4,
}

/// What a decision changes: one slot at most.
#[derive(Clone, Copy, PartialEq, Eq)]
pub enum Change4 {
    Nothing,
    /// What is offered, which is in memory alone.
    Offers(OfferChange),
    /// What is kept on the disk: it has to be saved before the reply leaves.
    Keeps(KeptSlot),
}

/// A change of what is offered.
#[derive(Clone, Copy, PartialEq, Eq)]
pub enum OfferChange {
    /// This slot is offered to this client until this moment, in seconds, and no other slot is.
    Made(usize, Key4, u64),
    /// This slot is offered no longer.
    Withdrawn(usize),
}

/// A slot of the pool, 0 the lowest, and what it holds from now on.
#[derive(Clone, Copy, PartialEq, Eq)]
pub struct KeptSlot {
    pub slot: usize,
    pub content: Slot4,
}
