//! What a book decides on a client's message.
use exchange::Reply6;
use types::{Discard, Moment, Slot6};

/// What a client is answered, and what the answer changes. Nothing is changed until `Book6::commit`.
#[derive(Drop)]
pub struct Decision6 {
    /// The clock by which it was decided.
    pub clock: Moment,
    /// A reply, or why there is none.
    pub answer: Result<Reply6, Discard>,
    /// What it changes on the disk: it has to be saved before the reply leaves.
    pub keep: Option<KeptSlot>,
}

/// A slot of the pool, 0 the lowest, and what it holds from now on.
#[derive(Clone, Copy, PartialEq, Eq)]
pub struct KeptSlot {
    pub slot: usize,
    pub content: Slot6,
}
