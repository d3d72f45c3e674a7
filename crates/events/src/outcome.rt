//! What comes of an event.
use crate::batch::PartOutcome;
use types::{Circuit, Dest, Discard, MAX_BATCH};

/// What came of an event.
#[derive(Clone, Copy, PartialEq, Eq)]
pub enum Outcome {
    /// A frame or a datagram was dropped.
    Dropped(Discard),
    /// There is no such circuit, datagram or relay.
    Gone,
    /// The relay sent a datagram of this many bytes to the server.
    SentUp(usize),
    /// The server sent a datagram of this many bytes to the relay.
    SentDown(usize),
    /// A frame leaves the relay towards this circuit; its bytes are in the output buffer.
    Framed(Circuit, Dest),
    Done,
    /// What came of each part of a batch, in order; `None` past the last part.
    Batched([Option<PartOutcome>; MAX_BATCH]),
    /// A batch has 1 to 16 parts, each of another circuit. Nothing happened.
    NotABatch,
    /// The source of a stray is one of the configuration, so it is none. Nothing happened.
    NotAStray,
    /// There is no such plan. Nothing happened.
    NoPlan,
}
