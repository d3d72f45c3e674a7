//! Batches: several datagrams that reach the server at one moment.
ghost use Rattle.std.specs.Prelude.{◌≡◌};
ghost use Rattle.events.specs.Batch.{are_apart, is_batch, is_named, part_fault};

use types::{Circuit, Discard, MAX_BATCH};

/// The part of one circuit in a batch: a datagram of that circuit towards the server.
#[derive(Clone, Copy, PartialEq, Eq)]
pub struct BatchPart {
    pub circuit: Circuit,
    /// Which datagram of the circuit it is, 0 the newest.
    pub number: u16,
    /// Which write of this part's save fails, 1, 3 or 5 as calls of a save count; any other number none.
    pub fault: u8,
}

/// What came of one part of a batch.
#[derive(Clone, Copy, PartialEq, Eq)]
pub enum PartOutcome {
    /// There is no such circuit or datagram.
    Gone,
    /// The datagram was dropped.
    Dropped(Discard),
    /// The server sent a datagram of this many bytes to the relay.
    SentDown(u16),
}

/// Whether a part is of this circuit.
fn is_named(parts: &[BatchPart], circuit: Circuit) -> bool
    ensures { result ≡ is_named circuit parts.now }
{
    parts.iter().any(|part| part.circuit == circuit)
}

/// Whether each of these parts is of another circuit.
fn are_apart(parts: &[BatchPart]) -> bool
    ensures { result ≡ are_apart parts.now }
{
    let mut rest = parts;
    'parts: while let Some((part, after)) = rest.split_first() {
        if is_named(after, part.circuit) {
            return false;
        }
        rest = after;
    }
    true
}

/// Whether these are the parts of a batch: 1 to 16, each of another circuit.
pub fn is_batch(parts: &[BatchPart]) -> bool
    ensures { result ≡ is_batch parts.now }
{
    !parts.is_empty() && parts.len() <= MAX_BATCH && are_apart(parts)
}

/// Which call of a part's save fails, where this shared sync fails, 2, 4 or 6, and this write, 1, 3 or 5: whichever comes
/// first. Any other number is none; 0 is none.
pub fn part_fault(sync: u8, fault: u8) -> u8
    ensures { result ≡ part_fault sync fault }
{
    match (sync, fault) {
        (2 | 4 | 6, 1 | 3 | 5) => sync.min(fault),
        (2 | 4 | 6, _) => sync,
        (_, 1 | 3 | 5) => fault,
        _ => 0,
    }
}
