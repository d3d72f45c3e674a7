//! What is kept of one address of a DHCPv6 pool.
ghost use Rattle.std.specs.Prelude.{◌≡◌};
ghost use Rattle.types.specs.Slots.{live6};

use crate::key6::Key6;

/// What a region keeps of one address. A moment is in seconds; what has one
/// is live while that is greater than the circuit's clock.
#[derive(Clone, Copy, PartialEq, Eq)]
pub enum Slot6 {
    Free,
    /// Leased to this client until this moment.
    Bound(Key6, u64),
    /// A client declined it: given to nobody until this moment.
    Barred(u64),
}

impl Slot6 {
    /// The slot at a clock, in seconds: free where what it holds has expired.
    pub fn live_at(self, clock: u64) -> Slot6
        ensures { result ≡ live6 clock self }
    {
        match self {
            Slot6::Bound(_, until) | Slot6::Barred(until) if until <= clock => Slot6::Free,
            live => live,
        }
    }
}
