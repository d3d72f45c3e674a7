//! What is kept of one address of a DHCPv4 pool.
ghost use Rattle.std.specs.Prelude.{◌≡◌};
ghost use Rattle.types.specs.Slots.{live4};

use crate::key4::Key4;

/// What a region keeps of one address. A moment is in seconds; what has one is live while
/// that is greater than the circuit's clock.
#[derive(Clone, Copy, PartialEq, Eq)]
pub enum Slot4 {
    Free,
    /// Leased to this client until this moment.
    Bound(Key4, u64),
    /// A client declined it: given to nobody until this moment.
    Barred(u64),
}

impl Slot4 {
    /// The slot at a clock, in seconds: free where what it holds has expired.
    pub fn live_at(self, clock: u64) -> Slot4
        ensures { result ≡ live4 clock self }
    {
        match self {
            Slot4::Bound(_, until) | Slot4::Barred(until) if until <= clock => Slot4::Free,
            live => live,
        }
    }
}
