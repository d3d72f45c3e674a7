//! What a circuit's book and its region exchange.
use crate::moment::Moment;
use crate::pool4::MAX_POOL;
use crate::slot4::Slot4;
use crate::slot6::Slot6;

/// One circuit's leases and bars, by address: a slot for each address that a pool can have, in the
/// pool's order, and the circuit's clock. Slots past a pool's count are free.
#[derive(Clone, Copy)]
pub struct Slots {
    pub four: [Slot4; MAX_POOL],
    pub six: [Slot6; MAX_POOL],
    pub clock: Moment,
}
