//! The values that every crate speaks of, each within its limits, and the numbered reasons for which
//! a frame or a datagram is dropped.
#![tactic(auto)]

mod addr;
mod circuit;
mod circuit_id;
mod count;
mod delivery;
mod dest;
mod discard;
pub mod duid;
mod key4;
mod key6;
mod kind4;
mod kind6;
pub mod laws;
mod limits;
mod memory;
mod moment;
mod pool4;
mod pool6;
mod relay_no;
mod slot4;
mod slot6;
mod slots;

pub use addr::{Addr4, Addr6, Source};
pub use circuit::Circuit;
pub use circuit_id::{CircuitId, MAX_CIRCUIT_ID};
pub use count::Count;
pub use delivery::Delivery;
pub use dest::{Dest, Proto};
pub use discard::Discard;
pub use key4::{Key4, MAX_KEY4, MIN_KEY4};
pub use key6::Key6;
pub use kind4::Kind4;
pub use kind6::Kind6;
pub use limits::{
    FIRST_SLOT6, MAX_BATCH, MAX_CIRCUITS, MAX_DATAGRAM, MAX_DUID, MAX_FRAME, MAX_REGION,
    MAX_RELAYS, MIN_DUID, SLOTS,
};
pub use memory::Memory;
pub use moment::{LAST_MOMENT, Moment};
pub use pool4::{MAX_LEASE, MAX_POOL, MIN_LEASE, Pool4};
pub use pool6::Pool6;
pub use relay_no::RelayNo;
pub use slot4::Slot4;
pub use slot6::Slot6;
pub use slots::Slots;
