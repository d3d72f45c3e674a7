//! DHCPv6 leases of one circuit: who has which address of its pool, and what a client's message calls
//! for (RFC 8415, section 18.3). A book begins from a region's slots and writes itself back to them. No
//! bytes of messages, no clock and no disk: the caller has all three.
#![tactic(auto)]

mod book6;
mod case6;
mod decision6;
mod kept;
pub mod laws;
mod server6;
mod table6;

pub use book6::Book6;
pub use decision6::{Decision6, KeptSlot};
