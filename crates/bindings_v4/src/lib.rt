//! DHCPv4 leases of one circuit: who has which address of its pool, and what a client's message calls
//! for (RFC 2131, section 4.3). A book begins from a region's slots and writes itself back to them. No
//! bytes of messages, no clock and no disk: the caller has all three.
#![tactic(auto)]

mod book4;
mod case4;
mod decision4;
mod kept;
pub mod laws;
mod server4;
mod table4;
mod write;

pub use book4::Book4;
pub use decision4::{Change4, Decision4, KeptSlot, OfferChange};
