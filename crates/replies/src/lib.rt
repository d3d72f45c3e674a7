//! The server's replies, of DHCPv4 (RFC 2131, section 4.3.1) and DHCPv6 (RFC 8415, sections 18.3 and
//! 19.3): their bytes, from what was decided, the request and the circuit's part of the configuration.
#![tactic(auto)]

pub mod laws;
mod reply4;
mod reply6;

pub use reply4::write4;
pub use reply6::write6;
