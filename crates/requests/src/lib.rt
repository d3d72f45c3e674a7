//! What a datagram at the server is: of which circuit, and what its client asks there.
#![tactic(auto)]

mod addressee4;
mod addressee6;
pub mod laws;
mod relayed_message;
mod request4;
mod request6;

pub use relayed_message::{RelayedMessage, addressee};
pub use request4::request4_in;
pub use request6::request6_in;
