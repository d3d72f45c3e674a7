//! The relays: a client's frame becomes a datagram for the server, and a datagram from the server
//! becomes a frame for a circuit.
#![tactic(auto)]

mod down4;
mod down6;
pub mod laws;
mod relays;
mod up4;
mod up6;

pub use relays::Relays;
pub use types::Memory;
