//! The sockets of relay, server and circuits, and what goes to a client.
#![tactic(auto)]

mod frame;
mod sockets;
mod warnings;

pub use frame::{proto_of, put_front};
pub use sockets::{CircuitSockets, SocketFault, Sockets, client};
pub use warnings::{Warning, clients_address, warn};
