//! Protocols, and where a frame towards a circuit goes.
use crate::addr::{Addr4, Addr6};

/// The protocol of a frame or a datagram.
#[derive(Clone, Copy, PartialEq, Eq)]
pub enum Proto {
    V4,
    V6,
}

/// Where the relay sends a frame in its circuit.
#[derive(Clone, Copy, PartialEq, Eq)]
pub enum Dest {
    /// To every client of the circuit.
    Broadcast,
    /// To this hardware address and this IPv4 address.
    Unicast([u8; 6], Addr4),
    /// To this link-local IPv6 address.
    Peer(Addr6),
}
