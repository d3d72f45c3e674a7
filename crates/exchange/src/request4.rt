//! What a circuit's DHCPv4 book is asked, and what it answers.
use types::{Addr4, Key4, Kind4};

/// A client's message, as far as leases depend on it.
#[derive(Clone, Copy, PartialEq, Eq)]
pub struct Request4 {
    /// Option 53.
    pub kind: Kind4,
    pub key: Key4,
    /// Option 54, the server that the client speaks to.
    pub server: Option<Addr4>,
    /// Option 50, the address that the client asks for.
    pub wanted: Option<Addr4>,
    pub ciaddr: Addr4,
}

/// A reply, before it has bytes.
#[derive(Clone, Copy, PartialEq, Eq)]
pub enum Reply4 {
    /// A DHCPOFFER of this address.
    Offer(Addr4),
    /// A DHCPACK that leases this address.
    Ack(Addr4),
    /// A DHCPACK to a DHCPINFORM: parameters and no lease.
    Inform,
    /// A DHCPNAK.
    Nak,
}
