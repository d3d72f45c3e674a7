//! Where a datagram goes.

/// The direction of a datagram.
#[derive(Clone, Copy, PartialEq, Eq)]
pub enum Dir {
    /// Towards the server.
    Up,
    /// Towards the relay.
    Down,
}
