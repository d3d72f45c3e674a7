//! How relay and server are to serve.

/// How relay and server are to serve.
#[derive(Clone, Copy)]
pub struct ServeOptions {
    /// The first of the circuits' ports.
    pub port: u16,
    /// How many datagrams the server takes at most in a turn.
    pub batch: u8,
    /// How many circuits are served at most.
    pub most_circuits: u16,
}
