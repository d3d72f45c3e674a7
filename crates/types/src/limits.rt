//! Limits that belong to no single type, and those of values that several crates read.

/// The most circuits of a configuration.
pub const MAX_CIRCUITS: usize = 1024;

/// The most relays of a configuration.
pub const MAX_RELAYS: usize = 8;

/// The most bytes of a client's frame.
pub const MAX_FRAME: usize = 1024;

/// The most bytes of a datagram between relay and server.
pub const MAX_DATAGRAM: usize = 1280;

/// The fewest bytes of a DUID, the two of its type included (RFC 8415, section 11.1).
pub const MIN_DUID: usize = 3;

/// The most bytes of a DUID, the two of its type included (RFC 8415, section 11.1).
pub const MAX_DUID: usize = 130;

/// The last region of a disk.
pub const MAX_REGION: u32 = 1023;

/// How many slots a circuit has, of both protocols.
pub const SLOTS: usize = 32;

/// The first slot of a circuit's DHCPv6 pool. Those of its DHCPv4 pool come before it.
pub const FIRST_SLOT6: usize = 16;

/// The most datagrams of a batch.
pub const MAX_BATCH: usize = 16;
