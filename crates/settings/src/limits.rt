//! The limits of a configuration's values.

/// The most bytes of a relay's name.
pub const MAX_NAME: usize = 32;

/// The shortest DHCPv4 prefix.
pub const MIN_PREFIX4: u32 = 8;

/// The longest DHCPv4 prefix: two addresses for hosts.
pub const MAX_PREFIX4: u32 = 30;

/// The most name servers of a circuit.
pub const MAX_DNS: usize = 4;
