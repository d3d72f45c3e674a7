//! The codes of the options that this server uses by name.

/// The DUID of a client (RFC 8415, section 21.2).
pub const CLIENT_ID: u16 = 1;

/// The DUID of a server (RFC 8415, section 21.3).
pub const SERVER_ID: u16 = 2;

/// An identity association for non-temporary addresses: IAID, T1, T2, 4 bytes each, then options
/// (RFC 8415, section 21.4).
pub const IA_NA: u16 = 3;

/// An address in an IA_NA: 16 bytes, its preferred and valid lifetimes, 4 bytes each, then options
/// (RFC 8415, section 21.6).
pub const IA_ADDRESS: u16 = 5;

/// The message that a relay passes on (RFC 8415, section 21.10).
pub const RELAY_MESSAGE: u16 = 9;

/// A status of two bytes, and a text (RFC 8415, section 21.13).
pub const STATUS_CODE: u16 = 13;

/// What a relay tells its client's link by (RFC 8415, section 21.18).
pub const INTERFACE_ID: u16 = 18;
