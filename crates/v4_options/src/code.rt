//! The codes of the options and suboptions that this server uses by name.

/// The pad, a single byte that is ignored (RFC 2132, section 3.1).
pub const PAD: u8 = 0;

/// The subnet mask, 4 bytes (RFC 2132, section 3.3).
pub const SUBNET_MASK: u8 = 1;

/// Routers, 4 bytes each (RFC 2132, section 3.5).
pub const ROUTER: u8 = 3;

/// Name servers, 4 bytes each (RFC 2132, section 3.8).
pub const DOMAIN_NAME_SERVER: u8 = 6;

/// The address that a client requests, 4 bytes (RFC 2132, section 9.1).
pub const REQUESTED_ADDRESS: u8 = 50;

/// The lease time in seconds, 4 bytes (RFC 2132, section 9.2).
pub const LEASE_TIME: u8 = 51;

/// Set where sname or file holds options too (RFC 2132, section 9.3).
pub const OPTION_OVERLOAD: u8 = 52;

/// The DHCP message type, 1 byte (RFC 2132, section 9.6).
pub const MESSAGE_TYPE: u8 = 53;

/// The server that sent a message or that should receive it, 4 bytes (RFC 2132, section 9.7).
pub const SERVER_IDENTIFIER: u8 = 54;

/// T1, the seconds until a client renews, 4 bytes (RFC 2132, section 9.11).
pub const RENEWAL_TIME: u8 = 58;

/// T2, the seconds until a client rebinds, 4 bytes (RFC 2132, section 9.12).
pub const REBINDING_TIME: u8 = 59;

/// The identifier that a client gives itself, 2 bytes or more (RFC 2132, section 9.14).
pub const CLIENT_IDENTIFIER: u8 = 61;

/// What a relay agent adds, a list of suboptions (RFC 3046, section 2.0).
pub const RELAY_AGENT_INFORMATION: u8 = 82;

/// The end of the options; the bytes after it are ignored (RFC 2132, section 3.2).
pub const END: u8 = 255;

/// The suboption that names the client's circuit (RFC 3046, section 3.1).
pub const CIRCUIT_ID: u8 = 1;

/// The suboption with the address that clients see as the server's, 4 bytes (RFC 5107, section 4).
pub const SERVER_IDENTIFIER_OVERRIDE: u8 = 11;
