//! The offsets and lengths of a message's fields, in bytes (RFC 2131, section 2).

pub const OP: usize = 0;

pub const HTYPE: usize = 1;

pub const HLEN: usize = 2;

pub const HOPS: usize = 3;

pub const XID: usize = 4;

pub const SECS: usize = 8;

pub const FLAGS: usize = 10;

pub const CIADDR: usize = 12;

pub const YIADDR: usize = 16;

pub const SIADDR: usize = 20;

pub const GIADDR: usize = 24;

pub const CHADDR: usize = 28;

pub const SNAME: usize = 44;

pub const FILE: usize = 108;

pub const COOKIE: usize = 236;

pub const OPTIONS: usize = 240;

/// The length of an address: ciaddr, yiaddr, siaddr and giaddr, and options 50 and 54.
pub const ADDR_LEN: usize = 4;

pub const SNAME_LEN: usize = 64;

pub const FILE_LEN: usize = 128;

pub const COOKIE_LEN: usize = 4;

/// Ethernet, the only supported hardware type (RFC 1700, "Hardware Type").
pub const ETHERNET: u8 = 1;

/// The length of an Ethernet address.
pub const ETHERNET_LEN: u8 = 6;

/// The four bytes before the options (RFC 2131, section 3).
pub const MAGIC_COOKIE: [u8; 4] = [99, 130, 83, 99];
