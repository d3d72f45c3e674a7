//! What a circuit's DHCPv6 book is asked, and what it answers.
ghost use Rattle.std.specs.Prelude.{◌≡◌};
ghost use Rattle.exchange.specs.Reply6.{code_of_reply6, code_of_status6};

use arrayvec::ArrayVec;
use types::{Addr6, Key6, Kind6};

/// The most addresses that a client lists in an IA_NA.
pub const MAX_LISTED: usize = 4;

/// The server that a client speaks to (RFC 8415, section 21.3).
#[derive(Clone, Copy, PartialEq, Eq)]
pub enum ServerId {
    /// There is no server identifier.
    None,
    /// This server's DUID.
    Ours,
    Other,
}

/// A client's message, as far as leases depend on it.
#[derive(Drop)]
pub struct Request6 {
    /// The first byte of the message.
    pub kind: Kind6,
    /// The client's DUID (option 1) and the IAID of its IA_NA.
    pub key: Key6,
    /// Option 2.
    pub server: ServerId,
    /// The addresses in the IA_NA, in order; the same one may be there twice.
    pub listed: ArrayVec<Addr6, MAX_LISTED>,
}

/// The type of a reply (RFC 8415, section 7.3).
#[derive(Clone, Copy, PartialEq, Eq)]
pub enum ReplyKind6 {
    Advertise,
    Reply,
}

impl ReplyKind6 {
    /// The first byte of a reply of this type.
    pub fn code(self) -> u8
        ensures code { result ≡ code_of_reply6 self }
    {
        match self {
            ReplyKind6::Advertise => 2,
            ReplyKind6::Reply => 7,
        }
    }
}

/// A status code (RFC 8415, section 21.13).
#[derive(Clone, Copy, PartialEq, Eq)]
pub enum Status6 {
    Success,
    NoAddrsAvail,
    NoBinding,
    NotOnLink,
}

impl Status6 {
    /// The number that a status option has.
    pub fn code(self) -> u16
        ensures code { result ≡ code_of_status6 self }
    {
        match self {
            Status6::Success => 0,
            Status6::NoAddrsAvail => 2,
            Status6::NoBinding => 3,
            Status6::NotOnLink => 4,
        }
    }
}

/// The IA_NA of a reply.
#[derive(Drop)]
pub enum ReplyIa {
    /// There is none.
    None,
    /// No address, and a status.
    Status(Status6),
    /// These addresses with lifetimes of 0, in order, and then the one that is leased.
    Given(ArrayVec<Addr6, MAX_LISTED>, Addr6),
}

/// A reply, before it has bytes.
#[derive(Drop)]
pub struct Reply6 {
    pub kind: ReplyKind6,
    /// The status of the whole message, where it has one.
    pub status: Option<Status6>,
    pub ia: ReplyIa,
}
