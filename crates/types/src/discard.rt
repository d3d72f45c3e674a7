//! Why a frame or a datagram is dropped.
ghost use Rattle.std.specs.Prelude.{◌≡◌, Some};
ghost use Rattle.types.specs.Discard.{number_of, words_of};

use std::error::Error;
use std::fmt;

/// Why the relay or the server drops a frame or a datagram, in the order of the numbers: 1 to 8 the
/// relay on the way up, 11 to 25 the server, 31 to 34 the relay on the way down.
#[derive(Clone, Copy, PartialEq, Eq)]
pub enum Discard {
    /// The frame has more than 1024 bytes.
    TooLong,
    /// The relay can't read the client's frame.
    MalformedUp,
    /// op is not BOOTREQUEST (RFC 2131, section 2).
    NotRequest,
    /// giaddr is set, though the client is on the relay's own circuit (RFC 3046, section 2.1.1).
    HasGiaddr,
    /// The client sent a relay agent information option of its own (RFC 3046, section 2.1).
    HasOption82,
    /// hops is 16 or more (RFC 1542, section 4.1.1).
    Hops,
    /// A message type that a client doesn't send.
    WrongType,
    /// The DHCPv6 message is a relay's (RFC 8415, section 19.1).
    NestedRelay,
    /// The datagram came from no configured relay.
    UnknownSource,
    /// The server can't read the datagram.
    Malformed,
    /// The datagram didn't pass a relay.
    NotRelayed,
    /// The datagram's circuit id is no circuit's of this relay.
    UnknownCircuit,
    /// giaddr is not the circuit's gateway, or link-address not its link's.
    WrongLink,
    /// There is no server identifier override, or it is not the gateway (RFC 5107, section 4).
    NoOverride,
    /// DHCPv4: the client identifier is shorter than 2 or longer than 64 bytes. DHCPv6: there is no client
    /// id, or it is not 3 to 130 bytes.
    ClientKey,
    /// DHCPv4: option 54 names another server, and it is no DHCPDISCOVER. DHCPv6: a Solicit, Confirm or
    /// Rebind names a server, or a Request, Renew, Release or Decline names none or another (RFC 8415,
    /// sections 16.2 and 16.4 to 16.9).
    OtherServer,
    /// No address of the circuit's pool is free.
    NoAddress,
    /// A DHCPREQUEST without option 54 for an address of the pool, from a client that has no lease, or whose
    /// lease has ended (RFC 2131, section 4.3.2).
    NoRecord,
    /// The circuit is closed until a restart.
    CircuitClosed,
    /// A message type that the server doesn't answer.
    NotServed,
    /// What was decided could not be kept.
    DiskFault,
    /// The message was heard and has no reply.
    NothingToSay,
    /// An earlier datagram of the batch is of the same circuit.
    BatchTwice,
    /// The datagram towards the relay is not from the server.
    NotServer,
    /// The relay can't read the reply.
    MalformedDown,
    /// The reply's circuit id is no circuit's of this relay.
    UnknownCircuitDown,
    /// The reply's giaddr is not the circuit's gateway, or its link-address not the link's.
    WrongLinkDown,
}

impl Discard {
    /// The reason's number.
    pub fn number(self) -> u8
        ensures { result ≡ number_of self }
    {
        match self {
            Discard::TooLong => 1,
            Discard::MalformedUp => 2,
            Discard::NotRequest => 3,
            Discard::HasGiaddr => 4,
            Discard::HasOption82 => 5,
            Discard::Hops => 6,
            Discard::WrongType => 7,
            Discard::NestedRelay => 8,
            Discard::UnknownSource => 11,
            Discard::Malformed => 12,
            Discard::NotRelayed => 13,
            Discard::UnknownCircuit => 14,
            Discard::WrongLink => 15,
            Discard::NoOverride => 16,
            Discard::ClientKey => 17,
            Discard::OtherServer => 18,
            Discard::NoAddress => 19,
            Discard::NoRecord => 20,
            Discard::CircuitClosed => 21,
            Discard::NotServed => 22,
            Discard::DiskFault => 23,
            Discard::NothingToSay => 24,
            Discard::BatchTwice => 25,
            Discard::NotServer => 31,
            Discard::MalformedDown => 32,
            Discard::UnknownCircuitDown => 33,
            Discard::WrongLinkDown => 34,
        }
    }

    /// The reason in words.
    fn words(self) -> &'static str
        ensures { result.now ≡ words_of self }
    {
        match self {
            Discard::TooLong => "the frame is too long",
            Discard::MalformedUp => "the frame is malformed",
            Discard::NotRequest => "the frame is not a request",
            Discard::HasGiaddr => "the frame has a giaddr already",
            Discard::HasOption82 => "the frame has a relay agent information option already",
            Discard::Hops => "the frame has passed too many relays",
            Discard::WrongType => "the frame's message type is not a client's",
            Discard::NestedRelay => "the frame has passed another relay",
            Discard::UnknownSource => "the datagram is not from a configured relay",
            Discard::Malformed => "the datagram is malformed",
            Discard::NotRelayed => "the datagram has passed no relay",
            Discard::UnknownCircuit => "the datagram's circuit is unknown",
            Discard::WrongLink => "the datagram's link address is not its circuit's",
            Discard::NoOverride => "the server identifier override is missing or wrong",
            Discard::ClientKey => "the client's identifier is missing, or too short or too long",
            Discard::OtherServer => {
                "the message names another server, or a server where it must not, or none where it must"
            }
            Discard::NoAddress => "no address is free",
            Discard::NoRecord => "the server has no record of the client",
            Discard::CircuitClosed => "the circuit is closed",
            Discard::NotServed => "the message type is not served",
            Discard::DiskFault => "the circuit's region could not be written",
            Discard::NothingToSay => "no reply is due",
            Discard::BatchTwice => "an earlier datagram of the batch is of the same circuit",
            Discard::NotServer => "the reply is not from the server",
            Discard::MalformedDown => "the reply is malformed",
            Discard::UnknownCircuitDown => "the reply's circuit is unknown",
            Discard::WrongLinkDown => "the reply's link address is not its circuit's",
        }
    }
}

impl fmt::Display for Discard {
    ghost output = { λ why. Some (words_of why) };

    fn fmt<W: fmt::Write>(&self, f: &mut fmt::Formatter<W>) -> fmt::Result {
        f.write_str(self.words())
    }
}

// Writes the words: derived, it would be a second table of them.
impl fmt::Debug for Discard {
    ghost debug_output = { λ why. Some (words_of why) };

    fn fmt<W: fmt::Write>(&self, f: &mut fmt::Formatter<W>) -> fmt::Result {
        fmt::Display::fmt(self, f)
    }
}

impl Error for Discard {}
