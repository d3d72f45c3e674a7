//! Relay messages (RFC 8415, section 9).
ghost use Rattle.std.specs.Prelude.{◌≡◌, ◌≤◌, ◌<◌, ◌+◌, ◌^◌, ◌↔◌, [], ◌++◌, length, Ok, Err, IsOk, OnOk, OnErr, IfSome, option_map};
ghost use Rattle.v6_options.specs.Codes.{RELAY_MESSAGE, INTERFACE_ID};
ghost use Rattle.v6_options.specs.Spelling.{look_up};
ghost use Rattle.v6_message.specs.Relay.{RelayValue, SpellsRelay, FailsRelay, relay_bytes};
ghost use Rattle.v6_message.specs.RelayReading.{relay_of};

use crate::fault::RelayFault;
use crate::parts::array_at;
use crate::relay_header::RelayHeader;
use crate::scan::{ListFault, Sender, fault_in};
use std::marker::Model;
use types::Addr6;
use v6_options::{Options, code};
use wire::{Full, PacketBuf};

/// The bytes before the options.
const HEADER: usize = 34;

/// A Relay-forward or Relay-reply in the bytes that it was read from. Its fields are slices of those
/// bytes, or small values. The type is not tested.
#[derive(Drop)]
pub struct Relay6<'a> {
    bytes: &'a [u8],
    options: Options<'a>,
}

impl<'a> Model for Relay6<'a> {
    ghost use Rattle.v6_message.specs.Relay.{RelayValue};
    ghost use Rattle.v6_message.specs.RelayReading.{IsRead, relay_at};

    ghost Value = { RelayValue };

    ghost view = { λ m. relay_at m.bytes.now m.options };

    ghost invariant = { λ m. IsRead m.bytes.now m.options };
}

impl<'a> Relay6<'a> {
    /// The relay message that these bytes spell, all of them.
    pub fn read(bytes: &'a [u8]) -> Result<Relay6<'a>, RelayFault>
        ensures exact { result ≡ relay_of bytes.now }
        ensures spelled { (m : RelayValue) → result ≡ Ok m ↔ SpellsRelay bytes.now m }
        ensures fails { (fault : RelayFault) → result ≡ Err fault ↔ FailsRelay fault bytes.now }
    {
        relay_in(bytes)
    }

    /// 12 in a Relay-forward, 13 in a Relay-reply.
    pub fn kind(&self) -> u8
        ensures { result ≡ self.now.kind }
    {
        self.bytes[0]
    }

    pub fn hop_count(&self) -> u8
        ensures { result ≡ self.now.hop_count }
    {
        self.bytes[1]
    }

    /// An address of the link on which the client is.
    pub fn link_address(&self) -> Addr6
        ensures { result.0 ≡ self.now.link_address }
    {
        Addr6(*array_at(self.bytes, 2))
    }

    /// The client, or the relay from which the message came.
    pub fn peer_address(&self) -> Addr6
        ensures { result.0 ≡ self.now.peer_address }
    {
        Addr6(*array_at(self.bytes, 18))
    }

    /// The fields before the options, as values.
    pub fn header(&self) -> RelayHeader
        ensures kind { result.kind ≡ self.now.kind }
        ensures hops { result.hop_count ≡ self.now.hop_count }
        ensures link { result.link_address.0 ≡ self.now.link_address }
        ensures peer { result.peer_address.0 ≡ self.now.peer_address }
    {
        RelayHeader {
            kind: self.kind(),
            hop_count: self.hop_count(),
            link_address: self.link_address(),
            peer_address: self.peer_address(),
        }
    }

    pub fn options(&self) -> &Options<'a>
        ensures { result.now ≡ self.now.options }
    {
        &self.options
    }

    /// Option 18, by which a relay knows its client's link.
    pub fn interface_id(&self) -> Option<&'a [u8]>
        ensures value { option_map (λ value. value.now) result ≡ look_up INTERFACE_ID self.now.options }
        ensures fits { IfSome result (λ value. length value.now < 2 ^ 16) }
    {
        self.options.get(code::INTERFACE_ID)
    }

    /// Option 9, the message inside, whose bytes another reader takes.
    pub fn relay_message(&self) -> Option<&'a [u8]>
        ensures value { option_map (λ value. value.now) result ≡ look_up RELAY_MESSAGE self.now.options }
        ensures fits { IfSome result (λ value. length value.now < 2 ^ 16) }
    {
        self.options.get(code::RELAY_MESSAGE)
    }

    /// Appends the relay message. Where it does not fit, `out` is left empty.
    pub fn write(&self, out: &mut PacketBuf) -> Result<(), Full>
        ensures full { IsOk result ↔ (length out.old + length (relay_bytes self.now) ≤ 1280) }
        ensures ok { OnOk result (out.new ≡ out.old ++ relay_bytes self.now) }
        ensures err { OnErr result (out.new ≡ []) }
        ensures spelled { SpellsRelay (relay_bytes self.now) self.now }
        ensures again { relay_of (relay_bytes self.now) ≡ Ok self.now }
    {
        let options = &self.options;
        self.header().write(out)?;
        options.write(out)
    }
}

fn relay_in(bytes: &[u8]) -> Result<Relay6<'_>, RelayFault>
    ensures { result ≡ relay_of bytes.now }
{
    if bytes.len() < HEADER {
        return Err(RelayFault::Short);
    }
    let (_, tail) = bytes.split_at(HEADER);
    match fault_in(tail, Sender::Relay) {
        Some(ListFault::Cut) => Err(RelayFault::Cut),
        Some(ListFault::Twice) => Err(RelayFault::Twice),
        None => match Options::read(tail) {
            Ok(options) => Ok(Relay6 { bytes, options }),
            Err(_) => unreachable!(),
        },
    }
}
