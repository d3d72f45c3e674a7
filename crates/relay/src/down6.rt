//! DHCPv6 on the way down: what a relay makes of a server's reply, for one circuit.
ghost use Rattle.std.specs.Prelude.{◌≡◌, ◌≤◌, [], length, Ok, Err, IfOk, IfErr, OnErr};
ghost use Rattle.v6_options.specs.Codes.{RELAY_MESSAGE, INTERFACE_ID};
ghost use Rattle.v6_options.specs.Spelling.{look_up};
ghost use Rattle.v6_message.specs.Relay.{relay_bytes};
ghost use Rattle.relay.specs.Down.{frame_on_link};
ghost use Rattle.relay.specs.Down6.{addressed_by, reply_of6};

use config::CircuitPart;
use std::marker::Model;
use types::{Addr6, Dest, Discard, MAX_DATAGRAM};
use v6_message::{RELAY_REPLY, Relay6};
use wire::PacketBuf;

/// What a relay takes from a reply: the circuit, an address of its link, the client, and the message
/// for the client.
#[derive(Drop)]
pub(crate) struct Reply6<'a> {
    pub(crate) interface_id: &'a [u8],
    link: Addr6,
    peer: Addr6,
    message: &'a [u8],
}

impl<'a> Model for Reply6<'a> {
    ghost use Rattle.std.specs.Prelude.{Some};
    ghost use Rattle.types.specs.declared.dest.Dest.TheVariants.{Peer};
    ghost use Rattle.relay.specs.Down.{AddressedFrame};

    ghost Value = { AddressedFrame };

    ghost view = { λ r.
        record {
          circuit_id = Some r.interface_id.now;
          link = r.link.0;
          frame = record
              { dest = Peer r.peer; bytes = r.message.now };
        } };
}

/// The reply that a datagram from the server is.
pub(crate) fn read_reply6(datagram: &[u8]) -> Result<Relay6<'_>, Discard>
    ensures value { result ≡ reply_of6 datagram.now }
    ensures fits { IfOk result (λ reply. length (relay_bytes reply) ≤ 1280) }
{
    if datagram.len() > MAX_DATAGRAM {
        return Err(Discard::MalformedDown);
    }
    let Ok(reply) = Relay6::read(datagram) else {
        return Err(Discard::MalformedDown);
    };
    if reply.kind() != RELAY_REPLY {
        return Err(Discard::MalformedDown);
    }
    Ok(reply)
}

/// What a relay takes from a reply, which has to have an interface id and a message inside.
pub(crate) fn read_options<'a>(reply: &Relay6<'a>) -> Result<Reply6<'a>, Discard>
    ensures value { result ≡ addressed_by reply.now (look_up INTERFACE_ID reply.now.options) (look_up RELAY_MESSAGE reply.now.options) }
    ensures fits { length (relay_bytes reply.now) ≤ 1280 → IfOk result (λ inside. length inside.frame.bytes ≤ 1280) }
{
    let Some(interface_id) = reply.interface_id() else {
        return Err(Discard::MalformedDown);
    };
    let Some(message) = reply.relay_message() else {
        return Err(Discard::MalformedDown);
    };
    Ok(Reply6 {
        interface_id,
        link: reply.link_address(),
        peer: reply.peer_address(),
        message,
    })
}

/// Writes the frame for the circuit that a reply names and returns where it goes, or why there is
/// none.
pub(crate) fn relay_down6(
    part: &CircuitPart,
    reply: &Reply6<'_>,
    out: &mut PacketBuf,
) -> Result<Dest, Discard>
    requires empty { out.old ≡ [] }
    requires fits { length reply.now.frame.bytes ≤ 1280 }
    ensures ok { IfOk result (λ dest.
        frame_on_link part.now.link6 reply.now.link reply.now.frame ≡ Ok (record { dest = dest; bytes = out.new })) }
    ensures err { IfErr result (λ why. frame_on_link part.now.link6 reply.now.link reply.now.frame ≡ Err why) }
    ensures empty { OnErr result (out.new ≡ []) }
{
    if reply.link != part.link6() {
        return Err(Discard::WrongLinkDown);
    }
    let written = out.extend(reply.message);
    prove!(written.is_ok());
    Ok(Dest::Peer(reply.peer))
}
