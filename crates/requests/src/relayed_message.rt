//! Which circuit a datagram at the server is of, in either protocol.
ghost use Rattle.std.specs.Prelude.{◌≡◌, ◌<◌, length, Ok, Err, IfOk, IfErr};
ghost use Rattle.requests.specs.Addressee.{addressee};
ghost use Rattle.requests.specs.RelayedMessage.{IsRelayedMessage};

use crate::addressee4::addressee4;
use crate::addressee6::addressee6;
use config::Circuits;
use types::{Circuit, Delivery, Discard, MAX_DATAGRAM, Proto};
use v4_message::Message;
use v6_message::Relay6;

/// What a relay sent: a client's DHCPv4 message, or a Relay-forward around a client's DHCPv6 message.
#[derive(Drop)]
pub enum RelayedMessage<'a> {
    V4(Message<'a>),
    V6(Relay6<'a>),
}

/// The circuit of a datagram, and what was read of it, or the first reason why it is of none.
pub fn addressee<'a>(
    circuits: &Circuits,
    delivery: &Delivery<'a>,
) -> Result<(Circuit, RelayedMessage<'a>), Discard>
    ensures circuit { IfOk result (λ found. addressee circuits.now delivery.now ≡ Ok found.0) }
    ensures within { IfOk result (λ found. found.0 < length circuits.now.circuits) }
    ensures relayed { IfOk result (λ found. IsRelayedMessage delivery.now.proto delivery.now.bytes found.1) }
    ensures err { IfErr result (λ why. addressee circuits.now delivery.now ≡ Err why) }
{
    if !circuits.is_relay(delivery.source) {
        return Err(Discard::UnknownSource);
    }
    if delivery.bytes.len() > MAX_DATAGRAM {
        return Err(Discard::Malformed);
    }
    match delivery.proto {
        Proto::V4 => addressee4(circuits, delivery.source, delivery.bytes),
        Proto::V6 => addressee6(circuits, delivery.source, delivery.bytes),
    }
}
