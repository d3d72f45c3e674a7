//! Which circuit a DHCPv6 datagram is of (RFC 8415, sections 9 and 19.1.1).
ghost use Rattle.std.specs.Prelude.{◌≡◌, ◌<◌, length, Ok, Err, IfOk, IfErr};
ghost use Rattle.types.specs.declared.dest.Proto.TheVariants.{V6};
ghost use Rattle.requests.specs.RelayedMessage.{IsRelayedMessage};
ghost use Rattle.requests.specs.Addressee6.{forward_check, is_forward, is_unrelayed, link_fault6, relay_check};

use crate::relayed_message::RelayedMessage;
use config::{CircuitPart, Circuits};
use types::{Circuit, Discard, Source};
use v6_message::{RELAY_FORWARD, Relay6};

/// The circuit of a datagram from a relay, and the datagram's Relay-forward, or the first reason why it is
/// of none.
pub(crate) fn addressee6<'a>(
    circuits: &Circuits,
    source: Source,
    datagram: &'a [u8],
) -> Result<(Circuit, RelayedMessage<'a>), Discard>
    ensures circuit { IfOk result (λ found. forward_check circuits.now source datagram.now ≡ Ok found.0) }
    ensures within { IfOk result (λ found. found.0 < length circuits.now.circuits) }
    ensures relayed { IfOk result (λ found. IsRelayedMessage V6 datagram.now found.1) }
    ensures err { IfErr result (λ why. forward_check circuits.now source datagram.now ≡ Err why) }
{
    if is_unrelayed(datagram) {
        return Err(Discard::NotRelayed);
    }
    let Ok(forward) = Relay6::read(datagram) else {
        return Err(Discard::Malformed);
    };
    match relay_check(circuits, source, &forward) {
        Ok(circuit) => Ok((circuit, RelayedMessage::V6(forward))),
        Err(why) => Err(why),
    }
}

/// The tests of a relay message that was read.
fn relay_check(
    circuits: &Circuits,
    source: Source,
    forward: &Relay6<'_>,
) -> Result<Circuit, Discard>
    ensures check { result ≡ relay_check circuits.now source (Ok forward.now) }
    ensures within { IfOk result (λ circuit. circuit < length circuits.now.circuits) }
{
    if !is_forward(forward) {
        return Err(Discard::Malformed);
    }
    let Some(circuit) = circuits.relay_circuit(source, forward.interface_id()) else {
        return Err(Discard::UnknownCircuit);
    };
    match link_fault(circuits.part(circuit), forward) {
        None => Ok(circuit),
        Some(why) => Err(why),
    }
}

/// Whether a relay message is a Relay-forward around a message.
fn is_forward(relay: &Relay6<'_>) -> bool
    ensures { result ≡ is_forward relay.now }
{
    relay.kind() == RELAY_FORWARD && relay.relay_message().is_some()
}

/// What is wrong with a Relay-forward's addresses where it is of this circuit: it has to bear the link's.
fn link_fault(part: &CircuitPart, forward: &Relay6<'_>) -> Option<Discard>
    ensures { result ≡ link_fault6 forward.now part.now }
{
    if forward.link_address() != part.link6() {
        return Some(Discard::WrongLink);
    }
    None
}

/// Whether a datagram is a message of a client or a server, which has passed no relay.
fn is_unrelayed(datagram: &[u8]) -> bool
    ensures { result ≡ is_unrelayed datagram.now }
{
    match datagram.first() {
        Some(kind) => 1 <= *kind && *kind < RELAY_FORWARD,
        None => false,
    }
}
