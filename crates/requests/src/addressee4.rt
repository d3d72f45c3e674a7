//! Which circuit a DHCPv4 datagram is of (RFC 3046, section 2.2; RFC 5107, section 4).
ghost use Rattle.std.specs.Prelude.{◌≡◌, ◌<◌, length, Ok, Err, IfOk, IfErr};
ghost use Rattle.v4_options.specs.Spelling.{look_up};
ghost use Rattle.v4_message.specs.Agent.{is_value};
ghost use Rattle.v4_message.specs.Reading.{message_of};
ghost use Rattle.types.specs.declared.dest.Proto.TheVariants.{V4};
ghost use Rattle.requests.specs.Addressee4.{link_fault4, message_check};
ghost use Rattle.requests.specs.RelayedMessage.{IsRelayedMessage};

use crate::relayed_message::RelayedMessage;
use config::{CircuitPart, Circuits};
use types::{Circuit, Discard, Source};
use v4_message::{Message, OP_REQUEST};
use v4_options::{Suboptions, code};

/// The circuit of a datagram from a relay, and the datagram's message, or the first reason why it is of
/// none.
pub(crate) fn addressee4<'a>(
    circuits: &Circuits,
    source: Source,
    datagram: &'a [u8],
) -> Result<(Circuit, RelayedMessage<'a>), Discard>
    ensures circuit { IfOk result (λ found. message_check circuits.now source (message_of datagram.now) ≡ Ok found.0) }
    ensures within { IfOk result (λ found. found.0 < length circuits.now.circuits) }
    ensures relayed { IfOk result (λ found. IsRelayedMessage V4 datagram.now found.1) }
    ensures err { IfErr result (λ why. message_check circuits.now source (message_of datagram.now) ≡ Err why) }
{
    let Ok(message) = Message::read(datagram) else {
        return Err(Discard::Malformed);
    };
    match message_check(circuits, source, &message) {
        Ok(circuit) => Ok((circuit, RelayedMessage::V4(message))),
        Err(why) => Err(why),
    }
}

/// The tests of a message that was read.
fn message_check(
    circuits: &Circuits,
    source: Source,
    message: &Message<'_>,
) -> Result<Circuit, Discard>
    ensures check { result ≡ message_check circuits.now source (Ok message.now) }
    ensures within { IfOk result (λ circuit. circuit < length circuits.now.circuits) }
{
    if message.op() != OP_REQUEST {
        return Err(Discard::Malformed);
    }
    if message.giaddr().is_unspecified() {
        return Err(Discard::NotRelayed);
    }
    let Some(agent) = message.relay_agent_information() else {
        return Err(Discard::NotRelayed);
    };
    let Ok(suboptions) = Suboptions::read(agent) else {
        return Err(Discard::Malformed);
    };
    let Some(circuit) = circuits.relay_circuit(source, suboptions.get(code::CIRCUIT_ID)) else {
        return Err(Discard::UnknownCircuit);
    };
    match link_fault(circuits.part(circuit), message, &suboptions) {
        None => Ok(circuit),
        Some(why) => Err(why),
    }
}

/// What is wrong with a message's addresses where it is of this circuit: it has to bear the gateway twice.
fn link_fault(
    part: &CircuitPart,
    message: &Message<'_>,
    suboptions: &Suboptions<'_>,
) -> Option<Discard>
    ensures { result ≡ link_fault4 message.now suboptions.now part.now }
{
    if message.giaddr() != part.gateway4() {
        return Some(Discard::WrongLink);
    }
    if !is_value(
        suboptions,
        code::SERVER_IDENTIFIER_OVERRIDE,
        &part.gateway4().0,
    ) {
        return Some(Discard::NoOverride);
    }
    None
}

/// Whether the suboption of this code is there with this value.
fn is_value(suboptions: &Suboptions<'_>, code: u8, value: &[u8]) -> bool
    ensures { result ≡ is_value value.now (look_up code suboptions.now) }
{
    match suboptions.get(code) {
        None => false,
        Some(other) => other == value,
    }
}
