//! Laws of the definitions alone: all circuits together do what each does alone, and a server can read
//! what a relay sends.
ghost use Rattle.std.specs.Prelude.{◌≡◌, ◌≢◌, ◌<◌, ℕ, List, [], ◌∷◌, take, drop, Some, Ok, true, length, slice_get};
ghost use Rattle.types.specs.declared.addr.Source.{Source};
ghost use Rattle.types.specs.declared.dest.Proto.{Proto};
ghost use Rattle.types.specs.declared.dest.Proto.TheVariants.{V4, V6};
ghost use Rattle.config.specs.CircuitPart.{CircuitPart, IsPart};
ghost use Rattle.config.specs.Topology.{Topology, listen, serves};
ghost use Rattle.v4_message.specs.Agent.{agent_of};
ghost use Rattle.v4_message.specs.Reading.{message_of};
ghost use Rattle.v4_message.specs.Spelling.{MessageValue};
ghost use Rattle.v6_options.specs.Codes.{RELAY_MESSAGE, INTERFACE_ID};
ghost use Rattle.v6_options.specs.Spelling.{look_up};
ghost use Rattle.v6_message.specs.Relay.{RelayValue};
ghost use Rattle.v6_message.specs.RelayReading.{relay_of};
ghost use Rattle.relay.specs.Up6.{relay_forward, relayed_up6};
ghost use Rattle.relay.specs.Down4.{is_named};
ghost use Rattle.relay.specs.Relays.{CircuitFrame, for_circuit, proto_of, relayed_down, relayed_down_in};

use crate::relays::Relays;
use types::Circuit;

/// A frame for a circuit is the one that the circuit's own part makes of the datagram, in the protocol
/// that the source decides.
pub fn agrees()
    ensures { (topology : Topology) (relay : ℕ) (source : Source) (proto : Proto) (datagram : List ℕ)
        (frame : CircuitFrame) (part : CircuitPart) → proto_of topology source ≡ Some proto
        → relayed_down_in topology relay source datagram ≡ Ok frame
        → slice_get topology.circuits frame.circuit ≡ Some part → relayed_down part proto datagram ≡ Ok frame.frame }
{}

/// Where there is one circuit, which is served, its relay makes of the server's datagrams what the circuit's own part
/// does.
pub fn only_circuit()
    ensures { (topology : Topology) (relay : ℕ) (source : Source) (proto : Proto) (datagram : List ℕ) (part : CircuitPart)
        → topology.circuits ≡ part ∷ [] → serves topology 0 ≡ true → slice_get topology.relays relay ≡ Some part.relay
        → proto_of topology source ≡ Some proto
        → relayed_down_in topology relay source datagram ≡ for_circuit 0 (relayed_down part proto datagram) }
{}

/// The server's address of a protocol decides that protocol, where its two addresses differ.
pub fn source_decides()
    ensures { (topology : Topology) (proto : Proto)
        → topology.listen4 ≢ topology.listen6 → proto_of topology (listen topology proto) ≡ Some proto }
{}

/// A DHCPv4 reply that names a circuit that is served comes down to it, by the relay behind which the circuit is, as
/// the circuit's own part makes it, where no other circuit has this id.
pub fn named_circuit()
    ensures { (topology : Topology) (relay : ℕ) (source : Source) (datagram : List ℕ) (c : ℕ) (part : CircuitPart)
        (m : MessageValue) (suboptions : List (ℕ × List ℕ)) → slice_get topology.circuits c ≡ Some part
        → serves topology c ≡ true
        → ((d : ℕ) (other : CircuitPart) → slice_get topology.circuits d ≡ Some other → other.id ≡ part.id → d ≡ c)
        → slice_get topology.relays relay ≡ Some part.relay → source ≡ topology.listen4 → message_of datagram ≡ Ok m
        → agent_of m ≡ Some (Ok suboptions) → is_named suboptions part ≡ true
        → relayed_down_in topology relay source datagram ≡ for_circuit c (relayed_down part V4 datagram) }
{}

/// A DHCPv6 reply that names a circuit by its interface id comes down to it, if the circuit is served, is behind the relay and
/// is the only one of this id.
pub fn named_circuit6()
    ensures { (topology : Topology) (relay : ℕ) (source : Source) (datagram : List ℕ) (c : ℕ) (part : CircuitPart) (m : RelayValue)
        → slice_get topology.circuits c ≡ Some part → serves topology c ≡ true
        → ((d : ℕ) (other : CircuitPart) → slice_get topology.circuits d ≡ Some other → other.id ≡ part.id → d ≡ c)
        → slice_get topology.relays relay ≡ Some part.relay → proto_of topology source ≡ Some V6
        → relay_of datagram ≡ Ok m → look_up INTERFACE_ID m.options ≡ Some part.id
        → relayed_down_in topology relay source datagram ≡ for_circuit c (relayed_down part V6 datagram) }
{}

/// The datagram of a DHCPv6 frame reads back as the Relay-forward that it was made from: the circuit's
/// link and id, the client's address, and the client's message.
pub fn forward_is_read()
    ensures read { (part : CircuitPart) (frame datagram : List ℕ)
        → IsPart part → relayed_up6 part frame ≡ Ok datagram
        → relay_of datagram ≡ Ok (relay_forward part (take 16 frame) (drop 16 frame)) }
    ensures id { (part : CircuitPart) (peer message : List ℕ)
        → look_up INTERFACE_ID (relay_forward part peer message).options ≡ Some part.id }
    ensures message { (part : CircuitPart) (peer message : List ℕ)
        → look_up RELAY_MESSAGE (relay_forward part peer message).options ≡ Some message }
{
    v6_message::laws::written_relay_is_read();
}

/// Each circuit has its counter.
pub fn has_counter(relays: &Relays, circuit: Circuit)
    requires { circuit < length relays.now.topology.circuits }
    ensures { circuit < length relays.now.discarded }
{
    let _ = relays.discarded(circuit);
}
