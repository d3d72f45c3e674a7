//! Where what is sent arrives, among any circuits and relays: functions that do nothing, for their contracts.
ghost use Rattle.std.specs.Prelude.{◌≡◌, ◌≢◌, ℕ, List, Some, Ok, true, slice_get};
ghost use Rattle.types.specs.Delivery.{DeliveryValue, delivery};
ghost use Rattle.types.specs.declared.dest.Proto.{Proto};
ghost use Rattle.types.specs.declared.dest.Proto.TheVariants.{V6};
ghost use Rattle.config.specs.CircuitPart.{CircuitPart, IsPart};
ghost use Rattle.requests.specs.Addressee.{addressee};
ghost use Rattle.circuit_server.specs.Server.{Book, served};
ghost use Rattle.config.specs.Topology.{Topology, is_relay, listen, serves};
ghost use Rattle.relay.specs.Relays.{for_circuit, relayed_down, relayed_down_in, relayed_up};
ghost use Rattle.wire.specs.Bytes.{AreBytes};

/// What the relay sends up for a circuit is that circuit's at the server that serves it, at any moment, among any
/// circuits of which no other has its id, and any relays of which one is its own.
pub fn comes_to_its_circuit()
    ensures { (topology : Topology) (c : ℕ) (part : CircuitPart) (proto : Proto) (now : ℕ) (frame datagram : List ℕ)
        → slice_get topology.circuits c ≡ Some part → serves topology c ≡ true
        → ((d : ℕ) (other : CircuitPart) → slice_get topology.circuits d ≡ Some other → other.id ≡ part.id → d ≡ c)
        → is_relay topology part.relay ≡ true → IsPart part → AreBytes frame
        → relayed_up part proto frame ≡ Ok datagram → addressee topology (delivery proto part.relay now datagram) ≡ Ok c }
{
    relay::laws::forward_is_read();
}

/// What the server answers to the datagram of a circuit that is served comes down to that circuit, by the relay behind
/// which it is, as the circuit's own part makes it. For DHCPv6 the server's two addresses have to differ, as in
/// every configuration.
pub fn reply_comes_to_its_circuit()
    ensures { (topology : Topology) (relay c : ℕ) (part : CircuitPart) (d : DeliveryValue) (bytes : List ℕ) (b : Book)
        → slice_get topology.circuits c ≡ Some part → serves topology c ≡ true
        → ((d : ℕ) (other : CircuitPart) → slice_get topology.circuits d ≡ Some other → other.id ≡ part.id → d ≡ c)
        → slice_get topology.relays relay ≡ Some part.relay → IsPart part → AreBytes d.bytes
        → addressee topology (delivery d.proto part.relay d.moment d.bytes) ≡ Ok c → (served part d b).answer ≡ Ok bytes
        → (d.proto ≡ V6 → topology.listen4 ≢ topology.listen6)
        → relayed_down_in topology relay (listen topology d.proto) bytes ≡ for_circuit c (relayed_down part d.proto bytes) }
{
    bindings_v4::laws::gives_whole_addresses();
    dispatch::laws::reads_back();
    replies::laws::reply_is_read();
    relay::laws::named_circuit();
    relay::laws::named_circuit6();
    relay::laws::source_decides();
    v4_message::laws::exact_reading();
}
