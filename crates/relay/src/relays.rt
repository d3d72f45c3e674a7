//! All relays of a configuration.
ghost use Rattle.std.specs.Prelude.{◌≡◌, ◌<◌, nat_lt, true, [], length, option_map, replicate, Ok, Err, Some, IfOk};
ghost use Rattle.std.specs.Prelude.{IfErr, OnOk, OnErr, slice_get};
ghost use Rattle.types.specs.declared.dest.Proto.TheVariants as protocol;
ghost use Rattle.config.specs.CircuitPart as parts;
ghost use Rattle.config.specs.Membership.{has};
ghost use Rattle.config.specs.Topology.{IsTopology, is_relay, is_server, plans_topology, reloaded, serves, topology_of};
ghost use Rattle.relay.specs.Relays.{one_more, own_circuit, relayed_down_from, relayed_down_in, relayed_up};

use crate::down4::{read_reply, read_suboptions, relay_down4};
use crate::down6::{read_options, read_reply6, relay_down6};
use crate::up4::relay_up4;
use crate::up6::relay_up6;
use config::{CircuitPart, Circuits, Config, Plans};
use std::alloc::Global;
use std::marker::Model;
use types::{Circuit, Dest, Discard, Memory, Proto, RelayNo, Source};
use v4_options::code;
use wire::PacketBuf;

/// The relays of a configuration: a copy of what they need of it, and a counter for each circuit.
#[derive(Drop)]
pub struct Relays {
    circuits: Circuits,
    discarded: Vec<u32>,
}

impl Model for Relays {
    ghost use Rattle.std.specs.Prelude.{◌≡◌, length};
    ghost use Rattle.relay.specs.Relays.{RelaysValue};

    ghost Value = { RelaysValue };

    ghost view = { λ r. record { topology = r.circuits; discarded = r.discarded.items } };

    ghost invariant = { λ r. length r.discarded.items ≡ length r.circuits.circuits };
}

impl Relays {
    /// The relays of a configuration, which serve all its circuits. All memory that they need is taken here.
    pub fn new(alloc: Global, config: &Config) -> Result<Relays, Memory>
        ensures topology { IfOk result (λ relays. relays.topology ≡ topology_of config.now) }
        ensures sound { IfOk result (λ relays. IsTopology (topology_of config.now)) }
        ensures discarded { IfOk result (λ relays. relays.discarded ≡ replicate (length config.now.circuits) 0) }
    {
        match Circuits::of(alloc, config) {
            Ok(circuits) => Relays::over(alloc, circuits),
            Err(_) => Err(Memory),
        }
    }

    /// The relays of some plans, of which the first is in force. All memory that they need is taken here.
    pub fn new_plans(alloc: Global, plans: &Plans) -> Result<Relays, Memory>
        ensures topology { IfOk result (λ relays. relays.topology ≡ plans_topology plans.now) }
        ensures sound { IfOk result (λ relays. IsTopology (plans_topology plans.now)) }
        ensures discarded { IfOk result (λ relays. relays.discarded ≡ replicate (length plans.now.union.circuits) 0) }
    {
        match Circuits::of_plans(alloc, plans) {
            Ok(circuits) => Relays::over(alloc, circuits),
            Err(_) => Err(Memory),
        }
    }

    /// The relays of these circuits.
    fn over(alloc: Global, circuits: Circuits) -> Result<Relays, Memory>
        ensures topology { IfOk result (λ relays. relays.topology ≡ circuits) }
        ensures discarded { IfOk result (λ relays. relays.discarded ≡ replicate (length circuits.circuits) 0) }
    {
        match vec![in alloc; 0; circuits.count()] {
            Ok(discarded) => Ok(Relays {
                circuits,
                discarded,
            }),
            Err(_) => Err(Memory),
        }
    }

    /// What the relay of a circuit that is served makes of a client's frame there: the datagram for the server is in
    /// `out`, or the frame is discarded and counted.
    pub fn up(
        &mut self,
        circuit: Circuit,
        proto: Proto,
        frame: &[u8],
        out: &mut PacketBuf,
    ) -> Result<(), Discard>
        requires exists { circuit < length self.old.topology.circuits }
        requires served { serves self.old.topology circuit ≡ true }
        ensures ok { OnOk result ((part : parts.CircuitPart) → slice_get self.old.topology.circuits circuit ≡ Some part
            → relayed_up part proto frame.now ≡ Ok out.new) }
        ensures err { IfErr result (λ why.
            (part : parts.CircuitPart) → slice_get self.old.topology.circuits circuit ≡ Some part
            → relayed_up part proto frame.now ≡ Err why) }
        ensures empty { OnErr result (out.new ≡ []) }
        ensures kept { OnOk result (self.new ≡ self.old) }
        ensures counted { OnErr result (self.new ≡ record self.old { discarded = one_more circuit self.old.discarded }) }
        ensures topology { self.new.topology ≡ self.old.topology }
    {
        match relay_up(self.circuits.part(circuit), proto, frame, out) {
            Ok(()) => Ok(()),
            Err(why) => {
                self.count_discarded(circuit);
                Err(why)
            }
        }
    }

    /// One more frame of a circuit was discarded. The counter stays at its greatest value.
    fn count_discarded(&mut self, circuit: Circuit)
        requires { circuit < length self.old.topology.circuits }
        ensures { self.new ≡ record self.old { discarded = one_more circuit self.old.discarded } }
    {
        let count = &mut self.discarded[circuit.index()];
        *count = count.saturating_add(1);
    }

    /// What a relay makes of a datagram from this source: the frame is in `out`, with the circuit that
    /// it is for and where it goes there, or why there is none.
    pub fn down(
        &self,
        relay: RelayNo,
        source: Source,
        bytes: &[u8],
        out: &mut PacketBuf,
    ) -> Result<(Circuit, Dest), Discard>
        requires { relay < length self.now.topology.relays }
        ensures ok { IfOk result (λ sent.
            relayed_down_in self.now.topology relay source bytes.now
            ≡ Ok (record { circuit = sent.0; frame = record { dest = sent.1; bytes = out.new } })) }
        ensures err { IfErr result (λ why. relayed_down_in self.now.topology relay source bytes.now ≡ Err why) }
        ensures empty { OnErr result (out.new ≡ []) }
        ensures exists { IfOk result (λ sent. sent.0 < length self.now.topology.circuits) }
    {
        out.clear();
        if source == self.circuits.listen4() {
            return self.down4(relay, bytes, out);
        }
        if source == self.circuits.listen6() {
            return self.down6(relay, bytes, out);
        }
        Err(Discard::NotServer)
    }

    /// Takes a datagram from the server's DHCPv4 address to its circuit.
    fn down4(
        &self,
        relay: RelayNo,
        datagram: &[u8],
        out: &mut PacketBuf,
    ) -> Result<(Circuit, Dest), Discard>
        requires relay { relay < length self.now.topology.relays }
        requires empty { out.old ≡ [] }
        ensures ok { IfOk result (λ sent.
            relayed_down_from self.now.topology relay protocol.V4 datagram.now
            ≡ Ok (record { circuit = sent.0; frame = record { dest = sent.1; bytes = out.new } })) }
        ensures err { IfErr result (λ why. relayed_down_from self.now.topology relay protocol.V4 datagram.now ≡ Err why) }
        ensures empty { OnErr result (out.new ≡ []) }
        ensures exists { IfOk result (λ sent. sent.0 < length self.now.topology.circuits) }
    {
        let reply = read_reply(datagram)?;
        let suboptions = read_suboptions(&reply)?;
        let circuit = self.own_circuit(relay, suboptions.get(code::CIRCUIT_ID))?;
        let dest = relay_down4(self.circuits.part(circuit), &reply, out)?;
        Ok((circuit, dest))
    }

    /// Takes a datagram from the server's DHCPv6 address to its circuit.
    fn down6(
        &self,
        relay: RelayNo,
        datagram: &[u8],
        out: &mut PacketBuf,
    ) -> Result<(Circuit, Dest), Discard>
        requires relay { relay < length self.now.topology.relays }
        requires empty { out.old ≡ [] }
        ensures ok { IfOk result (λ sent.
            relayed_down_from self.now.topology relay protocol.V6 datagram.now
            ≡ Ok (record { circuit = sent.0; frame = record { dest = sent.1; bytes = out.new } })) }
        ensures err { IfErr result (λ why. relayed_down_from self.now.topology relay protocol.V6 datagram.now ≡ Err why) }
        ensures empty { OnErr result (out.new ≡ []) }
        ensures exists { IfOk result (λ sent. sent.0 < length self.now.topology.circuits) }
    {
        let message = read_reply6(datagram)?;
        let reply = read_options(&message)?;
        let circuit = self.own_circuit(relay, Some(reply.interface_id))?;
        let dest = relay_down6(self.circuits.part(circuit), &reply, out)?;
        Ok((circuit, dest))
    }

    /// The circuit with exactly this id, which has to be one of this relay's.
    fn own_circuit(&self, relay: RelayNo, id: Option<&[u8]>) -> Result<Circuit, Discard>
        requires { relay < length self.now.topology.relays }
        ensures ok { IfOk result (λ circuit.
            (part : parts.CircuitPart) → slice_get self.now.topology.circuits circuit ≡ Some part
            → own_circuit self.now.topology relay (option_map (λ bytes. bytes.now) id.entry) ≡ Ok (circuit, part)) }
        ensures err { IfErr result (λ why. own_circuit self.now.topology relay (option_map (λ bytes. bytes.now) id.entry) ≡ Err why) }
        ensures exists { IfOk result (λ circuit. circuit < length self.now.topology.circuits) }
    {
        let source = self.circuits.relay(relay);
        match self.circuits.relay_circuit(source, id) {
            Some(circuit) => Ok(circuit),
            None => Err(Discard::UnknownCircuitDown),
        }
    }

    /// Whether a circuit is served: the plan in force has it.
    pub fn serves(&self, circuit: Circuit) -> bool
        requires { circuit < length self.now.topology.circuits }
        ensures { result ≡ serves self.now.topology circuit }
    {
        self.circuits.serves(circuit)
    }

    /// Whether there is such a plan.
    pub fn has_plan(&self, plan: u8) -> bool
        ensures { result ≡ nat_lt plan self.now.topology.plans.count }
    {
        self.circuits.has_plan(usize::from(plan))
    }

    /// Whether there is such a plan and it has this circuit.
    pub fn serves_in(&self, plan: u8, circuit: Circuit) -> bool
        requires { circuit < length self.now.topology.circuits }
        ensures { result ≡ has self.now.topology.plans plan circuit }
    {
        self.circuits.serves_in(usize::from(plan), circuit)
    }

    /// Puts another plan in force; false, and nothing changed, where there is no such plan.
    pub fn reload(&mut self, plan: u8) -> bool
        ensures value { self.new ≡ record self.old { topology = reloaded plan self.old.topology } }
        ensures answer { result ≡ nat_lt plan self.old.topology.plans.count }
    {
        self.circuits.reload(usize::from(plan))
    }

    /// The index of a circuit's relay.
    pub fn relay_no(&self, circuit: Circuit) -> RelayNo
        requires { circuit < length self.now.topology.circuits }
        ensures { (part : parts.CircuitPart) → slice_get self.now.topology.circuits circuit ≡ Some part
            → slice_get self.now.topology.relays result ≡ Some part.relay }
    {
        self.circuits.relay_no(circuit)
    }

    /// Whether there is a relay of this index.
    pub fn exists(&self, relay: RelayNo) -> bool
        ensures { result ≡ nat_lt relay (length self.now.topology.relays) }
    {
        relay.index() < self.circuits.relay_count()
    }

    /// Whether one of the relays sends its datagrams from here.
    pub fn is_relay(&self, source: Source) -> bool
        ensures { result ≡ is_relay self.now.topology source }
    {
        self.circuits.is_relay(source)
    }

    /// Whether the server sends its datagrams from here, in either protocol.
    pub fn is_server(&self, source: Source) -> bool
        ensures { result ≡ is_server self.now.topology source }
    {
        self.circuits.is_server(source)
    }

    /// How many frames of a circuit were discarded, at most 4294967295.
    pub fn discarded(&self, circuit: Circuit) -> u32
        requires { circuit < length self.now.topology.circuits }
        ensures { slice_get self.now.discarded circuit ≡ Some result }
    {
        self.discarded[circuit.index()]
    }
}

/// What one circuit's relay makes of a frame, in its protocol.
fn relay_up(
    part: &CircuitPart,
    proto: Proto,
    frame: &[u8],
    out: &mut PacketBuf,
) -> Result<(), Discard>
    ensures ok { OnOk result (relayed_up part.now proto frame.now ≡ Ok out.new) }
    ensures err { IfErr result (λ why. relayed_up part.now proto frame.now ≡ Err why) }
    ensures empty { OnErr result (out.new ≡ []) }
{
    match proto {
        Proto::V4 => relay_up4(part, frame, out),
        Proto::V6 => relay_up6(part, frame, out),
    }
}
