//! What relays and server keep of a configuration: its addresses and the parts of its circuits.
ghost use Rattle.std.specs.Prelude.{◌≡◌, ◌<◌, ◌≤◌, ◌∷◌, [], true, length, map, nat_lt, replicate, All, Some, None};
ghost use Rattle.std.specs.Prelude.{IfNone, IfOk, IfSome, option_map, slice_get};
ghost use Rattle.std.specs.List.{position};
ghost use Rattle.std.specs.Str.{bytes_eq};
ghost use Rattle.types.specs.Addr.{same_source};
ghost use Rattle.config.specs.CircuitPart as parts;
ghost use Rattle.config.specs.CircuitPart.{IsPart, parts_of};
ghost use Rattle.config.specs.Rules.{IsSound};
ghost use Rattle.config.specs.Membership.{IsMembership, has};
ghost use Rattle.config.specs.Topology.{IsTopology, is_relay, is_server, relay_circuit, plans_topology, reloaded};
ghost use Rattle.config.specs.Topology.{serves, topology_of, topology_with};

use crate::circuit_index::CircuitIndex;
use crate::circuit_part::CircuitPart;
use crate::config::Config;
use crate::membership::{Members, Membership};
use crate::plans::Plans;
use settings::copy_of;
use std::alloc::{AllocError, Global};
use std::marker::Model;
use types::{Circuit, RelayNo, Source};

/// The server's addresses, where each relay's datagrams come from, the parts of all circuits, and which of them are
/// served. It is a copy, made once, in which circuits and relays are found.
#[derive(Drop)]
pub struct Circuits {
    listen4: Source,
    listen6: Source,
    relays: Vec<Source>,
    parts: Vec<CircuitPart>,
    index: CircuitIndex,
    plans: Membership,
}

impl Model for Circuits {
    ghost use Rattle.std.specs.Prelude.{◌≡◌, map};
    ghost use Rattle.config.specs.Topology.{IsTopology, Topology};

    ghost Value = { Topology };

    ghost view = { λ c.
        record {
          listen4 = c.listen4;
          listen6 = c.listen6;
          relays = c.relays.items;
          circuits = c.parts.items;
          plans =
              c.plans;
        } };

    ghost invariant = { λ c.
        IsTopology (record {
          listen4 = c.listen4;
          listen6 = c.listen6;
          relays = c.relays.items;
          circuits = c.parts.items;
          plans = c.plans;
        }) × (c.index ≡ map (λ part. part.id) c.parts.items) };
}

impl Circuits {
    /// The circuits of a configuration, in its order, which are all served. All memory is taken here; an error where
    /// some is refused.
    pub fn of(alloc: Global, config: &Config) -> Result<Circuits, AllocError>
        ensures topology { IfOk result (λ circuits. circuits ≡ topology_of config.now) }
        ensures sound { IfOk result (λ circuits. IsTopology (topology_of config.now)) }
        ensures rules { IsSound config.now }
    {
        let members = one_plan(alloc, config.circuit_count())?;
        Circuits::with(alloc, config, Membership::of(members, 1))
    }

    /// All circuits of some plans, of which the first is in force. All memory is taken here; an error where some is
    /// refused.
    pub fn of_plans(alloc: Global, plans: &Plans) -> Result<Circuits, AllocError>
        ensures topology { IfOk result (λ circuits. circuits ≡ plans_topology plans.now) }
        ensures sound { IfOk result (λ circuits. IsTopology (plans_topology plans.now)) }
        ensures rules { IfOk result (λ circuits. IsSound plans.now.union) }
    {
        let members = copies_of(alloc, plans.members())?;
        let membership = Membership::of(members, plans.count());
        Circuits::with(alloc, plans.union(), membership)
    }

    /// The circuits of a configuration, of which each of these plans has some.
    fn with(alloc: Global, config: &Config, plans: Membership) -> Result<Circuits, AllocError>
        requires { IsMembership (length config.now.circuits) plans }
        ensures topology { IfOk result (λ circuits. circuits ≡ topology_with config.now plans) }
        ensures sound { IfOk result (λ circuits. IsTopology (topology_with config.now plans)) }
        ensures rules { IsSound config.now }
    {
        let server = config.server();
        let relays = relays_of(alloc, config)?;
        let parts = parts_of(alloc, config)?;
        let index = CircuitIndex::of(alloc, config.circuits())?;
        Ok(Circuits {
            listen4: server.listen4,
            listen6: server.listen6,
            relays,
            parts,
            index,
            plans,
        })
    }

    /// The circuit with exactly these bytes as its id.
    #[tactic(auto, using(crate::proofs::IndexLemmas::position_of))]
    fn find(&self, id: &[u8]) -> Option<Circuit>
        ensures found { result ≡ position (λ part. bytes_eq id.now part.id) self.now.circuits }
        ensures within { IfSome result (λ circuit. circuit < length self.now.circuits) }
    {
        Circuit::new(self.index.find(id)?)
    }

    /// The circuit with exactly this id, which has to be served, and one of the relay that sends from this source.
    pub fn relay_circuit(&self, relay: Source, id: Option<&[u8]>) -> Option<Circuit>
        ensures found { IfSome result (λ circuit. (part : parts.CircuitPart) → slice_get self.now.circuits circuit ≡ Some part
            → relay_circuit self.now relay (option_map (λ bytes. bytes.now) id.entry) ≡ Some (circuit, part)) }
        ensures within { IfSome result (λ circuit. circuit < length self.now.circuits) }
        ensures none { IfNone result (relay_circuit self.now relay (option_map (λ bytes. bytes.now) id.entry) ≡ None) }
    {
        let Some(id) = id else {
            return None;
        };
        let Some(circuit) = self.find(id) else {
            return None;
        };
        if self.part(circuit).relay() == relay && self.serves(circuit) {
            Some(circuit)
        } else {
            None
        }
    }

    /// Whether a circuit is served: the plan in force has it.
    pub fn serves(&self, circuit: Circuit) -> bool
        requires { circuit < length self.now.circuits }
        ensures { result ≡ serves self.now circuit }
    {
        self.plans.serves(circuit)
    }

    /// Whether there is such a plan.
    pub fn has_plan(&self, plan: usize) -> bool
        ensures { result ≡ nat_lt plan self.now.plans.count }
    {
        self.plans.exists(plan)
    }

    /// Whether there is such a plan and it has this circuit.
    pub fn serves_in(&self, plan: usize, circuit: Circuit) -> bool
        requires { circuit < length self.now.circuits }
        ensures { result ≡ has self.now.plans plan circuit }
    {
        self.plans.has(plan, circuit)
    }

    /// Puts another plan in force; false, and nothing changed, where there is no such plan.
    pub fn reload(&mut self, plan: usize) -> bool
        ensures value { self.new ≡ reloaded plan self.old }
        ensures answer { result ≡ nat_lt plan self.old.plans.count }
    {
        self.plans.reload(plan)
    }

    /// The index of a circuit's relay.
    pub fn relay_no(&self, circuit: Circuit) -> RelayNo
        requires { circuit < length self.now.circuits }
        ensures { (part : parts.CircuitPart) → slice_get self.now.circuits circuit ≡ Some part
            → slice_get self.now.relays result ≡ Some part.relay }
    {
        let Some(index) = index_of(&self.relays, self.part(circuit).relay()) else {
            unreachable!()
        };
        RelayNo::at(index)
    }

    pub fn part(&self, circuit: Circuit) -> &CircuitPart
        requires { circuit < length self.now.circuits }
        ensures { slice_get self.now.circuits circuit ≡ Some result.now }
    {
        &self.parts[circuit.index()]
    }

    /// The parts of all circuits, in the order of the configuration.
    pub fn parts(&self) -> &[CircuitPart]
        ensures { result.now ≡ self.now.circuits }
    {
        &self.parts
    }

    /// How many circuits there are, at most 1024.
    pub fn count(&self) -> usize
        ensures value { result ≡ length self.now.circuits }
        ensures most { length self.now.circuits ≤ 1024 }
    {
        self.parts.len()
    }

    /// How many relays there are.
    pub fn relay_count(&self) -> usize
        ensures { result ≡ length self.now.relays }
    {
        self.relays.len()
    }

    /// Where the datagrams of a relay come from.
    pub fn relay(&self, relay: RelayNo) -> Source
        requires { relay < length self.now.relays }
        ensures { slice_get self.now.relays relay ≡ Some result }
    {
        self.relays[relay.index()]
    }

    /// Where the server receives DHCPv4 datagrams.
    pub fn listen4(&self) -> Source
        ensures { result ≡ self.now.listen4 }
    {
        self.listen4
    }

    /// Where the server receives DHCPv6 datagrams.
    pub fn listen6(&self) -> Source
        ensures { result ≡ self.now.listen6 }
    {
        self.listen6
    }

    /// Whether one of the relays sends its datagrams from here.
    pub fn is_relay(&self, source: Source) -> bool
        ensures { result ≡ is_relay self.now source }
    {
        self.relays.iter().any(|relay| source == *relay)
    }

    /// Whether the server sends its datagrams from here, in either protocol.
    pub fn is_server(&self, source: Source) -> bool
        ensures { result ≡ is_server self.now source }
    {
        source == self.listen4 || source == self.listen6
    }
}

/// The index of the first of these relays that sends from this source.
fn index_of(relays: &[Source], source: Source) -> Option<usize>
    ensures { result ≡ position (same_source source) relays.now }
{
    relays.iter().position(|relay| source == *relay)
}

/// Where the datagrams of each relay come from, in the order of the configuration.
fn relays_of(alloc: Global, config: &Config) -> Result<Vec<Source>, AllocError>
    ensures { IfOk result (λ sources. sources.items ≡ map (λ relay. relay.source) config.now.relays) }
{
    let mut sources = Vec::with_capacity(alloc, config.relay_count())?;
    'relays: for index in 0..config.relay_count() {
        let no = RelayNo::at(index);
        sources.push(config.relay(no).source)?;
    }
    Ok(sources)
}

/// The parts of all circuits, in the order of the configuration.
fn parts_of(alloc: Global, config: &Config) -> Result<Vec<CircuitPart>, AllocError>
    ensures value { IfOk result (λ parts. parts.items ≡ parts_of config.now) }
    ensures sound { IfOk result (λ parts. All IsPart (parts_of config.now)) }
{
    let mut parts = Vec::with_capacity(alloc, config.circuit_count())?;
    'circuits: for index in 0..config.circuit_count() {
        let circuit = Circuit::at(index);
        parts.push(CircuitPart::of(config, circuit))?;
    }
    Ok(parts)
}

/// The members of one plan that has all of so many circuits.
fn one_plan(alloc: Global, count: usize) -> Result<Vec<Members>, AllocError>
    ensures value { IfOk result (λ members. map (λ row. row.items) members.items ≡ replicate count (true ∷ [])) }
    ensures each { IfOk result (λ members. All (λ row. length row.items ≡ 1) members.items) }
{
    let mut members = Vec::with_capacity(alloc, count)?;
    'circuits: for index in 0..count {
        let mut row = Members::new();
        row.push(true);
        members.push(row)?;
    }
    Ok(members)
}

/// Copies of these members.
fn copies_of(alloc: Global, members: &[Members]) -> Result<Vec<Members>, AllocError>
    ensures { IfOk result (λ copies. copies.items ≡ members.now) }
{
    let mut copies = Vec::with_capacity(alloc, members.len())?;
    'rows: for row in members {
        copies.push(copy_of(row))?;
    }
    Ok(copies)
}
