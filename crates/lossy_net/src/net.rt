//! What the network keeps, and how it is sent and delivered.
ghost use Rattle.std.specs.Prelude.{◌≡◌, ◌≢◌, ◌↔◌, ℕ, ◌<◌, ◌≤◌, [], ◌∷◌, take, replicate, length, slice_get, option_map, IsTrue, IfOk};
ghost use Rattle.lossy_net.specs.Net.{datagrams, opposite};
ghost use Rattle.lossy_net.specs.Layout.{ring_of};
ghost use Rattle.lossy_net.specs.declared.dir.Dir.{Dir};

use crate::dir::Dir;
use crate::packets::Packets;
use crate::ring::Ring;
use std::alloc::Global;
use std::marker::Model;
use types::{Circuit, Memory, Proto};
use wire::PacketBuf;

/// The most datagrams that are kept of a circuit in one direction.
pub const MAX_QUOTA: usize = 256;

/// The network between relay and server. For each circuit and direction it keeps the datagrams that
/// were sent last, as many as the quota; no call after `new` needs memory.
#[derive(Drop)]
pub struct Net {
    circuits: usize,
    quota: usize,
    // `quota` places for each ring
    packets: Packets,
    // two for each circuit: towards the server, and towards the relay
    rings: Vec<Ring>,
}

impl Model for Net {
    ghost use Rattle.lossy_net.specs.Net.{NetValue};

    ghost Value = { NetValue };

    ghost use Rattle.lossy_net.specs.Layout.{net_value, IsLaidOut};

    ghost view = { net_value };

    ghost invariant = { IsLaidOut };
}

impl Net {
    /// A network of this many circuits, which keeps nothing yet. `Memory` only where the room for
    /// `2 * circuits * quota` datagrams or for their order is refused.
    pub fn new(alloc: Global, circuits: usize, quota: usize) -> Result<Net, Memory>
        requires some_circuits { 1 ≤ circuits }
        requires circuits { circuits ≤ 1024 }
        requires some_quota { 1 ≤ quota }
        requires quota { quota ≤ 256 }
        ensures circuits { IfOk result (λ net. length net.circuits ≡ circuits) }
        ensures quota { IfOk result (λ net. net.quota ≡ quota) }
        ensures empty { IfOk result (λ net. (circuit : ℕ) (dir : Dir) → datagrams net circuit dir ≡ []) }
    {
        let lists = 2 * circuits;
        let packets = Packets::new(alloc, lists * quota)?;
        let rings = empty_rings(alloc, lists)?;
        Ok(Net {
            circuits,
            quota,
            packets,
            rings,
        })
    }

    /// Keeps a copy of the datagram as the newest of this circuit and direction. True where the
    /// oldest of this circuit and direction was lost to make room.
    pub fn send(&mut self, circuit: Circuit, dir: Dir, proto: Proto, packet: &PacketBuf) -> bool
        requires exists { circuit < length self.old.circuits }
        ensures kept { datagrams self.new circuit dir
            ≡ take self.old.quota (record { proto = proto; bytes = packet.now } ∷ datagrams self.old circuit dir) }
        ensures lost { IsTrue result ↔ (length (datagrams self.old circuit dir) ≡ self.old.quota) }
        ensures other_direction { datagrams self.new circuit (opposite dir) ≡ datagrams self.old circuit (opposite dir) }
        ensures other_circuits { (other : ℕ) (way : Dir) → other ≢ circuit → datagrams self.new other way ≡ datagrams self.old other way }
        ensures circuits { length self.new.circuits ≡ length self.old.circuits }
        ensures quota { self.new.quota ≡ self.old.quota }
    {
        let index = ring_index(circuit, dir);
        let old = self.rings[index];
        let new = old.next(self.quota);
        self.rings[index] = new;
        let place = index * self.quota + new.newest;
        self.packets.replace(place, proto, packet.as_slice());
        old.len == self.quota
    }

    /// Loses all datagrams of this circuit, in both directions.
    pub fn clear(&mut self, circuit: Circuit)
        requires { circuit < length self.old.circuits }
        ensures empty { (dir : Dir) → datagrams self.new circuit dir ≡ [] }
        ensures others { (other : ℕ) (way : Dir) → other ≢ circuit → datagrams self.new other way ≡ datagrams self.old other way }
        ensures circuits { length self.new.circuits ≡ length self.old.circuits }
        ensures quota { self.new.quota ≡ self.old.quota }
    {
        let up = ring_index(circuit, Dir::Up);
        let down = ring_index(circuit, Dir::Down);
        self.rings[up] = Ring::EMPTY;
        self.rings[down] = Ring::EMPTY;
    }

    /// The datagram with this number in the list of this circuit and direction, 0 the newest; `None`
    /// exactly where there are not that many.
    pub fn deliver(&self, circuit: Circuit, dir: Dir, number: u16) -> Option<(Proto, &[u8])>
        ensures { option_map (λ d. record { proto = d.0; bytes = d.1.now }) result ≡ slice_get (datagrams self.now circuit dir) number }
    {
        if circuit.index() >= self.circuits {
            return None;
        }
        let index = ring_index(circuit, dir);
        let ring = self.rings[index];
        let number = usize::from(number);
        if number >= ring.len {
            return None;
        }
        let place = index * self.quota + ring.position(number, self.quota);
        Some(self.packets.get(place))
    }

    /// How many circuits there are.
    pub fn circuit_count(&self) -> usize
        ensures { result ≡ length self.now.circuits }
    {
        self.circuits
    }

    /// How many datagrams are kept of a circuit in each direction.
    pub fn quota(&self) -> usize
        ensures value { result ≡ self.now.quota }
        ensures within { (circuit : ℕ) (dir : Dir) → length (datagrams self.now circuit dir) ≤ self.now.quota }
        ensures least { 1 ≤ self.now.quota }
        ensures most { self.now.quota ≤ 256 }
    {
        self.quota
    }
}

/// The ring of a circuit and direction.
fn ring_index(circuit: Circuit, dir: Dir) -> usize
    ensures { result ≡ ring_of circuit dir }
{
    match dir {
        Dir::Up => 2 * circuit.index(),
        Dir::Down => 2 * circuit.index() + 1,
    }
}

/// This many rings of no datagrams.
fn empty_rings(alloc: Global, count: usize) -> Result<Vec<Ring>, Memory>
    ensures { IfOk result (λ rings. rings.items ≡ replicate count (record { newest = 0; len = 0 })) }
{
    Vec::from_elem(alloc, Ring::EMPTY, count).map_err(|_| Memory)
}
