//! A world: its relays, the network, the server and a disk.
ghost use Rattle.std.specs.Prelude.{◌≡◌, ℕ, ◌+◌, ◌*◌, ◌<◌, ◌≤◌, [], Some, length, nat_lt, if◌then◌else◌, slice_get};
ghost use Rattle.std.specs.Prelude.{take, IfOk, IfErr, IfSome, OnOk};
ghost use Rattle.config.specs.CircuitPart.{CircuitPart, parts_of};
ghost use Rattle.dispatch.specs.Regions.{AreRegionsMigrated, AreSynced, HasRegions, KeepsOthers};
ghost use Rattle.dispatch.specs.declared.server.OpenFault.TheVariants as fault;
ghost use Rattle.lease_disk.specs.Crash.{crashed};
ghost use Rattle.lease_disk.specs.Model.{device_of, failing_call_of, disk_region};
ghost use Rattle.config.specs.Plans.{one_plan};
ghost use Rattle.config.specs.Topology.{RegionsDiffer, plans_topology, reloaded, topology_of};
ghost use Rattle.lossy_net.specs.Net.{datagrams};
ghost use Rattle.lossy_net.specs.declared.dir.Dir.{Dir};
ghost use Rattle.world.specs.Headline.{EmitsAt, Emits, Reaches, Steps, frame_of, topology_after};
ghost use Rattle.events.specs.Seen.{Frame, Up, Down, Tick, Restart, comeback_at};
ghost use Rattle.events.specs.declared.event.Event as event;
ghost use Rattle.events.specs.declared.event.Event.TheVariants as events;
ghost use Rattle.events.specs.declared.outcome.Outcome.TheVariants as outcome;
ghost use Rattle.world.specs.Start.{Starts};
ghost use Rattle.events.specs.Stray.{stray_outcome, stray_down_outcome, stray_up_outcome};
ghost use Rattle.world.specs.StepsAs.{AllMove, IsWorld, Moves, turns_off};
ghost use Rattle.world.specs.World.{states};

mod batch;

use crate::laws;
use crate::machine::{Machine, run};
use crate::sink::Sink;
use config::{Config, Plans};
use dispatch::{BatchAnswers, OpenFault, Server};
use events::{Comeback, Event, Outcome};
use lease_disk::{Image, ModelDisk};
use lossy_net::{Dir, Net};
use relay::Relays;
use std::alloc::Global;
use std::marker::Model;
use types::{Circuit, Moment, Proto, RelayNo, Source};
use wire::PacketBuf;

/// A world.
#[derive(Drop)]
pub struct World {
    relays: Relays,
    net: Net,
    server: Server,
    disk: ModelDisk,
    // room for the answers to a batch
    answers: BatchAnswers,
}

impl Model for World {
    ghost use Rattle.world.specs.World.{WorldValue};
    ghost use Rattle.world.specs.StepsAs.{IsWorld};

    ghost Value = { WorldValue };

    ghost view = { λ w. record { relays = w.relays; net = w.net; server = w.server; disk = w.disk } };

    ghost invariant = { λ w. IsWorld (record { relays = w.relays; net = w.net; server = w.server; disk = w.disk }) };
}

/// There is no such circuit, or it is not served.
fn gone(out: &mut PacketBuf) -> Outcome
    ensures gone { result ≡ outcome.Gone }
    ensures empty { out.new ≡ [] }
{
    out.clear();
    Outcome::Gone
}

/// Each circuit's region becomes what its image says, and the call of the disk that fails in its move is set.
fn crash_all(server: &Server, disk: &mut ModelDisk, comebacks: &[Comeback])
    requires few { length server.now.topology.circuits ≤ 1024 }
    requires regions { HasRegions server.now.topology.circuits (length disk.old.regions) }
    requires differ { RegionsDiffer server.now.topology.circuits }
    ensures crashed { (c : ℕ) (part : CircuitPart) → slice_get server.now.topology.circuits c ≡ Some part
        → disk_region disk.new part.region ≡ crashed (comeback_at c comebacks.now).image (disk_region disk.old part.region) }
    ensures faults { (c : ℕ) (part : CircuitPart) → slice_get server.now.topology.circuits c ≡ Some part
        → failing_call_of disk.new part.region ≡ (comeback_at c comebacks.now).move_fault }
    ensures count { length disk.new.regions ≡ length disk.old.regions }
    ensures others { KeepsOthers server.now.topology.circuits (device_of disk.old) (device_of disk.new) }
{
    'circuits: for index in 0..server.circuit_count() {
        let circuit = Circuit::at(index);
        let comeback = comebacks.get(index).copied().unwrap_or(Comeback {
            image: Image::Byte(0),
            move_fault: 0,
        });
        let region = server.part(circuit).region();
        disk.crash(region, comeback.image);
        disk.fail_at(region, comeback.move_fault);
    }
}

/// No call of the disk fails from now on for the region of a circuit.
fn clear_faults(server: &Server, disk: &mut ModelDisk)
    requires few { length server.now.topology.circuits ≤ 1024 }
    requires regions { HasRegions server.now.topology.circuits (length disk.old.regions) }
    ensures states { disk_region disk.new ≡ disk_region disk.old }
    ensures faults { (c : ℕ) (part : CircuitPart) → slice_get server.now.topology.circuits c ≡ Some part
        → failing_call_of disk.new part.region ≡ 0 }
    ensures count { length disk.new.regions ≡ length disk.old.regions }
    ensures reads { disk.new.reads ≡ disk.old.reads }
    ensures writes { disk.new.writes ≡ disk.old.writes }
    ensures others { KeepsOthers server.now.topology.circuits (device_of disk.old) (device_of disk.new) }
{
    'circuits: for index in 0..server.circuit_count() {
        disk.fail_at(server.part(Circuit::at(index)).region(), 0);
    }
}

/// Loses what the network keeps of each circuit that a plan turns off.
fn clear_all(relays: &Relays, net: &mut Net, plan: u8)
    requires few { length relays.now.topology.circuits ≤ 1024 }
    requires count { length net.old.circuits ≡ length relays.now.topology.circuits }
    ensures queues { (c : ℕ) (dir : Dir)
        → datagrams net.new c dir ≡ (if turns_off relays.now.topology plan c then [] else datagrams net.old c dir) }
    ensures count { length net.new.circuits ≡ length net.old.circuits }
    ensures quota { net.new.quota ≡ net.old.quota }
{
    'circuits: for index in 0..net.circuit_count() {
        let circuit = Circuit::at(index);
        if relays.serves(circuit) && !relays.serves_in(plan, circuit) {
            net.clear(circuit);
        }
    }
}

impl World {
    /// The world of a configuration over this disk, where the network keeps at most `quota` datagrams of
    /// a circuit and direction. Each circuit begins with the leases that its region holds. A region of format 1 is moved
    /// to format 2, where the disk's `fail_at` says which of the four calls fails; no later one does. All memory that its
    /// steps need is taken here. A refusal drops the disk.
    pub fn open(
        alloc: Global,
        config: &Config,
        mut disk: ModelDisk,
        quota: u16,
    ) -> Result<World, OpenFault>
        requires some { 1 ≤ quota }
        requires most { quota ≤ 256 }
        requires synced { AreSynced (parts_of config.now) (disk_region disk) }
        ensures starts { IfOk result (λ world. Starts (one_plan config.now) quota (device_of disk) (states world)) }
        ensures topology { IfOk result (λ world. world.relays.topology ≡ topology_of config.now) }
        ensures regions { IfOk result (λ world. AreRegionsMigrated (parts_of config.now) (device_of disk) (device_of world.disk)) }
        ensures others { IfOk result (λ world. KeepsOthers (parts_of config.now) (device_of disk) (device_of world.disk)) }
        ensures faults { IfOk result (λ world.
            (c : ℕ) (part : CircuitPart) → slice_get (parts_of config.now) c ≡ Some part
            → failing_call_of world.disk part.region ≡ 0) }
        ensures small { IfErr result (λ why. why ≡ fault.DiskTooSmall → ¬ HasRegions (parts_of config.now) (length disk.regions)) }
        ensures large { IfOk result (λ world. HasRegions (parts_of config.now) (length disk.regions)) }
        ensures reads { IfOk result (λ world. world.disk.reads ≤ disk.reads + 5 * length config.now.circuits) }
        ensures writes { IfOk result (λ world. world.disk.writes ≤ disk.writes + 4 * length config.now.circuits) }
    {
        let Ok(relays) = Relays::new(alloc, config) else {
            // here and below by a call: all that is dropped would otherwise be part of this function's proof
            drop(disk);
            return Err(OpenFault::Memory);
        };
        let Ok(net) = Net::new(alloc, config.circuit_count(), usize::from(quota)) else {
            drop((relays, disk));
            return Err(OpenFault::Memory);
        };
        match Server::open(alloc, config, &mut disk) {
            Ok(server) => Ok(World::over(relays, net, server, disk)),
            Err(why) => {
                drop((relays, net, disk));
                Err(why)
            }
        }
    }

    /// Opens the world of several plans, with the first in force. The regions of all their circuits are recovered.
    pub fn open_plans(
        alloc: Global,
        plans: &Plans,
        mut disk: ModelDisk,
        quota: u16,
    ) -> Result<World, OpenFault>
        requires some { 1 ≤ quota }
        requires most { quota ≤ 256 }
        requires synced { AreSynced (parts_of plans.now.union) (disk_region disk) }
        ensures starts { IfOk result (λ world. Starts plans.now quota (device_of disk) (states world)) }
        ensures topology { IfOk result (λ world. world.relays.topology ≡ plans_topology plans.now) }
        ensures regions { IfOk result (λ world. AreRegionsMigrated (parts_of plans.now.union) (device_of disk) (device_of world.disk)) }
        ensures others { IfOk result (λ world. KeepsOthers (parts_of plans.now.union) (device_of disk) (device_of world.disk)) }
        ensures faults { IfOk result (λ world.
            (c : ℕ) (part : CircuitPart) → slice_get (parts_of plans.now.union) c ≡ Some part
            → failing_call_of world.disk part.region ≡ 0) }
        ensures small { IfErr result (λ why. why ≡ fault.DiskTooSmall → ¬ HasRegions (parts_of plans.now.union) (length disk.regions)) }
        ensures large { IfOk result (λ world. HasRegions (parts_of plans.now.union) (length disk.regions)) }
        ensures reads { IfOk result (λ world. world.disk.reads ≤ disk.reads + 5 * length plans.now.union.circuits) }
        ensures writes { IfOk result (λ world. world.disk.writes ≤ disk.writes + 4 * length plans.now.union.circuits) }
    {
        let Ok(relays) = Relays::new_plans(alloc, plans) else {
            drop(disk);
            return Err(OpenFault::Memory);
        };
        let count = plans.union().circuit_count();
        let Ok(net) = Net::new(alloc, count, usize::from(quota)) else {
            drop((relays, disk));
            return Err(OpenFault::Memory);
        };
        match Server::open_plans(alloc, plans, &mut disk) {
            Ok(server) => Ok(World::over(relays, net, server, disk)),
            Err(why) => {
                drop((relays, net, disk));
                Err(why)
            }
        }
    }

    /// A world of these, in which no call of the disk fails.
    fn over(relays: Relays, net: Net, server: Server, mut disk: ModelDisk) -> World
        requires { IsWorld (record { relays = relays; net = net; server = server; disk = disk }) }
        ensures relays { result.relays ≡ relays }
        ensures net { result.net ≡ net }
        ensures server { result.server ≡ server }
        ensures states { disk_region result.disk ≡ disk_region disk }
        ensures count { length result.disk.regions ≡ length disk.regions }
        ensures reads { result.disk.reads ≡ disk.reads }
        ensures writes { result.disk.writes ≡ disk.writes }
        ensures faults { (c : ℕ) (part : CircuitPart) → slice_get server.topology.circuits c ≡ Some part
            → failing_call_of result.disk part.region ≡ 0 }
        ensures others { KeepsOthers server.topology.circuits (device_of disk) (device_of result.disk) }
    {
        clear_faults(&server, &mut disk);
        World {
            relays,
            net,
            server,
            disk,
            answers: BatchAnswers::new(),
        }
    }

    /// The disk.
    pub fn disk(&self) -> &ModelDisk
        ensures { result.now ≡ self.now.disk }
    {
        &self.disk
    }

    /// Whether there is such a circuit.
    fn exists(&self, circuit: Circuit) -> bool
        ensures value { result ≡ nat_lt circuit (length self.now.net.circuits) }
        ensures states { result ≡ nat_lt circuit (length (states self.now)) }
    {
        circuit.index() < self.net.circuit_count()
    }

    /// A client's frame at the relay.
    fn frame(
        &mut self,
        circuit: Circuit,
        proto: Proto,
        frame: &[u8],
        out: &mut PacketBuf,
    ) -> Outcome
        requires { circuit < length self.old.net.circuits }
        ensures moves { Moves circuit (Frame proto frame.now) (states self.old) (states self.new) result out.new }
        ensures topology { self.new.relays.topology ≡ self.old.relays.topology }
        ensures disk { self.new.disk ≡ self.old.disk }
    {
        laws::comes_to_its_circuit();
        relay::laws::has_counter(&self.relays, circuit);
        if !self.relays.serves(circuit) {
            return gone(out);
        }
        match self.relays.up(circuit, proto, frame, out) {
            Ok(()) => {
                self.net.send(circuit, Dir::Up, proto, out);
                let len = out.len();
                out.clear();
                Outcome::SentUp(len)
            }
            Err(why) => Outcome::Dropped(why),
        }
    }

    /// A datagram at the server.
    fn up(
        &mut self,
        circuit: Circuit,
        number: u16,
        now: Moment,
        fault: u8,
        out: &mut PacketBuf,
    ) -> Outcome
        requires { circuit < length self.old.net.circuits }
        ensures moves { Moves circuit (Up number now fault) (states self.old) (states self.new) result out.new }
        ensures topology { self.new.relays.topology ≡ self.old.relays.topology }
        ensures others { KeepsOthers self.old.relays.topology.circuits (device_of self.old.disk) (device_of self.new.disk) }
    {
        laws::reply_comes_to_its_circuit();
        if !self.relays.serves(circuit) {
            return gone(out);
        }
        out.clear();
        let part = self.server.part(circuit);
        let (source, region) = (part.relay(), part.region());
        let Some((proto, datagram)) = self.net.deliver(circuit, Dir::Up, number) else {
            return Outcome::Gone;
        };
        wire::laws::are_bytes(datagram);
        self.disk.fail_at(region, fault);
        let result = self
            .server
            .receive(proto, source, datagram, now, &mut self.disk, out);
        self.disk.fail_at(region, 0);
        match result {
            Ok(()) => {
                self.net.send(circuit, Dir::Down, proto, out);
                let len = out.len();
                out.clear();
                Outcome::SentDown(len)
            }
            Err(why) => Outcome::Dropped(why),
        }
    }

    /// A datagram at the relay.
    fn down(&mut self, circuit: Circuit, number: u16, out: &mut PacketBuf) -> Outcome
        requires { circuit < length self.old.net.circuits }
        ensures moves { Moves circuit (Down number) (states self.old) (states self.new) result out.new }
        ensures topology { self.new.relays.topology ≡ self.old.relays.topology }
        ensures disk { self.new.disk ≡ self.old.disk }
    {
        if !self.relays.serves(circuit) {
            return gone(out);
        }
        out.clear();
        let Some((proto, datagram)) = self.net.deliver(circuit, Dir::Down, number) else {
            return Outcome::Gone;
        };
        let source = self.server.part(circuit).listen(proto);
        let relay = self.relays.relay_no(circuit);
        match self.relays.down(relay, source, datagram, out) {
            Ok(sent) => Outcome::Framed(sent.0, sent.1),
            Err(why) => Outcome::Dropped(why),
        }
    }

    /// A moment for all circuits.
    fn tick(&mut self, now: Moment, out: &mut PacketBuf) -> Outcome
        ensures moves { AllMove (λ c. Tick now) (states self.old) (states self.new) result out.new }
        ensures done { result ≡ outcome.Done }
        ensures topology { self.new.relays.topology ≡ self.old.relays.topology }
        ensures disk { self.new.disk ≡ self.old.disk }
        ensures empty { out.new ≡ [] }
    {
        out.clear();
        self.server.tick(now);
        Outcome::Done
    }

    /// The server and the disk stop and start again.
    fn restart(&mut self, comebacks: &[Comeback], out: &mut PacketBuf) -> Outcome
        ensures moves { AllMove (λ c. Restart (comeback_at c comebacks.now)) (states self.old) (states self.new) result out.new }
        ensures done { result ≡ outcome.Done }
        ensures topology { self.new.relays.topology ≡ self.old.relays.topology }
        ensures others { KeepsOthers self.old.relays.topology.circuits (device_of self.old.disk) (device_of self.new.disk) }
        ensures empty { out.new ≡ [] }
    {
        out.clear();
        crash_all(&self.server, &mut self.disk, comebacks);
        self.server.restart(&mut self.disk);
        clear_faults(&self.server, &mut self.disk);
        Outcome::Done
    }

    /// Another plan comes into force, if there is such a plan.
    fn reload(&mut self, plan: u8, out: &mut PacketBuf) -> Outcome
        ensures steps { (e : event.Event) → e ≡ events.Reload plan → Steps e (states self.old) (states self.new) result out.new }
        ensures topology { self.new.relays.topology ≡ reloaded plan self.old.relays.topology }
        ensures disk { self.new.disk ≡ self.old.disk }
    {
        out.clear();
        if !self.relays.has_plan(plan) {
            return Outcome::NoPlan;
        }
        clear_all(&self.relays, &mut self.net, plan);
        let _ = self.server.reload(plan);
        let _ = self.relays.reload(plan);
        Outcome::Done
    }

    /// A datagram at the server that no relay sent.
    fn stray_up(
        &mut self,
        proto: Proto,
        source: Source,
        datagram: &[u8],
        now: Moment,
        out: &mut PacketBuf,
    ) -> Outcome
        ensures outcome { result ≡ stray_up_outcome self.old.relays.topology source }
        ensures frame { frame_of result out.new ≡ [] }
        ensures empty { out.new ≡ [] }
        ensures states { states self.new ≡ states self.old }
        ensures topology { self.new.relays.topology ≡ self.old.relays.topology }
        ensures device { device_of self.new.disk ≡ device_of self.old.disk }
    {
        out.clear();
        if self.relays.is_relay(source) {
            return Outcome::NotAStray;
        }
        match self
            .server
            .receive(proto, source, datagram, now, &mut self.disk, out)
        {
            Ok(()) => unreachable!(),
            Err(why) => Outcome::Dropped(why),
        }
    }

    /// A datagram at a relay that the server didn't send.
    fn stray_down(
        &self,
        relay: RelayNo,
        source: Source,
        datagram: &[u8],
        out: &mut PacketBuf,
    ) -> Outcome
        ensures outcome { result ≡ stray_down_outcome self.now.relays.topology relay source }
        ensures frame { frame_of result out.new ≡ [] }
        ensures empty { out.new ≡ [] }
    {
        out.clear();
        if !self.relays.exists(relay) {
            return Outcome::Gone;
        }
        if self.relays.is_server(source) {
            return Outcome::NotAStray;
        }
        match self.relays.down(relay, source, datagram, out) {
            Ok(_) => unreachable!(),
            Err(why) => Outcome::Dropped(why),
        }
    }

    /// Takes one event. A frame that leaves is in `out`, which is empty after every other outcome.
    #[inline(always)]
    pub fn step(&mut self, event: &Event<'_>, out: &mut PacketBuf) -> Outcome
        ensures steps { Steps event.now (states self.old) (states self.new) result out.new }
        ensures stray { IfSome (stray_outcome self.old.relays.topology event.now) (λ expected. result ≡ expected) }
        ensures topology { self.new.relays.topology ≡ topology_after event.now self.old.relays.topology }
        ensures others { KeepsOthers self.old.relays.topology.circuits (device_of self.old.disk) (device_of self.new.disk) }
    {
        match *event {
            Event::Frame(circuit, proto, frame) => {
                if !self.exists(circuit) {
                    return gone(out);
                }
                self.frame(circuit, proto, frame, out)
            }
            Event::Up(circuit, number, now, fault) => {
                if !self.exists(circuit) {
                    return gone(out);
                }
                self.up(circuit, number, now, fault, out)
            }
            Event::Batch(now, sync, parts) => self.batch(now, sync, parts, out),
            Event::Down(circuit, number) => {
                if !self.exists(circuit) {
                    return gone(out);
                }
                self.down(circuit, number, out)
            }
            Event::Tick(now) => self.tick(now, out),
            Event::Restart(comebacks) => self.restart(comebacks, out),
            Event::Reload(plan) => self.reload(plan, out),
            Event::StrayUp(proto, source, datagram, now) => {
                self.stray_up(proto, source, datagram, now, out)
            }
            Event::StrayDown(relay, source, datagram) => {
                self.stray_down(relay, source, datagram, out)
            }
        }
    }

    /// Takes the events in order and hands each frame that leaves to the sink. It stops at the first
    /// frame that the sink refuses, and returns the number of that event, 0 for the first.
    pub fn run<S: Sink>(&mut self, events: &[Event<'_>], sink: &mut S) -> Result<(), usize>
        ensures frames { OnOk result (Emits events.now (states self.old) (S.taken sink.old) (S.taken sink.new)) }
        ensures reaches { OnOk result (Reaches events.now (states self.old) (states self.new)) }
        ensures others { KeepsOthers self.old.relays.topology.circuits (device_of self.old.disk) (device_of self.new.disk) }
        ensures quiet { OnOk result (S.refusals sink.new ≡ S.refusals sink.old) }

        // The sink refused the frame of event n: it has those of the events before, and the world has
        // taken event n.
        ensures within { IfErr result (λ n. n < length events.now) }
        ensures frames_before { IfErr result (λ n. Emits (take n events.now) (states self.old) (S.taken sink.old) (S.taken sink.new)) }
        ensures reaches_past { IfErr result (λ n. Reaches (take (n + 1) events.now) (states self.old) (states self.new)) }
        ensures refused { IfErr result (λ n. S.refusals sink.new ≡ S.refusals sink.old + 1) }
        ensures emits_at { IfErr result (λ n. EmitsAt n events.now (states self.old)) }
    {
        run(self, events, sink)
    }
}

impl Machine for World {
    ghost use Rattle.lease_disk.specs.Model.{device_of};
    ghost use Rattle.world.specs.World.{states};
    ghost use Rattle.wire.specs.Bytes.{AreBytes};

    ghost states = { λ world. states world };

    ghost topology = { λ world. world.relays.topology };

    ghost device = { λ world. device_of world.disk };

    #[inline(always)]
    fn step(&mut self, event: &Event<'_>, out: &mut PacketBuf) -> Outcome {
        World::step(self, event, out)
    }
}
