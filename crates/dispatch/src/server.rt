//! The server of all circuits, over a device that keeps their leases.
ghost use Rattle.std.specs.Prelude.{◌≡◌, ◌<◌, ◌≤◌, ◌+◌, ◌*◌, ◌↔◌, ℕ, Option, [], length, map, replicate, slice_get, None};
ghost use Rattle.std.specs.Prelude.{Some, true, false, is_some, nat_lt, ◌==◌, option_map, count_by, All, IfOk, IfErr, IfSome, OnErr};
ghost use Rattle.config.specs.CircuitPart.{parts_of};
ghost use Rattle.config.specs.Topology.{IsTopology, plans_topology, reloaded, serves, topology_of};
ghost use Rattle.requests.specs.Addressee as who;
ghost use Rattle.circuit_server.specs.Deadlines.{held_in};
ghost use Rattle.circuit_server.specs.SlotsOfPools.{HasItsSlots};
ghost use Rattle.dispatch.specs.Batch.{is_circuit};
ghost use Rattle.dispatch.specs.Deadlines.{AllUnchangedOrUntilHeld, AreSetAnew, KeepsDeadlines};
ghost use Rattle.dispatch.specs.ServerValue.{AreReady, BeginsAsFound, HaveSettledRegions, HoldsDeadlines, books_in, circuits_in, leases_in};
ghost use Rattle.circuit_server.specs.Leases.{Leases, after_tick, found_leases, turned};
ghost use Rattle.dispatch.specs.Regions.{AreRegionsMigrated, AreSynced, HasRegions, KeepsOthers};
ghost use Rattle.dispatch.specs.Reopened.{IsCalledToReopen, IsReopened, IsSettledAlone, KeepsOtherCircuits};
ghost use Rattle.dispatch.specs.Restarted.{IsOpened, IsRestartOf};
ghost use Rattle.dispatch.specs.Received.{received, received_leases, received_saves};
ghost use Rattle.dispatch.specs.ReceivedAlone.{IsFound, IsReceivedAlone};
ghost use Rattle.circuit_server.specs.Answered.{IsAnswer, fails_at};
ghost use Rattle.circuit_server.specs.Calls.{IsCalledToSaveAt};
ghost use Rattle.circuit_server.specs.CircuitServerValue.{OpenCircuitValue, kept_slots};
ghost use Rattle.circuit_server.specs.Ticked.{server_state};
ghost use Rattle.dispatch.specs.declared.server.OpenFault.TheVariants as fault;
ghost use Rattle.lease_disk.specs.Device.{IsCalledWithin, WritesAt, has_failed};
ghost use Rattle.types.specs.Delivery.{delivery};
ghost use Rattle.lease_disk.specs.Region.{IsClean, Region};
ghost use Rattle.timers.specs.Deadlines.{deadline, entry_after_sweep, is_due};

mod batch;
mod batch_answers;
mod savings;

use crate::circuit_servers::{closed_servers, have_slots, restart_all, turn_off_all};
pub use batch_answers::{Answer, BatchAnswers};
use circuit_server::CircuitServer;
use config::{CircuitPart, Circuits, Config, Plans};
use lease_disk::{Disk, HALVES_SIZE};
use requests::{RelayedMessage, addressee};
use std::alloc::{AllocError, Global};
use std::marker::Model;
use thiserror::Error;
use timers::Deadlines;
use types::{Circuit, Delivery, Discard, Moment, Proto, SLOTS, Slots, Source};
use wire::PacketBuf;

/// Why a server was not opened.
#[derive(Clone, Copy, Debug, PartialEq, Eq, Error)]
pub enum OpenFault {
    /// A request for memory was refused.
    #[error("out of memory")]
    Memory,
    /// The device lacks the region of a circuit.
    #[error("the disk has fewer regions than the circuits need")]
    DiskTooSmall,
}

/// The server of all circuits of a configuration. It holds all that it needs of it, and no call but
/// `open` and `open_plans` takes memory. Each of its calls has to be over the device that it was opened over, which
/// nobody else writes to meanwhile.
#[derive(Drop)]
pub struct Server {
    circuits: Circuits,
    /// That of each circuit, by index.
    servers: Vec<CircuitServer>,
    /// The latest moment of a tick since the last restart. The clock of an open circuit is this where it is later than its own, so
    /// that a tick looks at no circuit.
    ticked: Moment,
    /// When the slots of all circuits are due: slot s of circuit c has the number 32 c + s.
    deadlines: Deadlines,
    /// In which the regions of format 1 are moved.
    buffer: Vec<u8>,
}

impl Model for Server {
    ghost use Rattle.std.specs.Prelude.{◌≡◌, length, map};
    ghost use Rattle.circuit_server.specs.Ticked.{state_at};
    ghost use Rattle.dispatch.specs.ServerValue.{HoldsDeadlines, IsServer, ServerValue};

    ghost Value = { ServerValue };

    ghost view = { λ s. record { topology = s.circuits; states = map (state_at s.ticked) s.servers.items; deadlines = s.deadlines } };

    ghost invariant = { λ s. IsServer s.circuits (map (state_at s.ticked) s.servers.items)
        × HoldsDeadlines s.deadlines (map (state_at s.ticked) s.servers.items)
        × (length s.buffer.items ≡ 16384) };
}

/// Whether the device has the region of each circuit.
fn has_regions(parts: &[CircuitPart], count: u16) -> bool
    ensures yes { result ≡ true → HasRegions parts.now count }
    ensures no { result ≡ false → ¬ HasRegions parts.now count }
{
    'circuits: for part in parts {
        if part.region() >= count {
            return false;
        }
    }
    true
}

/// What a server of so many circuits holds beside them, while each is closed.
fn rooms(
    alloc: Global,
    count: usize,
) -> Result<(Vec<CircuitServer>, Deadlines, Vec<u8>), AllocError>
    requires some { 1 ≤ count }
    requires few { count ≤ 1024 }
    ensures servers { IfOk result (λ made. made.0.items ≡ replicate count None) }
    ensures deadlines { IfOk result (λ made. made.1.slots ≡ replicate (32 * count) None) }
    ensures buffer { IfOk result (λ made. length made.2.items ≡ 16384) }
{
    let servers = closed_servers(alloc, count)?;
    let deadlines = Deadlines::new(alloc, SLOTS * count)?;
    let buffer = Vec::from_elem(alloc, 0, HALVES_SIZE)?;
    Ok((servers, deadlines, buffer))
}

impl Server {
    /// The server of a configuration over a device. Each circuit begins with the leases and the clock
    /// that its region holds; one whose region cannot be read or is damaged is closed, alone. A region of format 1
    /// is moved to format 2 first; where that fails its circuit is closed, alone, until a restart. All memory is
    /// taken before the device is first called.
    pub fn open<D: Disk>(alloc: Global, config: &Config, disk: &mut D) -> Result<Server, OpenFault>
        requires synced { D.tells ≡ true → AreSynced (parts_of config.now) (D.device disk.old).region }
        ensures topology { IfOk result (λ server. server.topology ≡ topology_of config.now) }
        ensures sound { IfOk result (λ server. IsTopology (topology_of config.now)) }
        ensures leases { D.tells ≡ true
            → IfOk result (λ server.
            leases_in (D.device disk.new).region server
            ≡ map (found_leases (D.device disk.old).region (D.device disk.old).failing_call)
            (parts_of config.now)) }
        ensures found { IfOk result (λ server. BeginsAsFound server) }
        ensures ready { D.tells ≡ true → IfOk result (λ server. AreReady (D.device disk.new).region server) }
        ensures deadlines { IfOk result (λ server. AreSetAnew server.deadlines server.states) }
        ensures large { IfOk result (λ server. HasRegions (parts_of config.now) (D.device disk.new).count) }
        ensures small { IfErr result (λ why. why ≡ fault.DiskTooSmall → ¬ HasRegions (parts_of config.now) (D.device disk.old).count) }
        ensures untouched { OnErr result (D.device disk.new ≡ D.device disk.old) }
        ensures regions { D.tells ≡ true
            → IfOk result (λ server. AreRegionsMigrated (parts_of config.now) (D.device disk.old) (D.device disk.new)) }
        ensures others { D.tells ≡ true → KeepsOthers (parts_of config.now) (D.device disk.old) (D.device disk.new) }
        ensures count { (D.device disk.new).count ≡ (D.device disk.old).count }
        ensures calls { let n = length config.now.circuits in
            IfOk result (λ server. IsCalledWithin n (5 * n) (4 * n) (D.device disk.old) (D.device disk.new)) }
        ensures settled { IfOk result (λ server. HaveSettledRegions (D.doubt disk.new) server) }
    {
        let Ok(circuits) = Circuits::of(alloc, config) else {
            return Err(OpenFault::Memory);
        };
        Server::over(alloc, circuits, disk)
    }

    /// The server of several plans over a device, with the first in force. Each circuit of any of them begins with the leases and the
    /// clock that its region holds.
    pub fn open_plans<D: Disk>(
        alloc: Global,
        plans: &Plans,
        disk: &mut D,
    ) -> Result<Server, OpenFault>
        requires synced { D.tells ≡ true → AreSynced (parts_of plans.now.union) (D.device disk.old).region }
        ensures topology { IfOk result (λ server. server.topology ≡ plans_topology plans.now) }
        ensures sound { IfOk result (λ server. IsTopology (plans_topology plans.now)) }
        ensures leases { D.tells ≡ true
            → IfOk result (λ server.
            leases_in (D.device disk.new).region server
            ≡ map (found_leases (D.device disk.old).region (D.device disk.old).failing_call)
            (parts_of plans.now.union)) }
        ensures found { IfOk result (λ server. BeginsAsFound server) }
        ensures ready { D.tells ≡ true → IfOk result (λ server. AreReady (D.device disk.new).region server) }
        ensures deadlines { IfOk result (λ server. AreSetAnew server.deadlines server.states) }
        ensures large { IfOk result (λ server. HasRegions (parts_of plans.now.union) (D.device disk.new).count) }
        ensures small { IfErr result (λ why. why ≡ fault.DiskTooSmall → ¬ HasRegions (parts_of plans.now.union) (D.device disk.old).count) }
        ensures untouched { OnErr result (D.device disk.new ≡ D.device disk.old) }
        ensures regions { D.tells ≡ true
            → IfOk result (λ server.
            AreRegionsMigrated (parts_of plans.now.union) (D.device disk.old) (D.device disk.new)) }
        ensures others { D.tells ≡ true → KeepsOthers (parts_of plans.now.union) (D.device disk.old) (D.device disk.new) }
        ensures count { (D.device disk.new).count ≡ (D.device disk.old).count }
        ensures calls { let n = length plans.now.union.circuits in
            IfOk result (λ server. IsCalledWithin n (5 * n) (4 * n) (D.device disk.old) (D.device disk.new)) }
        ensures settled { IfOk result (λ server. HaveSettledRegions (D.doubt disk.new) server) }
    {
        let Ok(circuits) = Circuits::of_plans(alloc, plans) else {
            return Err(OpenFault::Memory);
        };
        Server::over(alloc, circuits, disk)
    }

    /// The server of these circuits over a device, with what their regions hold.
    fn over<D: Disk>(alloc: Global, circuits: Circuits, disk: &mut D) -> Result<Server, OpenFault>
        requires some { 1 ≤ length circuits.circuits }
        requires sound { IsTopology circuits }
        requires synced { D.tells ≡ true → AreSynced circuits.circuits (D.device disk.old).region }
        ensures topology { IfOk result (λ server. server.topology ≡ circuits) }
        ensures opened { IfOk result (λ server.
            IsOpened D.tells circuits.circuits server (D.device disk.old) (D.device disk.new) (D.doubt disk.new)) }
        ensures small { IfErr result (λ why. why ≡ fault.DiskTooSmall → ¬ HasRegions circuits.circuits (D.device disk.old).count) }
        ensures untouched { OnErr result (D.device disk.new ≡ D.device disk.old) }
        ensures device { IsRestartOf D.tells circuits.circuits (D.device disk.old) (D.device disk.new) }
    {
        let Ok(mut server) = Server::closed(alloc, circuits) else {
            return Err(OpenFault::Memory);
        };
        if !has_regions(server.circuits.parts(), disk.regions()) {
            return Err(OpenFault::DiskTooSmall);
        }
        server.restart(disk);
        Ok(server)
    }

    /// The server of these circuits before any region is read: each circuit is closed. All memory is taken here.
    fn closed(alloc: Global, circuits: Circuits) -> Result<Server, AllocError>
        requires some { 1 ≤ length circuits.circuits }
        requires sound { IsTopology circuits }
        ensures { IfOk result (λ server. server.topology ≡ circuits) }
    {
        let made = rooms(alloc, circuits.count())?;
        Ok(Server {
            circuits,
            servers: made.0,
            ticked: Moment::first(),
            deadlines: made.1,
            buffer: made.2,
        })
    }

    /// How many circuits there are.
    pub fn circuit_count(&self) -> usize
        ensures { result ≡ length self.now.topology.circuits }
    {
        self.circuits.count()
    }

    /// A circuit's part of the configuration.
    pub fn part(&self, circuit: Circuit) -> &CircuitPart
        requires { circuit < length self.now.topology.circuits }
        ensures { slice_get self.now.topology.circuits circuit ≡ Some result.now }
    {
        self.circuits.part(circuit)
    }

    /// Whether there is a circuit of this index that is open: its region was read and is not damaged, and
    /// each save to it was done.
    pub fn is_open(&self, circuit: Circuit) -> bool
        ensures { (result ≡ true) ↔ (slice_get (map is_some (books_in self.now)) circuit ≡ Some true) }
    {
        let index = circuit.index();
        index < self.servers.len() && self.servers[index].is_open()
    }

    /// What is kept of a circuit at its clock: the live bindings and bars of each address, and that clock, without offers;
    /// `None` where the circuit is closed.
    pub fn slots(&self, circuit: Circuit) -> Option<Slots>
        requires { circuit < length self.now.topology.circuits }
        ensures { result ≡ option_map kept_slots (server_state self.now.states circuit) }
    {
        self.servers[circuit.index()].slots_at(self.ticked)
    }

    /// Each open circuit has the slots of its pools. Nothing is done: `laws` calls this for its contract.
    pub(crate) fn has_slots_of_pools(&self)
        ensures { All HasItsSlots (circuits_in self.now) }
    {
        have_slots(&self.servers);
    }

    /// When the slots of all circuits are due, slot s of circuit c by the number 32 c + s: nothing of a closed circuit; of an open
    /// one the deadlines that its clock has not come to are those of its live slots, each until when it is held.
    pub fn deadlines(&self) -> &Deadlines
        ensures value { result.now ≡ self.now.deadlines }
        ensures held { HoldsDeadlines self.now.deadlines self.now.states }
    {
        &self.deadlines
    }

    /// Takes a datagram of this protocol from this source at this moment, for the circuit that it is of. What the answer
    /// changes but offers is saved before it leaves; where the save fails the circuit is closed, alone,
    /// until a restart or `reopen`. At `Ok` the reply's datagram is in `out`, which is empty otherwise.
    pub fn receive<D: Disk>(
        &mut self,
        proto: Proto,
        source: Source,
        datagram: &[u8],
        now: Moment,
        disk: &mut D,
        out: &mut PacketBuf,
    ) -> Result<(), Discard>
        requires regions { HasRegions self.old.topology.circuits (D.device disk.old).count }
        requires ready { D.tells ≡ true → AreReady (D.device disk.old).region self.old }
        ensures topology { self.new.topology ≡ self.old.topology }

        // Over every device: the save fails where the device counts a failure of the circuit's region.
        ensures answer { IsAnswer (received self.old.topology (delivery proto source now datagram.now)
            (has_failed (D.device disk.old) (D.device disk.new)) (books_in self.old)).answer result out.new }
        ensures books { books_in self.new
            ≡ (received self.old.topology (delivery proto source now datagram.now)
            (has_failed (D.device disk.old) (D.device disk.new)) (books_in self.old)).books }

        // A datagram of no circuit is refused for that reason and changes nothing, not even a clock.
        ensures unchanged { IfErr (who.addressee self.old.topology (delivery proto source now datagram.now)) (λ why.
            (result ≡ Err why) × (self.new ≡ self.old) × (D.device disk.new ≡ D.device disk.old)) }

        // No deadline is looked at, and those of every other circuit stay. Each is what it was, or until when its slot is held now.
        ensures deadlines { KeepsDeadlines (λ c.
            is_circuit c (who.addressee self.old.topology (delivery proto source now datagram.now))) self.old.deadlines
            self.new.deadlines }
        ensures held { AllUnchangedOrUntilHeld self.old.deadlines self.new.deadlines self.new.states }

        // Over a device that tells its bytes: when the save fails, and what restarts then find.
        ensures fails { D.tells ≡ true → (r : ℕ)
            → has_failed (D.device disk.old) (D.device disk.new) r
            ≡ fails_at (D.device disk.old).failing_call
            (received_saves self.old.topology (delivery proto source now datagram.now) (books_in self.old)) r }
        ensures leases { D.tells ≡ true
            → leases_in (D.device disk.new).region self.new
            ≡ received_leases self.old.topology (delivery proto source now datagram.now)
            (D.device disk.old).failing_call (leases_in (D.device disk.old).region self.old) }
        ensures ready { D.tells ≡ true → AreReady (D.device disk.new).region self.new }

        // What is written: nothing, over every device, if nothing is saved; else the circuit's region, alone over one that
        // tells its bytes.
        ensures frame { WritesAt D.tells
            (received_saves self.old.topology (delivery proto source now datagram.now) (books_in self.old))
            (D.device disk.old) (D.device disk.new) }

        // Over every device: how often it is called.
        ensures calls { IsCalledToSaveAt
            (received_saves self.old.topology (delivery proto source now datagram.now) (books_in self.old))
            (D.device disk.old) (D.device disk.new) }
    {
        let delivery = Delivery {
            proto,
            source,
            moment: now,
            bytes: datagram,
        };
        let found = addressee(&self.circuits, &delivery);
        out.clear();
        self.receive_found(found, &delivery, disk, out)
    }

    /// Takes a datagram for the circuit that it was found to be of, by what was read of it then, or drops it for the reason
    /// why it is of none.
    // inlined: to hand over what was read would move it
    #[inline(always)]
    fn receive_found<D: Disk>(
        &mut self,
        found: Result<(Circuit, RelayedMessage<'_>), Discard>,
        delivery: &Delivery<'_>,
        disk: &mut D,
        out: &mut PacketBuf,
    ) -> Result<(), Discard>
        requires found { IsFound self.old.topology delivery.now found }
        requires empty { out.old ≡ [] }
        requires regions { HasRegions self.old.topology.circuits (D.device disk.old).count }
        requires ready { D.tells ≡ true → AreReady (D.device disk.old).region self.old }
        ensures topology { self.new.topology ≡ self.old.topology }
        ensures received { IsReceivedAlone D.tells delivery.now result out.new self.old self.new (D.device disk.old) (D.device disk.new) }
    {
        let (circuit, relayed) = match found {
            Ok(found) => found,
            Err(why) => return Err(why),
        };
        let part = self.circuits.part(circuit);
        let table = &mut self.deadlines;
        let server = &mut self.servers[circuit.index()];
        server.tick(self.ticked);
        server.answer(part, delivery, relayed, disk, out, table, circuit)
    }

    /// Moves the clock of every open circuit to this moment, where it is a later one, and removes the deadlines that are due then.
    pub fn tick(&mut self, now: Moment)
        ensures topology { self.new.topology ≡ self.old.topology }
        ensures leases { (regions : ℕ → Region) → leases_in regions self.new ≡ map (after_tick now) (leases_in regions self.old) }
        ensures ready { (regions : ℕ → Region) → AreReady regions self.old → AreReady regions self.new }
        ensures due { (n until : ℕ) → deadline self.new.deadlines n ≡ Some until → now < until }
        ensures deadlines { self.new.deadlines.slots ≡ map (entry_after_sweep now) self.old.deadlines.slots }
        ensures examined { self.new.deadlines.examined ≡ self.old.deadlines.examined + count_by (is_due now) self.old.deadlines.slots + 1 }
    {
        self.ticked = self.ticked.later(now);
        self.deadlines.sweep(now);
    }

    /// Puts another plan in force, 0 the first; false, and nothing changed, where there is no such plan. A circuit that is no
    /// longer served loses its offers, and keeps its bindings, its bars, its clock and its region; its deadlines are those
    /// of what is left. Of every other circuit nothing is touched, not an offer and not a deadline. It looks at each circuit
    /// once at most.
    pub fn reload(&mut self, plan: u8) -> bool
        ensures topology { self.new.topology ≡ reloaded plan self.old.topology }
        ensures answer { result ≡ nat_lt plan self.old.topology.plans.count }
        ensures refused { result ≡ false → self.new ≡ self.old }
        ensures leases { (regions : ℕ → Region) (c : ℕ) (l : Leases) → slice_get (leases_in regions self.old) c ≡ Some l
            → slice_get (leases_in regions self.new) c ≡ Some (turned (serves self.old.topology c) (serves self.new.topology c) l) }
        ensures count { length self.new.states ≡ length self.old.states }
        ensures ready { (regions : ℕ → Region) → AreReady regions self.old → AreReady regions self.new }
        ensures kept { (c : ℕ) → serves self.old.topology c ≡ serves self.new.topology c
            → slice_get self.new.states c ≡ slice_get self.old.states c }
        ensures deadlines { (c : ℕ) → serves self.old.topology c ≡ serves self.new.topology c → (s : ℕ) → s < 32
            → deadline self.new.deadlines (32 * c + s) ≡ deadline self.old.deadlines (32 * c + s) }
        ensures left { (c : ℕ) (state : Option OpenCircuitValue) → serves self.old.topology c ≡ true
            → serves self.new.topology c ≡ false → slice_get self.new.states c ≡ Some state → (s : ℕ) → s < 32
            → deadline self.new.deadlines (32 * c + s) ≡ held_in state s }
        ensures examined { self.new.deadlines.examined ≡ self.old.deadlines.examined }
    {
        let number = usize::from(plan);
        if !self.circuits.has_plan(number) {
            return false;
        }
        let table = &mut self.deadlines;
        turn_off_all(
            &mut self.servers,
            self.ticked,
            &self.circuits,
            number,
            table,
        );
        self.circuits.reload(number)
    }

    /// Begins each circuit anew with what its region holds, without offers, and sets the deadlines of its slots anew. One whose
    /// region cannot be read or is damaged is closed, alone, and so is one whose region is of format 1 and cannot be moved.
    pub fn restart<D: Disk>(&mut self, disk: &mut D)
        requires regions { HasRegions self.old.topology.circuits (D.device disk.old).count }
        requires synced { D.tells ≡ true → AreSynced self.old.topology.circuits (D.device disk.old).region }
        ensures topology { self.new.topology ≡ self.old.topology }
        ensures leases { D.tells ≡ true
            → leases_in (D.device disk.new).region self.new
            ≡ map (found_leases (D.device disk.old).region (D.device disk.old).failing_call)
            self.old.topology.circuits }
        ensures found { BeginsAsFound self.new }
        ensures ready { D.tells ≡ true → AreReady (D.device disk.new).region self.new }
        ensures deadlines { AreSetAnew self.new.deadlines self.new.states }
        ensures examined { self.new.deadlines.examined ≡ self.old.deadlines.examined }
        ensures regions { D.tells ≡ true → AreRegionsMigrated self.old.topology.circuits (D.device disk.old) (D.device disk.new) }
        ensures others { D.tells ≡ true → KeepsOthers self.old.topology.circuits (D.device disk.old) (D.device disk.new) }
        ensures count { (D.device disk.new).count ≡ (D.device disk.old).count }
        ensures calls { let n = length self.old.topology.circuits in
            IsCalledWithin n (5 * n) (4 * n) (D.device disk.old) (D.device disk.new) }
        ensures settled { HaveSettledRegions (D.doubt disk.new) self.new }
    {
        // each begins with the clock that its region keeps, however late the last tick was
        self.ticked = Moment::first();
        restart_all(
            self.circuits.parts(),
            &mut self.servers,
            disk,
            &mut self.buffer,
            &mut self.deadlines,
        );
    }

    /// Begins this circuit anew with what its region holds, as a restart does, and leaves every other one as it is. The moment of
    /// the last tick has passed for it too. A circuit that there is not changes nothing.
    pub fn reopen<D: Disk>(&mut self, circuit: Circuit, disk: &mut D)
        requires exists { IfSome (slice_get self.old.topology.circuits circuit) (λ part. part.region < (D.device disk.old).count) }
        requires synced { D.tells ≡ true
            → IfSome (slice_get self.old.topology.circuits circuit) (λ part.
            ((D.device disk.old).region part.region).readable ≡ true → IsClean ((D.device disk.old).region part.region)) }
        ensures topology { self.new.topology ≡ self.old.topology }
        ensures unchanged { length self.old.topology.circuits ≤ circuit
            → (self.new ≡ self.old) × (D.device disk.new ≡ D.device disk.old) }
        ensures reopened { IfSome (slice_get self.old.topology.circuits circuit) (λ part.
            IsReopened D.tells circuit part self.new (D.device disk.old) (D.device disk.new)) }
        ensures ready { D.tells ≡ true → AreReady (D.device disk.old).region self.old → AreReady (D.device disk.new).region self.new }
        ensures others { KeepsOtherCircuits D.tells circuit self.old self.new (D.device disk.old) (D.device disk.new) }
        ensures deadlines { KeepsDeadlines (λ c. c == circuit) self.old.deadlines self.new.deadlines }
        ensures calls { IsCalledToReopen circuit self.old.topology (D.device disk.old) (D.device disk.new) }
        ensures settled { IsSettledAlone circuit self.new (D.doubt disk.old) (D.doubt disk.new) }
    {
        let index = circuit.index();
        if index >= self.servers.len() {
            return;
        }
        let server = &mut self.servers[index];
        server.restart(self.circuits.part(circuit), disk, &mut self.buffer);
        server.tick(self.ticked);
        server.set_deadlines(&mut self.deadlines, circuit);
    }
}
