//! Relay and server over sockets.
ghost use Rattle.std.specs.Prelude.{◌≡◌, ◌≤◌, ◌<◌, ◌+◌, ◌*◌, ◌↔◌, ℕ, Bool, [], length, map, not, true};
ghost use Rattle.std.specs.Prelude.{is_some, Some, slice_get, Err, IfOk, IfErr};
ghost use Rattle.access.specs.Access.{HasCarried, HasCounted, HasReached, HasServed, HasServedTurns, HasTurned};
ghost use Rattle.access.specs.Access.{IsOpenedAccess, RefusesSocket, StayClosed, StaysSetUp, books_at};
ghost use Rattle.counts.specs.Counts.{more_by};
ghost use Rattle.opening.specs.Opening.{found_format, was_old};
ghost use Rattle.sockets.specs.Sockets.{IsSocket, Refuses, WasRefused};
ghost use Rattle.access.specs.Opened.{AreSocketsOf, IsEngine};
ghost use Rattle.access.specs.Service.{IsWatched, Watched, watched_once_more};
ghost use Rattle.access.specs.Turn.{Both, CircuitSocket, CircuitsSockets, RelaySocket, RelaysSockets};
ghost use Rattle.types.specs.declared.dest.Proto.TheVariants.{V4, V6};
ghost use Rattle.access.specs.declared.access.AccessFault.TheVariants as fault;
ghost use Rattle.dispatch.specs.declared.server.OpenFault.TheVariants as open_fault;
ghost use Rattle.config.specs.CircuitPart.{parts_of};
ghost use Rattle.dispatch.specs.Regions.{HasRegions};
ghost use Rattle.dispatch.specs.ServerValue.{books_in};
ghost use Rattle.config.specs.Topology.{topology_of};

mod pass;
mod service;

use crate::batch::Batch;
use crate::clock::moment;
use crate::options::ServeOptions;
use crate::sending::send_on;
use config::Config;
use counts::{CircuitCounts, Counts, Fate, Tally};
use dispatch::{OpenFault, Server};
use lease_disk::{FORMAT, FileDisk, OLD_FORMAT};
use opening::{Formats, open_server, settle_regions};
use relay::Relays;
use service_clock::ServiceClock;
use sockets::{SocketFault, Sockets, client, proto_of, put_front};
use std::alloc::Global;
use std::marker::Model;
use std::mem;
use std::net::Net;
use std::rt::Clock;
use thiserror::Error;
use types::{Circuit, Count, Moment, Proto, RelayNo, Source};
use udp::{Attempt, BUFFER_LEN, DatagramSocket, History, Waiter};
use wire::PacketBuf;

/// Why relay and server were not opened.
#[derive(Clone, Copy, Debug, PartialEq, Eq, Error)]
pub enum AccessFault {
    /// A request for memory was refused.
    #[error("out of memory")]
    Memory,
    /// The device lacks the region of a circuit.
    #[error("the file has fewer regions than the circuits need")]
    Disk,
    /// No socket could be bound to this address and port.
    #[error("no socket can be bound to an address")]
    Socket(Source),
    /// There are more circuits than are served at most.
    #[error("more circuits than are served")]
    TooManyCircuits,
    /// A circuit has a port that there is none of.
    #[error("a circuit's port is past 65535")]
    Ports,
}

impl From<OpenFault> for AccessFault {
    ghost use Rattle.access.specs.Access.{opening_fault};

    ghost from_gives = { λ why made. made ≡ opening_fault why };

    fn from(why: OpenFault) -> AccessFault {
        match why {
            OpenFault::Memory => AccessFault::Memory,
            OpenFault::DiskTooSmall => AccessFault::Disk,
        }
    }
}

impl From<SocketFault> for AccessFault {
    ghost use Rattle.access.specs.Access.{socket_fault};

    ghost from_gives = { λ why made. made ≡ socket_fault why };

    fn from(why: SocketFault) -> AccessFault {
        match why {
            SocketFault::Memory => AccessFault::Memory,
            SocketFault::Bind(at) => AccessFault::Socket(at),
        }
    }
}

/// The relays and the server of a configuration, with the sockets that they use and the device that
/// keeps the leases. Clients and relays are reached by UDP on IPv4 alone, for DHCPv6 too.
#[derive(Drop)]
pub struct Access {
    relays: Relays,
    server: Server,
    disk: FileDisk,
    formats: Formats,
    sockets: Sockets,
    /// Where the server receives what the relays send on.
    listen4: Source,
    listen6: Source,
    /// The datagram that came in, and what is made of it.
    buffer: [u8; BUFFER_LEN],
    out: PacketBuf,
    /// The datagrams that the server takes in a turn.
    batch: Batch,
    /// The first of the circuits' ports.
    port: u16,
    /// What became of the datagrams that were taken. A circuit's are the frames from it, the datagrams of it that the server
    /// dropped, and the answers to it.
    tally: Tally,
    history: History,
    turns: Count,
    /// The clock that passes go by.
    clock: ServiceClock,
    /// What waits until one of the sockets has a datagram.
    waiter: Waiter,
}

impl Model for Access {
    ghost use Rattle.access.specs.Access.{AccessValue, IsAccess};

    ghost Value = { AccessValue };

    ghost view = { λ a.
        record {
          topology = a.relays.topology;
          server = a.server;
          disk = a.disk;
          formats = a.formats.items;
          port =
              a.port;
          batch = a.batch.most;
          first = a.batch.first;
          tally = a.tally;
          history = a.history.entries;
          turns =
              a.turns.count;
          clock = a.clock;
        } };

    // each circuit and each relay has its sockets, which have their roles, addresses and history, each circuit a region, and each is served
    ghost invariant = { λ a.
        IsAccess a.relays.topology a.sockets a.server a.disk.regions a.port a.batch.most a.history.id a.listen4
        a.listen6 };
}

/// What is opened before the sockets.
#[derive(Drop)]
struct Engine {
    relays: Relays,
    server: Server,
    disk: FileDisk,
    formats: Formats,
    tally: Tally,
}

/// Opens server and relays of a configuration over a device.
fn open_engine(alloc: Global, config: &Config, mut disk: FileDisk) -> Result<Engine, OpenFault>
    ensures engine { IfOk result (IsEngine config.now disk) }
    ensures small { IfErr result (λ why. why ≡ open_fault.DiskTooSmall → ¬ HasRegions (parts_of config.now) disk.regions) }
{
    // first, so that the device is as it was where their memory is refused
    let Ok(relays) = Relays::new(alloc, config) else {
        return Err(OpenFault::Memory);
    };
    let Ok(tally) = Tally::new(alloc, config.circuit_count()) else {
        return Err(OpenFault::Memory);
    };
    // before anything is read: what is read then has to be on the disk
    settle_regions(config, &mut disk);
    let (server, formats) = open_server(alloc, config, &mut disk)?;
    Ok(Engine {
        relays,
        server,
        disk,
        formats,
        tally,
    })
}

/// Binds the sockets of a configuration, and watches them by a new waiter.
fn bind_sockets<R: Net>(
    net: &R,
    alloc: Global,
    config: &Config,
    port: u16,
    history: &mut History,
) -> Result<(Sockets, Waiter), SocketFault>
    requires ports { port + 4 * length config.now.circuits ≤ 65536 }
    ensures bound { IfOk result (λ made. AreSocketsOf config.now port history.old.id made.0) }
    ensures same { history.new.id ≡ history.old.id }
    ensures silent { IfOk result (λ _. history.new.entries ≡ history.old.entries) }
    ensures refused { IfErr result (Refuses (λ at. IsSocket config.now port at × WasRefused history.old.entries history.new.entries at)) }
{
    let Ok(mut waiter) = Waiter::new(net, alloc, config.circuit_count()) else {
        return Err(SocketFault::Memory);
    };
    let sockets = Sockets::bind(net, alloc, config, port, &mut waiter, history)?;
    Ok((sockets, waiter))
}

/// Whether there are the ports of each circuit, when the first one's begin at `port`.
fn has_ports(config: &Config, port: u16) -> bool
    ensures { (result ≡ true) ↔ (port + 4 * length config.now.circuits ≤ 65536) }
{
    usize::from(port) + 4 * config.circuit_count() <= 65536
}

/// Whether the system binds each socket of a configuration now; all are given back at once. More circuits than are served at
/// most are refused first, then a port past the last one (`Ports`), then an address (`Socket`); `Memory` is out of memory.
pub fn try_sockets<R: Net>(
    net: &R,
    alloc: Global,
    config: &Config,
    options: ServeOptions,
) -> Result<(), AccessFault>
    ensures circuits { result ≡ Err fault.TooManyCircuits ↔ (options.most_circuits < length config.now.circuits) }
    ensures ports { result ≡ Err fault.Ports
        ↔ (length config.now.circuits ≤ options.most_circuits)
        × (65536 < options.port + 4 * length config.now.circuits) }
{
    if config.circuit_count() > usize::from(options.most_circuits) {
        return Err(AccessFault::TooManyCircuits);
    }
    if !has_ports(config, options.port) {
        return Err(AccessFault::Ports);
    }
    let mut opening = History::new();
    bind_sockets(net, alloc, config, options.port, &mut opening)?;
    Ok(())
}

/// What looks at relay and server while they serve, and says whether they go on.
pub trait Watch {
    /// How many turns and passes it was shown, and the moment of the last one.
    ghost watched: { Self → Watched };

    /// Whether a service has to end.
    ghost is_over: { Self → Bool };

    /// A turn or a pass was made at this moment.
    fn after_turn(&mut self, access: &Access, now: Moment)
        ensures { watched self.new ≡ watched_once_more now (watched self.old) };

    /// A circuit that was closed was tried again.
    fn after_reopening(&mut self, access: &Access, circuit: Circuit)
        ensures { watched self.new ≡ watched self.old };

    /// Whether a service goes on.
    fn goes_on(&self) -> bool
        ensures { result ≡ not (is_over self.now) };
}

impl Access {
    /// Opens relay and server of a configuration over a device, whatever that holds. A region of format 1 is
    /// moved to format 2; a circuit whose region can't be read, is damaged or can't be moved is closed, alone.
    /// The first circuit listens on 127.0.0.1 at the first port for DHCPv4 frames and at the port after it for DHCPv6 frames,
    /// and frames towards it go to the two ports after these; the ports of each other circuit come 4 later. What the datagrams
    /// of a turn change at the server is saved together.
    ///
    /// More circuits than are served at most are refused first, then a port past the last one, then a device without the region
    /// of a circuit, then an address that the system refuses to bind a socket to, which `opening` then has. What was opened goes
    /// on with that history, and leaves a new one in its place.
    pub fn open<R: Net>(
        net: &R,
        alloc: Global,
        config: &Config,
        disk: FileDisk,
        options: ServeOptions,
        opening: &mut History,
    ) -> Result<Access, AccessFault>
        requires some { 1 ≤ options.batch }
        requires few { options.batch ≤ 16 }
        ensures opened { IfOk result (IsOpenedAccess config.now disk options.port options.batch opening.old.entries) }
        ensures circuits { result ≡ Err fault.TooManyCircuits ↔ (options.most_circuits < length config.now.circuits) }
        ensures ports { result ≡ Err fault.Ports
            ↔ (length config.now.circuits ≤ options.most_circuits)
            × (65536 < options.port + 4 * length config.now.circuits) }
        ensures small { IfErr result (λ why. why ≡ fault.Disk → ¬ HasRegions (parts_of config.now) disk.regions) }
        ensures socket { IfErr result (RefusesSocket (λ at.
            IsSocket config.now options.port at × HasRegions (parts_of config.now) disk.regions
            × WasRefused opening.old.entries opening.new.entries at)) }
        ensures bound { IfOk result (λ _. opening.new.entries ≡ []) }
    {
        if config.circuit_count() > usize::from(options.most_circuits) {
            return Err(AccessFault::TooManyCircuits);
        }
        if !has_ports(config, options.port) {
            return Err(AccessFault::Ports);
        }
        let engine = open_engine(alloc, config, disk)?;
        let (sockets, waiter) = match bind_sockets(net, alloc, config, options.port, opening) {
            Ok(bound) => bound,
            Err(why) => {
                // by a call: all that it holds would otherwise be part of this function's proof
                drop(engine);
                return Err(AccessFault::from(why));
            }
        };
        Ok(Access {
            relays: engine.relays,
            server: engine.server,
            disk: engine.disk,
            formats: engine.formats,
            sockets,
            listen4: config.server().listen4,
            listen6: config.server().listen6,
            buffer: [0; BUFFER_LEN],
            out: PacketBuf::new(),
            batch: Batch::new(usize::from(options.batch)),
            port: options.port,
            tally: engine.tally,
            // the sockets were bound with it
            history: mem::replace(opening, History::new()),
            turns: Count::new(),
            clock: ServiceClock::new(),
            waiter,
        })
    }

    /// Makes so many turns, each at the moment that the system's clock then has. A turn that took no datagram is followed
    /// by a wait for the next one, of at most so many milliseconds. After each turn it is shown to `watch`.
    pub fn serve<R: Clock, W: Watch>(&mut self, rt: &R, turns: u32, pause: u16, watch: &mut W)
        ensures turned { (now : ℕ) × HasServedTurns turns now self.old self.new
            × IsWatched turns now (W.watched watch.old) (W.watched watch.new) }
        ensures turns { self.new.turns ≡ self.old.turns + turns }
        ensures set_up { StaysSetUp self.old self.new }
        ensures closed { StayClosed self.old.server self.new.server }
    {
        let mut now = Moment::first();
        'turns: for _ in 0..turns {
            now = moment(rt, now, &mut self.history);
            if self.turn(now) == 0 && pause > 0 {
                // no socket gave a datagram
                self.waiter.wait(rt, pause);
            }
            watch.after_turn(self, now);
        }
    }

    /// Tries sockets without waiting: those of the circuits once each, in order; the server's two by turns, until a batch
    /// is full or none waits; those of the relays once each. What comes in is carried on at once; a datagram that can't be
    /// received or sent is lost. Then moves all clocks to this moment. Returns how many datagrams were taken. The system is
    /// asked once at which sockets datagrams arrived; a socket of which it has told nothing is not tried.
    pub fn turn(&mut self, now: Moment) -> u32
        ensures most { result ≤ 2 * length self.old.topology.circuits + 8 + self.old.batch }
        ensures turned { HasTurned now result self.old self.new }
        ensures set_up { StaysSetUp self.old self.new }
        ensures turns { self.new.turns ≡ self.old.turns + 1 }
        ensures counts { HasCounted result self.old.tally.all self.new.tally.all }
        ensures received { self.new.tally.all.received ≡ more_by result self.old.tally.all.received }
        ensures quiet { result ≡ 0 → books_in self.new.server ≡ books_at now (books_in self.old.server) }
        ensures closed { StayClosed self.old.server self.new.server }
        ensures clocks { HasReached now self.new.server }
    {
        let frames = self.take_from_circuits();
        let datagrams = self.take_at_server(now);
        let answers = self.take_from_relays();
        self.server.tick(now);
        self.history.tick(now);
        self.turns.tick();
        // for the contract: the limit that its type keeps
        let _received = self.tally.all.received;
        frames + datagrams + answers
    }

    /// The device that keeps the leases.
    pub fn disk(&self) -> &FileDisk
        ensures { result.now ≡ self.now.disk }
    {
        &self.disk
    }

    /// Whether there is a circuit of this index that is open: its region was read and is not damaged, and
    /// each save to it was done.
    pub fn is_open(&self, circuit: Circuit) -> bool
        ensures { (result ≡ true) ↔ (slice_get (map is_some (books_in self.now.server)) circuit ≡ Some true) }
    {
        self.server.is_open(circuit)
    }

    /// Whether there is a circuit of this index whose region was of format 1 before the opening, as far as it
    /// could be read.
    pub fn had_old_format(&self, circuit: Circuit) -> bool
        ensures { (result ≡ true) ↔ (found_format (slice_get self.now.formats circuit) ≡ Some 1) }
    {
        self.format_of(circuit) == Some(OLD_FORMAT)
    }

    /// Whether the region of this circuit was moved from format 1 to format 2 by the opening, and the circuit is open.
    pub fn was_moved(&self, circuit: Circuit) -> bool
        ensures { (result ≡ true) ↔ (was_old (found_format (slice_get self.now.formats circuit)) ≡ true)
            × (slice_get (map is_some (books_in self.now.server)) circuit ≡ Some true) }
    {
        let format = self.format_of(circuit);
        format.is_some() && format != Some(FORMAT) && self.is_open(circuit)
    }

    /// The format in which the opening found the region of this circuit, if there is one and it could be read.
    fn format_of(&self, circuit: Circuit) -> Option<u8>
        ensures { result ≡ found_format (slice_get self.now.formats circuit) }
    {
        *self.formats.get(circuit.index())?
    }

    /// The server that answers over these sockets.
    pub fn server(&self) -> &Server
        ensures { result.now ≡ self.now.server }
    {
        &self.server
    }

    /// What became of the datagrams that were taken.
    pub fn counts(&self) -> &Counts
        ensures { result.now ≡ self.now.tally.all }
    {
        &self.tally.all
    }

    /// What became of the datagrams of each circuit: the frames that it sent, what the server dropped of it, and what a relay
    /// sent it.
    pub fn by_circuit(&self) -> &CircuitCounts
        ensures { result.now ≡ self.now.tally.by_circuit }
    {
        &self.tally.by_circuit
    }

    /// The clock that passes go by: by how much the system's clock is ahead of it or behind it, if it doesn't follow that.
    pub fn clock(&self) -> &ServiceClock
        ensures { result.now ≡ self.now.clock }
    {
        &self.clock
    }

    /// Takes a frame from each of the circuits' sockets to its relay.
    fn take_from_circuits(&mut self) -> u32
        ensures most { result ≤ 2 * length self.old.topology.circuits }
        ensures few { result ≤ 2048 }
        ensures carried { HasCarried (CircuitsSockets self.old.topology) result self.old self.new }
    {
        self.waiter.poll();
        let mut taken = 0;
        'circuits: for index in 0..self.sockets.circuits.len() {
            taken += self.take_frames(index);
        }
        taken
    }

    /// Takes a frame from each of a circuit's two sockets to its relay, unless the system has told of none. Most circuits have
    /// none, so this question is inlined and the rest is not.
    #[inline(always)]
    fn take_frames(&mut self, index: usize) -> u32
        requires { index < length self.old.topology.circuits }
        ensures most { result ≤ 2 }
        ensures carried { HasCarried
            (Both (CircuitSocket self.old.topology index V4) (CircuitSocket self.old.topology index V6)) result self.old
            self.new }
    {
        let sockets = &self.sockets.circuits[index];
        let (socket4, socket6) = (&sockets.socket4, &sockets.socket6);
        if socket4.is_idle_with(socket6, &self.waiter, &mut self.history) {
            return 0;
        }
        self.take_waiting_frames(index)
    }

    /// Takes a frame from each of a circuit's two sockets to its relay.
    #[inline(never)]
    fn take_waiting_frames(&mut self, index: usize) -> u32
        requires { index < length self.old.topology.circuits }
        ensures most { result ≤ 2 }
        ensures carried { HasCarried
            (Both (CircuitSocket self.old.topology index V4) (CircuitSocket self.old.topology index V6)) result self.old
            self.new }
    {
        let taken = self.take_frame(index, Proto::V4);
        taken + self.take_frame(index, Proto::V6)
    }

    /// Takes a frame from a circuit's socket to its relay, if one waits, and sends what that makes of it on to the server.
    fn take_frame(&mut self, index: usize, proto: Proto) -> u32
        requires { index < length self.old.topology.circuits }
        ensures most { result ≤ 1 }
        ensures carried { HasCarried (CircuitSocket self.old.topology index proto) result self.old self.new }
    {
        let to = match proto {
            Proto::V4 => self.listen4,
            Proto::V6 => self.listen6,
        };
        let sockets = &self.sockets.circuits[index];
        let socket = sockets.socket(proto);
        let (buffer, waiter, history) = (&mut self.buffer, &mut self.waiter, &mut self.history);
        let Attempt::Took(len, _) = socket.take_if_ready(buffer, waiter, history) else {
            return 0;
        };
        let frame = &self.buffer[..len];
        let circuit = Circuit::at(index);
        let made = self.relays.up(circuit, proto, frame, &mut self.out);
        let from = &self.sockets.relays[self.sockets.circuits[index].relay];
        let out = self.out.as_slice();
        let became = send_on(made, from, to, out, Fate::Relayed, &mut self.history);
        self.waiter.mark_ready(self.sockets.server(proto));
        self.tally.count(Some(circuit), became);
        1
    }

    /// Takes datagrams from the server's two sockets by turns, at most a batch of them, and answers each.
    fn take_at_server(&mut self, now: Moment) -> u32
        ensures most { result ≤ self.old.batch }
        ensures served { HasServed now result self.old self.new }
    {
        let (sockets, tally, history) = (&self.sockets, &mut self.tally, &mut self.history);
        let (server, disk) = (&mut self.server, &mut self.disk);
        self.batch.poll(sockets, &mut self.waiter, history);
        self.batch.receive(now, server, disk);
        self.batch.reply(sockets, tally, history);
        self.batch
            .receive_again(now, sockets, server, disk, tally, history);
        expect_answers(&self.batch, &sockets.relays, &mut self.waiter);
        self.batch.len() as u32
    }

    /// Takes a datagram from each relay's socket to the circuit that it is for.
    fn take_from_relays(&mut self) -> u32
        ensures most { result ≤ 8 }
        ensures carried { HasCarried (RelaysSockets self.old.topology self.old.port) result self.old self.new }
    {
        let mut taken = 0;
        'relays: for index in 0..self.sockets.relays.len() {
            taken += self.take_answer(index);
        }
        taken
    }

    /// Takes a datagram from a relay's socket, and sends what it has for a circuit on to its clients.
    fn take_answer(&mut self, index: usize) -> u32
        requires { index < length self.old.topology.relays }
        ensures most { result ≤ 1 }
        ensures carried { HasCarried (RelaySocket self.old.topology self.old.port index) result self.old self.new }
    {
        let socket = &self.sockets.relays[index];
        let (buffer, waiter, history) = (&mut self.buffer, &mut self.waiter, &mut self.history);
        let Attempt::Took(len, from) = socket.take_if_ready(buffer, waiter, history) else {
            return 0;
        };
        let datagram = &self.buffer[..len];
        let relay = RelayNo::at(index);
        match self.relays.down(relay, from, datagram, &mut self.out) {
            Ok(sent) => {
                let frame = self.out.framed();
                put_front(&sent.1, frame);
                let proto = proto_of(sent.1);
                let from = self.sockets.circuits[sent.0.index()].socket(proto);
                let to = client(self.port, sent.0, proto);
                let (made, bytes) = (Ok(()), frame.as_slice());
                let became = send_on(made, from, to, bytes, Fate::Delivered, &mut self.history);
                self.tally.count(Some(sent.0), became);
            }
            Err(why) => self.tally.count(None, Fate::Dropped(why)),
        }
        1
    }
}

/// Where the server took a datagram, each relay's socket may have an answer.
fn expect_answers(batch: &Batch, relays: &[DatagramSocket], waiter: &mut Waiter) {
    if batch.len() == 0 {
        return;
    }
    'relays: for relay in relays {
        waiter.mark_ready(relay);
    }
}
