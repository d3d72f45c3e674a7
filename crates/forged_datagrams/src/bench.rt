//! Relays and server without the network between them.
ghost use Rattle.std.specs.Prelude.{◌≡◌, length};
ghost use Rattle.config.specs.Topology.{topology_of};
ghost use Rattle.dispatch.specs.Regions.{HasRegions};

use crate::unknown_disk::UnknownDisk;
use config::Config;
use dispatch::{OpenFault, Server};
use lease_disk::{Disk, REGION};
use relay::Relays;
use std::alloc::Global;
use std::mem;
use types::{Circuit, CircuitId, Dest, Discard, Moment, Proto, RelayNo, Source};
use wire::PacketBuf;

/// What comes of a line. What is sent is in the bench's buffer.
#[derive(Clone, Copy)]
pub enum Answer {
    Done,
    Dropped(Discard),
    /// From a relay to the server.
    SentUp,
    /// From the server to a relay.
    Replied,
    /// From a relay to the circuit of this index.
    Framed(usize, Dest),
}

/// Relays and server of a configuration, with the disk that the server was opened over.
#[derive(Drop)]
pub struct Bench {
    config: Config,
    relays: Relays,
    server: Server,
    disk: UnknownDisk,
    out: PacketBuf,
    ghost own: { relays.topology ≡ topology_of config },
    ghost has_regions: { HasRegions server.topology.circuits (length disk.disk.regions) },
}

/// Leaves a byte in the buffer, beside what was sent last, which the next call has to take out.
fn mark(out: &mut PacketBuf) {
    let _ = out.push(7);
}

impl Bench {
    /// Relays and a server over a disk of so many formatted regions.
    pub fn open(alloc: Global, config: Config, regions: u16) -> Result<Bench, OpenFault> {
        let Ok(mut disk) = UnknownDisk::new(alloc, regions) else {
            drop(config);
            return Err(OpenFault::Memory);
        };
        let Ok(relays) = Relays::new(alloc, &config) else {
            drop((config, disk));
            return Err(OpenFault::Memory);
        };
        match Server::open(alloc, &config, &mut disk) {
            Ok(server) => Ok(Bench {
                config,
                relays,
                server,
                disk,
                out: PacketBuf::new(),
            }),
            Err(why) => {
                drop((config, relays, disk));
                Err(why)
            }
        }
    }

    /// What was sent last; no bytes where nothing was.
    pub fn sent(&self) -> &[u8] {
        self.out.as_slice()
    }

    /// The id of the circuit of this index.
    pub fn id(&self, index: usize) -> &str {
        match Circuit::new(index) {
            Some(circuit) if index < self.config.circuit_count() => {
                str::from_utf8(self.config.at(circuit).id.as_bytes()).unwrap_or("")
            }
            _ => "",
        }
    }

    /// A datagram reaches the server.
    pub fn receive(
        &mut self,
        proto: Proto,
        source: Source,
        datagram: &[u8],
        now: Moment,
    ) -> Answer {
        mark(&mut self.out);
        let (disk, out) = (&mut self.disk, &mut self.out);
        match self.server.receive(proto, source, datagram, now, disk, out) {
            Ok(()) => Answer::Replied,
            Err(why) => Answer::Dropped(why),
        }
    }

    /// A frame reaches a circuit's relay. `None` where no such circuit is served.
    pub fn up(&mut self, id: &[u8], proto: Proto, frame: &[u8]) -> Option<Answer> {
        let circuit = self.config.circuit(&CircuitId::new(id)?)?;
        if !self.relays.serves(circuit) {
            return None;
        }
        mark(&mut self.out);
        match self.relays.up(circuit, proto, frame, &mut self.out) {
            Ok(()) => Some(Answer::SentUp),
            Err(why) => Some(Answer::Dropped(why)),
        }
    }

    /// A datagram reaches a relay. `None` where there is no such relay.
    pub fn down(&mut self, relay: RelayNo, source: Source, datagram: &[u8]) -> Option<Answer> {
        if !self.relays.exists(relay) {
            return None;
        }
        mark(&mut self.out);
        match self.relays.down(relay, source, datagram, &mut self.out) {
            Ok((circuit, dest)) => Some(Answer::Framed(circuit.index(), dest)),
            Err(why) => Some(Answer::Dropped(why)),
        }
    }

    /// The moment passes for all circuits.
    pub fn tick(&mut self, now: Moment) -> Answer {
        self.server.tick(now);
        Answer::Done
    }

    /// Writes bytes into a region from an offset on. `None` where it has no room for them.
    pub fn put(&mut self, region: u16, at: usize, bytes: &[u8]) -> Option<Answer> {
        if region >= self.disk.regions() || bytes.len() > REGION || at > REGION - bytes.len() {
            return None;
        }
        self.disk.write_at(region, at, bytes).ok()?;
        self.disk.sync(region).ok()?;
        Some(Answer::Done)
    }

    /// Opens another server over the disk.
    pub fn reopen(&mut self, alloc: Global) -> Option<Answer> {
        let Ok(server) = Server::open(alloc, &self.config, &mut self.disk) else {
            return None;
        };
        // the earlier one by a call: all that it holds would otherwise be part of this function's proof
        drop(mem::replace(&mut self.server, server));
        Some(Answer::Done)
    }
}
