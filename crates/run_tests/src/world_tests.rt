//! What no line of text brings about: a sink that refuses, a disk that is too small, the bytes of a
//! region, and events that name what does not exist.
ghost use Rattle.std.specs.Prelude.{◌≤◌, ℕ, [], true, false};
ghost use Rattle.lease_disk.specs.Model.{disk_region};
ghost use Rattle.lease_disk.specs.Region.{IsClean};

use config::Config;
use events::Comeback;
use fixtures::{ONE_CIRCUIT, client_frame};
use lease_disk::{Disk, Image, ModelDisk};
use std::alloc::{AllocError, Global};
use types::{Addr4, Circuit, Count, Dest, Kind4, Moment, Proto, RelayNo, Source};
use wire::PacketBuf;
use world::*;

/// Options 54 and 50 of a client that takes the offer of 10.0.0.10.
const SELECTS: &[u8] = &[54, 4, 10, 0, 0, 1, 50, 4, 10, 0, 0, 10];

/// A world over a disk in which nothing is unsynced.
fn open_over(alloc: Global, config: &Config, disk: ModelDisk) -> Result<World, OpenFault>
    requires synced { (q : ℕ) → IsClean (disk_region disk q) }
{
    World::open(alloc, config, disk, 16)
}

/// A world of one circuit over a disk of so many regions.
fn opened(alloc: Global, regions: u16) -> Result<World, OpenFault> {
    let Ok(config) = Config::read(alloc, ONE_CIRCUIT) else {
        return Err(OpenFault::Memory);
    };
    let Ok(disk) = ModelDisk::new(alloc, regions) else {
        return Err(OpenFault::Memory);
    };
    open_over(alloc, &config, disk)
}

/// A circuit; there is one, the first.
fn circuit(index: usize) -> Circuit
    requires { index ≤ 1023 }
{
    Circuit::new(index).unwrap()
}

fn is_refused(alloc: Global, regions: u16, why: OpenFault) -> bool {
    match opened(alloc, regions) {
        Ok(world) => {
            // by a call, as below: all that a world holds would otherwise be part of this function's proof
            drop(world);
            false
        }
        Err(fault) => fault == why,
    }
}

#[test]
fn a_disk_is_too_small(rt: HostRuntime) {
    assert!(rt; is_refused(rt.alloc(), 0, OpenFault::DiskTooSmall));
}

/// A sink that takes some frames and refuses those after them.
#[derive(Drop)]
struct Shelf {
    room: usize,
    frames: Vec<(Circuit, Dest, PacketBuf)>,
    refusals: Count,
}

impl Shelf {
    fn new(alloc: Global, room: usize) -> Result<Shelf, AllocError> {
        Ok(Shelf {
            room,
            frames: Vec::with_capacity(alloc, 2)?,
            refusals: Count::new(),
        })
    }
}

impl Sink for Shelf {
    ghost use Rattle.std.specs.Prelude.{map};

    ghost taken = { λ s. map (λ f. record { circuit = f.0; frame = record { dest = f.1; bytes = f.2 } }) s.frames.items };

    ghost refusals = { λ s. s.refusals.count };

    fn frame(&mut self, circuit: Circuit, dest: Dest, bytes: &[u8]) -> bool {
        let mut copy = PacketBuf::new();
        let fits = copy.extend(bytes).is_ok() && self.frames.len() < self.room;
        if fits && self.frames.push((circuit, dest, copy)).is_ok() {
            return true;
        }
        self.refusals.tick();
        false
    }
}

/// Whether a run in which frames leave with the events 2 and 4 ends so over this sink.
fn ends_over(world: &mut World, shelf: &mut Shelf, ended: Result<(), usize>) -> bool {
    let frame = client_frame(Kind4::Discover, 1, &[]);
    let (a, now) = (circuit(0), Moment::first());
    let events = [
        Event::Frame(a, Proto::V4, frame.as_slice()),
        Event::Up(a, 0, now, 0),
        Event::Down(a, 0),
        Event::Down(a, 9),
        Event::Down(a, 0),
    ];
    world.run(&events, shelf) == ended
}

/// Opens a world and runs these events over this sink.
fn a_world_ends_over(alloc: Global, shelf: &mut Shelf, ended: Result<(), usize>) -> bool {
    match opened(alloc, 1) {
        Ok(mut world) => {
            let holds = ends_over(&mut world, shelf, ended);
            drop(world);
            holds
        }
        Err(_) => false,
    }
}

/// Whether a run over a sink with this room ends so, and fills it.
fn ends(alloc: Global, room: usize, ended: Result<(), usize>) -> bool {
    match Shelf::new(alloc, room) {
        Ok(mut shelf) => a_world_ends_over(alloc, &mut shelf, ended) && shelf.frames.len() == room,
        Err(_) => false,
    }
}

#[test]
fn a_run_ends_where_the_sink_refuses(rt: HostRuntime) {
    assert!(rt; ends(rt.alloc(), 0, Err(2)));
    assert!(rt; ends(rt.alloc(), 1, Err(4)));
    assert!(rt; ends(rt.alloc(), 2, Ok(())));
}

/// Whether each of these events comes to this, and no frame leaves.
fn each_comes_to(world: &mut World, events: &[Event<'_>], expected: Outcome) -> bool {
    for event in events {
        let mut out = PacketBuf::new();
        let _ = out.push(7);
        if world.step(event, &mut out) != expected || !out.is_empty() {
            return false;
        }
    }
    true
}

/// Whether client 1's frame of this type goes up as so many bytes and is answered at the moment 101.
fn is_answered(world: &mut World, kind: Kind4, options: &[u8], len: usize) -> bool {
    is_answered_at(world, kind, options, len, 101)
}

fn is_answered_at(world: &mut World, kind: Kind4, options: &[u8], len: usize, now: u64) -> bool {
    let frame = client_frame(kind, 1, options);
    let (a, now) = (circuit(0), Moment::new(now).unwrap_or(Moment::first()));
    each_comes_to(
        world,
        &[Event::Frame(a, Proto::V4, frame.as_slice())],
        Outcome::SentUp(len),
    ) && each_comes_to(world, &[Event::Up(a, 0, now, 0)], Outcome::SentDown(300))
}

/// Bytes of a region from an offset on.
#[derive(Clone, Copy)]
struct Bytes {
    at: usize,
    expected: &'static [u8],
}

/// What the region has before and after the first lease, and when it is extended: docs/FORMATS.md, the disk.
#[rattlefmt::skip]
const OFFERED: [Bytes; 4] = [
    Bytes { at: 8192,  expected: &[2, 0] },
    Bytes { at: 16384, expected: &[0xa5, 0, 0, 0, 0, 0, 0, 0] },
    Bytes { at: 16640, expected: &[0; 256] },
    Bytes { at: 16896, expected: &[0xa5, 0, 0, 0, 0, 0, 0, 0] },
];

#[rattlefmt::skip]
const LEASED: [Bytes; 7] = [
    Bytes { at: 16384, expected: &[0xa5, 0, 0, 0] },
    Bytes { at: 16640, expected: &[0xa5, 1, 7, 1, 0, 0, 0, 0] },
    Bytes { at: 16648, expected: &[0, 0, 0, 0, 0, 0, 0, 0x65] },
    Bytes { at: 16656, expected: &[0, 0, 0, 0, 0, 0, 2, 0xbd] },
    Bytes { at: 16664, expected: &[0; 8] },
    Bytes { at: 16672, expected: &[1, 2, 0, 0, 0, 0, 1, 0] },
    Bytes { at: 8192,  expected: &[2, 0] },
];

#[rattlefmt::skip]
const RENEWED: [Bytes; 4] = [
    Bytes { at: 16384, expected: &[0xa5, 1, 7, 2, 0, 0, 0, 0] },
    Bytes { at: 16392, expected: &[0, 0, 0, 0, 0, 0, 0, 0x66] },
    Bytes { at: 16400, expected: &[0, 0, 0, 0, 0, 0, 2, 0xbe] },
    Bytes { at: 16640, expected: &[0xa5, 1, 7, 1] },
];

/// Whether the region has these bytes.
fn has(world: &World, rows: &[Bytes]) -> bool {
    let disk = world.disk();
    if disk.regions() != 1 {
        return false;
    }
    for row in rows {
        match disk.bytes(0).get(row.at..) {
            Some(rest) if rest.starts_with(row.expected) => {}
            _ => return false,
        }
    }
    true
}

/// Whether the region is as it should be after an offer, the first lease and when it is extended.
fn keeps_a_lease(world: &mut World) -> bool {
    is_answered(world, Kind4::Discover, &[], 255)
        && has(world, &OFFERED)
        && is_answered(world, Kind4::Request, SELECTS, 267)
        && has(world, &LEASED)
        && is_answered_at(world, Kind4::Request, SELECTS, 267, 102)
        && has(world, &RENEWED)
}

/// Opens a world and looks whether it keeps a lease.
fn a_world_keeps_a_lease(alloc: Global) -> bool {
    match opened(alloc, 1) {
        Ok(mut world) => {
            let holds = keeps_a_lease(&mut world);
            drop(world);
            holds
        }
        Err(_) => false,
    }
}

#[test]
fn the_bytes_of_a_lease(rt: HostRuntime) {
    assert!(rt; a_world_keeps_a_lease(rt.alloc()));
}

/// A region comes back like this, and a fault is set that has no effect on a region of format 2.
fn back(image: Image) -> Comeback {
    Comeback {
        image,
        move_fault: 1,
    }
}

/// Whether what names circuits, relays and plans that do not exist comes to nothing.
fn passes_over_what_does_not_exist(world: &mut World) -> bool {
    let frame = client_frame(Kind4::Discover, 1, &[]);
    let bytes = frame.as_slice();
    let (other, relay) = (circuit(1), RelayNo::new(1).unwrap());
    let addr = Addr4([127, 0, 0, 1]);
    let server = Source { addr, port: 6767 };
    let comebacks = [
        back(Image::Byte(0)),
        back(Image::Unreadable),
        back(Image::Byte(0xa5)),
    ];
    let events = [
        Event::Frame(other, Proto::V4, bytes),
        Event::Up(other, 0, Moment::first(), 0),
        Event::Down(other, 0),
        Event::StrayDown(relay, server, bytes),
    ];
    each_comes_to(world, &events, Outcome::Gone)
        && each_comes_to(world, &[Event::Restart(&comebacks)], Outcome::Done)
        && each_comes_to(
            world,
            &[Event::Reload(1), Event::Reload(255)],
            Outcome::NoPlan,
        )
        && each_comes_to(world, &[Event::Reload(0)], Outcome::Done)
        && is_answered(world, Kind4::Discover, &[], 255)
}

/// Opens a world and looks whether it passes over what does not exist.
fn a_world_passes_over_it(alloc: Global) -> bool {
    match opened(alloc, 1) {
        Ok(mut world) => {
            let holds = passes_over_what_does_not_exist(&mut world);
            drop(world);
            holds
        }
        Err(_) => false,
    }
}

#[test]
fn what_does_not_exist(rt: HostRuntime) {
    assert!(rt; a_world_passes_over_it(rt.alloc()));
}
