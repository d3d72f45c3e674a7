//! How many syncs a batch costs, which no line of text says: the saves of all its parts share three.
ghost use Rattle.std.specs.Prelude.{◌≤◌};

use config::Config;
use fixtures::{TWO_CIRCUITS, client_frame};
use lease_disk::ModelDisk;
use std::alloc::Global;
use types::{Circuit, Kind4, Moment, Proto};
use wire::PacketBuf;
use world::*;

/// Options 54 and 50 of a client that takes the first address of the first or the second circuit.
const SELECTS: [&[u8]; 2] = [
    &[54, 4, 10, 0, 0, 1, 50, 4, 10, 0, 0, 10],
    &[54, 4, 10, 0, 1, 1, 50, 4, 10, 0, 1, 10],
];

/// A world of two circuits.
fn opened(alloc: Global) -> Option<World> {
    let config = Config::read(alloc, TWO_CIRCUITS).ok()?;
    let disk = ModelDisk::new(alloc, 2).ok()?;
    World::open(alloc, &config, disk, 16).ok()
}

fn circuit(index: usize) -> Circuit
    requires { index ≤ 1023 }
{
    Circuit::new(index).unwrap()
}

fn moment(seconds: u64) -> Moment {
    Moment::new(seconds).unwrap_or(Moment::first())
}

/// What comes of one event.
fn outcome_of(world: &mut World, events: &[Event<'_>]) -> Option<Outcome> {
    let mut out = PacketBuf::new();
    let event = events.first()?;
    Some(world.step(event, &mut out))
}

/// Whether a message of client 1 on the circuit comes to the server's socket as so many bytes.
fn is_sent_up(world: &mut World, index: usize, kind: Kind4, options: &[u8], len: usize) -> bool
    requires { index ≤ 1023 }
{
    let frame = client_frame(kind, 1, options);
    let events = [Event::Frame(circuit(index), Proto::V4, frame.as_slice())];
    outcome_of(world, &events) == Some(Outcome::SentUp(len))
}

/// Whether client 1 is offered an address on the circuit, and its request waits for the server.
fn requests(world: &mut World, index: usize, options: &[u8]) -> bool
    requires { index ≤ 1 }
{
    let up = [Event::Up(circuit(index), 0, moment(100), 0)];
    is_sent_up(world, index, Kind4::Discover, &[], 255 + index)
        && outcome_of(world, &up) == Some(Outcome::SentDown(300))
        && is_sent_up(world, index, Kind4::Request, options, 267 + index)
}

/// The newest datagram of a circuit, whose save does not fail.
fn part(index: usize) -> BatchPart
    requires { index ≤ 1023 }
{
    BatchPart {
        circuit: circuit(index),
        number: 0,
        fault: 0,
    }
}

/// Whether the requests of both circuits at once, in this order, are answered after three syncs.
fn shares_syncs(world: &mut World, first: usize, second: usize) -> bool
    requires first { first ≤ 1023 }
    requires second { second ≤ 1023 }
{
    if !requests(world, 0, SELECTS[0]) || !requests(world, 1, SELECTS[1]) {
        return false;
    }
    let before = world.disk().syncs();
    let parts = [part(first), part(second)];
    let events = [Event::Batch(moment(101), 0, &parts)];
    let mut expected = [None; 16];
    expected[0] = Some(PartOutcome::SentDown(300));
    expected[1] = Some(PartOutcome::SentDown(300));
    outcome_of(world, &events) == Some(Outcome::Batched(expected))
        && world.disk().syncs().wrapping_sub(before) == 3
}

/// Opens a world and looks whether its circuits share their syncs.
fn a_world_shares_syncs(alloc: Global, first: usize, second: usize) -> bool
    requires first { first ≤ 1023 }
    requires second { second ≤ 1023 }
{
    match opened(alloc) {
        Some(mut world) => {
            let holds = shares_syncs(&mut world, first, second);
            drop(world);
            holds
        }
        None => false,
    }
}

#[test]
fn a_batch_shares_its_syncs(rt: HostRuntime) {
    assert!(rt; a_world_shares_syncs(rt.alloc(), 0, 1));
    assert!(rt; a_world_shares_syncs(rt.alloc(), 1, 0));
}
