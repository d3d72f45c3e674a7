//! When the slot of a client's address is due, from its offer to the end of its lease.
ghost use Rattle.std.specs.Prelude.{IfOk, ℕ};
ghost use Rattle.lease_disk.specs.Model.{device_of, disk_region};
ghost use Rattle.lease_disk.specs.Region.{IsClean};
ghost use Rattle.dispatch.specs.Regions.{HasRegions};
ghost use Rattle.dispatch.specs.ServerValue.{AreReady};

use config::Config;
use dispatch::{OpenFault, Server};
use fixtures::ONE_CIRCUIT;
use lease_disk::ModelDisk;
use std::alloc::Global;
use types::{Addr4, Kind4, Moment, Proto, Source};
use wire::PacketBuf;

/// Options 54 and 50 of a client that takes the offer of 10.0.0.10.
const SELECTS: &[u8] = &[54, 4, 10, 0, 0, 1, 50, 4, 10, 0, 0, 10];

/// Option 54 of a client that gives its lease up.
const RELEASES: &[u8] = &[54, 4, 10, 0, 0, 1];

/// Option 82 with the circuit `a` and the gateway, and the end.
const AGENT: &[u8] = &[82, 9, 1, 1, 97, 11, 4, 10, 0, 0, 1, 255];

/// The datagram of a client's message that the relay of `ONE_CIRCUIT` sends up.
fn datagram(kind: Kind4, ciaddr: &[u8; 4], options: &[u8]) -> PacketBuf {
    let mut bytes = PacketBuf::new();
    let _ = bytes.extend(&[1, 1, 6, 1, 0, 0, 0, 1]);
    let _ = bytes.pad_to(12);
    let _ = bytes.extend(ciaddr);
    let _ = bytes.pad_to(24);
    let _ = bytes.extend(&[10, 0, 0, 1, 2, 0, 0, 0, 0, 1]);
    let _ = bytes.pad_to(236);
    let _ = bytes.extend(&[99, 130, 83, 99]);
    let _ = bytes.extend(&[53, 1, kind.code()]);
    let _ = bytes.extend(options);
    let _ = bytes.extend(AGENT);
    bytes
}

fn moment(seconds: u64) -> Moment {
    Moment::new(seconds).unwrap_or(Moment::first())
}

/// A server over a disk in which nothing is unsynced.
fn open_over(alloc: Global, config: &Config, disk: &mut ModelDisk) -> Result<Server, OpenFault>
    requires synced { (q : ℕ) → IsClean (disk_region disk.old q) }
    ensures regions { IfOk result (λ server. HasRegions server.topology.circuits (device_of disk.new).count) }
    ensures ready { IfOk result (λ server. AreReady (device_of disk.new).region server) }
{
    Server::open(alloc, config, disk)
}

/// Whether the server replies to this datagram at this moment.
fn is_answered(server: &mut Server, disk: &mut ModelDisk, datagram: &PacketBuf, now: u64) -> bool
    requires regions { HasRegions server.old.topology.circuits (device_of disk.old).count }
    requires ready { AreReady (device_of disk.old).region server.old }
    ensures regions { HasRegions server.new.topology.circuits (device_of disk.new).count }
    ensures ready { AreReady (device_of disk.new).region server.new }
{
    let source = Source {
        addr: Addr4([127, 0, 0, 1]),
        port: 6801,
    };
    let mut out = PacketBuf::new();
    server
        .receive(
            Proto::V4,
            source,
            datagram.as_slice(),
            moment(now),
            disk,
            &mut out,
        )
        .is_ok()
}

/// Whether the first slot, that of 10.0.0.10, has this deadline, and no other slot has one.
fn is_due(alloc: Global, server: &Server, until: Option<u64>) -> bool {
    let Ok(deadlines) = server.deadlines().list(alloc) else {
        return false;
    };
    let mut expected = [None; 32];
    expected[0] = until;
    deadlines.as_slice() == expected.as_slice()
}

/// An offer is held for a minute, and the lease that follows for ten.
fn is_leased(alloc: Global, server: &mut Server, disk: &mut ModelDisk) -> bool
    requires regions { HasRegions server.old.topology.circuits (device_of disk.old).count }
    requires ready { AreReady (device_of disk.old).region server.old }
    ensures regions { HasRegions server.new.topology.circuits (device_of disk.new).count }
    ensures ready { AreReady (device_of disk.new).region server.new }
{
    let is_free = is_due(alloc, server, None);
    let is_offered = is_answered(server, disk, &datagram(Kind4::Discover, &[0; 4], &[]), 100);
    let is_held = is_due(alloc, server, Some(160));
    let request = datagram(Kind4::Request, &[0; 4], SELECTS);
    let is_given = is_answered(server, disk, &request, 101);
    is_free && is_offered && is_held && is_given && is_due(alloc, server, Some(701))
}

/// A second before its end the lease is still there; then its client gives it up.
fn is_released(alloc: Global, server: &mut Server, disk: &mut ModelDisk) -> bool
    requires regions { HasRegions server.old.topology.circuits (device_of disk.old).count }
    requires ready { AreReady (device_of disk.old).region server.old }
    ensures regions { HasRegions server.new.topology.circuits (device_of disk.new).count }
    ensures ready { AreReady (device_of disk.new).region server.new }
{
    server.tick(moment(700));
    let is_held = is_due(alloc, server, Some(701));
    let release = datagram(Kind4::Release, &[10, 0, 0, 10], RELEASES);
    let is_silent = !is_answered(server, disk, &release, 700);
    is_held && is_silent && is_due(alloc, server, None)
}

/// A later offer ends by the tick of its end, and not before.
fn ends(alloc: Global, server: &mut Server, disk: &mut ModelDisk) -> bool
    requires regions { HasRegions server.old.topology.circuits (device_of disk.old).count }
    requires ready { AreReady (device_of disk.old).region server.old }
{
    let is_offered = is_answered(server, disk, &datagram(Kind4::Discover, &[0; 4], &[]), 702);
    server.tick(moment(761));
    let is_held = is_due(alloc, server, Some(762));
    server.tick(moment(762));
    is_offered && is_held && is_due(alloc, server, None)
}

/// Whether all of it is so for a server of one circuit.
fn follows_the_slot(alloc: Global, config: &Config, disk: &mut ModelDisk) -> bool
    requires synced { (q : ℕ) → IsClean (disk_region disk.old q) }
{
    let Ok(mut server) = open_over(alloc, config, disk) else {
        return false;
    };
    let begins = is_leased(alloc, &mut server, disk);
    let stops = is_released(alloc, &mut server, disk);
    begins && stops && ends(alloc, &mut server, disk)
}

/// Makes a disk and looks whether a server over it follows the slot.
fn a_server_follows_the_slot(alloc: Global) -> bool {
    match (Config::read(alloc, ONE_CIRCUIT), ModelDisk::new(alloc, 1)) {
        (Ok(config), Ok(mut disk)) => follows_the_slot(alloc, &config, &mut disk),
        _ => false,
    }
}

#[test]
fn deadlines_follow_a_slot(rt: HostRuntime) {
    assert!(rt; a_server_follows_the_slot(rt.alloc()));
}
