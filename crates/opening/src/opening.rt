//! Opening the server over a device, some of whose regions may be of the format of an earlier version.
ghost use Rattle.std.specs.Prelude.{◌≡◌, ◌≤◌, ◌+◌, ◌*◌, true, length, IfOk, IfErr, OnErr};
ghost use Rattle.opening.specs.Opening.{BeginsAsSettled, IsCalledToOpen, format_of, formats_of};
ghost use Rattle.config.specs.CircuitPart.{parts_of};
ghost use Rattle.config.specs.Topology.{topology_of};
ghost use Rattle.dispatch.specs.Regions.{AreSynced, HasRegions};
ghost use Rattle.dispatch.specs.ServerValue.{AreReady};
ghost use Rattle.dispatch.specs.declared.server.OpenFault.TheVariants as fault;
ghost use Rattle.lease_disk.specs.Device.{TouchesNothing};

use config::Config;
use dispatch::{OpenFault, Server};
use lease_disk::{Disk, read_format};
use std::alloc::{AllocError, Global};
use types::Circuit;

/// The byte that says the format of each circuit's region, as it was before the opening; `None` where it could not be
/// read.
pub type Formats = Vec<Option<u8>>;

/// The byte that says the format of a region, if there is such a region and it can be read.
fn format_of<D: Disk>(region: u16, disk: &mut D) -> Option<u8>
    ensures found { D.tells ≡ true → result ≡ format_of (D.device disk.old) region }
    ensures frame { TouchesNothing D.tells (D.device disk.old) (D.device disk.new) }
    ensures reads { (D.device disk.new).reads ≤ (D.device disk.old).reads + 1 }
    ensures least { (D.device disk.old).reads ≤ (D.device disk.new).reads }
{
    if region >= disk.regions() {
        return None;
    }
    read_format(region, disk).ok()
}

/// The format of each circuit's region. The memory for them is taken before the device is first called.
fn formats_of<D: Disk>(alloc: Global, config: &Config, disk: &mut D) -> Result<Formats, AllocError>
    ensures found { D.tells ≡ true → IfOk result (λ found. found.items ≡ formats_of (D.device disk.old) config.now.circuits) }
    ensures all { IfOk result (λ found. length found.items ≡ length config.now.circuits) }
    ensures frame { TouchesNothing D.tells (D.device disk.old) (D.device disk.new) }
    ensures reads { (D.device disk.new).reads ≤ (D.device disk.old).reads + length config.now.circuits }
    ensures least { (D.device disk.old).reads ≤ (D.device disk.new).reads }
{
    let mut found = Vec::with_capacity(alloc, config.circuit_count())?;
    'circuits: for index in 0..config.circuit_count() {
        let circuit = Circuit::at(index);
        found.push(format_of(config.at(circuit).region, disk))?;
    }
    Ok(found)
}

/// Opens the server of a configuration over a device, which moves its regions of format 1, and returns the formats that
/// the regions had before.
pub fn open_server<D: Disk>(
    alloc: Global,
    config: &Config,
    disk: &mut D,
) -> Result<(Server, Formats), OpenFault>
    requires synced { D.tells ≡ true → AreSynced (parts_of config.now) (D.device disk.old).region }
    ensures formats { D.tells ≡ true → IfOk result (λ opened. opened.1.items ≡ formats_of (D.device disk.old) config.now.circuits) }
    ensures ready { D.tells ≡ true → IfOk result (λ opened. AreReady (D.device disk.new).region opened.0) }
    ensures begins { IfOk result (λ opened. BeginsAsSettled (D.doubt disk.new) opened.0) }
    ensures all { IfOk result (λ opened. length opened.1.items ≡ length config.now.circuits) }
    ensures topology { IfOk result (λ opened. opened.0.topology ≡ topology_of config.now) }
    ensures large { IfOk result (λ opened. HasRegions (parts_of config.now) (D.device disk.new).count) }
    ensures small { IfErr result (λ why. why ≡ fault.DiskTooSmall → ¬ HasRegions (parts_of config.now) (D.device disk.old).count) }
    ensures untouched { OnErr result (TouchesNothing D.tells (D.device disk.old) (D.device disk.new)) }
    ensures calls { IsCalledToOpen (length config.now.circuits) result (D.device disk.old) (D.device disk.new) }
{
    let Ok(formats) = formats_of(alloc, config, disk) else {
        return Err(OpenFault::Memory);
    };
    match Server::open(alloc, config, disk) {
        Ok(server) => Ok((server, formats)),
        Err(why) => Err(why),
    }
}
