//! The device in a file, which keeps the leases.
ghost use Rattle.std.specs.Prelude.{◌≡◌, ◌≢◌, ◌≤◌, ◌<◌, ◌+◌, ◌*◌, ℕ, true, false, length, Some, IfOk, IfErr, OnOk, slice_get};
ghost use Rattle.opening.specs.declared.device.DeviceFault.TheVariants as fault;
ghost use Rattle.settings.specs.declared.settings.CircuitConfig.{CircuitConfig};
ghost use Rattle.lease_disk.specs.Crash.{IsFormatted};
ghost use Rattle.lease_disk.specs.Device.{StaySettled};
ghost use Rattle.lease_disk.specs.FileDisk.{doubt_of, uncalled};

use config::Config;
use dispatch::region_count;
use lease_disk::{Disk, FileDisk, FileFault, format};
use std::fs::File;
use std::rt::Files;
use thiserror::Error;
use types::Circuit;

/// Why a file does not serve as the device of a configuration.
#[derive(Clone, Copy, Debug, PartialEq, Eq, Error)]
pub enum DeviceFault {
    #[error("the file can't be opened, made or lengthened, or is in use")]
    File,
    #[error("out of memory")]
    Memory,
    /// A region could not be formatted.
    #[error("a region can't be formatted")]
    Format,
}

/// Formats the region of each circuit.
fn format_regions<D: Disk>(config: &Config, disk: &mut D) -> Result<(), DeviceFault>
    requires { (c : ℕ) (circuit : CircuitConfig) → slice_get config.now.circuits c ≡ Some circuit
        → circuit.region < (D.device disk.old).count }
    ensures formatted { D.tells ≡ true
        → OnOk result ((c : ℕ) (circuit : CircuitConfig) → slice_get config.now.circuits c ≡ Some circuit
        → IsFormatted ((D.device disk.new).region circuit.region)) }
    ensures count { (D.device disk.new).count ≡ (D.device disk.old).count }
    ensures writes { OnOk result ((D.device disk.new).writes ≡ (D.device disk.old).writes + 4 * length config.now.circuits) }
{
    'circuits: for index in 0..config.circuit_count() {
        let circuit = Circuit::at(index);
        let Ok(()) = format(config.at(circuit).region, disk) else {
            return Err(DeviceFault::Format);
        };
    }
    Ok(())
}

fn fault_of(why: FileFault) -> DeviceFault
    ensures { result ≢ fault.Format }
{
    match why {
        FileFault::File => DeviceFault::File,
        FileFault::Memory => DeviceFault::Memory,
    }
}

/// Opens the file with this path as the device of a configuration, as it is.
pub fn open_device<R: Files<File = File>>(rt: &R, path: &str) -> Result<FileDisk, DeviceFault>
    ensures most { IfOk result (λ disk. disk.regions ≤ 1024) }
    ensures new { IfOk result (λ disk. disk ≡ uncalled disk.length) }
    ensures refused { IfErr result (λ why. why ≢ fault.Format) }
{
    FileDisk::open(rt, path).map_err(fault_of)
}

/// Writes back the regions of all circuits, and syncs once: an earlier program may have left in a file what its reads give
/// and its disk has not. A region for which that fails is tried again when it is read.
pub fn settle_regions(config: &Config, disk: &mut FileDisk)
    ensures stay { StaySettled (doubt_of disk.old) (doubt_of disk.new) }
    ensures rest { disk.new ≡ record disk.old { doubts = disk.new.doubts } }
{
    let count = config.circuit_count();
    let mut regions = [0; 1024];
    'circuits: for index in 0..count {
        regions[index] = config.at(Circuit::at(index)).region;
    }
    disk.settle(&regions[..count]);
}

/// Makes the file, where there is none, or lengthens it, and formats the region of each circuit: all
/// leases in these are lost. Formats none where there are more circuits than `most`, which are not served.
pub fn format_device<R: Files<File = File>>(
    rt: &R,
    path: &str,
    config: &Config,
    most: usize,
) -> Result<FileDisk, DeviceFault>
    ensures writes { length config.now.circuits ≤ most → IfOk result (λ disk. disk.writes ≡ 4 * length config.now.circuits) }
    ensures none { most < length config.now.circuits → IfOk result (λ disk. disk.writes ≡ 0) }
    ensures regions { IfOk result (λ disk.
        (c : ℕ) (circuit : CircuitConfig) → slice_get config.now.circuits c ≡ Some circuit
        → circuit.region < disk.regions) }
{
    let mut disk = FileDisk::create(rt, path, region_count(config)).map_err(fault_of)?;
    if config.circuit_count() <= most {
        format_regions(config, &mut disk)?;
    }
    Ok(disk)
}

/// Opens the file with this path as the device of a configuration of which so many circuits are served at most: as it is, or
/// formatted where `formats` says so.
pub fn device_of<R: Files<File = File>>(
    rt: &R,
    path: &str,
    formats: bool,
    config: &Config,
    most: usize,
) -> Result<FileDisk, DeviceFault>
    ensures formats { formats ≡ true → length config.now.circuits ≤ most
        → IfOk result (λ disk. disk.writes ≡ 4 * length config.now.circuits) }
    ensures opens { formats ≡ false → IfOk result (λ disk. disk ≡ uncalled disk.length) }
{
    if formats {
        format_device(rt, path, config, most)
    } else {
        open_device(rt, path)
    }
}
