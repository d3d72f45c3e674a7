//! A device in memory whose bytes no contract knows.

use lease_disk::{Disk, Fault, ModelDisk};
use std::alloc::{AllocError, Global};

/// A device in memory. It does not tell what its regions hold, so that a server may be opened over any bytes.
#[derive(Drop)]
pub struct UnknownDisk {
    pub disk: ModelDisk,
}

impl UnknownDisk {
    /// A device of so many formatted regions.
    pub fn new(alloc: Global, regions: u16) -> Result<UnknownDisk, AllocError> {
        let disk = ModelDisk::new(alloc, regions)?;
        Ok(UnknownDisk { disk })
    }
}

impl Disk for UnknownDisk {
    ghost use Rattle.std.specs.Prelude.{false};
    ghost use Rattle.lease_disk.specs.Model.{device_of, nothing_in_doubt};

    ghost tells = { false };

    ghost device = { λ d. device_of d.disk };

    ghost doubt = { λ d. nothing_in_doubt d.disk };

    fn regions(&self) -> u16 {
        self.disk.regions()
    }

    fn read(&mut self, region: u16, at: usize, out: &mut [u8]) -> Result<(), Fault> {
        self.disk.read(region, at, out)
    }

    fn write_at(&mut self, region: u16, at: usize, bytes: &[u8]) -> Result<(), Fault> {
        self.disk.write_at(region, at, bytes)
    }

    fn sync(&mut self, region: u16) -> Result<(), Fault> {
        self.disk.sync(region)
    }

    fn sync_set(&mut self, regions: &[u16]) -> Result<(), Fault> {
        self.disk.sync_set(regions)
    }
}
