//! What is opened over configurations and a disk, for a count of the requests for memory that it makes.
ghost use Rattle.std.specs.Prelude.{ℕ};
ghost use Rattle.lease_disk.specs.Model.{disk_region};
ghost use Rattle.lease_disk.specs.Region.{IsClean};

use config::Plans;
use dispatch::Server;
use lease_disk::ModelDisk;
use std::alloc::Global;
use world::World;

/// How many regions the disk has: enough for every configuration, and as many for one circuit as for 1024.
const REGIONS: u16 = 1024;

/// What is opened.
#[derive(Clone, Copy)]
pub enum Opening {
    /// The configurations and the disk alone, which the others begin with.
    Disk,
    Server,
    /// A world whose network keeps one datagram of a circuit and direction.
    World,
}

impl Opening {
    /// What the first line of a configuration names, a comment.
    pub fn of(line: &[u8]) -> Opening {
        if line.starts_with(b"# server") {
            return Opening::Server;
        }
        if line.starts_with(b"# world") {
            return Opening::World;
        }
        Opening::Disk
    }

    /// Whether the configuration is read, once or eight times, and all of this opened.
    pub fn succeeds(self, alloc: Global, text: &str, is_eightfold: bool) -> bool {
        let texts = [text; 8];
        let count = if is_eightfold { 8 } else { 1 };
        match Plans::read(alloc, &texts[..count]) {
            Ok(plans) => self.succeeds_with(alloc, &plans),
            Err(_) => false,
        }
    }

    /// Whether all of this is opened with these configurations.
    fn succeeds_with(self, alloc: Global, plans: &Plans) -> bool {
        match ModelDisk::new(alloc, REGIONS) {
            Ok(disk) => self.succeeds_over(alloc, plans, disk),
            Err(_) => false,
        }
    }

    /// Whether this is opened over the disk.
    fn succeeds_over(self, alloc: Global, plans: &Plans, mut disk: ModelDisk) -> bool
        requires synced { (q : ℕ) → IsClean (disk_region disk q) }
    {
        match self {
            Opening::Disk => true,
            Opening::Server => match Server::open_plans(alloc, plans, &mut disk) {
                Ok(server) => {
                    drop(server);
                    true
                }
                Err(_) => false,
            },
            Opening::World => match World::open_plans(alloc, plans, disk, 1) {
                Ok(world) => {
                    drop(world);
                    true
                }
                Err(_) => false,
            },
        }
    }
}
