//! What takes memory before a world runs, one after the other. Each step either gives what it should, or
//! reports that memory ran out and has done nothing.
ghost use Rattle.std.specs.Prelude.{◌≡◌, ℕ, length, IfOk};
ghost use Rattle.lease_disk.specs.Model.{disk_region};
ghost use Rattle.lease_disk.specs.Region.{IsClean};

use config::{Config, Plans};
use dispatch::{OpenFault, Server};
use fixtures::ONE_CIRCUIT;
use lease_disk::ModelDisk;
use lossy_net::Net;
use relay::Relays;
use std::alloc::Global;
use std::fmt;
use world::World;

/// The number of the fault of a configuration that is refused because memory ran out.
const MEMORY: u8 = 40;

/// The steps in their order.
#[derive(Clone, Copy, PartialEq, Eq)]
pub enum Step {
    Config,
    Relays,
    Net,
    /// One for the server, and one for the world.
    Disk,
    Server,
    /// Two plans of one configuration.
    Plans,
    World,
}

impl Step {
    /// The step with this name; the last for every other name.
    pub fn of(name: &[u8]) -> Step {
        match name {
            b"config" => Step::Config,
            b"relays" => Step::Relays,
            b"net" => Step::Net,
            b"disk" => Step::Disk,
            b"server" => Step::Server,
            b"plans" => Step::Plans,
            _ => Step::World,
        }
    }
}

impl fmt::Display for Step {
    fn fmt<W: fmt::Write>(&self, f: &mut fmt::Formatter<W>) -> fmt::Result {
        f.write_str(match self {
            Step::Config => "config",
            Step::Relays => "relays",
            Step::Net => "net",
            Step::Disk => "disk",
            Step::Server => "server",
            Step::Plans => "plans",
            Step::World => "world",
        })
    }
}

/// Why a step did not give what it should.
#[derive(Clone, Copy)]
pub enum Trouble {
    /// It reported that memory ran out.
    Memory(Step),
    /// It did something else.
    Wrong(Step),
}

impl fmt::Display for Trouble {
    fn fmt<W: fmt::Write>(&self, f: &mut fmt::Formatter<W>) -> fmt::Result {
        match self {
            Trouble::Memory(step) => write!(f, "{step}: memory"),
            Trouble::Wrong(step) => write!(f, "{step}: wrong"),
        }
    }
}

fn expect(holds: bool, step: Step) -> Result<(), Trouble> {
    if holds {
        return Ok(());
    }
    Err(Trouble::Wrong(step))
}

fn config(alloc: Global) -> Result<Config, Trouble> {
    match Config::read(alloc, ONE_CIRCUIT) {
        Ok(config) => Ok(config),
        Err(fault) => {
            expect(fault.number() == MEMORY, Step::Config)?;
            Err(Trouble::Memory(Step::Config))
        }
    }
}

fn plans(alloc: Global) -> Result<Plans, Trouble> {
    match Plans::read(alloc, &[ONE_CIRCUIT, ONE_CIRCUIT]) {
        Ok(plans) => Ok(plans),
        Err(fault) => {
            expect(fault.number() == MEMORY, Step::Plans)?;
            Err(Trouble::Memory(Step::Plans))
        }
    }
}

fn disk(alloc: Global) -> Result<ModelDisk, Trouble>
    ensures count { IfOk result (λ disk. length disk.regions ≡ 1) }
    ensures synced { IfOk result (λ disk. (q : ℕ) → IsClean (disk_region disk q)) }
{
    match ModelDisk::new(alloc, 1) {
        Ok(disk) => Ok(disk),
        Err(_) => Err(Trouble::Memory(Step::Disk)),
    }
}

/// A server, over a disk in which nothing is unsynced. That one which is refused has not called its device is in its contract.
fn server(alloc: Global, config: &Config, mut disk: ModelDisk) -> Result<(), Trouble>
    requires { (q : ℕ) → IsClean (disk_region disk q) }
{
    match Server::open(alloc, config, &mut disk) {
        Ok(server) => {
            drop(server);
            Ok(())
        }
        Err(OpenFault::Memory) => Err(Trouble::Memory(Step::Server)),
        Err(OpenFault::DiskTooSmall) => Err(Trouble::Wrong(Step::Server)),
    }
}

/// A world over a disk in which nothing is unsynced, whose network keeps 16 datagrams of a circuit and
/// direction.
fn open_over(alloc: Global, plans: &Plans, disk: ModelDisk) -> Result<World, OpenFault>
    requires synced { (q : ℕ) → IsClean (disk_region disk q) }
{
    World::open_plans(alloc, plans, disk, 16)
}

fn world(alloc: Global, plans: &Plans, disk: ModelDisk) -> Result<World, Trouble>
    requires synced { (q : ℕ) → IsClean (disk_region disk q) }
{
    match open_over(alloc, plans, disk) {
        Ok(world) => Ok(world),
        Err(OpenFault::Memory) => Err(Trouble::Memory(Step::World)),
        Err(OpenFault::DiskTooSmall) => Err(Trouble::Wrong(Step::World)),
    }
}

/// What a world is made of beside its disk.
fn ends(alloc: Global, config: &Config, last: Step) -> Result<(), Trouble> {
    if Relays::new(alloc, config).is_err() {
        return Err(Trouble::Memory(Step::Relays));
    }
    if last != Step::Relays && Net::new(alloc, 1, 16).is_err() {
        return Err(Trouble::Memory(Step::Net));
    }
    Ok(())
}

/// The disks, and what is opened over them.
fn over_disks(alloc: Global, config: &Config, last: Step) -> Result<Option<World>, Trouble> {
    let (of_server, of_world) = (disk(alloc)?, disk(alloc)?);
    if last != Step::Disk {
        server(alloc, config, of_server)?;
    }
    if last == Step::Disk || last == Step::Server {
        return Ok(None);
    }
    let plans = plans(alloc)?;
    if last == Step::Plans {
        return Ok(None);
    }
    world(alloc, &plans, of_world).map(Some)
}

/// The steps up to this one, which is done. After the last there is a world.
pub fn opened(alloc: Global, last: Step) -> Result<Option<World>, Trouble> {
    let config = config(alloc)?;
    if last == Step::Config {
        return Ok(None);
    }
    ends(alloc, &config, last)?;
    if last == Step::Relays || last == Step::Net {
        return Ok(None);
    }
    over_disks(alloc, &config, last)
}
