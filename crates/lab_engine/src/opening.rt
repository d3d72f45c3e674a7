//! A run over a world that is opened for it.
ghost use Rattle.std.specs.Prelude.{◌≡◌, ◌⊎◌, ℕ, ◌≤◌, List, Some, length, IfOk, IfErr};
ghost use Rattle.std.specs.Io.KnownBytes.{Appends};
ghost use Rattle.dispatch.specs.declared.server.OpenFault.TheVariants as fault;
ghost use Rattle.lab_engine.specs.Lab.{first_machines, lab_output};
ghost use Rattle.lab_engine.specs.Run.{IsPartial, IsStatus, HasCause, HasNoCause};
ghost use Rattle.config.specs.Topology.{plans_topology};
ghost use Rattle.lab_engine.specs.Preparations.{AreOver, IsDiskReadyFor};
ghost use Rattle.lab_engine.specs.Progress.{AllRepresent};
ghost use Rattle.lease_disk.specs.Model.{device_of};
ghost use Rattle.world.specs.Start.{Opening};
ghost use Rattle.world.specs.World.{states};

use crate::bad_line::BadLine;
use crate::buffers::Buffers;
use crate::engine::apply_lines;
use crate::preparations::prepare_all;
use crate::status::{FAILED, UNOPENED};
use config::Plans;
use dispatch::region_count;
use lease_disk::ModelDisk;
use std::alloc::Global;
use streams::{ByteReader, ByteWriter, ReadAhead};
use world::{OpenFault, World};

/// The world of some plans over this disk.
fn opened(alloc: Global, plans: &Plans, disk: ModelDisk, quota: u16) -> Result<World, OpenFault>
    requires some { 1 ≤ quota }
    requires most { quota ≤ 256 }
    requires disk { IsDiskReadyFor plans.now.union disk }
    ensures represents { IfOk result (λ world. (openings : ℕ → Opening)
        → AreOver plans.now quota (device_of disk) openings
        → AllRepresent plans.now quota (states world) (first_machines plans.now quota openings)) }
    ensures topology { IfOk result (λ world. world.relays.topology ≡ plans_topology plans.now) }
    ensures memory { IfErr result (λ why. why ≡ fault.Memory) }
{
    World::open_plans(alloc, plans, disk, quota)
}

/// Prepares the regions of a formatted disk as the lines before all events say, opens a world of the
/// plans over it, of which the first is in force, applies the other lines of the text and writes the outcome of each. Returns the
/// status: 0 at the end of the text, 3 at a bad line, 4 where the world was not opened, 6 exactly where
/// the reader or the writer fails or 2^64 - 1 bytes were read.
///
/// The contract does not say that 4 is returned only when out of memory, nor that `bad` has the line at 3.
pub fn run_explained<R: ByteReader, W: ByteWriter>(
    alloc: Global,
    plans: &Plans,
    quota: u16,
    reader: &mut R,
    writer: &mut W,
    bad: &mut BadLine,
) -> u8
    requires some { 1 ≤ quota }
    requires most { quota ≤ 256 }

    // The output is that of the whole text.
    ensures written { (text : List ℕ) → R.remaining reader.old ≡ Some text → ¬ (result ≡ 4) → ¬ (result ≡ 6)
        → Appends (W.contents writer.old) (W.contents writer.new) (lab_output plans.now quota text).text
        × (result ≡ (lab_output plans.now quota text).status) }

    // Without a world nothing is written.
    ensures unwritten { result ≡ 4 → W.contents writer.new ≡ W.contents writer.old }

    // The status is 4 or one of `lab`'s.
    ensures status { (result ≡ 4) ⊎ IsStatus result }

    // Where the reader or the writer failed, a prefix of the output for what was read is written.
    ensures partial { result ≡ 6
        → IsPartial (lab_output plans.now quota) (R.remaining reader.old) (R.remaining reader.new)
        (W.contents writer.old) (W.contents writer.new) }

    // A failure has a cause, and nothing else comes of one.
    ensures cause { result ≡ 6
        → HasCause (R.remaining reader.old) (R.remaining reader.new) (R.failures reader.old) (R.failures reader.new)
        (W.failures writer.old) (W.failures writer.new) }
    ensures quiet { ¬ (result ≡ 6)
        → HasNoCause (R.remaining reader.old) (R.remaining reader.new) (R.failures reader.old) (R.failures reader.new)
        (W.failures writer.old) (W.failures writer.new) }
{
    let Ok(mut disk) = ModelDisk::new(alloc, region_count(plans.union())) else {
        return UNOPENED;
    };
    let mut ahead = ReadAhead::new();
    let mut buffers = Buffers::new();
    let Ok(next) = prepare_all(&mut disk, plans, &mut ahead, &mut buffers, reader) else {
        // here and below a call drops them: all that they hold would otherwise be part of this function's proof
        drop((disk, ahead, buffers));
        return FAILED;
    };
    let Ok(mut world) = opened(alloc, plans, disk, quota) else {
        drop((ahead, buffers));
        return UNOPENED;
    };
    let status = apply_lines(
        &mut world,
        plans,
        next,
        &mut ahead,
        &mut buffers,
        reader,
        writer,
    );
    // a bad line is not consumed
    bad.keep(buffers.line, ahead.as_slice());
    drop((world, ahead, buffers));
    status
}

/// `run_explained`, without the bad line.
pub fn run<R: ByteReader, W: ByteWriter>(
    alloc: Global,
    plans: &Plans,
    quota: u16,
    reader: &mut R,
    writer: &mut W,
) -> u8
    requires some { 1 ≤ quota }
    requires most { quota ≤ 256 }

    // The output is that of the whole text.
    ensures written { (text : List ℕ) → R.remaining reader.old ≡ Some text → ¬ (result ≡ 4) → ¬ (result ≡ 6)
        → Appends (W.contents writer.old) (W.contents writer.new) (lab_output plans.now quota text).text
        × (result ≡ (lab_output plans.now quota text).status) }

    // Without a world nothing is written.
    ensures unwritten { result ≡ 4 → W.contents writer.new ≡ W.contents writer.old }

    // The status is 4 or one of `lab`'s.
    ensures status { (result ≡ 4) ⊎ IsStatus result }

    // Where the reader or the writer failed, a prefix of the output for what was read is written.
    ensures partial { result ≡ 6
        → IsPartial (lab_output plans.now quota) (R.remaining reader.old) (R.remaining reader.new)
        (W.contents writer.old) (W.contents writer.new) }

    // A failure has a cause, and nothing else comes of one.
    ensures cause { result ≡ 6
        → HasCause (R.remaining reader.old) (R.remaining reader.new) (R.failures reader.old) (R.failures reader.new)
        (W.failures writer.old) (W.failures writer.new) }
    ensures quiet { ¬ (result ≡ 6)
        → HasNoCause (R.remaining reader.old) (R.remaining reader.new) (R.failures reader.old) (R.failures reader.new)
        (W.failures writer.old) (W.failures writer.new) }
{
    let mut bad = BadLine::new();
    run_explained(alloc, plans, quota, reader, writer, &mut bad)
}
