//! One step of a batch.
ghost use Rattle.std.specs.Prelude.{◌≡◌, ◌<◌, ◌≤◌, ◌+◌, length};
ghost use Rattle.batch_saves.specs.Batch.{AreApart, failed_of, step_calls};
ghost use Rattle.batch_saves.specs.Steps.{AreStepped, AreWritable, FailedBefore, KeepsOthers, call_of};

use crate::syncs::sync_parts;
use crate::writes::write_parts;
use lease_disk::{Disk, SaveStep, Saving};

/// One step of the saves of all parts that are still saving: a write for each, then one sync for all whose
/// write did not fail.
pub fn make_step<D: Disk>(step: SaveStep, parts: &mut [Saving], disk: &mut D)
    requires few { length parts.old ≤ 16 }
    requires apart { AreApart parts.old }
    requires writable { AreWritable D.tells (D.device disk.old).count parts.old }
    ensures parts { AreStepped D.tells step parts.old parts.new (D.device disk.old) (D.device disk.new) }
    ensures frame { KeepsOthers D.tells parts.old (D.device disk.old) (D.device disk.new) }
    ensures calls { FailedBefore (call_of step) parts.old
        → (D.device disk.new).writes ≡ (D.device disk.old).writes + step_calls (call_of step) (failed_of parts.new) }
{
    write_parts(step, parts, disk);
    sync_parts(step, parts, disk);
}
