//! The writes of a step, one for each part that is still saving.
ghost use Rattle.std.specs.Prelude.{◌≡◌, ◌<◌, ◌+◌, ◌==◌, if◌then◌else◌, count_by};
ghost use Rattle.lease_disk.specs.SaveSteps.{IsWritable};
ghost use Rattle.batch_saves.specs.Seen.{KeepsBeside, seen};
ghost use Rattle.batch_saves.specs.Batch.{AreApart};
ghost use Rattle.batch_saves.specs.Steps.{AreWritable, AreWritten, IsWrittenPart, KeepsOthers, call_of, is_saving};

use lease_disk::{Disk, SaveStep, Saving, write_step};

/// Which of the six calls of a save is the write of this step. Its sync is the next one.
pub fn call_of(step: SaveStep) -> u8
    ensures { result ≡ call_of step }
{
    match step {
        SaveStep::Close => 1,
        SaveStep::Fill => 3,
        SaveStep::Open => 5,
    }
}

/// The write of a step, for a part that is still saving. One that failed is left alone.
fn write_part<D: Disk>(step: SaveStep, part: &mut Saving, disk: &mut D)
    requires { IsWritable D.tells (D.device disk.old).count part.old }
    ensures part { IsWrittenPart D.tells step part.old part.new
        (seen D.tells (D.device disk.old) part.old.region) (seen D.tells (D.device disk.new) part.old.region) }
    ensures frame { KeepsBeside D.tells part.old.region (D.device disk.old) (D.device disk.new) }
    ensures writes { (D.device disk.new).writes
        ≡ (if part.old.failed == 0 then (D.device disk.old).writes + 1 else (D.device disk.old).writes) }
{
    if part.failed != 0 {
        return;
    }
    if write_step(step, part, disk).is_err() {
        part.failed = call_of(step);
    }
}

/// The writes of a step, in the order of the parts.
pub fn write_parts<D: Disk>(step: SaveStep, parts: &mut [Saving], disk: &mut D)
    requires apart { AreApart parts.old }
    requires writable { AreWritable D.tells (D.device disk.old).count parts.old }
    ensures parts { AreWritten D.tells step parts.old parts.new (D.device disk.old) (D.device disk.new) }
    ensures frame { KeepsOthers D.tells parts.old (D.device disk.old) (D.device disk.new) }
    ensures writes { (D.device disk.new).writes ≡ (D.device disk.old).writes + count_by is_saving parts.old }
{
    'parts: for part in parts.iter_mut() {
        write_part(step, part, disk);
    }
}
