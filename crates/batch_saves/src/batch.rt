//! Saving the parts of a batch together.
ghost use Rattle.std.specs.Prelude.{◌≡◌, ℕ, ◌<◌, ◌≤◌, ◌+◌, false, length};
ghost use Rattle.lease_disk.specs.Device.{TouchesAll, is_in};
ghost use Rattle.batch_saves.specs.Batch.{AreApart, AreReady, IsSavedPart};
ghost use Rattle.batch_saves.specs.Batch.{batch_calls, failed_of, failing_calls_of, part_at, regions_of, shared_fault};
ghost use Rattle.batch_saves.specs.Steps.{IsTurned};

use crate::steps::make_step;
use lease_disk::{Disk, SaveStep, Saving};

/// The marks of a part that was saved. Those of one that failed stay.
fn turn_part(part: &mut Saving)
    requires { part.old.slot < 32 }
    ensures { IsTurned part.old part.new }
{
    if part.failed == 0 {
        part.marks.turn(part.slot);
    }
}

fn turn_saved(parts: &mut [Saving])
    requires { (i : ℕ) → i < length parts.old → (part_at parts.old i).slot < 32 }
    ensures { (i : ℕ) → i < length parts.old → IsTurned (part_at parts.old i) (part_at parts.new i) }
{
    'parts: for part in parts.iter_mut() {
        turn_part(part);
    }
}

/// Saves one slot of each of several regions by three shared syncs. Each part is saved as `save` does it, but
/// that the syncs are shared: a part whose write fails leaves the batch, and its region is not touched again;
/// a sync that fails is a fault of every part that is still saving, and ends the batch.
pub fn save_many<D: Disk>(parts: &mut [Saving], disk: &mut D)
    requires few { length parts.old ≤ 16 }
    requires apart { AreApart parts.old }
    requires ready { AreReady D.tells (D.device disk.old) parts.old }
    ensures parts { (i : ℕ) → i < length parts.old
        → IsSavedPart D.tells (shared_fault (failing_calls_of (D.device disk.old) parts.old))
        (part_at parts.old i) (part_at parts.new i) (D.device disk.old) (D.device disk.new) }
    ensures frame { TouchesAll D.tells (regions_of parts.old) (D.device disk.old) (D.device disk.new) }
    ensures others { (q : ℕ) → is_in (regions_of parts.old) q ≡ false → (D.device disk.new).failures q ≡ (D.device disk.old).failures q }
    ensures calls { (D.device disk.new).writes ≡ (D.device disk.old).writes + batch_calls (failed_of parts.new) }
{
    make_step(SaveStep::Close, parts, disk);
    make_step(SaveStep::Fill, parts, disk);
    make_step(SaveStep::Open, parts, disk);
    turn_saved(parts);
}
