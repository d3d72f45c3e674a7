//! The sync of a step, one for all parts that are still saving.
ghost use Rattle.std.specs.Prelude.{◌≡◌, ℕ, ◌<◌, ◌≤◌, ◌+◌, ◌==◌, if◌then◌else◌, length};
ghost use Rattle.std.specs.List.{list_any};
ghost use Rattle.batch_saves.specs.Batch.{AreApart, part_at};
ghost use Rattle.batch_saves.specs.Steps.{AreSaving, AreSynced, KeepsOthers, is_saving};

use crate::writes::call_of;
use arrayvec::ArrayVec;
use lease_disk::{Disk, SaveStep, Saving};
use types::MAX_BATCH;

/// The regions of the parts that are still saving.
fn saving_regions(parts: &[Saving]) -> ArrayVec<u16, MAX_BATCH>
    requires { length parts.now ≤ 16 }
    ensures { AreSaving parts.now result.items }
{
    let mut regions = ArrayVec::new();
    'parts: for part in parts {
        if part.failed == 0 {
            regions.push(part.region);
        }
    }
    regions
}

/// This call failed for every part that is still saving.
fn fail_saving(call: u8, parts: &mut [Saving])
    ensures { (i : ℕ) → i < length parts.old
        → part_at parts.new i ≡ record (part_at parts.old i) {
          failed = (if (part_at parts.old i).failed == 0 then call else (part_at parts.old i).failed);
        } }
{
    'parts: for saving in parts.iter_mut() {
        if saving.failed == 0 {
            saving.failed = call;
        }
    }
}

/// The sync of a step. Where it fails, it fails for every part that is still saving. Without one there is none.
pub fn sync_parts<D: Disk>(step: SaveStep, parts: &mut [Saving], disk: &mut D)
    requires few { length parts.old ≤ 16 }
    requires apart { AreApart parts.old }
    requires exist { (i : ℕ) → i < length parts.old → (part_at parts.old i).region < (D.device disk.old).count }
    ensures parts { AreSynced D.tells step parts.old parts.new (D.device disk.old) (D.device disk.new) }
    ensures frame { KeepsOthers D.tells parts.old (D.device disk.old) (D.device disk.new) }
    ensures syncs { (D.device disk.new).writes ≡ (D.device disk.old).writes + (if list_any is_saving parts.old then 1 else 0) }
{
    let regions = saving_regions(parts);
    if regions.is_empty() {
        return;
    }
    if disk.sync_set(regions.as_slice()).is_ok() {
        return;
    }
    fail_saving(call_of(step) + 1, parts);
}
