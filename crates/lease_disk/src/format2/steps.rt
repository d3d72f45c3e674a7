//! The three writes of a save, each by itself, with its sync or without it.
ghost use Rattle.std.specs.Prelude.{◌≡◌, ◌<◌, ◌≤◌, ◌+◌, true, length};
ghost use Rattle.lease_disk.specs.Device.{IsWritten};
ghost use Rattle.lease_disk.specs.Keys.{HasKey};
ghost use Rattle.lease_disk.specs.Save.{mark_at};
ghost use Rattle.lease_disk.specs.SaveSteps.{IsWritable, IsWrite, bytes_of, place_of, saved_half};

use super::layout::half_at;
use super::write_half::{HalfBytes, write_half};
use crate::device::{Disk, Fault};
use crate::half::{GATE_OPEN, sequence_after};
use crate::saving::Saving;
use crate::writing::write_synced;

/// The three writes of a save. A sync of the region follows each.
#[derive(Clone, Copy, PartialEq, Eq)]
pub enum SaveStep {
    /// Closes the gate of the half that does not count. A gate that reads closed already is not written
    /// to: while its byte is in doubt, it could become an open gate before a half that must not count.
    Close,
    /// Writes what follows this gate.
    Fill,
    /// Opens the gate.
    Open,
}

/// Where a step of a save writes, and what, by the half that is saved.
fn write_of<'a>(step: SaveStep, saving: &Saving, half: &'a HalfBytes) -> (usize, &'a [u8])
    requires exists { saving.now.slot < 32 }
    requires whole { length half.now.items ≡ 256 }
    ensures place { result.0 ≡ place_of step saving.now.slot (mark_at saving.now.marks saving.now.slot) }
    ensures bytes { result.1.now ≡ bytes_of step (mark_at saving.now.marks saving.now.slot) half.now.items }
    ensures fits { result.0 + length result.1.now ≤ 32768 }
{
    let mark = saving.marks.slots[saving.slot];
    let gate = half_at(saving.slot, mark.half.other());
    match step {
        SaveStep::Close if mark.other_open => (gate, &[0]),
        SaveStep::Close => (gate, &[]),
        SaveStep::Fill => (gate + 1, &half.as_slice()[1..]),
        SaveStep::Open => (gate, &[GATE_OPEN]),
    }
}

/// Makes one of the three writes of a save, of this half, and the sync that follows it.
pub fn save_step<D: Disk>(
    step: SaveStep,
    half: &HalfBytes,
    saving: &Saving,
    disk: &mut D,
) -> Result<(), Fault>
    requires exists { saving.now.region < (D.device disk.old).count }
    requires slot { saving.now.slot < 32 }
    requires whole { length half.now.items ≡ 256 }
    ensures { let mark = mark_at saving.now.marks saving.now.slot in
        IsWritten D.tells saving.now.region (place_of step saving.now.slot mark) (bytes_of step mark half.now.items) result
        (D.device disk.old) (D.device disk.new) }
{
    let (at, bytes) = write_of(step, saving, half);
    write_synced(saving.region, disk, at, bytes)
}

/// Makes one of the three writes of a save, without the sync that has to follow it.
pub fn write_step<D: Disk>(step: SaveStep, saving: &Saving, disk: &mut D) -> Result<(), Fault>
    requires { IsWritable D.tells (D.device disk.old).count saving.now }
    ensures write { let mark = mark_at saving.now.marks saving.now.slot in
        IsWrite D.tells saving.now.region (place_of step saving.now.slot mark)
        (bytes_of step mark (saved_half mark saving.now.clock saving.now.content)) result (D.device disk.old) (D.device disk.new) }
    ensures key { HasKey saving.now.content }
    ensures clock { saving.now.clock ≤ 1099511627775 }
    ensures size { length (saved_half (mark_at saving.now.marks saving.now.slot) saving.now.clock saving.now.content) ≡ 256 }
{
    let mark = saving.marks.slots[saving.slot];
    let half = write_half(sequence_after(mark.sequence), saving.clock, &saving.content);
    let (at, bytes) = write_of(step, saving, &half);
    disk.write_at(saving.region, at, bytes)
}
