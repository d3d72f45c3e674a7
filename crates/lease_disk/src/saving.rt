//! Saving a slot of a circuit so that a crash leaves the old slots or the new ones.
ghost use Rattle.std.specs.Prelude.{◌≡◌, true, ◌+◌, ◌==◌, ◌<◌, ◌≤◌, is_ok, OnOk, OnErr};
ghost use Rattle.lease_disk.specs.Device.{MakesCalls, Touches};
ghost use Rattle.lease_disk.specs.Layout.{is_format2};
ghost use Rattle.lease_disk.specs.Region.{IsClean, effective, faults_after};
ghost use Rattle.lease_disk.specs.Save.{CanSave, Fits, IsMark, IsSaveOf, mark_at};

use crate::content::Content;
use crate::device::{Disk, Fault};
use crate::format2::{SaveStep, save_step, write_half};
use crate::half::sequence_after;
use crate::marks::Marks;
use types::Moment;

/// A slot of a region that is to be saved, and what came of it.
#[derive(Clone, Copy, PartialEq, Eq)]
pub struct Saving {
    pub region: u16,
    /// What the slot holds, and from which clock on.
    pub clock: Moment,
    pub slot: usize,
    pub content: Content,
    /// The marks of the region's slots.
    pub marks: Marks,
    /// Which of the six calls of this save failed, where it is one of several that are saved together; 0 while none has.
    pub failed: u8,
}

impl Saving {
    /// Saves the slot alone, by six calls of the device, and makes none after one that fails. After Ok the mark of the slot is
    /// turned. After an error the region is not written to again until a crash has settled what is in doubt. `failed`
    /// stays as it is: that it failed is said by the error.
    pub fn save<D: Disk>(&mut self, disk: &mut D) -> Result<(), Fault>
        requires { CanSave D.tells (D.device disk.old) self.old }
        ensures part { self.new ≡ record self.old { marks = self.new.marks } }
        ensures saved { D.tells ≡ true → IsSaveOf (effective 6 ((D.device disk.old).failing_call self.old.region))
            self.old.clock self.old.slot self.old.content self.old.marks self.new.marks
            ((D.device disk.old).region self.old.region) ((D.device disk.new).region self.old.region) }
        ensures kept { OnErr result (self.new ≡ self.old) }
        ensures frame { Touches D.tells self.old.region (D.device disk.old) (D.device disk.new) }
        ensures calls { MakesCalls D.tells 6 self.old.region result (D.device disk.old) (D.device disk.new) }
    {
        let mark = self.marks.slots[self.slot];
        let half = write_half(sequence_after(mark.sequence), self.clock, &self.content);
        save_step(SaveStep::Close, &half, self, disk)?;
        save_step(SaveStep::Fill, &half, self, disk)?;
        save_step(SaveStep::Open, &half, self, disk)?;
        self.marks.turn(self.slot);
        Ok(())
    }
}

/// Saves what a slot of a circuit holds from this clock on, in a region of format 2, by six calls of the device, and makes
/// none after one that fails. After an error the region is not written to again until a crash has settled what is in doubt.
pub fn save<D: Disk>(
    region: u16,
    disk: &mut D,
    marks: &mut Marks,
    clock: Moment,
    slot: usize,
    content: &Content,
) -> Result<(), Fault>
    requires exists { region < (D.device disk.old).count }
    requires fits { Fits slot content.now }
    requires format { D.tells ≡ true → is_format2 ((D.device disk.old).region region).byte ≡ true }
    requires clean { D.tells ≡ true → IsClean ((D.device disk.old).region region) }
    requires mark { D.tells ≡ true → IsMark ((D.device disk.old).region region).byte slot (mark_at marks.old slot) }
    ensures saved { D.tells ≡ true
        → IsSaveOf (effective 6 ((D.device disk.old).failing_call region)) clock slot content.now marks.old marks.new
        ((D.device disk.old).region region) ((D.device disk.new).region region) }
    ensures answer { D.tells ≡ true → is_ok result ≡ (effective 6 ((D.device disk.old).failing_call region) == 0) }
    ensures kept { OnErr result (marks.new ≡ marks.old) }
    ensures frame { Touches D.tells region (D.device disk.old) (D.device disk.new) }
    ensures writes { OnOk result ((D.device disk.new).writes ≡ (D.device disk.old).writes + 6) }
    ensures most { (D.device disk.new).writes ≤ (D.device disk.old).writes + 6 }
    ensures last { D.tells ≡ true
        → OnErr result ((D.device disk.new).writes ≡ (D.device disk.old).writes + (D.device disk.old).failing_call region) }
    ensures failures { (D.device disk.new).failures ≡ faults_after region result (D.device disk.old).failures }
{
    let mut saving = Saving {
        region,
        clock,
        slot,
        content: *content,
        marks: *marks,
        failed: 0,
    };
    saving.save(disk)?;
    *marks = saving.marks;
    Ok(())
}
