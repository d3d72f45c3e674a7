//! The sweep over the deadlines, which sees no entry but by the looks that the table counts.
ghost use Rattle.std.specs.Prelude.{◌≡◌, ◌+◌, map, count_by};
ghost use Rattle.timers.specs.Deadlines.{is_due, entry_after_sweep};

use crate::deadlines::Deadlines;
use types::Moment;

impl Deadlines {
    /// Removes every deadline that is due, which is at most `now`. It looks at each of them, and then once more.
    pub fn sweep(&mut self, now: Moment)
        ensures slots { self.new.slots ≡ map (entry_after_sweep now) self.old.slots }
        ensures examined { self.new.examined ≡ self.old.examined + count_by (is_due now) self.old.slots + 1 }
    {
        while let Some(slot) = self.due(now) {
            self.clear(slot);
        }
    }
}
