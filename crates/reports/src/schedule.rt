//! When reports are due.
ghost use Rattle.std.specs.Prelude.{◌≡◌, ◌<◌, ◌↔◌, IsTrue};
ghost use Rattle.reports.specs.Schedule.{is_due, looked_at, no_report_yet};

use types::Moment;

/// In which moments a report is due: every so many seconds, from the first look on.
#[derive(Clone, Copy)]
pub struct Schedule {
    /// How many seconds there are between two reports; 0 for none.
    every: u32,
    /// The moment from which on the next one is due, in seconds; `None` before the first look, and where there are none.
    due: Option<u64>,
}

impl Schedule {
    pub fn new(every: u32) -> Schedule
        ensures { result ≡ no_report_yet every }
    {
        Schedule { every, due: None }
    }

    /// Whether there are reports at all.
    pub fn has_reports(&self) -> bool
        ensures { IsTrue result ↔ (0 < self.now.every) }
    {
        self.every > 0
    }

    /// Whether a report is due at this look. The first look only says when the first one is.
    pub fn look(&mut self, now: Moment) -> bool
        ensures due { result ≡ is_due self.old now }
        ensures next { self.new ≡ looked_at self.old now }
    {
        if self.every == 0 || self.due.is_some_and(|due| now.seconds() < due) {
            return false;
        }
        let is_due = self.due.is_some();
        self.due = Some(now.seconds() + u64::from(self.every));
        is_due
    }
}
