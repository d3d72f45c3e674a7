//! The lines that are written while relay and server serve.
use crate::stream::Stream;
use crate::text::id_of;
use access::Counts;
use config::CircuitPart;
use lease_log::{Change, Line, end_of, start_of};
use reports::{CircuitLine, Full};
use service_clock::ServiceClock;
use std::alloc::AllocError;
use std::io::{Eprint, Print};
use types::{Moment, SLOTS, Slots};

/// Writes lines to standard error and, of leases, to standard output. What it writes with can print and nothing else. A service
/// drops a line that the system does not take at once, and says later how many: nobody who does not read makes it wait.
#[derive(Drop)]
pub struct Lines<'a, R> {
    rt: &'a R,
    /// Standard error and standard output of a service; others wait until a line is taken.
    streams: Option<(Stream, Stream)>,
    dropped: u64,
}

/// The streams of a service: standard error and standard output.
pub fn service_streams(rt: &HostRuntime) -> Result<(Stream, Stream), AllocError> {
    Ok((Stream::new(rt, 2)?, Stream::new(rt, 1)?))
}

impl<'a, R: Print + Eprint> Lines<'a, R> {
    pub fn new(rt: &'a R, streams: Option<(Stream, Stream)>) -> Lines<'a, R> {
        Lines {
            rt,
            streams,
            dropped: 0,
        }
    }

    /// Whether a line goes to standard error; else it is counted as dropped. How many were dropped before is said first.
    fn may_complain(&mut self) -> bool {
        let Some((error, _)) = &mut self.streams else {
            return true;
        };
        let is_taken = error.takes_a_line();
        if !is_taken || self.dropped == 0 {
            return self.count(is_taken);
        }
        let dropped = self.dropped;
        self.dropped = 0;
        let _ = eprintln!(self.rt;
            "{dropped} lines were dropped: nobody read standard output or error"
        );
        self.may_complain_again()
    }

    /// Whether a line more goes to standard error after the one of what was dropped.
    fn may_complain_again(&mut self) -> bool {
        let Some((error, _)) = &mut self.streams else {
            return true;
        };
        let is_taken = error.takes_a_line();
        self.count(is_taken)
    }

    /// Counts a line as dropped that is not taken.
    fn count(&mut self, is_taken: bool) -> bool {
        if !is_taken {
            self.dropped = self.dropped.saturating_add(1);
        }
        is_taken
    }

    /// Whether a line goes to standard output; else it is counted as dropped.
    fn may_print(&mut self) -> bool {
        let Some((_, output)) = &mut self.streams else {
            return true;
        };
        let is_taken = output.takes_a_line();
        self.count(is_taken)
    }

    /// Writes that a circuit has closed, and when it opens again.
    pub fn write_closed(&mut self, part: &CircuitPart) {
        let is_service = self.streams.is_some();
        if !self.may_complain() {
            return;
        }
        let id = id_of(part);
        let then = if is_service {
            "it is tried again each minute, with those"
        } else {
            "a restart opens it with those"
        };
        let _ = eprintln!(self.rt;
            "{id} closed: a save of its leases failed; {then} from before or after that save"
        );
    }

    /// Writes that a circuit is open again.
    pub fn write_opened(&mut self, part: &CircuitPart) {
        if self.may_complain() {
            let id = id_of(part);
            let _ = eprintln!(self.rt; "{id} is open again, with the leases that its region holds");
        }
    }

    /// Writes that a circuit that was tried again stays closed.
    pub fn write_stays_closed(&mut self, part: &CircuitPart) {
        if self.may_complain() {
            let id = id_of(part);
            let _ = eprintln!(self.rt;
                "{id} stays closed: its region is damaged or can't be read or written"
            );
        }
    }

    /// Writes, in a report, that a circuit is closed.
    pub fn write_is_closed(&mut self, part: &CircuitPart) {
        if self.may_complain() {
            let id = id_of(part);
            let _ = eprintln!(self.rt; "{id} is closed");
        }
    }

    /// Writes of which pools each address is leased or declined.
    pub fn write_full(&mut self, part: &CircuitPart, full: Full) {
        let (id, [count4, count6]) = (id_of(part), part.counts());
        if full.four && self.may_complain() {
            let _ = eprintln!(self.rt;
                "{id}: each of its {count4} DHCPv4 addresses is leased or declined"
            );
        }
        if full.six && self.may_complain() {
            let _ = eprintln!(self.rt;
                "{id}: each of its {count6} DHCPv6 addresses is leased or declined"
            );
        }
    }

    /// Writes a lease that began or ended, if one did.
    fn write_change(&mut self, part: &CircuitPart, change: Option<Change>) {
        let Some(change) = change else {
            return;
        };
        if self.may_print() {
            let line = Line {
                circuit: id_of(part),
                change: &change,
            };
            let _ = println!(self.rt; "{line}");
        }
    }

    /// Writes each lease that began or ended since the slots of the last look, if there are any.
    pub fn write_changes(
        &mut self,
        part: &CircuitPart,
        old: Option<&Slots>,
        new: &Slots,
        now: Moment,
    ) {
        let Some(old) = old else {
            return;
        };
        'slots: for slot in 0..SLOTS {
            self.write_change(part, end_of(part, slot, old, new, now));
            self.write_change(part, start_of(part, slot, old, new, now));
        }
    }

    /// Writes what became of all datagrams.
    pub fn write_counts(&mut self, counts: Counts) {
        if self.may_complain() {
            let _ = eprintln!(self.rt; "{counts}");
        }
    }

    /// Writes how many of a circuit's datagrams were dropped and for which reasons, and how many addresses were declined, in one
    /// line; nothing where there were none.
    pub fn write_report_of(&mut self, part: &CircuitPart, counts: &Counts, declined: u64) {
        let line = CircuitLine {
            circuit: id_of(part),
            counts,
            declined,
        };
        if line.has_text() && self.may_complain() {
            let _ = eprint!(self.rt; "{line}");
        }
    }

    /// Writes by how much the system's clock is apart from the service's.
    pub fn write_apart(&mut self, clock: &ServiceClock) {
        if self.may_complain() {
            let (ahead, behind) = (clock.ahead(), clock.behind());
            let (seconds, side) = if behind == 0 {
                (ahead, "ahead of")
            } else {
                (behind, "behind")
            };
            let _ = eprintln!(self.rt;
                "the system's clock is {seconds} seconds {side} the service's, which goes on by its own"
            );
        }
    }

    /// Writes that the clock stands still.
    pub fn write_past_end(&mut self) {
        if self.may_complain() {
            let _ = eprintln!(self.rt;
                "the clock is past its last moment, 1099511627775 seconds after 1970, at which it stands still"
            );
        }
    }

    /// Writes that the file with this path is no longer the one that is served.
    pub fn write_lost(&mut self, path: &str) {
        if self.may_complain() {
            let _ = eprintln!(self.rt;
                "{path}: the file was cut, replaced or removed while it was served; nothing more is acknowledged"
            );
        }
    }
}
