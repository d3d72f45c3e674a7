//! What is written while relay and server serve; `reports` counts and decides.
use crate::lines::Lines;
use crate::stream::Stream;
use crate::text::circuit_at;
use access::{Access, Watch};
use reports::{Faults, Looks, Once, Reopening, Schedule, Scope, Seen};
use std::alloc::{AllocError, Global};
use std::fs::File;
use std::io::{Eprint, Print};
use std::rt::Files;
use types::{Circuit, Count, Discard, Moment, Slots};

/// What is reported, and of what.
#[derive(Clone, Copy)]
pub struct Reporting<'a> {
    /// The path of the file with the leases.
    pub path: &'a str,
    /// How many seconds there are between two reports.
    pub every: u32,
    pub lists_leases: bool,
}

/// Writes to standard error that a circuit has closed or is open again, that a pool has no address left, and every so many seconds
/// the counts; and to standard output, where that is asked for, each lease that begins or ends. Of a service it looks at the clock
/// and the file with the leases too, and ends it when that is lost. It takes no memory after its making. What it is given can print
/// and ask for a file, and has no socket.
#[derive(Drop)]
pub struct Reporter<'a, R> {
    rt: &'a R,
    lines: Lines<'a, R>,
    path: &'a str,
    is_service: bool,
    schedule: Schedule,
    looks: Looks,
    faults: Faults,
    /// What was seen of each circuit.
    seen: Vec<Seen>,
    /// Whether the system's clock was apart from the service's, and whether the time was past the last moment.
    apart: Once,
    past_end: Once,
    /// In which second the file was looked at last, and whether it was lost then.
    second: u64,
    is_lost: bool,
}

/// What the circuit of this index keeps, if it is open.
fn slots_at(access: &Access, index: usize) -> Option<Slots> {
    let circuit = circuit_at(access, index)?;
    access.server().slots(circuit)
}

/// How many datagrams of the circuit of this index were received.
fn received_at(access: &Access, index: usize) -> u64 {
    match access.by_circuit().of(index) {
        Some(counts) => counts.received,
        None => 0,
    }
}

impl<'a, R: Print + Eprint + Files<File = File>> Reporter<'a, R> {
    /// One for relay and server before the first turn. A service has its streams, and reports of its clock and its file too. An
    /// error where memory is refused.
    pub fn new(
        rt: &'a R,
        alloc: Global,
        access: &Access,
        reporting: Reporting<'a>,
        streams: Option<(Stream, Stream)>,
    ) -> Result<Reporter<'a, R>, AllocError> {
        let circuits = 0..access.server().circuit_count();
        let seen = circuits
            .map(|index| Seen::new(slots_at(access, index)))
            .collect(alloc)?;
        Ok(Reporter {
            rt,
            is_service: streams.is_some(),
            lines: Lines::new(rt, streams),
            path: reporting.path,
            schedule: Schedule::new(reporting.every),
            looks: Looks::new(reporting.lists_leases),
            faults: Faults::new(),
            seen,
            apart: Once::new(false),
            past_end: Once::new(false),
            second: 0,
            is_lost: false,
        })
    }

    /// Writes which circuits have closed since the last turn, where a save failed.
    fn report_closings(&mut self, access: &Access) {
        let dropped = access.counts().dropped(Discard::DiskFault);
        if !self.faults.look(dropped) {
            return;
        }
        'circuits: for index in 0..access.server().circuit_count() {
            self.report_closing(access, index);
        }
    }

    /// Writes that a circuit has closed, where it was open before.
    fn report_closing(&mut self, access: &Access, index: usize) {
        let (Some(seen), Some(circuit)) = (self.seen.get_mut(index), circuit_at(access, index))
        else {
            return;
        };
        if seen.tell_closed(!access.is_open(circuit)) {
            self.lines.write_closed(access.server().part(circuit));
        }
    }

    /// Writes what came of another try of a circuit that was closed.
    fn report_reopening(&mut self, access: &Access, circuit: Circuit) {
        let index = circuit.index();
        let (Some(seen), Some(circuit)) = (self.seen.get_mut(index), circuit_at(access, index))
        else {
            return;
        };
        let part = access.server().part(circuit);
        match seen.tell_reopening(access.is_open(circuit)) {
            Reopening::Opened => self.lines.write_opened(part),
            Reopening::StaysClosed => self.lines.write_stays_closed(part),
            Reopening::Nothing => {}
        }
    }

    /// Writes once that the system's clock is apart from the service's, and once that the time is past the last moment.
    fn look_at_clock(&mut self, access: &Access) {
        let clock = access.clock();
        if self.apart.tell(clock.is_apart()) {
            self.lines.write_apart(clock);
        }
        if self.past_end.tell(clock.is_past_end()) {
            self.lines.write_past_end();
        }
    }

    /// Looks once a second whether the file with the leases is still in its place.
    fn look_at_file(&mut self, access: &Access, now: Moment) {
        if now.seconds() == self.second || self.is_lost {
            return;
        }
        self.second = now.seconds();
        if !access.disk().is_in_place(self.rt, self.path) {
            self.is_lost = true;
            self.lines.write_lost(self.path);
        }
    }

    /// Whether datagrams of this circuit were taken since the last look.
    fn has_traffic(&self, access: &Access, index: usize) -> bool {
        match self.seen.get(index) {
            Some(seen) => seen.has_traffic(received_at(access, index)),
            None => false,
        }
    }

    /// Looks at what a circuit keeps, and writes what has changed.
    fn look(&mut self, access: &Access, index: usize, now: Moment) {
        let (Some(seen), Some(circuit)) = (self.seen.get_mut(index), circuit_at(access, index))
        else {
            return;
        };
        let part = access.server().part(circuit);
        let slots = access.server().slots(circuit);
        if let Some(new) = &slots {
            let [count4, count6] = part.counts();
            self.lines.write_full(part, seen.look(count4, count6, new));
            if self.looks.lists_leases() {
                self.lines.write_changes(part, seen.slots(), new, now);
            }
        }
        seen.keep(slots, received_at(access, index));
    }

    /// Looks at the circuits whose turn it is.
    fn look_at_all(&mut self, access: &Access, now: Moment) {
        let scope = self.looks.look(now, access.counts().received);
        if let Scope::Nothing = scope {
            return;
        }
        'circuits: for index in 0..access.server().circuit_count() {
            if scope.includes(self.has_traffic(access, index)) {
                self.look(access, index, now);
            }
        }
    }

    /// Writes what became of all datagrams, and a line for each circuit of whose own some were dropped. Of a service also by how
    /// much the system's clock is apart, and which circuits are closed.
    fn report(&mut self, access: &Access) {
        self.lines.write_counts(*access.counts());
        if self.is_service && access.clock().is_apart() {
            self.lines.write_apart(access.clock());
        }
        'circuits: for index in 0..access.server().circuit_count() {
            self.report_circuit(access, index);
        }
    }

    /// Writes a circuit's lines of a report, if it has any.
    fn report_circuit(&mut self, access: &Access, index: usize) {
        let (seen, counts) = (self.seen.get(index), access.by_circuit().of(index));
        let (Some(seen), Some(counts), Some(circuit)) = (seen, counts, circuit_at(access, index))
        else {
            return;
        };
        let part = access.server().part(circuit);
        self.lines.write_report_of(part, counts, seen.declined());
        if self.is_service && !access.is_open(circuit) {
            self.lines.write_is_closed(part);
        }
    }

    /// Writes what is to be told after a turn or a pass.
    fn report_turn(&mut self, access: &Access, now: Moment) {
        self.report_closings(access);
        if self.is_service {
            self.look_at_clock(access);
            self.look_at_file(access, now);
        }
        self.look_at_all(access, now);
        if self.schedule.look(now) {
            self.report(access);
        }
    }

    /// Writes the counts of the whole run at its end.
    fn end(&mut self, access: &Access) {
        if self.schedule.has_reports() {
            self.report(access);
        } else {
            self.lines.write_counts(*access.counts());
        }
    }
}

/// A reporter, and what it was shown.
#[derive(Drop)]
pub struct Watcher<'a, R> {
    reporter: Reporter<'a, R>,
    /// How many turns and passes there were, and the moment of the last one.
    rounds: Count,
    moment: Moment,
}

impl<'a, R: Print + Eprint + Files<File = File>> Watcher<'a, R> {
    pub fn new(reporter: Reporter<'a, R>) -> Watcher<'a, R> {
        Watcher {
            reporter,
            rounds: Count::new(),
            moment: Moment::first(),
        }
    }

    /// Writes the counts of the whole run at its end.
    pub fn end(&mut self, access: &Access) {
        self.reporter.end(access);
    }
}

impl<'a, R: Print + Eprint + Files<File = File>> Watch for Watcher<'a, R> {
    ghost watched = { λ watcher. record { rounds = watcher.rounds.count; moment = watcher.moment } };

    ghost is_over = { λ watcher. watcher.reporter.is_lost };

    fn after_turn(&mut self, access: &Access, now: Moment) {
        self.rounds.tick();
        self.moment = now;
        self.reporter.report_turn(access, now);
    }

    fn after_reopening(&mut self, access: &Access, circuit: Circuit) {
        self.reporter.report_reopening(access, circuit);
    }

    fn goes_on(&self) -> bool {
        !self.reporter.is_lost
    }
}
