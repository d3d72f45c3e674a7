//! Lists the leases of all circuits in the file of an `accessd`, which may run meanwhile.
#![tactic(auto)]

ghost use Rattle.std.specs.Prelude.{◌≡◌, ◌⊎◌, IfErr, IfOk};
ghost use Rattle.leases.specs.Listing.{HasListed, Keeps, with_found};
ghost use Rattle.leases.specs.Status.{IsExitStatus, file_status, noted_status};

mod words;

use crate::words::LeaseWords;
use command_line::{
    FAILED, StandardStreams, UNOPENED, complain, complain_of, given_words, read_configuration,
    reading_cause,
};
use config::{CircuitPart, Config};
use dispatch::region_count;
use lease_disk::REGION;
use lease_list::{Form, What, circuit_lines, moment_of};
use region_reader::{Closed, ReadFault, RegionFile, circuit_slots};
use std::alloc::AllocError;
use std::process::ExitCode;
use std::rt::Clock;
use types::{Circuit, Slots};

/// A circuit is closed.
const CLOSED: u8 = 3;

/// Reports that the file is not read, and returns the status.
fn refuse_file(rt: &HostRuntime, path: &str, fault: ReadFault) -> u8
    ensures { result ≡ file_status fault }
{
    match fault {
        ReadFault::File => complain_of(rt, path, fault, reading_cause(rt, path)),
        ReadFault::Memory => {
            let _ = eprint!(rt; "{path}: ");
            complain(rt, fault, UNOPENED)
        }
    }
}

/// The file with the leases, which has the region of each circuit.
fn open_file(rt: &HostRuntime, config: &Config, path: &str) -> Result<RegionFile, u8>
    ensures { IfErr result (λ status. (status ≡ 4) ⊎ (status ≡ 5)) }
{
    let file = match RegionFile::open(rt, path) {
        Ok(file) => file,
        Err(fault) => return Err(refuse_file(rt, path, fault)),
    };
    let needed = region_count(config);
    if file.regions() < u64::from(needed) {
        let _ = eprintln!(rt;
            "{path}: the file has fewer regions than the circuits need, {needed}"
        );
        return Err(UNOPENED);
    }
    Ok(file)
}

/// Whether a circuit was closed so far, and whether one was busy.
#[derive(Clone, Copy)]
struct Noted {
    is_closed: bool,
    is_busy: bool,
}

impl Noted {
    /// With what was found of one circuit more.
    fn with(self, found: &Result<Slots, Closed>) -> Noted
        ensures { result ≡ with_found self found.now }
    {
        match found {
            Ok(_) => self,
            Err(Closed::Damaged | Closed::Unreadable) => Noted {
                is_closed: true,
                is_busy: self.is_busy,
            },
            Err(Closed::Busy) => Noted {
                is_closed: self.is_closed,
                is_busy: true,
            },
        }
    }

    /// The status after every circuit's lines were written.
    fn status(self) -> u8
        ensures { result ≡ noted_status self }
    {
        match (self.is_busy, self.is_closed) {
            (true, _) => UNOPENED,
            (false, true) => CLOSED,
            (false, false) => 0,
        }
    }
}

/// What lists a file's regions one after the other.
#[derive(Drop)]
struct Lister<'a> {
    rt: &'a HostRuntime,
    file: RegionFile,
    bytes: [u8; REGION],
    at: u64,
    what: What,
    form: Form,
    noted: Noted,
}

impl Lister<'_> {
    /// The lines of a circuit.
    fn lines(&mut self, part: &CircuitPart) -> Result<Vec<String>, AllocError>
        ensures listed { IfOk result (λ lines.
            HasListed part.now self.old.at self.old.what self.old.form self.new.bytes self.old.file.readings.items
            self.new.file.readings.items self.old.noted self.new.noted lines.items) }
        ensures at { self.new.at ≡ self.old.at }
        ensures what { self.new.what ≡ self.old.what }
        ensures form { self.new.form ≡ self.old.form }
        ensures noted { Keeps self.old.noted self.new.noted }
    {
        let found = circuit_slots(part, &mut self.file, &mut self.bytes);
        self.noted = self.noted.with(&found);
        circuit_lines(self.rt.alloc(), part, &found, self.at, self.what, self.form)
    }

    /// Writes the lines of a circuit.
    fn list(&mut self, part: &CircuitPart) -> Result<(), u8>
        ensures at { self.new.at ≡ self.old.at }
        ensures what { self.new.what ≡ self.old.what }
        ensures form { self.new.form ≡ self.old.form }
        ensures noted { Keeps self.old.noted self.new.noted }
        ensures status { IfErr result (λ status. (status ≡ 4) ⊎ (status ≡ 6)) }
    {
        let Ok(lines) = self.lines(part) else {
            return Err(complain(self.rt, "out of memory", UNOPENED));
        };
        for line in lines.iter() {
            if println!(self.rt; "{line}").is_err() {
                return Err(FAILED);
            }
        }
        Ok(())
    }

    /// Writes the lines of all circuits, and returns the status.
    fn list_all(&mut self, config: &Config) -> u8
        ensures at { self.new.at ≡ self.old.at }
        ensures what { self.new.what ≡ self.old.what }
        ensures form { self.new.form ≡ self.old.form }
        ensures noted { Keeps self.old.noted self.new.noted }
        ensures status { (result ≡ noted_status self.new.noted) ⊎ (result ≡ 4) ⊎ (result ≡ 6) }
    {
        'circuits: for index in 0..config.circuit_count() {
            let circuit = Circuit::at(index);
            if let Err(status) = self.list(&CircuitPart::of(config, circuit)) {
                return status;
            }
        }
        self.noted.status()
    }
}

/// Lists what the words ask for, and returns the status.
fn run(rt: &HostRuntime, values: LeaseWords<'_>) -> u8
    ensures { IsExitStatus result }
{
    let config = match read_configuration(rt, values.config) {
        Ok(config) => config,
        Err(status) => return status,
    };
    let file = match open_file(rt, &config, values.disk) {
        Ok(file) => file,
        Err(status) => return status,
    };
    let Some(at) = moment_of(values.at, rt.since_1970().ok()) else {
        return complain(rt, "the clock can't be read; --at gives a moment", UNOPENED);
    };
    let mut lister = Lister {
        rt,
        file,
        bytes: [0; REGION],
        at,
        what: values.what,
        form: values.form,
        noted: Noted {
            is_closed: false,
            is_busy: false,
        },
    };
    lister.list_all(&config)
}

fn status(rt: &HostRuntime) -> u8
    ensures { IsExitStatus result }
{
    let _streams = match StandardStreams::open(rt) {
        Ok(streams) => streams,
        Err(status) => return status,
    };
    let given = match given_words(rt) {
        Ok(given) => given,
        Err(status) => return status,
    };
    match words::words(rt.alloc(), &given) {
        Ok(values) => run(rt, values),
        Err(refusal) => refusal.show(rt),
    }
}

fn main(rt: HostRuntime) -> ExitCode {
    ExitCode::from(status(&rt))
}
