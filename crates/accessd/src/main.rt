//! Runs relay and server over UDP sockets on loopback, with the leases kept in a file.
#![tactic(auto)]

ghost use Rattle.std.specs.Prelude.{◌≡◌, ◌≤◌, ◌⊎◌, ◌+◌, ◌*◌, length, IfErr, IfOk, OnErr, OnOk};
ghost use Rattle.accessd.specs.Served.{HasServedAs, HasServedBy, HasServedValues, HasServedWords, IsDevice, IsOpenedBy};
ghost use Rattle.accessd.specs.Serving.{batch_of, most_of};
ghost use Rattle.accessd.specs.declared.serving.Serving.TheVariants as serving;
ghost use Rattle.accessd.specs.Status.{IsEndStatus, IsExitStatus, IsRefusalStatus, status_of, device_status};

mod addresses;
mod lines;
mod open_files;
mod reporter;
mod serving;
mod stream;
mod text;
mod words;

use crate::addresses::report_addresses;
use crate::lines::service_streams;
use crate::open_files::too_many_files;
use crate::reporter::{Reporter, Reporting, Watcher};
use crate::serving::Serving;
use crate::stream::Stream;
use crate::text::{circuit_at, id_of, text_of};
use crate::words::AccessWords;
use access::{
    Access, AccessFault, DeviceFault, History, ServeOptions, Watch, clients_address, device_of,
    try_sockets,
};
use command_line::{
    REFUSED, StandardStreams, UNOPENED, UNREADABLE, complain, complain_of, given_words,
    read_configuration, socket_cause, writing_cause,
};
use config::Config;
use dispatch::region_count;
use lease_disk::{FileDisk, REGION};
use opening::open_device;
use std::alloc::AllocError;
use std::fs::{self, Metadata};
use std::net::{IpAddr, Ipv4Addr, SocketAddr, UdpSocket};
use std::os::unix::fs::MetadataExt;
use std::process::ExitCode;
use std::rt::Clock;
use types::{Addr4, Circuit, Source};

/// How many descriptors are open at most beside the sockets.
const OTHER_FILES: usize = 16;

/// How the words say that relay and server serve.
fn options_of(values: &AccessWords<'_>) -> ServeOptions
    ensures { result ≡ record {
      port = values.now.port;
      batch = batch_of values.now.serving;
      most_circuits = most_of values.now.serving;
    } }
{
    ServeOptions {
        port: values.port,
        batch: values.serving.batch(),
        most_circuits: values.serving.most_circuits(),
    }
}

/// The status of a device that does not serve.
fn device_status(fault: DeviceFault) -> u8
    ensures { result ≡ device_status fault }
{
    match fault {
        DeviceFault::File => UNREADABLE,
        DeviceFault::Memory | DeviceFault::Format => UNOPENED,
    }
}

/// Reports that the file can't be opened, which was to be made where `makes` says so, with the system's cause if it says that
/// once more.
fn report_file(rt: &HostRuntime, path: &str, makes: bool) {
    let cause = writing_cause(rt, path, makes);
    if cause.is_some() {
        let _ = complain_of(rt, path, "the file can't be opened", cause);
    } else {
        let _ = complain_of(rt, path, DeviceFault::File, None);
    }
}

/// Reports that the device does not serve, whose file was to be made where `makes` says so.
fn report_device(rt: &HostRuntime, path: &str, fault: DeviceFault, makes: bool) {
    let opening = match fault {
        DeviceFault::File => return report_file(rt, path, makes),
        DeviceFault::Memory => "open memory",
        DeviceFault::Format => "open disk",
    };
    let _ = eprintln!(rt; "{opening}\n{path}: {fault}");
}

/// Why the file found at this path is none of leases, if anything says so: it is the configuration by whatever path, or has
/// other than whole regions.
fn other_file(rt: &HostRuntime, found: &Metadata, config: &str) -> Option<&'static str> {
    if let Ok(other) = fs::metadata(rt, config)
        && (found.dev(), found.ino()) == (other.dev(), other.ino())
    {
        return Some("it is the configuration");
    }
    if found.len() % REGION as u64 != 0 {
        return Some("its length is not a multiple of 32768 bytes");
    }
    None
}

/// Whether the file with this path may be formatted, if there is one: nobody else has it, and it may be one of leases. An error
/// is the status.
fn may_format_file(rt: &HostRuntime, path: &str, config: &str) -> Result<(), u8>
    ensures status { IfErr result (λ status. (status ≡ 4) ⊎ (status ≡ 5)) }
{
    let Ok(found) = fs::metadata(rt, path) else {
        return Ok(());
    };
    if let Err(fault) = open_device(rt, path) {
        report_device(rt, path, fault, false);
        return Err(device_status(fault));
    }
    if let Some(why) = other_file(rt, &found, config) {
        let _ = eprintln!(rt; "{path}: it is not a file of leases: {why}");
        return Err(UNREADABLE);
    }
    Ok(())
}

/// Whether nothing is in the way of formatting and of what is served afterwards, so that a refusal makes no file and leaves
/// the one that there is. An error is the status.
fn may_format(rt: &HostRuntime, config: &Config, values: &AccessWords<'_>) -> Result<(), u8>
    ensures few { OnOk result (length config.now.circuits ≤ most_of values.now.serving) }
    ensures ports { OnOk result (values.now.port + 4 * length config.now.circuits ≤ 65536) }
    ensures status { IfErr result IsRefusalStatus }
{
    may_format_file(rt, values.disk, values.config)?;
    match try_sockets(rt, rt.alloc(), config, options_of(values)) {
        Ok(()) => Ok(()),
        Err(fault) => Err(refuse(rt, config, values, fault)),
    }
}

/// The device in the file with the leases, formatted where that is asked for.
fn device(rt: &HostRuntime, config: &Config, values: &AccessWords<'_>) -> Result<FileDisk, u8>
    ensures device { length config.now.circuits ≤ most_of values.now.serving
        → IfOk result (IsDevice values.now.format config.now) }
    ensures status { IfErr result (λ status. (status ≡ 4) ⊎ (status ≡ 5)) }
{
    let most = usize::from(values.serving.most_circuits());
    match device_of(rt, values.disk, values.format, config, most) {
        Ok(disk) => Ok(disk),
        Err(fault) => {
            report_device(rt, values.disk, fault, values.format);
            Err(device_status(fault))
        }
    }
}

/// Why the system binds no socket to this address, if it says that once more.
fn bind_cause(rt: &HostRuntime, at: Source) -> Option<&'static str> {
    let Addr4([a, b, c, d]) = at.addr;
    let address = SocketAddr::new(IpAddr::V4(Ipv4Addr::new(a, b, c, d)), at.port);
    match UdpSocket::bind(rt, address) {
        Ok(_) => None,
        Err(error) => socket_cause(error.kind()),
    }
}

/// How many sockets there are: two of each circuit, two of the server and one of each relay.
fn socket_count(config: &Config) -> usize
    ensures count { result ≡ 2 * length config.now.circuits + 2 + length config.now.relays }
    ensures most { result ≤ 2058 }
{
    2 * config.circuit_count() + 2 + config.relay_count()
}

/// Reports that no socket is bound to an address, with the system's cause if it says that once more, and returns the status.
fn refuse_socket(rt: &HostRuntime, config: &Config, at: Source, fault: AccessFault) -> u8
    ensures { result ≡ 5 }
{
    let (Addr4([a, b, c, d]), port) = (at.addr, at.port);
    let cause = bind_cause(rt, at);
    let sockets = socket_count(config);
    let _ = eprint!(rt; "{a}.{b}.{c}.{d}:");
    // the file with the leases and what the sockets are watched by are open then too
    if cause.is_some() || !too_many_files(rt, sockets + 2) {
        return complain_of(rt, port, fault, cause);
    }
    let needed = sockets + OTHER_FILES;
    let _ = eprintln!(rt;
        "{port}: {fault}: too many files are open; set ulimit -n, or LimitNOFILE= of its unit, to {needed} or more"
    );
    UNREADABLE
}

/// Reports why relay and server were not opened, and returns the status.
fn refuse(rt: &HostRuntime, config: &Config, values: &AccessWords<'_>, fault: AccessFault) -> u8
    ensures { result ≡ status_of fault }
{
    match fault {
        AccessFault::Memory => complain(rt, "open memory", UNOPENED),
        AccessFault::Disk => {
            let (disk, needed) = (values.disk, region_count(config));
            let _ = eprintln!(rt; "open disk");
            let _ = eprintln!(rt;
                "{disk}: {fault}, {needed}; scripts/operate/add-regions lengthens it, see \"Add a circuit\" in docs/OPERATING.md"
            );
            UNOPENED
        }
        AccessFault::Socket(at) => refuse_socket(rt, config, at, fault),
        AccessFault::TooManyCircuits => {
            let (count, most) = (config.circuit_count(), values.serving.most_circuits());
            let _ = eprintln!(rt; "circuits");
            let _ = eprintln!(rt; "{count} circuits: more than {most} circuits");
            REFUSED
        }
        AccessFault::Ports => {
            let count = config.circuit_count();
            let (last, most) = (usize::from(values.port) + 4 * count - 1, 65536 - 4 * count);
            let _ = eprintln!(rt; "ports");
            let _ = eprintln!(rt;
                "{count} circuits: {fault}, {last}; --port may be at most {most}"
            );
            REFUSED
        }
    }
}

/// Whether the service can have its ports: each circuit has four, and frames towards clients reach no address of the server or of
/// a relay. An error is the status.
fn may_serve(rt: &HostRuntime, config: &Config, values: &AccessWords<'_>) -> Result<(), u8>
    ensures ports { OnOk result
        (values.now.serving ≡ serving.Service → values.now.port + 4 * length config.now.circuits ≤ 65536) }
    ensures status { IfErr result (λ status. status ≡ 2) }
{
    if let Serving::Turns { .. } = values.serving {
        return Ok(());
    }
    if usize::from(values.port) + 4 * config.circuit_count() > 65536 {
        return Err(refuse(rt, config, values, AccessFault::Ports));
    }
    let Some(at) = clients_address(config, values.port) else {
        return Ok(());
    };
    let (Addr4([a, b, c, d]), port) = (at.addr, at.port);
    let _ = eprintln!(rt; "ports");
    let _ = eprintln!(rt;
        "{a}.{b}.{c}.{d}:{port}: frames towards the clients of a circuit go there; choose another --port"
    );
    Err(REFUSED)
}

/// Reports each circuit whose region was moved, in a line of its own.
fn report_moves(rt: &HostRuntime, config: &Config, access: &Access) {
    for index in 0..config.circuit_count() {
        let circuit = Circuit::at(index);
        if access.was_moved(circuit) {
            let id = text_of(config.at(circuit).id.as_bytes());
            let _ = eprintln!(rt; "{id}: its region was moved from format 1 to format 2");
        }
    }
}

/// Why a circuit is closed at the start.
fn closed_by(access: &Access, circuit: Circuit) -> &'static str {
    if access.had_old_format(circuit) {
        "its region is of format 1, and is damaged or could not be moved to format 2"
    } else {
        "its region is damaged or can't be read"
    }
}

/// Reports in one line what is served: the circuits, those that are closed as such, their ports and the
/// file with the leases.
fn report_start(rt: &HostRuntime, config: &Config, access: &Access, values: &AccessWords<'_>) {
    let count = config.circuit_count();
    for index in 0..count {
        let circuit = Circuit::at(index);
        let before = if index == 0 { "serving " } else { ", " };
        let id = text_of(config.at(circuit).id.as_bytes());
        let _ = eprint!(rt; "{before}{id}");
        if !access.is_open(circuit) {
            let why = closed_by(access, circuit);
            let _ = eprint!(rt; " (closed: {why})");
        }
    }
    let first = usize::from(values.port);
    let last = first + 4 * count - 1;
    let _ = eprintln!(rt;
        " on 127.0.0.1, ports {first} to {last}, leases in {}",
        values.disk
    );
}

/// Reports that a circuit's clock is ahead of the system's, which has this second, in a line of its own.
fn report_clock(rt: &HostRuntime, access: &Access, index: usize, now: u64) {
    let Some(circuit) = circuit_at(access, index) else {
        return;
    };
    let Some(slots) = access.server().slots(circuit) else {
        return;
    };
    let clock = slots.clock.seconds();
    if now < clock {
        let (id, ahead) = (id_of(access.server().part(circuit)), clock - now);
        let _ = eprintln!(rt;
            "{id}: its clock is {ahead} seconds ahead of the system's; see \"Clock\" in docs/OPERATING.md"
        );
    }
}

/// Warns of each open circuit whose clock is ahead of the system's.
fn report_clocks(rt: &HostRuntime, access: &Access) {
    let Ok(since) = rt.since_1970() else {
        return;
    };
    'circuits: for index in 0..access.server().circuit_count() {
        report_clock(rt, access, index, since.as_secs());
    }
}

/// Makes passes, and shows each to `watch`, until that ends them. Returns the status.
fn keep_serving<W: Watch>(rt: &HostRuntime, access: &mut Access, watch: &mut W) -> u8
    ensures served { HasServedAs serving.Service result access.old access.new }
    ensures watched { (W.watched watch.new).rounds + access.old.turns ≡ (W.watched watch.old).rounds + access.new.turns }
    ensures status { IsEndStatus result }
{
    access.keep_serving(rt, u64::MAX, watch);
    if watch.goes_on() { 0 } else { UNREADABLE }
}

/// Makes the turns or the passes that the words ask for, and shows each to `watch`. Returns the status at the end: a service that
/// `watch` ends has lost its file.
fn make_rounds<W: Watch>(
    rt: &HostRuntime,
    serving: Serving,
    access: &mut Access,
    watch: &mut W,
) -> u8
    ensures served { HasServedAs serving result access.old access.new }
    ensures watched { (W.watched watch.new).rounds + access.old.turns ≡ (W.watched watch.old).rounds + access.new.turns }
    ensures status { IsEndStatus result }
{
    match serving {
        Serving::Turns { turns, pause, .. } => {
            access.serve(rt, turns, pause, watch);
            0
        }
        Serving::Service => keep_serving(rt, access, watch),
    }
}

/// The streams to which a service writes; turns wait until their lines are taken.
fn streams_of(rt: &HostRuntime, serving: Serving) -> Result<Option<(Stream, Stream)>, AllocError> {
    match serving {
        Serving::Turns { .. } => Ok(None),
        Serving::Service => Ok(Some(service_streams(rt)?)),
    }
}

/// What writes what happens while relay and server serve.
fn watcher<'a>(
    rt: &'a HostRuntime,
    values: &AccessWords<'a>,
    access: &Access,
) -> Result<Watcher<'a, HostRuntime>, AllocError> {
    let streams = streams_of(rt, values.serving)?;
    let reporting = Reporting {
        path: values.disk,
        every: values.report,
        lists_leases: values.leases,
    };
    let reporter = Reporter::new(rt, rt.alloc(), access, reporting, streams)?;
    Ok(Watcher::new(reporter))
}

/// Reports what is served, and serves. Returns the status at the end; an error is the status, and nothing was served.
fn serve(
    rt: &HostRuntime,
    config: &Config,
    values: &AccessWords<'_>,
    access: &mut Access,
) -> Result<u8, u8>
    requires ports { values.now.port + 4 * length config.now.circuits ≤ 65536 }
    ensures served { IfOk result (λ status. HasServedAs values.now.serving status access.old access.new × IsEndStatus status) }
    ensures unserved { OnErr result (access.new ≡ access.old) }
    ensures status { IfErr result (λ status. status ≡ 4) }
{
    report_addresses(rt, config, values.port);
    report_moves(rt, config, access);
    report_clocks(rt, access);
    let Ok(mut watcher) = watcher(rt, values, access) else {
        return Err(complain(rt, "open memory", UNOPENED));
    };
    report_start(rt, config, access, values);
    let status = make_rounds(rt, values.serving, access, &mut watcher);
    watcher.end(access);
    Ok(status)
}

/// Opens relay and server as the words say. An error is the status.
fn open_access(rt: &HostRuntime, config: &Config, values: &AccessWords<'_>) -> Result<Access, u8>
    requires some { 1 ≤ batch_of values.now.serving }
    requires few { batch_of values.now.serving ≤ 16 }
    ensures opened { IfOk result (IsOpenedBy config.now values.now) }
    ensures status { IfErr result IsRefusalStatus }
{
    let disk = device(rt, config, values)?;
    let mut opening = History::new();
    let options = options_of(values);
    match Access::open(rt, rt.alloc(), config, disk, options, &mut opening) {
        Ok(access) => Ok(access),
        Err(fault) => Err(refuse(rt, config, values, fault)),
    }
}

/// Opens relay and server over a configuration, and serves. Returns them after the last turn or pass, and the status; an error is
/// the status of a refusal.
fn run_over(rt: &HostRuntime, config: &Config, values: &AccessWords<'_>) -> Result<(Access, u8), u8>
    requires some { 1 ≤ batch_of values.now.serving }
    requires few { batch_of values.now.serving ≤ 16 }
    ensures served { IfOk result (λ end. HasServedBy config.now values.now end.1 end.0 × IsEndStatus end.1) }
    ensures status { IfErr result IsRefusalStatus }
{
    may_serve(rt, config, values)?;
    if values.format {
        may_format(rt, config, values)?;
    }
    let mut access = open_access(rt, config, values)?;
    match serve(rt, config, values, &mut access) {
        Ok(status) => Ok((access, status)),
        Err(status) => {
            // by a call: all that it holds would otherwise be part of this function's proof
            drop(access);
            Err(status)
        }
    }
}

/// Runs as the words say, over the configuration that they name. Returns relay and server after the last turn or pass, and the
/// status; an error is the status of a refusal.
fn run(rt: &HostRuntime, values: AccessWords<'_>) -> Result<(Access, u8), u8>
    requires some { 1 ≤ batch_of values.serving }
    requires few { batch_of values.serving ≤ 16 }
    ensures served { IfOk result (λ end. HasServedValues values.entry end.1 end.0 × IsEndStatus end.1) }
    ensures status { IfErr result IsRefusalStatus }
{
    let config = read_configuration(rt, values.config)?;
    run_over(rt, &config, &values)
}

/// Runs as the program's words say. Returns relay and server after the last turn or pass, and the status; an error is the status
/// of a refusal.
fn run_words(rt: &HostRuntime) -> Result<(Access, u8), u8>
    ensures served { IfOk result (λ end. HasServedWords end.1 end.0 × IsEndStatus end.1) }
    ensures status { IfErr result IsExitStatus }
{
    let given = given_words(rt)?;
    match words::words(rt.alloc(), &given) {
        Ok(values) => run(rt, values),
        Err(fault) => Err(fault.show(rt)),
    }
}

fn status(rt: &HostRuntime) -> u8
    ensures { IsExitStatus result }
{
    let _streams = match StandardStreams::open(rt) {
        Ok(streams) => streams,
        Err(status) => return status,
    };
    match run_words(rt) {
        Ok((access, status)) => {
            drop(access);
            status
        }
        Err(status) => status,
    }
}

fn main(rt: HostRuntime) -> ExitCode {
    ExitCode::from(status(&rt))
}
