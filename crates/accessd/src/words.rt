//! The command line of `accessd`.
ghost use Rattle.std.specs.Prelude.{◌≡◌, false, map};
ghost use Rattle.std.specs.Prelude.{string_bytes, IfOk, IfErr, IfSome, IsNone};
ghost use Rattle.clap.specs.Words.{app_of, rule_of, found_of, rows_of};
ghost use Rattle.accessd.specs.Words.{batch_rule, disk_rule, format_rule, leases_rule};
ghost use Rattle.accessd.specs.Words.{pause_rule, port_rule, report_rule, service_rule, turns_rule};
ghost use Rattle.accessd.specs.Words.{bare_app, base_app, serving_app, access_app, HasValues, IsRefusedFor, IsShownWith, Spells};
ghost use Rattle.accessd.specs.declared.words.AccessWords as access;

use crate::serving::{
    MAX_BATCH, MAX_PAUSE, MAX_TURNS, Serving, TurnsArgument, asks_for_service, beside_service,
    serving_of,
};
use clap::{Arg, ArgMatches, Command};
use command_line::{FAILED, REFUSED, Refusal, config_arg, flag, is_set, limited, number, option};
use std::alloc::{AllocError, Global};

const MIN_PORT: u32 = 1024;

const MAX_PORT: u32 = 65472;

const MAX_REPORT: u32 = 86_400;

/// How the program is called, in either way.
const USAGE: &str = "accessd [OPTIONS] --disk <FILE> --turns <N> <CONFIG>
       accessd [OPTIONS] --disk <FILE> --service <CONFIG>";

/// The values of the words after the program's name.
#[derive(Clone, Copy)]
pub struct AccessWords<'a> {
    /// The path of the configuration.
    pub config: &'a str,
    /// The path of the file in which the leases are kept.
    pub disk: &'a str,
    pub serving: Serving,
    /// Whether every configured region is formatted first.
    pub format: bool,
    /// The first port of the first circuit, 1024 to 65472.
    pub port: u16,
    /// How many seconds there are between two reports of what became of datagrams, 0 to 86400; 0 is for none before the end.
    pub report: u32,
    /// Whether each lease that begins or ends is written to standard output.
    pub leases: bool,
}

/// Why words are refused.
#[derive(Drop)]
pub enum WordsFault {
    /// As those of any program are.
    Refused(Refusal),
    /// This argument stands beside `--service`.
    Beside(TurnsArgument),
}

impl WordsFault {
    /// Shows help, the version or what is wrong with the command line, and returns the status.
    pub fn show(&self, rt: &HostRuntime) -> u8
        ensures { IsShownWith self.now result }
    {
        let argument = match self {
            WordsFault::Refused(refusal) => return refusal.show(rt),
            WordsFault::Beside(argument) => argument.term(),
        };
        let shown = eprintln!(rt;
            "error: the argument '{argument}' cannot be used with '--service'"
        );
        let helped = eprint!(rt; "\nUsage: {USAGE}\n\nFor more information, try '--help'.\n");
        if shown.is_err() || helped.is_err() {
            FAILED
        } else {
            REFUSED
        }
    }
}

fn disk_arg<'a>(alloc: Global) -> Arg<'a>
    ensures rule { rule_of result ≡ disk_rule }
    ensures local { result.global ≡ false }
{
    let help = "The file in which the leases are kept";
    option(alloc, "disk", "FILE", help).required(true)
}

fn turns_arg<'a>(alloc: Global, is_service: bool) -> Arg<'a>
    ensures rule { rule_of result ≡ turns_rule is_service }
    ensures local { result.global ≡ false }
{
    let limits = clap::value_parser!(u32).range(1..=i64::from(MAX_TURNS));
    let help = "How many turns to make, 1 to 1000000; a turn takes what waits at the sockets";
    limited(alloc, "turns", "N", limits, help).required(!is_service)
}

fn service_arg<'a>(alloc: Global) -> Arg<'a>
    ensures rule { rule_of result ≡ service_rule }
    ensures local { result.global ≡ false }
{
    let help = "Serve up to 1024 circuits until stopped, in place of --turns, --pause and --batch";
    flag(alloc, "service", help)
}

fn format_arg<'a>(alloc: Global) -> Arg<'a>
    ensures rule { rule_of result ≡ format_rule }
    ensures local { result.global ≡ false }
{
    let help = "Make the file and format every configured region first; leases in it are lost";
    flag(alloc, "format", help)
}

fn port_arg<'a>(alloc: Global) -> Arg<'a>
    ensures rule { rule_of result ≡ port_rule }
    ensures local { result.global ≡ false }
{
    let limits = clap::value_parser!(u16).range(i64::from(MIN_PORT)..=i64::from(MAX_PORT));
    let help = "The first port of the first circuit, 1024 to 65472";
    limited(alloc, "port", "P", limits, help).default_value("20000")
}

fn pause_arg<'a>(alloc: Global, is_service: bool) -> Arg<'a>
    ensures rule { rule_of result ≡ pause_rule is_service }
    ensures local { result.global ≡ false }
{
    let limits = clap::value_parser!(u16).range(0..=i64::from(MAX_PAUSE));
    let help = "How many milliseconds to wait at most after a turn that took nothing, 0 to 1000";
    let arg = limited(alloc, "pause", "MS", limits, help);
    if is_service {
        arg
    } else {
        arg.default_value("0")
    }
}

fn batch_arg<'a>(alloc: Global, is_service: bool) -> Arg<'a>
    ensures rule { rule_of result ≡ batch_rule is_service }
    ensures local { result.global ≡ false }
{
    let limits = clap::value_parser!(u8).range(1..=i64::from(MAX_BATCH));
    let help = "How many datagrams the server takes at most in a turn and saves together, 1 to 16";
    let arg = limited(alloc, "batch", "B", limits, help);
    if is_service {
        arg
    } else {
        arg.default_value("1")
    }
}

fn report_arg<'a>(alloc: Global) -> Arg<'a>
    ensures rule { rule_of result ≡ report_rule }
    ensures local { result.global ≡ false }
{
    let limits = clap::value_parser!(u32).range(0..=i64::from(MAX_REPORT));
    let help = "Writes the counts every S seconds as well, 0 to 86400; 0 is never";
    limited(alloc, "report", "S", limits, help).default_value("0")
}

fn leases_arg<'a>(alloc: Global) -> Arg<'a>
    ensures rule { rule_of result ≡ leases_rule }
    ensures local { result.global ≡ false }
{
    let help = "Writes a line to standard output for each lease that begins or ends";
    flag(alloc, "leases", help)
}

fn named<'a>(alloc: Global) -> Command<'a>
    ensures { app_of result ≡ bare_app }
{
    Command::new(alloc, "accessd")
        .no_binary_name(true)
        .version("0.1.0")
        .about("Relays and serves DHCP for circuits, each of which is four UDP ports on 127.0.0.1")
        .override_usage(USAGE)
        .after_help(
            "Example:\n  accessd examples/one_circuit.toml --disk leases --format --turns 100000",
        )
}

/// With the words that have to be there.
fn base_command<'a>(alloc: Global, is_service: bool) -> Result<Command<'a>, AllocError>
    ensures { IfOk result (λ command. app_of command ≡ base_app is_service) }
{
    let config = config_arg(alloc);
    let with_config = named(alloc).arg(config)?;
    let disk = disk_arg(alloc);
    let with_disk = with_config.arg(disk)?;
    let turns = turns_arg(alloc, is_service);
    let with_turns = with_disk.arg(turns)?;
    let service = service_arg(alloc);
    with_turns.arg(service)
}

/// With those that say how it serves.
fn serving_command<'a>(alloc: Global, is_service: bool) -> Result<Command<'a>, AllocError>
    ensures { IfOk result (λ command. app_of command ≡ serving_app is_service) }
{
    let base = base_command(alloc, is_service)?;
    let format = format_arg(alloc);
    let with_format = base.arg(format)?;
    let port = port_arg(alloc);
    let with_port = with_format.arg(port)?;
    let pause = pause_arg(alloc, is_service);
    let with_pause = with_port.arg(pause)?;
    let batch = batch_arg(alloc, is_service);
    with_pause.arg(batch)
}

fn command<'a>(alloc: Global, is_service: bool) -> Result<Command<'a>, AllocError>
    ensures { IfOk result (λ command. app_of command ≡ access_app is_service) }
{
    let serving = serving_command(alloc, is_service)?;
    let report = report_arg(alloc);
    let with_report = serving.arg(report)?;
    let leases = leases_arg(alloc);
    with_report.arg(leases)
}

/// The values that clap has read, where all are there and within their limits.
fn values<'a>(matches: &ArgMatches<'a>) -> Option<AccessWords<'a>>
    ensures some { IfSome result (HasValues (rows_of (found_of matches.now))) }
    ensures none { IsNone result → (values : access.AccessWords) → ¬ HasValues (rows_of (found_of matches.now)) values }
{
    let config = matches.get_str("CONFIG")?;
    let disk = matches.get_str("disk")?;
    let serving = serving_of(matches)?;
    let format = is_set(matches, "format");
    let port = number(matches, "port", MIN_PORT, MAX_PORT)?;
    let report = number(matches, "report", 0, MAX_REPORT)?;
    let leases = is_set(matches, "leases");
    Some(AccessWords {
        config,
        disk,
        serving,
        format,
        port: port as u16,
        report,
        leases,
    })
}

/// The values of the words after the program's name.
pub fn words<'a>(alloc: Global, words: &'a [String]) -> Result<AccessWords<'a>, WordsFault>
    ensures values { IfOk result (Spells (map string_bytes words.entry.now)) }
    ensures refused { IfErr result (IsRefusedFor (map string_bytes words.entry.now)) }
{
    let is_service = asks_for_service(words);
    let Ok(command) = command(alloc, is_service) else {
        return Err(WordsFault::Refused(Refusal::Memory));
    };
    let matches = match command.try_get_matches_from(words) {
        Ok(matches) => matches,
        Err(error) => return Err(WordsFault::Refused(Refusal::Usage(error))),
    };
    if let Some(argument) = beside_service(&matches) {
        return Err(WordsFault::Beside(argument));
    }
    let Some(values) = values(&matches) else {
        return Err(WordsFault::Refused(Refusal::BadValue));
    };
    Ok(values)
}
