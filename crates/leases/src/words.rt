//! The command line of `leases`.
ghost use Rattle.std.specs.Prelude.{◌≡◌, ◌↔◌, ℕ, List, Option, Some, false, map};
ghost use Rattle.std.specs.Prelude.{codes, string_bytes, IfOk, IfErr, IfSome, IsNone};
ghost use Rattle.clap.specs.Words.{app_of, rule_of, found_of, first_value, rows_of};
ghost use Rattle.command_line.specs.CommandLine.{IsRefused};
ghost use Rattle.leases.specs.Words.{at_rule, disk_rule, json_rule, pools_rule};
ghost use Rattle.leases.specs.Words.{bare_app, leases_app, HasValues, IsMoment, Spells, SpellsSomething};

use clap::{Arg, ArgMatches, Command};
use command_line::{Refusal, config_arg, flag, is_set, limited, option};
use lease_list::{Form, What};
use std::alloc::{AllocError, Global};
use types::LAST_MOMENT;

/// The values of the words after the program's name.
#[derive(Clone, Copy)]
pub struct LeaseWords<'a> {
    /// The path of the configuration.
    pub config: &'a str,
    /// The path of the file in which the leases are kept.
    pub disk: &'a str,
    /// The moment at which the leases are listed, in seconds, 0 to 1099511627775; now where there is none.
    pub at: Option<u64>,
    pub what: What,
    pub form: Form,
}

fn disk_arg<'a>(alloc: Global) -> Arg<'a>
    ensures rule { rule_of result ≡ disk_rule }
    ensures local { result.global ≡ false }
{
    let help = "The file in which `accessd` keeps the leases; it is only read";
    option(alloc, "disk", "FILE", help).required(true)
}

fn at_arg<'a>(alloc: Global) -> Arg<'a>
    ensures rule { rule_of result ≡ at_rule }
    ensures local { result.global ≡ false }
{
    let limits = clap::value_parser!(i64).range(0..=1_099_511_627_775);
    let help = "List what is leased at this moment, in seconds since 1970; now by default";
    limited(alloc, "at", "SECONDS", limits, help)
}

fn pools_arg<'a>(alloc: Global) -> Arg<'a>
    ensures rule { rule_of result ≡ pools_rule }
    ensures local { result.global ≡ false }
{
    let help = "List how many addresses of each pool are leased, declined and free";
    flag(alloc, "pools", help)
}

fn json_arg<'a>(alloc: Global) -> Arg<'a>
    ensures rule { rule_of result ≡ json_rule }
    ensures local { result.global ≡ false }
{
    flag(alloc, "json", "Write each line as JSON")
}

fn named<'a>(alloc: Global) -> Command<'a>
    ensures { app_of result ≡ bare_app }
{
    Command::new(alloc, "leases")
        .no_binary_name(true)
        .version("0.1.0")
        .about(
            "Lists the leases of all circuits in the file of an accessd, which may run meanwhile",
        )
        .after_help("Example:\n  leases examples/one_circuit.toml --disk leases")
}

fn command<'a>(alloc: Global) -> Result<Command<'a>, AllocError>
    ensures { IfOk result (λ command. app_of command ≡ leases_app) }
{
    let config = config_arg(alloc);
    let with_config = named(alloc).arg(config)?;
    let disk = disk_arg(alloc);
    let with_disk = with_config.arg(disk)?;
    let at = at_arg(alloc);
    let with_at = with_disk.arg(at)?;
    let pools = pools_arg(alloc);
    let with_pools = with_at.arg(pools)?;
    let json = json_arg(alloc);
    with_pools.arg(json)
}

/// The number of a text, where it is a moment.
fn moment_of(text: &str) -> Option<u64>
    ensures some { IfSome result (λ seconds. IsMoment (Some text.now) (Some seconds)) }
    ensures none { IsNone result → (at : Option ℕ) → ¬ IsMoment (Some text.now) at }
{
    let seconds = text.parse::<u64>().ok()?;
    if LAST_MOMENT < seconds {
        return None;
    }
    Some(seconds)
}

/// The moment that is given, if one is; `None` where it is no moment.
fn moment<'a>(matches: &ArgMatches<'a>, id: &str) -> Option<Option<u64>>
    ensures some { IfSome result (IsMoment (first_value (found_of matches.now) id.now)) }
    ensures none { IsNone result → (at : Option ℕ) → ¬ IsMoment (first_value (found_of matches.now) id.now) at }
{
    let Some(text) = matches.get_str(id) else {
        return Some(None);
    };
    match moment_of(text) {
        Some(seconds) => Some(Some(seconds)),
        None => None,
    }
}

/// What is asked for, by a flag.
fn what_of<'a>(matches: &ArgMatches<'a>, id: &str) -> What
    ensures { (result ≡ What.Pools) ↔ (first_value (found_of matches.now) id.now ≡ Some (codes "true")) }
{
    if is_set(matches, id) {
        What::Pools
    } else {
        What::Leases
    }
}

/// How the lines are asked for, by a flag.
fn form_of<'a>(matches: &ArgMatches<'a>, id: &str) -> Form
    ensures { (result ≡ Form.Json) ↔ (first_value (found_of matches.now) id.now ≡ Some (codes "true")) }
{
    if is_set(matches, id) {
        Form::Json
    } else {
        Form::Text
    }
}

/// The values that clap has read, where all are there and within their limits.
fn values<'a>(matches: &ArgMatches<'a>) -> Option<LeaseWords<'a>>
    ensures some { IfSome result (λ values.
        HasValues (rows_of (found_of matches.now)) values.config.now values.disk.now values.at values.what
        values.form) }
    ensures none { IsNone result → (config disk : List ℕ) (at : Option ℕ) (what : What) (form : Form)
        → ¬ HasValues (rows_of (found_of matches.now)) config disk at what form }
{
    let config = matches.get_str("CONFIG")?;
    let disk = matches.get_str("disk")?;
    let at = moment(matches, "at")?;
    let what = what_of(matches, "pools");
    let form = form_of(matches, "json");
    Some(LeaseWords {
        config,
        disk,
        at,
        what,
        form,
    })
}

/// The values of the words after the program's name.
pub fn words<'a>(alloc: Global, words: &'a [String]) -> Result<LeaseWords<'a>, Refusal>
    ensures values { IfOk result (λ values.
        Spells (map string_bytes words.entry.now) values.config.now values.disk.now values.at values.what values.form) }
    ensures refused { IfErr result (IsRefused leases_app SpellsSomething (map string_bytes words.entry.now)) }
{
    let Ok(command) = command(alloc) else {
        return Err(Refusal::Memory);
    };
    let matches = match command.try_get_matches_from(words) {
        Ok(matches) => matches,
        Err(error) => return Err(Refusal::Usage(error)),
    };
    let Some(values) = values(&matches) else {
        return Err(Refusal::BadValue);
    };
    Ok(values)
}
