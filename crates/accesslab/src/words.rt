//! The command line of `accesslab`.
ghost use Rattle.std.specs.Prelude.{◌≡◌, ℕ, List, false, map, string_bytes, IfOk, IfErr, IfSome, IsNone};
ghost use Rattle.clap.specs.Words.{Text, app_of, rule_of, found_of, rows_of};
ghost use Rattle.command_line.specs.CommandLine.{IsRefused};
ghost use Rattle.accesslab.specs.Words.{configs_rule, quota_rule, bare_app, lab_app, HasValues, Spells, SpellsSomething};

use clap::{Arg, ArgAction, ArgMatches, Command};
use command_line::{Refusal, number};
use config::MAX_PLANS;
use std::alloc::{AllocError, Global};

const MAX_QUOTA: u32 = 256;

/// The values of the words after the program's name.
#[derive(Drop)]
pub struct LabWords<'a> {
    /// The paths of the configurations, 1 to 8, of which the first is in force at the start.
    pub configs: Vec<&'a str>,
    /// How many datagrams of a circuit the network keeps in each direction, 1 to 256.
    pub quota: u16,
}

fn configs_arg<'a>(alloc: Global) -> Arg<'a>
    ensures rule { rule_of result ≡ configs_rule }
    ensures local { result.global ≡ false }
{
    Arg::new(alloc, "CONFIG")
        .action(ArgAction::Set)
        .num_args(1..=MAX_PLANS)
        .required(true)
        .help("The configurations, TOML files; the first is in force at the start")
}

fn quota_arg<'a>(alloc: Global) -> Arg<'a>
    ensures rule { rule_of result ≡ quota_rule }
    ensures local { result.global ≡ false }
{
    Arg::new(alloc, "quota")
        .long("quota")
        .action(ArgAction::Set)
        .value_parser(clap::value_parser!(u16).range(1..=i64::from(MAX_QUOTA)))
        .default_value("16")
        .help("How many datagrams of a circuit the network keeps in each direction")
}

fn named<'a>(alloc: Global) -> Command<'a>
    ensures { app_of result ≡ bare_app }
{
    Command::new(alloc, "accesslab")
        .no_binary_name(true)
        .version("0.1.0")
        .about("Reads events from standard input, one per line, and writes the outcome of each")
}

fn command<'a>(alloc: Global) -> Result<Command<'a>, AllocError>
    ensures { IfOk result (λ command. app_of command ≡ lab_app) }
{
    let configs = configs_arg(alloc);
    let first = named(alloc).arg(configs)?;
    let quota = quota_arg(alloc);
    first.arg(quota)
}

/// The paths and the quota that clap has read, where they are there and within their limits.
fn values<'m, 'a>(matches: &'m ArgMatches<'a>) -> Option<(&'m [&'a str], u16)>
    ensures some { IfSome result (λ v. HasValues (rows_of (found_of matches.now)) (map (λ path. path.now) v.0.now) v.1) }
    ensures none { IsNone result → (configs : List Text) (quota : ℕ) → ¬ HasValues (rows_of (found_of matches.now)) configs quota }
{
    let configs = matches.get_strs("CONFIG")?;
    if configs.is_empty() || MAX_PLANS < configs.len() {
        return None;
    }
    let quota = number(matches, "quota", 1, MAX_QUOTA)?;
    let quota = u16::try_from(quota).ok()?;
    Some((configs, quota))
}

/// The values of the words after the program's name.
pub fn words<'a>(alloc: Global, words: &'a [String]) -> Result<LabWords<'a>, Refusal>
    ensures values { IfOk result (λ values.
        Spells (map string_bytes words.entry.now) (map (λ path. path.now) values.configs.items) values.quota) }
    ensures refused { IfErr result (IsRefused lab_app SpellsSomething (map string_bytes words.entry.now)) }
{
    let Ok(command) = command(alloc) else {
        return Err(Refusal::Memory);
    };
    let matches = match command.try_get_matches_from(words) {
        Ok(matches) => matches,
        Err(error) => return Err(Refusal::Usage(error)),
    };
    let Some((configs, quota)) = values(&matches) else {
        return Err(Refusal::BadValue);
    };
    match configs.to_vec(alloc) {
        Ok(configs) => Ok(LabWords { configs, quota }),
        Err(_) => Err(Refusal::Memory),
    }
}
