//! What the programs share of their arguments.
ghost use Rattle.std.specs.Prelude.{◌≡◌, ◌↔◌, ℕ, Some, false, true, codes, IfSome, IsNone};
ghost use Rattle.clap.specs.Words.{rule_of, found_of, first_value};
ghost use Rattle.command_line.specs.CommandLine.{IsNumber, config_rule, flag_rule, limited_rule, option_rule};

use clap::builder::ValueParser;
use clap::{Arg, ArgAction, ArgMatches};
use std::alloc::Global;

/// The argument CONFIG, the path of the configuration.
pub fn config_arg<'a>(alloc: Global) -> Arg<'a>
    ensures rule { rule_of result ≡ config_rule }
    ensures local { result.global ≡ false }
{
    Arg::new(alloc, "CONFIG")
        .action(ArgAction::Set)
        .required(true)
        .help("The configuration, a TOML file")
}

/// A flag, `--NAME`.
pub fn flag<'a>(alloc: Global, name: &'a str, help: &'a str) -> Arg<'a>
    ensures rule { rule_of result ≡ flag_rule name.entry.now }
    ensures local { result.global ≡ false }
{
    Arg::new(alloc, name)
        .long(name)
        .action(ArgAction::SetTrue)
        .help(help)
}

/// An argument with a value, `--NAME VALUE`.
pub fn option<'a>(alloc: Global, name: &'a str, value: &'a str, help: &'a str) -> Arg<'a>
    ensures rule { rule_of result ≡ option_rule name.entry.now }
    ensures local { result.global ≡ false }
{
    Arg::new(alloc, name)
        .long(name)
        .value_name(value)
        .action(ArgAction::Set)
        .help(help)
}

/// One whose value has to be a number within limits.
pub fn limited<'a>(
    alloc: Global,
    name: &'a str,
    value: &'a str,
    limits: ValueParser<'a>,
    help: &'a str,
) -> Arg<'a>
    ensures rule { rule_of result ≡ limited_rule name.entry.now limits.entry }
    ensures local { result.global ≡ false }
{
    option(alloc, name, value, help).value_parser(limits)
}

/// The value of an argument, where it is a number within the limits.
pub fn number<'a>(matches: &ArgMatches<'a>, id: &str, least: u32, most: u32) -> Option<u32>
    ensures some { IfSome result (λ n. IsNumber (first_value (found_of matches.now) id.now) least most n) }
    ensures none { IsNone result → (n : ℕ) → ¬ IsNumber (first_value (found_of matches.now) id.now) least most n }
{
    let number = matches.get_str(id)?.parse::<u32>().ok()?;
    if number < least || most < number {
        return None;
    }
    Some(number)
}

/// Whether a flag is there.
pub fn is_set<'a>(matches: &ArgMatches<'a>, id: &str) -> bool
    ensures { (result ≡ true) ↔ (first_value (found_of matches.now) id.now ≡ Some (codes "true")) }
{
    match matches.get_str(id) {
        Some(text) => text == "true",
        None => false,
    }
}
