//! How `accessd` serves: so many turns, or until it is stopped.
ghost use Rattle.std.specs.Prelude.{◌≡◌, ◌≢◌, Some, codes, map, string_bytes, IfSome, IsNone};
ghost use Rattle.clap.specs.Words.{found_of, first_value};
ghost use Rattle.accessd.specs.Serving.{HasServing, IsBeside, asks_for_service, batch_of, most_of};
ghost use Rattle.accessd.specs.declared.serving.Serving.{Serving};
ghost use Rattle.accessd.specs.declared.serving.TurnsArgument.{TurnsArgument};

use clap::ArgMatches;
use command_line::{is_set, number};

pub const MAX_TURNS: u32 = 1_000_000;

pub const MAX_PAUSE: u32 = 1000;

pub const MAX_BATCH: u32 = 16;

/// How relay and server serve.
#[derive(Clone, Copy)]
pub enum Serving {
    /// They make so many turns, 1 to 1000000. After one that took no datagram they wait for the next one, at most so many
    /// milliseconds, 0 to 1000. The server takes at most a batch in a turn, 1 to 16 datagrams.
    Turns { turns: u32, pause: u16, batch: u8 },
    /// They make passes until the program is stopped.
    Service,
}

impl Serving {
    /// How many circuits are served at most.
    pub fn most_circuits(self) -> u16
        ensures { result ≡ most_of self }
    {
        match self {
            Serving::Turns { .. } => 16,
            Serving::Service => 1024,
        }
    }

    /// How many datagrams the server takes together at most.
    pub fn batch(self) -> u8
        ensures { result ≡ batch_of self }
    {
        match self {
            Serving::Turns { batch, .. } => batch,
            Serving::Service => 16,
        }
    }
}

/// An argument that says how turns are made.
#[derive(Clone, Copy)]
pub enum TurnsArgument {
    Turns,
    Pause,
    Batch,
}

impl TurnsArgument {
    /// As clap shows it.
    pub fn term(self) -> &'static str {
        match self {
            TurnsArgument::Turns => "--turns <N>",
            TurnsArgument::Pause => "--pause <MS>",
            TurnsArgument::Batch => "--batch <B>",
        }
    }
}

/// Whether words ask for the service. It decides by which command line clap reads them.
pub fn asks_for_service(words: &[String]) -> bool
    ensures { result ≡ asks_for_service (map string_bytes words.now) }
{
    'words: for word in words {
        if word.as_str() == "--" {
            return false;
        }
        if word.as_str() == "--service" {
            return true;
        }
    }
    false
}

/// The first argument for turns that stands beside `--service`.
pub fn beside_service<'a>(matches: &ArgMatches<'a>) -> Option<TurnsArgument>
    ensures some { IfSome result (IsBeside (first_value (found_of matches.now))) }
    ensures none { IsNone result → (argument : TurnsArgument) → ¬ IsBeside (first_value (found_of matches.now)) argument }
{
    if !is_set(matches, "service") {
        return None;
    }
    if matches.get_str("turns").is_some() {
        return Some(TurnsArgument::Turns);
    }
    if matches.get_str("pause").is_some() {
        return Some(TurnsArgument::Pause);
    }
    if matches.get_str("batch").is_some() {
        return Some(TurnsArgument::Batch);
    }
    None
}

/// The turns that clap has read, where all their numbers are there and within their limits.
fn turns_of<'a>(matches: &ArgMatches<'a>) -> Option<Serving>
    requires { first_value (found_of matches.now) (codes "service") ≢ Some (codes "true") }
    ensures some { IfSome result (HasServing (first_value (found_of matches.now))) }
    ensures none { IsNone result → (serving : Serving) → ¬ HasServing (first_value (found_of matches.now)) serving }
{
    let turns = number(matches, "turns", 1, MAX_TURNS)?;
    let pause = number(matches, "pause", 0, MAX_PAUSE)?;
    let batch = number(matches, "batch", 1, MAX_BATCH)?;
    Some(Serving::Turns {
        turns,
        pause: pause as u16,
        batch: batch as u8,
    })
}

/// How relay and server serve by what clap has read, if that says it.
pub fn serving_of<'a>(matches: &ArgMatches<'a>) -> Option<Serving>
    ensures some { IfSome result (HasServing (first_value (found_of matches.now))) }
    ensures none { IsNone result → (serving : Serving) → ¬ HasServing (first_value (found_of matches.now)) serving }
{
    if !is_set(matches, "service") {
        return turns_of(matches);
    }
    match beside_service(matches) {
        None => Some(Serving::Service),
        Some(_) => None,
    }
}
