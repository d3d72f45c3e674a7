//! Moments by the system's clock.
ghost use Rattle.std.specs.Prelude.{◌≡◌, ◌/◌};
ghost use Rattle.std.specs.Duration.{as_nanos};
ghost use Rattle.access.specs.Moments.{HasRead, moment_of};

use std::rt::Clock;
use std::time::Duration;
use types::Moment;
use udp::{History, read_clock};

/// The moment at so many whole seconds after the first, or the one before where that is past the last.
pub fn moment_of(since: Duration, before: Moment) -> Moment
    ensures { result ≡ moment_of (as_nanos since / 1_000_000_000) before }
{
    Moment::new(since.as_secs()).unwrap_or(before)
}

/// This moment in seconds since 1970, or the one before where the clock can't be read.
pub(crate) fn moment<R: Clock>(rt: &R, before: Moment, history: &mut History) -> Moment
    ensures read { HasRead before result history.old.entries history.new.entries }
    ensures same { history.new.id ≡ history.old.id }
{
    match read_clock(rt, history) {
        Some(since) => moment_of(since, before),
        None => before,
    }
}
