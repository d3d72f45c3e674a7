//! Readings of the system's clock and of the monotonic one.
ghost use Rattle.std.specs.Prelude.{◌≡◌, option_map};
ghost use Rattle.std.specs.Duration.{as_nanos};
ghost use Rattle.udp.specs.History.{Monotonic, Read, with_entry};

use crate::history::{Happened, History};
use std::rt::Clock;
use std::time::Duration;

/// The time since 1970 by the system's clock, if that can be read.
pub fn read_clock<R: Clock>(rt: &R, history: &mut History) -> Option<Duration>
    ensures entries { history.new.entries ≡ with_entry (Read (option_map as_nanos result)) history.old.entries }
    ensures same { history.new.id ≡ history.old.id }
{
    let time = rt.since_1970().ok();
    history.add(&Happened::Read(time));
    time
}

/// The time by the system's monotonic clock, if that can be read: since an origin that stays while the system runs, whatever
/// anybody sets the other clock to. The system promises that it never goes back, and no contract does.
pub fn read_monotonic<R: Clock>(rt: &R, history: &mut History) -> Option<Duration>
    ensures entries { history.new.entries ≡ with_entry (Monotonic (option_map as_nanos result)) history.old.entries }
    ensures same { history.new.id ≡ history.old.id }
{
    let time = rt.monotonic().ok();
    history.add(&Happened::Monotonic(time));
    time
}
