//! A clock that follows the system's clock where it doesn't jump.
ghost use Rattle.std.specs.Prelude.{◌≡◌, ◌/◌, option_map};
ghost use Rattle.std.specs.Duration.{as_nanos};
ghost use Rattle.service_clock.specs.Shown.{after, beside, gone_on, is_apart, is_past_end, moment_in, seconds_in, unset};

use std::marker::Model;
use std::time::Duration;
use types::{LAST_MOMENT, Moment};

/// How many nanoseconds the system's clock may be ahead or behind and is still followed: a minute of them.
const MOST_APART: u128 = 60_000_000_000;

/// A clock by two others: by the system's at first, and by the monotonic one from then on. Where the system's clock is at most a
/// minute ahead of it or behind it, as when that is set right little by little, this clock follows it; else it goes on by itself.
#[derive(Drop)]
pub struct ServiceClock {
    /// The time since 1970 that it shows, once the system's clock was read.
    time: Option<Duration>,
    /// The last reading of the monotonic clock.
    monotonic: Option<Duration>,
    /// By how much the system's clock was ahead of it or behind it at the last reading, if that was not followed.
    ahead: Duration,
    behind: Duration,
}

impl Model for ServiceClock {
    ghost use Rattle.std.specs.Prelude.{option_map};
    ghost use Rattle.std.specs.Duration.{as_nanos};
    ghost use Rattle.service_clock.specs.Shown.{Shown};

    ghost Value = { Shown };

    ghost view = { λ c.
        record {
          time = option_map as_nanos c.time;
          monotonic = option_map as_nanos c.monotonic;
          ahead = as_nanos c.ahead;
          behind = as_nanos c.behind;
        } };
}

impl ServiceClock {
    /// A clock that follows the first reading of the system's clock, whatever that is. Until then it shows 1970.
    pub fn new() -> ServiceClock
        ensures { result ≡ unset }
    {
        ServiceClock {
            time: None,
            monotonic: None,
            ahead: Duration::ZERO,
            behind: Duration::ZERO,
        }
    }

    /// Takes a reading of both clocks, each as a time since an origin that stays; `None` where one could not be read. A clock that
    /// could not be read is passed over: without the system's it goes on by itself, and what the monotonic clock went on meanwhile
    /// counts when that is read again.
    pub fn follow(&mut self, system: Option<Duration>, monotonic: Option<Duration>)
        ensures { self.new ≡ after self.old (option_map as_nanos system) (option_map as_nanos monotonic) }
    {
        if let Some(now) = monotonic {
            self.go_on(now);
        }
        if let Some(time) = system {
            self.compare(time);
        }
    }

    /// What it shows, in whole seconds. At the last moment it stands still.
    pub fn moment(&self) -> Moment
        ensures { result ≡ moment_in self.now }
    {
        let seconds = self.seconds().min(LAST_MOMENT);
        Moment::new(seconds).unwrap_or(Moment::first())
    }

    /// By how many whole seconds the system's clock was ahead of it when it was last read; 0 while it follows.
    pub fn ahead(&self) -> u64
        ensures { result ≡ self.now.ahead / 1_000_000_000 }
    {
        self.ahead.as_secs()
    }

    /// By how many whole seconds the system's clock was behind it when it was last read; 0 while it follows.
    pub fn behind(&self) -> u64
        ensures { result ≡ self.now.behind / 1_000_000_000 }
    {
        self.behind.as_secs()
    }

    /// Whether it goes on by itself, because the system's clock was too far ahead or behind when it was last read.
    pub fn is_apart(&self) -> bool
        ensures { result ≡ is_apart self.now }
    {
        self.ahead.as_nanos() > 0 || self.behind.as_nanos() > 0
    }

    /// Whether its time is past the last moment, at which `moment` stands still.
    pub fn is_past_end(&self) -> bool
        ensures { result ≡ is_past_end self.now }
    {
        self.seconds() > LAST_MOMENT
    }

    /// The time that it shows, in whole seconds.
    fn seconds(&self) -> u64
        ensures { result ≡ seconds_in self.now }
    {
        match &self.time {
            Some(time) => time.as_secs(),
            None => 0,
        }
    }

    /// The monotonic clock was read: the time goes on as much as that did.
    fn go_on(&mut self, now: Duration)
        ensures { self.new ≡ gone_on (as_nanos now) self.old }
    {
        if let (Some(time), Some(before)) = (self.time, self.monotonic) {
            let since = now.saturating_sub(before);
            self.time = Some(time.saturating_add(since));
        }
        self.monotonic = Some(now);
    }

    /// The system's clock was read: it is followed, or kept by how much it is apart.
    fn compare(&mut self, system: Duration)
        ensures { self.new ≡ beside (as_nanos system) self.old }
    {
        let own = self.time.unwrap_or(system);
        let ahead = system.saturating_sub(own);
        let behind = own.saturating_sub(system);
        if ahead.as_nanos() > MOST_APART || behind.as_nanos() > MOST_APART {
            self.time = Some(own);
            self.ahead = ahead;
            self.behind = behind;
        } else {
            self.time = Some(system);
            self.ahead = Duration::ZERO;
            self.behind = Duration::ZERO;
        }
    }
}
