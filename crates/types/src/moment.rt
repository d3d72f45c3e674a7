//! Points in time.
ghost use Rattle.std.specs.Prelude.{◌≡◌, ◌≤◌, ◌↔◌, max, IsSome, IfSome};

use std::marker::Model;

/// The last moment, in seconds: 2^40 - 1.
pub const LAST_MOMENT: u64 = 1_099_511_627_775;

/// A moment or a clock, in whole seconds since an origin that the caller chooses, at most
/// `LAST_MOMENT`.
#[derive(Clone, Copy, PartialEq, Eq, PartialOrd, Ord)]
pub struct Moment {
    seconds: u64,
}

impl Model for Moment {
    ghost use Rattle.std.specs.Prelude.{ℕ, ◌≤◌};

    ghost Value = { ℕ };

    ghost view = { λ m. m.seconds };

    ghost invariant = { λ m. m.seconds ≤ 1099511627775 };

    ghost inverse = { λ n. record { seconds = n } };
}

impl Moment {
    /// The moment 0, where every clock begins.
    pub fn first() -> Moment
        ensures { result ≡ 0 }
    {
        Moment { seconds: 0 }
    }

    /// The moment at this many seconds; `None` past the last.
    pub fn new(seconds: u64) -> Option<Moment>
        ensures within { IsSome result ↔ (seconds ≤ 1099511627775) }
        ensures value { IfSome result (λ moment. moment ≡ seconds) }
    {
        if seconds > LAST_MOMENT {
            return None;
        }
        Some(Moment { seconds })
    }

    pub fn seconds(self) -> u64
        ensures value { result ≡ self }
        ensures within { result ≤ 1099511627775 }
    {
        self.seconds
    }

    /// The later of two: a clock never goes back.
    pub fn later(self, other: Moment) -> Moment
        ensures { result ≡ max self other }
    {
        if self < other { other } else { self }
    }
}
