//! The moment at which the leases are listed.
ghost use Rattle.std.specs.Prelude.{◌≡◌};
ghost use Rattle.lease_list.specs.Moment.{moment_of};

use std::time::Duration;

/// The moment at which the leases are listed, in seconds since 1970, by the one that is given and by what the clock
/// says, if it says anything.
pub fn moment_of(given: Option<u64>, since_1970: Option<Duration>) -> Option<u64>
    ensures { result ≡ moment_of given since_1970 }
{
    match (given, since_1970) {
        (Some(given), _) => Some(given),
        (None, Some(since_1970)) => Some(since_1970.as_secs()),
        (None, None) => None,
    }
}
