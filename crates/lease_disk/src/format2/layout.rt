//! Where a region of format 2 keeps the halves of its slots: one after the other.
ghost use Rattle.std.specs.Prelude.{◌≡◌, ◌≤◌, ◌<◌, ◌+◌};
ghost use Rattle.lease_disk.specs.Layout.{half_at};

use crate::half::Half;

/// Where the halves of all slots begin.
pub const HALVES_AT: usize = 16384;

/// Where the half of a slot, and so its gate, stands in a region.
pub fn half_at(slot: usize, which: Half) -> usize
    requires { slot < 32 }
    ensures place { result ≡ half_at slot which }
    ensures most { result + 256 ≤ 32768 }
{
    HALVES_AT + which.at(slot)
}
