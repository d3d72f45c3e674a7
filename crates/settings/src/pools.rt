//! The addresses of pools, as numbers.
ghost use Rattle.std.specs.Prelude.{◌+◌, ◌^◌, ◌<◌, ◌≤◌, ◌↔◌, IsTrue};
ghost use Rattle.types.specs.Addr.{number4, number6};

use types::{Addr4, Addr6};

/// Whether this many addresses, from the first on, end at or before the last IPv4 address.
pub fn is_within4(first: Addr4, count: u8) -> bool
    ensures { IsTrue result ↔ (number4 first + count ≤ 2 ^ 32) }
{
    u64::from(first.number()) + u64::from(count) <= 1 << 32
}

/// Whether this many addresses, from the first on, end at or before the last IPv6 address.
pub fn is_within6(first: Addr6, count: u8) -> bool
    requires { 1 ≤ count }
    ensures { IsTrue result ↔ (number6 first + count ≤ 2 ^ 128) }
{
    u128::from(count) - 1 <= u128::MAX - first.number()
}
