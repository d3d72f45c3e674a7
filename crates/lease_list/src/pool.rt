//! How many addresses of a pool are leased, declined or free.
ghost use Rattle.std.specs.Prelude.{◌≡◌, ◌+◌, ◌-◌};
ghost use Rattle.types.specs.Addr.{number4, addr4, number6, addr6};
ghost use Rattle.lease_list.specs.Pool.{declined, is_declined, is_leased, leased, usage_of};

use crate::lease::Lease;
use types::{Addr4, Addr6, Pool4, Pool6, Proto};

/// How many addresses of a pool are leased, how many a client declined, and how many are neither.
#[derive(Clone, Copy)]
pub struct Usage {
    pub leased: usize,
    pub declined: usize,
    pub free: usize,
}

/// Whether a client has this address, and it is of this protocol.
fn is_leased(proto: Proto, lease: &Lease) -> bool
    ensures { result ≡ is_leased proto lease.now }
{
    match (proto, *lease) {
        (Proto::V4, Lease::V4(_, Some(_), _)) | (Proto::V6, Lease::V6(_, Some(_), _)) => true,
        _ => false,
    }
}

/// Whether a client declined this address, and it is of this protocol.
fn is_declined(proto: Proto, lease: &Lease) -> bool
    ensures { result ≡ is_declined proto lease.now }
{
    match (proto, *lease) {
        (Proto::V4, Lease::V4(_, None, _)) | (Proto::V6, Lease::V6(_, None, _)) => true,
        _ => false,
    }
}

fn leased(proto: Proto, leases: &[Lease]) -> usize
    ensures { result ≡ leased proto leases.now }
{
    leases
        .iter()
        .filter(|lease| is_leased(proto, lease))
        .count()
}

fn declined(proto: Proto, leases: &[Lease]) -> usize
    ensures { result ≡ declined proto leases.now }
{
    leases
        .iter()
        .filter(|lease| is_declined(proto, lease))
        .count()
}

/// What of a pool of so many addresses these leases of its circuit take.
pub fn usage_of(proto: Proto, count: u8, leases: &[Lease]) -> Usage
    ensures { result ≡ usage_of proto count leases.now }
{
    let leased = leased(proto, leases);
    let declined = declined(proto, leases);
    let free = usize::from(count)
        .saturating_sub(leased)
        .saturating_sub(declined);
    Usage {
        leased,
        declined,
        free,
    }
}

/// The highest address of a pool.
pub fn last4(pool: Pool4) -> Addr4
    ensures { result ≡ addr4 (number4 pool.first + (pool.count - 1)) }
{
    let (first, count) = (pool.first(), pool.count());
    Addr4::from_number(first.number() + u32::from(count - 1))
}

/// The highest address of a pool.
pub fn last6(pool: Pool6) -> Addr6
    ensures { result ≡ addr6 (number6 pool.first + (pool.count - 1)) }
{
    let (first, count) = (pool.first(), pool.count());
    Addr6::from_number(first.number() + u128::from(count - 1))
}
