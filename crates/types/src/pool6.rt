//! The DHCPv6 addresses of one circuit.
ghost use Rattle.std.specs.Prelude.{◌≡◌, ◌+◌, ◌<◌, ◌≤◌, ◌↔◌, IsSome, IfSome};
ghost use Rattle.types.specs.Addr.{number6};
ghost use Rattle.types.specs.Pool6.{IsPool6};

use crate::addr::Addr6;
use crate::pool4::{MAX_LEASE, MAX_POOL, MIN_LEASE};
use std::marker::Model;

/// A circuit's DHCPv6 pool: 1 to 16 consecutive addresses, none past the last IPv6 address, and the
/// lease time, 60 to 604800 seconds.
#[derive(Clone, Copy, PartialEq, Eq)]
pub struct Pool6 {
    first: Addr6,
    count: u8,
    lease: u32,
}

impl Model for Pool6 {
    ghost use Rattle.types.specs.Pool6.{IsPool6, Pool6Value};

    ghost Value = { Pool6Value };

    ghost view = { λ p. record { first = p.first; count = p.count; lease = p.lease } };

    ghost invariant = { λ p. IsPool6 p.first p.count p.lease };

    ghost inverse = { λ v. record { first = v.first; count = v.count; lease = v.lease } };
}

impl Pool6 {
    /// The pool with these values; `None` where one of them is outside its limits.
    pub fn new(first: Addr6, count: u8, lease: u32) -> Option<Pool6>
        ensures within { IsSome result ↔ IsPool6 first count lease }
        ensures first { IfSome result (λ pool. pool.first ≡ first) }
        ensures count { IfSome result (λ pool. pool.count ≡ count) }
        ensures lease { IfSome result (λ pool. pool.lease ≡ lease) }
    {
        let in_limits = 1 <= count
            && usize::from(count) <= MAX_POOL
            && MIN_LEASE <= lease
            && lease <= MAX_LEASE;
        if !in_limits || u128::from(count) - 1 > u128::MAX - first.number() {
            return None;
        }
        Some(Pool6 {
            first,
            count,
            lease,
        })
    }

    /// The lowest address.
    pub fn first(self) -> Addr6
        ensures value { result ≡ self.first }
        ensures within { IsPool6 self.first self.count self.lease }
    {
        self.first
    }

    /// The number of addresses, 1 to 16.
    pub fn count(self) -> u8
        ensures value { result ≡ self.count }
        ensures within { IsPool6 self.first self.count self.lease }
    {
        self.count
    }

    /// The lease time in seconds, 60 to 604800.
    pub fn lease(self) -> u32
        ensures value { result ≡ self.lease }
        ensures within { IsPool6 self.first self.count self.lease }
    {
        self.lease
    }

    /// The address of this slot of the pool, 0 the lowest; `None` past the pool's end.
    pub fn address(self, slot: usize) -> Option<Addr6>
        ensures within { IsSome result ↔ (slot < self.count) }
        ensures value { IfSome result (λ address. number6 address ≡ number6 self.first + slot) }
    {
        if slot >= usize::from(self.count) {
            return None;
        }
        Some(Addr6::from_number(self.first.number() + slot as u128))
    }

    /// The slot of an address in the pool, 0 the lowest; `None` where the pool has no such address.
    pub fn slot(self, address: Addr6) -> Option<usize>
        ensures within { IsSome result ↔ ((number6 self.first ≤ number6 address) × (number6 address < number6 self.first + self.count)) }
        ensures value { IfSome result (λ slot. number6 self.first + slot ≡ number6 address) }
        ensures below { IfSome result (λ slot. slot < self.count) }
    {
        let slot = address.number().checked_sub(self.first.number())?;
        if slot >= u128::from(self.count) {
            return None;
        }
        Some(slot as usize)
    }
}
