//! The DHCPv4 addresses of one circuit.
ghost use Rattle.std.specs.Prelude.{◌≡◌, ◌+◌, ◌<◌, ◌≤◌, ◌↔◌, IsSome, IfSome};
ghost use Rattle.types.specs.Addr.{number4};
ghost use Rattle.types.specs.Pool4.{IsPool4};

use crate::addr::Addr4;
use std::marker::Model;

/// The most addresses of a pool.
pub const MAX_POOL: usize = 16;

/// The shortest lease, in seconds.
pub const MIN_LEASE: u32 = 60;

/// The longest lease, in seconds: a week.
pub const MAX_LEASE: u32 = 604_800;

/// A circuit's DHCPv4 pool: 1 to 16 consecutive addresses, none past the last IPv4 address, its
/// gateway, and the lease time, 60 to 604800 seconds.
#[derive(Clone, Copy, PartialEq, Eq)]
pub struct Pool4 {
    first: Addr4,
    count: u8,
    gateway: Addr4,
    lease: u32,
}

impl Model for Pool4 {
    ghost use Rattle.types.specs.Pool4.{IsPool4, PoolValue};

    ghost Value = { PoolValue };

    ghost view = { λ p. record { first = p.first; count = p.count; gateway = p.gateway; lease = p.lease } };

    ghost invariant = { λ p. IsPool4 p.first p.count p.lease };

    ghost inverse = { λ v. record { first = v.first; count = v.count; gateway = v.gateway; lease = v.lease } };
}

impl Pool4 {
    /// The pool with these values; `None` where one of them is outside its limits.
    pub fn new(first: Addr4, count: u8, gateway: Addr4, lease: u32) -> Option<Pool4>
        ensures within { IsSome result ↔ IsPool4 first count lease }
        ensures first { IfSome result (λ pool. pool.first ≡ first) }
        ensures count { IfSome result (λ pool. pool.count ≡ count) }
        ensures gateway { IfSome result (λ pool. pool.gateway ≡ gateway) }
        ensures lease { IfSome result (λ pool. pool.lease ≡ lease) }
    {
        let in_limits = 1 <= count
            && usize::from(count) <= MAX_POOL
            && MIN_LEASE <= lease
            && lease <= MAX_LEASE;
        if !in_limits || u64::from(first.number()) + u64::from(count) > 1 << 32 {
            return None;
        }
        Some(Pool4 {
            first,
            count,
            gateway,
            lease,
        })
    }

    /// The lowest address.
    pub fn first(self) -> Addr4
        ensures value { result ≡ self.first }
        ensures within { IsPool4 self.first self.count self.lease }
    {
        self.first
    }

    /// The number of addresses, 1 to 16.
    pub fn count(self) -> u8
        ensures value { result ≡ self.count }
        ensures within { IsPool4 self.first self.count self.lease }
    {
        self.count
    }

    pub fn gateway(self) -> Addr4
        ensures { result ≡ self.gateway }
    {
        self.gateway
    }

    /// The lease time in seconds, 60 to 604800.
    pub fn lease(self) -> u32
        ensures value { result ≡ self.lease }
        ensures within { IsPool4 self.first self.count self.lease }
    {
        self.lease
    }

    /// The address of this slot of the pool, 0 the lowest; `None` past the pool's end.
    pub fn address(self, slot: usize) -> Option<Addr4>
        ensures within { IsSome result ↔ (slot < self.count) }
        ensures value { IfSome result (λ address. number4 address ≡ number4 self.first + slot) }
    {
        if slot >= usize::from(self.count) {
            return None;
        }
        Some(Addr4::from_number(self.first.number() + slot as u32))
    }

    /// The slot of an address in the pool, 0 the lowest; `None` where the pool has no such address.
    pub fn slot(self, address: Addr4) -> Option<usize>
        ensures within { IsSome result ↔ ((number4 self.first ≤ number4 address) × (number4 address < number4 self.first + self.count)) }
        ensures value { IfSome result (λ slot. number4 self.first + slot ≡ number4 address) }
        ensures below { IfSome result (λ slot. slot < self.count) }
    {
        let slot = address.number().checked_sub(self.first.number())? as usize;
        (slot < usize::from(self.count)).then_some(slot)
    }
}
