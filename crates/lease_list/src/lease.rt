//! The live leases of a circuit.
ghost use Rattle.std.specs.Prelude.{◌≡◌, ◌++◌, IfOk, OnOk};
ghost use Rattle.lease_list.specs.Lease.{lease4, lease6, leases_at, until_of};

use config::CircuitPart;
use std::alloc::{AllocError, Global};
use types::{Addr4, Addr6, Key4, Key6, Slot4, Slot6, Slots};

/// A live lease, or an address that a client declined: the address, the client, unless it was declined, and
/// when it ends, in seconds by the server's clock; `accessd`'s counts from 1970.
#[derive(Clone, Copy)]
pub enum Lease {
    V4(Addr4, Option<Key4>, u64),
    V6(Addr6, Option<Key6>, u64),
}

impl Lease {
    /// When it ends, in seconds.
    pub fn until(&self) -> u64
        ensures { result ≡ until_of self.now }
    {
        match *self {
            Lease::V4(_, _, until) | Lease::V6(_, _, until) => until,
        }
    }
}

/// What a slot says of its DHCPv4 address.
fn lease4(address: Addr4, slot: Slot4) -> Option<Lease>
    ensures { result ≡ lease4 address slot }
{
    match slot {
        Slot4::Free => None,
        Slot4::Bound(key, until) => Some(Lease::V4(address, Some(key), until)),
        Slot4::Barred(until) => Some(Lease::V4(address, None, until)),
    }
}

/// What a slot says of its DHCPv6 address.
fn lease6(address: Addr6, slot: Slot6) -> Option<Lease>
    ensures { result ≡ lease6 address slot }
{
    match slot {
        Slot6::Free => None,
        Slot6::Bound(key, until) => Some(Lease::V6(address, Some(key), until)),
        Slot6::Barred(until) => Some(Lease::V6(address, None, until)),
    }
}

/// Appends the leases of a circuit's slots that are live at a moment, as `leases` has them.
fn add_leases(
    found: &mut Vec<Lease>,
    part: &CircuitPart,
    slots: &Slots,
    at: u64,
) -> Result<(), AllocError>
    ensures { OnOk result (found.new.items ≡ found.old.items ++ leases_at at part.now slots.now) }
{
    let (pool4, pool6) = (part.pool4(), part.pool6());
    let (first4, first6) = (pool4.first(), pool6.first());
    let four = &slots.four[..usize::from(pool4.count())];
    let six = &slots.six[..usize::from(pool6.count())];
    'four: for (i, slot) in four.iter().enumerate() {
        let address = Addr4::from_number(first4.number() + i as u32);
        if let Some(lease) = lease4(address, slot.live_at(at)) {
            found.push(lease)?;
        }
    }
    'six: for (i, slot) in six.iter().enumerate() {
        let address = Addr6::from_number(first6.number() + i as u128);
        if let Some(lease) = lease6(address, slot.live_at(at)) {
            found.push(lease)?;
        }
    }
    Ok(())
}

/// The leases of a circuit's slots that are live at a moment, in seconds: those of its DHCPv4 pool by
/// address, then those of its DHCPv6 pool. An error where memory is refused.
pub fn leases(
    alloc: Global,
    part: &CircuitPart,
    slots: &Slots,
    at: u64,
) -> Result<Vec<Lease>, AllocError>
    ensures { IfOk result (λ found. found.items ≡ leases_at at part.now slots.now) }
{
    let mut found = Vec::new(alloc);
    add_leases(&mut found, part, slots, at)?;
    Ok(found)
}
