//! How many addresses of a pool are leased or declined.
ghost use Rattle.std.specs.Prelude.{◌≡◌};
ghost use Rattle.reports.specs.Used.{is_full4, is_full6, is_used4, is_used6, used4, used6};

use types::{Slot4, Slot6};

/// Whether nobody can get the address of this slot now.
fn is_used4(slot: &Slot4) -> bool
    ensures { result ≡ is_used4 slot.now }
{
    !matches!(slot, Slot4::Free)
}

/// How many of the first so many addresses of a DHCPv4 pool are leased or declined.
pub fn used4(slots: &[Slot4], count: u8) -> usize
    ensures { result ≡ used4 slots.now count }
{
    let pool = slots.iter().take(usize::from(count));
    pool.filter(|slot| is_used4(slot)).count()
}

/// Whether each address of a DHCPv4 pool with so many is leased or declined.
pub fn is_full4(slots: &[Slot4], count: u8) -> bool
    ensures { result ≡ is_full4 slots.now count }
{
    used4(slots, count) == usize::from(count)
}

/// Whether nobody can get the address of this slot now.
fn is_used6(slot: &Slot6) -> bool
    ensures { result ≡ is_used6 slot.now }
{
    !matches!(slot, Slot6::Free)
}

/// How many of the first so many addresses of a DHCPv6 pool are leased or declined.
pub fn used6(slots: &[Slot6], count: u8) -> usize
    ensures { result ≡ used6 slots.now count }
{
    let pool = slots.iter().take(usize::from(count));
    pool.filter(|slot| is_used6(slot)).count()
}

/// Whether each address of a DHCPv6 pool with so many is leased or declined.
pub fn is_full6(slots: &[Slot6], count: u8) -> bool
    ensures { result ≡ is_full6 slots.now count }
{
    used6(slots, count) == usize::from(count)
}
