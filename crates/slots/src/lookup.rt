//! The first slot of a list that passes a test.
ghost use Rattle.std.specs.Prelude.{◌≡◌, ◌<◌, length, IfSome};
ghost use Rattle.std.specs.List.{position};
ghost use Rattle.slots.specs.Lookup.{is_vacant, is_bound_to};
ghost use Rattle.slots.specs.Slots.{is_clients};

use crate::holder::{Holder, is_bound_to, is_clients, is_vacant};

/// The slot that this client has a live binding of.
pub(crate) fn first_bound<K: PartialEq>(
    slots: &[Option<Holder<K>>],
    client: &K,
    clock: u64,
) -> Option<usize>
    ensures slot { result ≡ position (is_bound_to K.eq clock client.now) slots.now }
    ensures below { IfSome result (λ slot. slot < length slots.now) }
{
    slots
        .iter()
        .position(|slot| is_bound_to(slot, client, clock))
}

/// The first vacant slot.
pub(crate) fn first_vacant<K>(slots: &[Option<Holder<K>>], clock: u64) -> Option<usize>
    ensures slot { result ≡ position (is_vacant clock) slots.now }
    ensures below { IfSome result (λ slot. slot < length slots.now) }
{
    slots.iter().position(|slot| is_vacant(slot, clock))
}

/// The first slot that is this client's, expired or not.
pub(crate) fn first_of_client<K: PartialEq>(
    slots: &[Option<Holder<K>>],
    client: &K,
) -> Option<usize>
    ensures slot { result ≡ position (is_clients K.eq client.now) slots.now }
    ensures below { IfSome result (λ slot. slot < length slots.now) }
{
    slots.iter().position(|slot| is_clients(slot, client))
}
