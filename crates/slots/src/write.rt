//! Writing slots.
ghost use Rattle.std.specs.Prelude.{◌≡◌, ◌<◌, length, IfSome, Option, slice_set};
ghost use Rattle.std.specs.List.{position};
ghost use Rattle.slots.specs.Used.{IsUsed};
ghost use Rattle.slots.specs.declared.holder.Holder.{Holder};
ghost use Rattle.slots.specs.Slots.{AreDistinct, is_clients, without_client, with_slot};

use crate::holder::{Holder, client_of, is_clients};
use crate::key::SlotKey;
use crate::lookup::first_of_client;

/// The client's slot, expired or not, of which so many may be held.
pub(crate) fn clients_slot<K: PartialEq>(
    slots: &[Option<Holder<K>>],
    used: usize,
    client: &K,
) -> Option<usize>
    requires { IsUsed used slots.now }
    ensures slot { result ≡ position (is_clients K.eq client.now) slots.now }
    ensures below { IfSome result (λ slot. slot < length slots.now) }
{
    first_of_client(&slots[..used], client)
}

/// Gives a slot a holder. A slot past the end is ignored.
fn set_slot<K: Copy>(slots: &mut [Option<Holder<K>>], slot: usize, holder: Option<Holder<K>>)
    ensures { slots.new ≡ slice_set slots.old slot holder }
{
    if slot < slots.len() {
        slots[slot] = holder;
    }
}

/// Vacates the client's slot, of which there is at most one.
fn vacate_client<K: Copy + PartialEq>(slots: &mut [Option<Holder<K>>], used: usize, client: &K)
    requires { IsUsed used slots.old }
    ensures { slots.new ≡ without_client K.eq client.now slots.old }
{
    if let Some(slot) = clients_slot(slots, used, client) {
        set_slot(slots, slot, None);
    }
}

/// Vacates the client's slot, unless it is the one that is written next: then nobody is looked for, since no client has two.
fn vacate_other<K: SlotKey>(slots: &mut [Option<Holder<K>>], used: usize, next: usize, client: &K)
    requires used { IsUsed used slots.old }
    requires distinct { AreDistinct K.eq slots.old }
    ensures { (holder : Option (Holder K))
        → slice_set slots.new next holder ≡ slice_set (without_client K.eq client.now slots.old) next holder }
{
    if next < slots.len() && is_clients(&slots[next], client) {
        return;
    }
    vacate_client(slots, used, client);
}

/// Gives a slot a new holder, who keeps no other slot, where so many may be held before. A slot past the
/// end is ignored.
pub(crate) fn write_slot<K: SlotKey>(
    slots: &mut [Option<Holder<K>>],
    used: usize,
    slot: usize,
    holder: Option<Holder<K>>,
)
    requires used { IsUsed used slots.old }
    requires distinct { AreDistinct K.eq slots.old }
    ensures { slots.new ≡ with_slot K.eq slot holder slots.old }
{
    if let Some(client) = client_of(&holder) {
        vacate_other(slots, used, slot, client);
    }
    set_slot(slots, slot, holder);
}
