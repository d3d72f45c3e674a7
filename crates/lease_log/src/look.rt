//! Two looks at the slots of a circuit.
ghost use Rattle.std.specs.Prelude.{◌≡◌};
ghost use Rattle.lease_log.specs.Look.{address4, address6, end_of, slot4, slot6, start_of};

use crate::change::{Change, end4, end6, start4, start6};
use config::CircuitPart;
use types::{Addr4, Addr6, MAX_POOL, Moment, Slot4, Slot6, Slots};

/// The DHCPv4 address of this slot; `None` past the pool's end.
fn address4(part: &CircuitPart, slot: usize) -> Option<Addr4>
    ensures { result ≡ address4 part.now slot }
{
    let pool = part.pool4();
    if slot >= usize::from(pool.count()) {
        return None;
    }
    Some(Addr4::from_number(pool.first().number() + slot as u32))
}

/// The DHCPv6 address of this slot; `None` past the pool's end.
fn address6(part: &CircuitPart, slot: usize) -> Option<Addr6>
    ensures { result ≡ address6 part.now slot }
{
    let pool = part.pool6();
    if slot >= usize::from(pool.count()) {
        return None;
    }
    Some(Addr6::from_number(pool.first().number() + slot as u128))
}

/// What a DHCPv4 slot holds at a moment; past the last slot nothing.
fn slot4(slots: &Slots, slot: usize, at: Moment) -> Slot4
    ensures { result ≡ slot4 slots.now slot at }
{
    match slots.four.get(slot) {
        Some(held) => held.live_at(at.seconds()),
        None => Slot4::Free,
    }
}

/// What a DHCPv6 slot holds at a moment; past the last slot nothing.
fn slot6(slots: &Slots, slot: usize, at: Moment) -> Slot6
    ensures { result ≡ slot6 slots.now slot at }
{
    match slots.six.get(slot) {
        Some(held) => held.live_at(at.seconds()),
        None => Slot6::Free,
    }
}

/// What became of the client that had a slot at the earlier look, if it has it no longer. The slots 0 to 15 are
/// those of the DHCPv4 pool, 16 to 31 those of the DHCPv6 pool. The clock of the slots at the earlier look is the
/// moment of that look, so that what had run out by then is not told again.
pub fn end_of(
    part: &CircuitPart,
    slot: usize,
    old: &Slots,
    new: &Slots,
    now: Moment,
) -> Option<Change>
    ensures { result ≡ end_of part.now slot old.now new.now now }
{
    if slot < MAX_POOL {
        let address = address4(part, slot)?;
        let (before, after) = (slot4(old, slot, old.clock), slot4(new, slot, now));
        end4(address, before, after, now.seconds())
    } else {
        let six = slot - MAX_POOL;
        let address = address6(part, six)?;
        let (before, after) = (slot6(old, six, old.clock), slot6(new, six, now));
        end6(address, before, after, now.seconds())
    }
}

/// The client that has a slot now and did not have it at the earlier look; the slots and the looks are those of
/// `end_of`.
pub fn start_of(
    part: &CircuitPart,
    slot: usize,
    old: &Slots,
    new: &Slots,
    now: Moment,
) -> Option<Change>
    ensures { result ≡ start_of part.now slot old.now new.now now }
{
    if slot < MAX_POOL {
        let address = address4(part, slot)?;
        let (before, after) = (slot4(old, slot, old.clock), slot4(new, slot, now));
        start4(address, before, after, now.seconds())
    } else {
        let six = slot - MAX_POOL;
        let address = address6(part, six)?;
        let (before, after) = (slot6(old, six, old.clock), slot6(new, six, now));
        start6(address, before, after, now.seconds())
    }
}
