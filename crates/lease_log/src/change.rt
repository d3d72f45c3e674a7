//! What happened to the lease of one address.
ghost use Rattle.std.specs.Prelude.{◌≡◌};
ghost use Rattle.types.specs.Slots.{same_client4, same_client6};
ghost use Rattle.lease_log.specs.Change.{end4, end6, gone, start4, start6};

use types::{Addr4, Addr6, Key4, Key6, Slot4, Slot6};

/// An address, and the client that got it or lost it.
#[derive(Clone, Copy)]
pub enum Holder {
    V4(Addr4, Key4),
    V6(Addr6, Key6),
}

/// What happened to a client's lease.
#[derive(Clone, Copy)]
pub enum Happened {
    /// It began, and lasts until this moment, in seconds.
    Leased(u64),
    /// It ended before it would have run out.
    Released,
    /// The client declined the address, which is given to nobody until this moment, in seconds.
    Declined(u64),
    /// It ran out.
    Ended,
}

/// What happened to the lease of one address, and when, in seconds.
#[derive(Clone, Copy)]
pub struct Change {
    pub moment: u64,
    pub holder: Holder,
    pub happened: Happened,
}

/// A lease that is no longer there: it ran out, or ended before that.
fn gone(holder: Holder, until: u64, now: u64) -> Change
    ensures { result ≡ gone now holder until }
{
    if until <= now {
        Change {
            moment: until,
            holder,
            happened: Happened::Ended,
        }
    } else {
        Change {
            moment: now,
            holder,
            happened: Happened::Released,
        }
    }
}

/// Whether a client has the slot both times.
fn same_client4(old: &Slot4, new: &Slot4) -> bool
    ensures { result ≡ same_client4 old.now new.now }
{
    match (old, new) {
        (Slot4::Bound(one, _), Slot4::Bound(other, _)) => one == other,
        _ => false,
    }
}

/// What became of the client that had a DHCPv4 address, by what its slot holds now.
pub fn end4(address: Addr4, old: Slot4, new: Slot4, now: u64) -> Option<Change>
    ensures { result ≡ end4 now address old new }
{
    if same_client4(&old, &new) {
        return None;
    }
    let Slot4::Bound(client, until) = old else {
        return None;
    };
    let holder = Holder::V4(address, client);
    match new {
        Slot4::Barred(barred) => Some(Change {
            moment: now,
            holder,
            happened: Happened::Declined(barred),
        }),
        _ => Some(gone(holder, until, now)),
    }
}

/// The client that has a DHCPv4 address now and did not have it before.
pub fn start4(address: Addr4, old: Slot4, new: Slot4, now: u64) -> Option<Change>
    ensures { result ≡ start4 now address old new }
{
    if same_client4(&old, &new) {
        return None;
    }
    let Slot4::Bound(client, until) = new else {
        return None;
    };
    Some(Change {
        moment: now,
        holder: Holder::V4(address, client),
        happened: Happened::Leased(until),
    })
}

/// Whether a client has the slot both times.
fn same_client6(old: &Slot6, new: &Slot6) -> bool
    ensures { result ≡ same_client6 old.now new.now }
{
    match (old, new) {
        (Slot6::Bound(one, _), Slot6::Bound(other, _)) => one == other,
        _ => false,
    }
}

/// What became of the client that had a DHCPv6 address, by what its slot holds now.
pub fn end6(address: Addr6, old: Slot6, new: Slot6, now: u64) -> Option<Change>
    ensures { result ≡ end6 now address old new }
{
    if same_client6(&old, &new) {
        return None;
    }
    let Slot6::Bound(client, until) = old else {
        return None;
    };
    let holder = Holder::V6(address, client);
    match new {
        Slot6::Barred(barred) => Some(Change {
            moment: now,
            holder,
            happened: Happened::Declined(barred),
        }),
        _ => Some(gone(holder, until, now)),
    }
}

/// The client that has a DHCPv6 address now and did not have it before.
pub fn start6(address: Addr6, old: Slot6, new: Slot6, now: u64) -> Option<Change>
    ensures { result ≡ start6 now address old new }
{
    if same_client6(&old, &new) {
        return None;
    }
    let Slot6::Bound(client, until) = new else {
        return None;
    };
    Some(Change {
        moment: now,
        holder: Holder::V6(address, client),
        happened: Happened::Leased(until),
    })
}
