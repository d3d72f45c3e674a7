//! What a slot of a pool holds.
ghost use Rattle.std.specs.Prelude.{◌≡◌, option_map};
ghost use Rattle.slots.specs.Kept.{kept};
ghost use Rattle.slots.specs.Maps.{is_live};
ghost use Rattle.slots.specs.Lookup.{until_of, live, is_vacant, is_bound, is_bound_to, is_offered};
ghost use Rattle.slots.specs.Slots.{client_of, is_clients};

/// Who holds an address, and the moment until which it is held, in seconds.
#[derive(Clone, Copy, PartialEq, Eq)]
pub enum Holder<K> {
    /// Leased to this client.
    Bound(K, u64),
    /// Offered to this client, which has not asked for it yet.
    Offered(K, u64),
    /// A client declined it: it is given to nobody.
    Barred(u64),
}

impl<K> Holder<K> {
    pub fn until(&self) -> u64
        ensures { result ≡ until_of self.now }
    {
        match self {
            Holder::Bound(_, until) => *until,
            Holder::Offered(_, until) => *until,
            Holder::Barred(until) => *until,
        }
    }
}

/// Whether what is held until this moment is held at this clock.
fn is_live(clock: u64, until: u64) -> bool
    ensures { result ≡ is_live clock until }
{
    clock < until
}

/// Whether nobody holds the slot any more.
pub fn is_vacant<K>(slot: &Option<Holder<K>>, clock: u64) -> bool
    ensures { result ≡ is_vacant clock slot.now }
{
    match slot {
        None => true,
        Some(holder) => !is_live(clock, holder.until()),
    }
}

/// Whether this client has a live binding of the slot.
pub fn is_bound_to<K: PartialEq>(slot: &Option<Holder<K>>, client: &K, clock: u64) -> bool
    ensures { result ≡ is_bound_to K.eq clock client.now slot.now }
{
    match slot {
        Some(Holder::Bound(key, until)) => is_live(clock, *until) && client == key,
        _ => false,
    }
}

/// Whether somebody has a live binding of the slot.
pub(crate) fn is_bound<K>(slot: &Option<Holder<K>>, clock: u64) -> bool
    ensures { result ≡ is_bound clock slot.now }
{
    matches!(slot, Some(Holder::Bound(_, until)) if is_live(clock, *until))
}

/// Whether somebody has a live offer of the slot.
pub(crate) fn is_offered<K>(slot: &Option<Holder<K>>, clock: u64) -> bool
    ensures { result ≡ is_offered clock slot.now }
{
    matches!(slot, Some(Holder::Offered(_, until)) if is_live(clock, *until))
}

/// The client that the slot is bound or offered to, expired or not.
pub fn client_of<K>(slot: &Option<Holder<K>>) -> Option<&K>
    ensures { option_map (λ key. key.now) result ≡ client_of slot.now }
{
    match slot {
        Some(Holder::Bound(key, _) | Holder::Offered(key, _)) => Some(key),
        _ => None,
    }
}

/// Whether the slot is this client's, by a binding or an offer, expired or not.
// inlined into the walk over a table, in which most slots differ in the first byte that is looked at
#[inline(always)]
pub fn is_clients<K: PartialEq>(slot: &Option<Holder<K>>, client: &K) -> bool
    ensures { result ≡ is_clients K.eq client.now slot.now }
{
    match slot {
        Some(Holder::Bound(key, _) | Holder::Offered(key, _)) => client == key,
        Some(Holder::Barred(_)) | None => false,
    }
}

/// The holder that a slot has at this clock: what has expired counts no longer.
pub fn live<K: Copy>(slot: Option<Holder<K>>, clock: u64) -> Option<Holder<K>>
    ensures { result ≡ live clock slot }
{
    let holder = slot?;
    if is_live(clock, holder.until()) {
        Some(holder)
    } else {
        None
    }
}

/// What is kept of a slot: an offer is in memory only, and what has expired counts no longer.
pub fn kept<K: Copy>(slot: Option<Holder<K>>, clock: u64) -> Option<Holder<K>>
    ensures { result ≡ kept clock slot }
{
    match live(slot, clock) {
        Some(Holder::Offered(_, _)) => None,
        lasting => lasting,
    }
}
