//! What happened at the sockets and the clocks, which contracts see and the program does not: it takes no memory.
ghost use Rattle.std.specs.Prelude.{◌≡◌, ◌++◌, List, []};
ghost use Rattle.std.specs.Borrow.{ftrue};
ghost use Rattle.udp.specs.History.{Entry, Ticked, entries_of, idle_circuits, with_entry};
ghost use Rattle.udp.specs.EntryCode.{entries_code};

use std::marker::{Model, PhantomData};
use std::time::Duration;
use types::{Circuit, Moment, Proto, RelayNo, Source};

/// A socket by what it is for.
#[derive(Clone, Copy, PartialEq, Eq)]
pub enum Role {
    /// One of a circuit's two sockets.
    Circuit(Circuit, Proto),
    /// One of the server's two.
    Server(Proto),
    Relay(RelayNo),
}

/// One thing that happened.
#[derive(Clone, Copy)]
pub enum Happened<'a> {
    /// A datagram was taken from this socket, which came from there. Of one that is longer than the buffer these are its
    /// first bytes.
    Took(Role, Source, &'a [u8]),
    /// A receive from this socket failed.
    Failed(Role),
    /// Nothing waited at this socket: a receive found none, or the system has told of none since one did.
    Empty(Role),
    /// Nothing waited at the sockets of this protocol of so many circuits, from this index on.
    Idle(Proto, usize, usize),
    /// The system was asked to send a datagram from this socket to there, and accepted it or did not.
    Sent(Role, Source, &'a [u8], bool),
    /// The clocks were moved to this moment, with which a turn ends.
    Ticked(Moment),
    /// The system refused to bind this socket to this address.
    Refused(Role, Source),
    /// The system's clock was read: the time since 1970, or none.
    Read(Option<Duration>),
    /// The monotonic clock was read: the time since an origin that stays, or none.
    Monotonic(Option<Duration>),
}

/// A list of what happened, which has no bytes.
#[derive(Drop)]
struct Entries {
    marker: PhantomData<u8>,
    pub ghost list: { List Entry } by { entries_code },
}

impl Model for Entries {
    ghost also_owns = { λ _. ftrue };
}

impl Entries {
    /// None yet.
    fn new() -> Entries
        ensures { result.list ≡ [] }
    {
        Entries {
            marker: PhantomData,
        }
    }

    /// These, and what this adds.
    #[inline(always)]
    fn then(&self, what: &Happened<'_>) -> Entries
        ensures { result.list ≡ self.now.list ++ entries_of what.now }
    {
        Entries {
            marker: PhantomData,
        }
    }
}

/// All that happened, in order. A socket is used with the history that it was bound with, and no other: contracts tell one
/// history from another by a number that none of them gives a new one, so that nothing shows two to be the same.
#[derive(Drop)]
pub struct History {
    entries: Entries,
    id: u8,
}

impl Model for History {
    ghost use Rattle.udp.specs.History.{HistoryValue};

    ghost Value = { HistoryValue };

    ghost view = { λ h. record { entries = h.entries.list; id = h.id } };
}

impl History {
    /// Nothing happened yet.
    pub fn new() -> History
        ensures { result.entries ≡ [] }
    {
        History {
            entries: Entries::new(),
            id: 0,
        }
    }

    /// Which history this is.
    pub(crate) fn id(&self) -> u8
        ensures { result ≡ self.now.id }
    {
        self.id
    }

    /// This happened as well: whoever adds it has seen it happen.
    #[inline(always)]
    pub(crate) fn add(&mut self, what: &Happened<'_>)
        ensures entries { self.new.entries ≡ self.old.entries ++ entries_of what.now }
        ensures same { self.new.id ≡ self.old.id }
    {
        self.entries = self.entries.then(what);
    }

    /// Nothing waited at the sockets of this protocol of so many circuits either, from this index on.
    #[inline(always)]
    pub(crate) fn add_idle(&mut self, proto: Proto, from: usize, count: usize)
        ensures entries { self.new.entries ≡ self.old.entries ++ idle_circuits proto from count }
        ensures same { self.new.id ≡ self.old.id }
    {
        self.add(&Happened::Idle(proto, from, count));
    }

    /// The clocks were moved to this moment as well.
    pub fn tick(&mut self, now: Moment)
        ensures entries { self.new.entries ≡ with_entry (Ticked now) self.old.entries }
        ensures same { self.new.id ≡ self.old.id }
    {
        self.add(&Happened::Ticked(now));
    }
}
