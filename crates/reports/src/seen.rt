//! What was seen of a circuit.
ghost use Rattle.std.specs.Prelude.{◌≡◌, ◌==◌, not};
ghost use Rattle.std.specs.Option.{option_copied};
ghost use Rattle.reports.specs.Declined.{declined_after};
ghost use Rattle.reports.specs.Seen.{kept, not_seen_yet, noticed, told_closed, told_full, told_reopening};
ghost use Rattle.reports.specs.Seen.{with_closed, with_reopening};

use crate::declined::declined_between;
use crate::once::Once;
use crate::used::{is_full4, is_full6};
use types::Slots;

/// The pools that were reported full: each of their addresses is leased or declined.
#[derive(Clone, Copy)]
pub struct Full {
    pub four: bool,
    pub six: bool,
}

/// What is told of a closed circuit that was tried again.
#[derive(Clone, Copy, PartialEq, Eq)]
pub enum Reopening {
    /// It is open again.
    Opened,
    /// It stays closed, which was not told yet.
    StaysClosed,
    Nothing,
}

/// What was seen of a circuit, look by look.
#[derive(Clone, Copy)]
pub struct Seen {
    closed: Once,
    /// Whether it stayed closed when it was tried again.
    stays: Once,
    full4: Once,
    full6: Once,
    /// How many addresses its clients have declined, up to the greatest value.
    declined: u64,
    /// What the next look is compared with: how many of its datagrams had been received, and what it kept.
    received: u64,
    slots: Option<Slots>,
}

impl Seen {
    /// Before the first look, by its slots. A circuit that has none is closed.
    pub fn new(slots: Option<Slots>) -> Seen
        ensures { result ≡ not_seen_yet slots }
    {
        Seen {
            closed: Once::new(slots.is_none()),
            stays: Once::new(false),
            full4: Once::new(false),
            full6: Once::new(false),
            declined: 0,
            received: 0,
            slots,
        }
    }

    /// Whether it is told that the circuit has closed, where it is closed or is not.
    pub fn tell_closed(&mut self, is_closed: bool) -> bool
        ensures told { result ≡ told_closed self.old is_closed }
        ensures next { self.new ≡ with_closed self.old is_closed }
    {
        self.closed.tell(is_closed)
    }

    /// What is told when the circuit, which was closed, was tried again and is open now or is not. Once it is open, it is told
    /// again when it closes.
    pub fn tell_reopening(&mut self, is_open: bool) -> Reopening
        ensures told { result ≡ told_reopening self.old is_open }
        ensures next { self.new ≡ with_reopening self.old is_open }
    {
        if is_open {
            self.closed = Once::new(false);
            self.stays = Once::new(false);
            return Reopening::Opened;
        }
        if self.stays.tell(true) {
            Reopening::StaysClosed
        } else {
            Reopening::Nothing
        }
    }

    /// How many addresses its clients have declined after this look.
    fn declined_after(&self, new: &Slots) -> u64
        ensures { result ≡ declined_after self.now.slots new.now self.now.declined }
    {
        match &self.slots {
            Some(old) => self.declined.saturating_add(declined_between(old, new)),
            None => self.declined,
        }
    }

    /// Counts what was declined since the slots of the last look, and says of which pools, with so many addresses, it is
    /// told that they are full.
    pub fn look(&mut self, count4: u8, count6: u8, new: &Slots) -> Full
        ensures told { result ≡ told_full self.old count4 count6 new.now }
        ensures next { self.new ≡ noticed self.old count4 count6 new.now }
    {
        self.declined = self.declined_after(new);
        Full {
            four: self.full4.tell(is_full4(&new.four, count4)),
            six: self.full6.tell(is_full6(&new.six, count6)),
        }
    }

    /// Keeps what the next look is compared with: the slots, and how many datagrams of the circuit were received.
    pub fn keep(&mut self, slots: Option<Slots>, received: u64)
        ensures { self.new ≡ kept self.old slots received }
    {
        self.slots = slots;
        self.received = received;
    }

    /// Whether datagrams were received since the last look, of which there are so many now.
    pub fn has_traffic(&self, received: u64) -> bool
        ensures { result ≡ not (self.now.received == received) }
    {
        self.received != received
    }

    /// How many addresses the circuit's clients have declined, up to the greatest value.
    pub fn declined(&self) -> u64
        ensures { result ≡ self.now.declined }
    {
        self.declined
    }

    /// The slots of the last look.
    pub fn slots(&self) -> Option<&Slots>
        ensures { option_copied result ≡ self.now.slots }
    {
        self.slots.as_ref()
    }
}
