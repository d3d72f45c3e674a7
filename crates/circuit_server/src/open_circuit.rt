//! What the server has of an open circuit.
ghost use Rattle.std.specs.Prelude.{◌≡◌, ◌<◌, ◌≤◌, ◌+◌, true, option_map, IfSome, Some};
ghost use Rattle.types.specs.Slots.{last_until};
ghost use Rattle.slots.specs.Kept.{AreWithin};
ghost use Rattle.circuit_server.specs.Deadlines.{held_until};
ghost use Rattle.circuit_server.specs.Leases.{book_in, found_book};
ghost use Rattle.circuit_server.specs.Prepared.{saving_of};
ghost use Rattle.circuit_server.specs.Server.{book_at, kept_book};
ghost use Rattle.circuit_server.specs.CircuitServerValue.{HasFoundBook, HasPools, IsReadyFor, counts_in, kept_slots, open_book};
ghost use Rattle.circuit_server.specs.Ticked.{open_at};
ghost use Rattle.lease_disk.specs.Book.{IsBook};
ghost use Rattle.circuit_server.specs.Restarted.{SettlesOne};
ghost use Rattle.lease_disk.specs.Device.{IsCalledWithin, TouchesNothing};
ghost use Rattle.lease_disk.specs.Layout.{is_format2};
ghost use Rattle.lease_disk.specs.Region.{IsClean, Region};

use bindings_v4::Book4;
use bindings_v6::Book6;
use config::CircuitPart;
use lease_disk::{Content, Disk, Marks, Saving, recover};
use std::marker::Model;
use types::{FIRST_SLOT6, Moment, Slot4, Slot6, Slots};

/// An open circuit: its clock, its book of each protocol, and what the next save has to know of its
/// region.
#[derive(Drop)]
pub(crate) struct OpenCircuit {
    pub(crate) clock: Moment,
    pub(crate) four: Book4,
    pub(crate) six: Book6,
    pub(crate) marks: Marks,
}

impl Model for OpenCircuit {
    ghost use Rattle.slots.specs.Kept.{AreOffersWithin, AreWithin};
    ghost use Rattle.circuit_server.specs.CircuitServerValue.{OpenCircuitValue};

    ghost Value = { OpenCircuitValue };

    ghost view = { λ o. record { clock = o.clock; four = o.four; six = o.six; marks = o.marks } };

    ghost invariant = { λ o. AreWithin o.four.slots × AreWithin o.six.slots × AreOffersWithin o.four.slots × AreOffersWithin o.six.slots };
}

impl OpenCircuit {
    /// The circuit with the books that its region means, at the kept clock; `None` where the region
    /// cannot be read or is damaged.
    pub(crate) fn recover<D: Disk>(part: &CircuitPart, disk: &mut D) -> Option<OpenCircuit>
        requires { part.now.region < (D.device disk.old).count }
        ensures pools { HasPools part.now result }
        ensures found { HasFoundBook (record { part = part.now; state = result }) }
        ensures book { D.tells ≡ true → option_map open_book result ≡ found_book part.now ((D.device disk.old).region part.now.region) }
        ensures ready { D.tells ≡ true → is_format2 ((D.device disk.old).region part.now.region).byte ≡ true
            → (((D.device disk.old).region part.now.region).readable ≡ true → IsClean ((D.device disk.old).region part.now.region))
            → IsReadyFor ((D.device disk.old).region part.now.region) result }
        ensures frame { TouchesNothing D.tells (D.device disk.old) (D.device disk.new) }
        ensures calls { IsCalledWithin 1 2 0 (D.device disk.old) (D.device disk.new) }
        ensures doubt { SettlesOne part.now.region result (D.doubt disk.old) (D.doubt disk.new) }
    {
        let Ok((slots, marks)) = recover(part.region(), disk, part.counts()) else {
            return None;
        };
        Some(OpenCircuit {
            clock: slots.clock,
            four: Book4::new(part.pool4(), &slots),
            six: Book6::new(part.pool6(), &slots),
            marks,
        })
    }

    /// Moves the clock to this moment, where it is a later one.
    pub(crate) fn tick(&mut self, now: Moment)
        ensures value { self.new ≡ open_at now self.old }
        ensures later { self.old.clock ≤ self.new.clock }
        ensures book { open_book self.new ≡ book_at now (open_book self.old) }
        ensures ready { (region : Region) → IsReadyFor region (Some self.old) → IsReadyFor region (Some self.new) }
    {
        let later = self.clock.later(now);
        bindings_v4::laws::expires_by_the_clock(&self.four, self.clock, later);
        bindings_v6::laws::expires_by_the_clock(&self.six, self.clock, later);
        self.clock = later;
    }

    /// Until when a slot of the circuit is held, live or expired, in seconds.
    pub(crate) fn until(&self, slot: usize) -> Option<u64>
        requires { slot < 32 }
        ensures value { result ≡ held_until self.now slot }
        ensures most { IfSome result (λ until. until ≤ last_until) }
    {
        if slot < FIRST_SLOT6 {
            self.four.until(slot)
        } else {
            self.six.until(slot - FIRST_SLOT6)
        }
    }

    /// What is kept of the circuit at this moment, or at its own clock where that is a later one: live bindings and bars.
    pub(crate) fn slots_at(&self, now: Moment) -> Slots
        ensures { result ≡ kept_slots (open_at now self.now) }
    {
        let mut slots = Slots {
            four: [Slot4::Free; 16],
            six: [Slot6::Free; 16],
            clock: self.clock.later(now),
        };
        self.four.put(&mut slots);
        self.six.put(&mut slots);
        slots
    }

    /// What a save is to be given, where this slot of the region is to hold this from the circuit's clock on. What the region
    /// then keeps is a book.
    pub(crate) fn saving(&self, part: &CircuitPart, slot: usize, content: Content) -> Saving
        requires { HasPools part.now (Some self.now) }
        ensures value { result ≡ saving_of part.now self.now (slot, content) }
        ensures book { IsBook (counts_in self.now) (kept_slots self.now) }
        ensures means { book_in part.now (kept_slots self.now) ≡ kept_book (open_book self.now) }
    {
        bindings_v4::laws::keeps_a_book(&self.four, self.clock);
        bindings_v6::laws::keeps_a_book(&self.six, self.clock);
        Saving {
            region: part.region(),
            clock: self.clock,
            slot,
            content,
            marks: self.marks,
            failed: 0,
        }
    }
}
