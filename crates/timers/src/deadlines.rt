//! The table of deadlines.
ghost use Rattle.std.specs.Prelude.{◌≡◌, ℕ, ◌+◌, ◌<◌, ◌≤◌, ◌↔◌, length, replicate, slice_set, IfOk, IfNone, IfSome, IsNone};
ghost use Rattle.types.specs.Slots.{last_until};
ghost use Rattle.timers.specs.Deadlines.{deadline};

use crate::rows::Rows;
use std::alloc::{AllocError, Global};
use std::marker::Model;
use types::{Count, Moment};

/// Stands for no deadline: later than every deadline.
const NEVER: u64 = u64::MAX;

/// Until when each slot has a deadline, in seconds. A slot has one deadline at most. Contracts see how often an entry
/// was looked at: each call of `last`, of `due` and of `get` is a look.
#[derive(Drop)]
pub struct Deadlines {
    rows: Rows,
    examined: Count,
}

impl Model for Deadlines {
    ghost use Rattle.std.specs.Prelude.{map};
    ghost use Rattle.timers.specs.Deadlines.{DeadlinesValue};
    ghost use Rattle.timers.specs.Layout.{entry_of};

    ghost Value = { DeadlinesValue };

    ghost view = { λ d. record { slots = map entry_of d.rows; examined = d.examined.count } };
}

impl Deadlines {
    /// No deadline of so many slots, which are at most those of 1024 circuits. Takes all memory, in two
    /// requests; an error only where one is refused.
    pub fn new(alloc: Global, slots: usize) -> Result<Deadlines, AllocError>
        requires least { 1 ≤ slots }
        requires most { slots ≤ 32768 }
        ensures { IfOk result (λ d. d ≡ record { slots = replicate slots None; examined = 0 }) }
    {
        Ok(Deadlines {
            rows: Rows::new(alloc, slots, NEVER)?,
            examined: Count::new(),
        })
    }

    /// How many slots there are.
    pub fn count(&self) -> usize
        ensures { result ≡ length self.now.slots }
    {
        self.rows.count()
    }

    /// Replaces the slot's deadline.
    pub fn set(&mut self, slot: usize, until: u64)
        requires slot { slot < length self.old.slots }
        requires until { until ≤ last_until }
        ensures { self.new ≡ record self.old { slots = slice_set self.old.slots slot (Some until) } }
    {
        self.rows.set(slot, until);
    }

    pub fn clear(&mut self, slot: usize)
        requires { slot < length self.old.slots }
        ensures { self.new ≡ record self.old { slots = slice_set self.old.slots slot None } }
    {
        self.rows.set(slot, NEVER);
    }

    /// The slot's deadline, if it has one. Counts as one look.
    pub fn get(&mut self, slot: usize) -> Option<u64>
        requires { slot < length self.old.slots }
        ensures value { result ≡ deadline self.old slot }
        ensures slots { self.new.slots ≡ self.old.slots }
        ensures examined { self.new.examined ≡ self.old.examined + 1 }
    {
        let until = self.until(slot);
        self.examined.tick();
        until
    }

    /// A slot with the least deadline, and that deadline. Counts as one look.
    pub fn last(&mut self) -> Option<(usize, u64)>
        ensures slots { self.new.slots ≡ self.old.slots }
        ensures examined { self.new.examined ≡ self.old.examined + 1 }
        ensures none { IsNone result ↔ ((slot : ℕ) → deadline self.old slot ≡ None) }
        ensures within { IfSome result (λ entry. entry.0 < length self.old.slots) }
        ensures entry { IfSome result (λ entry. deadline self.old entry.0 ≡ Some entry.1) }
        ensures least { IfSome result (λ entry. (slot until : ℕ) → deadline self.old slot ≡ Some until → entry.1 ≤ until) }
    {
        self.examined.tick();
        let slot = self.rows.least_below(NEVER)?;
        Some((slot, self.rows.get(slot)))
    }

    /// A slot with the least deadline, where that is due, which is at most `now`. Counts as one look.
    pub(crate) fn due(&mut self, now: Moment) -> Option<usize>
        ensures slots { self.new.slots ≡ self.old.slots }
        ensures examined { self.new.examined ≡ self.old.examined + 1 }
        ensures none { IfNone result ((slot until : ℕ) → deadline self.old slot ≡ Some until → now < until) }
        ensures within { IfSome result (λ slot. slot < length self.old.slots) }
        ensures due { IfSome result (λ slot. (until : ℕ) × (deadline self.old slot ≡ Some until) × (until ≤ now)) }
    {
        self.examined.tick();
        self.rows.least_below(now.seconds() + 1)
    }

    /// The deadlines of all slots, for those who may not change the table. Takes memory, and counts as no look.
    pub fn list(&self, alloc: Global) -> Result<Vec<Option<u64>>, AllocError>
        ensures { IfOk result (λ list. list.items ≡ self.now.slots) }
    {
        let mut list = Vec::with_capacity(alloc, self.count())?;
        'slots: for slot in 0..self.count() {
            list.push(self.until(slot))?;
        }
        Ok(list)
    }

    /// The slot's deadline, if it has one.
    fn until(&self, slot: usize) -> Option<u64>
        requires { slot < length self.now.slots }
        ensures { result ≡ deadline self.now slot }
    {
        let until = self.rows.get(slot);
        if until < NEVER { Some(until) } else { None }
    }
}
