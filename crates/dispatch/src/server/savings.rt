//! What the parts of a batch save.
ghost use Rattle.std.specs.Prelude.{◌≡◌, ◌<◌, ◌≤◌, ◌+◌, ◌++◌, [], length};
ghost use Rattle.std.specs.List.{cons_option};
ghost use Rattle.batch_saves.specs.Batch.{AreApart, AreReady, batch_calls, failed_of, part_at};
ghost use Rattle.dispatch.specs.Parts.{AreSavedTogether, saved_by};

use batch_saves::{Saving, save_many};
use lease_disk::{Disk, Fault, Marks};
use std::marker::Model;
use types::MAX_BATCH;

/// The saves of the parts of a batch, in order.
#[derive(Drop)]
pub(super) struct Savings {
    /// `None` before the first one, which then fills the places of those to come.
    places: Option<[Saving; MAX_BATCH]>,
    count: usize,
}

impl Model for Savings {
    ghost use Rattle.std.specs.Prelude.{List, take};
    ghost use Rattle.lease_disk.specs.declared.saving.Saving.{Saving};
    ghost use Rattle.dispatch.specs.Parts.{AreCounted, places_in};

    ghost Value = { List Saving };

    ghost view = { λ s. take s.count (places_in s.places) };

    ghost invariant = { λ s. AreCounted s.places s.count };
}

impl Savings {
    pub(super) fn new() -> Savings
        ensures { result ≡ [] }
    {
        Savings {
            places: None,
            count: 0,
        }
    }

    /// Adds what a part saves, if anything.
    pub(super) fn add(&mut self, saving: Option<Saving>)
        requires { length self.old < 16 }
        ensures { self.new ≡ self.old ++ cons_option saving [] }
    {
        let Some(saving) = saving else {
            return;
        };
        match &mut self.places {
            Some(places) => places[self.count] = saving,
            None => self.places = Some([saving; MAX_BATCH]),
        }
        self.count += 1;
    }

    fn get(&self, index: usize) -> Saving
        requires { index < length self.now }
        ensures { result ≡ part_at self.now index }
    {
        match &self.places {
            Some(places) => places[index],
            None => unreachable!(),
        }
    }

    /// What came of a part's save, where this is its place: the marks of its region, or that it failed; no marks where the part
    /// saves nothing.
    pub(super) fn outcome(
        &self,
        saving: Option<Saving>,
        place: usize,
    ) -> Result<Option<Marks>, Fault>
        requires { place + length (cons_option saving []) ≤ length self.now }
        ensures { result ≡ saved_by saving (part_at self.now place) }
    {
        if saving.is_none() {
            return Ok(None);
        }
        let saving = self.get(place);
        if saving.failed != 0 {
            return Err(Fault);
        }
        Ok(Some(saving.marks))
    }

    /// Saves them all together.
    pub(super) fn save<D: Disk>(&mut self, disk: &mut D)
        requires apart { AreApart self.old }
        requires ready { AreReady D.tells (D.device disk.old) self.old }
        ensures saved { AreSavedTogether D.tells self.old self.new (D.device disk.old) (D.device disk.new) }
        ensures calls { (D.device disk.new).writes ≡ (D.device disk.old).writes + batch_calls (failed_of self.new) }
    {
        if let Some(places) = &mut self.places {
            save_many(&mut places[..self.count], disk);
        }
    }
}
