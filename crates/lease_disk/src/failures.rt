//! Calls of a device that failed, which contracts see and the program does not: they take no memory.
ghost use Rattle.std.specs.Prelude.{◌≡◌, ◌+◌, List, [], ◌∷◌, ℕ, if◌then◌else◌};
ghost use Rattle.lease_disk.specs.Device.{is_in};
ghost use Rattle.lease_disk.specs.Failures.{count_in};
ghost use Rattle.std.specs.Borrow.{ftrue};
ghost use Rattle.std.specs.Coded.{coded_list, coded_ℕ};

use std::marker::{Model, PhantomData};

/// A call of this region failed.
#[derive(Clone, Copy)]
pub(crate) struct Failure {
    pub region: u16,
}

/// The regions whose calls failed, the last one first.
#[derive(Drop)]
pub struct Failures {
    marker: PhantomData<u8>,
    pub ghost regions: { List ℕ } by { coded_list coded_ℕ },
}

impl Model for Failures {
    ghost also_owns = { λ _. ftrue };
}

impl Failures {
    /// None failed yet.
    pub(crate) fn new() -> Failures
        ensures { result.regions ≡ [] }
    {
        Failures {
            marker: PhantomData,
        }
    }

    /// This one failed as well.
    pub(crate) fn with(&self, failure: &Failure) -> Failures
        ensures { result.regions ≡ failure.now.region ∷ self.now.regions }
    {
        Failures {
            marker: PhantomData,
        }
    }

    /// A call of this region failed as well.
    pub(crate) fn note(&mut self, region: u16)
        ensures { self.new.regions ≡ region ∷ self.old.regions }
    {
        *self = self.with(&Failure { region });
    }

    /// A call that names these regions failed as well.
    pub(crate) fn note_all(&mut self, regions: &[u16])
        ensures { (q : ℕ) → count_in self.new.regions q
            ≡ (if is_in regions.now q then count_in self.old.regions q + 1 else count_in self.old.regions q) }
    {
        'regions: for index in 0..regions.len() {
            let region = regions[index];
            if !regions[..index].contains(&region) {
                self.note(region);
            }
        }
    }
}
