//! Which regions are in doubt: what a read of them gives may not be on the disk.
ghost use Rattle.std.specs.Prelude.{◌≡◌, ◌≢◌, ◌<◌, ℕ, true, false};
ghost use Rattle.lease_disk.specs.Device.{StaySettled, is_in};
ghost use Rattle.lease_disk.specs.FileDisk.{all_in_doubt, in_doubt, or_listed};

use std::marker::Model;

/// The greatest number of regions that a file has as a device.
pub const MAX_REGIONS: u16 = 1024;

/// Of each region, whether it is in doubt. What is past the last one is.
#[derive(Drop)]
pub struct Doubts {
    regions: [bool; MAX_REGIONS as usize],
}

impl Model for Doubts {
    ghost use Rattle.std.specs.Prelude.{List, Bool};

    ghost Value = { List Bool };

    ghost view = { λ d. d.regions };
}

impl Doubts {
    /// All regions are.
    #[tactic(auto, unfolding(crate::specs::FileDisk::all_in_doubt))]
    pub fn all() -> Doubts
        ensures { result ≡ all_in_doubt }
    {
        Doubts {
            regions: [true; MAX_REGIONS as usize],
        }
    }

    pub fn is_in_doubt(&self, region: u16) -> bool
        ensures { result ≡ in_doubt self.now region }
    {
        match self.regions.get(usize::from(region)) {
            Some(doubt) => *doubt,
            None => true,
        }
    }

    fn set(&mut self, region: u16, doubt: bool)
        requires { region < 1024 }
        ensures own { in_doubt self.new region ≡ doubt }
        ensures others { (q : ℕ) → q ≢ region → in_doubt self.new q ≡ in_doubt self.old q }
    {
        self.regions[usize::from(region)] = doubt;
    }

    /// The region is no longer in doubt.
    pub fn settle(&mut self, region: u16)
        requires { region < 1024 }
        ensures own { in_doubt self.new region ≡ false }
        ensures others { (q : ℕ) → q ≢ region → in_doubt self.new q ≡ in_doubt self.old q }
    {
        self.set(region, false);
    }

    /// A region that is not in doubt by `unwritten` is no longer in doubt.
    fn settle_if_written(&mut self, region: u16, unwritten: &Doubts)
        ensures own { region < 1024 → in_doubt unwritten.now region ≡ false → in_doubt self.new region ≡ false }
        ensures stay { StaySettled (in_doubt self.old) (in_doubt self.new) }
    {
        if region < MAX_REGIONS && !unwritten.is_in_doubt(region) {
            self.settle(region);
        }
    }

    /// Those of these regions that are not in doubt by `unwritten` are no longer in doubt.
    pub fn settle_written(&mut self, regions: &[u16], unwritten: &Doubts)
        ensures settled { (q : ℕ) → is_in regions.now q ≡ true → q < 1024 → in_doubt unwritten.now q ≡ false
            → in_doubt self.new q ≡ false }
        ensures stay { StaySettled (in_doubt self.old) (in_doubt self.new) }
    {
        'regions: for index in 0..regions.len() {
            self.settle_if_written(regions[index], unwritten);
        }
    }

    /// Each of these regions is in doubt now.
    pub fn put_in_doubt(&mut self, regions: &[u16])
        requires { (r : ℕ) → is_in regions.now r ≡ true → r < 1024 }
        ensures { (q : ℕ) → in_doubt self.new q ≡ or_listed regions.now (in_doubt self.old) q }
    {
        'regions: for index in 0..regions.len() {
            self.set(regions[index], true);
        }
    }
}
