//! A device in memory.
ghost use Rattle.std.specs.List.{list_any};
ghost use Rattle.std.specs.Prelude.{ℕ, ◌≡◌, ◌<◌, ◌-◌, ◌==◌, true, false, length, slice_index, if◌then◌else◌};
ghost use Rattle.lease_disk.specs.Device.{is_in};
ghost use Rattle.lease_disk.specs.Crash.{formatted_region};
ghost use Rattle.lease_disk.specs.Model.{region_of, stored_at};
ghost use Rattle.lease_disk.specs.Region.{synced};

use crate::bytes::{overwrite, put};
use crate::device::{Disk, Fault, REGION};
use crate::failures::Failures;
use crate::format2::format_bytes;
use crate::image::Image;
use crate::unsynced::Unsynced;
use std::alloc::{AllocError, Global};
use std::marker::Model;
use types::Count;

/// One region in memory.
#[derive(Drop)]
pub struct Stored {
    bytes: [u8; REGION],
    unsynced: Unsynced,
    readable: bool,
}

/// A device in memory. It tells what its regions hold.
#[derive(Drop)]
pub struct ModelDisk {
    regions: Vec<Stored>,
    // which write or sync of each region fails, counted from now on; 0 for none. They lie apart from the
    // bytes, so that setting one touches no memory of its region.
    failing_calls: Vec<u8>,
    reads: Count,
    writes: Count,
    failures: Failures,
    syncs: u32,
}

impl Model for ModelDisk {
    ghost use Rattle.std.specs.Prelude.{◌≡◌, ◌<◌, length};
    ghost use Rattle.lease_disk.specs.Model.{ModelDiskValue};

    ghost Value = { ModelDiskValue };

    ghost view = { λ d. record {
      regions = d.regions.items;
      failing_calls = d.failing_calls.items;
      reads = d.reads.count;
      writes = d.writes.count;
      failures = d.failures.regions;
      syncs = d.syncs;
    } };

    ghost invariant = { λ d. (length d.regions.items < 65536) × (length d.failing_calls.items ≡ length d.regions.items) };
}

/// A region that was just formatted.
fn fresh() -> Stored
    ensures { region_of result ≡ formatted_region }
{
    let mut bytes = [0; REGION];
    format_bytes(&mut bytes);
    Stored {
        bytes,
        unsynced: Unsynced::none(),
        readable: true,
    }
}

/// Counts one call, and tells whether it is the one that fails.
fn burn(failing_call: &mut u8) -> bool
    ensures fails { result ≡ (failing_call.old == 1) }
    ensures failing_call { failing_call.new ≡ failing_call.old - 1 }
{
    let fails = *failing_call == 1;
    *failing_call = failing_call.saturating_sub(1);
    fails
}

/// Counts one call of each of these regions, and tells whether it is the one that fails of any.
fn burn_all(failing_calls: &mut [u8], regions: &[u16]) -> bool
    requires { (r : ℕ) → is_in regions.now r ≡ true → r < length failing_calls.old }
    ensures fails { result ≡ list_any (λ r. slice_index failing_calls.old r == 1) regions.now }
    ensures failing_calls { (r : ℕ) → slice_index failing_calls.new r
        ≡ (if is_in regions.now r then slice_index failing_calls.old r - 1 else slice_index failing_calls.old r) }
    ensures size { length failing_calls.new ≡ length failing_calls.old }
{
    let mut fails = false;
    'regions: for index in 0..regions.len() {
        let region = regions[index];
        // a region that stands twice is called once
        if !regions[..index].contains(&region) {
            fails |= burn(&mut failing_calls[usize::from(region)]);
        }
    }
    fails
}

/// Syncs each of these regions.
fn clear_all(stored: &mut [Stored], regions: &[u16])
    requires { (r : ℕ) → is_in regions.now r ≡ true → r < length stored.old }
    ensures synced { (r : ℕ) → region_of (stored_at stored.new r)
        ≡ (if is_in regions.now r then synced (region_of (stored_at stored.old r)) else region_of (stored_at stored.old r)) }
    ensures size { length stored.new ≡ length stored.old }
{
    'regions: for index in 0..regions.len() {
        stored[usize::from(regions[index])].unsynced.clear();
    }
}

impl ModelDisk {
    ghost use Rattle.std.specs.Prelude.{ℕ, ◌≡◌, ◌+◌, ◌<◌, ◌≤◌, [], length, IfOk};
    ghost use Rattle.lease_disk.specs.Crash.{crashed, filled, formatted_region, loaded};
    ghost use Rattle.lease_disk.specs.Model.{disk_region, failing_call_of, SameBut};
    ghost use Rattle.lease_disk.specs.Region.{IsClean, IsRead};

    /// A device of so many formatted regions, in which nothing is unsynced. Its memory is all taken here;
    /// an error where some is refused.
    pub fn new(alloc: Global, regions: u16) -> Result<ModelDisk, AllocError>
        ensures count { IfOk result (λ disk. length disk.regions ≡ regions) }
        ensures formatted { IfOk result (λ disk. (q : ℕ) → q < regions → disk_region disk q ≡ formatted_region) }
        ensures synced { IfOk result (λ disk. (q : ℕ) → IsClean (disk_region disk q)) }
        ensures failing_calls { IfOk result (λ disk. (q : ℕ) → q < regions → failing_call_of disk q ≡ 0) }
        ensures reads { IfOk result (λ disk. disk.reads ≡ 0) }
        ensures writes { IfOk result (λ disk. disk.writes ≡ 0) }
        ensures failures { IfOk result (λ disk. disk.failures ≡ []) }
        ensures syncs { IfOk result (λ disk. disk.syncs ≡ 0) }
    {
        let mut stored = Vec::with_capacity(alloc, usize::from(regions))?;
        'regions: for _ in 0..regions {
            stored.push(fresh())?;
        }
        let failing_calls = Vec::from_elem(alloc, 0, usize::from(regions))?;
        Ok(ModelDisk {
            regions: stored,
            failing_calls,
            reads: Count::new(),
            writes: Count::new(),
            failures: Failures::new(),
            syncs: 0,
        })
    }

    /// From now on the k-th write or sync of this region fails; none where k is 0.
    pub fn fail_at(&mut self, region: u16, k: u8)
        requires { region < length self.old.regions }
        ensures failing_call { failing_call_of self.new region ≡ k }
        ensures state { disk_region self.new region ≡ disk_region self.old region }
        ensures others { SameBut region self.old self.new }
    {
        self.failing_calls[usize::from(region)] = k;
    }

    /// Stops the device and starts it again: a region then is as the image says.
    pub fn crash(&mut self, region: u16, image: Image)
        requires { region < length self.old.regions }
        ensures state { disk_region self.new region ≡ crashed image (disk_region self.old region) }
        ensures failing_call { failing_call_of self.new region ≡ failing_call_of self.old region }
        ensures others { SameBut region self.old self.new }
    {
        let stored = &mut self.regions[usize::from(region)];
        match image {
            Image::Byte(byte) => {
                stored.unsynced.settle(&mut stored.bytes, byte);
                stored.unsynced.clear();
                stored.readable = true;
            }
            Image::Unreadable => stored.readable = false,
        }
    }

    /// Gives each byte of a region one value, as if it had always been there.
    pub fn fill(&mut self, region: u16, byte: u8)
        requires { region < length self.old.regions }
        ensures state { disk_region self.new region ≡ filled byte (disk_region self.old region) }
        ensures synced { ((q : ℕ) → IsClean (disk_region self.old q)) → (q : ℕ) → IsClean (disk_region self.new q) }
        ensures failing_call { failing_call_of self.new region ≡ failing_call_of self.old region }
        ensures others { SameBut region self.old self.new }
    {
        overwrite(&mut self.regions[usize::from(region)].bytes, byte);
    }

    /// Puts bytes in a region from an offset on, as if they had always been there.
    pub fn load(&mut self, region: u16, at: usize, bytes: &[u8])
        requires exists { region < length self.old.regions }
        requires fits { at + length bytes.now ≤ 32768 }
        ensures state { disk_region self.new region ≡ loaded at bytes.now (disk_region self.old region) }
        ensures failing_call { failing_call_of self.new region ≡ failing_call_of self.old region }
        ensures others { SameBut region self.old self.new }
    {
        put(&mut self.regions[usize::from(region)].bytes, at, bytes);
    }

    /// Which write or sync of this region from now on fails; 0 for none.
    pub fn fault(&self, region: u16) -> u8
        requires { region < length self.now.regions }
        ensures { result ≡ failing_call_of self.now region }
    {
        self.failing_calls[usize::from(region)]
    }

    /// How many syncs there were, of one region or of several by one call; it stays at its greatest value.
    pub fn syncs(&self) -> u32
        ensures { result ≡ self.now.syncs }
    {
        self.syncs
    }

    /// The bytes of a region as a read gives them, though none is made.
    pub fn bytes(&self, region: u16) -> &[u8]
        requires { region < length self.now.regions }
        ensures bytes { IsRead (disk_region self.now region) 0 result.now }
        ensures all { length result.now ≡ 32768 }
    {
        &self.regions[usize::from(region)].bytes
    }
}

impl Disk for ModelDisk {
    ghost use Rattle.std.specs.Prelude.{◌≡◌, ◌+◌, ◌-◌, ◌==◌, ◌<◌, ◌≤◌, not, true, false, length, is_ok, OnOk, OnErr};
    ghost use Rattle.lease_disk.specs.Device.{KeepsSettled, Touches};
    ghost use Rattle.lease_disk.specs.Model.{device_of, left_in_doubt, disk_region, nothing_in_doubt};
    ghost use Rattle.lease_disk.specs.Region.{IsTorn, faults_after, written};

    ghost tells = { true };

    ghost device = { device_of };

    ghost doubt = { nothing_in_doubt };

    fn regions(&self) -> u16 {
        self.regions.len() as u16
    }

    fn read(&mut self, region: u16, at: usize, out: &mut [u8]) -> Result<(), Fault> {
        self.reads.tick();
        let stored = &self.regions[usize::from(region)];
        if !stored.readable {
            self.failures.note(region);
            return Err(Fault);
        }
        out.copy_from_slice(&stored.bytes[at..at + out.len()]);
        Ok(())
    }

    fn write_at(&mut self, region: u16, at: usize, bytes: &[u8]) -> Result<(), Fault>
        requires exists { region < length self.old.regions }
        requires fits { at + length bytes.now ≤ 32768 }
        ensures ok { true ≡ true → OnOk result
            ((device_of self.new).region region ≡ written at bytes.now ((device_of self.old).region region)) }
        ensures err { true ≡ true → OnErr result
            (IsTorn at (length bytes.now) ((device_of self.old).region region) ((device_of self.new).region region)) }
        ensures answer { true ≡ true → is_ok result ≡ not ((device_of self.old).failing_call region == 1) }
        ensures failing_call { true ≡ true → (device_of self.new).failing_call region ≡ (device_of self.old).failing_call region - 1 }
        ensures frame { Touches true region (device_of self.old) (device_of self.new) }
        ensures writes { (device_of self.new).writes ≡ (device_of self.old).writes + 1 }
        ensures failures { (device_of self.new).failures ≡ faults_after region result (device_of self.old).failures }
        ensures settled { KeepsSettled region result (nothing_in_doubt self.old) (nothing_in_doubt self.new) }
        // and the bytes stay after a fault
        ensures left_in_doubt { OnErr result
            (disk_region self.new region ≡ left_in_doubt at (length bytes.now) (disk_region self.old region)) }
    {
        self.writes.tick();
        let fails = burn(&mut self.failing_calls[usize::from(region)]);
        let stored = &mut self.regions[usize::from(region)];
        stored.unsynced.mark(at, bytes.len());
        if fails {
            self.failures.note(region);
            return Err(Fault);
        }
        put(&mut stored.bytes, at, bytes);
        Ok(())
    }

    fn sync(&mut self, region: u16) -> Result<(), Fault> {
        self.writes.tick();
        self.syncs = self.syncs.saturating_add(1);
        if burn(&mut self.failing_calls[usize::from(region)]) {
            self.failures.note(region);
            return Err(Fault);
        }
        self.regions[usize::from(region)].unsynced.clear();
        Ok(())
    }

    fn sync_set(&mut self, regions: &[u16]) -> Result<(), Fault> {
        self.writes.tick();
        self.syncs = self.syncs.saturating_add(1);
        if burn_all(&mut self.failing_calls, regions) {
            self.failures.note_all(regions);
            return Err(Fault);
        }
        clear_all(&mut self.regions, regions);
        Ok(())
    }
}
