//! A device over a file.
ghost use Rattle.std.specs.Path.{path_parent};
ghost use Rattle.std.specs.Prelude.{◌≡◌, ◌≢◌, ℕ, List, [], ◌∷◌, Some, true, false, codes, ◌<◌, ◌≤◌, ◌+◌, ◌*◌, ◌↔◌, is_ok, OnOk};
ghost use Rattle.std.specs.IoError.{error_kind};
ghost use Rattle.lease_disk.specs.Device.{AreSettled, KeepsSettled, StaySettled, is_in, set_faults};
ghost use Rattle.lease_disk.specs.Failures.{count_in};
ghost use Rattle.lease_disk.specs.FileDisk.{doubt_after, in_doubt, whole_regions};
ghost use Rattle.lease_disk.specs.Region.{faults_after};

use crate::device::{Disk, Fault, REGION};
use crate::doubts::{Doubts, MAX_REGIONS};
use crate::failures::Failures;
use std::fs::{self, File, OpenOptions};
use std::io;
use std::io::ErrorKind;
use std::marker::Model;
use std::os::unix::fs::{FileExt, MetadataExt};
use std::path::Path;
use std::rt::Files;
use thiserror::Error;
use types::Count;

/// Why a file does not serve as a device.
#[derive(Clone, Copy, Debug, PartialEq, Eq, Error)]
pub enum FileFault {
    /// The file can't be opened, made or lengthened, or another program holds it.
    #[error("the file can't be opened, made or lengthened, or is in use")]
    File,
    #[error("out of memory")]
    Memory,
}

/// What an error of the system says of the file.
fn fault_of(error: io::Error) -> FileFault
    ensures { (result ≡ FileFault.Memory) ↔ (error_kind error ≡ ErrorKind.OutOfMemory) }
{
    match error.kind() {
        ErrorKind::OutOfMemory => FileFault::Memory,
        _ => FileFault::File,
    }
}

/// A device over a file, whose region r is the 32768 bytes from byte 32768 r on. A sync syncs the
/// whole file. The file is locked as long as it is open, so that it serves one program at a time.
///
/// Contracts promise counts alone: how many regions there are, how many calls were made and how many
/// of them failed. No contract can know what a file holds, so this device does not tell: that a read
/// gives what was written, and that what was synced outlives a crash, rests on the system.
///
/// When a sync fails, the system takes what was to be written as if it were on the disk: a later sync passes over it,
/// and a read gives it until the memory is wanted for something else. So a region may hold what is not on the disk, after
/// a call that failed and in a file that an earlier program left. This device keeps which regions are in such doubt: all, when
/// it is opened, and those that a failed call named. Before a region in doubt is read or counts as synced,
/// its bytes are written in their place again and synced. The clauses on doubt are about this record alone. They are proved
/// of the code by what it calls, and no contract knows what these calls did to the disk.
#[derive(Drop)]
pub struct FileDisk {
    file: File,
    // how many bytes it had when it was opened, or was lengthened to then
    length: u64,
    reads: Count,
    writes: Count,
    failures: Failures,
    doubts: Doubts,
}

impl Model for FileDisk {
    ghost use Rattle.lease_disk.specs.FileDisk.{FileDiskValue, whole_regions};

    ghost Value = { FileDiskValue };

    ghost view = { λ d. record {
      length = d.length;
      regions = whole_regions d.length;
      reads = d.reads.count;
      writes = d.writes.count;
      failures = d.failures.regions;
      doubts = d.doubts;
    } };
}

/// How many whole regions a file of so many bytes has, and at most 1024.
fn whole_regions(length: u64) -> u16
    ensures { result ≡ whole_regions length }
{
    (length / REGION as u64).min(u64::from(MAX_REGIONS)) as u16
}

/// Where in the file a region's byte is, by its offset in the region.
fn position(region: u16, at: usize) -> u64
    requires { at ≤ 32768 }
    ensures { result ≡ 32768 * region + at }
{
    u64::from(region) * REGION as u64 + at as u64
}

/// The folder of the file with this path.
fn folder_of(path: &str) -> &str
    ensures named { (folder : List ℕ) → path_parent path.now ≡ Some folder → folder ≢ [] → result.now ≡ folder }
    ensures here { path_parent path.now ≡ Some [] → result.now ≡ codes "." }
{
    match Path::new(path).parent() {
        Some(folder) if !folder.as_str().is_empty() => folder.as_str(),
        _ => ".",
    }
}

/// Gives a file a greater length. The file, which may be new in its folder, and its length outlive a
/// crash.
fn lengthen<R: Files<File = File>>(rt: &R, path: &str, file: &File, length: u64) -> io::Result<()> {
    file.set_len(length)?;
    file.sync_all()?;
    File::open(rt, folder_of(path))?.sync_all()
}

/// Writes the bytes of a region that is in doubt in their place, as a read gives them. Then `unwritten` no longer has it.
// not inlined: the room for a region is large
#[inline(never)]
fn write_back(file: &File, region: u16, doubts: &Doubts, unwritten: &mut Doubts) -> io::Result<()>
    requires { region < 1024 }
    ensures written { OnOk result (in_doubt doubts.now region ≡ true → in_doubt unwritten.new region ≡ false) }
    ensures stay { StaySettled (in_doubt unwritten.old) (in_doubt unwritten.new) }
{
    if !doubts.is_in_doubt(region) {
        return Ok(());
    }
    let mut bytes = [0; REGION];
    file.read_exact_at(&mut bytes, position(region, 0))?;
    file.write_all_at(&bytes, position(region, 0))?;
    unwritten.settle(region);
    Ok(())
}

/// Writes back each of these regions that is in doubt.
fn write_back_all(
    file: &File,
    regions: &[u16],
    doubts: &Doubts,
    unwritten: &mut Doubts,
) -> io::Result<()>
    requires { (r : ℕ) → is_in regions.now r ≡ true → r < 1024 }
    ensures { OnOk result ((q : ℕ) → is_in regions.now q ≡ true → in_doubt doubts.now q ≡ true → in_doubt unwritten.new q ≡ false) }
{
    'regions: for index in 0..regions.len() {
        write_back(file, regions[index], doubts, unwritten)?;
    }
    Ok(())
}

/// Writes back each of these regions that is in doubt, and syncs: then none of them is.
fn sync_settled(file: &File, regions: &[u16], doubts: &mut Doubts) -> io::Result<()>
    requires { (r : ℕ) → is_in regions.now r ≡ true → r < 1024 }
    ensures settled { OnOk result (AreSettled regions.now (in_doubt doubts.new)) }
    ensures stay { StaySettled (in_doubt doubts.old) (in_doubt doubts.new) }
{
    let mut unwritten = Doubts::all();
    write_back_all(file, regions, doubts, &mut unwritten)?;
    file.sync_data()?;
    doubts.settle_written(regions, &unwritten);
    Ok(())
}

/// Reads of a region. One in doubt is written back and synced first.
fn read_settled(
    file: &File,
    region: u16,
    at: usize,
    out: &mut [u8],
    doubts: &mut Doubts,
) -> io::Result<()>
    requires exists { region < 1024 }
    requires fits { at ≤ 32768 }
    ensures settled { OnOk result (in_doubt doubts.new region ≡ false) }
    ensures stay { StaySettled (in_doubt doubts.old) (in_doubt doubts.new) }
{
    if doubts.is_in_doubt(region) {
        sync_settled(file, &[region], doubts)?;
    }
    file.read_exact_at(out, position(region, at))
}

/// What a call returned that names these regions. A fault is noted for each of them, and puts it in doubt.
fn counted_all(
    regions: &[u16],
    answer: io::Result<()>,
    failures: &mut Failures,
    doubts: &mut Doubts,
) -> Result<(), Fault>
    requires { (r : ℕ) → is_in regions.now r ≡ true → r < 1024 }
    ensures answer { is_ok result ≡ is_ok answer }
    ensures failures { count_in failures.new.regions ≡ set_faults regions.now result (count_in failures.old.regions) }
    ensures doubts { (q : ℕ) → in_doubt doubts.new q ≡ doubt_after regions.now result (in_doubt doubts.old) q }
{
    match answer {
        Ok(()) => Ok(()),
        Err(_) => {
            failures.note_all(regions);
            doubts.put_in_doubt(regions);
            Err(Fault)
        }
    }
}

/// What a call returned that names this region.
fn counted(
    region: u16,
    answer: io::Result<()>,
    failures: &mut Failures,
    doubts: &mut Doubts,
) -> Result<(), Fault>
    requires { region < 1024 }
    ensures answer { is_ok result ≡ is_ok answer }
    ensures failures { count_in failures.new.regions ≡ faults_after region result (count_in failures.old.regions) }
    ensures doubts { (q : ℕ) → in_doubt doubts.new q ≡ doubt_after (region ∷ []) result (in_doubt doubts.old) q }
    ensures settled { KeepsSettled region result (in_doubt doubts.old) (in_doubt doubts.new) }
{
    counted_all(&[region], answer, failures, doubts)
}

impl FileDisk {
    ghost use Rattle.std.specs.Prelude.{◌≡◌, ◌≤◌, ◌*◌, ◌/◌, min, IfOk};
    ghost use Rattle.lease_disk.specs.Device.{StaySettled};
    ghost use Rattle.lease_disk.specs.FileDisk.{doubt_of, uncalled};

    /// Opens a file as a device of at least so many regions, of which it has at most 1024. Makes the
    /// file where there is none, and lengthens a shorter one. The regions that it adds hold zeros: it
    /// formats none.
    pub fn create<R: Files<File = File>>(
        rt: &R,
        path: &str,
        regions: u16,
    ) -> Result<FileDisk, FileFault>
        ensures long { IfOk result (λ disk. 32768 * regions ≤ disk.length) }
        ensures least { IfOk result (λ disk. min regions 1024 ≤ disk.regions) }
        ensures most { IfOk result (λ disk. disk.regions ≤ 1024) }
        ensures new { IfOk result (λ disk. disk ≡ uncalled disk.length) }
    {
        let mut how = OpenOptions::new();
        how.read(true).write(true).create(true);
        FileDisk::opened(rt, path, &how, position(regions, 0)).map_err(fault_of)
    }

    /// Opens a file as a device of as many regions as are whole in it, at most 1024.
    pub fn open<R: Files<File = File>>(rt: &R, path: &str) -> Result<FileDisk, FileFault>
        ensures most { IfOk result (λ disk. disk.regions ≤ 1024) }
        ensures new { IfOk result (λ disk. disk ≡ uncalled disk.length) }
    {
        let mut how = OpenOptions::new();
        how.read(true).write(true);
        FileDisk::opened(rt, path, &how, 0).map_err(fault_of)
    }

    /// Opens a file as a device, and lengthens it where it has fewer bytes than these.
    fn opened<R: Files<File = File>>(
        rt: &R,
        path: &str,
        how: &OpenOptions,
        bytes: u64,
    ) -> io::Result<FileDisk>
        ensures long { IfOk result (λ disk. bytes ≤ disk.length) }
        ensures least { IfOk result (λ disk. min (bytes / 32768) 1024 ≤ disk.regions) }
        ensures most { IfOk result (λ disk. disk.regions ≤ 1024) }
        ensures new { IfOk result (λ disk. disk ≡ uncalled disk.length) }
    {
        let file = how.open(rt, path)?;
        // so that nobody else formats or writes the leases of a server that runs
        file.try_lock()?;
        let length = file.metadata()?.len();
        if length < bytes {
            lengthen(rt, path, &file, bytes)?;
        }
        Ok(FileDisk {
            file,
            length: length.max(bytes),
            reads: Count::new(),
            writes: Count::new(),
            failures: Failures::new(),
            doubts: Doubts::all(),
        })
    }

    /// Writes back each of these regions that is in doubt, and syncs once for all: what a read of each would do by
    /// itself. A region that can't be written back stays in doubt, and so do all where the sync fails: a read then tries
    /// again. It counts no call and no failure.
    pub fn settle(&mut self, regions: &[u16])
        ensures stay { StaySettled (doubt_of self.old) (doubt_of self.new) }
        ensures rest { self.new ≡ record self.old { doubts = self.new.doubts } }
    {
        let mut unwritten = Doubts::all();
        'regions: for index in 0..regions.len() {
            let region = regions[index];
            if region < whole_regions(self.length) {
                // the read of one that was not written back tries again
                let _ = write_back(&self.file, region, &self.doubts, &mut unwritten);
            }
        }
        if self.file.sync_data().is_ok() {
            self.doubts.settle_written(regions, &unwritten);
        }
    }
}

impl FileDisk {
    /// Whether the file with this path is this one, and is no shorter than it was when it was opened. No contract can know what
    /// the system answers.
    pub fn is_in_place<R: Files<File = File>>(&self, rt: &R, path: &str) -> bool {
        let (Ok(own), Ok(found)) = (self.file.metadata(), fs::metadata(rt, path)) else {
            return false;
        };
        (own.dev(), own.ino()) == (found.dev(), found.ino()) && self.length <= own.len()
    }
}

impl Disk for FileDisk {
    ghost use Rattle.std.specs.Prelude.{false};
    ghost use Rattle.lease_disk.specs.FileDisk.{device_of, doubt_of};

    ghost tells = { false };

    ghost device = { device_of };

    ghost doubt = { doubt_of };

    fn regions(&self) -> u16 {
        whole_regions(self.length)
    }

    fn read(&mut self, region: u16, at: usize, out: &mut [u8]) -> Result<(), Fault> {
        self.reads.tick();
        let answer = read_settled(&self.file, region, at, out, &mut self.doubts);
        counted(region, answer, &mut self.failures, &mut self.doubts)
    }

    fn write_at(&mut self, region: u16, at: usize, bytes: &[u8]) -> Result<(), Fault> {
        self.writes.tick();
        let answer = self.file.write_all_at(bytes, position(region, at));
        counted(region, answer, &mut self.failures, &mut self.doubts)
    }

    fn sync(&mut self, region: u16) -> Result<(), Fault> {
        self.writes.tick();
        let answer = sync_settled(&self.file, &[region], &mut self.doubts);
        counted(region, answer, &mut self.failures, &mut self.doubts)
    }

    fn sync_set(&mut self, regions: &[u16]) -> Result<(), Fault> {
        self.writes.tick();
        let answer = sync_settled(&self.file, regions, &mut self.doubts);
        counted_all(regions, answer, &mut self.failures, &mut self.doubts)
    }
}
