ghost use Rattle.std.specs.Prelude.{ℕ, ◌≡◌, ◌<◌, ◌≤◌, [], ◌∷◌, length};
ghost use Rattle.lease_disk.specs.Crash.{formatted_region};
ghost use Rattle.lease_disk.specs.Model.{disk_region};
ghost use Rattle.lease_disk.specs.Save.{AreMarks, Fits};

use crate::recovery_tests::finds;
use crate::save_tests::{free_at, lease_at, leased_at, new_disk};
use batch_saves::{Saving, save_many};
use lease_disk::*;
use std::alloc::AllocGlobal;
use std::process::Abort;
use types::Slots;

/// A device of three formatted regions, and the marks of each.
fn formatted_regions(rt: &(impl Abort + AllocGlobal)) -> (ModelDisk, Marks)
    ensures count { length result.0.regions ≡ 3 }
    ensures formatted { (q : ℕ) → q < 3 → disk_region result.0 q ≡ formatted_region }
    ensures marks { AreMarks (16 ∷ 16 ∷ []) formatted_region.byte result.1 }
{
    let mut disk = new_disk(rt, 3);
    let (_, marks) = recover(0, &mut disk, [16, 16]).expect(rt, "a formatted region");
    (disk, marks)
}

/// A lease in a region.
fn part(region: u16, marks: Marks) -> Saving
    ensures region { result.region ≡ region }
    ensures marks { result.marks ≡ marks }
    ensures fresh { result.failed ≡ 0 }
    ensures fits { Fits result.slot result.content }
{
    let lease = lease_at(101);
    Saving {
        region,
        clock: lease.clock,
        slot: lease.slot,
        content: lease.content,
        marks,
        failed: 0,
    }
}

/// A batch of leases in the first n of three regions, in each of which this call fails, or none where it is 0: the
/// device and the parts after it.
fn batch(rt: &(impl Abort + AllocGlobal), n: usize, faults: [u8; 3]) -> (ModelDisk, [Saving; 3])
    requires { n ≤ 3 }
    ensures { length result.0.regions ≡ 3 }
{
    let (mut disk, marks) = formatted_regions(rt);
    disk.fail_at(0, faults[0]);
    disk.fail_at(1, faults[1]);
    disk.fail_at(2, faults[2]);
    let mut parts = [part(0, marks), part(1, marks), part(2, marks)];
    save_many(&mut parts[..n], &mut disk);
    (disk, parts)
}

/// How a batch of the first n of three regions goes.
struct Row {
    n: usize,
    /// Which call of each region fails; 0 for none.
    faults: [u8; 3],
    /// Which call fails for each part.
    failed: [u8; 3],
    syncs: u32,
}

#[rattlefmt::skip]
const ROWS: [Row; 19] = [
    // without a fault there are three syncs, also where the calls end before the one that would fail
    Row { n: 2, faults: [0, 0, 0],   failed: [0, 0, 0], syncs: 3 },
    Row { n: 3, faults: [0, 0, 0],   failed: [0, 0, 0], syncs: 3 },
    Row { n: 3, faults: [7, 0, 255], failed: [0, 0, 0], syncs: 3 },
    // a write that fails is a fault of one part
    Row { n: 2, faults: [1, 0, 0],   failed: [1, 0, 0], syncs: 3 },
    Row { n: 2, faults: [0, 3, 0],   failed: [0, 3, 0], syncs: 3 },
    Row { n: 2, faults: [5, 0, 0],   failed: [5, 0, 0], syncs: 3 },
    Row { n: 3, faults: [1, 3, 5],   failed: [1, 3, 5], syncs: 2 },
    // without a part that saves there is no sync
    Row { n: 2, faults: [1, 1, 0],   failed: [1, 1, 0], syncs: 0 },
    Row { n: 2, faults: [3, 1, 0],   failed: [3, 1, 0], syncs: 1 },
    Row { n: 2, faults: [5, 3, 0],   failed: [5, 3, 0], syncs: 2 },
    // a sync that fails, as the call of one region or of both, is a fault of every part that is saving
    Row { n: 2, faults: [2, 0, 0],   failed: [2, 2, 0], syncs: 1 },
    Row { n: 2, faults: [4, 4, 0],   failed: [4, 4, 0], syncs: 2 },
    Row { n: 2, faults: [0, 6, 0],   failed: [6, 6, 0], syncs: 3 },
    // a part whose write failed before it keeps that fault, and one whose write would fail after it does not get there
    Row { n: 2, faults: [1, 4, 0],   failed: [1, 4, 0], syncs: 2 },
    Row { n: 2, faults: [5, 6, 0],   failed: [5, 6, 0], syncs: 3 },
    Row { n: 2, faults: [5, 4, 0],   failed: [4, 4, 0], syncs: 2 },
    Row { n: 3, faults: [3, 4, 6],   failed: [3, 4, 4], syncs: 2 },
    Row { n: 3, faults: [6, 3, 1],   failed: [6, 3, 1], syncs: 3 },
    Row { n: 3, faults: [4, 2, 3],   failed: [2, 2, 2], syncs: 1 },
];

/// Whether a batch goes so.
fn holds(rt: &(impl Abort + AllocGlobal), row: &Row) -> bool
    requires { row.now.n ≤ 3 }
{
    let (disk, parts) = batch(rt, row.n, row.faults);
    [parts[0].failed, parts[1].failed, parts[2].failed] == row.failed && disk.syncs() == row.syncs
}

/// The first row that does not hold; there are three regions.
fn wrong_row(rt: &(impl Abort + AllocGlobal)) -> Option<usize> {
    for (i, row) in ROWS.iter().enumerate() {
        if row.n > 3 || !holds(rt, row) {
            return Some(i);
        }
    }
    None
}

#[test]
fn batches_with_and_without_faults(rt: HostRuntime) {
    assert!(rt; wrong_row(&rt).is_none());
}

/// What a restart finds after a batch of two.
struct Restart {
    /// Which call of each region fails; 0 for none.
    faults: [u8; 2],
    /// What the unsynced bytes of each become.
    bytes: [u8; 2],
    /// Whether the lease is found there, or nothing.
    leased: [bool; 2],
}

#[rattlefmt::skip]
const RESTARTS: [Restart; 5] = [
    Restart { faults: [0, 0], bytes: [0x5a, 0x5a], leased: [true, true] },
    // the first one's half failed to be written
    Restart { faults: [3, 0], bytes: [0xa5, 0x5a], leased: [false, true] },
    // the sync of both halves failed
    Restart { faults: [4, 4], bytes: [0xa5, 0xa5], leased: [false, false] },
    // the write of the first one's gate failed, then the last sync, of the second: each gate decides
    Restart { faults: [5, 6], bytes: [0xa5, 0],    leased: [true, false] },
    Restart { faults: [5, 6], bytes: [0, 0xa5],    leased: [false, true] },
];

/// The slots with the lease, or free.
fn slots(leased: bool) -> Slots {
    if leased { leased_at(101) } else { free_at(0) }
}

/// Whether a restart finds each region by itself.
fn is_found(rt: &(impl Abort + AllocGlobal), row: &Restart) -> bool {
    let (mut disk, _) = batch(rt, 2, [row.faults[0], row.faults[1], 0]);
    disk.crash(0, Image::Byte(row.bytes[0]));
    disk.crash(1, Image::Byte(row.bytes[1]));
    finds(&mut disk, 0, &slots(row.leased[0])) && finds(&mut disk, 1, &slots(row.leased[1]))
}

/// The first row that does not hold.
fn wrong_restart(rt: &(impl Abort + AllocGlobal)) -> Option<usize> {
    for (i, row) in RESTARTS.iter().enumerate() {
        if !is_found(rt, row) {
            return Some(i);
        }
    }
    None
}

#[test]
fn a_restart_finds_each_region_by_itself(rt: HostRuntime) {
    assert!(rt; wrong_restart(&rt).is_none());
}
