//! Regions of format 1: what is damaged, and moves to format 2 with their bytes and where they stop.
ghost use Rattle.std.specs.Prelude.{◌≡◌, length};
ghost use Rattle.lease_disk.specs.Model.{disk_region};
ghost use Rattle.lease_disk.specs.Region.{IsClean};

use crate::recovery_tests::{change, clock_of, finds};
use crate::save_tests::{Bytes, has, leased_at, new_disk};
use crate::stop_tests::{Cut, settle};
use lease_disk::*;
use std::alloc::AllocGlobal;
use std::process::Abort;

/// The example's lease in the first bank of a region of format 1, at clock 101 until 701.
const LEASE: [(usize, u8); 8] = [
    (15, 0x65),
    (32, 1),
    (33, 7),
    (46, 0x02),
    (47, 0xbd),
    (48, 1),
    (49, 2),
    (54, 1),
];

/// A device of one region of format 1 that holds that lease, with some bytes changed.
fn old_disk(rt: &(impl Abort + AllocGlobal), bytes: &[(usize, u8)]) -> ModelDisk
    ensures count { length result.regions ≡ 1 }
    ensures clean { IsClean (disk_region result 0) }
{
    let mut disk = new_disk(rt, 1);
    format_old(0, &mut disk).expect(rt, "formatting");
    change(&mut disk, &LEASE);
    change(&mut disk, bytes);
    settle(&mut disk, None).expect(rt, "a sync");
    disk
}

/// Moves the region of a device, where the k-th call fails.
fn move_region(disk: &mut ModelDisk, counts: [u8; 2], k: u8) -> Result<(), RecoverFault>
    requires count { length disk.old.regions ≡ 1 }
    requires clean { IsClean (disk_region disk.old 0) }
    ensures count { length disk.new.regions ≡ 1 }
{
    let mut buffer = [0; HALVES_SIZE];
    disk.fail_at(0, k);
    migrate(0, disk, counts, &mut buffer)
}

/// What is changed in the region that is moved.
const CHANGES: [(usize, u8); 16] = [
    // slot 1 has a lease that expired at 101
    (112, 1),
    (113, 7),
    (127, 0x65),
    (128, 9),
    // slot 17 has IAID 01020304 and DUID 000309 until 701
    (1464, 1),
    (1465, 3),
    (1468, 1),
    (1469, 2),
    (1470, 3),
    (1471, 4),
    (1478, 0x02),
    (1479, 0xbd),
    (1481, 3),
    (1482, 9),
    // where format 2 has halves format 1 has nothing
    (16640, 0xa5),
    (32767, 7),
];

/// The bytes of that region after its move.
#[rattlefmt::skip]
const MOVED: [Bytes; 15] = [
    Bytes { at: 8192,  expected: &[2] },
    Bytes { at: 16384, expected: &[0xa5, 1, 7, 0, 0, 0, 0, 0] },
    Bytes { at: 16392, expected: &[0, 0, 0, 0, 0, 0, 0, 0x65] },
    Bytes { at: 16400, expected: &[0, 0, 0, 0, 0, 0, 0x02, 0xbd] },
    Bytes { at: 16416, expected: &[1, 2, 0, 0, 0, 0, 1, 0] },
    Bytes { at: 16640, expected: &[0; 256] },
    Bytes { at: 16896, expected: &[0xa5, 0, 0, 0, 0, 0, 0, 0] },
    Bytes { at: 16904, expected: &[0, 0, 0, 0, 0, 0, 0, 0x65] },
    Bytes { at: 16912, expected: &[0; 496] },
    Bytes { at: 25088, expected: &[0xa5, 1, 3, 0, 1, 2, 3, 4] },
    Bytes { at: 25104, expected: &[0, 0, 0, 0, 0, 0, 0x02, 0xbd] },
    Bytes { at: 25120, expected: &[0, 3, 9, 0] },
    Bytes { at: 32512, expected: &[0; 256] },
    // the banks stay
    Bytes { at: 0,     expected: &[0xa5, 0] },
    Bytes { at: 32,    expected: &[1, 7] },
];

#[rattlefmt::skip]
const FORMAT_1: [Bytes; 1] = [
    Bytes { at: 8192,  expected: &[1] },
];

/// Whether a move gives the region these bytes.
fn moves_the_bytes(rt: &(impl Abort + AllocGlobal)) -> bool {
    let mut disk = old_disk(rt, &CHANGES);
    let is_old = has(disk.bytes(0), &FORMAT_1);
    let answer = move_region(&mut disk, [16, 16], 0);
    is_old && answer.is_ok() && has(disk.bytes(0), &MOVED)
}

#[test]
fn the_bytes_of_a_moved_region(rt: HostRuntime) {
    assert!(rt; moves_the_bytes(&rt));
}

/// Whether the region has the lease, and is of format 2 or not.
fn has_the_lease(disk: &mut ModelDisk, is_new: bool) -> bool
    requires { length disk.old.regions ≡ 1 }
    ensures { length disk.new.regions ≡ 1 }
{
    (disk.bytes(0)[FORMAT_AT] == FORMAT) == is_new && finds(disk, 0, &leased_at(101))
}

/// Whether a move that stops there keeps the lease, and whether a second move then succeeds and keeps it too.
fn is_kept(rt: &(impl Abort + AllocGlobal), cut: Cut) -> bool {
    let mut disk = old_disk(rt, &[]);
    let first = move_region(&mut disk, [16, 16], cut.k);
    settle(&mut disk, cut.byte).expect(rt, "a stop");
    // the third and fourth call are those of the byte that says the format
    let is_new = matches!(
        (cut.k, cut.byte),
        (0, _) | (3, Some(2)) | (4, Some(2) | None)
    );
    let is_kept = has_the_lease(&mut disk, is_new);
    settle(&mut disk, None).expect(rt, "a sync");
    let second = move_region(&mut disk, [16, 16], 0);
    first.is_ok() == (cut.k == 0) && is_kept && second.is_ok() && has_the_lease(&mut disk, true)
}

/// Where a move stops and does not keep it.
fn wrong_cut(rt: &(impl Abort + AllocGlobal)) -> Option<Cut> {
    let bytes = [
        Some(0x00),
        Some(0x02),
        Some(0x5a),
        Some(0xa5),
        Some(0xff),
        None,
    ];
    for byte in bytes {
        for k in 0..5 {
            let cut = Cut { k, byte };
            if !is_kept(rt, cut) {
                return Some(cut);
            }
        }
    }
    None
}

#[test]
fn stops_while_a_region_is_moved(rt: HostRuntime) {
    assert!(rt; wrong_cut(&rt).is_none());
}

/// Changes of that region that leave it sound, and others, as near as can be, that make it damaged.
struct Row {
    counts: [u8; 2],
    sound: &'static [(usize, u8)],
    damaged: &'static [(usize, u8)],
}

#[rattlefmt::skip]
const ROWS: &[Row] = &[
    // the gates
    Row { counts: [16, 16], sound: &[(0, 0), (4096, 0xa5)], damaged: &[(0, 0xa4)] },
    // the sequence of the only open bank
    Row { counts: [16, 16], sound: &[(1, 2)], damaged: &[(1, 3)] },
    // its clock
    Row { counts: [16, 16], sound: &[(11, 0xff), (12, 0xff), (13, 0xff), (14, 0xff), (15, 0xff)], damaged: &[(10, 1)] },
    // the states of slots 0, 15, 16 and 31
    Row { counts: [16, 16], sound: &[(32, 2)], damaged: &[(32, 3)] },
    Row { counts: [16, 16], sound: &[(1232, 2)], damaged: &[(1232, 3)] },
    Row { counts: [16, 16], sound: &[(1312, 2)], damaged: &[(1312, 3)] },
    Row { counts: [16, 16], sound: &[(3592, 2)], damaged: &[(3592, 3)] },
    // the length of a key, which only a bound slot has
    Row { counts: [16, 16], sound: &[(32, 0), (33, 0)], damaged: &[(33, 0)] },
    Row { counts: [16, 16], sound: &[(33, 2)], damaged: &[(33, 1)] },
    Row { counts: [16, 16], sound: &[(33, 64)], damaged: &[(33, 65)] },
    // the length of a DUID
    Row { counts: [16, 16], sound: &[(1312, 1), (1313, 3)], damaged: &[(1312, 1), (1313, 2)] },
    Row { counts: [16, 16], sound: &[(1312, 1), (1313, 130)], damaged: &[(1312, 1), (1313, 131)] },
    // until when a slot is held: at most a week after the last clock
    Row {
        counts: [16, 16],
        sound: &[(42, 1), (45, 0x09), (46, 0x3a), (47, 0x7f)],
        damaged: &[(42, 1), (45, 0x09), (46, 0x3a), (47, 0x80)],
    },
    Row { counts: [16, 16], sound: &[(1312, 0), (1320, 1)], damaged: &[(1312, 2), (1320, 1)] },
    // a client's second lease, which is over at the clock 101, or until 102
    Row {
        counts: [16, 16],
        sound: &[(112, 1), (113, 7), (127, 0x65), (128, 1), (129, 2), (134, 1)],
        damaged: &[(112, 1), (113, 7), (127, 0x66), (128, 1), (129, 2), (134, 1)],
    },
    // two leases of one DUID, of two IAIDs or of one
    Row {
        counts: [16, 16],
        sound: &[(1312, 1), (1313, 3), (1326, 2), (1464, 1), (1465, 3), (1471, 1), (1478, 2)],
        damaged: &[(1312, 1), (1313, 3), (1326, 2), (1464, 1), (1465, 3), (1478, 2)],
    },
    // the last slots of both pools, where they are not read, and those before them
    Row { counts: [15, 15], sound: &[(1232, 3), (3592, 3)], damaged: &[(1152, 3), (3440, 3)] },
    // a bank has to count even where no slot is read
    Row { counts: [0, 0], sound: &[(1232, 3), (3592, 3)], damaged: &[(0, 0)] },
];

/// Whether a move of a region with these changes ends like this; one that is damaged keeps its format.
fn ends(
    rt: &(impl Abort + AllocGlobal),
    counts: [u8; 2],
    bytes: &[(usize, u8)],
    is_damaged: bool,
) -> bool {
    let mut disk = old_disk(rt, bytes);
    let answer = move_region(&mut disk, counts, 0);
    let format = disk.bytes(0)[FORMAT_AT];
    match answer {
        Ok(()) => !is_damaged && format == FORMAT,
        Err(fault) => is_damaged && fault == RecoverFault::Damaged && format == OLD_FORMAT,
    }
}

fn holds(rt: &(impl Abort + AllocGlobal), row: &Row) -> bool {
    ends(rt, row.counts, row.sound, false) && ends(rt, row.counts, row.damaged, true)
}

/// The first row that does not hold.
fn wrong_row(rt: &(impl Abort + AllocGlobal)) -> Option<usize> {
    for (i, row) in ROWS.iter().enumerate() {
        if !holds(rt, row) {
            return Some(i);
        }
    }
    None
}

#[test]
fn damaged_regions_of_format_1_are_not_moved(rt: HostRuntime) {
    assert!(rt; wrong_row(&rt).is_none());
}

/// The clock after a move of a region whose banks are open, with these sequences and the clocks 101 and 102.
fn clock_of_banks(rt: &(impl Abort + AllocGlobal), first: u8, second: u8) -> Option<u64> {
    let bytes = [(1, first), (4096, 0xa5), (4097, second), (4111, 0x66)];
    let mut disk = old_disk(rt, &bytes);
    let _ = move_region(&mut disk, [16, 16], 0);
    clock_of(&mut disk)
}

/// The clock that it has, by the sequence of the first bank and then by that of the second.
const CLOCKS: [[Option<u64>; 4]; 4] = [
    [None, Some(102), Some(101), None],
    [Some(101), None, Some(102), None],
    [Some(102), Some(101), None, None],
    [None, None, None, None],
];

/// Whether the open bank that follows the other counts.
fn follows(rt: &(impl Abort + AllocGlobal)) -> bool {
    for first in 0..4 {
        for second in 0..4 {
            let clock = clock_of_banks(rt, first, second);
            if clock != CLOCKS[usize::from(first)][usize::from(second)] {
                return false;
            }
        }
    }
    true
}

#[test]
fn the_open_bank_that_follows_counts(rt: HostRuntime) {
    assert!(rt; follows(&rt));
}
