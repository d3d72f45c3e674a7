ghost use Rattle.std.specs.Prelude.{◌≡◌, ◌<◌, ◌≤◌, ℕ, true, [], ◌∷◌, length, IfOk, OnOk};
ghost use Rattle.lease_disk.specs.Crash.{formatted_region};
ghost use Rattle.lease_disk.specs.Layout.{is_format2};
ghost use Rattle.lease_disk.specs.Model.{disk_region};
ghost use Rattle.lease_disk.specs.Region.{IsClean};
ghost use Rattle.lease_disk.specs.Save.{AreMarks, Fits};

use lease_disk::*;
use std::alloc::AllocGlobal;
use std::process::Abort;
use types::{Key4, Key6, Moment, Slot4, Slot6, Slots};

/// What a slot holds from a clock on.
#[derive(Clone, Copy)]
pub struct Change {
    pub clock: Moment,
    pub slot: usize,
    pub content: Content,
}

/// A change of a DHCPv4 slot.
pub fn change4(clock: u16, slot: usize, content: Slot4) -> Change
    requires { slot < 16 }
    ensures { Fits result.slot result.content }
{
    Change {
        clock: Moment::new(u64::from(clock)).unwrap(),
        slot,
        content: Content::Four(content),
    }
}

/// A change of a DHCPv6 slot.
pub fn change6(clock: u16, slot: usize, content: Slot6) -> Change
    requires from { 16 ≤ slot }
    requires below { slot < 32 }
    ensures { Fits result.slot result.content }
{
    Change {
        clock: Moment::new(u64::from(clock)).unwrap(),
        slot,
        content: Content::Six(content),
    }
}

/// The client of the examples, which has key 01 02 00 00 00 00 01, bound until this moment.
pub fn bound(until: u64) -> Slot4 {
    Slot4::Bound(Key4::new(&[1, 2, 0, 0, 0, 0, 1]).unwrap(), until)
}

/// The client in DHCPv4 slot 0 for ten minutes from this clock on.
pub fn lease_at(clock: u16) -> Change
    ensures { Fits result.slot result.content }
{
    change4(clock, 0, bound(u64::from(clock) + 600))
}

/// Slots that are all free, at a clock.
pub fn free_at(clock: u16) -> Slots {
    Slots {
        four: [Slot4::Free; 16],
        six: [Slot6::Free; 16],
        clock: Moment::new(u64::from(clock)).unwrap(),
    }
}

/// The slots with that lease.
pub fn leased_at(clock: u16) -> Slots {
    let mut slots = free_at(clock);
    slots.four[0] = bound(u64::from(clock) + 600);
    slots
}

/// Whether these slots were found.
pub fn is_as(found: Option<Slots>, expected: &Slots) -> bool {
    match found {
        Some(found) => {
            found.four == expected.four
                && found.six == expected.six
                && found.clock == expected.clock
        }
        None => false,
    }
}

/// Bytes of a region from an offset on.
pub struct Bytes {
    pub at: usize,
    pub expected: &'static [u8],
}

/// Whether a region's bytes have all of these.
pub fn has(bytes: &[u8], rows: &[Bytes]) -> bool {
    for row in rows {
        match bytes.get(row.at..) {
            Some(rest) if rest.starts_with(row.expected) => {}
            _ => return false,
        }
    }
    true
}

/// Whether a region has the bytes of a formatted one.
fn is_formatted(bytes: &[u8]) -> bool {
    let mut expected = [0; REGION];
    expected[8192] = 2;
    for slot in 0..32 {
        expected[16384 + 512 * slot] = 0xa5;
    }
    bytes == expected.as_slice()
}

/// A device of so many formatted regions.
pub fn new_disk(rt: &(impl Abort + AllocGlobal), regions: u16) -> ModelDisk
    ensures count { length result.regions ≡ regions }
    ensures formatted { (q : ℕ) → q < regions → disk_region result q ≡ formatted_region }
    ensures clean { (q : ℕ) → IsClean (disk_region result q) }
{
    ModelDisk::new(rt.alloc(), regions).expect(rt, "memory")
}

/// What the region of a device recovers to, and the marks that the next save wants; an error where it is not of
/// format 2.
pub fn read_back(disk: &mut ModelDisk) -> Result<(Slots, Marks), RecoverFault>
    requires count { length disk.old.regions ≡ 1 }
    requires clean { IsClean (disk_region disk.old 0) }
    ensures count { length disk.new.regions ≡ 1 }
    ensures clean { IsClean (disk_region disk.new 0) }
    ensures format { IfOk result (λ found. is_format2 (disk_region disk.new 0).byte ≡ true) }
    ensures marks { IfOk result (λ found. AreMarks (16 ∷ 16 ∷ []) (disk_region disk.new 0).byte found.1) }
{
    if disk.bytes(0)[FORMAT_AT] != FORMAT {
        return Err(RecoverFault::Damaged);
    }
    recover(0, disk, [16, 16])
}

/// A device of one formatted region, and its marks.
pub fn formatted_disk(rt: &(impl Abort + AllocGlobal)) -> (ModelDisk, Marks)
    ensures count { length result.0.regions ≡ 1 }
    ensures clean { IsClean (disk_region result.0 0) }
    ensures format { is_format2 (disk_region result.0 0).byte ≡ true }
    ensures marks { AreMarks (16 ∷ 16 ∷ []) (disk_region result.0 0).byte result.1 }
{
    let mut disk = new_disk(rt, 1);
    let (_, marks) = read_back(&mut disk).expect(rt, "a formatted region");
    (disk, marks)
}

/// Saves a slot of the region of a device.
pub fn keep(disk: &mut ModelDisk, marks: &mut Marks, change: &Change) -> Result<(), Fault>
    requires count { length disk.old.regions ≡ 1 }
    requires clean { IsClean (disk_region disk.old 0) }
    requires format { is_format2 (disk_region disk.old 0).byte ≡ true }
    requires marks { AreMarks (16 ∷ 16 ∷ []) (disk_region disk.old 0).byte marks.old }
    requires fits { Fits change.now.slot change.now.content }
    ensures count { length disk.new.regions ≡ 1 }
    ensures format { is_format2 (disk_region disk.new 0).byte ≡ true }
    ensures clean { OnOk result (IsClean (disk_region disk.new 0)) }
    ensures marks { OnOk result (AreMarks (16 ∷ 16 ∷ []) (disk_region disk.new 0).byte marks.new) }
{
    save(0, disk, marks, change.clock, change.slot, &change.content)
}

#[rattlefmt::skip]
const FORMATTED: [Bytes; 8] = [
    Bytes { at: 0,     expected: &[0] },
    Bytes { at: 4096,  expected: &[0] },
    Bytes { at: 8191,  expected: &[0, 2, 0] },
    Bytes { at: 16384, expected: &[0xa5, 0] },
    Bytes { at: 16640, expected: &[0] },
    Bytes { at: 17920, expected: &[0xa5] },
    Bytes { at: 32256, expected: &[0xa5] },
    Bytes { at: 32767, expected: &[0] },
];

/// Whether a new device of two regions is formatted.
fn is_new(disk: &ModelDisk) -> bool
    requires { length disk.now.regions ≡ 2 }
{
    let bytes = disk.bytes(1);
    disk.regions() == 2 && bytes.len() == 32768 && is_formatted(bytes) && has(bytes, &FORMATTED)
}

/// Whether a crash changes what was not synced, also what a write that failed was to write, and no other region.
fn forgets_what_was_not_synced(disk: &mut ModelDisk) -> bool
    requires { length disk.old.regions ≡ 2 }
{
    let is_written = disk.write_at(1, 10, &[7, 8]).is_ok();
    let is_synced = disk.sync(1).is_ok();
    let is_written_again = disk.write_at(1, 11, &[9]).is_ok();
    disk.fail_at(1, 1);
    let fails = disk.write_at(1, 13, &[9]).is_err();
    let stays = has(
        disk.bytes(1),
        &[Bytes {
            at: 10,
            expected: &[7, 9, 0, 0],
        }],
    );
    disk.crash(1, Image::Unreadable);
    let is_unreadable = disk.read(1, 10, &mut [0; 4]).is_err();
    disk.crash(1, Image::Byte(0x5a));
    let mut read = [0; 4];
    let is_read = disk.read(1, 10, &mut read).is_ok();
    let is_done = is_written && is_synced && is_written_again && is_read;
    is_done
        && fails
        && stays
        && is_unreadable
        && read == [7, 0x5a, 0, 0x5a]
        && has(
            disk.bytes(0),
            &[Bytes {
                at: 10,
                expected: &[0; 4],
            }],
        )
}

/// Whether only the second call of a region fails, and no call of the other.
fn fails_at_the_second_call(disk: &mut ModelDisk) -> bool
    requires { length disk.old.regions ≡ 2 }
{
    disk.fail_at(0, 2);
    let first = disk.write_at(0, 0, &[1]);
    let of_the_other = disk.sync(1);
    let second = disk.sync(0);
    let third = disk.sync(0);
    first.is_ok() && of_the_other.is_ok() && second.is_err() && third.is_ok()
}

/// Whether formatting replaces any bytes, and syncs what it writes, unless its last call fails.
fn is_formatted_anew(disk: &mut ModelDisk) -> bool
    requires { length disk.old.regions ≡ 1 }
{
    disk.fill(0, 0x5a);
    let is_filled = has(
        disk.bytes(0),
        &[Bytes {
            at: 32766,
            expected: &[0x5a, 0x5a],
        }],
    );
    let first = format(0, disk);
    disk.crash(0, Image::Byte(0xff));
    let is_formatted = is_formatted(disk.bytes(0));
    disk.fail_at(0, 4);
    is_filled && first.is_ok() && is_formatted && format(0, disk).is_err()
}

#[test]
fn a_device_in_memory(rt: HostRuntime) {
    assert!(rt; is_new(&new_disk(&rt, 2)));
    assert!(rt; forgets_what_was_not_synced(&mut new_disk(&rt, 2)));
    assert!(rt; fails_at_the_second_call(&mut new_disk(&rt, 2)));
    assert!(rt; is_formatted_anew(&mut new_disk(&rt, 1)));
}

/// After the lease at 101 in the second half, that at 102 in the first one, and that at 103.
#[rattlefmt::skip]
const FIRST: [Bytes; 8] = [
    Bytes { at: 16384, expected: &[0xa5, 0, 0, 0] },
    Bytes { at: 16640, expected: &[0xa5, 1, 7, 1, 0, 0, 0, 0] },
    Bytes { at: 16648, expected: &[0, 0, 0, 0, 0, 0, 0, 0x65] },
    Bytes { at: 16656, expected: &[0, 0, 0, 0, 0, 0, 0x02, 0xbd] },
    Bytes { at: 16664, expected: &[0; 8] },
    Bytes { at: 16672, expected: &[1, 2, 0, 0, 0, 0, 1, 0] },
    Bytes { at: 16896, expected: &[0xa5, 0, 0, 0] },
    Bytes { at: 8192,  expected: &[2] },
];

#[rattlefmt::skip]
const SECOND: [Bytes; 6] = [
    Bytes { at: 16384, expected: &[0xa5, 1, 7, 2, 0, 0, 0, 0] },
    Bytes { at: 16392, expected: &[0, 0, 0, 0, 0, 0, 0, 0x66] },
    Bytes { at: 16400, expected: &[0, 0, 0, 0, 0, 0, 0x02, 0xbe] },
    Bytes { at: 16416, expected: &[1, 2, 0, 0, 0, 0, 1, 0] },
    Bytes { at: 16640, expected: &[0xa5, 1, 7, 1] },
    Bytes { at: 16656, expected: &[0, 0, 0, 0, 0, 0, 0x02, 0xbd] },
];

/// The sequence is 0 by formatting, and then 1, 2 and 0.
#[rattlefmt::skip]
const THIRD: [Bytes; 2] = [
    Bytes { at: 16384, expected: &[0xa5, 1, 7, 2] },
    Bytes { at: 16640, expected: &[0xa5, 1, 7, 0] },
];

/// Whether the region has these bytes after each of three saves, and the marks are those that a restart finds.
fn saves_a_lease(rt: &(impl Abort + AllocGlobal)) -> bool {
    let (mut disk, mut marks) = formatted_disk(rt);
    keep(&mut disk, &mut marks, &lease_at(101)).expect(rt, "the first save");
    let is_first = has(disk.bytes(0), &FIRST);
    let (_, mut found) = read_back(&mut disk).expect(rt, "the first lease");
    let is_same = found == marks;
    keep(&mut disk, &mut found, &lease_at(102)).expect(rt, "the second save");
    let is_second = has(disk.bytes(0), &SECOND);
    keep(&mut disk, &mut found, &lease_at(103)).expect(rt, "the third save");
    is_first && is_same && is_second && has(disk.bytes(0), &THIRD)
}

/// The second halves of slots 16 and 31, from 16640 + 16 * 512 and from 16640 + 31 * 512 on.
#[rattlefmt::skip]
const DHCPV6: [Bytes; 7] = [
    Bytes { at: 24832, expected: &[0xa5, 1, 3, 1, 1, 2, 3, 4] },
    Bytes { at: 24840, expected: &[0, 0, 0, 0, 0, 0, 4, 5] },
    Bytes { at: 24848, expected: &[0, 0, 0, 0, 0, 0, 5, 6] },
    Bytes { at: 24856, expected: &[0; 8] },
    Bytes { at: 24864, expected: &[0, 3, 9, 0] },
    Bytes { at: 32512, expected: &[0xa5, 2, 0, 1, 0, 0, 0, 0] },
    Bytes { at: 32528, expected: &[0, 0, 0, 0, 0, 0, 6, 7] },
];

fn saves_dhcpv6_slots(rt: &(impl Abort + AllocGlobal)) -> bool {
    let (mut disk, mut marks) = formatted_disk(rt);
    let client = Key6::new(&[0, 3, 9], 0x0102_0304).unwrap();
    let first = change6(0x0405, 16, Slot6::Bound(client, 0x0506));
    keep(&mut disk, &mut marks, &first).expect(rt, "the first save");
    let last = change6(0x0405, 31, Slot6::Barred(0x0607));
    keep(&mut disk, &mut marks, &last).expect(rt, "the last save");
    has(disk.bytes(0), &DHCPV6)
}

#[rattlefmt::skip]
const SHORTER: [Bytes; 4] = [
    Bytes { at: 16416, expected: &[0xee; 64] },
    Bytes { at: 16640, expected: &[0xa5, 1, 2, 0] },
    Bytes { at: 16672, expected: &[1, 2] },
    Bytes { at: 16674, expected: &[0; 222] },
];

/// Whether a shorter key leaves nothing of a longer one.
fn saves_a_shorter_key(rt: &(impl Abort + AllocGlobal)) -> bool {
    let (mut disk, mut marks) = formatted_disk(rt);
    let long = change4(101, 0, Slot4::Bound(Key4::new(&[0xee; 64]).unwrap(), 701));
    let short = change4(101, 0, Slot4::Bound(Key4::new(&[1, 2]).unwrap(), 701));
    // the second half, the first one and the second one again
    keep(&mut disk, &mut marks, &long).expect(rt, "the first save");
    keep(&mut disk, &mut marks, &long).expect(rt, "the second save");
    keep(&mut disk, &mut marks, &short).expect(rt, "the third save");
    has(disk.bytes(0), &SHORTER)
}

#[test]
fn the_bytes_of_saves(rt: HostRuntime) {
    assert!(rt; saves_a_lease(&rt));
    assert!(rt; saves_dhcpv6_slots(&rt));
    assert!(rt; saves_a_shorter_key(&rt));
}
