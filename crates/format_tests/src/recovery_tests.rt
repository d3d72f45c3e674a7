ghost use Rattle.std.specs.Prelude.{◌≡◌, ◌<◌, length};

use crate::save_tests::{
    Bytes, bound, formatted_disk, free_at, has, is_as, keep, lease_at, leased_at, new_disk,
    read_back,
};
use crate::stop_tests::settle;
use lease_disk::*;
use std::alloc::AllocGlobal;
use std::process::Abort;
use types::{Key6, Slot6, Slots};

/// Changes some bytes of the region of a device.
pub fn change(disk: &mut ModelDisk, bytes: &[(usize, u8)])
    requires count { length disk.old.regions ≡ 1 }
    ensures count { length disk.new.regions ≡ 1 }
{
    for (at, byte) in bytes {
        if *at < REGION {
            disk.load(0, *at, &[*byte]);
        }
    }
}

/// Whether a region recovers to these slots, for pools of 16 addresses.
pub fn finds(disk: &mut ModelDisk, region: u16, expected: &Slots) -> bool
    requires exists { region < length disk.old.regions }
    ensures count { length disk.new.regions ≡ length disk.old.regions }
{
    match recover(region, disk, [16, 16]) {
        Ok((slots, _)) => is_as(Some(slots), expected),
        Err(_) => false,
    }
}

/// The clock that it recovers to.
pub fn clock_of(disk: &mut ModelDisk) -> Option<u64>
    requires { length disk.old.regions ≡ 1 }
{
    match recover(0, disk, [16, 16]) {
        Ok((slots, _)) => Some(slots.clock.seconds()),
        Err(_) => None,
    }
}

/// Why it does not recover.
fn fault_of(disk: &mut ModelDisk, region: u16) -> Option<RecoverFault>
    requires exists { region < length disk.old.regions }
    ensures count { length disk.new.regions ≡ length disk.old.regions }
{
    match recover(region, disk, [16, 16]) {
        Ok(_) => None,
        Err(fault) => Some(fault),
    }
}

/// A device of one formatted region in which some bytes are changed.
fn disk_with(rt: &(impl Abort + AllocGlobal), bytes: &[(usize, u8)]) -> ModelDisk
    ensures { length result.regions ≡ 1 }
{
    let mut disk = new_disk(rt, 1);
    change(&mut disk, bytes);
    disk
}

/// Whether such a region recovers to these slots.
fn finds_with(rt: &(impl Abort + AllocGlobal), bytes: &[(usize, u8)], expected: &Slots) -> bool {
    finds(&mut disk_with(rt, bytes), 0, expected)
}

/// The clock that it recovers to.
fn clock_with(rt: &(impl Abort + AllocGlobal), bytes: &[(usize, u8)]) -> Option<u64> {
    clock_of(&mut disk_with(rt, bytes))
}

/// Whether formatting makes an empty book of a region, with the marks of a new one.
fn is_emptied(rt: &(impl Abort + AllocGlobal)) -> bool {
    let (mut disk, expected) = formatted_disk(rt);
    disk.fill(0, 0x5a);
    let is_damaged = fault_of(&mut disk, 0) == Some(RecoverFault::Damaged);
    format(0, &mut disk).expect(rt, "formatting");
    let (slots, marks) = recover(0, &mut disk, [16, 16]).expect(rt, "a formatted region");
    is_damaged && is_as(Some(slots), &free_at(0)) && marks == expected
}

/// Whether a region that is unreadable is a fault of the disk, and only then.
fn fails_while_unreadable(disk: &mut ModelDisk) -> bool
    requires { length disk.old.regions ≡ 2 }
{
    disk.crash(1, Image::Unreadable);
    let fault = fault_of(disk, 1);
    let of_the_other = fault_of(disk, 0);
    disk.crash(1, Image::Byte(0));
    fault == Some(RecoverFault::DiskFault) && of_the_other == None && fault_of(disk, 1) == None
}

#[test]
fn which_regions_recover(rt: HostRuntime) {
    assert!(rt; is_emptied(&rt));
    assert!(rt; fails_while_unreadable(&mut new_disk(&rt, 2)));
}

/// The example's lease in the second half of slot 0, which counts.
const FIRST: [(usize, u8); 10] = [
    (16640, 0xa5),
    (16641, 1),
    (16642, 7),
    (16643, 1),
    (16655, 0x65),
    (16662, 0x02),
    (16663, 0xbd),
    (16672, 1),
    (16673, 2),
    (16678, 1),
];

/// The second half counts, with sequence 1: the next save writes the first, with sequence 2.
#[rattlefmt::skip]
const NEXT: [Bytes; 2] = [
    Bytes { at: 16384, expected: &[0xa5, 1, 7, 2] },
    Bytes { at: 16640, expected: &[0xa5, 1, 7, 1] },
];

/// Whether that lease is read, and the next save writes the half that does not count.
fn reads_a_first_lease(rt: &(impl Abort + AllocGlobal)) -> bool {
    let mut disk = disk_with(rt, &FIRST);
    settle(&mut disk, None).expect(rt, "a sync");
    let (slots, mut marks) = read_back(&mut disk).expect(rt, "a lease");
    keep(&mut disk, &mut marks, &lease_at(102)).expect(rt, "the next save");
    is_as(Some(slots), &leased_at(101)) && has(disk.bytes(0), &NEXT)
}

/// A DHCPv6 lease in the first half of slot 16, at clock 101 until 701.
const DHCPV6: [(usize, u8); 11] = [
    (24577, 1),
    (24578, 3),
    (24580, 1),
    (24581, 2),
    (24582, 3),
    (24583, 4),
    (24591, 0x65),
    (24598, 0x02),
    (24599, 0xbd),
    (24609, 3),
    (24610, 9),
];

fn reads_a_dhcpv6_lease(rt: &(impl Abort + AllocGlobal)) -> bool {
    let client = Key6::new(&[0, 3, 9], 0x0102_0304).unwrap();
    let mut expected = free_at(101);
    expected.six[0] = Slot6::Bound(client, 701);
    finds_with(rt, &DHCPV6, &expected)
}

/// Whether an expired lease of a client does not stand in the way of its live one.
fn reads_the_live_lease(rt: &(impl Abort + AllocGlobal)) -> bool {
    // the client has slot 0 until 101, and slot 1, saved at clock 101, until 701
    let mut bytes = [
        (16385, 1),
        (16386, 7),
        (16407, 0x65),
        (16416, 1),
        (16417, 2),
        (16422, 1),
        (16897, 1),
        (16898, 7),
        (16911, 0x65),
        (16918, 0x02),
        (16919, 0xbd),
        (16928, 1),
        (16929, 2),
        (16934, 1),
    ];
    let mut expected = free_at(101);
    expected.four[1] = bound(701);
    let is_found = finds_with(rt, &bytes, &expected);
    // until 102 both are live
    bytes[2] = (16407, 0x66);
    is_found && clock_with(rt, &bytes) == None
}

#[test]
fn leases_by_their_bytes(rt: HostRuntime) {
    assert!(rt; reads_a_first_lease(&rt));
    assert!(rt; reads_a_dhcpv6_lease(&rt));
    assert!(rt; reads_the_live_lease(&rt));
}

/// The clock of two open halves of slot 2 with these sequences, of which the first has clock 10, the second clock 20.
fn clock_of_halves(rt: &(impl Abort + AllocGlobal), first: u8, second: u8) -> Option<u64> {
    let bytes = [
        (17411, first),
        (17423, 10),
        (17664, 0xa5),
        (17667, second),
        (17679, 20),
    ];
    clock_with(rt, &bytes)
}

/// The clock that they have, by the sequence of the first half and then by that of the second.
const CLOCKS: [[Option<u64>; 4]; 4] = [
    [None, Some(20), Some(10), None],
    [Some(10), None, Some(20), None],
    [Some(20), Some(10), None, None],
    [None, None, None, None],
];

/// Whether the half that follows the other counts.
fn follows(rt: &(impl Abort + AllocGlobal)) -> bool {
    for first in 0..4 {
        for second in 0..4 {
            let clock = clock_of_halves(rt, first, second);
            if clock != CLOCKS[usize::from(first)][usize::from(second)] {
                return false;
            }
        }
    }
    true
}

/// Whether the clock is the greatest of all slots.
fn is_greatest(rt: &(impl Abort + AllocGlobal)) -> bool {
    // slots 1 and 15 of DHCPv4 at 10 and 20; slots 17 and 31 of DHCPv6 at 15 and 12
    let mut bytes = [
        (16911, 10),
        (24079, 20),
        (25103, 15),
        (32271, 12),
        // the second half of slot 1, open with sequence 2, does not count
        (17152, 0xa5),
        (17155, 2),
        (17167, 99),
    ];
    let first = clock_with(rt, &bytes);
    bytes[3] = (32271, 21);
    let second = clock_with(rt, &bytes);
    bytes[0] = (16911, 22);
    [first, second, clock_with(rt, &bytes)] == [Some(20), Some(21), Some(22)]
}

#[test]
fn the_kept_clock(rt: HostRuntime) {
    assert!(rt; follows(&rt));
    assert!(rt; is_greatest(&rt));
}
