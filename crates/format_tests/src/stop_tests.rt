ghost use Rattle.std.specs.Prelude.{◌≡◌, ◌≤◌, ◌<◌, true, [], ◌∷◌, length, OnOk, OnSome};
ghost use Rattle.lease_disk.specs.Layout.{is_format2};
ghost use Rattle.lease_disk.specs.Model.{disk_region};
ghost use Rattle.lease_disk.specs.Region.{IsClean};
ghost use Rattle.lease_disk.specs.Save.{AreMarks, Fits};

use crate::save_tests::{
    Change, bound, change4, change6, formatted_disk, free_at, is_as, keep, lease_at, leased_at,
    new_disk, read_back,
};
use lease_disk::*;
use std::alloc::AllocGlobal;
use std::process::Abort;
use types::{Key6, Slot4, Slot6, Slots};

/// Where the device stops: in its k-th call, or in none where k is 0; and what its unsynced bytes then
/// become, which stay as they read where there is no byte, as by a stop between two calls.
#[derive(Clone, Copy)]
pub struct Cut {
    pub k: u8,
    pub byte: Option<u8>,
}

impl Cut {
    /// Whether a save that stops there leaves the new slots.
    fn leaves_new(self) -> bool {
        matches!(
            (self.k, self.byte),
            (0, _) | (5, Some(0xa5)) | (6, Some(0xa5) | None)
        )
    }
}

pub fn settle(disk: &mut ModelDisk, byte: Option<u8>) -> Result<(), Fault>
    requires count { length disk.old.regions ≡ 1 }
    ensures count { length disk.new.regions ≡ 1 }
    ensures clean { OnOk result (IsClean (disk_region disk.new 0)) }
{
    if let Some(byte) = byte {
        disk.crash(0, Image::Byte(byte));
        return Ok(());
    }
    disk.sync(0)
}

/// Saves, stops there, and reads the region back.
fn stop(disk: &mut ModelDisk, marks: &mut Marks, change: &Change, cut: Cut) -> Option<Slots>
    requires count { length disk.old.regions ≡ 1 }
    requires clean { IsClean (disk_region disk.old 0) }
    requires format { is_format2 (disk_region disk.old 0).byte ≡ true }
    requires marks { AreMarks (16 ∷ 16 ∷ []) (disk_region disk.old 0).byte marks.old }
    requires fits { Fits change.now.slot change.now.content }
    ensures count { length disk.new.regions ≡ 1 }
    ensures format { OnSome result (is_format2 (disk_region disk.new 0).byte ≡ true) }
    ensures clean { OnSome result (IsClean (disk_region disk.new 0)) }
    ensures marks { OnSome result (AreMarks (16 ∷ 16 ∷ []) (disk_region disk.new 0).byte marks.new) }
{
    disk.fail_at(0, cut.k);
    if keep(disk, marks, change).is_ok() != (cut.k == 0) {
        return None;
    }
    let Ok(()) = settle(disk, cut.byte) else {
        return None;
    };
    let Ok((slots, found)) = read_back(disk) else {
        return None;
    };
    *marks = found;
    Some(slots)
}

/// Whether a change of the client's lease at clock 101 that stops there leaves the slots that it should.
fn is_kept(rt: &(impl Abort + AllocGlobal), change: &Change, after: &Slots, cut: Cut) -> bool
    requires fits { Fits change.now.slot change.now.content }
{
    let (mut disk, mut marks) = formatted_disk(rt);
    keep(&mut disk, &mut marks, &lease_at(101)).expect(rt, "the first save");
    let found = stop(&mut disk, &mut marks, change, cut);
    if cut.leaves_new() {
        is_as(found, after)
    } else {
        is_as(found, &leased_at(101))
    }
}

/// Where a change of that lease stops and leaves other slots than it should, of all places and bytes.
fn wrong_cut(rt: &(impl Abort + AllocGlobal), change: &Change, after: &Slots) -> Option<Cut>
    requires fits { Fits change.now.slot change.now.content }
{
    for k in 0..7 {
        for byte in 0..257 {
            // 256 stands for no byte
            let byte = u8::try_from(byte).ok();
            let cut = Cut { k, byte };
            if !is_kept(rt, change, after, cut) {
                return Some(cut);
            }
        }
    }
    None
}

#[test]
fn stops_while_a_slot_is_freed(rt: HostRuntime) {
    let change = change4(102, 0, Slot4::Free);
    assert!(rt; wrong_cut(&rt, &change, &free_at(102)).is_none());
}

#[test]
fn stops_while_a_lease_is_extended(rt: HostRuntime) {
    assert!(rt; wrong_cut(&rt, &lease_at(102), &leased_at(102)).is_none());
}

#[test]
fn stops_while_an_expired_client_gets_another_slot(rt: HostRuntime) {
    // its lease of slot 0 ended at 701, and its bytes stay there
    let change = change4(701, 1, bound(1301));
    let mut after = free_at(701);
    after.four[1] = bound(1301);
    assert!(rt; wrong_cut(&rt, &change, &after).is_none());
}

/// Whether two saves in a row that stop there leave the slots that they should.
fn two_stops(
    disk: &mut ModelDisk,
    marks: &mut Marks,
    before: &Slots,
    first: Cut,
    second: Cut,
) -> bool
    requires count { length disk.old.regions ≡ 1 }
    requires clean { IsClean (disk_region disk.old 0) }
    requires format { is_format2 (disk_region disk.old 0).byte ≡ true }
    requires marks { AreMarks (16 ∷ 16 ∷ []) (disk_region disk.old 0).byte marks.old }
{
    let Some(found) = stop(disk, marks, &lease_at(101), first) else {
        return false;
    };
    let kept = if first.leaves_new() {
        leased_at(101)
    } else {
        *before
    };
    let last = stop(disk, marks, &lease_at(102), second);
    is_as(Some(found), &kept)
        && if second.leaves_new() {
            is_as(last, &leased_at(102))
        } else {
            is_as(last, &kept)
        }
}

fn two_stops_formatted(rt: &(impl Abort + AllocGlobal), first: Cut, second: Cut) -> bool {
    let (mut disk, mut marks) = formatted_disk(rt);
    two_stops(&mut disk, &mut marks, &free_at(0), first, second)
}

/// Two stops in saves of a slot both of whose halves are open.
fn two_stops_saved(rt: &(impl Abort + AllocGlobal), first: Cut, second: Cut) -> bool {
    let (mut disk, mut marks) = formatted_disk(rt);
    keep(&mut disk, &mut marks, &lease_at(100)).expect(rt, "the first save");
    two_stops(&mut disk, &mut marks, &leased_at(100), first, second)
}

/// What the unsynced bytes become: those that mean something in a half, two others, and none.
const BYTES: [Option<u8>; 7] = [
    Some(0x00),
    Some(0x01),
    Some(0x02),
    Some(0x5a),
    Some(0xa5),
    Some(0xff),
    None,
];

/// Where a save stops at this cut, and the next one at another with the same byte, and the two leave something else
/// than they should.
fn wrong_second(rt: &(impl Abort + AllocGlobal), is_saved: bool, first: Cut) -> Option<(Cut, Cut)> {
    for k in 0..7 {
        let byte = first.byte;
        let second = Cut { k, byte };
        let holds = if is_saved {
            two_stops_saved(rt, first, second)
        } else {
            two_stops_formatted(rt, first, second)
        };
        if !holds {
            return Some((first, second));
        }
    }
    None
}

/// Where two saves in a row stop and leave other slots than they should, of all pairs of calls, with one byte for both.
fn wrong_pair(rt: &(impl Abort + AllocGlobal), is_saved: bool) -> Option<(Cut, Cut)> {
    for byte in BYTES {
        for k in 0..7 {
            let pair = wrong_second(rt, is_saved, Cut { k, byte });
            if pair.is_some() {
                return pair;
            }
        }
    }
    None
}

#[test]
fn two_stops_from_a_formatted_region(rt: HostRuntime) {
    assert!(rt; wrong_pair(&rt, false).is_none());
}

#[test]
fn two_stops_with_both_halves_open(rt: HostRuntime) {
    assert!(rt; wrong_pair(&rt, true).is_none());
}

/// A DHCPv6 client, which has a DUID that ends with this byte, bound until 702.
fn bound6(client: u8) -> Slot6 {
    let duid = [0, 3, 0, 1, 2, 0, 0, 0, 0, client];
    Slot6::Bound(Key6::new(&duid, 1).unwrap(), 702)
}

/// Whether this change, after two saves of slot 16 at 100 and 101, leaves the slots that it should where it
/// stops there.
fn is_kept6(
    rt: &(impl Abort + AllocGlobal),
    change: &Change,
    before: &Slots,
    after: &Slots,
    cut: Cut,
) -> bool
    requires fits { Fits change.now.slot change.now.content }
{
    let (mut disk, mut marks) = formatted_disk(rt);
    keep(&mut disk, &mut marks, &change6(100, 16, Slot6::Barred(702))).expect(rt, "the first save");
    keep(&mut disk, &mut marks, &change6(101, 16, bound6(2))).expect(rt, "the second save");
    let found = stop(&mut disk, &mut marks, change, cut);
    is_as(found, if cut.leaves_new() { after } else { before })
}

/// Where a save that leaves this in a DHCPv6 slot at clock 102 stops and leaves other slots than it should.
fn wrong_cut6(rt: &(impl Abort + AllocGlobal), slot: usize, content: &Slot6) -> Option<Cut>
    requires from { 16 ≤ slot }
    requires below { slot < 32 }
{
    let change = change6(102, slot, *content);
    let mut before = free_at(101);
    before.six[0] = bound6(2);
    let mut after = before;
    after.clock = change.clock;
    after.six[slot - 16] = *content;
    for byte in BYTES {
        for k in 0..7 {
            let cut = Cut { k, byte };
            if !is_kept6(rt, &change, &before, &after, cut) {
                return Some(cut);
            }
        }
    }
    None
}

#[test]
fn stops_while_a_dhcpv6_slot_is_saved(rt: HostRuntime) {
    // the lease is released, the address declined, and given to another client, who also gets the last one
    assert!(rt; wrong_cut6(&rt, 16, &Slot6::Free).is_none());
    assert!(rt; wrong_cut6(&rt, 16, &Slot6::Barred(702)).is_none());
    assert!(rt; wrong_cut6(&rt, 16, &bound6(3)).is_none());
    assert!(rt; wrong_cut6(&rt, 31, &bound6(3)).is_none());
}

/// Whether a formatting whose k-th call fails leaves the region damaged or empty, as it should: what it
/// wrote first is synced by its second call, and then the byte of the format decides.
fn is_formatted_by(disk: &mut ModelDisk, k: u8, byte: u8) -> bool
    requires { length disk.old.regions ≡ 1 }
{
    disk.fill(0, 0x5a);
    disk.fail_at(0, k);
    let fails = format(0, disk).is_err();
    disk.crash(0, Image::Byte(byte));
    fails
        && match recover(0, disk, [16, 16]) {
            Ok((slots, _)) => k > 2 && byte == 2 && is_as(Some(slots), &free_at(0)),
            Err(fault) => fault == RecoverFault::Damaged && (k < 3 || byte != 2),
        }
}

/// Where a formatting stops and leaves the region otherwise.
fn wrong_formatting(rt: &(impl Abort + AllocGlobal)) -> Option<Cut> {
    for k in 1..5 {
        for byte in 0..=255 {
            if !is_formatted_by(&mut new_disk(rt, 1), k, byte) {
                let byte = Some(byte);
                return Some(Cut { k, byte });
            }
        }
    }
    None
}

#[test]
fn stops_while_a_region_is_formatted(rt: HostRuntime) {
    assert!(rt; wrong_formatting(&rt).is_none());
}
