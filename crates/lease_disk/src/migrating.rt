//! Moving a region from format 1 to format 2.
ghost use Rattle.std.specs.Prelude.{◌≡◌, ◌<◌, ◌≤◌, ◌∷◌, [], ℕ, true, false, length, is_ok, slice_index, IfErr, OnOk, OnErr};
ghost use Rattle.lease_disk.specs.Device.{ChangesOne, KeepsSettled, MakesCalls, SettlesItsRegion, Touches};
ghost use Rattle.lease_disk.specs.HalfBytes.{half_bytes};
ghost use Rattle.lease_disk.specs.Keys.{HasKey};
ghost use Rattle.lease_disk.specs.Moving.{IsHalfMoved, IsMigrated, MakesMoveCalls, content_at, moved_half, moves, refusal, succeeds};
ghost use Rattle.lease_disk.specs.Region.{IsClean, synced, written};

use crate::bytes::{overwrite, put};
use crate::content::Content;
use crate::device::{Disk, Fault};
use crate::format2::{HALVES_AT, write_half};
use crate::formats::{FORMAT, FORMAT_AT, has_format2};
use crate::half::SLOT_SIZE;
use crate::recovering::{RecoverFault, recover};
use crate::writing::write_synced;
use types::Slots;

/// What a slot of these holds.
fn content_at(slots: &Slots, slot: usize) -> Content
    requires { slot < 32 }
    ensures { result ≡ content_at slots.now slot }
{
    if slot < 16 {
        Content::Four(slots.four[slot])
    } else {
        Content::Six(slots.six[slot - 16])
    }
}

/// Makes the halves of all slots: the first of each holds what the slot holds, from the kept clock on.
fn write_halves(slots: &Slots, halves: &mut [u8])
    requires { length halves.old ≡ 16384 }
    ensures bytes { (i : ℕ) → i < 16384 → slice_index halves.new i ≡ moved_half slots.now i }
    ensures all { length halves.new ≡ 16384 }
    ensures keys { (s : ℕ) → s < 32 → HasKey (content_at slots.now s) }
    ensures whole { (s : ℕ) → s < 32 → length (half_bytes 0 slots.now.clock (content_at slots.now s)) ≡ 256 }
    ensures clock { slots.now.clock ≤ 1099511627775 }
{
    overwrite(halves, 0);
    for slot in 0..32 {
        let half = write_half(0, slots.clock, &content_at(slots, slot));
        put(halves, SLOT_SIZE * slot, half.as_slice());
    }
}

/// Writes the halves of all slots, and then the byte of the format, each with its sync. None of these four calls
/// follows one that fails.
fn write_moved<D: Disk>(region: u16, disk: &mut D, halves: &[u8]) -> Result<(), Fault>
    requires exists { region < (D.device disk.old).count }
    requires all { length halves.now ≡ 16384 }
    ensures ok { D.tells ≡ true → OnOk result ((D.device disk.new).region region
        ≡ synced (written 8192 (2 ∷ []) (synced (written 16384 halves.now ((D.device disk.old).region region))))) }
    ensures err { D.tells ≡ true → OnErr result (IsHalfMoved ((D.device disk.old).failing_call region) halves.now
        ((D.device disk.old).region region) ((D.device disk.new).region region)) }
    ensures frame { Touches D.tells region (D.device disk.old) (D.device disk.new) }
    ensures calls { MakesCalls D.tells 4 region result (D.device disk.old) (D.device disk.new) }
    ensures doubt { KeepsSettled region result (D.doubt disk.old) (D.doubt disk.new) }
{
    write_synced(region, disk, HALVES_AT, halves)?;
    write_synced(region, disk, FORMAT_AT, &[FORMAT])
}

/// Moves a region of format 1 to format 2, for pools of so many DHCPv4 and DHCPv6 addresses: what it recovers to
/// is written as the slots of format 2, in a place that format 1 does not use, and then the byte that says the
/// format. A stop anywhere leaves the same book, in either format. Of a region of format 2 and of a damaged one
/// nothing is written. Takes no memory: the halves are made in the buffer.
pub fn migrate<D: Disk>(
    region: u16,
    disk: &mut D,
    counts: [u8; 2],
    buffer: &mut [u8],
) -> Result<(), RecoverFault>
    requires exists { region < (D.device disk.old).count }
    requires buffer { length buffer.old ≡ 16384 }
    requires clean { D.tells ≡ true → ((D.device disk.old).region region).readable ≡ true
        → IsClean ((D.device disk.old).region region) }
    ensures answer { D.tells ≡ true
        → is_ok result ≡ succeeds counts ((D.device disk.old).failing_call region) ((D.device disk.old).region region) }
    ensures refusal { D.tells ≡ true → IfErr result (λ fault. fault ≡ refusal counts ((D.device disk.old).region region)) }
    ensures still { D.tells ≡ true → moves counts ((D.device disk.old).region region) ≡ false
        → (D.device disk.new).region region ≡ (D.device disk.old).region region }
    ensures region { D.tells ≡ true → ((D.device disk.old).region region).readable ≡ true
        → IsMigrated counts ((D.device disk.old).failing_call region) ((D.device disk.old).region region)
        ((D.device disk.new).region region) }
    ensures frame { ChangesOne D.tells region (D.device disk.old) (D.device disk.new) }
    ensures calls { MakesMoveCalls D.tells counts region result (D.device disk.old) (D.device disk.new) }
    ensures doubt { SettlesItsRegion region result (D.doubt disk.old) (D.doubt disk.new) }
{
    let Ok(two) = has_format2(region, disk) else {
        return Err(RecoverFault::DiskFault);
    };
    let (slots, _) = recover(region, disk, counts)?;
    if two {
        return Ok(());
    }
    write_halves(&slots, buffer);
    match write_moved(region, disk, buffer) {
        Ok(()) => Ok(()),
        Err(Fault) => Err(RecoverFault::DiskFault),
    }
}
