//! Formatting a region.
ghost use Rattle.std.specs.Prelude.{◌≡◌, ◌<◌, ◌≤◌, ◌+◌, ◌%◌, ◌-◌, ◌==◌, ◌&&◌, ℕ, true, nat_le, nat_lt, if◌then◌else◌};
ghost use Rattle.std.specs.Prelude.{length, is_ok, slice_index, OnOk, OnErr};
ghost use Rattle.lease_disk.specs.Crash.{IsFormatted, IsHalfFormatted, IsHalfWritten};
ghost use Rattle.lease_disk.specs.Device.{Touches};
ghost use Rattle.lease_disk.specs.Layout.{formatted};
ghost use Rattle.lease_disk.specs.Region.{effective, faults_after};

use super::layout::half_at;
use crate::bytes::{overwrite, put};
use crate::device::{Disk, Fault, REGION};
use crate::formats::{FORMAT, FORMAT_AT};
use crate::half::{GATE_OPEN, Half};
use crate::writing::write_synced;

/// Opens the gate of each slot's first half, over zeros.
fn open_first_halves(bytes: &mut [u8])
    requires all { length bytes.old ≡ 32768 }
    ensures { (i : ℕ) → slice_index bytes.new i ≡ (if nat_le 16384 i && nat_lt i 32768 && i % 512 == 0 then 0xa5 else 0) }
{
    overwrite(bytes, 0);
    for slot in 0..32 {
        bytes[half_at(slot, Half::First)] = GATE_OPEN;
    }
}

/// Writes what a formatted region has, over whatever there is.
pub fn format_bytes(bytes: &mut [u8])
    requires { length bytes.old ≡ 32768 }
    ensures { (i : ℕ) → slice_index bytes.new i ≡ formatted i }
{
    open_first_halves(bytes);
    put(bytes, FORMAT_AT, &[FORMAT]);
}

/// Formats a region, whatever it holds: an empty book at clock 0. The byte that says its format is
/// written last: until then it is damaged, wherever the device stops.
pub fn format<D: Disk>(region: u16, disk: &mut D) -> Result<(), Fault>
    requires { region < (D.device disk.old).count }
    ensures ok { D.tells ≡ true → OnOk result (IsFormatted ((D.device disk.new).region region)) }
    ensures err { D.tells ≡ true
        → OnErr result (IsHalfFormatted ((D.device disk.old).failing_call region) ((D.device disk.new).region region)) }
    ensures left { D.tells ≡ true
        → OnErr result (IsHalfWritten 8192 formatted ((D.device disk.old).failing_call region) ((D.device disk.new).region region)) }
    ensures readable { D.tells ≡ true → ((D.device disk.new).region region).readable ≡ ((D.device disk.old).region region).readable }
    ensures answer { D.tells ≡ true → is_ok result ≡ (effective 4 ((D.device disk.old).failing_call region) == 0) }
    ensures failing_call { D.tells ≡ true
        → OnOk result ((D.device disk.new).failing_call region ≡ (D.device disk.old).failing_call region - 4) }
    ensures frame { Touches D.tells region (D.device disk.old) (D.device disk.new) }
    ensures writes { OnOk result ((D.device disk.new).writes ≡ (D.device disk.old).writes + 4) }
    ensures most { (D.device disk.new).writes ≤ (D.device disk.old).writes + 4 }
    ensures last { D.tells ≡ true
        → OnErr result ((D.device disk.new).writes ≡ (D.device disk.old).writes + (D.device disk.old).failing_call region) }
    ensures failures { (D.device disk.new).failures ≡ faults_after region result (D.device disk.old).failures }
{
    let mut bytes = [0; REGION];
    open_first_halves(&mut bytes);
    write_synced(region, disk, 0, &bytes)?;
    write_synced(region, disk, FORMAT_AT, &[FORMAT])
}
