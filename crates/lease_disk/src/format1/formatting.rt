//! Formatting a region as earlier versions did.
ghost use Rattle.std.specs.Prelude.{◌≡◌, ◌<◌, ◌==◌, ℕ, true, length, slice_index, if◌then◌else◌, OnOk, OnErr};
ghost use Rattle.lease_disk.specs.Crash.{IsFormattedOld, IsHalfFormattedOld, IsHalfWritten};
ghost use Rattle.lease_disk.specs.Device.{MakesCalls, Touches};
ghost use Rattle.lease_disk.specs.Layout.{formatted_old};

use crate::bytes::{overwrite, put};
use crate::device::{Disk, Fault, REGION};
use crate::formats::{FORMAT_AT, OLD_FORMAT};
use crate::half::GATE_OPEN;
use crate::writing::write_synced;

/// Writes what a formatted region has before the gate of its first bank is opened.
fn closed_banks(bytes: &mut [u8])
    requires { length bytes.old ≡ 32768 }
    ensures { (i : ℕ) → slice_index bytes.new i ≡ (if i == 8192 then 1 else 0) }
{
    overwrite(bytes, 0);
    put(bytes, FORMAT_AT, &[OLD_FORMAT]);
}

/// Formats a region in format 1, whatever it holds: an empty book at clock 0. The gate of its first bank is
/// opened last: until then it is damaged, wherever the device stops.
pub fn format_old<D: Disk>(region: u16, disk: &mut D) -> Result<(), Fault>
    requires { region < (D.device disk.old).count }
    ensures ok { D.tells ≡ true → OnOk result (IsFormattedOld ((D.device disk.new).region region)) }
    ensures err { D.tells ≡ true
        → OnErr result
        (IsHalfFormattedOld ((D.device disk.old).failing_call region) ((D.device disk.new).region region)) }
    ensures left { D.tells ≡ true
        → OnErr result (IsHalfWritten 0 formatted_old ((D.device disk.old).failing_call region) ((D.device disk.new).region region)) }
    ensures readable { D.tells ≡ true
        → ((D.device disk.new).region region).readable ≡ ((D.device disk.old).region region).readable }
    ensures frame { Touches D.tells region (D.device disk.old) (D.device disk.new) }
    ensures calls { MakesCalls D.tells 4 region result (D.device disk.old) (D.device disk.new) }
{
    let mut bytes = [0; REGION];
    closed_banks(&mut bytes);
    write_synced(region, disk, 0, &bytes)?;
    write_synced(region, disk, 0, &[GATE_OPEN])
}
