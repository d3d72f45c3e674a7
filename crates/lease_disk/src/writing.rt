//! Writing to a region and syncing it.
ghost use Rattle.std.specs.Prelude.{◌<◌, ◌≤◌, ◌+◌, length};
ghost use Rattle.lease_disk.specs.Device.{IsWritten, KeepsSettled};

use crate::device::{Disk, Fault};

/// Writes bytes to a region from an offset on, and syncs.
pub(crate) fn write_synced<D: Disk>(
    region: u16,
    disk: &mut D,
    at: usize,
    bytes: &[u8],
) -> Result<(), Fault>
    requires exists { region < (D.device disk.old).count }
    requires fits { at + length bytes.now ≤ 32768 }
    ensures written { IsWritten D.tells region at bytes.now result (D.device disk.old) (D.device disk.new) }
    ensures doubt { KeepsSettled region result (D.doubt disk.old) (D.doubt disk.new) }
{
    disk.write_at(region, at, bytes)?;
    disk.sync(region)
}
