//! Reading back what a region holds.
ghost use Rattle.std.specs.Prelude.{◌≡◌, ◌<◌, ◌+◌, true, false, is_ok, slice_index, option_map, IfOk, IfSome, OnOk};
ghost use Rattle.lease_disk.specs.Book.{IsBook};
ghost use Rattle.lease_disk.specs.Device.{IsCalledWithin, OthersStaySettled, SettlesItsRegion, TouchesNothing};
ghost use Rattle.lease_disk.specs.Halves.{AreHalves};
ghost use Rattle.lease_disk.specs.Layout as layout;
ghost use Rattle.lease_disk.specs.Recover.{Answers, recover_faults};
ghost use Rattle.lease_disk.specs.Recovered.{recovered};
ghost use Rattle.lease_disk.specs.Region.{faults_after};
ghost use Rattle.lease_disk.specs.Save.{AreMarks};

use crate::device::{Disk, Fault, REGION};
use crate::format1::{halves_of_banks, read_banks};
use crate::format2::{halves_in, read_halves};
use crate::formats::{FORMAT, FORMAT_AT, has_format2};
use crate::half::HALVES_SIZE;
use crate::marks::{Marks, read_marks};
use crate::pool::read_region_slots;
use thiserror::Error;
use types::Slots;

/// Why a region was not recovered.
#[derive(Clone, Copy, Debug, PartialEq, Eq, Error)]
pub enum RecoverFault {
    /// The device failed in one of the reads.
    #[error("the device failed")]
    DiskFault,
    /// The region was read, and its bytes are those of no book.
    #[error("the region is damaged")]
    Damaged,
}

/// The live slots at the kept clock that the bytes of a region mean, for pools of so many DHCPv4 and DHCPv6
/// addresses, as `recover` returns them; `None` where the region is damaged.
pub fn slots_in(bytes: &[u8; REGION], counts: [u8; 2]) -> Option<Slots>
    ensures slots { result ≡ recovered counts (slice_index bytes.now) }
    ensures book { IfSome result (IsBook counts) }
{
    let format = bytes[FORMAT_AT];
    if format != FORMAT {
        return read_region_slots(&halves_of_banks(bytes), false, counts);
    }
    read_region_slots(halves_in(bytes), true, counts)
}

/// Reads the halves of all slots of a region of this format.
fn read_all_halves<D: Disk>(
    region: u16,
    disk: &mut D,
    is_format2: bool,
) -> Result<[u8; HALVES_SIZE], Fault>
    requires exists { region < (D.device disk.old).count }
    requires format { D.tells ≡ true → is_format2 ≡ layout.is_format2 ((D.device disk.old).region region).byte }
    ensures halves { D.tells ≡ true → IfOk result (λ halves. AreHalves halves ((D.device disk.old).region region).byte) }
    ensures answer { D.tells ≡ true → is_ok result ≡ ((D.device disk.old).region region).readable }
    ensures frame { TouchesNothing D.tells (D.device disk.old) (D.device disk.new) }
    ensures reads { (D.device disk.new).reads ≡ (D.device disk.old).reads + 1 }
    ensures failures { (D.device disk.new).failures ≡ faults_after region result (D.device disk.old).failures }
    ensures settled { OnOk result (D.doubt disk.new region ≡ false) }
    ensures stay { OthersStaySettled region (D.doubt disk.old) (D.doubt disk.new) }
{
    if is_format2 {
        read_halves(region, disk)
    } else {
        read_banks(region, disk)
    }
}

/// What a region holds and its marks; `None` where it is damaged.
fn read_region<D: Disk>(
    region: u16,
    disk: &mut D,
    counts: [u8; 2],
) -> Result<Option<(Slots, Marks)>, Fault>
    requires { region < (D.device disk.old).count }
    ensures slots { D.tells ≡ true
        → IfOk result (λ found. recovered counts ((D.device disk.old).region region).byte ≡ option_map (λ f. f.0) found) }
    ensures marks { D.tells ≡ true → layout.is_format2 ((D.device disk.old).region region).byte ≡ true
        → IfOk result (λ found. IfSome found (λ f. AreMarks counts ((D.device disk.old).region region).byte f.1)) }
    ensures book { IfOk result (λ found. IfSome found (λ f. IsBook counts f.0)) }
    ensures answer { D.tells ≡ true → is_ok result ≡ ((D.device disk.old).region region).readable }
    ensures frame { TouchesNothing D.tells (D.device disk.old) (D.device disk.new) }
    ensures calls { IsCalledWithin 1 2 0 (D.device disk.old) (D.device disk.new) }
    ensures doubt { SettlesItsRegion region result (D.doubt disk.old) (D.doubt disk.new) }
    ensures failures { (D.device disk.new).failures ≡ faults_after region result (D.device disk.old).failures }
{
    let is_format2 = has_format2(region, disk)?;
    let halves = read_all_halves(region, disk, is_format2)?;
    let Some(slots) = read_region_slots(&halves, is_format2, counts) else {
        return Ok(None);
    };
    Ok(Some((slots, read_marks(&halves))))
}

/// Reads a region of either format back: its live slots at the kept clock, for pools of so many DHCPv4 and DHCPv6
/// addresses, and, in format 2, the marks that the next save wants. Slots past a pool's count are not read, and
/// are free in the answer. Unsynced bytes count as they read now. Takes no memory.
pub fn recover<D: Disk>(
    region: u16,
    disk: &mut D,
    counts: [u8; 2],
) -> Result<(Slots, Marks), RecoverFault>
    requires exists { region < (D.device disk.old).count }
    ensures answer { D.tells ≡ true → Answers counts ((D.device disk.old).region region) result }
    ensures book { IfOk result (λ found. IsBook counts found.0) }
    ensures frame { TouchesNothing D.tells (D.device disk.old) (D.device disk.new) }
    ensures calls { IsCalledWithin 1 2 0 (D.device disk.old) (D.device disk.new) }
    ensures doubt { SettlesItsRegion region result (D.doubt disk.old) (D.doubt disk.new) }
    ensures failures { (D.device disk.new).failures ≡ recover_faults region result (D.device disk.old).failures }
{
    match read_region(region, disk, counts) {
        Ok(Some(found)) => Ok(found),
        Ok(None) => Err(RecoverFault::Damaged),
        Err(Fault) => Err(RecoverFault::DiskFault),
    }
}
