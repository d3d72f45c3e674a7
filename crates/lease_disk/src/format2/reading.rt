//! Reading the halves of a region of format 2.
ghost use Rattle.std.specs.Prelude.{◌≡◌, ◌<◌, ◌+◌, ℕ, true, false, length, is_ok, slice_index, IfOk, OnOk};
ghost use Rattle.lease_disk.specs.Device.{OthersStaySettled, TouchesNothing};
ghost use Rattle.lease_disk.specs.Halves.{AreHalves};
ghost use Rattle.lease_disk.specs.Layout.{is_format2};
ghost use Rattle.lease_disk.specs.Region.{faults_after};

use super::layout::HALVES_AT;
use crate::device::{Disk, Fault, REGION};
use crate::half::HALVES_SIZE;

/// The halves of all slots, in the bytes of a region.
pub fn halves_in(bytes: &[u8; REGION]) -> &[u8]
    ensures halves { (i : ℕ) → i < length result.now → slice_index result.now i ≡ slice_index bytes.now (16384 + i) }
    ensures all { length result.now ≡ 16384 }
{
    &bytes[HALVES_AT..]
}

/// Reads the halves of all slots of a region.
pub fn read_halves<D: Disk>(region: u16, disk: &mut D) -> Result<[u8; HALVES_SIZE], Fault>
    requires { region < (D.device disk.old).count }
    ensures halves { D.tells ≡ true → is_format2 ((D.device disk.old).region region).byte ≡ true
        → IfOk result (λ halves. AreHalves halves ((D.device disk.old).region region).byte) }
    ensures answer { D.tells ≡ true → is_ok result ≡ ((D.device disk.old).region region).readable }
    ensures frame { TouchesNothing D.tells (D.device disk.old) (D.device disk.new) }
    ensures reads { (D.device disk.new).reads ≡ (D.device disk.old).reads + 1 }
    ensures failures { (D.device disk.new).failures ≡ faults_after region result (D.device disk.old).failures }
    ensures settled { OnOk result (D.doubt disk.new region ≡ false) }
    ensures stay { OthersStaySettled region (D.doubt disk.old) (D.doubt disk.new) }
{
    let mut bytes = [0; HALVES_SIZE];
    disk.read(region, HALVES_AT, &mut bytes)?;
    Ok(bytes)
}
