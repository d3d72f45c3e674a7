//! Reading the banks of a region of format 1.
ghost use Rattle.std.specs.Prelude.{◌≡◌, ◌≤◌, ◌<◌, ◌+◌, ℕ, true, false, length, is_ok, slice_index, IfOk, OnOk};
ghost use Rattle.lease_disk.specs.Device.{OthersStaySettled, TouchesNothing};
ghost use Rattle.lease_disk.specs.Halves.{AreHalves, place};
ghost use Rattle.lease_disk.specs.Layout.{is_format2};
ghost use Rattle.lease_disk.specs.Region.{faults_after};

use super::banks::{BANKS_SIZE, place};
use crate::device::{Disk, Fault};
use crate::half::HALVES_SIZE;

/// What both banks have of all slots, as halves, by the first bytes of a region.
pub fn halves_of_banks(banks: &[u8]) -> [u8; HALVES_SIZE]
    requires { 8192 ≤ length banks.now }
    ensures { (i : ℕ) → i < 16384 → slice_index result i ≡ slice_index banks.now (place i) }
{
    let mut halves = [0; HALVES_SIZE];
    for i in 0..HALVES_SIZE {
        halves[i] = banks[place(i)];
    }
    halves
}

/// Reads what both banks of a region have of all slots, as halves.
pub fn read_banks<D: Disk>(region: u16, disk: &mut D) -> Result<[u8; HALVES_SIZE], Fault>
    requires { region < (D.device disk.old).count }
    ensures halves { D.tells ≡ true → is_format2 ((D.device disk.old).region region).byte ≡ false
        → IfOk result (λ halves. AreHalves halves ((D.device disk.old).region region).byte) }
    ensures answer { D.tells ≡ true → is_ok result ≡ ((D.device disk.old).region region).readable }
    ensures frame { TouchesNothing D.tells (D.device disk.old) (D.device disk.new) }
    ensures reads { (D.device disk.new).reads ≡ (D.device disk.old).reads + 1 }
    ensures failures { (D.device disk.new).failures ≡ faults_after region result (D.device disk.old).failures }
    ensures settled { OnOk result (D.doubt disk.new region ≡ false) }
    ensures stay { OthersStaySettled region (D.doubt disk.old) (D.doubt disk.new) }
{
    let mut banks = [0; BANKS_SIZE];
    disk.read(region, 0, &mut banks)?;
    Ok(halves_of_banks(&banks))
}
