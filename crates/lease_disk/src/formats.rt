//! Which format a region has.
ghost use Rattle.std.specs.Prelude.{◌≡◌, ◌<◌, ◌+◌, true, false, is_ok, IfOk, OnOk};
ghost use Rattle.lease_disk.specs.Device.{OthersStaySettled, TouchesNothing};
ghost use Rattle.lease_disk.specs.Layout.{is_format2};
ghost use Rattle.lease_disk.specs.Region.{faults_after};

use crate::device::{Disk, Fault};

/// The byte that says the format of a region: 2 means format 2, any other value format 1.
pub const FORMAT_AT: usize = 8192;

/// The format in which slots are saved.
pub const FORMAT: u8 = 2;

/// What earlier versions wrote in place of `FORMAT`. Regions of their format are recovered, and moved by `migrate`.
pub const OLD_FORMAT: u8 = 1;

/// Reads the byte that says which format a region has.
pub fn read_format<D: Disk>(region: u16, disk: &mut D) -> Result<u8, Fault>
    requires { region < (D.device disk.old).count }
    ensures format { D.tells ≡ true → IfOk result (λ format. format ≡ ((D.device disk.old).region region).byte 8192) }
    ensures answer { D.tells ≡ true → is_ok result ≡ ((D.device disk.old).region region).readable }
    ensures frame { TouchesNothing D.tells (D.device disk.old) (D.device disk.new) }
    ensures reads { (D.device disk.new).reads ≡ (D.device disk.old).reads + 1 }
    ensures failures { (D.device disk.new).failures ≡ faults_after region result (D.device disk.old).failures }
    ensures settled { OnOk result (D.doubt disk.new region ≡ false) }
    ensures stay { OthersStaySettled region (D.doubt disk.old) (D.doubt disk.new) }
{
    let mut bytes = [0; 1];
    disk.read(region, FORMAT_AT, &mut bytes)?;
    Ok(bytes[0])
}

/// Reads whether a region has format 2.
pub(crate) fn has_format2<D: Disk>(region: u16, disk: &mut D) -> Result<bool, Fault>
    requires { region < (D.device disk.old).count }
    ensures format { D.tells ≡ true → IfOk result (λ two. two ≡ is_format2 ((D.device disk.old).region region).byte) }
    ensures answer { D.tells ≡ true → is_ok result ≡ ((D.device disk.old).region region).readable }
    ensures frame { TouchesNothing D.tells (D.device disk.old) (D.device disk.new) }
    ensures reads { (D.device disk.new).reads ≡ (D.device disk.old).reads + 1 }
    ensures failures { (D.device disk.new).failures ≡ faults_after region result (D.device disk.old).failures }
    ensures settled { OnOk result (D.doubt disk.new region ≡ false) }
    ensures stay { OthersStaySettled region (D.doubt disk.old) (D.doubt disk.new) }
{
    let format = read_format(region, disk)?;
    Ok(format == FORMAT)
}
