//! Devices that keep regions.
ghost use Rattle.std.specs.List.{list_any};
ghost use Rattle.std.specs.Prelude.{◌≡◌, ℕ, Bool, true, false, not, ◌+◌, ◌-◌, ◌==◌, ◌<◌, ◌≤◌, length, is_ok, OnOk, OnErr};
ghost use Rattle.lease_disk.specs.Device.{AreSettled, KeepsSettled, OthersStaySettled, RestStaysSettled};
ghost use Rattle.lease_disk.specs.Device.{Device, Touches, TouchesAll, TouchesNothing, is_in, set_faults};
ghost use Rattle.lease_disk.specs.Region.{IsRead, IsTorn, written, synced, faults_after};

use thiserror::Error;

/// The number of bytes of a region.
pub const REGION: usize = 32768;

/// The device failed.
#[derive(Clone, Copy, Debug, PartialEq, Eq, Error)]
#[error("the device failed")]
pub struct Fault;

/// A device with numbered regions of `REGION` bytes. Between two syncs of a region each range that
/// was written, also by a write that failed, may hold any bytes after a crash; bytes outside stay.
/// After a successful sync a crash leaves what a read gives. Contracts also see how often the
/// device was called and how often it failed.
pub trait Disk {
    /// Whether reads give and crashes leave what `device` says. A file, whose contents no contract
    /// can know, does not tell.
    ghost tells: { Bool };

    /// The device as contracts see it.
    ghost device: { Self → Device };

    /// Of each region, whether what a read gives may not be on the disk, although no write since would
    /// say so: a sync that failed may have left it so, of this program or of an earlier one. Such a region
    /// is in doubt, and any other one is settled.
    ghost doubt: { Self → ℕ → Bool };

    /// How many regions there are; the first is 0.
    fn regions(&self) -> u16
        ensures { result ≡ (device self.now).count };

    /// Fills `out` with the bytes of a region from an offset on. At an error `out` holds any bytes. What was read of
    /// a region in doubt is on the disk.
    fn read(&mut self, region: u16, at: usize, out: &mut [u8]) -> Result<(), Fault>
        requires exists { region < (device self.old).count }
        requires fits { at + length out.old ≤ 32768 }
        ensures bytes { tells ≡ true → OnOk result (IsRead ((device self.old).region region) at out.new) }
        ensures answer { tells ≡ true → is_ok result ≡ ((device self.old).region region).readable }
        ensures frame { TouchesNothing tells (device self.old) (device self.new) }
        ensures reads { (device self.new).reads ≡ (device self.old).reads + 1 }
        ensures failures { (device self.new).failures ≡ faults_after region result (device self.old).failures }
        ensures settled { OnOk result (doubt self.new region ≡ false) }
        ensures stay { OthersStaySettled region (doubt self.old) (doubt self.new) };

    /// Writes bytes to a region from an offset on. After a fault a read of this range may give any
    /// bytes, and so may a crash.
    fn write_at(&mut self, region: u16, at: usize, bytes: &[u8]) -> Result<(), Fault>
        requires exists { region < (device self.old).count }
        requires fits { at + length bytes.now ≤ 32768 }
        ensures ok { tells ≡ true → OnOk result ((device self.new).region region ≡ written at bytes.now ((device self.old).region region)) }
        ensures err { tells ≡ true → OnErr result
            (IsTorn at (length bytes.now) ((device self.old).region region) ((device self.new).region region)) }
        ensures answer { tells ≡ true → is_ok result ≡ not ((device self.old).failing_call region == 1) }
        ensures failing_call { tells ≡ true → (device self.new).failing_call region ≡ (device self.old).failing_call region - 1 }
        ensures frame { Touches tells region (device self.old) (device self.new) }
        ensures writes { (device self.new).writes ≡ (device self.old).writes + 1 }
        ensures failures { (device self.new).failures ≡ faults_after region result (device self.old).failures }
        ensures settled { KeepsSettled region result (doubt self.old) (doubt self.new) };

    /// Makes what was written to a region outlive a crash.
    fn sync(&mut self, region: u16) -> Result<(), Fault>
        requires exists { region < (device self.old).count }
        ensures ok { tells ≡ true → OnOk result ((device self.new).region region ≡ synced ((device self.old).region region)) }
        ensures err { tells ≡ true → OnErr result ((device self.new).region region ≡ (device self.old).region region) }
        ensures answer { tells ≡ true → is_ok result ≡ not ((device self.old).failing_call region == 1) }
        ensures failing_call { tells ≡ true → (device self.new).failing_call region ≡ (device self.old).failing_call region - 1 }
        ensures frame { Touches tells region (device self.old) (device self.new) }
        ensures writes { (device self.new).writes ≡ (device self.old).writes + 1 }
        ensures failures { (device self.new).failures ≡ faults_after region result (device self.old).failures }
        ensures settled { OnOk result (doubt self.new region ≡ false) }
        ensures stay { OthersStaySettled region (doubt self.old) (doubt self.new) };

    /// Makes what was written to each of these regions outlive a crash, by one call. For each of them it is a sync.
    fn sync_set(&mut self, regions: &[u16]) -> Result<(), Fault>
        requires exist { (r : ℕ) → is_in regions.now r ≡ true → r < (device self.old).count }
        ensures ok { tells ≡ true → OnOk result
            ((r : ℕ) → is_in regions.now r ≡ true → (device self.new).region r ≡ synced ((device self.old).region r)) }
        ensures err { tells ≡ true → OnErr result
            ((r : ℕ) → is_in regions.now r ≡ true → (device self.new).region r ≡ (device self.old).region r) }
        ensures answer { tells ≡ true → is_ok result ≡ not (list_any (λ r. (device self.old).failing_call r == 1) regions.now) }
        ensures failing_call { tells ≡ true → (r : ℕ) → is_in regions.now r ≡ true
            → (device self.new).failing_call r ≡ (device self.old).failing_call r - 1 }
        ensures frame { TouchesAll tells regions.now (device self.old) (device self.new) }
        ensures writes { (device self.new).writes ≡ (device self.old).writes + 1 }
        ensures failures { (device self.new).failures ≡ set_faults regions.now result (device self.old).failures }
        ensures settled { OnOk result (AreSettled regions.now (doubt self.new)) }
        ensures stay { RestStaysSettled regions.now (doubt self.old) (doubt self.new) };
}
