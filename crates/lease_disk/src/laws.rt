//! What holds of every region: functions that do nothing, for their contracts.
ghost use Rattle.std.specs.Prelude.{◌≡◌, ℕ, List, Some};
ghost use Rattle.types.specs.declared.slots.Slots.{Slots};
ghost use Rattle.lease_disk.specs.Book.{IsBook, empty_book};
ghost use Rattle.lease_disk.specs.Crash.{IsFormatted, IsFormattedOld};
ghost use Rattle.lease_disk.specs.Recovered.{recovered};
ghost use Rattle.lease_disk.specs.Region.{Region};

/// A region that was formatted, in either format, recovers to an empty book at clock 0, for pools of any sizes.
pub fn formats_an_empty_book()
    ensures format1 { (counts : List ℕ) (r : Region) → IsFormattedOld r → recovered counts r.byte ≡ Some empty_book }
    ensures format2 { (counts : List ℕ) (r : Region) → IsFormatted r → recovered counts r.byte ≡ Some empty_book }
{}

/// What a region recovers to is a book for pools of these sizes, so that each of its slots may be saved
/// as it is.
pub fn recovers_a_book()
    ensures { (counts : List ℕ) (region : ℕ → ℕ) (slots : Slots) → recovered counts region ≡ Some slots → IsBook counts slots }
{}
