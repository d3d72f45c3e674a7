//! What saves have to know of a region's slots.
ghost use Rattle.std.specs.Prelude.{◌≡◌, ◌<◌, ◌≤◌, ℕ, true, length, slice_index};
ghost use Rattle.lease_disk.specs.Layout.{with_halves};
ghost use Rattle.lease_disk.specs.Recover.{is_counted};
ghost use Rattle.lease_disk.specs.Recovered.{is_open, sequence};
ghost use Rattle.lease_disk.specs.Save.{IsMark, mark_at};
ghost use Rattle.lease_disk.specs.SaveSteps.{marks_after};

use crate::half::{GATE_OPEN, Half, SEQUENCE_AT, sequence_after};
use crate::read_half::{counts_before, half_of};

/// What a save has to know of a slot, so that it reads nothing.
#[derive(Clone, Copy, PartialEq, Eq)]
pub struct Mark {
    /// The half that counts.
    pub(crate) half: Half,
    /// Its sequence, from 0 to 2.
    pub(crate) sequence: u8,
    /// Whether the other half's gate reads open.
    pub(crate) other_open: bool,
}

/// What saves have to know of a region's slots. `recover` makes the marks of a region, and only a save
/// changes them.
#[derive(Clone, Copy, PartialEq, Eq)]
pub struct Marks {
    pub(crate) slots: [Mark; 32],
}

impl Marks {
    /// After a save of this slot: the half that was written counts from now on.
    pub fn turn(&mut self, slot: usize)
        requires { slot < 32 }
        ensures after { (mark_at self.old slot).sequence ≤ 2 → self.new ≡ marks_after self.old slot }
        ensures all { length self.old.slots ≡ 32 }
    {
        let mark = self.slots[slot];
        self.slots[slot] = Mark {
            half: mark.half.other(),
            sequence: sequence_after(mark.sequence),
            other_open: true,
        };
    }
}

/// The mark of a slot of which this half counts, by the bytes of both.
fn mark_of(half: Half, own: &[u8], other: &[u8]) -> Mark
    requires own { length own.now ≡ 256 }
    requires other { length other.now ≡ 256 }
    ensures { result ≡ record { half = half; sequence = sequence (slice_index own.now); other_open = is_open (slice_index other.now) } }
{
    Mark {
        half,
        sequence: own[SEQUENCE_AT],
        other_open: other[0] == GATE_OPEN,
    }
}

/// The mark of a slot one of whose halves counts.
fn read_mark(halves: &[u8], slot: usize) -> Mark
    requires all { length halves.now ≡ 16384 }
    requires exists { slot < 32 }
    ensures { is_counted (with_halves halves.now) slot ≡ true → IsMark (with_halves halves.now) slot result }
{
    let first = half_of(halves, slot, Half::First);
    let second = half_of(halves, slot, Half::Second);
    if counts_before(first, second) {
        return mark_of(Half::First, first, second);
    }
    mark_of(Half::Second, second, first)
}

/// The marks of all slots.
pub(crate) fn read_marks(halves: &[u8]) -> Marks
    requires { length halves.now ≡ 16384 }
    ensures { (s : ℕ) → s < 32 → is_counted (with_halves halves.now) s ≡ true → IsMark (with_halves halves.now) s (mark_at result s) }
{
    let mut slots = [read_mark(halves, 0); 32];
    for slot in 1..32 {
        slots[slot] = read_mark(halves, slot);
    }
    Marks { slots }
}
