//! Which bytes of a region are unsynced.
ghost use Rattle.std.specs.Prelude.{◌≡◌, ℕ, ◌+◌, ◌≤◌, true, false, length, slice_index, slice_index_or, if◌then◌else◌};
ghost use Rattle.lease_disk.specs.Region.{is_within};

use crate::device::REGION;
use std::marker::Model;

/// A mark for each byte of a region that is unsynced. All marks lie in one range, so that a sync clears
/// what was written since the last one, and not the whole region.
#[derive(Drop)]
pub struct Unsynced {
    marks: [bool; REGION],
    // no byte before `start`, and none from `end` on, is marked
    start: usize,
    end: usize,
}

impl Model for Unsynced {
    ghost use Rattle.std.specs.Prelude.{Bool, List};
    ghost use Rattle.lease_disk.specs.Marked.{AreMarkedWithin};

    ghost Value = { List Bool };

    ghost view = { λ u. u.marks };

    ghost invariant = { λ u. AreMarkedWithin u.start u.end u.marks };
}

/// Gives n marks from one on this value.
fn set_marks(marks: &mut [bool], at: usize, n: usize, value: bool)
    requires { at + n ≤ length marks.old }
    ensures { (i : ℕ) → slice_index_or marks.new i false ≡ (if is_within at n i then value else slice_index_or marks.old i false) }
{
    for i in 0..n {
        marks[at + i] = value;
    }
}

/// Clears all marks.
fn unmark(marks: &mut [bool])
    ensures { (i : ℕ) → slice_index_or marks.new i false ≡ false }
{
    for mark in marks.iter_mut() {
        *mark = false;
    }
}

/// Gives the marked bytes one value.
fn settle(bytes: &mut [u8], marks: &[bool], byte: u8)
    requires { length marks.now ≡ length bytes.old }
    ensures { (i : ℕ) → slice_index bytes.new i ≡ (if slice_index_or marks.now i false then byte else slice_index bytes.old i) }
{
    for (i, mark) in marks.iter().enumerate() {
        if *mark {
            bytes[i] = byte;
        }
    }
}

impl Unsynced {
    /// No mark.
    pub(crate) fn none() -> Unsynced
        ensures { (i : ℕ) → slice_index_or result i false ≡ false }
    {
        let mut marks = [false; REGION];
        unmark(&mut marks);
        Unsynced {
            marks,
            start: 0,
            end: 0,
        }
    }

    /// Marks n bytes from an offset on.
    pub(crate) fn mark(&mut self, at: usize, n: usize)
        requires { at + n ≤ 32768 }
        ensures { (i : ℕ) → slice_index_or self.new i false ≡ (if is_within at n i then true else slice_index_or self.old i false) }
    {
        set_marks(&mut self.marks, at, n, true);
        if self.start < self.end {
            self.start = self.start.min(at);
            self.end = self.end.max(at + n);
        } else {
            self.start = at;
            self.end = at + n;
        }
    }

    /// Clears all marks.
    pub(crate) fn clear(&mut self)
        ensures { (i : ℕ) → slice_index_or self.new i false ≡ false }
    {
        set_marks(&mut self.marks, self.start, self.end - self.start, false);
        self.start = 0;
        self.end = 0;
    }

    /// Gives the marked bytes of a region one value.
    pub(crate) fn settle(&self, bytes: &mut [u8; REGION], byte: u8)
        ensures { (i : ℕ) → slice_index bytes.new i ≡ (if slice_index_or self.now i false then byte else slice_index bytes.old i) }
    {
        settle(bytes, &self.marks, byte);
    }
}
