//! The two halves of a slot, and where a half keeps what.
ghost use Rattle.std.specs.Prelude.{◌≡◌, ◌≤◌, ◌<◌, ◌+◌};
ghost use Rattle.lease_disk.specs.Layout.{half_at};
ghost use Rattle.lease_disk.specs.Recovered.{next};
ghost use Rattle.lease_disk.specs.Save.{other};

/// A gate with this byte is open; any other byte closes it, and a save writes 0.
pub const GATE_OPEN: u8 = 0xA5;

/// The number of bytes of a half, of a slot, which are two halves, and of all slots.
pub const HALF_SIZE: usize = 256;

pub const SLOT_SIZE: usize = 512;

pub const HALVES_SIZE: usize = 16384;

/// In a half: where the state, the length of the key or DUID, the sequence, the IAID, the clock, until and
/// the key or DUID stand. The gate is its first byte.
pub const STATE_AT: usize = 1;

pub const LENGTH_AT: usize = 2;

pub const SEQUENCE_AT: usize = 3;

pub const IAID_AT: usize = 4;

pub const CLOCK_AT: usize = 8;

pub const UNTIL_AT: usize = 16;

pub const KEY_AT: usize = 32;

/// Half of a slot. One counts; a save writes the other one.
#[derive(Clone, Copy, PartialEq, Eq)]
pub enum Half {
    First,
    Second,
}

impl Half {
    pub fn other(self) -> Half
        ensures { result ≡ other self }
    {
        match self {
            Half::First => Half::Second,
            Half::Second => Half::First,
        }
    }

    /// Where the half of a slot begins among the halves of all slots.
    pub fn at(self, slot: usize) -> usize
        requires { slot < 32 }
        ensures place { 16384 + result ≡ half_at slot self }
        ensures most { result + 256 ≤ 16384 }
    {
        match self {
            Half::First => SLOT_SIZE * slot,
            Half::Second => HALF_SIZE + SLOT_SIZE * slot,
        }
    }
}

/// The sequence after this one: 0, 1, 2, 0, and so on.
pub fn sequence_after(sequence: u8) -> u8
    ensures { sequence ≤ 2 → result ≡ next sequence }
{
    match sequence {
        0 => 1,
        1 => 2,
        _ => 0,
    }
}
