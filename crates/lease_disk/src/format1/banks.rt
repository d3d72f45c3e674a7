//! Where a bank keeps its slots.
ghost use Rattle.std.specs.Prelude.{◌≡◌, ◌≤◌, ◌<◌, ◌+◌};
ghost use Rattle.lease_disk.specs.Halves.{place};
ghost use Rattle.lease_disk.specs.Layout.{bank_place, in_bank};

use crate::half::{CLOCK_AT, HALF_SIZE, SEQUENCE_AT, SLOT_SIZE, UNTIL_AT};

/// The number of bytes of a bank, and of both.
pub const BANK_SIZE: usize = 4096;

pub const BANKS_SIZE: usize = 8192;

/// Where a slot begins in a bank: a DHCPv4 slot has 80 bytes, a DHCPv6 slot 152.
fn slot_at(slot: usize) -> usize
    requires { slot < 32 }
    ensures place { result ≡ in_bank slot }
    ensures most { result + 240 ≤ 4096 }
{
    if slot < 16 {
        32 + 80 * slot
    } else {
        1312 + 152 * (slot - 16)
    }
}

/// Where a bank keeps for a slot what a half has at this place. Gate, sequence and clock are the bank's.
fn bank_place(slot: usize, at: usize) -> usize
    requires exists { slot < 32 }
    requires within { at < 256 }
    ensures place { result ≡ bank_place slot at }
    ensures within { result < 4096 }
{
    let begin = slot_at(slot);
    if at == 0 {
        0
    } else if at == SEQUENCE_AT {
        1
    } else if at < SEQUENCE_AT {
        begin + (at - 1)
    } else if at < CLOCK_AT {
        begin + at
    } else if at < UNTIL_AT {
        at
    } else if at < UNTIL_AT + 8 {
        begin + (at - 8)
    } else {
        begin + (at - 16)
    }
}

/// Where both banks keep the i-th byte of the halves of all slots.
pub fn place(i: usize) -> usize
    requires { i < 16384 }
    ensures place { result ≡ place i }
    ensures within { result < 8192 }
{
    let (slot, at) = (i / SLOT_SIZE, i % SLOT_SIZE);
    if at < HALF_SIZE {
        bank_place(slot, at)
    } else {
        BANK_SIZE + bank_place(slot, at - HALF_SIZE)
    }
}
