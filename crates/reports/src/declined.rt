//! How many addresses were declined between two looks.
ghost use Rattle.std.specs.Prelude.{◌≡◌, ◌≤◌};
ghost use Rattle.reports.specs.Declined.{declined4, declined6, declined_between, is_declined4, is_declined6};

use types::{Slot4, Slot6, Slots};

/// Whether a slot was declined between two looks: it is barred, and did not have that bar before.
fn is_declined4(before: &Slot4, after: &Slot4) -> bool
    ensures { result ≡ is_declined4 before.now after.now }
{
    match (before, after) {
        (Slot4::Barred(earlier), Slot4::Barred(until)) => earlier != until,
        (_, Slot4::Barred(_)) => true,
        _ => false,
    }
}

/// How many DHCPv4 addresses were declined between two looks.
fn declined4(old: &[Slot4; 16], new: &[Slot4; 16]) -> u64
    ensures value { result ≡ declined4 old.now new.now }
    ensures most { result ≤ 16 }
{
    let slots = old.iter().zip(new.iter());
    slots
        .filter(|(before, after)| is_declined4(before, after))
        .count() as u64
}

/// Whether a slot was declined between two looks: it is barred, and did not have that bar before.
fn is_declined6(before: &Slot6, after: &Slot6) -> bool
    ensures { result ≡ is_declined6 before.now after.now }
{
    match (before, after) {
        (Slot6::Barred(earlier), Slot6::Barred(until)) => earlier != until,
        (_, Slot6::Barred(_)) => true,
        _ => false,
    }
}

/// How many DHCPv6 addresses were declined between two looks.
fn declined6(old: &[Slot6; 16], new: &[Slot6; 16]) -> u64
    ensures value { result ≡ declined6 old.now new.now }
    ensures most { result ≤ 16 }
{
    let slots = old.iter().zip(new.iter());
    slots
        .filter(|(before, after)| is_declined6(before, after))
        .count() as u64
}

/// How many addresses of a circuit were declined between two looks at its slots.
pub fn declined_between(old: &Slots, new: &Slots) -> u64
    ensures value { result ≡ declined_between old.now new.now }
    ensures most { result ≤ 32 }
{
    declined4(&old.four, &new.four) + declined6(&old.six, &new.six)
}
