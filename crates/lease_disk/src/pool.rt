//! What all slots of a region hold.
ghost use Rattle.std.specs.Prelude.{◌≡◌, ◌≤◌, ◌<◌, ◌+◌, Some, length, nat_lt, if◌then◌else◌, IfSome};
ghost use Rattle.std.specs.List.{list_any};
ghost use Rattle.types.specs.Slots.{none_twice};
ghost use Rattle.lease_disk.specs.Book.{IsBook};
ghost use Rattle.lease_disk.specs.Halves.{clock_by};
ghost use Rattle.lease_disk.specs.Layout.{half2, with_halves};
ghost use Rattle.lease_disk.specs.declared.half.Half.TheVariants.{First, Second};
ghost use Rattle.lease_disk.specs.Recovered.{book_in, contents_at, counting_clock, entry, latest, pool_entries, saved_at};
ghost use Rattle.lease_disk.specs.Recovered.{slot4_of, slot6_of};

use crate::entry::{Entry, Slot, read_entry};
use crate::half::{CLOCK_AT, Half};
use crate::read_half::{counts_before, half_of, number8};
use types::{Moment, Slot4, Slot6, Slots};

/// The entry of a slot that is free, by a clock.
fn free<S: Slot>(clock: Moment) -> Entry<S>
    ensures { result ≡ saved_at clock S.FREE }
{
    Entry {
        clock,
        content: S::FREE,
    }
}

/// The entry of the i-th slot of a pool of so many addresses, whose slots begin at this one, in a region with
/// this clock. A slot past the pool is not read, and free.
fn read_in_pool<S: Slot>(
    halves: &[u8],
    clock: Moment,
    begin: usize,
    count: u8,
    i: usize,
) -> Option<Entry<S>>
    requires all { length halves.now ≡ 16384 }
    requires exists { begin + i < 32 }
    ensures { result ≡ (if nat_lt i count then entry S.read (with_halves halves.now) (begin + i) else Some (saved_at clock S.FREE)) }
{
    if i < usize::from(count) {
        read_entry(halves, begin + i)
    } else {
        Some(free(clock))
    }
}

/// The entries of a pool of so many addresses, whose slots begin at this one.
fn read_pool<S: Slot>(
    halves: &[u8],
    clock: Moment,
    begin: usize,
    count: u8,
) -> Option<[Entry<S>; 16]>
    requires all { length halves.now ≡ 16384 }
    requires exists { begin ≤ 16 }
    ensures { result ≡ pool_entries clock S.FREE count (λ i. entry S.read (with_halves halves.now) (begin + i)) }
{
    let mut entries = [free::<S>(clock); 16];
    'entries: for i in 0..16 {
        entries[i] = read_in_pool(halves, clock, begin, count, i)?;
    }
    Some(entries)
}

/// The greatest clock.
fn latest<S: Slot>(entries: &[Entry<S>]) -> Moment
    ensures { result ≡ latest entries.now }
{
    let mut clock = Moment::first();
    for entry in entries {
        clock = clock.later(entry.clock);
    }
    clock
}

/// What the slots hold at a clock.
fn contents_at<S: Slot>(entries: &[Entry<S>; 16], clock: Moment) -> [S; 16]
    ensures { result ≡ contents_at S.live clock entries.now }
{
    let mut slots = [S::FREE; 16];
    let seconds = clock.seconds();
    for (i, entry) in entries.iter().enumerate() {
        slots[i] = entry.content.at_clock(seconds);
    }
    slots
}

/// Whether one of those slots has this one's client.
fn has_twin<S: Slot>(slots: &[S], slot: S) -> bool
    ensures { result ≡ list_any (S.same_client slot) slots.now }
{
    slots.iter().any(|other| slot.is_twin(*other))
}

/// Whether no client has two slots.
fn has_no_twins<S: Slot>(slots: &[S]) -> bool
    ensures { result ≡ none_twice S.same_client slots.now }
{
    for (i, slot) in slots.iter().enumerate() {
        if has_twin(&slots[i + 1..], *slot) {
            return false;
        }
    }
    true
}

/// The slots of a region at their kept clock, by the halves of all slots and the clock that the region has as a
/// whole, for pools of so many addresses; `None` where they are damaged.
fn read_slots(halves: &[u8], clock: Moment, counts: [u8; 2]) -> Option<Slots>
    requires { length halves.now ≡ 16384 }
    ensures slots { result ≡ book_in counts (Some clock)
        (entry slot4_of (with_halves halves.now)) (entry slot6_of (with_halves halves.now)) }
    ensures book { IfSome result (IsBook counts) }
{
    let four = read_pool::<Slot4>(halves, clock, 0, counts[0])?;
    let six = read_pool::<Slot6>(halves, clock, 16, counts[1])?;
    let clock = latest(&four).later(latest(&six));
    let four = contents_at(&four, clock);
    let six = contents_at(&six, clock);
    if !has_no_twins(&four) {
        return None;
    }
    if !has_no_twins(&six) {
        return None;
    }
    Some(Slots { four, six, clock })
}

/// The clock of the bank that counts, by the halves of a region of format 1, of which each has its bank's; `None`
/// where no bank counts, or one with a clock past the last.
fn bank_clock(halves: &[u8]) -> Option<Moment>
    requires { length halves.now ≡ 16384 }
    ensures { result ≡ counting_clock (half2 (with_halves halves.now) 0 First) (half2 (with_halves halves.now) 0 Second) }
{
    let first = half_of(halves, 0, Half::First);
    let second = half_of(halves, 0, Half::Second);
    if counts_before(first, second) {
        return Moment::new(number8(first, CLOCK_AT));
    }
    if counts_before(second, first) {
        return Moment::new(number8(second, CLOCK_AT));
    }
    None
}

/// The slots of a region, by its format and the halves of all slots: in format 2 each slot has a clock of its own,
/// and the region none.
pub fn read_region_slots(halves: &[u8], is_format2: bool, counts: [u8; 2]) -> Option<Slots>
    requires { length halves.now ≡ 16384 }
    ensures slots { result ≡ book_in counts (clock_by is_format2 halves.now)
        (entry slot4_of (with_halves halves.now)) (entry slot6_of (with_halves halves.now)) }
    ensures book { IfSome result (IsBook counts) }
{
    if is_format2 {
        return read_slots(halves, Moment::first(), counts);
    }
    let clock = bank_clock(halves)?;
    read_slots(halves, clock, counts)
}
