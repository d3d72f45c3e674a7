//! What holds of every book and every decision: functions that do nothing, for their contracts.
ghost use Rattle.std.specs.Prelude.{◌≡◌, ◌<◌, ◌≤◌, ℕ, true, length, map, slice_index_or, All, Some};
ghost use Rattle.std.specs.FinMap.{get};
ghost use Rattle.slots.specs.Kept.{AreWithin};
ghost use Rattle.slots.specs.Maps.{Lease};
ghost use Rattle.types.specs.Key6.{Key6Value};
ghost use Rattle.types.specs.Pool6.{IsPool6, Pool6Value};
ghost use Rattle.exchange.specs.declared.request6.Request6.{Request6};
ghost use Rattle.types.specs.Slots.{IsWithin6, live6, none_twice, same_client6};
ghost use Rattle.types.specs.declared.slot6.Slot6.TheVariants.{Free};
ghost use Rattle.types.specs.declared.slots.Slots.{Slots};
ghost use Rattle.bindings_v6.specs.Book6.{book6_at, empty_book};
ghost use Rattle.bindings_v6.specs.Book6 as maps;
ghost use Rattle.bindings_v6.specs.IsBook6.{IsBook6, LeavesABook, KeepsOthers, ChangesNothing, GivesWholeAddresses};
ghost use Rattle.bindings_v6.specs.IsBook6.{GrantsItsOwn, RenewsInTime, KeepsItsLease};
ghost use Rattle.bindings_v6.specs.Kept6.{book6_in, kept_slots};
ghost use Rattle.bindings_v6.specs.Slots6.{book6_of};

use crate::book6::Book6;
use exchange::Request6;
use types::{Moment, Pool6};

/// A book at a later clock is what that clock leaves of the book at an earlier one: a caller whose
/// clock moves has nothing to do.
pub fn expires_by_the_clock(book: &Book6, clock: Moment, later: Moment)
    requires { clock ≤ later }
    ensures book { book6_at later (book6_of clock book.now) ≡ book6_of later book.now }
    ensures kept { kept_slots later book.now.slots ≡ map (live6 later) (kept_slots clock book.now.slots) }
{}

/// What a book shows is a book: nothing has to be known of how it came about.
pub fn is_a_book(book: &Book6, clock: Moment)
    ensures { IsBook6 clock (book6_of clock book.now) }
{
    let _slots = book.slots();
}

/// No address is named twice, and every entry is live: this is true of a book without entries, of what a
/// clock leaves of a book, and after every decision on one.
pub fn leaves_a_book()
    ensures empty { (clock : ℕ) → IsBook6 clock empty_book }
    ensures later { (clock later : ℕ) (b : maps.Book6) → IsBook6 clock b → IsBook6 later (book6_at later b) }
    ensures decided { (pool : Pool6Value) (clock : ℕ) (m : Request6) → IsPool6 pool.first pool.count pool.lease → LeavesABook pool clock m }
{}

/// Another client's binding stays.
pub fn keeps_others(pool: Pool6, clock: Moment, request: &Request6)
    ensures { KeepsOthers pool clock request.now }
{}

/// Where no slot has to be kept, the book stays.
pub fn changes_nothing(pool: Pool6, clock: Moment, request: &Request6)
    ensures { ChangesNothing pool clock request.now }
{}

/// What is leased was nobody else's, and is the client's for the lease.
pub fn grants_its_own(pool: Pool6, clock: Moment, request: &Request6)
    ensures { GrantsItsOwn pool clock request.now }
{
    let _lease = pool.lease();
}

/// A client that renews before its lease ends keeps its address.
pub fn renews_in_time(pool: Pool6, clock: Moment, request: &Request6)
    ensures { RenewsInTime pool clock request.now }
{}

/// An address that is given has 16 bytes. Of those with lifetimes of 0 there are no more than the client listed, and
/// they have 16 bytes if those have.
pub fn gives_whole_addresses()
    ensures { (pool : Pool6Value) (clock : ℕ) (m : Request6) → GivesWholeAddresses pool clock m }
{}

/// What `Book6::new` takes and `Book6::put` writes is a book: the one that slots mean. Slots of which none
/// has expired may be taken where no client has two.
pub fn begins_a_book()
    ensures begun { (pool : Pool6Value) (slots : Slots)
        → none_twice same_client6 (map (live6 slots.clock) slots.six) ≡ true
        → IsBook6 slots.clock (book6_in pool slots) }
    ensures live { (slots : Slots) → All (λ slot. live6 slots.clock slot ≡ slot) slots.six
        → none_twice same_client6 slots.six ≡ true
        → none_twice same_client6 (map (live6 slots.clock) slots.six) ≡ true }
{}

/// What a region keeps of a book's slots at a clock is what `Book6::put` writes: slots that are live, of
/// the pool alone, no client twice, and they mean the book.
pub fn keeps_a_book(book: &Book6, clock: Moment)
    ensures size { length (kept_slots clock book.now.slots) ≡ 16 }
    ensures past { (i : ℕ) → book.now.pool.count ≤ i → slice_index_or (kept_slots clock book.now.slots) i Free ≡ Free }
    ensures live { All (λ slot. live6 clock slot ≡ slot) (kept_slots clock book.now.slots) }
    ensures once { none_twice same_client6 (kept_slots clock book.now.slots) ≡ true }
    ensures within { AreWithin book.now.slots → All IsWithin6 (kept_slots clock book.now.slots) }
    ensures book { (region : Slots) → region.six ≡ kept_slots clock book.now.slots → region.clock ≡ clock
        → book6_in book.now.pool region ≡ book6_of clock book.now }
{
    let _slots = book.slots();
}

/// A client's lease is changed by the client alone, and by the clock when it comes to its end.
pub fn keeps_its_lease()
    ensures decided { (pool : Pool6Value) (clock : ℕ) (m : Request6) → KeepsItsLease pool clock m }
    ensures later { (later : ℕ) (b : maps.Book6) (client : Key6Value) (lease : Lease)
        → get b.bindings client ≡ Some lease → later < lease.until
        → get (book6_at later b).bindings client ≡ Some lease }
{}
