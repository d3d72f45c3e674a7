//! What holds of every book and every decision: functions that do nothing, for their contracts.
ghost use Rattle.std.specs.Prelude.{◌≡◌, ◌<◌, ◌≤◌, ℕ, true, length, map, slice_index_or, All, List, Some, Ok};
ghost use Rattle.std.specs.FinMap.{get};
ghost use Rattle.slots.specs.Kept.{AreWithin};
ghost use Rattle.slots.specs.Maps.{Lease};
ghost use Rattle.types.specs.Pool4.{IsPool4, PoolValue};
ghost use Rattle.types.specs.declared.addr.Addr4.{Addr4};
ghost use Rattle.exchange.specs.declared.request4.Reply4.TheVariants as reply;
ghost use Rattle.exchange.specs.declared.request4.Request4.{Request4};
ghost use Rattle.types.specs.Slots.{IsWithin4, live4, none_twice, same_client4};
ghost use Rattle.types.specs.declared.slot4.Slot4.TheVariants.{Free};
ghost use Rattle.types.specs.declared.slots.Slots.{Slots};
ghost use Rattle.bindings_v4.specs.Book4.{book4_at, empty_book};
ghost use Rattle.bindings_v4.specs.Book4 as maps;
ghost use Rattle.bindings_v4.specs.IsBook4.{IsBook4, LeavesABook, KeepsOthers, ChangesOffersAlone, GrantsItsOwn};
ghost use Rattle.bindings_v4.specs.IsBook4.{RenewsInTime, KeepsItsLease};
ghost use Rattle.bindings_v4.specs.Kept4.{book4_in, kept_book, kept_slots};
ghost use Rattle.bindings_v4.specs.Slots4.{book4_of};
ghost use Rattle.bindings_v4.specs.Table4.{answer4};

use crate::book4::Book4;
use exchange::Request4;
use types::{Moment, Pool4};

/// A book at a later clock is what that clock leaves of the book at an earlier one: a caller whose
/// clock moves has nothing to do.
pub fn expires_by_the_clock(book: &Book4, clock: Moment, later: Moment)
    requires { clock ≤ later }
    ensures book { book4_at later (book4_of clock book.now) ≡ book4_of later book.now }
    ensures kept { kept_slots later book.now.slots ≡ map (live4 later) (kept_slots clock book.now.slots) }
{}

/// What a book shows is a book: nothing has to be known of how it came about.
pub fn is_a_book(book: &Book4, clock: Moment)
    ensures { IsBook4 clock (book4_of clock book.now) }
{
    let _slots = book.slots();
}

/// No address is named twice, no client has both a binding and an offer, and every entry is live: this is
/// true of a book without entries, of what a clock leaves of a book, and after every decision on one.
pub fn leaves_a_book()
    ensures empty { (clock : ℕ) → IsBook4 clock empty_book }
    ensures later { (clock later : ℕ) (b : maps.Book4) → IsBook4 clock b → IsBook4 later (book4_at later b) }
    ensures decided { (pool : PoolValue) (clock : ℕ) (m : Request4) → IsPool4 pool.first pool.count pool.lease → LeavesABook pool clock m }
{}

/// Another client's binding and offer stay.
pub fn keeps_others(pool: Pool4, clock: Moment, request: &Request4)
    ensures { KeepsOthers pool clock request.now }
{}

/// Where no slot has to be kept, the bindings and the bars stay.
pub fn changes_offers_alone(pool: Pool4, clock: Moment, request: &Request4)
    ensures { ChangesOffersAlone pool clock request.now }
{}

/// What is leased was nobody else's, and is the client's for the lease.
pub fn grants_its_own(pool: Pool4, clock: Moment, request: &Request4)
    ensures { GrantsItsOwn pool clock request.now }
{
    let _lease = pool.lease();
}

/// A client that renews before its lease ends keeps its address.
pub fn renews_in_time(pool: Pool4, clock: Moment, request: &Request4)
    ensures { RenewsInTime pool clock request.now }
{}

/// An address that is offered or leased has four bytes.
pub fn gives_whole_addresses()
    ensures offered { (pool : PoolValue) (clock : ℕ) (b : maps.Book4) (m : Request4) (address : Addr4)
        → (answer4 pool clock b m).answer ≡ Ok (reply.Offer address) → length address.0 ≡ 4 }
    ensures leased { (pool : PoolValue) (clock : ℕ) (b : maps.Book4) (m : Request4) (address : Addr4)
        → (answer4 pool clock b m).answer ≡ Ok (reply.Ack address) → length address.0 ≡ 4 }
{}

/// What `Book4::new` takes and `Book4::put` writes is a book: the one that slots mean, which has no
/// offers, and any book without its offers, at once or later. Slots of which none has expired may be
/// taken where no client has two.
pub fn begins_a_book()
    ensures begun { (pool : PoolValue) (slots : Slots)
        → none_twice same_client4 (map (live4 slots.clock) slots.four) ≡ true
        → IsBook4 slots.clock (book4_in pool slots) }
    ensures no_offers { (pool : PoolValue) (slots : Slots) → kept_book (book4_in pool slots) ≡ book4_in pool slots }
    ensures kept { (clock : ℕ) (b : maps.Book4) → IsBook4 clock b → IsBook4 clock (kept_book b) }
    ensures later { (clock : ℕ) (b : maps.Book4) → kept_book (book4_at clock b) ≡ book4_at clock (kept_book b) }
    ensures live { (slots : Slots) → All (λ slot. live4 slots.clock slot ≡ slot) slots.four
        → none_twice same_client4 slots.four ≡ true
        → none_twice same_client4 (map (live4 slots.clock) slots.four) ≡ true }
{}

/// What a region keeps of a book's slots at a clock is what `Book4::put` writes: slots that are live, of
/// the pool alone, no client twice, and they mean the book without its offers.
pub fn keeps_a_book(book: &Book4, clock: Moment)
    ensures size { length (kept_slots clock book.now.slots) ≡ 16 }
    ensures past { (i : ℕ) → book.now.pool.count ≤ i → slice_index_or (kept_slots clock book.now.slots) i Free ≡ Free }
    ensures live { All (λ slot. live4 clock slot ≡ slot) (kept_slots clock book.now.slots) }
    ensures once { none_twice same_client4 (kept_slots clock book.now.slots) ≡ true }
    ensures within { AreWithin book.now.slots → All IsWithin4 (kept_slots clock book.now.slots) }
    ensures book { (region : Slots) → region.four ≡ kept_slots clock book.now.slots → region.clock ≡ clock
        → book4_in book.now.pool region ≡ kept_book (book4_of clock book.now) }
{
    let _slots = book.slots();
}

/// A client's lease is changed by the client alone, and by the clock when it comes to its end.
pub fn keeps_its_lease()
    ensures decided { (pool : PoolValue) (clock : ℕ) (m : Request4) → KeepsItsLease pool clock m }
    ensures later { (later : ℕ) (b : maps.Book4) (client : List ℕ) (lease : Lease) → get b.bindings client ≡ Some lease
        → later < lease.until → get (book4_at later b).bindings client ≡ Some lease }
{}
