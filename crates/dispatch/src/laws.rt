//! What holds of every circuit's server: functions that do nothing, for their contracts.
ghost use Rattle.std.specs.Prelude.{◌≡◌, ◌↔◌, ℕ, All, Bool, List, Option, Result, Ok, max};
ghost use Rattle.types.specs.Delivery.{DeliveryValue};
ghost use Rattle.types.specs.declared.discard.Discard as discard;
ghost use Rattle.types.specs.declared.dest.Proto.TheVariants.{V4, V6};
ghost use Rattle.bindings_v4.specs.Book4 as book4;
ghost use Rattle.bindings_v6.specs.Book6 as book6;
ghost use Rattle.config.specs.CircuitPart.{CircuitPart, IsPart};
ghost use Rattle.config.specs.Topology.{Topology};
ghost use Rattle.dispatch.specs.Batch.{IsBatch};
ghost use Rattle.dispatch.specs.OneByOne.{AreOfOthers, answers_to, books_after};
ghost use Rattle.dispatch.specs.ReadBack.{IsReadBack};
ghost use Rattle.wire.specs.Bytes.{AreBytes};
ghost use Rattle.circuit_server.specs.Server.{Book, IsBook, book_at, kept_book, served};
ghost use Rattle.circuit_server.specs.SlotsOfPools.{HasItsSlots};
ghost use Rattle.dispatch.specs.ServerValue.{circuits_in};

use crate::server::Server;

/// A server begins with a book, and a book it stays, whatever moment passes and whatever datagram is
/// served: every entry is live, no address is named twice, and no client has both a binding and an
/// offer. What the disk keeps of a book is one too.
pub fn leaves_a_book()
    ensures empty { (clock : ℕ) → IsBook (record { clock = clock; four = book4.empty_book; six = book6.empty_book }) }
    ensures later { (now : ℕ) (b : Book) → IsBook b → IsBook (book_at now b) }
    ensures answered { (part : CircuitPart) (d : DeliveryValue) (b : Book) → IsPart part → IsBook b → IsBook (served part d b).book }
    ensures kept { (b : Book) → IsBook b → IsBook (kept_book b) }
{
    bindings_v4::laws::leaves_a_book();
    bindings_v4::laws::begins_a_book();
    bindings_v6::laws::leaves_a_book();
}

/// A datagram of one protocol moves the circuit's clock, and changes nothing else of the other protocol's
/// leases.
pub fn serves_one_protocol()
    ensures clock { (part : CircuitPart) (d : DeliveryValue) (b : Book) → (served part d b).book.clock ≡ max b.clock d.moment }
    ensures four { (part : CircuitPart) (d : DeliveryValue) (b : Book) → d.proto ≡ V4
        → (served part d b).book.six ≡ (book_at d.moment b).six }
    ensures six { (part : CircuitPart) (d : DeliveryValue) (b : Book) → d.proto ≡ V6
        → (served part d b).book.four ≡ (book_at d.moment b).four }
{}

/// What is answered to a DHCPv6 datagram has at most 508 bytes and reads back as the Relay-reply to the datagram's
/// Relay-forward, and what that carries spells the reply which the table gives the client.
pub fn reads_back()
    ensures { (part : CircuitPart) (d : DeliveryValue) (b : Book) (bytes : List ℕ) → IsPart part → AreBytes d.bytes
        → d.proto ≡ V6 → (served part d b).answer ≡ Ok bytes → IsReadBack part d b bytes }
{
    bindings_v6::laws::gives_whole_addresses();
    replies::laws::reply6_is_read();
    requests::laws::asks_within_limits();
    v6_message::laws::exact_relay_reading();
}

/// A batch no two parts of which are of one circuit is its parts one after the other, and the other way round, where a save fails in the
/// regions that `fails` names. So a batch of one is what `receive` gives.
pub fn is_one_by_one()
    ensures { (topology : Topology) (parts : List DeliveryValue) (fails : ℕ → Bool) (old new : List (Option Book))
        (answers : List (Result (List ℕ) discard.Discard)) → AreOfOthers topology parts
        → IsBatch topology parts fails old new answers
        ↔ ((answers ≡ answers_to topology fails parts old) × (new ≡ books_after topology fails parts old)) }
{}

/// Each open circuit has the slots of its pools.
pub fn has_slots_of_pools(server: &Server)
    ensures { All HasItsSlots (circuits_in server.now) }
{
    server.has_slots_of_pools();
}
