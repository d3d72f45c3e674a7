//! What becomes of a lease that was acknowledged.
ghost use Rattle.std.specs.Prelude.{◌≡◌, ◌≢◌, ◌≤◌, ◌⊎◌, ◌++◌, ◌∷◌, ℕ, List, map, true, Some, None, slice_get};
ghost use Rattle.std.specs.Prelude.{slice_index_or, Result, Ok, IfSome};
ghost use Rattle.access.specs.Access.{AccessValue};
ghost use Rattle.access.specs.Batch.{IsAnswered, IsReceived, Serving, made_of};
ghost use Rattle.access_promises.specs.Exchanges.{AreExchanges, Exchange, book_in, own_exchanges};
ghost use Rattle.access_promises.specs.Own.{is_own};
ghost use Rattle.access_promises.specs.Transactions.{GrantsAddress, IsCircuitOf, IsSaved, LeasesAddress, Transaction};
ghost use Rattle.access_promises.specs.Transactions.{ledger_of, lines_of, transaction_between, transactions_in};
ghost use Rattle.access_promises.specs.Turns.{IsRun};
ghost use Rattle.circuit_server.specs.CircuitServerValue.{OpenCircuitValue, open_book};
ghost use Rattle.circuit_server.specs.SlotsOfPools.{HasSlotsOfPools};
ghost use Rattle.config.specs.CircuitPart.{CircuitPart, IsPart};
ghost use Rattle.config.specs.Rules.{IsSound};
ghost use Rattle.config.specs.Topology.{topology_of};
ghost use Rattle.dispatch.specs.ServerValue.{ServerValue};
ghost use Rattle.promises.specs.Books.{IsBookOf, IsInPool};
ghost use Rattle.promises.specs.Granted.{ClientOf, Ended, Grant, Granted, Knows, Stands};
ghost use Rattle.settings.specs.Settings.{Settings};
ghost use Rattle.types.specs.Delivery.{DeliveryValue};
ghost use Rattle.types.specs.declared.dest.Proto.{Proto};
ghost use Rattle.types.specs.declared.dest.Proto.TheVariants.{V4};
ghost use Rattle.types.specs.declared.discard.Discard.{Discard};
ghost use Rattle.v4_message.specs.Reading.{message_of};
ghost use Rattle.v4_message.specs.Spelling.{MessageValue};
ghost use Rattle.wire.specs.Bytes.{AreBytes};

use access::Access;

/// Each circuit of an `Access` is closed or has a book of its pools, at the opening and whatever was served since. So the premise of
/// the laws below, where a run begins, is true of each circuit in every run.
pub fn begins_with_its_pools(access: &Access)
    ensures book { (c : ℕ) (part : CircuitPart) → slice_get access.now.server.topology.circuits c ≡ Some part
        → IfSome (book_in access.now.server c) (IsBookOf part) }
    ensures circuit { (c : ℕ) (part : CircuitPart) (new : AccessValue) (exchanges : List Exchange)
        → IsRun access.now new → AreExchanges access.now new exchanges
        → slice_get access.now.topology.circuits c ≡ Some part → IsCircuitOf c part access.now new exchanges }
{
    dispatch::laws::has_slots_of_pools(access.server());
}

/// A lease is saved before its acknowledgement leaves: where a DHCPACK with a lease, or a Reply with one, leaves in a run, its save
/// did not fail, and the circuit's book then binds the address to the client until the end of the lease. At the end of the run the
/// circuit is closed, or its book still does, or its clock has come to that end, or the client has ended the lease in between.
pub fn saves_before_it_acknowledges()
    ensures each { (c : ℕ) (part : CircuitPart) (old new : AccessValue) (exchanges : List Exchange) → IsCircuitOf c part old new exchanges
        → map (λ (t : Transaction). t.exchange) (transactions_in c part old new exchanges) ≡ own_exchanges old.topology c exchanges }
    ensures saved { (c : ℕ) (part : CircuitPart) (old new : AccessValue) (exchanges : List Exchange)
        (before after : List Transaction) (t : Transaction) (p : Proto) (g : Grant (ClientOf p))
        → IsCircuitOf c part old new exchanges → transactions_in c part old new exchanges ≡ before ++ t ∷ after
        → Stands (Granted p g) (lines_of part t) → IsSaved part p g t }
    ensures known { (c : ℕ) (part : CircuitPart) (old new : AccessValue) (exchanges : List Exchange)
        (before after : List Transaction) (t : Transaction) (p : Proto) (g : Grant (ClientOf p))
        → IsCircuitOf c part old new exchanges → transactions_in c part old new exchanges ≡ before ++ t ∷ after
        → Stands (Granted p g) (lines_of part t)
        → IfSome (book_in new.server c) (Knows p g) ⊎ Stands (Ended p g.client g.address) (ledger_of part after) }
{}

/// The replies to the datagrams that the server takes together are sent in the state in which their saves have returned: where one
/// acknowledges a lease, the device counts no new failed call of the circuit's region in that state, and the book that was saved has
/// the lease. The same of a datagram that is received alone after that, between the states before it and after its reply.
pub fn replies_after_the_save()
    ensures together { (j c : ℕ) (part : CircuitPart) (taken : List DeliveryValue)
        (answers : List (Result (List ℕ) Discard)) (old saved : Serving) (d : DeliveryValue)
        (answer : Result (List ℕ) Discard) (p : Proto) (g : Grant (ClientOf p)) → IsReceived taken answers old saved
        → slice_get taken j ≡ Some d → slice_get answers j ≡ Some answer → is_own old.server.topology c d ≡ true
        → slice_get old.server.topology.circuits c ≡ Some part → IsPart part
        → IfSome (book_in old.server c) (IsBookOf part)
        → Stands (Granted p g) (lines_of part (transaction_between c part d answer old saved))
        → IsSaved part p g (transaction_between c part d answer old saved) }
    ensures alone { (c : ℕ) (part : CircuitPart) (old new : Serving) (d : DeliveryValue) (p : Proto)
        (g : Grant (ClientOf p)) → IsAnswered d old new → is_own old.server.topology c d ≡ true
        → slice_get old.server.topology.circuits c ≡ Some part → IsPart part
        → IfSome (book_in old.server c) (IsBookOf part)
        → Stands (Granted p g) (lines_of part (transaction_between c part d (made_of d old new).answer old new))
        → IsSaved part p g (transaction_between c part d (made_of d old new).answer old new) }
{}

/// Each DHCPACK that leases an address, as its bytes are read, grants this address by the definitions above.
pub fn each_dhcpack_grants()
    ensures { (c : ℕ) (part : CircuitPart) (old new : AccessValue) (exchanges : List Exchange)
        (before after : List Transaction) (t : Transaction) (datagram : List ℕ) (m : MessageValue)
        → IsCircuitOf c part old new exchanges → transactions_in c part old new exchanges ≡ before ++ t ∷ after
        → t.exchange.datagram.proto ≡ V4 → AreBytes t.exchange.datagram.bytes → t.exchange.answer ≡ Ok datagram
        → message_of datagram ≡ Ok m → LeasesAddress m → GrantsAddress part t m.header.yiaddr }
{
    replies::laws::reply_is_read();
}

/// A circuit that begins a run closed or with a book of its pools ends it so too, and may begin another run. Within a turn or a pass
/// it stays so where datagrams are received together and where one is received alone.
pub fn keeps_to_its_pools()
    ensures run { (c : ℕ) (part : CircuitPart) (old new : AccessValue) (exchanges : List Exchange)
        → IsCircuitOf c part old new exchanges → IfSome (book_in new.server c) (IsBookOf part) }
    ensures together { (c : ℕ) (part : CircuitPart) (taken : List DeliveryValue)
        (answers : List (Result (List ℕ) Discard)) (old saved : Serving) → IsReceived taken answers old saved
        → slice_get old.server.topology.circuits c ≡ Some part → IsPart part
        → IfSome (book_in old.server c) (IsBookOf part) → IfSome (book_in saved.server c) (IsBookOf part) }
    ensures alone { (c : ℕ) (part : CircuitPart) (old new : Serving) (d : DeliveryValue)
        → IsAnswered d old new → slice_get old.server.topology.circuits c ≡ Some part → IsPart part
        → IfSome (book_in old.server c) (IsBookOf part) → IfSome (book_in new.server c) (IsBookOf part) }
{}

/// What the slots of a circuit's pools show is a book of these pools, so that a circuit that a server keeps them for may begin a run.
pub fn slots_show_a_book_of_their_pools()
    ensures circuit { (part : CircuitPart) (o : OpenCircuitValue) → HasSlotsOfPools part o → IsBookOf part (open_book o) }
    ensures server { (c : ℕ) (part : CircuitPart) (server : ServerValue) → slice_get server.topology.circuits c ≡ Some part
        → IfSome (slice_index_or server.states c None) (HasSlotsOfPools part) → IfSome (book_in server c) (IsBookOf part) }
{}

/// No address of either protocol is leased twice in a run: where an acknowledgement of an address leaves, and later one of the same
/// address to another client, the first lease had come to its end by the circuit's clock, or its client had ended it in between. What
/// is acknowledged is in the circuit's pool, so that no two circuits of a configuration acknowledge one address, in whichever runs.
pub fn leases_no_address_twice()
    ensures once { (c : ℕ) (part : CircuitPart) (old new : AccessValue) (exchanges : List Exchange)
        (before between after : List Transaction) (s t : Transaction) (p : Proto) (g h : Grant (ClientOf p))
        → IsCircuitOf c part old new exchanges
        → transactions_in c part old new exchanges ≡ before ++ s ∷ (between ++ t ∷ after)
        → Stands (Granted p g) (lines_of part s) → Stands (Granted p h) (lines_of part t) → h.address ≡ g.address
        → (g.client ≡ h.client → ⊥)
        → (g.until ≤ h.clock) ⊎ Stands (Ended p g.client g.address) (ledger_of part between) }
    ensures pool { (c : ℕ) (part : CircuitPart) (old new : AccessValue) (exchanges : List Exchange) (p : Proto)
        (g : Grant (ClientOf p)) → IsCircuitOf c part old new exchanges
        → Stands (Granted p g) (ledger_of part (transactions_in c part old new exchanges)) → IsInPool part p g.address }
    ensures apart { (settings : Settings) (c d : ℕ) (part other : CircuitPart) (old new start end : AccessValue)
        (exchanges others : List Exchange) (p : Proto) (g h : Grant (ClientOf p)) → IsSound settings
        → old.topology ≡ topology_of settings → start.topology ≡ topology_of settings → c ≢ d
        → IsCircuitOf c part old new exchanges → IsCircuitOf d other start end others
        → Stands (Granted p g) (ledger_of part (transactions_in c part old new exchanges))
        → Stands (Granted p h) (ledger_of other (transactions_in d other start end others)) → g.address ≢ h.address }
{}
