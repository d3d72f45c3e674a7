//! What becomes of a lease, whatever happens to its circuit.
ghost use Rattle.std.specs.Prelude.{◌≡◌, ◌≢◌, ◌≤◌, ◌⊎◌, ℕ, Bool, List, ◌∷◌, Option, Some, IfSome};
ghost use Rattle.config.specs.CircuitPart.{IsPart};
ghost use Rattle.config.specs.Plans.{ArePlans, PlansValue};
ghost use Rattle.circuit_server.specs.Server.{Book};
ghost use Rattle.types.specs.declared.dest.Proto.{Proto};
ghost use Rattle.world.specs.Alone.{Setup, after_all, alone_step, start};
ghost use Rattle.promises.specs.Books.{HasAddress, HasBooks, IsInPool, IsBookOf};
ghost use Rattle.promises.specs.Granted.{ClientOf, Grant, Granted, Ended, Stands, BeginsKnowing, restart_over, lines, ledger};
ghost use Rattle.events.specs.Seen.{Seen};
ghost use Rattle.world.specs.Start.{Opening, opened, setup_in};

/// No address of either protocol is leased twice: where a machine grants an address and later grants it to another client,
/// the first lease had come to its end by the circuit's clock, or its client had ended it in between.
/// This is so whatever saves failed, whatever restarts there were, and in whichever of them a move to format 2 failed.
pub fn leases_no_address_twice()
    ensures { (setup : Setup) (move_fault : ℕ) (kept : Option Book) (two : Bool) (before : List Seen) (s : Seen)
        (between : List Seen) (t : Seen) (p : Proto) (g h : Grant (ClientOf p)) → IsPart setup.part
        → IfSome kept (IsBookOf setup.part)
        → Stands (Granted p g) (lines setup s (after_all setup before (start setup.begins_on move_fault kept two)))
        → Stands (Granted p h) (lines setup t
        (after_all setup (s ∷ between) (after_all setup before (start setup.begins_on move_fault kept two))))
        → h.address ≡ g.address → (g.client ≡ h.client → ⊥)
        → (g.until ≤ h.clock)
        ⊎ Stands (Ended p g.client g.address) (ledger setup between
        (alone_step setup s (after_all setup before (start setup.begins_on move_fault kept two))).next) }
{}

/// No lease is forgotten: every restart over a region that can be read finds a book that knows of a grant, unless its
/// client had ended the lease. The circuit begins with that book, unless the region was still to be moved to format 2
/// and that failed; then the region keeps it.
pub fn forgets_no_lease()
    ensures { (setup : Setup) (move_fault : ℕ) (kept : Option Book) (two : Bool) (before : List Seen) (s : Seen)
        (after : List Seen) (byte fault : ℕ) (p : Proto) (g : Grant (ClientOf p)) → IsPart setup.part
        → IfSome kept (IsBookOf setup.part)
        → Stands (Granted p g) (lines setup s (after_all setup before (start setup.begins_on move_fault kept two)))
        → BeginsKnowing p g fault (alone_step setup (restart_over byte fault)
        (after_all setup (s ∷ after) (after_all setup before (start setup.begins_on move_fault kept two)))).next
        ⊎ Stands (Ended p g.client g.address) (ledger setup after
        (alone_step setup s (after_all setup before (start setup.begins_on move_fault kept two))).next) }
{}

/// What a machine grants is in its circuit's pool.
pub fn grants_from_the_pool()
    ensures { (setup : Setup) (move_fault : ℕ) (kept : Option Book) (two : Bool) (before : List Seen) (s : Seen)
        (p : Proto) (g : Grant (ClientOf p)) → IsPart setup.part → IfSome kept (IsBookOf setup.part)
        → Stands (Granted p g) (lines setup s (after_all setup before (start setup.begins_on move_fault kept two)))
        → IsInPool setup.part p g.address }
{}

/// The same from the texts of the configurations on, and between their circuits: a circuit's machine begins
/// with what its opening finds, whatever bytes its region holds, and a damaged region grants nothing. No
/// two circuits of them grant the same address.
pub fn leases_of_configurations()
    ensures once { (texts : List (List ℕ)) (plans : PlansValue) (quota c : ℕ) (setup : Setup) (opening : Opening)
        (before : List Seen) (s : Seen) (between : List Seen) (t : Seen) (p : Proto) (g h : Grant (ClientOf p))
        → ArePlans texts plans → setup_in plans quota c ≡ Some setup
        → Stands (Granted p g) (lines setup s (after_all setup before (opened setup opening)))
        → Stands (Granted p h)
        (lines setup t (after_all setup (s ∷ between) (after_all setup before (opened setup opening))))
        → h.address ≡ g.address → (g.client ≡ h.client → ⊥)
        → (g.until ≤ h.clock)
        ⊎ Stands (Ended p g.client g.address)
        (ledger setup between (alone_step setup s (after_all setup before (opened setup opening))).next) }
    ensures known { (texts : List (List ℕ)) (plans : PlansValue) (quota c : ℕ) (setup : Setup) (opening : Opening)
        (before : List Seen) (s : Seen) (after : List Seen) (byte fault : ℕ) (p : Proto) (g : Grant (ClientOf p))
        → ArePlans texts plans → setup_in plans quota c ≡ Some setup
        → Stands (Granted p g) (lines setup s (after_all setup before (opened setup opening)))
        → BeginsKnowing p g fault (alone_step setup (restart_over byte fault)
        (after_all setup (s ∷ after) (after_all setup before (opened setup opening)))).next
        ⊎ Stands (Ended p g.client g.address)
        (ledger setup after (alone_step setup s (after_all setup before (opened setup opening))).next) }
    ensures pool { (texts : List (List ℕ)) (plans : PlansValue) (quota c : ℕ) (setup : Setup) (opening : Opening)
        (before : List Seen) (s : Seen) (p : Proto) (g : Grant (ClientOf p)) → ArePlans texts plans
        → setup_in plans quota c ≡ Some setup
        → Stands (Granted p g) (lines setup s (after_all setup before (opened setup opening)))
        → IsInPool setup.part p g.address }
    ensures apart { (texts : List (List ℕ)) (plans : PlansValue) (quota other_quota c d : ℕ) (setup other : Setup)
        (opening other_opening : Opening) (before : List Seen) (s : Seen) (beside : List Seen) (t : Seen) (p : Proto)
        (g h : Grant (ClientOf p)) → ArePlans texts plans → setup_in plans quota c ≡ Some setup
        → setup_in plans other_quota d ≡ Some other → c ≢ d
        → Stands (Granted p g) (lines setup s (after_all setup before (opened setup opening)))
        → Stands (Granted p h) (lines other t (after_all other beside (opened other other_opening)))
        → g.address ≢ h.address }
{}

/// Circuits of configurations that were accepted together have no address in common, whatever each sees, reloads and
/// restarts among it: what the book of one binds or offers is in no book of another. So these configurations may be
/// in force one after the other over one file of leases.
pub fn shares_no_address()
    ensures { (texts : List (List ℕ)) (plans : PlansValue) (quota other_quota c d : ℕ) (setup other : Setup)
        (opening other_opening : Opening) (seen beside : List Seen) (p : Proto) (address : ℕ) → ArePlans texts plans
        → setup_in plans quota c ≡ Some setup → setup_in plans other_quota d ≡ Some other → c ≢ d
        → HasBooks (λ one.
        HasBooks (λ two. HasAddress p address one → ¬ HasAddress p address two)
        (after_all other beside (opened other other_opening))) (after_all setup seen (opened setup opening)) }
{}
