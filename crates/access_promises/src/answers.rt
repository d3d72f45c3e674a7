//! What the server answers in a run.
ghost use Rattle.std.specs.Prelude.{◌≡◌, ◌++◌, List};
ghost use Rattle.access.specs.Access.{AccessValue};
ghost use Rattle.access_promises.specs.Exchanges.{AreExchanges, Exchange};
ghost use Rattle.access_promises.specs.Turns.{IsRun, added};

/// Each datagram that the server takes in a run is answered once, and what is sent from its sockets are these answers. Those to
/// the datagrams of a circuit, in order, and the circuit's book after the run, are what the circuit's server alone makes of its
/// datagrams and of the moments of the turns and passes, whatever is taken for other circuits, and however many datagrams share their
/// syncs.
pub fn serves_each_circuit_alone()
    ensures { (old new : AccessValue) → IsRun old new → (exchanges : List Exchange) × AreExchanges old new exchanges }
{}

/// A run leaves what the history had, and adds to it.
pub fn adds_to_the_history()
    ensures { (old new : AccessValue) → IsRun old new → new.history ≡ old.history ++ added old new }
{}
