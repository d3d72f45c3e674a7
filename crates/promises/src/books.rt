//! What a circuit's machine keeps to, whatever happens.
ghost use Rattle.std.specs.Prelude.{ℕ, List, IfSome};
ghost use Rattle.config.specs.CircuitPart.{CircuitPart, IsPart};
ghost use Rattle.circuit_server.specs.Leases.{recovered_book};
ghost use Rattle.circuit_server.specs.Server.{IsBook};
ghost use Rattle.world.specs.Alone.{Alone, Setup, after_all, alone_step};
ghost use Rattle.promises.specs.Books.{HasBooks, IsBookOf};
ghost use Rattle.events.specs.Seen.{Seen};

/// A circuit's machine that begins with a book has one after each step, and so after everything that it
/// sees: every entry is live, no address is named twice, and no client has both a binding and an offer.
/// This holds of its open book, of the one that was last saved, and of the one in doubt. Where it begins
/// with a book of its pool, its books stay in the pool, and the book that a region holds is one.
pub fn leaves_a_book()
    ensures step { (setup : Setup) (s : Seen) (a : Alone) → IsPart setup.part → HasBooks IsBook a
        → HasBooks IsBook (alone_step setup s a).next }
    ensures run { (setup : Setup) (seen : List Seen) (a : Alone) → IsPart setup.part → HasBooks IsBook a
        → HasBooks IsBook (after_all setup seen a) }
    ensures own { (setup : Setup) (s : Seen) (a : Alone) → IsPart setup.part → HasBooks (IsBookOf setup.part) a
        → HasBooks (IsBookOf setup.part) (alone_step setup s a).next }
    ensures begins { (part : CircuitPart) (bytes : ℕ → ℕ) → IfSome (recovered_book part bytes) (IsBookOf part) }
{
    dispatch::laws::leaves_a_book();
}
