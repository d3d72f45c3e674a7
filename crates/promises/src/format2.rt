//! A circuit whose region is of format 2.
ghost use Rattle.std.specs.Prelude.{◌≡◌, ℕ, Bool, [], true, false, List, Option, Some, None};
ghost use Rattle.circuit_server.specs.Server.{Book};
ghost use Rattle.events.specs.Seen.{Seen};
ghost use Rattle.promises.specs.Granted.{restart_over};
ghost use Rattle.world.specs.Alone.{Alone, New, Setup, after_all, alone_step, found, is_fault, start};

/// A region of format 2 stays one, and no fault of a move has an effect on its circuit: it begins with the book that the
/// region holds, and restarts with the book that is found there. A region of format 1 becomes one where its move does not fail.
pub fn stays_in_format_2()
    ensures begins { (on : Bool) (fault : ℕ) (kept : Option Book)
        → start on fault kept true
        ≡ record { on = on; up = []; down = []; book = kept; kept = kept; doubt = None; format = New } }
    ensures restarts { (setup : Setup) (byte fault : ℕ) (a : Alone) → a.format ≡ New
        → (alone_step setup (restart_over byte fault) a).next ≡ record a { book = found byte a; kept = found byte a; doubt = None } }
    ensures stays { (setup : Setup) (seen : List Seen) (a : Alone) → a.format ≡ New → (after_all setup seen a).format ≡ New }
    ensures moves { (setup : Setup) (byte fault : ℕ) (a : Alone) (b : Book) → found byte a ≡ Some b → is_fault 4 fault ≡ false
        → (alone_step setup (restart_over byte fault) a).next ≡ record a { book = Some b; kept = Some b; doubt = None; format = New } }
{}
