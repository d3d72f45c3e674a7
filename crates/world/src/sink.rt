//! Where the frames of a run go.
ghost use Rattle.std.specs.Prelude.{◌≡◌, ℕ, ◌+◌, List, [], ◌∷◌, ◌++◌, true, false};
ghost use Rattle.relay.specs.Relays.{CircuitFrame};

use types::{Circuit, Dest};

/// What takes the frames that leave the relay.
pub trait Sink {
    /// The frames taken so far.
    ghost taken: { Self → List CircuitFrame };
    /// How often a frame was refused.
    ghost refusals: { Self → ℕ };

    /// Takes a frame, or refuses it and keeps what it has.
    fn frame(&mut self, circuit: Circuit, dest: Dest, bytes: &[u8]) -> bool
        ensures yes { result ≡ true
            → taken self.new
            ≡ taken self.old
            ++ record { circuit = circuit; frame = record { dest = dest; bytes = bytes.now } } ∷ [] }
        ensures quiet { result ≡ true → refusals self.new ≡ refusals self.old }
        ensures no { result ≡ false → taken self.new ≡ taken self.old }
        ensures cause { result ≡ false → refusals self.new ≡ refusals self.old + 1 };
}
