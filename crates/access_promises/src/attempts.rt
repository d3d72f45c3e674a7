//! Each circuit has its turn.
ghost use Rattle.std.specs.Prelude.{◌≡◌, ◌≤◌, ◌+◌, ◌*◌, ◌++◌, ◌∷◌, ℕ, List, length, Some};
ghost use Rattle.access.specs.Access.{AccessValue};
ghost use Rattle.access.specs.Pass.{HasMadePasses};
ghost use Rattle.access_promises.specs.Attempts.{CircuitSocket, attempts_in, frames_from, pass_after_pass, taken_in};
ghost use Rattle.access_promises.specs.Attempts.{times_of, tried_at};
ghost use Rattle.access_promises.specs.Turns.{added};
ghost use Rattle.udp.specs.History.{Entry};

/// Each pass tries each circuit's sockets once, the DHCPv4 sockets in the order of the circuits and then the DHCPv6 ones. So between
/// a try of a socket and its next one at most one frame of each other socket is taken, whatever waits there; and no more datagrams in
/// all than two passes may take.
pub fn tries_each_socket_in_turn()
    ensures order { (n last : ℕ) (old new : AccessValue) → HasMadePasses n last old new
        → attempts_in (added old new) ≡ pass_after_pass (length old.topology.circuits) n }
    ensures one { (n last : ℕ) (old new : AccessValue) (before between after : List Entry) (first second : Entry)
        (socket other : CircuitSocket) → HasMadePasses n last old new
        → added old new ≡ before ++ first ∷ (between ++ second ∷ after) → tried_at first ≡ Some socket
        → tried_at second ≡ Some socket → times_of socket (attempts_in between) ≡ 0
        → times_of other (frames_from between) ≤ 1 }
    ensures few { (n last : ℕ) (old new : AccessValue) (before between after : List Entry) (first second : Entry)
        (socket : CircuitSocket) → HasMadePasses n last old new
        → added old new ≡ before ++ first ∷ (between ++ second ∷ after) → tried_at first ≡ Some socket
        → tried_at second ≡ Some socket → times_of socket (attempts_in between) ≡ 0
        → taken_in between ≤ 76 * (length old.topology.circuits + 15) }
{}
