//! What the relays send in a run.
ghost use Rattle.std.specs.Prelude.{◌≡◌, ℕ, map, All, Some, slice_get};
ghost use Rattle.std.specs.List.{filter_map};
ghost use Rattle.access.specs.Access.{AccessValue};
ghost use Rattle.access_promises.specs.Alone.{GoesToItsClients, frame_alone, goes_up, relayed_alone};
ghost use Rattle.access_promises.specs.Own.{datagrams_in, frames_in, relayed_in, sent_in, sent_up};
ghost use Rattle.access_promises.specs.Turns.{IsRun, added};
ghost use Rattle.config.specs.CircuitPart.{CircuitPart};

/// Right after a frame is taken from a circuit's socket, the datagram that the circuit's relay alone makes of it is sent from that
/// relay's address to the server's, or none is. The relays' sockets send nothing else.
pub fn relays_each_circuit_up_alone()
    ensures own { (c : ℕ) (part : CircuitPart) (old new : AccessValue) → IsRun old new → slice_get old.topology.circuits c ≡ Some part
        → relayed_in old.topology c (added old new) ≡ map (relayed_alone part) (frames_in c (added old new)) }
    ensures all { (old new : AccessValue) → IsRun old new
        → filter_map (sent_up old.topology) (added old new) ≡ filter_map (goes_up old.topology) (added old new) }
{}

/// What a circuit's sockets send to its clients is, in order, what the circuit's relay alone makes of the datagrams that were taken at
/// the relays and are for the circuit. Each frame goes to the port of the circuit's clients.
pub fn relays_each_circuit_down_alone()
    ensures own { (c : ℕ) (part : CircuitPart) (old new : AccessValue) → IsRun old new → slice_get old.topology.circuits c ≡ Some part
        → sent_in c (added old new) ≡ filter_map (frame_alone part) (datagrams_in old.topology c (added old new)) }
    ensures ports { (old new : AccessValue) → IsRun old new → All (GoesToItsClients old.port) (added old new) }
{}
