//! Whatever is taken in a pass is answered in it.
ghost use Rattle.std.specs.Prelude.{◌≡◌, ◌++◌, ◌∷◌, ℕ, List, []};
ghost use Rattle.access.specs.Access.{AccessValue, IsOpenedAccess};
ghost use Rattle.access.specs.Pass.{HasMadePasses};
ghost use Rattle.access_promises.specs.Turns.{added};
ghost use Rattle.access_promises.specs.Waiting.{IsService, LosesNothing, waiting};
ghost use Rattle.config.specs.Rules.{IsSound};
ghost use Rattle.lease_disk.specs.FileDisk.{FileDiskValue};
ghost use Rattle.settings.specs.Settings.{Settings};
ghost use Rattle.sockets.specs.Warnings.{HasNoClientsAddress};
ghost use Rattle.udp.specs.History.{Entry, Ticked};
ghost use Rattle.udp.specs.declared.history.Role.{Role};

/// Where the system gives the server and the relays what they send each other, in order and nothing else, and loses nothing, nothing
/// waits at any of their sockets when a pass ends. So each frame that a pass takes is relayed, answered and sent to its client in the
/// same pass, or dropped for a reason: what is made of each datagram that is taken is said by `relays_each_circuit_up_alone`,
/// `serves_each_circuit_alone` and `relays_each_circuit_down_alone`.
pub fn leaves_nothing_waiting()
    ensures { (n last now : ℕ) (settings : Settings) (old new : AccessValue) (before after : List Entry) (socket : Role)
        → IsService settings old → HasMadePasses n last old new → LosesNothing old.topology [] (added old new)
        → added old new ≡ before ++ Ticked now ∷ after → waiting old.topology socket [] before ≡ [] }
{}

/// What is opened over a configuration of which frames towards clients reach no address of the server or a relay is a service of which
/// `leaves_nothing_waiting` speaks. `clients_address` says whether they do, and every configuration that is read is sound.
pub fn opens_as_a_service()
    ensures { (settings : Settings) (disk : FileDiskValue) (port : ℕ) (opening : List Entry) (access : AccessValue)
        → IsSound settings → HasNoClientsAddress settings port → IsOpenedAccess settings disk port 16 opening access
        → IsService settings access }
{}
