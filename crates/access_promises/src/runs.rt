//! What makes a run.
ghost use Rattle.std.specs.Prelude.{◌≡◌, ℕ};
ghost use Rattle.access.specs.Access.{AccessValue, HasServedTurns};
ghost use Rattle.access.specs.Pass.{HasMadePasses};
ghost use Rattle.access_promises.specs.Turns.{IsRun};
ghost use Rattle.config.specs.Topology.{IsTopology};

/// The turns that `Access::serve` makes are a run, and so are the passes that `Access::serve_passes` makes, where relay and server
/// know one configuration. So all other laws are about both.
pub fn turns_and_passes_are_runs()
    ensures turns { (n now : ℕ) (old new : AccessValue) → IsTopology old.topology → old.server.topology ≡ old.topology
        → HasServedTurns n now old new → IsRun old new }
    ensures passes { (n now : ℕ) (old new : AccessValue) → IsTopology old.topology → old.server.topology ≡ old.topology
        → HasMadePasses n now old new → IsRun old new }
{}
