//! A service: passes for as long as it is watched, and once a minute another try of each circuit that is closed.
ghost use Rattle.std.specs.Prelude.{◌≡◌, ◌≤◌, ◌<◌, ◌+◌, ◌⊎◌, ℕ, Some, None, true, false, length};
ghost use Rattle.circuit_server.specs.CircuitServerValue.{OpenCircuitValue};
ghost use Rattle.circuit_server.specs.Ticked.{server_state};
ghost use Rattle.access.specs.Access.{StaysSetUp};
ghost use Rattle.access.specs.Pass.{HasPassedOnce};
ghost use Rattle.access.specs.Service.{HasKeptServing, HasReopened, IsReopenedAlone, IsStretch, watched_once_more};

use super::{Access, Watch};
use std::rt::Clock;
use types::{Circuit, Moment};

/// How many seconds there are between two tries of a closed circuit.
const MINUTE: u64 = 60;

impl Access {
    /// Opens a circuit again with what its region holds, as an opening would, and leaves all others as they are; it is closed
    /// afterwards if its region can't be read, is damaged or can't be moved.
    fn reopen(&mut self, circuit: Circuit)
        requires { circuit < length self.old.server.topology.circuits }
        ensures { IsReopenedAlone circuit self.old self.new }
    {
        self.server.reopen(circuit, &mut self.disk);
    }

    /// Tries a circuit again if it is closed, and shows it to `watch` then.
    fn reopen_if_closed<W: Watch>(&mut self, circuit: Circuit, watch: &mut W)
        requires { circuit < length self.old.server.topology.circuits }
        ensures open { (o : OpenCircuitValue) → server_state self.old.server.states circuit ≡ Some o → self.new ≡ self.old }
        ensures closed { server_state self.old.server.states circuit ≡ None → IsReopenedAlone circuit self.old self.new }
        ensures watched { W.watched watch.new ≡ W.watched watch.old }
    {
        if !self.server.is_open(circuit) {
            self.reopen(circuit);
            watch.after_reopening(self, circuit);
        }
    }

    /// Tries each closed circuit again, and shows it to `watch` then. Open circuits stay as they are.
    pub fn reopen_closed<W: Watch>(&mut self, watch: &mut W)
        ensures reopened { HasReopened self.old self.new }
        ensures watched { W.watched watch.new ≡ W.watched watch.old }
    {
        'circuits: for index in 0..self.server.circuit_count() {
            let Some(circuit) = Circuit::new(index) else {
                return;
            };
            self.reopen_if_closed(circuit, watch);
        }
    }

    /// Makes a pass, and shows it to `watch`. Returns its moment.
    fn round_watched<R: Clock, W: Watch>(&mut self, rt: &R, watch: &mut W) -> Moment
        ensures passed { (before : ℕ) → HasPassedOnce before result self.old self.new }
        ensures turns { self.new.turns ≡ self.old.turns + 1 }
        ensures set_up { StaysSetUp self.old self.new }
        ensures watched { W.watched watch.new ≡ watched_once_more result (W.watched watch.old) }
    {
        let now = self.round(rt);
        watch.after_turn(self, now);
        now
    }

    /// Makes passes for a minute by their moments, at least one and at most so many, and none after `watch` says that it is over.
    /// Returns how many it made, and whether the minute is over.
    fn serve_a_minute<R: Clock, W: Watch>(
        &mut self,
        rt: &R,
        most: u64,
        watch: &mut W,
    ) -> (u64, bool)
        requires { 1 ≤ most }
        ensures some { 1 ≤ result.0 }
        ensures most { result.0 ≤ most }
        ensures served { (first : ℕ) × (last : ℕ) × IsStretch result.0 first last self.old self.new
            × (result.1 ≡ true → first + 60 ≤ last) }
        ensures ends { result.1 ≡ false → (result.0 ≡ most) ⊎ (W.is_over watch.new ≡ true) }
        ensures turns { self.new.turns ≡ self.old.turns + result.0 }
        ensures set_up { StaysSetUp self.old self.new }
        ensures watched { (W.watched watch.new).rounds ≡ (W.watched watch.old).rounds + result.0 }
    {
        let first = self.round_watched(rt, watch);
        let (mut made, mut is_full) = (1, false);
        'passes: while made < most && !is_full && watch.goes_on() {
            let now = self.round_watched(rt, watch);
            made += 1;
            is_full = first.seconds() + MINUTE <= now.seconds();
        }
        (made, is_full)
    }

    /// Makes passes as `serve_passes` does, at most so many, until `watch` says that it is over. Each minute it tries closed
    /// circuits again. Returns how many passes it made.
    pub fn keep_serving<R: Clock, W: Watch>(&mut self, rt: &R, passes: u64, watch: &mut W) -> u64
        ensures most { result ≤ passes }
        ensures served { HasKeptServing result self.old self.new }
        ensures ends { (result ≡ passes) ⊎ (W.is_over watch.new ≡ true) }
        ensures turns { self.new.turns ≡ self.old.turns + result }
        ensures set_up { StaysSetUp self.old self.new }
        ensures watched { (W.watched watch.new).rounds ≡ (W.watched watch.old).rounds + result }
    {
        let mut made = 0;
        'minutes: while made < passes {
            let (more, is_full) = self.serve_a_minute(rt, passes - made, watch);
            made += more;
            if !is_full {
                return made;
            }
            self.reopen_closed(watch);
        }
        made
    }
}
