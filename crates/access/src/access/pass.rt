//! A pass over all circuits, in which nobody waits for another: at most one frame of each socket is taken, and each slice of the
//! circuits is answered before the next one begins.
ghost use Rattle.std.specs.Prelude.{◌≡◌, ◌≤◌, ◌<◌, ◌+◌, ◌*◌, ◌⊎◌, ℕ, length};
ghost use Rattle.access.specs.Access.{HasCarried, HasCounted, HasReached, StayClosed, StaysSetUp, books_at};
ghost use Rattle.access.specs.Moments.{HasReadClocks};
ghost use Rattle.access.specs.Pass.{HasAnswered, HasMadePasses, HasPassed, HasPassedOnce, HasTakenAll, HasTakenFrames};
ghost use Rattle.access.specs.Pass.{IsEmptied, IsSlice, RelaysEmptied, SocketsFrom};
ghost use Rattle.access.specs.Service.{IsWatched};
ghost use Rattle.counts.specs.Counts.{more_by};
ghost use Rattle.dispatch.specs.ServerValue.{books_in};

use super::{Access, Watch};
use std::rt::Clock;
use types::{MAX_BATCH, Moment, Proto};
use udp::{read_clock, read_monotonic};

/// How many frames a slice takes at most.
const SLICE: u32 = MAX_BATCH as u32;

/// How many datagrams are taken from a relay's socket at most before the next slice, whoever sent them.
const MOST_ANSWERS: u32 = 32;

/// How many milliseconds the next datagram is waited for at most after a pass that took none.
const PAUSE: u16 = 5;

impl Access {
    /// Takes a frame from the next circuit, from this one on, at whose socket one may wait, to its relay. Returns the circuit
    /// after that, and how many frames were taken.
    fn take_next(&mut self, proto: Proto, from: usize) -> (usize, u32)
        requires { from < length self.old.topology.circuits }
        ensures end { result.0 ≤ length self.old.topology.circuits }
        ensures ahead { from + 1 ≤ result.0 }
        ensures most { result.1 ≤ 1 }
        ensures carried { (circuits : ℕ) × (result.0 ≡ from + circuits)
            × HasCarried (SocketsFrom self.old.topology proto from circuits) result.1 self.old self.new }
    {
        let end = self.sockets.circuits.len();
        let next = self.waiter.pass_over(proto, from, end, &mut self.history);
        if next == end {
            return (end, 0);
        }
        let taken = self.take_frame(next, proto);
        (next + 1, taken)
    }

    /// Takes frames from the circuits' sockets of a protocol to their relays, one from each at most, from this circuit on, until
    /// there are 16. Returns the circuit after the last one that was tried, and how many frames were taken.
    fn take_slice(&mut self, proto: Proto, from: usize) -> (usize, u32)
        requires { from ≤ length self.old.topology.circuits }
        ensures end { result.0 ≤ length self.old.topology.circuits }
        ensures ahead { from + result.1 ≤ result.0 }
        ensures taken { (circuits : ℕ) × (result.0 ≡ from + circuits)
            × HasTakenFrames proto from circuits result.1 self.old self.new }
    {
        let end = self.sockets.circuits.len();
        let (mut next, mut frames) = (from, 0);
        'circuits: while next < end && frames < SLICE {
            let (after, taken) = self.take_next(proto, next);
            next = after;
            frames += taken;
        }
        (next, frames)
    }

    /// The server takes and answers a batch, and another one if that was full.
    fn answer_all(&mut self, now: Moment) -> u32
        ensures most { result ≤ 32 }
        ensures answered { HasAnswered now result self.old self.new }
    {
        let full = self.batch.most() as u32;
        let first = self.take_at_server(now);
        if first != full {
            return first;
        }
        first + self.take_at_server(now)
    }

    /// Takes datagrams from a relay's socket to the circuits that they are for, until none waits; 32 at most.
    fn empty_relay(&mut self, index: usize) -> u32
        requires { index < length self.old.topology.relays }
        ensures most { result ≤ 32 }
        ensures carried { HasCarried (IsEmptied self.old.topology self.old.port index) result self.old self.new }
    {
        'answers: for taken in 0..MOST_ANSWERS {
            if self.take_answer(index) == 0 {
                return taken;
            }
        }
        MOST_ANSWERS
    }

    /// Takes datagrams from each relay's socket until none waits.
    fn empty_relays(&mut self) -> u32
        ensures most { result ≤ 256 }
        ensures carried { HasCarried (RelaysEmptied self.old.topology self.old.port) result self.old self.new }
    {
        let mut taken = 0;
        'relays: for index in 0..self.sockets.relays.len() {
            taken += self.empty_relay(index);
        }
        taken
    }

    /// After a full slice the system is asked again at which sockets datagrams arrived: a frame that comes while others keep a pass
    /// long is taken in this pass if its circuit is still ahead.
    fn look_after(&mut self, frames: u32)
        ensures { self.new ≡ self.old }
    {
        if frames == SLICE {
            self.waiter.poll();
        }
    }

    /// Takes frames from circuits, from this one on, and has all of them answered. Returns the circuit after the last one that was
    /// tried, and how many datagrams were taken.
    fn slice(&mut self, proto: Proto, from: usize, now: Moment) -> (usize, u32)
        requires { from < length self.old.topology.circuits }
        ensures end { result.0 ≤ length self.old.topology.circuits }
        ensures ahead { from < result.0 }
        ensures far { (result.0 ≡ length self.old.topology.circuits) ⊎ (from + 16 ≤ result.0) }
        ensures most { result.1 ≤ 304 }
        ensures slice { (circuits : ℕ) × (result.0 ≡ from + circuits) × IsSlice now proto from circuits result.1 self.old self.new }
    {
        let (next, frames) = self.take_slice(proto, from);
        let datagrams = self.answer_all(now);
        let answers = self.empty_relays();
        self.look_after(frames);
        (next, frames + datagrams + answers)
    }

    /// Takes a frame from each circuit's socket of a protocol, and has all of them answered.
    fn take_all(&mut self, proto: Proto, now: Moment) -> u32
        ensures most { result ≤ 19 * (length self.old.topology.circuits + 15) }
        ensures taken { HasTakenAll now proto result self.old self.new }
    {
        let end = self.sockets.circuits.len();
        let (mut next, mut taken) = (0, 0);
        'slices: while next < end {
            let (after, count) = self.slice(proto, next, now);
            next = after;
            taken += count;
        }
        taken
    }

    /// Makes a pass at this moment: takes a frame from each socket of the circuits at which one waits, first for DHCPv4, then for
    /// DHCPv6. It takes them in slices of at most 16. Each slice goes to the server, which answers it, and to the circuits before
    /// the next slice begins. Then it moves all clocks to this moment. Returns how many datagrams were taken.
    ///
    /// What comes from elsewhere to the server or a relay can't keep a slice from ending: the server takes at most 32 datagrams
    /// for a slice, and each relay at most 32.
    pub fn pass(&mut self, now: Moment) -> u32
        ensures most { result ≤ 38 * (length self.old.topology.circuits + 15) }
        ensures passed { HasPassed now result self.old self.new }
        ensures set_up { StaysSetUp self.old self.new }
        ensures turns { self.new.turns ≡ self.old.turns + 1 }
        ensures counts { HasCounted result self.old.tally.all self.new.tally.all }
        ensures received { self.new.tally.all.received ≡ more_by result self.old.tally.all.received }
        ensures quiet { result ≡ 0 → books_in self.new.server ≡ books_at now (books_in self.old.server) }
        ensures closed { StayClosed self.old.server self.new.server }
        ensures clocks { HasReached now self.new.server }
    {
        self.waiter.poll();
        let count4 = self.take_all(Proto::V4, now);
        let count6 = self.take_all(Proto::V6, now);
        self.server.tick(now);
        self.history.tick(now);
        self.turns.tick();
        // for the contract: the limit that its type keeps
        let _received = self.tally.all.received;
        count4 + count6
    }

    /// Reads the system's clock and the monotonic one, has the service's clock follow them, and returns the moment that it shows.
    fn read_clocks<R: Clock>(&mut self, rt: &R) -> Moment
        ensures read { HasReadClocks result self.old.clock self.new.clock self.old.history self.new.history }
        ensures rest { self.new ≡ record self.old { history = self.new.history; clock = self.new.clock } }
    {
        let system = read_clock(rt, &mut self.history);
        let monotonic = read_monotonic(rt, &mut self.history);
        self.clock.follow(system, monotonic);
        self.clock.moment()
    }

    /// Makes a pass at the moment that the service's clock then shows. If it took no datagram it waits for the next one, at most 5
    /// milliseconds. Returns the moment of the pass.
    pub(super) fn round<R: Clock>(&mut self, rt: &R) -> Moment
        ensures passed { (before : ℕ) → HasPassedOnce before result self.old self.new }
        ensures turns { self.new.turns ≡ self.old.turns + 1 }
        ensures set_up { StaysSetUp self.old self.new }
        ensures closed { StayClosed self.old.server self.new.server }
    {
        let now = self.read_clocks(rt);
        if self.pass(now) == 0 {
            // no socket gave a datagram
            self.waiter.wait(rt, PAUSE);
        }
        now
    }

    /// Makes so many passes, each at the moment that the service's clock then shows: it follows the system's clock, but for jumps of
    /// more than a minute. After a pass that took no datagram it waits for the next one, at most 5 milliseconds. After each pass it is
    /// shown to `watch`.
    pub fn serve_passes<R: Clock, W: Watch>(&mut self, rt: &R, passes: u64, watch: &mut W)
        ensures passed { (now : ℕ) × HasMadePasses passes now self.old self.new
            × IsWatched passes now (W.watched watch.old) (W.watched watch.new) }
        ensures turns { self.new.turns ≡ self.old.turns + passes }
        ensures set_up { StaysSetUp self.old self.new }
        ensures closed { StayClosed self.old.server self.new.server }
    {
        'passes: for _ in 0..passes {
            let now = self.round(rt);
            watch.after_turn(self, now);
        }
    }
}
