//! A run: one event after the other, each frame delivered as it leaves.
ghost use Rattle.std.specs.Prelude.{◌≡◌, ◌+◌, ◌<◌, List, ◌++◌, length, take, true, false, IfErr, IfSome, OnOk};
ghost use Rattle.lease_disk.specs.Device.{Device};
ghost use Rattle.config.specs.Topology.{Topology};
ghost use Rattle.dispatch.specs.Regions.{KeepsOthers};
ghost use Rattle.world.specs.Headline.{CircuitState, EmitsAt, Emits, Reaches, Steps, frame_of, topology_after};
ghost use Rattle.events.specs.Stray.{stray_outcome};

use crate::sink::Sink;
use events::{Event, Outcome};
use wire::PacketBuf;

/// What takes events, one whole event a step.
pub trait Machine {
    /// The state of each circuit.
    ghost states: { Self → List CircuitState };

    /// What the relays know of the configurations, and which is in force.
    ghost topology: { Self → Topology };

    /// The device of the circuits' regions.
    ghost device: { Self → Device };

    /// Takes one event. A frame that leaves is in `out`, which is empty after every other outcome.
    fn step(&mut self, event: &Event<'_>, out: &mut PacketBuf) -> Outcome
        ensures steps { Steps event.now (states self.old) (states self.new) result out.new }
        ensures stray { IfSome (stray_outcome (topology self.old) event.now) (λ expected. result ≡ expected) }
        ensures topology { topology self.new ≡ topology_after event.now (topology self.old) }
        ensures others { KeepsOthers (topology self.old).circuits (device self.old) (device self.new) };
}

/// Hands the frame of an outcome to the sink, if there is one.
fn deliver<S: Sink>(outcome: Outcome, out: &PacketBuf, sink: &mut S) -> bool
    ensures yes { result ≡ true → S.taken sink.new ≡ S.taken sink.old ++ frame_of outcome out.now }
    ensures quiet { result ≡ true → S.refusals sink.new ≡ S.refusals sink.old }
    ensures no { result ≡ false → S.taken sink.new ≡ S.taken sink.old }
    ensures cause { result ≡ false → S.refusals sink.new ≡ S.refusals sink.old + 1 }
    ensures one { result ≡ false → length (frame_of outcome out.now) ≡ 1 }
{
    match outcome {
        Outcome::Framed(circuit, dest) => sink.frame(circuit, dest, out.as_slice()),
        Outcome::Dropped(_) => true,
        Outcome::Gone => true,
        Outcome::SentUp(_) => true,
        Outcome::SentDown(_) => true,
        Outcome::Done => true,
        Outcome::Batched(_) => true,
        Outcome::NotABatch => true,
        Outcome::NotAStray => true,
        Outcome::NoPlan => true,
    }
}

/// Takes the events in order and hands each frame that leaves to the sink. It stops at the first
/// frame that the sink refuses, and returns the number of that event, 0 for the first.
pub fn run<M: Machine, S: Sink>(
    machine: &mut M,
    events: &[Event<'_>],
    sink: &mut S,
) -> Result<(), usize>
    ensures frames { OnOk result (Emits events.now (M.states machine.old) (S.taken sink.old) (S.taken sink.new)) }
    ensures reaches { OnOk result (Reaches events.now (M.states machine.old) (M.states machine.new)) }
    ensures others { KeepsOthers (M.topology machine.old).circuits (M.device machine.old) (M.device machine.new) }
    ensures quiet { OnOk result (S.refusals sink.new ≡ S.refusals sink.old) }

    // The sink refused the frame of event n: it has those of the events before, and the machine has
    // taken event n.
    ensures within { IfErr result (λ n. n < length events.now) }
    ensures frames_before { IfErr result (λ n. Emits (take n events.now) (M.states machine.old) (S.taken sink.old) (S.taken sink.new)) }
    ensures reaches_past { IfErr result (λ n. Reaches (take (n + 1) events.now) (M.states machine.old) (M.states machine.new)) }
    ensures refused { IfErr result (λ n. S.refusals sink.new ≡ S.refusals sink.old + 1) }
    ensures emits_at { IfErr result (λ n. EmitsAt n events.now (M.states machine.old)) }
{
    let mut out = PacketBuf::new();
    'events: for (n, event) in events.iter().enumerate() {
        let outcome = machine.step(event, &mut out);
        let taken = deliver(outcome, &out, sink);
        if !taken {
            return Err(n);
        }
    }
    Ok(())
}
