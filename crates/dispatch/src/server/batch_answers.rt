//! What the server answers to the parts of a batch.
ghost use Rattle.std.specs.Prelude.{◌≡◌, ◌<◌, ◌==◌, ℕ, List, Result, [], ◌∷◌, ◌++◌, Ok, Err, IfOk, IfErr, length};
ghost use Rattle.std.specs.Prelude.{option_map, slice_get, slice_set};
ghost use Rattle.types.specs.declared.discard.Discard as discard;
ghost use Rattle.timers.specs.Deadlines.{DeadlinesValue};
ghost use Rattle.circuit_server.specs.Ticked.{server_state};
ghost use Rattle.dispatch.specs.Answers.{answer_of, circuit_at, no_answers};
ghost use Rattle.dispatch.specs.Deadlines.{AllUnchangedOrUntilHeld, KeepsDeadlines};
ghost use Rattle.dispatch.specs.Parts.{IsSettledSo};

use super::Server;
use arrayvec::ArrayVec;
use circuit_server::Prepared;
use lease_disk::{Fault, Marks};
use std::array;
use std::marker::Model;
use types::{Circuit, Discard, MAX_BATCH};
use wire::PacketBuf;

/// The answer to one part.
#[derive(Drop)]
pub struct Answer {
    pub(super) made: Result<(), Discard>,
    /// Where there is a reply, its datagram.
    pub(super) datagram: PacketBuf,
}

impl Answer {
    /// What a place holds before there is an answer in it.
    fn none() -> Answer {
        Answer {
            made: Err(Discard::CircuitClosed),
            datagram: PacketBuf::new(),
        }
    }

    /// The datagram of the reply, or why there is none.
    pub fn reply(&self) -> Result<&PacketBuf, Discard>
        ensures ok { IfOk result (λ datagram. answer_of self.now ≡ Ok datagram.now) }
        ensures err { IfErr result (λ why. answer_of self.now ≡ Err why) }
    {
        match self.made {
            Ok(()) => Ok(&self.datagram),
            Err(why) => Err(why),
        }
    }
}

/// The answers to the parts of a batch, in order, each with the circuit that its part is of. The room for sixteen lies in the
/// value: a reply is written where it stays until it is sent.
#[derive(Drop)]
pub struct BatchAnswers {
    circuits: ArrayVec<Option<Circuit>, MAX_BATCH>,
    pub(super) count: usize,
    pub(super) places: [Answer; MAX_BATCH],
}

impl Model for BatchAnswers {
    ghost use Rattle.std.specs.Prelude.{◌≤◌, map, take};
    ghost use Rattle.dispatch.specs.Answers.{AnswersValue, answer_of};

    ghost Value = { AnswersValue };

    ghost view = { λ a. record { circuits = a.circuits.items; answers = map answer_of (take a.count a.places) } };

    ghost invariant = { λ a. a.count ≤ 16 };
}

impl BatchAnswers {
    /// Without answers.
    pub fn new() -> BatchAnswers
        ensures { result ≡ no_answers }
    {
        BatchAnswers {
            circuits: ArrayVec::new(),
            count: 0,
            places: array::from_fn(|_| Answer::none()),
        }
    }

    /// The answer to the part of this index.
    pub fn get(&self, index: usize) -> Option<&Answer>
        ensures { option_map (λ answer. answer_of answer.now) result ≡ slice_get self.now.answers index }
    {
        self.places[..self.count].get(index)
    }

    /// The circuit that the part of this index is of, if it is of one.
    pub fn circuit(&self, index: usize) -> Option<Circuit>
        ensures { result ≡ circuit_at self.now.circuits index }
    {
        *self.circuits.get(index)?
    }

    pub fn clear(&mut self)
        ensures { self.new ≡ no_answers }
    {
        self.circuits.clear();
        self.count = 0;
    }

    /// Adds the circuit that the next part is of, if it is of one.
    pub(super) fn add_circuit(&mut self, circuit: Option<Circuit>)
        requires room { length self.old.circuits < 16 }
        ensures { self.new ≡ record self.old { circuits = self.old.circuits ++ circuit ∷ [] } }
    {
        self.circuits.push(circuit);
    }

    /// Adds that the next part is dropped.
    pub(super) fn add_dropped(&mut self, why: Discard)
        requires room { length self.old.answers < 16 }
        ensures { self.new ≡ record self.old { answers = self.old.answers ++ Err why ∷ [] } }
    {
        let place = &mut self.places[self.count];
        place.made = Err(why);
        self.count += 1;
    }
}

impl Server {
    /// Answers what was prepared of the next part, by its save. One that failed closes the circuit.
    pub(super) fn settle(
        &mut self,
        circuit: Circuit,
        prepared: &Prepared<'_>,
        saved: Result<Option<Marks>, Fault>,
        answers: &mut BatchAnswers,
    )
        requires circuit { circuit < length self.old.topology.circuits }
        requires room { length answers.old.answers < 16 }
        ensures topology { self.new.topology ≡ self.old.topology }
        ensures others { self.new.states ≡ slice_set self.old.states circuit (server_state self.new.states circuit) }
        ensures deadlines { KeepsDeadlines (λ c. circuit == c) self.old.deadlines self.new.deadlines }
        ensures held { (before : DeadlinesValue) → AllUnchangedOrUntilHeld before self.old.deadlines self.old.states
            → AllUnchangedOrUntilHeld before self.new.deadlines self.new.states }
        ensures answered { (answer : Result (List ℕ) discard.Discard)
            × (answers.new ≡ record answers.old { answers = answers.old.answers ++ answer ∷ [] })
            × IsSettledSo self.old.topology prepared.now saved circuit self.old.states self.new.states answer }
    {
        let place = &mut answers.places[answers.count];
        place.datagram.clear();
        let part = self.circuits.part(circuit);
        let table = &mut self.deadlines;
        let server = &mut self.servers[circuit.index()];
        server.tick(self.ticked);
        place.made = server.settle(part, prepared, saved, &mut place.datagram, table, circuit);
        answers.count += 1;
    }
}
