//! Several datagrams at one moment, whose saves share their syncs.
ghost use Rattle.std.specs.Prelude.{◌≡◌, ◌<◌, ◌≤◌, ◌==◌, ◌&&◌, ◌||◌, ◌+◌, ◌∷◌, ◌++◌, not, ℕ, List, [], Result, Ok, Err};
ghost use Rattle.std.specs.Prelude.{true, false, length, take, slice_get, slice_set, IfOk, IfErr, Some};
ghost use Rattle.types.specs.declared.discard.Discard as discard;
ghost use Rattle.lease_disk.specs.Device.{has_failed, is_in};
ghost use Rattle.dispatch.specs.Batch.{IsBatch, IsBatchOfLeases, IsWrittenTogether, batch_fault, batch_saves};
ghost use Rattle.dispatch.specs.Batch.{circuits_of, deliveries, is_circuit, is_named};
ghost use Rattle.dispatch.specs.Deadlines.{AllUnchangedOrUntilHeld, KeepsDeadlines};
ghost use Rattle.timers.specs.Deadlines.{DeadlinesValue};
ghost use Rattle.requests.specs.Addressee as who;
ghost use Rattle.dispatch.specs.Parts.{AreAnswered, AreDecided, AreToSettle, IsAnswered, IsPart, IsReceivedBatch};
ghost use Rattle.dispatch.specs.Parts.{IsSettledSo, is_of, has_named, saved_by, saving_in, savings_of, with_circuit};
ghost use Rattle.batch_saves.specs.Batch.{part_at};
ghost use Rattle.std.specs.List.{cons_option, list_any};
ghost use Rattle.dispatch.specs.ReceivedAlone.{IsFound};
ghost use Rattle.dispatch.specs.Regions.{HasRegions};
ghost use Rattle.types.specs.Delivery.{DeliveryValue};
ghost use Rattle.config.specs.Topology.{Topology};
ghost use Rattle.dispatch.specs.Answers.{circuit_in, no_answers};
ghost use Rattle.dispatch.specs.ServerValue.{AreReady, books_in, leases_in};
ghost use Rattle.config.specs.CircuitPart as parts;
ghost use Rattle.requests.specs.RelayedMessage.{IsRelayedMessage};
ghost use Rattle.circuit_server.specs.Calls.{IsCalledToSave};
ghost use Rattle.circuit_server.specs.Prepared.{IsDropped, IsPrepared, IsSettled};
ghost use Rattle.circuit_server.specs.Ticked.{server_state};

use super::Server;
use super::batch_answers::BatchAnswers;
use super::savings::Savings;
use arrayvec::ArrayVec;
use batch_saves::Saving;
use circuit_server::Prepared;
use lease_disk::{Disk, Fault, Marks};
use requests::{RelayedMessage, addressee};
use types::{Circuit, Delivery, Discard, MAX_BATCH, Moment, Proto, Source};
use wire::PacketBuf;

/// A part of a batch before anything is saved: what is to be settled, and of which circuit, or why it is dropped.
type Part<'a> = Result<(Circuit, Prepared<'a>), Discard>;

/// What was made of the parts of a batch before anything is saved.
#[derive(Drop)]
struct Batch<'a> {
    /// Of each part what was made of it.
    parts: ArrayVec<Option<Part<'a>>, MAX_BATCH>,
    /// The indices of the parts' circuits so far.
    named: ArrayVec<usize, MAX_BATCH>,
    /// What the parts save.
    savings: Savings,
}

impl Server {
    /// Decides on the next part of a batch, and makes what it changes but in the circuit's region.
    fn prepare_part<'a>(
        &mut self,
        delivery: &Delivery<'a>,
        named: &mut ArrayVec<usize, MAX_BATCH>,
        answers: &mut BatchAnswers,
    ) -> Part<'a>
        requires room { length named.old.items < 16 }
        requires place { length answers.old.circuits < 16 }
        ensures topology { self.new.topology ≡ self.old.topology }
        ensures deadlines { KeepsDeadlines (λ c. is_circuit c (who.addressee self.old.topology delivery.now))
            self.old.deadlines self.new.deadlines }
        ensures held { AllUnchangedOrUntilHeld self.old.deadlines self.new.deadlines self.new.states }
        ensures part { IsPart self.old.topology named.old.items delivery.now self.old.states self.new.states result }
        ensures named { (c : ℕ)
            → has_named named.new.items c
            ≡ (has_named named.old.items c || is_circuit c (who.addressee self.old.topology delivery.now)) }
        ensures few { length named.new.items ≤ length named.old.items + 1 }
        ensures circuit { answers.new ≡ with_circuit (who.addressee self.old.topology delivery.now) answers.old }
    {
        let found = addressee(&self.circuits, delivery);
        answers.add_circuit(circuit_of(&found));
        let (circuit, relayed) = match found {
            Ok(found) => found,
            Err(why) => return Err(why),
        };
        let index = circuit.index();
        if named.contains(&index) {
            return Err(Discard::BatchTwice);
        }
        named.push(index);
        let part = self.circuits.part(circuit);
        let table = &mut self.deadlines;
        let server = &mut self.servers[index];
        server.tick(self.ticked);
        match server.prepare(part, delivery, relayed, table, circuit) {
            Ok(prepared) => Ok((circuit, prepared)),
            Err(why) => Err(why),
        }
    }

    /// Takes several datagrams of this moment, each with its protocol and its source, 1 to 16 of them, as `receive` takes one, but
    /// that their saves share three syncs. All are decided first, then saved together, then answered in order. A part whose circuit
    /// an earlier part is of is refused and changes nothing. A save that fails closes its circuit, alone; a shared sync that
    /// fails is a fault of each save that was not done by then.
    pub fn receive_batch<D: Disk>(
        &mut self,
        parts: &[(Proto, Source, &[u8])],
        now: Moment,
        disk: &mut D,
        answers: &mut BatchAnswers,
    )
        requires some { 1 ≤ length parts.now }
        requires most { length parts.now ≤ 16 }
        requires regions { HasRegions self.old.topology.circuits (D.device disk.old).count }
        requires ready { D.tells ≡ true → AreReady (D.device disk.old).region self.old }
        ensures topology { self.new.topology ≡ self.old.topology }

        // Over every device: a save fails where the device counts a failure of the circuit's region.
        ensures answers { IsBatch self.old.topology (deliveries now parts.now)
            (has_failed (D.device disk.old) (D.device disk.new)) (books_in self.old) (books_in self.new) answers.new.answers }

        // The circuit of each part, whatever became of it.
        ensures circuits { answers.new.circuits ≡ circuits_of self.old.topology (deliveries now parts.now) }

        // No deadline is looked at, and those of every circuit that no part is of stay. Each is what it was, or until when
        // its slot is held now.
        ensures deadlines { KeepsDeadlines (is_named self.old.topology (deliveries now parts.now)) self.old.deadlines self.new.deadlines }
        ensures held { AllUnchangedOrUntilHeld self.old.deadlines self.new.deadlines self.new.states }

        // Over a device that tells its bytes: which saves fail, and what restarts then find.
        ensures fails { D.tells ≡ true → (r : ℕ)
            → has_failed (D.device disk.old) (D.device disk.new) r
            ≡ (is_in (batch_saves self.old.topology (deliveries now parts.now) (books_in self.old)) r
            && not (batch_fault (D.device disk.old).failing_call
            (batch_saves self.old.topology (deliveries now parts.now) (books_in self.old)) r == 0)) }
        ensures leases { D.tells ≡ true → IsBatchOfLeases self.old.topology (deliveries now parts.now)
            (batch_fault (D.device disk.old).failing_call (batch_saves self.old.topology (deliveries now parts.now) (books_in self.old)))
            (leases_in (D.device disk.old).region self.old) (leases_in (D.device disk.new).region self.new) }
        ensures ready { D.tells ≡ true → AreReady (D.device disk.new).region self.new }
        ensures frame { IsWrittenTogether D.tells
            (batch_saves self.old.topology (deliveries now parts.now) (books_in self.old)) (D.device disk.old)
            (D.device disk.new) }

        // Over every device: how often it is called.
        ensures calls { IsCalledToSave (batch_saves self.old.topology (deliveries now parts.now) (books_in self.old))
            (D.device disk.old) (D.device disk.new) }
    {
        answers.clear();
        let [(proto, source, bytes)] = parts else {
            self.receive_together(parts, now, disk, answers);
            return;
        };
        // one alone needs nothing of what a batch keeps between its steps
        let delivery = Delivery {
            proto: *proto,
            source: *source,
            moment: now,
            bytes,
        };
        let found = addressee(&self.circuits, &delivery);
        answers.add_circuit(circuit_of(&found));
        let place = &mut answers.places[answers.count];
        place.datagram.clear();
        place.made = self.receive_found(found, &delivery, disk, &mut place.datagram);
        answers.count += 1;
    }

    /// Decides on all parts of a batch, saves them together, and answers them.
    // not inlined: its list of sixteen would be room on the stack for one datagram too
    #[inline(never)]
    fn receive_together<D: Disk>(
        &mut self,
        parts: &[(Proto, Source, &[u8])],
        now: Moment,
        disk: &mut D,
        answers: &mut BatchAnswers,
    )
        requires most { length parts.now ≤ 16 }
        requires none { answers.old ≡ no_answers }
        requires regions { HasRegions self.old.topology.circuits (D.device disk.old).count }
        requires ready { D.tells ≡ true → AreReady (D.device disk.old).region self.old }
        ensures topology { self.new.topology ≡ self.old.topology }
        ensures deadlines { KeepsDeadlines (is_named self.old.topology (deliveries now parts.now)) self.old.deadlines self.new.deadlines }
        ensures held { AllUnchangedOrUntilHeld self.old.deadlines self.new.deadlines self.new.states }
        ensures received { IsReceivedBatch D.tells (deliveries now parts.now) answers.new.answers self.old self.new
            (D.device disk.old) (D.device disk.new) }
        ensures circuits { answers.new.circuits ≡ circuits_of self.old.topology (deliveries now parts.now) }
    {
        let _ = &self.circuits;
        let mut batch = Batch {
            parts: ArrayVec::new(),
            named: ArrayVec::new(),
            savings: Savings::new(),
        };
        'parts: for index in 0..parts.len() {
            let Some(part) = parts.get(index) else {
                unreachable!()
            };
            let delivery = Delivery {
                proto: part.0,
                source: part.1,
                moment: now,
                bytes: part.2,
            };
            let made = self.prepare_part(&delivery, &mut batch.named, answers);
            batch.savings.add(saving_of(&made));
            batch.parts.push(Some(made));
        }
        batch.savings.save(disk);
        self.answer_all(&batch, answers);
    }

    /// Answers a part of a batch, where this is the place of its save among those of the batch.
    fn answer_part(
        &mut self,
        part: &Part<'_>,
        savings: &Savings,
        place: usize,
        answers: &mut BatchAnswers,
    )
        requires exists { IfOk part.now (λ one. one.0 < length self.old.topology.circuits) }
        requires place { place + length (cons_option (saving_in (Some part.now)) []) ≤ length savings.now }
        requires room { length answers.old.answers < 16 }
        ensures topology { self.new.topology ≡ self.old.topology }
        ensures size { length self.new.states ≡ length self.old.states }
        ensures keeps { (k : ℕ) → is_of k (Some part.now) ≡ false → server_state self.new.states k ≡ server_state self.old.states k }
        ensures deadlines { KeepsDeadlines (λ c. is_of c (Some part.now)) self.old.deadlines self.new.deadlines }
        ensures held { (before : DeadlinesValue) → AllUnchangedOrUntilHeld before self.old.deadlines self.old.states
            → AllUnchangedOrUntilHeld before self.new.deadlines self.new.states }
        ensures answered { (answer : Result (List ℕ) discard.Discard)
            × (answers.new ≡ record answers.old { answers = answers.old.answers ++ answer ∷ [] })
            × IsAnswered self.old.topology (part_at savings.now place) self.old.states self.new.states answer part.now }
    {
        match part {
            Ok((circuit, prepared)) => {
                let saved = savings.outcome(prepared.saving, place);
                self.settle(*circuit, prepared, saved, answers);
            }
            Err(why) => answers.add_dropped(*why),
        }
    }

    /// Answers each part of a batch, in order, whose saves are done or have failed.
    fn answer_all(&mut self, batch: &Batch<'_>, answers: &mut BatchAnswers)
        requires parts { AreToSettle self.old.topology batch.now.parts.items }
        requires most { length batch.now.parts.items ≤ 16 }
        requires savings { length batch.now.savings ≡ length (savings_of batch.now.parts.items) }
        requires none { answers.old.answers ≡ [] }
        ensures topology { self.new.topology ≡ self.old.topology }
        ensures deadlines { KeepsDeadlines (λ c.
            list_any (is_of c) (take (length batch.now.parts.items) batch.now.parts.items)) self.old.deadlines
            self.new.deadlines }
        ensures held { (before : DeadlinesValue) → AllUnchangedOrUntilHeld before self.old.deadlines self.old.states
            → AllUnchangedOrUntilHeld before self.new.deadlines self.new.states }
        ensures answered { AreAnswered self.old.topology batch.now.parts.items batch.now.savings
            (length batch.now.parts.items) self.old.states self.new.states answers.new.answers }
        ensures circuits { answers.new.circuits ≡ answers.old.circuits }
    {
        let mut place = 0;
        'parts: for part in batch.parts.iter() {
            let Some(part) = part else { unreachable!() };
            self.answer_part(part, &batch.savings, place, answers);
            place = place_after(place, part);
        }
    }
}

/// The circuit that was found, if there was one.
fn circuit_of(found: &Result<(Circuit, RelayedMessage<'_>), Discard>) -> Option<Circuit>
    ensures { (topology : Topology) (d : DeliveryValue) → IsFound topology d found.now → result ≡ circuit_in (who.addressee topology d) }
{
    match found {
        Ok((circuit, _)) => Some(*circuit),
        Err(_) => None,
    }
}

/// What a part has to save, if anything.
fn saving_of(part: &Part<'_>) -> Option<Saving>
    ensures { result ≡ saving_in (Some part.now) }
{
    match part {
        Ok((_, prepared)) => prepared.saving,
        Err(_) => None,
    }
}

/// The place of the next save of a batch after a part whose own place this is.
fn place_after(place: usize, part: &Part<'_>) -> usize
    requires { place ≤ 16 }
    ensures { result ≡ place + length (cons_option (saving_in (Some part.now)) []) }
{
    match saving_of(part) {
        None => place,
        Some(_) => place + 1,
    }
}
