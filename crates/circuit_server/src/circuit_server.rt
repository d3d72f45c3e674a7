//! The server of one circuit: what it has while it is open, and what it makes of a message.
ghost use Rattle.std.specs.Prelude.{◌≡◌, ◌<◌, ◌≤◌, ◌+◌, ◌*◌, ℕ, Option, length, [], Some, None};
ghost use Rattle.std.specs.Prelude.{IfOk, IfErr, IfSome, true, is_some, option_map};
ghost use Rattle.config.specs.CircuitPart.{IsPart};
ghost use Rattle.circuit_server.specs.Deadlines.{HasEntries, KeepsEntries, held_in};
ghost use Rattle.circuit_server.specs.Restarted.{IsRestarted, SettlesOne};
ghost use Rattle.circuit_server.specs.Served.{IsServed};
ghost use Rattle.timers.specs.Deadlines.{deadline};
ghost use Rattle.requests.specs.RelayedMessage.{IsRelayedMessage};
ghost use Rattle.circuit_server.specs.Prepared.{CanSaveDecision, IsApplied, IsAppliedAndSaved, IsDropped, IsPrepared};
ghost use Rattle.circuit_server.specs.Prepared.{IsDecisionSettled, IsSettled, with_marks};
ghost use Rattle.circuit_server.specs.CircuitDecision.{FitsCircuit, with_decision};
ghost use Rattle.circuit_server.specs.CircuitServerValue.{HasFoundBook, HasPools, IsReadyFor, OpenCircuitValue, kept_slots, open_book};
ghost use Rattle.circuit_server.specs.Ticked.{IsLater, state_at};
ghost use Rattle.circuit_server.specs.Unoffered.{state_unoffered};
ghost use Rattle.lease_disk.specs.Device.{ChangesOne, IsCalledWithin};
ghost use Rattle.lease_disk.specs.Region.{IsClean};

use crate::decision::{CircuitDecision, CircuitDecision4, CircuitDecision6, Decide, Decision, put};
use crate::open_circuit::OpenCircuit;
use crate::prepared::{Prepared, save_alone};
use config::CircuitPart;
use lease_disk::{Disk, Fault, Marks, Saving, migrate};
use requests::RelayedMessage;
use std::marker::Model;
use timers::Deadlines;
use types::{Circuit, Delivery, Discard, Moment, SLOTS, Slots};
use wire::PacketBuf;

/// The server of one circuit: what it has while the circuit is open. A part is the circuit's part of the
/// configuration, and a device the one that its region is on, which nobody else writes to meanwhile. A table is that
/// of the deadlines of all circuits, in seconds, and `circuit` says which of them this one is. Both are the same at
/// each call. No call takes memory.
#[derive(Drop)]
pub struct CircuitServer {
    pub(crate) state: Option<OpenCircuit>,
}

impl Model for CircuitServer {
    ghost use Rattle.std.specs.Prelude.{Option};
    ghost use Rattle.circuit_server.specs.CircuitServerValue.{OpenCircuitValue};

    ghost Value = { Option OpenCircuitValue };

    ghost view = { λ s. s.state };
}

impl CircuitServer {
    /// The server of a closed circuit.
    pub fn closed() -> CircuitServer
        ensures { result ≡ None }
    {
        CircuitServer { state: None }
    }

    /// Whether the circuit is open: its region was read and is not damaged, and each save to it was done.
    pub fn is_open(&self) -> bool
        ensures { result ≡ is_some (option_map open_book self.now) }
    {
        self.state.is_some()
    }

    /// What is kept of the circuit at this moment, or at its own clock where that is a later one: the live bindings and bars
    /// of each address, and that clock, without offers; `None` where the circuit is closed.
    pub fn slots_at(&self, now: Moment) -> Option<Slots>
        ensures { result ≡ option_map kept_slots (state_at now self.now) }
    {
        self.state.as_ref().map(|circuit| circuit.slots_at(now))
    }

    /// Begins with what the circuit's region holds. A region of format 1 is moved to format 2 first, in this buffer. The
    /// circuit is closed where the region cannot be read or is damaged, and where the move fails. The deadlines of its slots
    /// are for the caller to set.
    pub fn restart<D: Disk>(&mut self, part: &CircuitPart, disk: &mut D, buffer: &mut [u8])
        requires part { IsPart part.now }
        requires exists { part.now.region < (D.device disk.old).count }
        requires buffer { length buffer.old ≡ 16384 }
        requires clean { D.tells ≡ true → ((D.device disk.old).region part.now.region).readable ≡ true
            → IsClean ((D.device disk.old).region part.now.region) }
        ensures pools { HasPools part.now self.new }
        ensures found { HasFoundBook (record { part = part.now; state = self.new }) }
        ensures restarted { IsRestarted D.tells part.now self.new (D.device disk.old) (D.device disk.new) }
        ensures frame { ChangesOne D.tells part.now.region (D.device disk.old) (D.device disk.new) }
        ensures calls { IsCalledWithin 1 5 4 (D.device disk.old) (D.device disk.new) }
        ensures doubt { SettlesOne part.now.region self.new (D.doubt disk.old) (D.doubt disk.new) }
    {
        let Ok(()) = migrate(part.region(), disk, part.counts(), buffer) else {
            self.state = None;
            return;
        };
        self.state = OpenCircuit::recover(part, disk);
    }

    /// Makes what a decision of an open circuit changes of the books and the deadlines.
    fn apply<C: Decision>(&mut self, decision: &C, table: &mut Deadlines, circuit: Circuit)
        requires entries { HasEntries table.old circuit self.old }
        requires fits { IfSome self.old (FitsCircuit (C.decision decision.now)) }
        ensures entries { KeepsEntries circuit table.old table.new self.new }
        ensures applied { self.new ≡ option_map (with_decision (C.decision decision.now)) self.old }
    {
        let state = match &mut self.state {
            Some(state) => state,
            None => return,
        };
        decision.commit(state);
        decision.set_deadlines(table, circuit);
    }

    /// Makes what a decision of an open circuit changes of the books and the deadlines. Returns what has to be saved before
    /// its reply leaves, if anything.
    // not inlined: most datagrams save nothing, and the room for a save is large
    #[inline(never)]
    fn apply_for_save<C: Decision>(
        &mut self,
        part: &CircuitPart,
        decision: &C,
        table: &mut Deadlines,
        circuit: Circuit,
    ) -> Option<Saving>
        requires entries { HasEntries table.old circuit self.old }
        requires pools { HasPools part.now self.old }
        requires fits { IfSome self.old (FitsCircuit (C.decision decision.now)) }
        ensures later { (moment : ℕ) → IsLater moment self.old → IsLater moment self.new }
        ensures pools { HasPools part.now self.new }
        ensures entries { KeepsEntries circuit table.old table.new self.new }
        ensures applied { (before : OpenCircuitValue) → self.old ≡ Some before
            → IsApplied part.now (C.decision decision.now) before self.new result }
    {
        self.apply(decision, table, circuit);
        let state = self.state.as_ref()?;
        let (slot, content) = decision.kept()?;
        Some(state.saving(part, slot, content))
    }

    /// Makes what a decision of an open circuit changes of the books and the deadlines, and saves what has to be saved, if
    /// anything, alone. Returns the marks of the region after it.
    fn apply_and_save<C: Decision, D: Disk>(
        &mut self,
        part: &CircuitPart,
        decision: &C,
        disk: &mut D,
        table: &mut Deadlines,
        circuit: Circuit,
    ) -> Result<Option<Marks>, Fault>
        requires entries { HasEntries table.old circuit self.old }
        requires pools { HasPools part.now self.old }
        requires fits { IfSome self.old (FitsCircuit (C.decision decision.now)) }
        requires ready { CanSaveDecision D.tells (D.device disk.old) part.now (C.decision decision.now) self.old }
        ensures later { (moment : ℕ) → IsLater moment self.old → IsLater moment self.new }
        ensures pools { HasPools part.now self.new }
        ensures entries { KeepsEntries circuit table.old table.new self.new }
        ensures saved { IsAppliedAndSaved D.tells part.now (C.decision decision.now) self.old self.new result (D.device disk.old)
            (D.device disk.new) }
    {
        if !decision.saves() {
            self.apply(decision, table, circuit);
            return Ok(None);
        }
        let saving = self.apply_for_save(part, decision, table, circuit);
        save_alone(&saving, disk)
    }

    /// Decides on what was read of a datagram of the circuit, at the moment of its delivery, and makes what that changes of
    /// the books and the deadlines. Nothing is saved yet, and nothing sent: what is prepared has to be settled once its
    /// save is done, before any other call. The error is the reason for which the datagram is dropped.
    pub fn prepare<'a>(
        &mut self,
        part: &CircuitPart,
        delivery: &Delivery<'_>,
        relayed: RelayedMessage<'a>,
        table: &mut Deadlines,
        circuit: Circuit,
    ) -> Result<Prepared<'a>, Discard>
        requires read { IsRelayedMessage delivery.now.proto delivery.now.bytes relayed }
        requires entries { HasEntries table.old circuit self.old }
        requires pools { HasPools part.now self.old }
        ensures later { (moment : ℕ) → IsLater moment self.old → IsLater moment self.new }
        ensures pools { HasPools part.now self.new }
        ensures entries { KeepsEntries circuit table.old table.new self.new }
        ensures prepared { IfOk result (IsPrepared part.now delivery.now self.old self.new) }
        ensures dropped { IfErr result (IsDropped part.now delivery.now self.old self.new) }
    {
        let Some(state) = &mut self.state else {
            return Err(Discard::CircuitClosed);
        };
        state.tick(delivery.moment);
        let decision = match relayed {
            RelayedMessage::V4(message) => match CircuitDecision4::decide(state, part, message) {
                Ok(made) => CircuitDecision::V4(made),
                Err(why) => return Err(why),
            },
            RelayedMessage::V6(forward) => match CircuitDecision6::decide(state, part, forward) {
                Ok(made) => CircuitDecision::V6(made),
                Err(why) => return Err(why),
            },
        };
        let saving = self.apply_for_save(part, &decision, table, circuit);
        Ok(Prepared { decision, saving })
    }

    /// Answers what was prepared, by its save: the marks of the region after it, or that it failed, which closes the circuit until
    /// a restart. At `Ok` the reply's datagram is in `out`, which stays empty otherwise.
    pub fn settle(
        &mut self,
        part: &CircuitPart,
        prepared: &Prepared<'_>,
        saved: Result<Option<Marks>, Fault>,
        out: &mut PacketBuf,
        table: &mut Deadlines,
        circuit: Circuit,
    ) -> Result<(), Discard>
        requires empty { out.old ≡ [] }
        requires entries { HasEntries table.old circuit self.old }
        requires pools { HasPools part.now self.old }
        ensures later { (moment : ℕ) → IsLater moment self.old → IsLater moment self.new }
        ensures pools { HasPools part.now self.new }
        ensures entries { KeepsEntries circuit table.old table.new self.new }
        ensures settled { IsSettled part.now prepared.now saved self.old self.new result out.new }
    {
        self.settle_decision(part, &prepared.decision, saved, out, table, circuit)
    }

    /// Answers by a decision whose changes are made, and by its save: the marks of the region after it, or that it failed,
    /// which closes the circuit.
    fn settle_decision<C: Decision>(
        &mut self,
        part: &CircuitPart,
        decision: &C,
        saved: Result<Option<Marks>, Fault>,
        out: &mut PacketBuf,
        table: &mut Deadlines,
        circuit: Circuit,
    ) -> Result<(), Discard>
        requires empty { out.old ≡ [] }
        requires entries { HasEntries table.old circuit self.old }
        requires pools { HasPools part.now self.old }
        ensures later { (moment : ℕ) → IsLater moment self.old → IsLater moment self.new }
        ensures pools { HasPools part.now self.new }
        ensures entries { KeepsEntries circuit table.old table.new self.new }
        ensures settled { IsDecisionSettled part.now (C.decision decision.now) saved self.old self.new result out.new }
    {
        let Ok(marks) = saved else {
            self.state = None;
            self.set_deadlines(table, circuit);
            return Err(Discard::DiskFault);
        };
        self.set_marks(marks);
        decision.reply(part, out)
    }

    /// The marks of its region after a save, if there was one.
    fn set_marks(&mut self, marks: Option<Marks>)
        ensures { self.new ≡ with_marks marks self.old }
    {
        if let (Some(circuit), Some(marks)) = (&mut self.state, marks) {
            circuit.marks = marks;
        }
    }

    /// Answers what was read of a datagram of the circuit, at the moment of its delivery. A save that fails closes the
    /// circuit, until a restart. At `Ok` the reply's datagram is in `out`, which stays empty otherwise; the error is the
    /// reason for which the datagram is dropped.
    pub fn answer<D: Disk>(
        &mut self,
        part: &CircuitPart,
        delivery: &Delivery<'_>,
        relayed: RelayedMessage<'_>,
        disk: &mut D,
        out: &mut PacketBuf,
        table: &mut Deadlines,
        circuit: Circuit,
    ) -> Result<(), Discard>
        requires read { IsRelayedMessage delivery.now.proto delivery.now.bytes relayed }
        requires empty { out.old ≡ [] }
        requires exists { part.now.region < (D.device disk.old).count }
        requires entries { HasEntries table.old circuit self.old }
        requires pools { HasPools part.now self.old }
        requires ready { D.tells ≡ true → IsReadyFor ((D.device disk.old).region part.now.region) self.old }
        ensures later { (moment : ℕ) → IsLater moment self.old → IsLater moment self.new }
        ensures entries { KeepsEntries circuit table.old table.new self.new }
        ensures served { IsServed D.tells part.now delivery.now self.old self.new result out.new (D.device disk.old) (D.device disk.new) }
    {
        match relayed {
            RelayedMessage::V4(message) => self.answer_with::<CircuitDecision4<'_>, D>(
                part, delivery, message, disk, out, table, circuit,
            ),
            RelayedMessage::V6(forward) => self.answer_with::<CircuitDecision6<'_>, D>(
                part, delivery, forward, disk, out, table, circuit,
            ),
        }
    }

    /// Answers a datagram of the circuit by a decision of this type: that of one protocol alone.
    fn answer_with<C: Decide, D: Disk>(
        &mut self,
        part: &CircuitPart,
        delivery: &Delivery<'_>,
        read: C::Read,
        disk: &mut D,
        out: &mut PacketBuf,
        table: &mut Deadlines,
        circuit: Circuit,
    ) -> Result<(), Discard>
        requires read { IsRelayedMessage delivery.now.proto delivery.now.bytes (C.relayed read) }
        requires empty { out.old ≡ [] }
        requires exists { part.now.region < (D.device disk.old).count }
        requires entries { HasEntries table.old circuit self.old }
        requires pools { HasPools part.now self.old }
        requires ready { D.tells ≡ true → IsReadyFor ((D.device disk.old).region part.now.region) self.old }
        ensures later { (moment : ℕ) → IsLater moment self.old → IsLater moment self.new }
        ensures entries { KeepsEntries circuit table.old table.new self.new }
        ensures served { IsServed D.tells part.now delivery.now self.old self.new result out.new (D.device disk.old) (D.device disk.new) }
    {
        let Some(state) = &mut self.state else {
            return Err(Discard::CircuitClosed);
        };
        state.tick(delivery.moment);
        // what is decided stays where it is: to move it costs more than the rest of a short answer
        let decided = C::decide(state, part, read);
        match &decided {
            Ok(decision) => {
                let saved = self.apply_and_save(part, decision, disk, table, circuit);
                self.settle_decision(part, decision, saved, out, table, circuit)
            }
            Err(why) => Err(*why),
        }
    }

    /// Gives all slots of the circuit their deadlines.
    pub fn set_deadlines(&self, table: &mut Deadlines, circuit: Circuit)
        requires room { 32 * circuit + 32 ≤ length table.old.slots }
        ensures own { (s : ℕ) → s < 32 → deadline table.new (32 * circuit + s) ≡ held_in self.now s }
        ensures entries { KeepsEntries circuit table.old table.new self.now }
    {
        'slots: for slot in 0..SLOTS {
            let until = match &self.state {
                Some(state) => state.until(slot),
                None => None,
            };
            put(table, circuit, slot, until);
        }
    }

    /// The circuit is no longer served: it loses its offers, and its slots have the deadlines of what is left.
    pub fn turn_off(&mut self, table: &mut Deadlines, circuit: Circuit)
        requires room { 32 * circuit + 32 ≤ length table.old.slots }
        ensures state { self.new ≡ state_unoffered self.old }
        ensures own { (s : ℕ) → s < 32 → deadline table.new (32 * circuit + s) ≡ held_in self.new s }
        ensures entries { KeepsEntries circuit table.old table.new self.new }
    {
        self.withdraw_offers();
        self.set_deadlines(table, circuit);
    }

    /// Drops the offers of an open circuit.
    fn withdraw_offers(&mut self)
        ensures { self.new ≡ state_unoffered self.old }
    {
        if let Some(circuit) = &mut self.state {
            circuit.four.withdraw_offers();
        }
    }

    /// Moves the clock of an open circuit to this moment, where it is a later one.
    pub fn tick(&mut self, now: Moment)
        ensures { self.new ≡ state_at now self.old }
    {
        if let Some(circuit) = &mut self.state {
            circuit.tick(now);
        }
    }
}
