//! What a circuit's server decides on a client's message, in either protocol.
ghost use Rattle.std.specs.Prelude.{◌≡◌, ◌<◌, ◌≤◌, ◌+◌, ◌*◌, ℕ, List, IfErr, IfOk, IfSome, Some, [], is_some, length, option_map};
ghost use Rattle.types.specs.Slots.{last_until};
ghost use Rattle.slots.specs.Lookup.{until_of};
ghost use Rattle.bindings_v4.specs.Slots4 as slots4;
ghost use Rattle.bindings_v6.specs.Slots6 as slots6;
ghost use Rattle.types.specs.declared.dest.Proto.{Proto};
ghost use Rattle.requests.specs.RelayedMessage.{IsRelayedMessage};
ghost use Rattle.requests.specs.declared.relayed_message.RelayedMessage.{RelayedMessage};
ghost use Rattle.circuit_server.specs.CircuitDecision.{FitsCircuit, IsWithin, answer_of, kept_in, served_by, with_decision};
ghost use Rattle.circuit_server.specs.CircuitServerValue.{HasPools, open_book};
ghost use Rattle.circuit_server.specs.Server.{datagram_served, drop};
ghost use Rattle.circuit_server.specs.declared.decision.CircuitDecision.{CircuitDecision};
ghost use Rattle.circuit_server.specs.Deadlines.{HasItsSlots, with_deadlines, with_until};
ghost use Rattle.circuit_server.specs.Answered.{IsAnswer};

use crate::open_circuit::OpenCircuit;
use bindings_v4::{Change4, Decision4, OfferChange};
use bindings_v6::Decision6;
use config::CircuitPart;
use lease_disk::Content;
use replies::{write4, write6};
use requests::{request4_in, request6_in};
use timers::Deadlines;
use types::{Circuit, Discard, FIRST_SLOT6, Key6, SLOTS, Slot4, Slot6};
use v4_message::Message;
use v6_message::{Message6, Relay6};
use wire::PacketBuf;

/// What a circuit decides on a DHCPv4 message. It has no room for DHCPv6's keys, so that an answer moves little.
#[derive(Drop)]
pub(crate) struct CircuitDecision4<'a> {
    pub(crate) message: Message<'a>,
    pub(crate) decision: Decision4,
}

/// What a circuit decides on a Relay-forward with a message of this client in it.
#[derive(Drop)]
pub(crate) struct CircuitDecision6<'a> {
    pub(crate) forward: Relay6<'a>,
    pub(crate) message: Message6<'a>,
    pub(crate) client: Key6,
    pub(crate) decision: Decision6,
}

/// What a circuit decides on a message, in either protocol. Nothing is changed and nothing is sent before it is kept.
#[derive(Drop)]
pub(crate) enum CircuitDecision<'a> {
    V4(CircuitDecision4<'a>),
    V6(CircuitDecision6<'a>),
}

/// A decision of a circuit, in one protocol or in either: what it changes, and what it answers.
pub(crate) trait Decision: Drop + Sized {
    ghost decision: { Self → CircuitDecision };

    /// Makes its change of its protocol's book.
    fn commit(&self, circuit: &mut OpenCircuit)
        requires { IsWithin (decision self.now) }
        ensures { circuit.new ≡ with_decision (decision self.now) circuit.old };

    /// The slot of the region that has to be saved before the reply leaves, and what it is to hold.
    fn kept(&self) -> Option<(usize, Content)>
        requires { IfSome (kept_in (decision self.now)) (λ kept. kept.0 < 32) }
        ensures { result ≡ kept_in (decision self.now) };

    /// Whether a slot has to be saved before the reply leaves.
    fn saves(&self) -> bool
        ensures { result ≡ is_some (kept_in (decision self.now)) };

    /// Gives the slots that the decision changes their deadlines. A slot that is free now because its client has
    /// another one may keep what it had until that is due.
    fn set_deadlines(&self, table: &mut Deadlines, circuit: Circuit)
        requires room { 32 * circuit + 32 ≤ length table.old.slots }
        requires slots { HasItsSlots (decision self.now) }
        requires within { IsWithin (decision self.now) }
        ensures { table.new ≡ with_deadlines (decision self.now) (32 * circuit) table.old };

    /// Writes the reply where there is one.
    fn reply(&self, part: &CircuitPart, out: &mut PacketBuf) -> Result<(), Discard>
        requires { out.old ≡ [] }
        ensures { IsAnswer (answer_of part.now (decision self.now)) result out.new };
}

/// A decision of one protocol: how it is made of what was read of a datagram.
pub(crate) trait Decide: Decision {
    /// What is read of a datagram.
    type Read: Drop;

    ghost relayed: { Self.Read → RelayedMessage };

    /// What a client's message calls for, or why it calls for nothing. Nothing is changed.
    fn decide(circuit: &OpenCircuit, part: &CircuitPart, read: Self::Read) -> Result<Self, Discard>
        requires { HasPools part.now (Some circuit.now) }
        ensures ok { (proto : Proto) (bytes : List ℕ) → IsRelayedMessage proto bytes (relayed read)
            → IfOk result (λ made. datagram_served part.now proto bytes (open_book circuit.now)
            ≡ served_by part.now circuit.now (Self.decision made)) }
        ensures err { (proto : Proto) (bytes : List ℕ) → IsRelayedMessage proto bytes (relayed read)
            → IfErr result (λ why. datagram_served part.now proto bytes (open_book circuit.now) ≡ drop why (open_book circuit.now)) }
        ensures fits { IfOk result (λ made. FitsCircuit (Self.decision made) circuit.now) };
}

impl<'a> Decide for CircuitDecision4<'a> {
    ghost use Rattle.requests.specs.declared.relayed_message.RelayedMessage.TheVariants as relayed_message;

    type Read = Message<'a>;

    ghost relayed = { λ message. relayed_message.V4 message };

    // inlined: to move what was decided takes longer than to decide
    #[inline(always)]
    fn decide(
        circuit: &OpenCircuit,
        _part: &CircuitPart,
        message: Message<'a>,
    ) -> Result<CircuitDecision4<'a>, Discard> {
        let request = match request4_in(&message) {
            Ok(request) => request,
            Err(why) => return Err(why),
        };
        let decision = circuit.four.decide(&request, circuit.clock);
        Ok(CircuitDecision4 { message, decision })
    }
}

impl<'a> Decision for CircuitDecision4<'a> {
    ghost use Rattle.circuit_server.specs.declared.decision.CircuitDecision.TheVariants as either;

    ghost decision = { λ made. either.V4 made };

    fn commit(&self, circuit: &mut OpenCircuit) {
        circuit.four.commit(&self.decision);
    }

    fn kept(&self) -> Option<(usize, Content)> {
        match &self.decision.change {
            Change4::Keeps(kept) => Some((kept.slot, Content::Four(kept.content))),
            Change4::Nothing | Change4::Offers(_) => None,
        }
    }

    fn saves(&self) -> bool {
        matches!(self.decision.change, Change4::Keeps(_))
    }

    fn set_deadlines(&self, table: &mut Deadlines, circuit: Circuit) {
        let (slot, until) = match &self.decision.change {
            Change4::Nothing => return,
            Change4::Offers(OfferChange::Made(slot, _, until)) => (*slot, Some(*until)),
            Change4::Offers(OfferChange::Withdrawn(slot)) => (*slot, None),
            Change4::Keeps(kept) => (kept.slot, until4(&kept.content)),
        };
        put(table, circuit, slot, until);
    }

    fn reply(&self, part: &CircuitPart, out: &mut PacketBuf) -> Result<(), Discard> {
        let reply = self.decision.answer?;
        write4(part, &self.message, reply, out);
        Ok(())
    }
}

impl<'a> Decide for CircuitDecision6<'a> {
    ghost use Rattle.requests.specs.declared.relayed_message.RelayedMessage.TheVariants as relayed_message;

    type Read = Relay6<'a>;

    ghost relayed = { λ forward. relayed_message.V6 forward };

    fn decide(
        circuit: &OpenCircuit,
        part: &CircuitPart,
        forward: Relay6<'a>,
    ) -> Result<CircuitDecision6<'a>, Discard> {
        let Some(bytes) = forward.relay_message() else {
            return Err(Discard::Malformed);
        };
        let (message, request) = match request6_in(part, bytes) {
            Ok(asked) => asked,
            Err(why) => return Err(why),
        };
        let decision = circuit.six.decide(&request, circuit.clock);
        Ok(CircuitDecision6 {
            forward,
            message,
            client: request.key,
            decision,
        })
    }
}

impl<'a> Decision for CircuitDecision6<'a> {
    ghost use Rattle.circuit_server.specs.declared.decision.CircuitDecision.TheVariants as either;

    ghost decision = { λ made. either.V6 made };

    fn commit(&self, circuit: &mut OpenCircuit) {
        circuit.six.commit(&self.decision);
    }

    fn kept(&self) -> Option<(usize, Content)> {
        let kept = self.decision.keep?;
        Some((FIRST_SLOT6 + kept.slot, Content::Six(kept.content)))
    }

    fn saves(&self) -> bool {
        self.decision.keep.is_some()
    }

    fn set_deadlines(&self, table: &mut Deadlines, circuit: Circuit) {
        if let Some(kept) = &self.decision.keep {
            let slot = FIRST_SLOT6 + kept.slot;
            put(table, circuit, slot, until6(&kept.content));
        }
    }

    fn reply(&self, part: &CircuitPart, out: &mut PacketBuf) -> Result<(), Discard> {
        match &self.decision.answer {
            Ok(reply) => {
                write6(part, &self.forward, &self.message, &self.client, reply, out);
                Ok(())
            }
            Err(why) => Err(*why),
        }
    }
}

impl<'a> Decision for CircuitDecision<'a> {
    ghost decision = { λ made. made };

    fn commit(&self, circuit: &mut OpenCircuit) {
        match self {
            CircuitDecision::V4(made) => made.commit(circuit),
            CircuitDecision::V6(made) => made.commit(circuit),
        }
    }

    fn kept(&self) -> Option<(usize, Content)> {
        match self {
            CircuitDecision::V4(made) => made.kept(),
            CircuitDecision::V6(made) => made.kept(),
        }
    }

    fn saves(&self) -> bool {
        match self {
            CircuitDecision::V4(made) => made.saves(),
            CircuitDecision::V6(made) => made.saves(),
        }
    }

    fn set_deadlines(&self, table: &mut Deadlines, circuit: Circuit) {
        match self {
            CircuitDecision::V4(made) => made.set_deadlines(table, circuit),
            CircuitDecision::V6(made) => made.set_deadlines(table, circuit),
        }
    }

    fn reply(&self, part: &CircuitPart, out: &mut PacketBuf) -> Result<(), Discard> {
        match self {
            CircuitDecision::V4(made) => made.reply(part, out),
            CircuitDecision::V6(made) => made.reply(part, out),
        }
    }
}

/// Until when a slot with this content is held.
fn until4(content: &Slot4) -> Option<u64>
    ensures { result ≡ option_map until_of (slots4.holder_of content.now) }
{
    match content {
        Slot4::Free => None,
        Slot4::Bound(_, until) | Slot4::Barred(until) => Some(*until),
    }
}

/// Until when a slot with this content is held.
fn until6(content: &Slot6) -> Option<u64>
    ensures { result ≡ option_map until_of (slots6.holder_of content.now) }
{
    match content {
        Slot6::Free => None,
        Slot6::Bound(_, until) | Slot6::Barred(until) => Some(*until),
    }
}

/// Gives a slot of the circuit this deadline, or none.
pub(crate) fn put(table: &mut Deadlines, circuit: Circuit, slot: usize, until: Option<u64>)
    requires room { 32 * circuit + 32 ≤ length table.old.slots }
    requires slot { slot < 32 }
    requires within { IfSome until (λ until. until ≤ last_until) }
    ensures { table.new ≡ with_until (32 * circuit + slot) until table.old }
{
    let number = SLOTS * circuit.index() + slot;
    match until {
        Some(until) => table.set(number, until),
        None => table.clear(number),
    }
}
