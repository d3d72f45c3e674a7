//! The datagrams that the server takes in a turn: received together, and answered one after the other.
ghost use Rattle.std.specs.Prelude.{◌≡◌, ◌≤◌, ◌+◌, ℕ, List, All, length, map, min, take, Some};
ghost use Rattle.access.specs.Batch.{AreReceived, AreReceivedAgain, AreReplied, HasTried};
ghost use Rattle.access.specs.Batch.{is_repeated, fate_at_server, serving};
ghost use Rattle.access.specs.Taken.{AreBoundFor, HasTaken, all_delivered, delivered};
ghost use Rattle.counts.specs.Tally.{tallied};
ghost use Rattle.counts.specs.declared.tally.Tally as total;
ghost use Rattle.dispatch.specs.Answers.{answer_of};
ghost use Rattle.dispatch.specs.Batch.{circuits_of};
ghost use Rattle.dispatch.specs.Regions.{HasRegions};
ghost use Rattle.sockets.specs.Sockets.{IsBound};
ghost use Rattle.types.specs.Delivery.{delivery};
ghost use Rattle.udp.specs.History as entry;

use crate::datagrams::{Datagram, Datagrams};
use crate::polling::{Polling, Waiting};
use crate::sending::send_on;
use counts::{Fate, Tally};
use dispatch::{Answer, BatchAnswers, Server};
use lease_disk::FileDisk;
use sockets::Sockets;
use types::{Circuit, Discard, MAX_BATCH, Moment, Proto, Source};
use udp::{History, Waiter};
use wire::PacketBuf;

/// The datagrams of a turn, and the answers to them. The room for sixteen lies in the value.
#[derive(Drop)]
pub(crate) struct Batch {
    /// How many datagrams a turn takes at most.
    most: usize,
    /// Which of the server's sockets the next turn tries first.
    first: Proto,
    taken: Datagrams,
    answers: BatchAnswers,
}

impl Batch {
    pub(crate) fn new(most: usize) -> Batch
        ensures most { result.most ≡ most }
        ensures first { result.first ≡ Proto.V4 }
    {
        Batch {
            most,
            first: Proto::V4,
            taken: Datagrams::new(),
            answers: BatchAnswers::new(),
        }
    }

    /// How many datagrams are taken at most.
    pub(crate) fn most(&self) -> usize
        ensures { result ≡ self.now.most }
    {
        self.most
    }

    /// How many datagrams were taken.
    pub(crate) fn len(&self) -> usize
        ensures { result ≡ length self.now.taken }
    {
        self.taken.as_slice().len()
    }

    /// Takes datagrams from the server's two sockets by turns, until there are as many as a turn takes or none waits.
    pub(crate) fn poll(&mut self, sockets: &Sockets, waiter: &mut Waiter, history: &mut History)
        requires most { self.old.most ≤ 16 }
        requires bound { AreBoundFor sockets.now history.old.id }
        ensures same { history.new.id ≡ history.old.id }
        ensures most { self.new.most ≡ self.old.most }
        ensures few { length self.new.taken ≤ self.old.most }
        ensures taken { HasTaken self.old.most self.old.first self.new.first self.new.taken history.old.entries history.new.entries }
    {
        self.taken.clear();
        let mut polling = Polling {
            left: self.most,
            first: self.first,
            v4: Waiting::Perhaps,
            v6: Waiting::Perhaps,
        };
        'sockets: while let Some(proto) = polling.next() {
            let socket = sockets.server(proto);
            let attempt = self.taken.receive(socket, proto, waiter, history);
            polling.tried(proto, attempt);
        }
        self.first = polling.first;
    }

    /// The server receives all of them at once.
    pub(crate) fn receive(&mut self, now: Moment, server: &mut Server, disk: &mut FileDisk)
        requires few { length self.old.taken ≤ 16 }
        requires regions { HasRegions server.old.topology.circuits disk.old.regions }
        ensures rest { self.new ≡ record self.old { answers = self.new.answers } }
        ensures count { length self.new.answers.answers ≡ length self.old.taken }
        ensures circuits { self.new.answers.circuits ≡ circuits_of server.old.topology (all_delivered now self.old.taken) }
        ensures received { (tally : total.Tally) (history : List entry.Entry)
            → AreReceived (all_delivered now self.old.taken) self.new.answers.answers
            (serving server.old disk.old tally history) (serving server.new disk.new tally history) }
    {
        self.answers.clear();
        let taken = self.taken.as_slice();
        match taken {
            [] => {}
            // for one the list of sixteen is not made: to fill and move it takes longer than to receive it
            [only] => {
                let part = (only.proto, only.source, only.bytes());
                server.receive_batch(&[part], now, disk, &mut self.answers);
            }
            _ => {
                let parts = parts_of(taken);
                server.receive_batch(&parts[..taken.len()], now, disk, &mut self.answers);
            }
        }
    }

    /// Sends the replies, each from the server's socket to where its datagram came from, and counts what became of those. What is
    /// repeated is left for `receive_again`. It ends at the first datagram that has no answer.
    pub(crate) fn reply(&self, sockets: &Sockets, tally: &mut Tally, history: &mut History)
        requires bound { AreBoundFor sockets.now history.old.id }
        ensures same { history.new.id ≡ history.old.id }
        ensures replied { (now : ℕ)
            → HasTried (AreReplied (all_delivered now self.now.taken) self.now.answers.circuits self.now.answers.answers
            (min (length self.now.taken) (length self.now.answers.answers))) tally.old tally.new history.old.entries
            history.new.entries }
    {
        let taken = self.taken.as_slice();
        'parts: for index in 0..taken.len() {
            let Some(answer) = self.answers.get(index) else {
                return;
            };
            let again = is_repeated(answer);
            if !again {
                let datagram = &taken[index];
                let (socket, to) = (sockets.server(datagram.proto), datagram.source);
                let became = match answer.reply() {
                    Ok(reply) => Fate::Answered.if_sent(socket.send(reply.as_slice(), to, history)),
                    Err(why) => Fate::Dropped(why),
                };
                count_at_server(self.answers.circuit(index), became, tally);
            }
        }
    }

    /// The server receives each of those that are repeated, alone, and its reply is sent.
    pub(crate) fn receive_again(
        &self,
        now: Moment,
        sockets: &Sockets,
        server: &mut Server,
        disk: &mut FileDisk,
        tally: &mut Tally,
        history: &mut History,
    )
        requires count { length self.now.answers.answers ≡ length self.now.taken }
        requires circuits { self.now.answers.circuits ≡ circuits_of server.old.topology (all_delivered now self.now.taken) }
        requires regions { HasRegions server.old.topology.circuits disk.old.regions }
        requires bound { AreBoundFor sockets.now history.old.id }
        ensures same { history.new.id ≡ history.old.id }
        ensures again { AreReceivedAgain (all_delivered now self.now.taken) self.now.answers.answers
            (length self.now.taken) (serving server.old disk.old tally.old history.old.entries)
            (serving server.new disk.new tally.new history.new.entries) }
    {
        let taken = self.taken.as_slice();
        'parts: for index in 0..taken.len() {
            let Some(answer) = self.answers.get(index) else {
                unreachable!()
            };
            let again = is_repeated(answer);
            if again {
                let datagram = &taken[index];
                let socket = sockets.server(datagram.proto);
                let mut out = PacketBuf::new();
                let (proto, from, bytes) = (datagram.proto, datagram.source, datagram.bytes());
                let made = server.receive(proto, from, bytes, now, disk, &mut out);
                let reply = out.as_slice();
                let became = send_on(made, socket, from, reply, Fate::Answered, history);
                count_at_server(self.answers.circuit(index), became, tally);
            }
        }
    }
}

/// These datagrams, as the server receives them.
fn parts_of<'a>(taken: &'a [Datagram]) -> [(Proto, Source, &'a [u8]); MAX_BATCH]
    requires few { length taken.now ≤ 16 }
    requires fits { All (λ (one : Datagram). one.len ≤ 1281) taken.now }
    ensures { (now : ℕ) → map (λ d. delivery d.0 d.1 now d.2.now) (take (length taken.now) result) ≡ all_delivered now taken.now }
{
    let none: &[u8] = &[];
    let mut parts = [(Proto::V4, Source::UNSPECIFIED, none); MAX_BATCH];
    'parts: for index in 0..taken.len() {
        let datagram = &taken[index];
        parts[index] = (datagram.proto, datagram.source, datagram.bytes());
    }
    parts
}

/// Whether a datagram is refused because an earlier one of its batch is of the same circuit.
fn is_repeated(answer: &Answer) -> bool
    ensures { result ≡ is_repeated (answer_of answer.now) }
{
    matches!(answer.reply(), Err(Discard::BatchTwice))
}

/// Counts what became of a datagram at the server, and for the circuit that it is of too, if it is of one and was dropped.
fn count_at_server(circuit: Option<Circuit>, became: Fate, tally: &mut Tally)
    ensures { tally.new ≡ tallied (fate_at_server circuit became) tally.old }
{
    let circuit = match became {
        Fate::Dropped(_) => circuit,
        _ => None,
    };
    tally.count(circuit, became);
}
