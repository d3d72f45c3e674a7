//! Several datagrams at the server at one moment, whose saves share their syncs.
ghost use Rattle.std.specs.Prelude.{◌≡◌, ℕ, ◌<◌, ◌≤◌, ◌==◌, ◌++◌, [], if◌then◌else◌, length, map, take, All, Some};
ghost use Rattle.std.specs.Prelude.{IfSome, option_map, slice_get};
ghost use Rattle.std.specs.List.{cons_option, filter_map};
ghost use Rattle.types.specs.Delivery.{delivery};
ghost use Rattle.dispatch.specs.Regions.{HasRegions, KeepsOthers};
ghost use Rattle.dispatch.specs.ServerValue.{AreReady};
ghost use Rattle.events.specs.declared.event.Event as event;
ghost use Rattle.events.specs.declared.event.Event.TheVariants as events;
ghost use Rattle.lease_disk.specs.Model.{device_of, failing_call_of, disk_region};
ghost use Rattle.lossy_net.specs.Net.{datagrams};
ghost use Rattle.lossy_net.specs.declared.dir.Dir.TheVariants as dir;
ghost use Rattle.wire.specs.Bytes.{AreBytes};
ghost use Rattle.dispatch.specs.Answers.{answer_of};
ghost use Rattle.world.specs.Batch.{AreServed, answer_outcome, bytes_of, delivered, downs_after, faults_after};
ghost use Rattle.world.specs.Batch.{outcome_for, waiting_of, with_answer};
ghost use Rattle.world.specs.Headline.{Steps};
ghost use Rattle.world.specs.World.{states};

use super::World;
use arrayvec::ArrayVec;
use dispatch::{Answer, BatchAnswers, Server};
use events::{BatchPart, Outcome, PartOutcome, is_batch, part_fault};
use lease_disk::ModelDisk;
use lossy_net::{Dir, Net};
use relay::Relays;
use types::{Circuit, MAX_BATCH, Moment, Proto, Source};
use wire::PacketBuf;

/// A part of a batch whose datagram waits for the server.
#[derive(Clone, Copy)]
struct Waiting {
    circuit: Circuit,
    /// Which datagram of the circuit it is.
    number: u16,
    proto: Proto,
    source: Source,
    region: u16,
    /// Which call of its save fails.
    fault: u8,
}

impl Default for Waiting {
    fn default() -> Waiting {
        Waiting {
            circuit: Circuit::at(0),
            number: 0,
            proto: Proto::V4,
            source: Source::UNSPECIFIED,
            region: 0,
            fault: 0,
        }
    }
}

/// What waits of a part, if its circuit exists, is served and has the datagram.
fn waiting_of(
    relays: &Relays,
    net: &Net,
    server: &Server,
    sync: u8,
    part: BatchPart,
) -> Option<Waiting>
    requires topology { server.now.topology ≡ relays.now.topology }
    requires count { length net.now.circuits ≡ length relays.now.topology.circuits }
    ensures value { result ≡ waiting_of relays.now.topology net.now sync part }
    ensures bytes { IfSome result (λ w. AreBytes (bytes_of net.now w)) }
{
    let circuit = part.circuit;
    if circuit.index() >= net.circuit_count() || !relays.serves(circuit) {
        return None;
    }
    let Some((proto, datagram)) = net.deliver(circuit, Dir::Up, part.number) else {
        return None;
    };
    wire::laws::are_bytes(datagram);
    let its = server.part(circuit);
    Some(Waiting {
        circuit,
        number: part.number,
        proto,
        source: its.relay(),
        region: its.region(),
        fault: part_fault(sync, part.fault),
    })
}

/// Adds what waits of a part, if anything.
fn add_waiting(waiting: &mut ArrayVec<Waiting, MAX_BATCH>, part: Option<Waiting>)
    requires room { length waiting.old.items < 16 }
    ensures { waiting.new.items ≡ waiting.old.items ++ cons_option part [] }
{
    if let Some(part) = part {
        waiting.push(part);
    }
}

/// What waits of each part, in order.
fn all_waiting(
    relays: &Relays,
    net: &Net,
    server: &Server,
    sync: u8,
    parts: &[BatchPart],
) -> ArrayVec<Waiting, MAX_BATCH>
    requires few { length parts.now ≤ 16 }
    requires topology { server.now.topology ≡ relays.now.topology }
    requires count { length net.now.circuits ≡ length relays.now.topology.circuits }
    ensures value { result.items ≡ filter_map (waiting_of relays.now.topology net.now sync) parts.now }
    ensures few { length result.items ≤ 16 }
    ensures bytes { (j : ℕ) (w : Waiting) → slice_get result.items j ≡ Some w → AreBytes (bytes_of net.now w) }
{
    let mut waiting = ArrayVec::new();
    'parts: for index in 0..parts.len() {
        let part = waiting_of(relays, net, server, sync, parts[index]);
        add_waiting(&mut waiting, part);
    }
    waiting
}

/// Which call of a part's save fails, or none.
fn fault_of(part: Waiting, fails: bool) -> u8
    ensures { result ≡ (if fails then part.fault else 0) }
{
    if fails { part.fault } else { 0 }
}

/// Sets which call of the disk fails for the region of each of these parts, or that none does.
fn set_faults(disk: &mut ModelDisk, waiting: &[Waiting], fails: bool)
    requires regions { All (λ (w : Waiting). w.region < length disk.old.regions) waiting.now }
    ensures states { disk_region disk.new ≡ disk_region disk.old }
    ensures count { length disk.new.regions ≡ length disk.old.regions }
    ensures faults { failing_call_of disk.new ≡ faults_after fails waiting.now (failing_call_of disk.old) }
{
    'parts: for index in 0..waiting.len() {
        let part = waiting[index];
        let (region, fault) = (part.region, fault_of(part, fails));
        disk.fail_at(region, fault);
    }
}

/// The datagrams of these parts, as the server takes them.
fn datagrams_of<'a>(net: &'a Net, waiting: &[Waiting]) -> [(Proto, Source, &'a [u8]); MAX_BATCH]
    requires few { length waiting.now ≤ 16 }
    ensures { (now : ℕ)
        → map (λ d. delivery d.0 d.1 now d.2.now) (take (length waiting.now) result)
        ≡ map (delivered net.now now) waiting.now }
{
    let none: &[u8] = &[];
    let mut datagrams = [(Proto::V4, Source::UNSPECIFIED, none); MAX_BATCH];
    'parts: for index in 0..waiting.len() {
        let part = waiting[index];
        let bytes = match net.deliver(part.circuit, Dir::Up, part.number) {
            Some((_, bytes)) => bytes,
            None => none,
        };
        datagrams[index] = (part.proto, part.source, bytes);
    }
    datagrams
}

/// The server takes the datagrams of these parts, and the answers are kept. The faults of the disk for their regions are
/// those of the parts, and afterwards none.
fn serve_all(
    net: &Net,
    server: &mut Server,
    disk: &mut ModelDisk,
    answers: &mut BatchAnswers,
    now: Moment,
    waiting: &[Waiting],
)
    requires few { length waiting.now ≤ 16 }
    requires regions { HasRegions server.old.topology.circuits (length disk.old.regions) }
    requires ready { AreReady (disk_region disk.old) server.old }
    requires exist { All (λ (w : Waiting). w.region < length disk.old.regions) waiting.now }
    ensures { AreServed now waiting.now net.now server.old server.new disk.old disk.new answers.new.answers }
{
    answers.clear();
    if waiting.is_empty() {
        return;
    }
    set_faults(disk, waiting, true);
    let datagrams = datagrams_of(net, waiting);
    server.receive_batch(&datagrams[..waiting.len()], now, disk, answers);
    set_faults(disk, waiting, false);
}

/// Sends the reply to a part down to its circuit, if there is one.
fn send_answer(net: &mut Net, part: Waiting, answer: Option<&Answer>)
    requires exists { part.circuit < length net.old.circuits }
    ensures ups { (c : ℕ) → datagrams net.new c dir.Up ≡ datagrams net.old c dir.Up }
    ensures downs { (c : ℕ)
        → datagrams net.new c dir.Down
        ≡ (if part.circuit == c then with_answer net.old.quota part.proto
        (option_map (λ a. answer_of a.now) answer.entry) (datagrams net.old c dir.Down) else datagrams net.old c
        dir.Down) }
    ensures circuits { length net.new.circuits ≡ length net.old.circuits }
    ensures quota { net.new.quota ≡ net.old.quota }
{
    let Some(answer) = answer else {
        return;
    };
    if let Ok(reply) = answer.reply() {
        net.send(part.circuit, Dir::Down, part.proto, reply);
    }
}

/// Sends the replies down, each to its circuit.
fn send_all(net: &mut Net, waiting: &[Waiting], answers: &BatchAnswers)
    requires exist { All (λ (w : Waiting). w.circuit < length net.old.circuits) waiting.now }
    ensures ups { (c : ℕ) → datagrams net.new c dir.Up ≡ datagrams net.old c dir.Up }
    ensures downs { (c : ℕ)
        → datagrams net.new c dir.Down
        ≡ downs_after net.old.quota waiting.now answers.now.answers c (datagrams net.old c dir.Down) }
    ensures circuits { length net.new.circuits ≡ length net.old.circuits }
    ensures quota { net.new.quota ≡ net.old.quota }
{
    'parts: for index in 0..waiting.len() {
        send_answer(net, waiting[index], answers.get(index));
    }
}

/// What came of a part, by the answer to it.
fn answer_outcome(answer: Option<&Answer>) -> PartOutcome
    ensures value { result ≡ answer_outcome (option_map (λ a. answer_of a.now) answer.entry) }
{
    let Some(answer) = answer else {
        return PartOutcome::Gone;
    };
    match answer.reply() {
        Ok(reply) => PartOutcome::SentDown(reply.len() as u16),
        Err(why) => PartOutcome::Dropped(why),
    }
}

/// What came of the part of a circuit.
fn outcome_for(circuit: Circuit, waiting: &[Waiting], answers: &BatchAnswers) -> PartOutcome
    ensures value { result ≡ outcome_for circuit waiting.now answers.now.answers }
{
    'parts: for index in 0..waiting.len() {
        if waiting[index].circuit == circuit {
            return answer_outcome(answers.get(index));
        }
    }
    PartOutcome::Gone
}

/// What came of each part.
fn outcomes_of(
    parts: &[BatchPart],
    waiting: &[Waiting],
    answers: &BatchAnswers,
) -> [Option<PartOutcome>; MAX_BATCH]
    requires few { length parts.now ≤ 16 }
    ensures value { (i : ℕ) (part : BatchPart) → slice_get parts.now i ≡ Some part
        → slice_get result i ≡ Some (Some (outcome_for part.circuit waiting.now answers.now.answers)) }
    ensures past { (i : ℕ) → length parts.now ≤ i → i < 16 → slice_get result i ≡ Some None }
{
    let mut outcomes = [None; MAX_BATCH];
    'parts: for index in 0..parts.len() {
        outcomes[index] = Some(outcome_for(parts[index].circuit, waiting, answers));
    }
    outcomes
}

impl World {
    /// A datagram of each of several circuits at the server. It is apart from the other events, since what it has on
    /// the stack is large.
    #[inline(never)]
    pub(super) fn batch(
        &mut self,
        now: Moment,
        sync: u8,
        parts: &[BatchPart],
        out: &mut PacketBuf,
    ) -> Outcome
        ensures steps { (e : event.Event) → e ≡ events.Batch now sync parts.entry
            → Steps e (states self.old) (states self.new) result out.new }
        ensures topology { self.new.relays.topology ≡ self.old.relays.topology }
        ensures others { KeepsOthers self.old.relays.topology.circuits (device_of self.old.disk) (device_of self.new.disk) }
    {
        batch_saves::laws::meets_each_fault();
        crate::laws::reply_comes_to_its_circuit();
        out.clear();
        if !is_batch(parts) {
            return Outcome::NotABatch;
        }
        let waiting = all_waiting(&self.relays, &self.net, &self.server, sync, parts);
        let waiting = waiting.as_slice();
        serve_all(
            &self.net,
            &mut self.server,
            &mut self.disk,
            &mut self.answers,
            now,
            waiting,
        );
        send_all(&mut self.net, waiting, &self.answers);
        Outcome::Batched(outcomes_of(parts, waiting, &self.answers))
    }
}
