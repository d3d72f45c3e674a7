//! One line of events, applied to the machine.
ghost use Rattle.std.specs.Prelude.{◌≡◌, ◌+◌, ◌<◌, ◌≤◌, ℕ, true, length, Some, IfSome};
ghost use Rattle.config.specs.Plans.{PlansValue};
ghost use Rattle.types.specs.declared.discard.Discard.{Discard};
ghost use Rattle.world.specs.Alone.{Alone};
ghost use Rattle.world.specs.Start.{setup_in};
ghost use Rattle.events.specs.Seen.{Seen};
ghost use Rattle.events.specs.Stray.{is_stray, stray_outcome};
ghost use Rattle.events.specs.declared.outcome.Outcome.TheVariants as outcome;
ghost use Rattle.lab_engine.specs.Lab.{named_result, line_result};
ghost use Rattle.lab_text.specs.Line.{Line, line_of_text, Batch, Stray};
ghost use Rattle.lab_text.specs.ParsedLine.{line_of_event, IsBatchWithin, IsEventWithin};
ghost use Rattle.lab_engine.specs.Progress.{AllRepresent, KnowsPlans, Names, IsDoneBy, IsRefusal, IsParsedIn};
ghost use Rattle.lab_engine.specs.Progress.{HasResult, HasLastResult, HasStatus};
ghost use Rattle.lab_engine.specs.Run.{IsEnd, IsStatus};

use crate::batch_output::write_batch;
use crate::buffers::Buffers;
use crate::output::{MAX_DIGITS, write_bad_line, write_done, write_outcome};
use crate::status::{BAD_LINE, DONE, FAILED};
use config::Plans;
use events::BatchPart;
use lab_text::parse_line::{Parsed, ParsedEvent};
use streams::ByteWriter;
use types::{Circuit, Moment};
use wire::PacketBuf;
use world::{Event, Machine};

/// Writes that the line is bad, and returns the status.
pub(crate) fn refuse<W: ByteWriter>(number: u64, writer: &mut W) -> u8
    ensures refusal { IsRefusal number (W.contents writer.old) (W.contents writer.new) result }
    ensures status { IsEnd result }
    ensures quiet { ¬ (result ≡ 6) → W.failures writer.new ≡ W.failures writer.old }
    ensures cause { result ≡ 6 → W.failures writer.new ≡ W.failures writer.old + 1 }
{
    match write_bad_line(writer, number) {
        Ok(()) => BAD_LINE,
        Err(_) => FAILED,
    }
}

/// Applies an event of a circuit. Returns a status where the run ends with it.
#[inline(always)]
fn apply_event<M: Machine, W: ByteWriter>(
    machine: &mut M,
    plans: &Plans,
    circuit: Circuit,
    event: &Event<'_>,
    out: &mut PacketBuf,
    row: &mut [u8; MAX_DIGITS],
    writer: &mut W,
) -> Option<u8>
    requires { circuit < length plans.now.union.circuits }
    ensures follows { (quota number : ℕ) (machines : ℕ → Alone) (seen : Seen) → Names circuit seen event.now
        → AllRepresent plans.now quota (M.states machine.old) machines
        → HasResult plans.now quota number (named_result circuit seen machines (setup_in plans.now quota circuit))
        (M.states machine.new) (W.contents writer.old) (W.contents writer.new) result }
    ensures status { HasStatus result (W.failures writer.old) (W.failures writer.new) (M.topology machine.old) (M.topology machine.new) }
{
    let outcome = machine.step(event, out);
    let named = plans.union().at(circuit);
    match write_outcome(writer, named.id.as_bytes(), outcome, out, row) {
        Ok(()) => None,
        Err(_) => Some(FAILED),
    }
}

/// Applies an event of which `ok` is written: a tick, the reload of a plan that there is, or a restart. Returns a
/// status where the run ends with it.
fn apply_done<M: Machine, W: ByteWriter>(
    machine: &mut M,
    event: &Event<'_>,
    out: &mut PacketBuf,
    writer: &mut W,
) -> Option<u8>
    ensures follows { (plans : PlansValue) (quota number : ℕ) (line : Line) (machines : ℕ → Alone)
        → IsDoneBy plans line event.now → AllRepresent plans quota (M.states machine.old) machines
        → HasResult plans quota number (line_result plans quota machines line) (M.states machine.new)
        (W.contents writer.old) (W.contents writer.new) result }
    ensures status { HasStatus result (W.failures writer.old) (W.failures writer.new) (M.topology machine.old) (M.topology machine.new) }
{
    let _ = machine.step(event, out);
    match write_done(writer) {
        Ok(()) => None,
        Err(_) => Some(FAILED),
    }
}

/// Delivers the parts of a batch, whose circuits exist. Returns a status where the run ends with it.
fn apply_batch<M: Machine, W: ByteWriter>(
    machine: &mut M,
    now: Moment,
    sync: u8,
    parts: &[BatchPart],
    out: &mut PacketBuf,
    writer: &mut W,
) -> Option<u8>
    requires some { 1 ≤ length parts.now }
    requires most { length parts.now ≤ 16 }
    ensures follows { (plans : PlansValue) (quota number : ℕ) (machines : ℕ → Alone)
        → IsBatchWithin plans.union parts.now → AllRepresent plans quota (M.states machine.old) machines
        → HasResult plans quota number (line_result plans quota machines (Batch now sync parts.now))
        (M.states machine.new) (W.contents writer.old) (W.contents writer.new) result }
    ensures status { HasStatus result (W.failures writer.old) (W.failures writer.new) (M.topology machine.old) (M.topology machine.new) }
{
    let outcome = machine.step(&Event::Batch(now, sync, parts), out);
    match write_batch(writer, outcome, parts.len()) {
        Ok(()) => None,
        Err(_) => Some(FAILED),
    }
}

/// Applies a stray. Returns a status where the run ends with it.
fn apply_stray<M: Machine, W: ByteWriter>(
    machine: &mut M,
    event: &Event<'_>,
    out: &mut PacketBuf,
    row: &mut [u8; MAX_DIGITS],
    writer: &mut W,
) -> Option<u8>
    requires { is_stray event.now ≡ true }
    ensures follows { (plans : PlansValue) (quota number : ℕ) (why : Discard) (machines : ℕ → Alone)
        → AllRepresent plans quota (M.states machine.old) machines
        → stray_outcome (M.topology machine.old) event.now ≡ Some (outcome.Dropped why)
        → HasResult plans quota number (line_result plans quota machines (Stray why)) (M.states machine.new)
        (W.contents writer.old) (W.contents writer.new) result }
    ensures status { HasStatus result (W.failures writer.old) (W.failures writer.new) (M.topology machine.old) (M.topology machine.new) }
{
    let outcome = machine.step(event, out);
    match write_outcome(writer, &[], outcome, out, row) {
        Ok(()) => None,
        Err(_) => Some(FAILED),
    }
}

/// Applies an event, whose frame is the first bytes of the buffer. Returns a status where the run ends with it.
fn apply<M: Machine, W: ByteWriter>(
    machine: &mut M,
    plans: &Plans,
    parsed: ParsedEvent,
    buffers: &mut Buffers,
    writer: &mut W,
) -> Option<u8>
    requires { IsEventWithin plans.now.union plans.now.count parsed }
    ensures follows { (quota number : ℕ) (machines : ℕ → Alone) → AllRepresent plans.now quota (M.states machine.old) machines
        → KnowsPlans plans.now (M.topology machine.old)
        → HasResult plans.now quota number (line_result plans.now quota machines (line_of_event parsed buffers.old.bytes))
        (M.states machine.new) (W.contents writer.old) (W.contents writer.new) result }
    ensures status { HasStatus result (W.failures writer.old) (W.failures writer.new) (M.topology machine.old) (M.topology machine.new) }
{
    match parsed {
        ParsedEvent::Frame(circuit, proto, len) => {
            let event = Event::Frame(circuit, proto, &buffers.bytes[..len]);
            let (out, row) = (&mut buffers.out, &mut buffers.row);
            apply_event(machine, plans, circuit, &event, out, row, writer)
        }
        ParsedEvent::Up(circuit, j, now, fault) => {
            let event = Event::Up(circuit, j, now, fault);
            let (out, row) = (&mut buffers.out, &mut buffers.row);
            apply_event(machine, plans, circuit, &event, out, row, writer)
        }
        ParsedEvent::Down(circuit, j) => {
            let event = Event::Down(circuit, j);
            let (out, row) = (&mut buffers.out, &mut buffers.row);
            apply_event(machine, plans, circuit, &event, out, row, writer)
        }
        ParsedEvent::Tick(now) => {
            let event = Event::Tick(now);
            apply_done(machine, &event, &mut buffers.out, writer)
        }
        ParsedEvent::Reload(plan) => {
            let event = Event::Reload(plan);
            apply_done(machine, &event, &mut buffers.out, writer)
        }
        ParsedEvent::StrayUp(proto, source, len, now) => {
            let event = Event::StrayUp(proto, source, &buffers.bytes[..len], now);
            let (out, row) = (&mut buffers.out, &mut buffers.row);
            apply_stray(machine, &event, out, row, writer)
        }
        ParsedEvent::StrayDown(relay, source, len) => {
            let event = Event::StrayDown(relay, source, &buffers.bytes[..len]);
            let (out, row) = (&mut buffers.out, &mut buffers.row);
            apply_stray(machine, &event, out, row, writer)
        }
    }
}

/// What the line says, where it was not parsed before.
fn parsed_line(plans: &Plans, line: &[u8], known: Option<Parsed>, buffers: &mut Buffers) -> Parsed
    requires short { length line.now ≤ 8192 }
    requires known { IfSome known (IsParsedIn plans.now buffers.old line.now) }
    ensures { IsParsedIn plans.now buffers.new line.now result }
{
    match known {
        Some(parsed) => parsed,
        None => buffers.parse(plans, line),
    }
}

/// Applies the line with this number, which may have been parsed before. Returns a status where the run
/// ends with it.
pub(crate) fn apply_line<M: Machine, W: ByteWriter>(
    machine: &mut M,
    plans: &Plans,
    number: u64,
    line: &[u8],
    known: Option<Parsed>,
    buffers: &mut Buffers,
    writer: &mut W,
) -> Option<u8>
    requires short { length line.now ≤ 8192 }
    requires known { IfSome known (IsParsedIn plans.now buffers.old line.now) }
    ensures follows { (quota : ℕ) (machines : ℕ → Alone) → AllRepresent plans.now quota (M.states machine.old) machines
        → KnowsPlans plans.now (M.topology machine.old)
        → HasResult plans.now quota number
        (line_result plans.now quota machines (line_of_text plans.now.union plans.now.count line.now))
        (M.states machine.new) (W.contents writer.old) (W.contents writer.new) result }
    ensures status { HasStatus result (W.failures writer.old) (W.failures writer.new) (M.topology machine.old) (M.topology machine.new) }
{
    match parsed_line(plans, line, known, buffers) {
        Parsed::Ignored => None,
        // an event came before what says what a region holds
        Parsed::Bad | Parsed::Prepare(_) => Some(refuse(number, writer)),
        Parsed::Event(parsed) => apply(machine, plans, parsed, buffers, writer),
        Parsed::Restart => {
            let event = Event::Restart(&buffers.comebacks);
            apply_done(machine, &event, &mut buffers.out, writer)
        }
        Parsed::Batch(now, sync) => {
            let parts = buffers.parts.as_slice();
            apply_batch(machine, now, sync, parts, &mut buffers.out, writer)
        }
    }
}

/// Applies the line with this number, which lacks its line feed and may have been parsed before, and returns
/// the status. An empty one is no line.
pub(crate) fn apply_last_line<M: Machine, W: ByteWriter>(
    machine: &mut M,
    plans: &Plans,
    number: u64,
    line: &[u8],
    known: Option<Parsed>,
    buffers: &mut Buffers,
    writer: &mut W,
) -> u8
    requires short { length line.now ≤ 8192 }
    requires known { IfSome known (IsParsedIn plans.now buffers.old line.now) }
    ensures follows { (quota : ℕ) (machines : ℕ → Alone) → AllRepresent plans.now quota (M.states machine.old) machines
        → KnowsPlans plans.now (M.topology machine.old)
        → HasLastResult plans.now quota number line.now
        (line_result plans.now quota machines (line_of_text plans.now.union plans.now.count line.now))
        (M.states machine.new) (W.contents writer.old) (W.contents writer.new) result }
    ensures status { IsStatus result }
    ensures quiet { ¬ (result ≡ 6) → W.failures writer.new ≡ W.failures writer.old }
    ensures cause { result ≡ 6 → W.failures writer.new ≡ W.failures writer.old + 1 }
{
    if line.is_empty() {
        return DONE;
    }
    match apply_line(machine, plans, number, line, known, buffers, writer) {
        Some(status) => status,
        None => DONE,
    }
}
