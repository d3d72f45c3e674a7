//! Batches: several datagrams that reach the server at one moment.
ghost use Rattle.std.specs.Prelude.{◌≡◌, ◌<◌, ◌≤◌, ◌↔◌, ◌++◌, ◌∷◌, [], true, false, length, option_map, IfSome, if◌then◌else◌, Some, None};
ghost use Rattle.events.specs.Batch.{is_batch};
ghost use Rattle.lab_text.specs.Fields.{batch_part, parts_of, sync_fault_of, write_fault_of};
ghost use Rattle.lab_text.specs.FieldsAfter.{fields_after};
ghost use Rattle.lab_text.specs.Line.{batch_line};
ghost use Rattle.lab_text.specs.ParsedLine.{AreKnown, IsBatchWithin, batch_or_bad};

use crate::circuits::circuit_named;
use crate::digits::{datagram_number, fault_number, moment};
use crate::fields::next_field;
use crate::parting::parted_last;
use config::Config;
use events::{BatchPart, is_batch};
use std::marker::Model;
use types::{Circuit, MAX_BATCH, Moment};

/// The parts of a batch, at most 16.
#[derive(Drop)]
pub struct Parts {
    parts: [BatchPart; MAX_BATCH],
    count: usize,
}

impl Model for Parts {
    ghost use Rattle.std.specs.Prelude.{List, ◌≤◌, take};
    ghost use Rattle.events.specs.declared.batch.BatchPart.{BatchPart};

    ghost Value = { List BatchPart };

    ghost view = { λ p. take p.count p.parts };

    ghost invariant = { λ p. p.count ≤ 16 };
}

impl Parts {
    /// No parts.
    pub fn new() -> Parts
        ensures { result ≡ [] }
    {
        let part = BatchPart {
            circuit: Circuit::at(0),
            number: 0,
            fault: 0,
        };
        Parts {
            parts: [part; MAX_BATCH],
            count: 0,
        }
    }

    /// Takes all parts out.
    fn clear(&mut self)
        ensures { self.new ≡ [] }
    {
        self.count = 0;
    }

    /// Appends a part, where there is room, and returns whether there was.
    fn push(&mut self, part: BatchPart) -> bool
        ensures room { (result ≡ true) ↔ (length self.old < 16) }
        ensures pushed { result ≡ true → self.new ≡ self.old ++ part ∷ [] }
        ensures full { result ≡ false → self.new ≡ self.old }
    {
        if self.count == MAX_BATCH {
            return false;
        }
        self.parts[self.count] = part;
        self.count += 1;
        true
    }

    pub fn as_slice(&self) -> &[BatchPart]
        ensures value { result.now ≡ self.now }
        ensures most { length result.now ≤ 16 }
    {
        &self.parts[..self.count]
    }
}

/// The number of the shared sync that fails, as calls of a save count, 0 for none.
pub(crate) fn sync_fault(text: &[u8]) -> Option<u8>
    ensures { result ≡ sync_fault_of text.now }
{
    match fault_number(text) {
        Some(fault @ (0 | 2 | 4 | 6)) => Some(fault),
        _ => None,
    }
}

/// The number of the write of a part that fails, as calls of a save count, 0 for none.
pub(crate) fn write_fault(text: &[u8]) -> Option<u8>
    ensures { result ≡ write_fault_of text.now }
{
    match fault_number(text) {
        Some(fault @ (0 | 1 | 3 | 5)) => Some(fault),
        _ => None,
    }
}

/// The part of a batch that a field spells, `CID=J=FAULT`.
fn batch_part(config: &Config, field: &[u8]) -> Option<BatchPart>
    ensures value { result ≡ batch_part config.now field.now }
    ensures within { IfSome result (λ part. part.circuit < length config.now.circuits) }
{
    let (front, fault) = parted_last(field, b'=')?;
    let (id, number) = parted_last(front, b'=')?;
    let circuit = circuit_named(config, id)?;
    let number = datagram_number(number)?;
    let fault = write_fault(fault)?;
    Some(BatchPart {
        circuit,
        number,
        fault,
    })
}

/// Parses the parts of a batch, in order, and returns whether they are good.
fn parse_parts(config: &Config, rest: Option<&[u8]>, parts: &mut Parts) -> bool
    ensures value { (if result then Some parts.new else None)
        ≡ parts_of config.now (fields_after (option_map (λ line. line.now) rest.entry)) }
    ensures known { AreKnown config.now parts.new }
    ensures batch { result ≡ true → is_batch parts.new ≡ true }
{
    parts.clear();
    let mut rest = rest;
    'fields: while let Some((field, after)) = next_field(rest) {
        let Some(part) = batch_part(config, field) else {
            return false;
        };
        if !parts.push(part) {
            return false;
        }
        rest = after;
    }
    is_batch(parts.as_slice())
}

/// Parses the fields of a batch, `NOW SYNC` and its parts. Returns the moment, and the shared sync that fails.
pub(crate) fn parse_batch(
    config: &Config,
    rest: Option<&[u8]>,
    parts: &mut Parts,
) -> Option<(Moment, u8)>
    ensures value { batch_or_bad result parts.new ≡ batch_line config.now (fields_after (option_map (λ line. line.now) rest.entry)) }
    ensures within { IfSome result (λ _. IsBatchWithin config.now parts.new) }
{
    let (now, rest) = next_field(rest)?;
    let (sync, rest) = next_field(rest)?;
    let now = moment(now)?;
    let sync = sync_fault(sync)?;
    if !parse_parts(config, rest, parts) {
        return None;
    }
    Some((now, sync))
}
