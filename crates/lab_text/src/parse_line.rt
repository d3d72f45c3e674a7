//! The parser of a line.
ghost use Rattle.std.specs.Prelude.{◌≡◌, [], option_map, IfSome};
ghost use Rattle.lab_text.specs.FieldsAfter.{fields_after};
ghost use Rattle.lab_text.specs.Line.{form_of, line_of_found, restart_line, short_line};
ghost use Rattle.lab_text.specs.ParsedLine.{line_or_bad, IsRestartOrBad, IsWithin, Means, ParsedWithin};

use crate::batches::{Parts, parse_batch};
use crate::comebacks::{clear_comebacks, clear_names, named_comeback};
use crate::fields::{Fields, first_field, next_field};
use crate::form::form_named;
use crate::forms::parse_form;
use crate::hexadecimal::MAX_BYTES;
use config::Config;
use events::Comeback;
use types::{Circuit, MAX_CIRCUITS, Moment, Proto, RelayNo, Source};

/// What a line says of a circuit's region before all events. The bytes that are loaded are in a buffer of their own.
#[derive(Clone, Copy)]
pub enum Preparation {
    /// The byte that fills the region.
    Fill(Circuit, u8),
    /// The region is formatted in format 1.
    Old(Circuit),
    /// Where bytes stand in the region, and how many.
    Load(Circuit, usize, usize),
    /// The call of the disk that fails where the region is moved at the opening, 0 for none.
    Move(Circuit, u8),
}

/// An event but a restart or a batch. The bytes of a frame are in a buffer of their own.
#[derive(Clone, Copy)]
pub enum ParsedEvent {
    /// The length of the frame in bytes.
    Frame(Circuit, Proto, usize),
    /// The call of the disk that fails, 0 for none.
    Up(Circuit, u16, Moment, u8),
    Down(Circuit, u16),
    Tick(Moment),
    /// The plan that is in force from now on, 0 the first.
    Reload(u8),
    /// The length of the datagram in bytes.
    StrayUp(Proto, Source, usize, Moment),
    /// The length of the datagram in bytes.
    StrayDown(RelayNo, Source, usize),
}

/// What a line of a form says that is neither a restart nor a batch.
#[derive(Clone, Copy)]
pub enum ParsedLine {
    Prepare(Preparation),
    Event(ParsedEvent),
}

/// A line that was parsed.
#[derive(Clone, Copy)]
pub enum Parsed {
    /// An empty line or a comment.
    Ignored,
    /// A line of no known form.
    Bad,
    /// What it says before all events.
    Prepare(Preparation),
    /// Any event but a restart or a batch.
    Event(ParsedEvent),
    /// A restart. How the regions come back is in a buffer of its own.
    Restart,
    /// A batch, and the shared sync that fails, 0 for none. The parts are in a buffer of their own.
    Batch(Moment, u8),
}

/// Parses the fields of a restart, `CID=HH`, `CID=HH:M` or `CID=unreadable`, to how the circuits' regions come
/// back, in order, and returns whether they are good.
fn parse_restart(
    config: &Config,
    rest: Option<&[u8]>,
    comebacks: &mut [Comeback; MAX_CIRCUITS],
) -> bool
    ensures { IsRestartOrBad result comebacks.new (restart_line config.now [] (fields_after (option_map (λ line. line.now) rest.entry))) }
{
    let mut named = [false; MAX_CIRCUITS];
    clear_names(&mut named);
    clear_comebacks(comebacks);
    let mut rest = rest;
    'fields: while let Some((field, after)) = next_field(rest) {
        let Some((circuit, comeback)) = named_comeback(config, field) else {
            return false;
        };
        let index = circuit.index();
        if named[index] {
            return false;
        }
        named[index] = true;
        comebacks[index] = comeback;
        rest = after;
    }
    true
}

/// Parses a line that is no restart and no batch by its first field and what follows it.
fn parse_fields(
    config: &Config,
    plans: usize,
    word: &[u8],
    rest: Option<&[u8]>,
    bytes: &mut [u8; MAX_BYTES],
) -> Option<ParsedLine>
    ensures value { line_or_bad result bytes.new
        ≡ line_of_found config.now plans (form_of word.now) (fields_after (option_map (λ line. line.now) rest.entry)) }
    ensures within { IfSome result (IsWithin config.now plans) }
{
    let form = form_named(word)?;
    let fields = Fields::of(rest);
    parse_form(config, plans, form, fields.as_slice(), bytes)
}

/// Parses a line that is not too long. `plans` is how many plans there are, 1 to 8.
pub fn parse_line(
    config: &Config,
    plans: usize,
    line: &[u8],
    bytes: &mut [u8; MAX_BYTES],
    comebacks: &mut [Comeback; MAX_CIRCUITS],
    parts: &mut Parts,
) -> Parsed
    ensures value { Means result bytes.new comebacks.new parts.new (short_line config.now plans line.now) }
    ensures within { ParsedWithin config.now plans parts.new result }
{
    if line.is_empty() || line[0] == b'#' {
        return Parsed::Ignored;
    }
    let (word, rest) = first_field(line);
    if word == b"restart".as_slice() {
        if !parse_restart(config, rest, comebacks) {
            return Parsed::Bad;
        }
        return Parsed::Restart;
    }
    if word == b"batch".as_slice() {
        return match parse_batch(config, rest, parts) {
            Some((now, sync)) => Parsed::Batch(now, sync),
            None => Parsed::Bad,
        };
    }
    match parse_fields(config, plans, word, rest, bytes) {
        Some(ParsedLine::Prepare(preparation)) => Parsed::Prepare(preparation),
        Some(ParsedLine::Event(event)) => Parsed::Event(event),
        None => Parsed::Bad,
    }
}
