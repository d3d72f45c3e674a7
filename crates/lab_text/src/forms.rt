//! The lines of each form but a restart and a batch, by the fields after the first.
ghost use Rattle.std.specs.Prelude.{◌≡◌, ◌≤◌, ◌∷◌, [], ℕ, List, IfSome};
ghost use Rattle.settings.specs.Settings.{Settings};
ghost use Rattle.lab_text.specs.Fields.{number_to, proto_of};
ghost use Rattle.lab_text.specs.FieldsAfter.{texts};
ghost use Rattle.lab_text.specs.Line.{line_of_form};
ghost use Rattle.lab_text.specs.ParsedLine.{line_or_bad, IsWithin};
ghost use Rattle.lab_text.specs.declared.form.Form.TheVariants as form;

use crate::circuits::{circuit_named, is_relay, is_server, relay_named};
use crate::comebacks::move_fault;
use crate::digits::{datagram_number, fault_number, moment, number};
use crate::form::Form;
use crate::hexadecimal::{MAX_BYTES, byte, bytes_at};
use crate::parse_line::{ParsedEvent, ParsedLine, Preparation};
use crate::sources::source;
use config::Config;
use lease_disk::REGION;
use types::Proto;

/// The greatest number that names a plan.
const MAX_PLAN: u64 = 255;

/// The length of a region.
const MAX_OFFSET: u64 = 32768;

/// The protocol, `4` or `6`.
pub(crate) fn protocol(text: &[u8]) -> Option<Proto>
    ensures { result ≡ proto_of text.now }
{
    if text == b"4".as_slice() {
        return Some(Proto::V4);
    }
    if text == b"6".as_slice() {
        return Some(Proto::V6);
    }
    None
}

/// An offset in a region, or its length.
pub(crate) fn offset(text: &[u8]) -> Option<usize>
    ensures value { result ≡ number_to 32768 text.now }
    ensures most { IfSome result (λ at. at ≤ 32768) }
{
    match number(text, MAX_OFFSET) {
        Some(at) => Some(at as usize),
        None => None,
    }
}

/// The number of a plan.
pub(crate) fn plan_number(text: &[u8]) -> Option<u8>
    ensures { result ≡ number_to 255 text.now }
{
    match number(text, MAX_PLAN) {
        Some(number) => Some(number as u8),
        None => None,
    }
}

/// Parses `fill CID HH`.
fn parse_fill(config: &Config, fields: &[&[u8]]) -> Option<ParsedLine>
    ensures value { (plans : ℕ) (bytes : List ℕ) → line_or_bad result bytes ≡ line_of_form config.now plans form.Fill (texts fields.now) }
    ensures within { (plans : ℕ) → IfSome result (IsWithin config.now plans) }
{
    match fields {
        [circuit, digits] => Some(ParsedLine::Prepare(Preparation::Fill(
            circuit_named(config, circuit)?,
            byte(digits)?,
        ))),
        _ => None,
    }
}

/// Parses `old CID`.
fn parse_old(config: &Config, fields: &[&[u8]]) -> Option<ParsedLine>
    ensures value { (plans : ℕ) (bytes : List ℕ) → line_or_bad result bytes ≡ line_of_form config.now plans form.Old (texts fields.now) }
    ensures within { (plans : ℕ) → IfSome result (IsWithin config.now plans) }
{
    match fields {
        [circuit] => Some(ParsedLine::Prepare(Preparation::Old(circuit_named(config, circuit)?))),
        _ => None,
    }
}

/// Parses `load CID AT HEX`.
fn parse_load(config: &Config, fields: &[&[u8]], bytes: &mut [u8; MAX_BYTES]) -> Option<ParsedLine>
    ensures value { (plans : ℕ) → line_or_bad result bytes.new ≡ line_of_form config.now plans form.Load (texts fields.now) }
    ensures within { (plans : ℕ) → IfSome result (IsWithin config.now plans) }
{
    match fields {
        [circuit, at, digits] => {
            let circuit = circuit_named(config, circuit)?;
            let at = offset(at)?;
            let len = bytes_at(digits, bytes)?;
            if at + len > REGION {
                return None;
            }
            Some(ParsedLine::Prepare(Preparation::Load(circuit, at, len)))
        }
        _ => None,
    }
}

/// Parses `move CID M`.
fn parse_move(config: &Config, fields: &[&[u8]]) -> Option<ParsedLine>
    ensures value { (plans : ℕ) (bytes : List ℕ) → line_or_bad result bytes ≡ line_of_form config.now plans form.Move (texts fields.now) }
    ensures within { (plans : ℕ) → IfSome result (IsWithin config.now plans) }
{
    match fields {
        [circuit, call] => Some(ParsedLine::Prepare(Preparation::Move(
            circuit_named(config, circuit)?,
            move_fault(call)?,
        ))),
        _ => None,
    }
}

/// Parses `frame CID PROTO HEX`.
fn parse_frame(config: &Config, fields: &[&[u8]], bytes: &mut [u8; MAX_BYTES]) -> Option<ParsedLine>
    ensures value { (plans : ℕ) → line_or_bad result bytes.new ≡ line_of_form config.now plans form.Frame (texts fields.now) }
    ensures within { (plans : ℕ) → IfSome result (IsWithin config.now plans) }
{
    match fields {
        [circuit, proto, digits] => Some(ParsedLine::Event(ParsedEvent::Frame(
            circuit_named(config, circuit)?,
            protocol(proto)?,
            bytes_at(digits, bytes)?,
        ))),
        _ => None,
    }
}

/// Parses `up CID J NOW FAULT`.
fn parse_up(config: &Config, fields: &[&[u8]]) -> Option<ParsedLine>
    ensures value { (plans : ℕ) (bytes : List ℕ) → line_or_bad result bytes ≡ line_of_form config.now plans form.Up (texts fields.now) }
    ensures within { (plans : ℕ) → IfSome result (IsWithin config.now plans) }
{
    match fields {
        [circuit, j, now, fault] => Some(ParsedLine::Event(ParsedEvent::Up(
            circuit_named(config, circuit)?,
            datagram_number(j)?,
            moment(now)?,
            fault_number(fault)?,
        ))),
        _ => None,
    }
}

/// Parses `down CID J`.
fn parse_down(config: &Config, fields: &[&[u8]]) -> Option<ParsedLine>
    ensures value { (plans : ℕ) (bytes : List ℕ) → line_or_bad result bytes ≡ line_of_form config.now plans form.Down (texts fields.now) }
    ensures within { (plans : ℕ) → IfSome result (IsWithin config.now plans) }
{
    match fields {
        [circuit, j] => Some(ParsedLine::Event(ParsedEvent::Down(
            circuit_named(config, circuit)?,
            datagram_number(j)?,
        ))),
        _ => None,
    }
}

/// Parses `tick NOW`.
fn parse_tick(fields: &[&[u8]]) -> Option<ParsedLine>
    ensures value { (settings : Settings) (plans : ℕ) (bytes : List ℕ)
        → line_or_bad result bytes ≡ line_of_form settings plans form.Tick (texts fields.now) }
    ensures within { (settings : Settings) (plans : ℕ) → IfSome result (IsWithin settings plans) }
{
    match fields {
        [now] => Some(ParsedLine::Event(ParsedEvent::Tick(moment(now)?))),
        _ => None,
    }
}

/// Parses `reload K`.
fn parse_reload(plans: usize, fields: &[&[u8]]) -> Option<ParsedLine>
    ensures value { (settings : Settings) (bytes : List ℕ)
        → line_or_bad result bytes ≡ line_of_form settings plans form.Reload (texts fields.now) }
    ensures within { (settings : Settings) → IfSome result (IsWithin settings plans) }
{
    match fields {
        [plan] => {
            let plan = plan_number(plan)?;
            if usize::from(plan) >= plans {
                return None;
            }
            Some(ParsedLine::Event(ParsedEvent::Reload(plan)))
        }
        _ => None,
    }
}

/// Parses the fields of `strayup PROTO SRC HEX NOW`.
fn stray_up(
    config: &Config,
    proto: &[u8],
    from: &[u8],
    digits: &[u8],
    now: &[u8],
    bytes: &mut [u8; MAX_BYTES],
) -> Option<ParsedLine>
    ensures value { (plans : ℕ)
        → line_or_bad result bytes.new
        ≡ line_of_form config.now plans form.StrayUp (proto.now ∷ from.now ∷ digits.now ∷ now.now ∷ []) }
    ensures within { (plans : ℕ) → IfSome result (IsWithin config.now plans) }
{
    let proto = protocol(proto)?;
    let source = source(from)?;
    let len = bytes_at(digits, bytes)?;
    let now = moment(now)?;
    if is_relay(config, source) {
        return None;
    }
    Some(ParsedLine::Event(ParsedEvent::StrayUp(proto, source, len, now)))
}

/// Parses `strayup PROTO SRC HEX NOW`.
fn parse_stray_up(
    config: &Config,
    fields: &[&[u8]],
    bytes: &mut [u8; MAX_BYTES],
) -> Option<ParsedLine>
    ensures value { (plans : ℕ) → line_or_bad result bytes.new ≡ line_of_form config.now plans form.StrayUp (texts fields.now) }
    ensures within { (plans : ℕ) → IfSome result (IsWithin config.now plans) }
{
    match fields {
        [proto, from, digits, now] => stray_up(config, proto, from, digits, now, bytes),
        _ => None,
    }
}

/// Parses the fields of `straydown RELAY SRC HEX`.
fn stray_down(
    config: &Config,
    relay: &[u8],
    from: &[u8],
    digits: &[u8],
    bytes: &mut [u8; MAX_BYTES],
) -> Option<ParsedLine>
    ensures value { (plans : ℕ)
        → line_or_bad result bytes.new
        ≡ line_of_form config.now plans form.StrayDown (relay.now ∷ from.now ∷ digits.now ∷ []) }
    ensures within { (plans : ℕ) → IfSome result (IsWithin config.now plans) }
{
    let relay = relay_named(config, relay)?;
    let source = source(from)?;
    let len = bytes_at(digits, bytes)?;
    if is_server(config, source) {
        return None;
    }
    Some(ParsedLine::Event(ParsedEvent::StrayDown(relay, source, len)))
}

/// Parses `straydown RELAY SRC HEX`.
fn parse_stray_down(
    config: &Config,
    fields: &[&[u8]],
    bytes: &mut [u8; MAX_BYTES],
) -> Option<ParsedLine>
    ensures value { (plans : ℕ) → line_or_bad result bytes.new ≡ line_of_form config.now plans form.StrayDown (texts fields.now) }
    ensures within { (plans : ℕ) → IfSome result (IsWithin config.now plans) }
{
    match fields {
        [relay, from, digits] => stray_down(config, relay, from, digits, bytes),
        _ => None,
    }
}

/// Parses a line of this form by its other fields.
pub(crate) fn parse_form(
    config: &Config,
    plans: usize,
    form: Form,
    fields: &[&[u8]],
    bytes: &mut [u8; MAX_BYTES],
) -> Option<ParsedLine>
    ensures value { line_or_bad result bytes.new ≡ line_of_form config.now plans form (texts fields.now) }
    ensures within { IfSome result (IsWithin config.now plans) }
{
    match form {
        Form::Fill => parse_fill(config, fields),
        Form::Old => parse_old(config, fields),
        Form::Load => parse_load(config, fields, bytes),
        Form::Move => parse_move(config, fields),
        Form::Frame => parse_frame(config, fields, bytes),
        Form::Up => parse_up(config, fields),
        Form::Down => parse_down(config, fields),
        Form::Tick => parse_tick(fields),
        Form::Reload => parse_reload(plans, fields),
        Form::StrayUp => parse_stray_up(config, fields, bytes),
        Form::StrayDown => parse_stray_down(config, fields, bytes),
    }
}
