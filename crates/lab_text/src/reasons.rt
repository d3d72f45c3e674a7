//! Why a line is bad, in words for whoever wrote it. `parse_line` decides whether it is bad; no contract says why.
use crate::batches::{sync_fault, write_fault};
use crate::circuits::{circuit_named, is_relay, is_server, relay_named};
use crate::comebacks::move_fault;
use crate::digits::{datagram_number, fault_number, moment};
use crate::fields::{Fields, first_field, next_field};
use crate::form::{Form, form_named};
use crate::forms::{offset, plan_number, protocol};
use crate::hexadecimal::{MAX_BYTES, byte};
use crate::parting::{parted, parted_last};
use crate::sources::source;
use config::Config;
use lease_disk::REGION;
use std::fmt;
use streams::MAX_LINE;
use types::{MAX_BATCH, MAX_CIRCUITS};

/// How many bytes of a field are shown.
const MAX_SHOWN: usize = 40;

const BATCH: &str = "batch NOW SYNC CID=J=FAULT ..";

const NO_PART: &str = " is not CID=J=FAULT";

const NO_COMEBACK: &str = " is not CID=HH, CID=HH:M or CID=unreadable";

const NOT_A_STRAY: &str = ", so this is not a stray";

/// Why a line is bad, in words. Of several reasons the first from the left, after the number of fields.
#[derive(Clone, Copy)]
pub enum WhyBad<'a> {
    Text(&'static str),
    /// A text of the line between two others.
    Quoted(&'static str, &'a [u8], &'static str),
    /// A field by its name, and what it may be.
    Value(&'static str, &'static str, &'a [u8]),
    /// Whether there are too few or too many, and the fields that its form has.
    Count(&'static str, &'static str),
    /// The last number of a configuration.
    NoPlan(&'a [u8], usize),
}

/// A text in quotation marks. Of a long one its beginning is shown; a byte that is no visible ASCII character as `\xHH`.
#[derive(Clone, Copy)]
struct Quoted<'a>(&'a [u8]);

impl fmt::Display for Quoted<'_> {
    fn fmt<W: fmt::Write>(&self, f: &mut fmt::Formatter<W>) -> fmt::Result {
        f.write_str("\"")?;
        let shown = &self.0[..self.0.len().min(MAX_SHOWN)];
        'bytes: for byte in shown {
            if byte.is_ascii_graphic() && *byte != b'"' && *byte != b'\\' {
                fmt::Display::fmt(&char::from(*byte), f)?;
            } else {
                write!(f, "\\x{byte:02x}")?;
            }
        }
        if self.0.len() > MAX_SHOWN {
            f.write_str("..")?;
        }
        f.write_str("\"")
    }
}

/// Whether a text is a number but for zeros before it.
fn has_leading_zero(text: &[u8]) -> bool {
    text.len() > 1 && text[0] == b'0' && text.iter().all(|byte| byte.is_ascii_digit())
}

/// What is said after a text that is none of a field's values.
fn zero_hint(text: &[u8]) -> &'static str {
    if has_leading_zero(text) {
        ": a number does not begin with a zero"
    } else {
        ""
    }
}

impl fmt::Display for WhyBad<'_> {
    fn fmt<W: fmt::Write>(&self, f: &mut fmt::Formatter<W>) -> fmt::Result {
        match *self {
            WhyBad::Text(text) => f.write_str(text),
            WhyBad::Quoted(before, text, after) => { write!(f, "{before}{}{after}", Quoted(text)) }
            WhyBad::Value(name, values, text) => {
                let (text, hint) = (Quoted(text), zero_hint(text));
                write!(f, "{name} has to be {values}, not {text}{hint}")
            }
            WhyBad::Count(which, form) => write!(f, "too {which} fields: {form}"),
            WhyBad::NoPlan(text, last) => {
                write!(f, "K has to be 0 to {last}, not {}", Quoted(text))
            }
        }
    }
}

/// What stands in a field.
#[derive(Clone, Copy)]
enum Field {
    Circuit,
    Relay,
    Plan,
    Byte,
    Bytes,
    Offset,
    Proto,
    Number,
    Moment,
    /// The call of the disk that fails in a save.
    Fault,
    MoveFault,
    /// The shared sync of a batch that fails.
    SyncFault,
    /// The write of a part of a batch that fails.
    WriteFault,
    /// A source from which no relay sends.
    SourceUp,
    /// A source from which the server does not send.
    SourceDown,
}

/// How a line of this form is spelled, and what its fields after the first are.
fn spelling(form: Form) -> (&'static str, &'static [Field]) {
    match form {
        Form::Fill => ("fill CID HH", &[Field::Circuit, Field::Byte]),
        Form::Old => ("old CID", &[Field::Circuit]),
        Form::Load => (
            "load CID AT HEX",
            &[Field::Circuit, Field::Offset, Field::Bytes],
        ),
        Form::Move => ("move CID M", &[Field::Circuit, Field::MoveFault]),
        Form::Frame => (
            "frame CID PROTO HEX",
            &[Field::Circuit, Field::Proto, Field::Bytes],
        ),
        Form::Up => (
            "up CID J NOW FAULT",
            &[Field::Circuit, Field::Number, Field::Moment, Field::Fault],
        ),
        Form::Down => ("down CID J", &[Field::Circuit, Field::Number]),
        Form::Tick => ("tick NOW", &[Field::Moment]),
        Form::Reload => ("reload K", &[Field::Plan]),
        Form::StrayUp => (
            "strayup PROTO SRC HEX NOW",
            &[Field::Proto, Field::SourceUp, Field::Bytes, Field::Moment],
        ),
        Form::StrayDown => (
            "straydown RELAY SRC HEX",
            &[Field::Relay, Field::SourceDown, Field::Bytes],
        ),
    }
}

fn circuit_fault<'a>(config: &Config, id: &'a [u8]) -> Option<WhyBad<'a>> {
    match circuit_named(config, id) {
        Some(_) => None,
        None => Some(WhyBad::Quoted("there is no circuit ", id, "")),
    }
}

fn relay_fault<'a>(config: &Config, name: &'a [u8]) -> Option<WhyBad<'a>> {
    match relay_named(config, name) {
        Some(_) => None,
        None => Some(WhyBad::Quoted("there is no relay ", name, "")),
    }
}

fn plan_fault<'a>(plans: usize, text: &'a [u8]) -> Option<WhyBad<'a>> {
    match plan_number(text) {
        Some(number) if usize::from(number) < plans => None,
        _ => Some(WhyBad::NoPlan(text, plans.saturating_sub(1))),
    }
}

fn byte_fault<'a>(text: &'a [u8]) -> Option<WhyBad<'a>> {
    match byte(text) {
        Some(_) => None,
        None => Some(WhyBad::Quoted("HH has to be two hexadecimal digits, not ", text, "")),
    }
}

fn bytes_fault<'a>(text: &'a [u8]) -> Option<WhyBad<'a>> {
    if text.is_empty() {
        return Some(WhyBad::Text("HEX is empty; - is for no bytes"));
    }
    if text == b"-".as_slice() {
        return None;
    }
    if text.len() > 2 * MAX_BYTES {
        return Some(WhyBad::Text("HEX has more than 2048 bytes"));
    }
    'digits: for at in 0..text.len() {
        if !text[at].is_ascii_hexdigit() {
            let digit = &text[at..at + 1];
            return Some(WhyBad::Quoted("HEX has ", digit, ", which is not a hexadecimal digit"));
        }
    }
    if text.len() % 2 == 1 {
        return Some(WhyBad::Text("HEX has an odd number of digits"));
    }
    None
}

fn no_source<'a>(text: &'a [u8]) -> Option<WhyBad<'a>> {
    Some(WhyBad::Quoted("SRC has to be an address and port, not ", text, ""))
}

fn source_up_fault<'a>(config: &Config, text: &'a [u8]) -> Option<WhyBad<'a>> {
    match source(text) {
        Some(sender) if is_relay(config, sender) => {
            Some(WhyBad::Quoted("SRC is a relay's, ", text, NOT_A_STRAY))
        }
        Some(_) => None,
        None => no_source(text),
    }
}

fn source_down_fault<'a>(config: &Config, text: &'a [u8]) -> Option<WhyBad<'a>> {
    match source(text) {
        Some(sender) if is_server(config, sender) => {
            Some(WhyBad::Quoted("SRC is the server's, ", text, NOT_A_STRAY))
        }
        Some(_) => None,
        None => no_source(text),
    }
}

/// Of a field that is one of some values.
fn value_fault<'a>(field: Field, text: &'a [u8]) -> Option<WhyBad<'a>> {
    let (is_good, name, values) = match field {
        Field::Offset => (offset(text).is_some(), "AT", "0 to 32768"),
        Field::Proto => (protocol(text).is_some(), "PROTO", "4 or 6"),
        Field::Number => (datagram_number(text).is_some(), "J", "0 to 65535"),
        Field::Moment => (moment(text).is_some(), "NOW", "0 to 1099511627775"),
        Field::Fault => (fault_number(text).is_some(), "FAULT", "0 to 6"),
        Field::MoveFault => (move_fault(text).is_some(), "M", "0 to 4"),
        Field::SyncFault => (sync_fault(text).is_some(), "SYNC", "0, 2, 4 or 6"),
        Field::WriteFault => (write_fault(text).is_some(), "FAULT", "0, 1, 3 or 5"),
        _ => (true, "", ""),
    };
    if is_good {
        return None;
    }
    Some(WhyBad::Value(name, values, text))
}

fn field_fault<'a>(
    config: &Config,
    plans: usize,
    field: Field,
    text: &'a [u8],
) -> Option<WhyBad<'a>> {
    match field {
        Field::Circuit => circuit_fault(config, text),
        Field::Relay => relay_fault(config, text),
        Field::Plan => plan_fault(plans, text),
        Field::Byte => byte_fault(text),
        Field::Bytes => bytes_fault(text),
        Field::SourceUp => source_up_fault(config, text),
        Field::SourceDown => source_down_fault(config, text),
        _ => value_fault(field, text),
    }
}

/// Of a `load` whose fields are good.
fn region_fault<'a>(fields: &[&'a [u8]]) -> Option<WhyBad<'a>> {
    let [_, at, digits] = fields else {
        return None;
    };
    let start = offset(*at)?;
    if digits.len() / 2 > REGION.saturating_sub(start) {
        return Some(WhyBad::Text("HEX goes past the 32768 bytes of a region"));
    }
    None
}

fn form_fault<'a>(
    config: &Config,
    plans: usize,
    form: Form,
    texts: &[&'a [u8]],
) -> Option<WhyBad<'a>> {
    let (spelled, fields) = spelling(form);
    if texts.len() < fields.len() {
        return Some(WhyBad::Count("few", spelled));
    }
    if texts.len() > fields.len() {
        return Some(WhyBad::Count("many", spelled));
    }
    'fields: for index in 0..fields.len() {
        let why = field_fault(config, plans, fields[index], texts[index]);
        if why.is_some() {
            return why;
        }
    }
    match form {
        Form::Load => region_fault(texts),
        _ => None,
    }
}

/// Names the circuit of this id, which is not to be named before.
fn twice_fault<'a>(
    config: &Config,
    id: &'a [u8],
    named: &mut [bool; MAX_CIRCUITS],
) -> Option<WhyBad<'a>> {
    let index = circuit_named(config, id)?.index();
    if index < MAX_CIRCUITS {
        if named[index] {
            return Some(WhyBad::Quoted("circuit ", id, " appears twice"));
        }
        named[index] = true;
    }
    None
}

/// Of how a region comes back.
fn image_fault<'a>(text: &'a [u8]) -> Option<WhyBad<'a>> {
    if text == b"unreadable".as_slice() {
        return None;
    }
    match parted(text, b':') {
        Some((digits, call)) => byte_fault(digits).or(value_fault(Field::MoveFault, call)),
        None => byte_fault(text),
    }
}

fn comeback_fault<'a>(
    config: &Config,
    field: &'a [u8],
    named: &mut [bool; MAX_CIRCUITS],
) -> Option<WhyBad<'a>> {
    match parted_last(field, b'=') {
        Some((id, text)) => circuit_fault(config, id)
            .or(image_fault(text))
            .or(twice_fault(config, id, named)),
        None => Some(WhyBad::Quoted("", field, NO_COMEBACK)),
    }
}

/// The three parts of a field `CID=J=FAULT`.
fn part_texts(field: &[u8]) -> Option<(&[u8], &[u8], &[u8])> {
    let (front, fault) = parted_last(field, b'=')?;
    let (id, number) = parted_last(front, b'=')?;
    Some((id, number, fault))
}

fn part_fault<'a>(
    config: &Config,
    field: &'a [u8],
    named: &mut [bool; MAX_CIRCUITS],
) -> Option<WhyBad<'a>> {
    match part_texts(field) {
        Some((id, number, fault)) => circuit_fault(config, id)
            .or(value_fault(Field::Number, number))
            .or(value_fault(Field::WriteFault, fault))
            .or(twice_fault(config, id, named)),
        None => Some(WhyBad::Quoted("", field, NO_PART)),
    }
}

fn restart_fault<'a>(config: &Config, rest: Option<&'a [u8]>) -> Option<WhyBad<'a>> {
    let mut named = [false; MAX_CIRCUITS];
    let mut rest = rest;
    // a line has no more fields
    'fields: for _ in 0..MAX_LINE + 1 {
        let (field, after) = next_field(rest)?;
        let why = comeback_fault(config, field, &mut named);
        if why.is_some() {
            return why;
        }
        rest = after;
    }
    None
}

fn batch_fault<'a>(config: &Config, rest: Option<&'a [u8]>) -> Option<WhyBad<'a>> {
    if Fields::of(rest).as_slice().len() < 3 {
        return Some(WhyBad::Count("few", BATCH));
    }
    let mut named = [false; MAX_CIRCUITS];
    let mut rest = rest;
    'fields: for count in 0..MAX_BATCH + 2 {
        let (field, after) = next_field(rest)?;
        let why = match count {
            0 => value_fault(Field::Moment, field),
            1 => value_fault(Field::SyncFault, field),
            _ => part_fault(config, field, &mut named),
        };
        if why.is_some() {
            return why;
        }
        rest = after;
    }
    if rest.is_some() {
        return Some(WhyBad::Text("a batch has at most 16 parts"));
    }
    None
}

fn line_fault<'a>(
    config: &Config,
    plans: usize,
    word: &'a [u8],
    rest: Option<&'a [u8]>,
) -> Option<WhyBad<'a>> {
    if word.is_empty() {
        return Some(WhyBad::Text("it begins with a space"));
    }
    if word == b"restart".as_slice() {
        return restart_fault(config, rest);
    }
    if word == b"batch".as_slice() {
        return batch_fault(config, rest);
    }
    match form_named(word) {
        Some(form) => form_fault(config, plans, form, Fields::of(rest).as_slice()),
        None => Some(WhyBad::Quoted("no line begins with ", word, "")),
    }
}

/// Why a line is bad that `parse_line` calls so, or that has more than 8192 bytes. Any other line is taken for one that stands
/// after an event and may not. `plans` is how many plans there are.
pub fn why_bad<'a>(config: &Config, plans: usize, line: &'a [u8]) -> WhyBad<'a> {
    if line.len() > MAX_LINE {
        return WhyBad::Text("it has more than 8192 bytes");
    }
    let (word, rest) = first_field(line);
    match line_fault(config, plans, word, rest) {
        Some(why) => why,
        None => WhyBad::Quoted("", word, " is allowed only before the first event"),
    }
}
