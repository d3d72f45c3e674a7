//! Which value is outside its limits or malformed.
ghost use Rattle.std.specs.Prelude.{◌≡◌, Some};
ghost use Rattle.settings.specs.Words.{server_form, relay_form, circuit_form, outside_words, circuit_limit_words, limit_words};

use crate::names::{CircuitKey, CircuitRef, RelayKey, ServerKey};
use std::fmt;

/// An integer outside its limits.
#[derive(Clone, Copy, PartialEq, Eq)]
pub struct Outside {
    pub found: i64,
    pub least: u32,
    pub most: u32,
}

/// What is wrong with a value of a circuit.
#[derive(Clone, Copy, PartialEq, Eq)]
pub enum CircuitLimit {
    /// A number is outside its limits.
    Number(CircuitKey, Outside),
    /// A string, or an array of strings, is malformed.
    Form(CircuitKey),
    /// The DHCPv4 pool runs past the last IPv4 address.
    PastLast4,
    /// The DHCPv6 pool runs past the last IPv6 address.
    PastLast6,
}

/// A value, or a number of entries, that is outside its limits or malformed. Relays are counted
/// from 1.
#[derive(PartialEq, Eq, Drop)]
pub enum LimitFault {
    /// This many relays, not 1 to 8.
    Relays(usize),
    /// This many circuits, not 1 to 1024.
    Circuits(usize),
    Server(ServerKey),
    Relay(usize, RelayKey),
    Circuit(CircuitRef, CircuitLimit),
}

const ENDPOINT: &str = "an address and port such as 10.0.0.1:67";

const ADDRESS: &str = "an address such as 10.0.0.1";

const DIGITS: &str = "32 hexadecimal digits";

const NUMBER: &str = "an integer";

/// What a value of the server has to be.
fn server_form(key: ServerKey) -> &'static str
    ensures { result.now ≡ server_form key }
{
    match key {
        ServerKey::Listen4 | ServerKey::Listen6 => ENDPOINT,
        ServerKey::Duid => "3 to 130 bytes in hexadecimal",
    }
}

/// What a value of a relay has to be.
fn relay_form(key: RelayKey) -> &'static str
    ensures { result.now ≡ relay_form key }
{
    match key {
        RelayKey::Name => "1 to 32 bytes",
        RelayKey::Source => ENDPOINT,
    }
}

/// What a value of a circuit has to be.
fn circuit_form(key: CircuitKey) -> &'static str
    ensures { result.now ≡ circuit_form key }
{
    match key {
        CircuitKey::Id => "1 to 32 visible ASCII characters",
        CircuitKey::Relay => "the name of a relay",
        CircuitKey::Gateway4 | CircuitKey::First4 => ADDRESS,
        CircuitKey::Dns => "a list of at most 4 addresses",
        CircuitKey::Link6 | CircuitKey::First6 => DIGITS,
        CircuitKey::Region | CircuitKey::Lease | CircuitKey::Prefix4 => NUMBER,
        CircuitKey::Count4 | CircuitKey::Count6 => NUMBER,
    }
}

impl fmt::Display for LimitFault {
    ghost output = { λ limit. Some (limit_words limit) };

    fn fmt<W: fmt::Write>(&self, f: &mut fmt::Formatter<W>) -> fmt::Result {
        match self {
            LimitFault::Relays(count) => {
                write!(f, "the number of relays, {count}, is outside 1 to 8")
            }
            LimitFault::Circuits(count) => {
                write!(f, "the number of circuits, {count}, is outside 1 to 1024")
            }
            LimitFault::Server(key) => {
                let form = server_form(*key);
                write!(f, "server: {key} is not {form}")
            }
            LimitFault::Relay(number, key) => {
                let form = relay_form(*key);
                write!(f, "relay {number}: {key} is not {form}")
            }
            LimitFault::Circuit(circuit, limit) => write!(f, "circuit {circuit}: {limit}"),
        }
    }
}

impl fmt::Display for Outside {
    ghost output = { λ number. Some (outside_words number) };

    fn fmt<W: fmt::Write>(&self, f: &mut fmt::Formatter<W>) -> fmt::Result {
        let (found, least, most) = (self.found, self.least, self.most);
        write!(f, "{found} is outside {least} to {most}")
    }
}

impl fmt::Display for CircuitLimit {
    ghost output = { λ limit. Some (circuit_limit_words limit) };

    fn fmt<W: fmt::Write>(&self, f: &mut fmt::Formatter<W>) -> fmt::Result {
        match self {
            CircuitLimit::Number(key, number) => write!(f, "{key} {number}"),
            CircuitLimit::Form(key) => {
                let form = circuit_form(*key);
                write!(f, "{key} is not {form}")
            }
            CircuitLimit::PastLast4 => f.write_str(
                "the DHCPv4 pool runs past the last IPv4 address",
            ),
            CircuitLimit::PastLast6 => f.write_str(
                "the DHCPv6 pool runs past the last IPv6 address",
            ),
        }
    }
}
