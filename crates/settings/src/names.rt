//! The names of a configuration's tables and keys, and of its circuits.
ghost use Rattle.std.specs.Prelude.{◌≡◌, ℕ, List, Some};
ghost use Rattle.settings.specs.Names.{table_name, server_key, relay_key, circuit_key};
ghost use Rattle.settings.specs.Words.{circuit_name};

use std::fmt;
use types::CircuitId;

/// What a value of a table is found by.
pub trait Key: Copy {
    ghost spelling: { Self → List ℕ };

    /// The key as it stands in the text.
    fn name(self) -> &'static str
        ensures { result.now ≡ spelling self };
}

/// A table of the text, or an array of tables.
#[derive(Clone, Copy, PartialEq, Eq)]
pub enum TableName {
    Server,
    Relay,
    Circuit,
}

/// A key of the server.
#[derive(Clone, Copy, PartialEq, Eq)]
pub enum ServerKey {
    Listen4,
    Listen6,
    Duid,
}

/// A key of a relay.
#[derive(Clone, Copy, PartialEq, Eq)]
pub enum RelayKey {
    Name,
    Source,
}

/// A key of a circuit.
#[derive(Clone, Copy, PartialEq, Eq)]
pub enum CircuitKey {
    Id,
    Relay,
    Region,
    Lease,
    Gateway4,
    Prefix4,
    First4,
    Count4,
    Dns,
    Link6,
    First6,
    Count6,
}

/// A circuit of the text: its number among the circuits, counted from 1, and its id if that can be read.
#[derive(PartialEq, Eq, Drop)]
pub struct CircuitRef {
    pub number: usize,
    pub id: Option<CircuitId>,
}

impl Key for TableName {
    ghost spelling = { table_name };

    fn name(self) -> &'static str {
        match self {
            TableName::Server => "server",
            TableName::Relay => "relay",
            TableName::Circuit => "circuit",
        }
    }
}

impl fmt::Display for TableName {
    ghost output = { λ table. Some (table_name table) };

    fn fmt<W: fmt::Write>(&self, f: &mut fmt::Formatter<W>) -> fmt::Result {
        f.write_str(self.name())
    }
}

impl Key for ServerKey {
    ghost spelling = { server_key };

    fn name(self) -> &'static str {
        match self {
            ServerKey::Listen4 => "listen4",
            ServerKey::Listen6 => "listen6",
            ServerKey::Duid => "duid",
        }
    }
}

impl fmt::Display for ServerKey {
    ghost output = { λ key. Some (server_key key) };

    fn fmt<W: fmt::Write>(&self, f: &mut fmt::Formatter<W>) -> fmt::Result {
        f.write_str(self.name())
    }
}

impl Key for RelayKey {
    ghost spelling = { relay_key };

    fn name(self) -> &'static str {
        match self {
            RelayKey::Name => "name",
            RelayKey::Source => "source",
        }
    }
}

impl fmt::Display for RelayKey {
    ghost output = { λ key. Some (relay_key key) };

    fn fmt<W: fmt::Write>(&self, f: &mut fmt::Formatter<W>) -> fmt::Result {
        f.write_str(self.name())
    }
}

impl Key for CircuitKey {
    ghost spelling = { circuit_key };

    fn name(self) -> &'static str {
        match self {
            CircuitKey::Id => "id",
            CircuitKey::Relay => "relay",
            CircuitKey::Region => "region",
            CircuitKey::Lease => "lease",
            CircuitKey::Gateway4 => "gateway4",
            CircuitKey::Prefix4 => "prefix4",
            CircuitKey::First4 => "first4",
            CircuitKey::Count4 => "count4",
            CircuitKey::Dns => "dns",
            CircuitKey::Link6 => "link6",
            CircuitKey::First6 => "first6",
            CircuitKey::Count6 => "count6",
        }
    }
}

impl fmt::Display for CircuitKey {
    ghost output = { λ key. Some (circuit_key key) };

    fn fmt<W: fmt::Write>(&self, f: &mut fmt::Formatter<W>) -> fmt::Result {
        f.write_str(self.name())
    }
}

/// The id as text: its bytes are ASCII.
pub fn text_of(id: &CircuitId) -> &str
    ensures { result.now ≡ id.now }
{
    let Ok(text) = std::str::from_utf8(id.as_bytes()) else {
        unreachable!()
    };
    text
}

/// By its id as `"a1"`, or by its number as `2`.
impl fmt::Display for CircuitRef {
    ghost output = { λ circuit. Some (circuit_name circuit) };

    fn fmt<W: fmt::Write>(&self, f: &mut fmt::Formatter<W>) -> fmt::Result {
        match &self.id {
            Some(id) => {
                let text = text_of(id);
                write!(f, "\"{text}\"")
            }
            None => write!(f, "{}", self.number),
        }
    }
}
