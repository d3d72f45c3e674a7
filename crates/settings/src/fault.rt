//! Why a text is not a configuration, and where it is wrong.
ghost use Rattle.std.specs.Prelude.{◌≡◌, Some};
ghost use Rattle.settings.specs.Words.{circuit_kind, missing_words, same_words, off_subnet_words, fault_words};

use crate::differences::{CircuitDifference, ServerDifference};
use crate::limit_fault::LimitFault;
use crate::names::{CircuitKey, CircuitRef, RelayKey, ServerKey, TableName};
use std::error::Error;
use std::fmt;

/// A table or key that is missing or of the wrong type. Relays are counted from 1.
#[derive(PartialEq, Eq, Drop)]
pub enum Location {
    Table(TableName),
    Server(ServerKey),
    Relay(usize, RelayKey),
    Circuit(CircuitRef, CircuitKey),
}

/// Two names, or two addresses, that must differ but are the same. Relays are counted from 1.
#[derive(PartialEq, Eq, Drop)]
pub enum SameName {
    /// The ids of two circuits.
    Ids(CircuitRef, CircuitRef),
    /// The names of two relays.
    Names(usize, usize),
    /// The sources of two relays.
    Sources(usize, usize),
    /// The server's addresses.
    Listens,
    /// A relay's source and the server's `listen4`.
    Listen4(usize),
    /// A relay's source and the server's `listen6`.
    Listen6(usize),
}

impl fmt::Display for Location {
    ghost output = { λ location. Some (missing_words location) };

    fn fmt<W: fmt::Write>(&self, f: &mut fmt::Formatter<W>) -> fmt::Result {
        match self {
            Location::Table(TableName::Server) => f.write_str("server is missing or not a table"),
            Location::Table(table) => write!(f, "{table} is missing or not an array of tables"),
            Location::Server(key) => write!(f, "server: {key} is missing or not a string"),
            Location::Relay(number, key) => {
                write!(f, "relay {number}: {key} is missing or not a string")
            }
            Location::Circuit(circuit, key) => {
                let kind = kind(*key);
                write!(f, "circuit {circuit}: {key} is missing or not {kind}")
            }
        }
    }
}

impl fmt::Display for SameName {
    ghost output = { λ same. Some (same_words same) };

    fn fmt<W: fmt::Write>(&self, f: &mut fmt::Formatter<W>) -> fmt::Result {
        match self {
            SameName::Ids(first, second) => {
                let (one, other) = (first.number, second.number);
                write!(f, "circuits {one} and {other} have the same id, {first}")
            }
            SameName::Names(one, other) => {
                write!(f, "relays {one} and {other} have the same name")
            }
            SameName::Sources(one, other) => {
                write!(f, "relays {one} and {other} have the same source")
            }
            SameName::Listens => f.write_str("server: listen4 and listen6 are the same"),
            SameName::Listen4(relay) => {
                write!(f, "the source of relay {relay} is the server's listen4")
            }
            SameName::Listen6(relay) => {
                write!(f, "the source of relay {relay} is the server's listen6")
            }
        }
    }
}

/// What the value at a key of a circuit has to be: its type, or the name of a relay.
fn kind(key: CircuitKey) -> &'static str
    ensures { result.now ≡ circuit_kind key }
{
    match key {
        CircuitKey::Relay => "the name of a relay",
        CircuitKey::Dns => "an array of strings",
        CircuitKey::Region | CircuitKey::Lease | CircuitKey::Prefix4 => "an integer",
        CircuitKey::Count4 | CircuitKey::Count6 => "an integer",
        CircuitKey::Id | CircuitKey::Gateway4 | CircuitKey::First4 => "a string",
        CircuitKey::Link6 | CircuitKey::First6 => "a string",
    }
}

/// Which part of rule 49 a circuit breaks: that of its gateway, of its DHCPv4 pool (`first4`) or of its
/// DHCPv6 pool (`first6`).
fn off_subnet(key: CircuitKey) -> &'static str
    ensures { result.now ≡ off_subnet_words key }
{
    match key {
        CircuitKey::First4 => {
            "the pool at first4 is not within the subnet of gateway4, or includes the subnet's first or last address"
        }
        CircuitKey::First6 => "the pool at first6 is not within the /64 subnet of link6",
        _ => "gateway4 is the first or last address of its subnet",
    }
}

/// Why a text is not a configuration, or several are not those of one server, in the order of the rules'
/// numbers. Of several rules that a text breaks, the one with the lowest number is reported.
#[derive(PartialEq, Eq, Drop)]
pub enum ConfigFault {
    /// Out of memory, which says nothing about the text.
    Memory,
    /// The text is not TOML.
    Text(toml::de::Error),
    /// A table or key is missing or of the wrong type, or a circuit's `relay` is not the name of a relay.
    Missing(Location),
    /// A value, or a number of entries, is outside its limits.
    Limit(LimitFault),
    IdTwice(SameName),
    RegionTwice(CircuitRef, CircuitRef),
    Overlap4(CircuitRef, CircuitRef),
    Overlap6(CircuitRef, CircuitRef),
    /// `gateway4` or `link6` of the first circuit is in the pool of the second.
    GatewayInPool(CircuitRef, CircuitKey, CircuitRef),
    /// The circuit's gateway, or the pool that begins at this key, doesn't fit its subnet.
    OffSubnet(CircuitRef, CircuitKey),
    /// The server or the relays of two configurations differ.
    ServerDiffers(ServerDifference),
    /// Two configurations have a circuit of one id, but not with the same values.
    CircuitDiffers(CircuitDifference),
}

impl fmt::Display for ConfigFault {
    ghost output = { λ fault. fault_words fault };

    fn fmt<W: fmt::Write>(&self, f: &mut fmt::Formatter<W>) -> fmt::Result {
        match self {
            ConfigFault::Memory => f.write_str("out of memory"),
            ConfigFault::Text(error) => write!(f, "{error}"),
            ConfigFault::Missing(location) => write!(f, "{location}"),
            ConfigFault::Limit(limit) => write!(f, "{limit}"),
            ConfigFault::IdTwice(same) => write!(f, "{same}"),
            ConfigFault::RegionTwice(first, second) => {
                write!(f, "circuits {first} and {second} have the same region")
            }
            ConfigFault::Overlap4(first, second) => {
                write!(f, "circuits {first} and {second} share DHCPv4 addresses")
            }
            ConfigFault::Overlap6(first, second) => {
                write!(f, "circuits {first} and {second} share DHCPv6 addresses")
            }
            ConfigFault::GatewayInPool(circuit, key, owner) => {
                write!(
                    f,
                    "circuit {circuit}: {key} is in the pool of circuit {owner}"
                )
            }
            ConfigFault::OffSubnet(circuit, key) => {
                let why = off_subnet(*key);
                write!(f, "circuit {circuit}: {why}")
            }
            ConfigFault::ServerDiffers(difference) => write!(f, "{difference}"),
            ConfigFault::CircuitDiffers(difference) => write!(f, "{difference}"),
        }
    }
}

// Writes the words, so that no type in it has to derive `Debug`.
impl fmt::Debug for ConfigFault {
    ghost debug_output = { λ fault. fault_words fault };

    fn fmt<W: fmt::Write>(&self, f: &mut fmt::Formatter<W>) -> fmt::Result {
        fmt::Display::fmt(self, f)
    }
}

impl Error for ConfigFault {}

impl ConfigFault {
    ghost use Rattle.settings.specs.Fault.{number_of};

    /// The number of the rule, 40 to 51.
    pub fn number(&self) -> u8
        ensures { result ≡ number_of self.now }
    {
        match self {
            ConfigFault::Memory => 40,
            ConfigFault::Text(_) => 41,
            ConfigFault::Missing(_) => 42,
            ConfigFault::Limit(_) => 43,
            ConfigFault::IdTwice(_) => 44,
            ConfigFault::RegionTwice(_, _) => 45,
            ConfigFault::Overlap4(_, _) => 46,
            ConfigFault::Overlap6(_, _) => 47,
            ConfigFault::GatewayInPool(_, _, _) => 48,
            ConfigFault::OffSubnet(_, _) => 49,
            ConfigFault::ServerDiffers(_) => 50,
            ConfigFault::CircuitDiffers(_) => 51,
        }
    }
}
