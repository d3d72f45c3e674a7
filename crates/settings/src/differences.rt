//! What differs between two configurations of one server.
ghost use Rattle.std.specs.Prelude.{◌≡◌, Some};
ghost use Rattle.settings.specs.Differences.{relay_word, server_difference_words, circuit_difference_words};

use crate::names::{CircuitKey, RelayKey, ServerKey, text_of};
use std::fmt;
use types::CircuitId;

/// Which part of the server and its relays differs. Relays are counted from 1.
#[derive(Clone, Copy, PartialEq, Eq)]
pub enum ServerPart {
    /// The value at this key of the server.
    Server(ServerKey),
    /// The value at this key of the relay of this number.
    Relay(usize, RelayKey),
    /// How many relays there are: so many, and this many in the first configuration.
    RelayCount(usize, usize),
}

/// A configuration whose server or relays are not those of the first.
#[derive(Clone, Copy, PartialEq, Eq)]
pub struct ServerDifference {
    /// The number of the configuration: 2 to 8.
    pub number: usize,
    pub part: ServerPart,
}

/// A circuit whose value at a key differs between two configurations.
#[derive(PartialEq, Eq, Drop)]
pub struct CircuitDifference {
    pub id: CircuitId,
    pub key: CircuitKey,
    /// The numbers of the two configurations, counted from 1, the lower one first.
    pub one: usize,
    pub other: usize,
}

/// The word for this many relays.
fn relays(count: usize) -> &'static str
    ensures { result.now ≡ relay_word count }
{
    if count == 1 { "relay" } else { "relays" }
}

impl fmt::Display for ServerDifference {
    ghost output = { λ difference. Some (server_difference_words difference) };

    fn fmt<W: fmt::Write>(&self, f: &mut fmt::Formatter<W>) -> fmt::Result {
        let number = self.number;
        match self.part {
            ServerPart::Server(key) => {
                write!(
                    f,
                    "configuration {number}: server: {key} differs from configuration 1"
                )
            }
            ServerPart::Relay(relay, key) => {
                write!(
                    f,
                    "configuration {number}: relay {relay}: {key} differs from configuration 1"
                )
            }
            ServerPart::RelayCount(count, first) => {
                let word = relays(count);
                write!(
                    f,
                    "configuration {number} has {count} {word}, and configuration 1 has {first}"
                )
            }
        }
    }
}

impl fmt::Display for CircuitDifference {
    ghost output = { λ difference. Some (circuit_difference_words difference) };

    fn fmt<W: fmt::Write>(&self, f: &mut fmt::Formatter<W>) -> fmt::Result {
        let (id, key) = (text_of(&self.id), self.key);
        let (one, other) = (self.one, self.other);
        write!(
            f,
            "circuit \"{id}\": {key} differs between configurations {one} and {other}"
        )
    }
}
