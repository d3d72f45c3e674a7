//! Relays, by their index.
ghost use Rattle.std.specs.Prelude.{◌≡◌, ◌<◌, ◌↔◌, IsSome, IfSome};

use crate::limits::MAX_RELAYS;
use std::marker::Model;

/// A relay, by its index in the configuration: 0 is the first. A configuration with fewer relays has
/// none of this index.
#[derive(Clone, Copy, PartialEq, Eq)]
pub struct RelayNo {
    index: u8,
}

impl Model for RelayNo {
    ghost use Rattle.std.specs.Prelude.{ℕ, ◌<◌};

    ghost Value = { ℕ };

    ghost view = { λ r. r.index };

    ghost invariant = { λ r. r.index < 8 };

    ghost inverse = { λ n. record { index = n } };
}

impl RelayNo {
    /// The relay of this index; `None` from 8 on, which no configuration has.
    pub fn new(index: usize) -> Option<RelayNo>
        ensures within { IsSome result ↔ (index < 8) }
        ensures value { IfSome result (λ relay. relay ≡ index) }
    {
        if index >= MAX_RELAYS {
            return None;
        }
        Some(RelayNo::at(index))
    }

    /// The relay of an index that a configuration may have.
    pub fn at(index: usize) -> RelayNo
        requires { index < 8 }
        ensures { result ≡ index }
    {
        RelayNo { index: index as u8 }
    }

    pub fn index(self) -> usize
        ensures value { result ≡ self }
        ensures within { result < 8 }
    {
        usize::from(self.index)
    }
}
