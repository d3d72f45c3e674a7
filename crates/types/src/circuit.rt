//! Circuits, by their index.
ghost use Rattle.std.specs.Prelude.{◌≡◌, ◌<◌, ◌↔◌, IsSome, IfSome};

use crate::limits::MAX_CIRCUITS;
use std::marker::Model;

/// A circuit, by its index in the configuration: 0 is the first. A configuration with fewer circuits
/// has none of this index.
#[derive(Clone, Copy, Debug, PartialEq, Eq)]
pub struct Circuit {
    index: u16,
}

impl Model for Circuit {
    ghost use Rattle.std.specs.Prelude.{ℕ, ◌<◌};

    ghost Value = { ℕ };

    ghost view = { λ c. c.index };

    ghost invariant = { λ c. c.index < 1024 };

    ghost inverse = { λ n. record { index = n } };
}

impl Circuit {
    /// The circuit of this index; `None` from 1024 on, which no configuration has.
    pub fn new(index: usize) -> Option<Circuit>
        ensures within { IsSome result ↔ (index < 1024) }
        ensures value { IfSome result (λ circuit. circuit ≡ index) }
    {
        if index >= MAX_CIRCUITS {
            return None;
        }
        Some(Circuit::at(index))
    }

    /// The circuit of an index that a configuration may have.
    pub fn at(index: usize) -> Circuit
        requires { index < 1024 }
        ensures { result ≡ index }
    {
        Circuit {
            index: index as u16,
        }
    }

    pub fn index(self) -> usize
        ensures value { result ≡ self }
        ensures within { result < 1024 }
    {
        usize::from(self.index)
    }
}
