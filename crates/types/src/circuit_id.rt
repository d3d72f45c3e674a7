//! The name of a circuit, as option 82 and option 18 carry it (RFC 3046, section 3.1).
ghost use Rattle.std.specs.Prelude.{◌≡◌, ◌↔◌, IsSome, IfSome};
ghost use Rattle.types.specs.CircuitId.{IsCircuitId};

use arrayvec::ArrayVec;
use std::marker::Model;

/// The most bytes of a circuit id.
pub const MAX_CIRCUIT_ID: usize = 32;

/// A circuit id: 1 to 32 bytes, each a visible ASCII character (0x21 to 0x7E). Two are equal where
/// their bytes are.
#[derive(PartialEq, Eq, Hash, Drop)]
pub struct CircuitId {
    bytes: ArrayVec<u8, MAX_CIRCUIT_ID>,
}

impl Model for CircuitId {
    ghost use Rattle.std.specs.Prelude.{ℕ, List};

    ghost Value = { List ℕ };

    ghost use Rattle.types.specs.CircuitId.{IsCircuitId};

    ghost view = { λ c. c.bytes.items };

    ghost invariant = { λ c. IsCircuitId c.bytes.items };

    ghost inverse = { λ xs. record { bytes = record { items = xs } } };
}

impl CircuitId {
    /// The id of these bytes; `None` where they are too few, too many, or not visible ASCII.
    pub fn new(bytes: &[u8]) -> Option<CircuitId>
        ensures within { IsSome result ↔ IsCircuitId bytes.now }
        ensures value { IfSome result (λ id. id ≡ bytes.now) }
    {
        let visible = bytes.iter().all(|byte| 0x21 <= *byte && *byte <= 0x7e);
        if bytes.is_empty() || !visible {
            return None;
        }
        let mut id = ArrayVec::new();
        id.try_extend_from_slice(bytes).ok()?;
        Some(CircuitId { bytes: id })
    }

    /// A copy of the id.
    pub fn copy(&self) -> CircuitId
        ensures { result ≡ self.now }
    {
        let mut bytes = ArrayVec::new();
        let copied = bytes.try_extend_from_slice(self.as_bytes());
        prove!(copied.is_ok());
        CircuitId { bytes }
    }

    pub fn as_bytes(&self) -> &[u8]
        ensures value { result.now ≡ self.now }
        ensures within { IsCircuitId self.now }
    {
        self.bytes.as_slice()
    }
}
