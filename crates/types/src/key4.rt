//! What tells DHCPv4 clients apart.
ghost use Rattle.std.specs.Prelude.{◌≡◌, ◌≤◌, ◌↔◌, length, take, IsSome, IfSome};
ghost use Rattle.std.specs.Int.{w64, to_le_bytes};
ghost use Rattle.types.specs.Key4.{padded};
ghost use Rattle.std.specs.Str.{bytes_eq};

use std::marker::Model;

/// The fewest bytes of a client identifier (RFC 2132, section 9.14).
pub const MIN_KEY4: usize = 2;

/// The most bytes of a client identifier that is served.
pub const MAX_KEY4: usize = 64;

/// A DHCPv4 client: the 2 to 64 bytes of its client identifier (option 61), or the 7 bytes of its
/// hardware type and address. Two are equal where their bytes are.
#[derive(Clone, Copy)]
pub struct Key4 {
    len: u8,
    // zeros past `len`
    bytes: [u8; 64],
}

impl Model for Key4 {
    ghost use Rattle.std.specs.Prelude.{ℕ, List, take};

    ghost Value = { List ℕ };

    ghost use Rattle.types.specs.Key4.{IsKey4, padded, fields_again};
    ghost use Rattle.std.specs.Prelude.{length};

    ghost view = { λ k. take k.len k.bytes };

    ghost invariant = { λ k. IsKey4 k.len k.bytes };

    ghost inverse = { λ xs. record { len = length xs; bytes = padded xs } };

    ghost inverse_ok = { λ k h. fields_again k h };
}

impl Key4 {
    /// The key of these bytes; `None` where they are fewer than 2 or more than 64.
    pub fn new(bytes: &[u8]) -> Option<Key4>
        ensures within { IsSome result ↔ ((2 ≤ length bytes.now) × (length bytes.now ≤ 64)) }
        ensures value { IfSome result (λ key. key ≡ bytes.now) }
    {
        if bytes.len() < MIN_KEY4 || bytes.len() > MAX_KEY4 {
            return None;
        }
        let mut padded = [0; 64];
        padded[..bytes.len()].copy_from_slice(bytes);
        Some(Key4 {
            len: bytes.len() as u8,
            bytes: padded,
        })
    }

    /// The first eight bytes, zeros after those of a shorter key, as one number: most keys are told apart by it.
    #[inline(always)]
    fn head(&self) -> u64
        ensures { to_le_bytes w64 result ≡ take 8 (padded self.now) }
    {
        let b = &self.bytes;
        u64::from_le_bytes([b[0], b[1], b[2], b[3], b[4], b[5], b[6], b[7]])
    }

    pub fn as_bytes(&self) -> &[u8]
        ensures value { result.now ≡ self.now }
        ensures least { 2 ≤ length self.now }
        ensures most { length self.now ≤ 64 }
    {
        &self.bytes[..usize::from(self.len)]
    }
}

impl PartialEq for Key4 {
    ghost use Rattle.std.specs.Str.{bytes_eq};
    ghost use Rattle.std.proofs.Common.{rules};
    ghost use Rattle.std.specs.Cmp.Rules.{comparing};

    ghost eq = { bytes_eq };

    ghost laws = { Prim.search (comparing, rules) };

    fn eq(&self, other: &Key4) -> bool {
        let (bytes, others) = (self.as_bytes(), other.as_bytes());
        if bytes.len() != others.len() || self.head() != other.head() {
            return false;
        }
        bytes.len() <= 8 || bytes == others
    }
}

impl Eq for Key4 {
    ghost use Rattle.std.proofs.Common.{rules};
    ghost use Rattle.std.specs.Cmp.Rules.{comparing};

    ghost laws = { Prim.search (comparing, rules) };
}
