//! What tells DHCPv6 clients apart.
ghost use Rattle.std.specs.Prelude.{◌≡◌, ◌≤◌, ◌↔◌, length, IsSome, IfSome};
ghost use Rattle.types.specs.Key6.{same_key6};

use crate::duid::Duid;
use crate::limits::{MAX_DUID, MIN_DUID};
use std::marker::Model;

/// A DHCPv6 client's association: the 3 to 130 bytes of the client's DUID and the IAID (RFC 8415,
/// sections 11 and 21.4). Two are equal where both are.
#[derive(Clone, Copy)]
pub struct Key6 {
    iaid: u32,
    len: u8,
    // zeros past `len`
    bytes: [u8; 130],
}

impl Model for Key6 {
    ghost use Rattle.std.specs.Prelude.{take, length};
    ghost use Rattle.types.specs.Key6.{Key6Value, IsKey6, padded6, fields_again6};

    ghost Value = { Key6Value };

    ghost view = { λ k. record { duid = take k.len k.bytes; iaid = k.iaid } };

    ghost invariant = { λ k. IsKey6 k.len k.bytes };

    ghost inverse = { λ v. record { len = length v.duid; bytes = padded6 v.duid; iaid = v.iaid } };

    ghost inverse_ok = { λ k h. fields_again6 k h };
}

impl Key6 {
    /// The key of this DUID and IAID; `None` where the DUID has fewer than 3 bytes or more than 130.
    pub fn new(duid: &[u8], iaid: u32) -> Option<Key6>
        ensures within { IsSome result ↔ ((MIN_DUID ≤ length duid.now) × (length duid.now ≤ MAX_DUID)) }
        ensures value { IfSome result (λ key. key ≡ record { duid = duid.now; iaid = iaid }) }
    {
        let Ok(whole) = Duid::read(duid) else {
            return None;
        };
        let bytes = whole.as_bytes();
        let mut padded = [0; 130];
        padded[..bytes.len()].copy_from_slice(bytes);
        Some(Key6 {
            iaid,
            len: bytes.len() as u8,
            bytes: padded,
        })
    }

    pub fn duid(&self) -> &[u8]
        ensures value { result.now ≡ self.now.duid }
        ensures least { MIN_DUID ≤ length self.now.duid }
        ensures most { length self.now.duid ≤ MAX_DUID }
    {
        &self.bytes[..usize::from(self.len)]
    }

    pub fn iaid(&self) -> u32
        ensures { result ≡ self.now.iaid }
    {
        self.iaid
    }
}

impl PartialEq for Key6 {
    ghost use Rattle.std.proofs.Common.{rules};
    ghost use Rattle.std.specs.Cmp.Rules.{comparing};
    ghost use Rattle.types.specs.Key6.{same_key6};

    ghost eq = { same_key6 };

    ghost laws = { Prim.search (comparing, rules) };

    fn eq(&self, other: &Key6) -> bool {
        self.iaid == other.iaid && self.duid() == other.duid()
    }
}

impl Eq for Key6 {
    ghost use Rattle.std.proofs.Common.{rules};
    ghost use Rattle.std.specs.Cmp.Rules.{comparing};

    ghost laws = { Prim.search (comparing, rules) };
}
