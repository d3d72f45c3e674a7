//! DUIDs, by which DHCPv6 clients and servers know each other (RFC 8415, section 11).
ghost use Rattle.std.specs.Prelude.{◌≡◌, ◌↔◌, IsOk, IfOk};
ghost use Rattle.types.specs.Duid.{IsDuid};

use crate::limits::{MAX_DUID, MIN_DUID};
use std::marker::Model;
use thiserror::Error;

/// The bytes are fewer or more than a DUID has.
#[derive(Clone, Copy, Debug, PartialEq, Eq, Error)]
#[error("a DUID has 3 to 130 bytes")]
pub struct Length;

/// A DUID in the bytes that it was read from: two bytes of type, then 1 to 128 bytes (RFC 8415, section 11.1). What
/// they stand for is not looked at: two DUIDs are the same exactly where their bytes are.
#[derive(Drop)]
pub struct Duid<'a> {
    bytes: &'a [u8],
}

impl<'a> Model for Duid<'a> {
    ghost use Rattle.std.specs.Prelude.{ℕ, List};
    ghost use Rattle.types.specs.Duid.{IsDuid};

    ghost Value = { List ℕ };

    ghost view = { λ d. d.bytes.now };

    ghost invariant = { λ d. IsDuid d.bytes.now };
}

impl<'a> Duid<'a> {
    /// The DUID of these bytes, all of them.
    pub fn read(bytes: &'a [u8]) -> Result<Duid<'a>, Length>
        ensures length { IsOk result ↔ IsDuid bytes.now }
        ensures value { IfOk result (λ duid. duid ≡ bytes.now) }
    {
        if bytes.len() < MIN_DUID || bytes.len() > MAX_DUID {
            return Err(Length);
        }
        Ok(Duid { bytes })
    }

    /// Its bytes, the two of its type first.
    pub fn as_bytes(&self) -> &'a [u8]
        ensures value { result.now ≡ self.now }
        ensures within { IsDuid self.now }
    {
        self.bytes
    }
}
