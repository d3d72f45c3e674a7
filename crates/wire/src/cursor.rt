//! Reading from the left.
ghost use Rattle.std.specs.Prelude.{◌≡◌, ◌≤◌, ◌↔◌, length, take, drop, slice_index, IsOk, IfOk, OnOk, OnErr};
ghost use Rattle.std.specs.Int.{w16, w32, from_be_bytes};

use byteorder::{BigEndian, ByteOrder};
use std::marker::Model;
use thiserror::Error;

/// Fewer bytes are left than were asked for.
#[derive(Clone, Copy, Debug, PartialEq, Eq, Error)]
#[error("too few bytes are left")]
pub struct Short;

/// A place in a source of bytes. What it gives are slices of the source; after a refusal it stands
/// where it stood.
#[derive(Drop)]
pub struct Cursor<'a> {
    left: &'a [u8],
}

impl<'a> Model for Cursor<'a> {
    ghost use Rattle.std.specs.Prelude.{ℕ, List};

    ghost Value = { List ℕ };

    ghost view = { λ c. c.left.now };
}

impl<'a> Cursor<'a> {
    /// At the front of these bytes.
    pub fn new(bytes: &'a [u8]) -> Cursor<'a>
        ensures { result ≡ bytes.now }
    {
        Cursor { left: bytes }
    }

    /// What is left.
    pub fn rest(&self) -> &'a [u8]
        ensures { result.now ≡ self.now }
    {
        self.left
    }

    /// The next `n` bytes.
    pub fn take(&mut self, n: usize) -> Result<&'a [u8], Short>
        ensures enough { IsOk result ↔ (n ≤ length self.old) }
        ensures taken { IfOk result (λ bytes. bytes.now ≡ take n self.old) }
        ensures rest { OnOk result (self.new ≡ drop n self.old) }
        ensures err { OnErr result (self.new ≡ self.old) }
    {
        if n > self.rest().len() {
            return Err(Short);
        }
        let (taken, rest) = self.rest().split_at(n);
        *self = Cursor::new(rest);
        Ok(taken)
    }

    /// The next byte.
    pub fn u8(&mut self) -> Result<u8, Short>
        ensures enough { IsOk result ↔ (1 ≤ length self.old) }
        ensures value { IfOk result (λ n. n ≡ slice_index self.old 0) }
        ensures rest { OnOk result (self.new ≡ drop 1 self.old) }
        ensures err { OnErr result (self.new ≡ self.old) }
    {
        let bytes = self.take(1)?;
        Ok(bytes[0])
    }

    /// The next two bytes as a number, the first the most significant.
    pub fn u16(&mut self) -> Result<u16, Short>
        ensures enough { IsOk result ↔ (2 ≤ length self.old) }
        ensures value { IfOk result (λ n. n ≡ from_be_bytes w16 self.old) }
        ensures rest { OnOk result (self.new ≡ drop 2 self.old) }
        ensures err { OnErr result (self.new ≡ self.old) }
    {
        let bytes = self.take(2)?;
        Ok(BigEndian::read_u16(bytes))
    }

    /// The next four bytes as a number, the first the most significant.
    pub fn u32(&mut self) -> Result<u32, Short>
        ensures enough { IsOk result ↔ (4 ≤ length self.old) }
        ensures value { IfOk result (λ n. n ≡ from_be_bytes w32 self.old) }
        ensures rest { OnOk result (self.new ≡ drop 4 self.old) }
        ensures err { OnErr result (self.new ≡ self.old) }
    {
        let bytes = self.take(4)?;
        Ok(BigEndian::read_u32(bytes))
    }
}
