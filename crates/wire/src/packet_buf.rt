//! A datagram as it is written.
ghost use Rattle.std.specs.Prelude.{◌≡◌, ◌+◌, ◌≤◌, ◌↔◌, [], ◌∷◌, ◌++◌, length, IsTrue, IsOk, OnOk, OnErr};
ghost use Rattle.std.specs.Borrow.{sem};
ghost use Rattle.wire.specs.Lends.{lends_framed};
ghost use Rattle.wire.specs.Padding.{padded_to};

use crate::framed_buf::FramedBuf;
use std::marker::Model;
use thiserror::Error;
use types::MAX_DATAGRAM;

/// What padding is taken from.
static ZEROS: [u8; MAX_DATAGRAM] = [0; MAX_DATAGRAM];

/// The bytes would be more than a datagram may have.
#[derive(Clone, Copy, Debug, PartialEq, Eq, Error)]
#[error("more than 1280 bytes")]
pub struct Full;

/// The bytes of one datagram, at most 1280. They lie in the value itself, so it is made once and
/// lent from then on. To clear it writes nothing: bytes past its length are of earlier datagrams, and nobody sees them.
#[derive(Drop)]
pub struct PacketBuf {
    buf: FramedBuf,
}

impl Model for PacketBuf {
    ghost use Rattle.std.specs.Prelude.{ℕ, List};

    ghost Value = { List ℕ };

    ghost view = { λ b. b.buf.datagram };
}

impl PacketBuf {
    /// Without bytes.
    pub fn new() -> PacketBuf
        ensures { result ≡ [] }
    {
        PacketBuf {
            buf: FramedBuf::new(),
        }
    }

    pub fn clear(&mut self)
        ensures { self.new ≡ [] }
    {
        self.buf.clear();
    }

    /// Appends a byte.
    pub fn push(&mut self, byte: u8) -> Result<(), Full>
        ensures full { IsOk result ↔ (length self.old + 1 ≤ 1280) }
        ensures ok { OnOk result (self.new ≡ self.old ++ byte ∷ []) }
        ensures err { OnErr result (self.new ≡ self.old) }
    {
        self.extend(&[byte])
    }

    /// Appends all of the bytes, or none.
    pub fn extend(&mut self, bytes: &[u8]) -> Result<(), Full>
        ensures full { IsOk result ↔ (length self.old + length bytes.now ≤ 1280) }
        ensures ok { OnOk result (self.new ≡ self.old ++ bytes.now) }
        ensures err { OnErr result (self.new ≡ self.old) }
    {
        self.buf.extend(bytes)
    }

    /// Appends zeros up to `n` bytes; nothing where there are as many already.
    pub fn pad_to(&mut self, n: usize) -> Result<(), Full>
        ensures full { IsOk result ↔ (n ≤ 1280) }
        ensures ok { OnOk result (self.new ≡ padded_to n self.old) }
        ensures err { OnErr result (self.new ≡ self.old) }
    {
        if n > MAX_DATAGRAM {
            return Err(Full);
        }
        let missing = n.saturating_sub(self.len());
        self.extend(&ZEROS[..missing])
    }

    pub fn len(&self) -> usize
        ensures value { result ≡ length self.now }
        ensures fits { length self.now ≤ 1280 }
    {
        self.buf.datagram().len()
    }

    pub fn is_empty(&self) -> bool
        ensures { IsTrue result ↔ (self.now ≡ []) }
    {
        self.len() == 0
    }

    pub fn as_slice(&self) -> &[u8]
        ensures value { result.now ≡ self.now }
        ensures fits { length self.now ≤ 1280 }
    {
        self.buf.datagram()
    }

    /// Lends the datagram with room in front of it.
    pub fn framed(&mut self) -> &mut FramedBuf
        ensures* writes_back { sem 𝓛 (lends_framed self.entry result) }
        ensures value { result.now.datagram ≡ self.old }
    {
        &mut self.buf
    }
}
