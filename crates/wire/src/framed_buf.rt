//! A datagram with room in front of it.
ghost use Rattle.std.specs.Prelude.{◌≡◌, ◌+◌, ◌≤◌, ◌↔◌, [], ◌++◌, length, IsOk, OnOk, OnErr};

use crate::packet_buf::Full;
use std::marker::Model;
use types::MAX_DATAGRAM;

/// The most bytes that go in front of a datagram: those of an IPv6 address.
const HEADROOM: usize = 16;

/// The bytes of one datagram, at most 1280, and up to 16 bytes in front of them, which are put there where the datagram lies:
/// nothing of it is moved.
#[derive(Drop)]
pub struct FramedBuf {
    // the room in front, and the datagram's
    bytes: [u8; HEADROOM + MAX_DATAGRAM],
    // where the bytes in front begin, which end where the datagram begins
    start: usize,
    len: usize,
}

impl Model for FramedBuf {
    ghost use Rattle.std.specs.Prelude.{◌≤◌, drop, take};
    ghost use Rattle.wire.specs.Framed.{FramedValue};

    ghost Value = { FramedValue };

    ghost view = { λ b. record { front = drop b.start (take 16 b.bytes); datagram = take b.len (drop 16 b.bytes) } };

    ghost invariant = { λ b. (b.start ≤ 16) × (b.len ≤ 1280) };
}

impl FramedBuf {
    /// Without bytes.
    pub fn new() -> FramedBuf
        ensures { result ≡ record { front = []; datagram = [] } }
    {
        FramedBuf {
            bytes: [0; HEADROOM + MAX_DATAGRAM],
            start: HEADROOM,
            len: 0,
        }
    }

    pub fn clear(&mut self)
        ensures { self.new ≡ record { front = []; datagram = [] } }
    {
        self.start = HEADROOM;
        self.len = 0;
    }

    /// Appends all of the bytes to the datagram, or none.
    pub fn extend(&mut self, bytes: &[u8]) -> Result<(), Full>
        ensures full { IsOk result ↔ (length self.old.datagram + length bytes.now ≤ 1280) }
        ensures ok { OnOk result (self.new ≡ record self.old { datagram = self.old.datagram ++ bytes.now }) }
        ensures err { OnErr result (self.new ≡ self.old) }
    {
        if bytes.len() > MAX_DATAGRAM - self.len {
            return Err(Full);
        }
        let len = self.len + bytes.len();
        self.bytes[HEADROOM + self.len..HEADROOM + len].copy_from_slice(bytes);
        self.len = len;
        Ok(())
    }

    /// Puts these bytes in front of the datagram, in the place of what stood there. At most 16 fit.
    pub fn put_front(&mut self, front: &[u8])
        requires { length front.now ≤ 16 }
        ensures { self.new ≡ record self.old { front = front.now } }
    {
        self.start = HEADROOM - front.len();
        self.bytes[self.start..HEADROOM].copy_from_slice(front);
    }

    /// The datagram.
    pub fn datagram(&self) -> &[u8]
        ensures value { result.now ≡ self.now.datagram }
        ensures fits { length self.now.datagram ≤ 1280 }
    {
        &self.bytes[HEADROOM..HEADROOM + self.len]
    }

    /// The datagram with what stands in front of it.
    pub fn as_slice(&self) -> &[u8]
        ensures value { result.now ≡ self.now.front ++ self.now.datagram }
    {
        &self.bytes[self.start..HEADROOM + self.len]
    }
}
