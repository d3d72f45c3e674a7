//! Bytes that were read and not yet consumed.
ghost use Rattle.std.specs.Prelude.{◌≡◌, ◌+◌, ◌<◌, ◌≤◌, ◌⊎◌, [], true, false, length, take, drop, slice_range, IfOk, OnOk, OnErr};
ghost use Rattle.std.specs.Io.KnownBytes.{Consumes, Keeps, IsAtEnd, prepend_known};
ghost use Rattle.streams.specs.LineEnd.{IsCounted};

use crate::line::{MAX_LINE, MAX_TEXT};
use crate::streams::{ByteReader, Failed};

/// The most bytes that are held at a time: room for the longest line and a read after it.
pub const CAPACITY: usize = 4 * MAX_LINE;

/// The bytes from `start` to `end` were read and not yet consumed.
#[derive(Drop)]
pub struct ReadAhead {
    bytes: [u8; CAPACITY],
    start: usize,
    end: usize,
    /// How many bytes were read in all.
    count: u64,
    ghost ordered: { start ≤ end },
    ghost in_bounds: { end ≤ 32768 },
}

/// Reads some bytes to this part of the array and returns how many, 0 only at the end of the input.
fn read_between<R: ByteReader>(
    reader: &mut R,
    bytes: &mut [u8; CAPACITY],
    from: usize,
    to: usize,
) -> Result<usize, Failed>
    requires some { from < to }
    requires within { to ≤ 32768 }
    ensures bound { IfOk result (λ n. from + n ≤ to) }
    ensures size { IfOk result (λ n. length (slice_range bytes.new from (from + n)) ≡ n) }
    ensures front { take from bytes.new ≡ take from bytes.old }
    ensures ok { IfOk result (λ n. Consumes (R.remaining reader.old) (R.remaining reader.new) (slice_range bytes.new from (from + n))) }
    ensures end { IfOk result (λ n. n ≡ 0 → IsAtEnd (R.remaining reader.new)) }
    ensures err { OnErr result (Keeps (R.remaining reader.old) (R.remaining reader.new)) }
    ensures quiet { OnOk result (R.failures reader.new ≡ R.failures reader.old) }
    ensures cause { OnErr result (R.failures reader.new ≡ R.failures reader.old + 1) }
{
    reader.read(&mut bytes[from..to])
}

impl ReadAhead {
    ghost use Rattle.streams.specs.ReadAhead.{IsReadAheadFilled, held};

    /// Nothing was read yet.
    pub fn new() -> ReadAhead
        ensures held { held result ≡ [] }
        ensures count { result.count ≡ 0 }
    {
        ReadAhead {
            bytes: [0; CAPACITY],
            start: 0,
            end: 0,
            count: 0,
        }
    }

    /// The bytes that were read and not yet consumed.
    pub fn as_slice(&self) -> &[u8]
        ensures { result.now ≡ held self.now }
    {
        let (start, end) = (self.start, self.end);
        let all = &self.bytes[..];
        &all[start..end]
    }

    /// Consumes the first bytes.
    pub fn consume(&mut self, amount: usize)
        requires { amount ≤ length (held self.old) }
        ensures held { held self.new ≡ drop amount (held self.old) }
        ensures count { self.new.count ≡ self.old.count }
    {
        self.start += amount;
    }

    /// Makes room after the bytes that are held.
    fn move_to_front(&mut self)
        ensures held { held self.new ≡ held self.old }
        ensures start { self.new.start ≡ 0 }
        ensures end { self.new.end ≡ length (held self.old) }
        ensures count { self.new.count ≡ self.old.count }
    {
        if self.start == 0 {
            return;
        }
        let len = self.end - self.start;
        self.bytes.copy_within(self.start..self.end, 0);
        self.start = 0;
        self.end = len;
    }

    /// Reads after the bytes that are held, at most so many that `MAX_TEXT` is not exceeded, and returns
    /// whether there were any: false at the end of the input. `Failed` also where `MAX_TEXT` was reached.
    pub fn fill<R: ByteReader>(&mut self, reader: &mut R) -> Result<bool, Failed>
        requires room { length (held self.old) ≤ 8192 }
        requires few { self.old.count < 18446744073709551615 }
        ensures kept { Keeps (prepend_known (held self.old) (R.remaining reader.old))
            (prepend_known (held self.new) (R.remaining reader.new)) }
        ensures grown { length (held self.old) + self.new.count ≡ length (held self.new) + self.old.count }
        ensures filled { IfOk result (IsReadAheadFilled self.old self.new (R.remaining reader.new)) }
        ensures counted { IsCounted (R.remaining reader.old) (R.remaining reader.new) self.old.count self.new.count }
        ensures below { OnOk result (self.new.count < 18446744073709551615) }
        ensures quiet { OnOk result (R.failures reader.new ≡ R.failures reader.old) }
        ensures cause { OnErr result ((R.failures reader.new ≡ R.failures reader.old + 1) ⊎ (self.new.count ≡ 18446744073709551615)) }
    {
        self.move_to_front();
        let most = (MAX_TEXT - self.count).min((CAPACITY - self.end) as u64) as usize;
        let from = self.end;
        let n = match read_between(reader, &mut self.bytes, from, from + most) {
            Ok(n) => n,
            Err(failed) => return Err(failed),
        };
        self.end = from + n;
        self.count += n as u64;
        if self.count == MAX_TEXT {
            return Err(Failed);
        }
        Ok(n > 0)
    }
}
