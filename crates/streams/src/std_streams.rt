//! Any reader and any writer of the standard library, with a count of its failures.
ghost use Rattle.std.specs.Prelude.{◌≡◌, ◌≤◌, [], length, take, IfOk, OnOk, OnErr};
ghost use Rattle.std.specs.Io.{ReadsAtMost};
ghost use Rattle.std.specs.Io.KnownBytes.{Appends, Keeps, ReadConsumes};
ghost use Rattle.streams.specs.Writing.{AppendsPrefix};

use crate::streams::{ByteReader, ByteWriter, Failed};
use std::io::{ErrorKind, Read, Write};
use types::Count;

/// Reads some bytes, again where the reader was interrupted.
fn read_some<R: Read>(reader: &mut R, buf: &mut [u8]) -> Result<usize, Failed>
    ensures bound { ReadsAtMost result buf.new }
    ensures bytes { ReadConsumes (R.remaining reader.old) (R.remaining reader.new) result buf.new }
{
    'turns: for _ in 0..u64::MAX {
        match reader.read(buf) {
            Ok(n) => return Ok(n),
            Err(error) if error.kind() == ErrorKind::Interrupted => (),
            Err(_) => return Err(Failed),
        }
    }
    Err(Failed)
}

/// A reader of the standard library. It fails where a read fails for another cause than an
/// interruption.
#[derive(Drop)]
pub struct StdReader<R> {
    reader: R,
    failures: Count,
}

impl<R: Read> StdReader<R> {
    pub fn new(reader: R) -> StdReader<R>
        ensures reader { result.reader ≡ reader }
        ensures quiet { result.failures.count ≡ 0 }
    {
        let failures = Count::new();
        StdReader { reader, failures }
    }
}

impl<R: Read> ByteReader for StdReader<R> {
    ghost remaining = { λ s. R.remaining s.reader };

    ghost failures = { λ s. s.failures.count };

    fn read(&mut self, buf: &mut [u8]) -> Result<usize, Failed> {
        let read = read_some(&mut self.reader, buf);
        if read.is_err() {
            self.failures.tick();
        }
        read
    }
}

/// Writes some of the bytes and returns how many: 0 where the writer was interrupted.
fn write_some<W: Write>(writer: &mut W, bytes: &[u8]) -> Result<usize, Failed>
    ensures bound { IfOk result (λ n. n ≤ length bytes.now) }
    ensures ok { IfOk result (λ n. Appends (W.contents writer.old) (W.contents writer.new) (take n bytes.now)) }
    ensures err { OnErr result (Appends (W.contents writer.old) (W.contents writer.new) []) }
{
    match writer.write(bytes) {
        Ok(0) => Err(Failed),
        Ok(n) => Ok(n),
        Err(error) => {
            if error.kind() == ErrorKind::Interrupted {
                return Ok(0);
            }
            Err(Failed)
        }
    }
}

/// Writes all the bytes. A writer that fails has a prefix of them.
fn write_bytes<W: Write>(writer: &mut W, bytes: &[u8]) -> Result<(), Failed>
    ensures ok { OnOk result (Appends (W.contents writer.old) (W.contents writer.new) bytes.now) }
    ensures err { OnErr result (AppendsPrefix (W.contents writer.old) (W.contents writer.new) bytes.now) }
{
    let mut done = 0;
    'turns: for _ in 0..u64::MAX {
        if done >= bytes.len() {
            return Ok(());
        }
        match write_some(writer, &bytes[done..]) {
            Ok(n) => done += n,
            Err(failed) => return Err(failed),
        }
    }
    Err(Failed)
}

/// Flushes the writer, again where it was interrupted.
fn flush_writer<W: Write>(writer: &mut W) -> Result<(), Failed>
    ensures { Keeps (W.contents writer.old) (W.contents writer.new) }
{
    'turns: for _ in 0..u64::MAX {
        match writer.flush() {
            Ok(()) => return Ok(()),
            Err(error) if error.kind() == ErrorKind::Interrupted => (),
            Err(_) => return Err(Failed),
        }
    }
    Err(Failed)
}

/// A writer of the standard library. It fails where a write takes no bytes, or fails for another
/// cause than an interruption.
#[derive(Drop)]
pub struct StdWriter<W> {
    writer: W,
    failures: Count,
}

impl<W: Write> StdWriter<W> {
    pub fn new(writer: W) -> StdWriter<W>
        ensures writer { result.writer ≡ writer }
        ensures quiet { result.failures.count ≡ 0 }
    {
        let failures = Count::new();
        StdWriter { writer, failures }
    }

    /// The writer itself.
    pub fn into_inner(self) -> W
        ensures { result ≡ self.writer }
    {
        self.writer
    }
}

impl<W: Write> ByteWriter for StdWriter<W> {
    ghost contents = { λ s. W.contents s.writer };

    ghost failures = { λ s. s.failures.count };

    fn write_all(&mut self, bytes: &[u8]) -> Result<(), Failed> {
        let written = write_bytes(&mut self.writer, bytes);
        if written.is_err() {
            self.failures.tick();
        }
        written
    }

    fn flush(&mut self) -> Result<(), Failed> {
        let flushed = flush_writer(&mut self.writer);
        if flushed.is_err() {
            self.failures.tick();
        }
        flushed
    }
}
