//! What the engine reads from and writes to.
ghost use Rattle.std.specs.Prelude.{◌≡◌, ℕ, ◌+◌, List, Option, None, OnOk, OnErr};
ghost use Rattle.std.specs.Io.{ReadsAtMost};
ghost use Rattle.std.specs.Io.KnownBytes.{Appends, Keeps, ReadConsumes};
ghost use Rattle.streams.specs.Writing.{AppendsPrefix};

/// A reader or a writer failed.
#[derive(Clone, Copy, PartialEq, Eq)]
pub struct Failed;

/// What the lines are read from. Contracts see how often it failed, so that a failure that a caller
/// reports has a cause.
pub trait ByteReader {
    /// The bytes that are still to come, where they are known.
    ghost remaining: { Self → Option (List ℕ) } = { λ _. None };
    /// How often a read failed.
    ghost failures: { Self → ℕ };

    /// Reads bytes to the front of the buffer and returns how many: 0 only at the end of the input,
    /// or where the buffer is empty. A read that fails takes no bytes.
    fn read(&mut self, buf: &mut [u8]) -> Result<usize, Failed>
        ensures bound { ReadsAtMost result buf.new }
        ensures bytes { ReadConsumes (remaining self.old) (remaining self.new) result buf.new }
        ensures quiet { OnOk result (failures self.new ≡ failures self.old) }
        ensures cause { OnErr result (failures self.new ≡ failures self.old + 1) };
}

/// What the lines are written to. Contracts see how often it failed.
pub trait ByteWriter {
    /// The bytes that were written, where they are known.
    ghost contents: { Self → Option (List ℕ) } = { λ _. None };
    /// How often a write failed.
    ghost failures: { Self → ℕ };

    /// Writes all the bytes. A writer that fails has a prefix of them.
    fn write_all(&mut self, bytes: &[u8]) -> Result<(), Failed>
        ensures ok { OnOk result (Appends (contents self.old) (contents self.new) bytes.now) }
        ensures err { OnErr result (AppendsPrefix (contents self.old) (contents self.new) bytes.now) }
        ensures quiet { OnOk result (failures self.new ≡ failures self.old) }
        ensures cause { OnErr result (failures self.new ≡ failures self.old + 1) };

    /// Hands on what the writer still holds. A reader of lines calls this before each read, so that a line
    /// that was typed is answered before the next is awaited.
    fn flush(&mut self) -> Result<(), Failed>
        ensures kept { Keeps (contents self.old) (contents self.new) }
        ensures quiet { OnOk result (failures self.new ≡ failures self.old) }
        ensures cause { OnErr result (failures self.new ≡ failures self.old + 1) };
}
