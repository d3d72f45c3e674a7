//! Lines of input.
ghost use Rattle.std.specs.Prelude.{◌≡◌, ◌+◌, ◌⊎◌, ◌<◌, ◌≤◌, length, true, IfOk, IfSome, IfNone, OnOk, OnErr};
ghost use Rattle.std.specs.Io.KnownBytes.{Keeps, prepend_known};
ghost use Rattle.streams.specs.LineEnd.{IsCounted, IsLineRead, IsFirstEnd};
ghost use Rattle.streams.specs.Lines.{lacks};
ghost use Rattle.streams.specs.ReadAhead.{held};

use crate::read_ahead::ReadAhead;
use crate::streams::{ByteReader, ByteWriter, Failed};
use memchr::memchr;

/// The most bytes that a line may have, not counting its line feed.
pub const MAX_LINE: usize = 8192;

/// Where so many bytes were read, the run ends as if the reader had failed.
pub const MAX_TEXT: u64 = u64::MAX;

/// How the first line of what was read ends, and its length in bytes.
#[derive(Clone, Copy, PartialEq, Eq)]
pub enum LineEnd {
    /// By a line feed.
    Newline(usize),
    /// By the end of the input.
    EndOfInput(usize),
    /// The line is too long. Its end may not have been read.
    TooLong,
}

/// How the first line of the text ends, `None` where the text has no line feed and may be too short.
fn first_end(text: &[u8]) -> Option<LineEnd>
    ensures some { IfSome result (IsFirstEnd text.now) }
    ensures plain { IfNone result (lacks 10 text.now ≡ true) }
    ensures short { IfNone result (length text.now ≤ 8192) }
{
    match memchr(b'\n', text) {
        Some(len) if len <= MAX_LINE => Some(LineEnd::Newline(len)),
        Some(_) => Some(LineEnd::TooLong),
        None if text.len() > MAX_LINE => Some(LineEnd::TooLong),
        None => None,
    }
}

/// Reads until the first line is held or is too long.
pub fn read_line<R: ByteReader>(ahead: &mut ReadAhead, reader: &mut R) -> Result<LineEnd, Failed>
    requires { ahead.old.count < 18446744073709551615 }
    ensures line { IfOk result (IsLineRead (held ahead.new) (R.remaining reader.new)) }
    ensures kept { Keeps (prepend_known (held ahead.old) (R.remaining reader.old))
        (prepend_known (held ahead.new) (R.remaining reader.new)) }
    ensures grown { length (held ahead.old) + ahead.new.count ≡ length (held ahead.new) + ahead.old.count }
    ensures counted { IsCounted (R.remaining reader.old) (R.remaining reader.new) ahead.old.count ahead.new.count }
    ensures below { OnOk result (ahead.new.count < 18446744073709551615) }
    ensures quiet { OnOk result (R.failures reader.new ≡ R.failures reader.old) }
    ensures cause { OnErr result ((R.failures reader.new ≡ R.failures reader.old + 1) ⊎ (ahead.new.count ≡ 18446744073709551615)) }
{
    // each read but the last makes it longer by a byte at least
    'reads: for longer in 0..MAX_LINE + 2 {
        let text = ahead.as_slice();
        if let Some(end) = first_end(text) {
            return Ok(end);
        }
        let len = text.len();
        match ahead.fill(reader) {
            Ok(true) => (),
            Ok(false) => return Ok(LineEnd::EndOfInput(len)),
            Err(failed) => return Err(failed),
        }
    }
    unreachable!()
}

/// Reads until the first line is held or is too long, where all lines before it were answered. What was written is
/// flushed before a read, which may wait for input.
pub fn flush_and_read_line<R: ByteReader, W: ByteWriter>(
    ahead: &mut ReadAhead,
    reader: &mut R,
    writer: &mut W,
) -> Result<LineEnd, Failed>
    requires { ahead.old.count < 18446744073709551615 }
    ensures line { IfOk result (IsLineRead (held ahead.new) (R.remaining reader.new)) }
    ensures kept { Keeps (prepend_known (held ahead.old) (R.remaining reader.old))
        (prepend_known (held ahead.new) (R.remaining reader.new)) }
    ensures written { Keeps (W.contents writer.old) (W.contents writer.new) }
    ensures grown { length (held ahead.old) + ahead.new.count ≡ length (held ahead.new) + ahead.old.count }
    ensures counted { IsCounted (R.remaining reader.old) (R.remaining reader.new) ahead.old.count ahead.new.count }
    ensures below { OnOk result (ahead.new.count < 18446744073709551615) }
    ensures quiet { OnOk result (R.failures reader.new ≡ R.failures reader.old) }
    ensures writer_quiet { OnOk result (W.failures writer.new ≡ W.failures writer.old) }
    ensures cause { OnErr result ((R.failures reader.new ≡ R.failures reader.old + 1)
        ⊎ (ahead.new.count ≡ 18446744073709551615) ⊎ (W.failures writer.new ≡ W.failures writer.old + 1)) }
{
    if first_end(ahead.as_slice()).is_none() {
        writer.flush()?;
    }
    read_line(ahead, reader)
}
