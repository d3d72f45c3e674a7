//! Writing a line in parts.
ghost use Rattle.std.specs.Prelude.{◌≡◌, ◌+◌, OnOk, OnErr};
ghost use Rattle.std.specs.Io.KnownBytes.{Appends};
ghost use Rattle.streams.specs.Writing.{AppendsPrefix, concatenation};

use crate::streams::{ByteWriter, Failed};

/// Writes the parts in order. A writer that fails has a prefix of them concatenated.
pub fn write_parts<W: ByteWriter>(writer: &mut W, parts: &[&[u8]]) -> Result<(), Failed>
    ensures ok { OnOk result (Appends (W.contents writer.old) (W.contents writer.new) (concatenation parts.now)) }
    ensures err { OnErr result (AppendsPrefix (W.contents writer.old) (W.contents writer.new) (concatenation parts.now)) }
    ensures quiet { OnOk result (W.failures writer.new ≡ W.failures writer.old) }
    ensures cause { OnErr result (W.failures writer.new ≡ W.failures writer.old + 1) }
{
    'parts: for part in parts {
        if let Err(failed) = writer.write_all(part) {
            return Err(failed);
        }
    }
    Ok(())
}
