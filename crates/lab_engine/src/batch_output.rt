//! The line of the output for a batch.
ghost use Rattle.std.specs.Prelude.{◌≡◌, ◌+◌, ◌≤◌, ◌++◌, decimal, map, OnOk, OnErr};
ghost use Rattle.std.specs.Io.KnownBytes.{Appends};
ghost use Rattle.streams.specs.Writing.{AppendsPrefix};
ghost use Rattle.lab_engine.specs.Output.{batch_text, with_marks, part_text, with_newline};

use events::PartOutcome;
use itoa::Buffer;
use streams::{ByteWriter, Failed, write_parts};
use world::Outcome;

/// Writes a mark, a word and a number.
fn write_number<W: ByteWriter>(
    writer: &mut W,
    mark: &[u8],
    word: &[u8],
    number: u64,
) -> Result<(), Failed>
    ensures ok { OnOk result (Appends (W.contents writer.old) (W.contents writer.new) (mark.now ++ (word.now ++ decimal number))) }
    ensures err { OnErr result (AppendsPrefix (W.contents writer.old) (W.contents writer.new) (mark.now ++ (word.now ++ decimal number))) }
    ensures quiet { OnOk result (W.failures writer.new ≡ W.failures writer.old) }
    ensures cause { OnErr result (W.failures writer.new ≡ W.failures writer.old + 1) }
{
    let mut buffer = Buffer::new();
    let digits = buffer.format(number).as_bytes();
    write_parts(writer, &[mark, word, digits])
}

/// Writes a mark and what came of a part.
fn write_part<W: ByteWriter>(
    writer: &mut W,
    mark: &[u8],
    outcome: Option<PartOutcome>,
) -> Result<(), Failed>
    ensures ok { OnOk result (Appends (W.contents writer.old) (W.contents writer.new) (mark.now ++ part_text outcome)) }
    ensures err { OnErr result (AppendsPrefix (W.contents writer.old) (W.contents writer.new) (mark.now ++ part_text outcome)) }
    ensures quiet { OnOk result (W.failures writer.new ≡ W.failures writer.old) }
    ensures cause { OnErr result (W.failures writer.new ≡ W.failures writer.old + 1) }
{
    match outcome {
        Some(PartOutcome::Dropped(why)) => {
            write_number(writer, mark, b"drop ", u64::from(why.number()))
        }
        Some(PartOutcome::SentDown(len)) => write_number(writer, mark, b"down ", u64::from(len)),
        Some(PartOutcome::Gone) => write_parts(writer, &[mark, b"gone"]),
        None => write_parts(writer, &[mark, b"gone"]),
    }
}

/// Writes what came of the parts after the first.
fn write_rest<W: ByteWriter>(writer: &mut W, outcomes: &[Option<PartOutcome>]) -> Result<(), Failed>
    ensures ok { OnOk result (Appends (W.contents writer.old) (W.contents writer.new) (with_marks (map part_text outcomes.now))) }
    ensures err { OnErr result (AppendsPrefix (W.contents writer.old) (W.contents writer.new) (with_marks (map part_text outcomes.now))) }
    ensures quiet { OnOk result (W.failures writer.new ≡ W.failures writer.old) }
    ensures cause { OnErr result (W.failures writer.new ≡ W.failures writer.old + 1) }
{
    'parts: for outcome in outcomes {
        if let Err(failed) = write_part(writer, b"; ", *outcome) {
            return Err(failed);
        }
    }
    Ok(())
}

/// Writes the line for what came of a batch of so many parts.
pub(crate) fn write_batch<W: ByteWriter>(
    writer: &mut W,
    outcome: Outcome,
    count: usize,
) -> Result<(), Failed>
    requires some { 1 ≤ count }
    requires most { count ≤ 16 }
    ensures ok { OnOk result (Appends (W.contents writer.old) (W.contents writer.new) (with_newline (batch_text outcome count))) }
    ensures err { OnErr result (AppendsPrefix (W.contents writer.old) (W.contents writer.new) (with_newline (batch_text outcome count))) }
    ensures quiet { OnOk result (W.failures writer.new ≡ W.failures writer.old) }
    ensures cause { OnErr result (W.failures writer.new ≡ W.failures writer.old + 1) }
{
    let Outcome::Batched(outcomes) = outcome else {
        return writer.write_all(b"gone\n");
    };
    if let Err(failed) = write_part(writer, b"", outcomes[0]) {
        return Err(failed);
    }
    if let Err(failed) = write_rest(writer, &outcomes[1..count]) {
        return Err(failed);
    }
    writer.write_all(b"\n")
}
