//! A run over the lines of a text.
ghost use Rattle.std.specs.Prelude.{◌≡◌, ◌+◌, ◌<◌, ◌≤◌, ℕ, List, Option, Some, length, take, IfSome};
ghost use Rattle.std.specs.Io.KnownBytes.{Appends, prepend_known};
ghost use Rattle.world.specs.Alone.{Alone};
ghost use Rattle.lab_engine.specs.Lab.{Output, events_output};
ghost use Rattle.lab_engine.specs.Progress.{AllRepresent, Ends, KnowsPlans, SoFar};
ghost use Rattle.lab_engine.specs.Next.{IsNextLine};
ghost use Rattle.streams.specs.LineEnd.{Fits, IsCounted};
ghost use Rattle.streams.specs.ReadAhead.{held};
ghost use Rattle.lab_engine.specs.Run.{IsPartial, IsStatus, HasCause, HasNoCause};

use crate::apply_line::{apply_last_line, apply_line, refuse};
use crate::buffers::Buffers;
use crate::next_line::NextLine;
use crate::status::FAILED;
use config::Plans;
use streams::{ByteReader, ByteWriter, LineEnd, MAX_TEXT, ReadAhead, flush_and_read_line};
use world::Machine;

/// Applies the lines in order from this one on, up to the end or to the first bad one.
pub(crate) fn apply_lines<M: Machine, R: ByteReader, W: ByteWriter>(
    machine: &mut M,
    plans: &Plans,
    next: NextLine,
    ahead: &mut ReadAhead,
    buffers: &mut Buffers,
    reader: &mut R,
    writer: &mut W,
) -> u8
    requires next { IsNextLine plans.now buffers.old ahead.old (R.remaining reader.old) next }
    ensures ends { (quota : ℕ) (output : List ℕ → Output) (given holds : Option (List ℕ))
        → SoFar plans.now quota (next.earlier + 1) output given
        (prepend_known (held ahead.old) (R.remaining reader.old)) holds (W.contents writer.old)
        (M.states machine.old) (Fits (held ahead.old) next.end) → KnowsPlans plans.now (M.topology machine.old)
        → Ends output given (R.remaining reader.new) holds (W.contents writer.new) result }
    ensures status { IsStatus result }
    ensures cause { (given : Option (List ℕ)) → IsCounted given (R.remaining reader.old) 0 ahead.old.count → result ≡ 6
        → HasCause given (R.remaining reader.new) (R.failures reader.old) (R.failures reader.new)
        (W.failures writer.old) (W.failures writer.new) }
    ensures quiet { (given : Option (List ℕ)) → IsCounted given (R.remaining reader.old) 0 ahead.old.count
        → ¬ (result ≡ 6)
        → HasNoCause given (R.remaining reader.new) (R.failures reader.old) (R.failures reader.new)
        (W.failures writer.old) (W.failures writer.new) }
{
    let mut end = next.end;
    let mut known = next.parsed;
    // each line before the last has a byte at least, its line feed
    'lines: for earlier in next.earlier..MAX_TEXT {
        let number = earlier + 1;
        buffers.line = number;
        let len = match end {
            LineEnd::Newline(len) => len,
            LineEnd::TooLong => return refuse(number, writer),
            LineEnd::EndOfInput(len) => {
                let line = &ahead.as_slice()[..len];
                return apply_last_line(machine, plans, number, line, known, buffers, writer);
            }
        };
        let line = &ahead.as_slice()[..len];
        let ended = apply_line(machine, plans, number, line, known, buffers, writer);
        if let Some(status) = ended {
            return status;
        }
        ahead.consume(len + 1);
        known = None;
        let Ok(following) = flush_and_read_line(ahead, reader, writer) else {
            return FAILED;
        };
        end = following;
    }
    unreachable!()
}

/// Applies the lines of a text of events to a machine that has started, in which a `fill`, `old`, `load` or `move` is bad, and
/// writes the outcome of each. Returns the status: 0 at the end of the text, 3 at a bad line, 6 exactly
/// where the reader or the writer fails or 2^64 - 1 bytes were read.
pub fn lab<M: Machine, R: ByteReader, W: ByteWriter>(
    machine: &mut M,
    plans: &Plans,
    reader: &mut R,
    writer: &mut W,
) -> u8
    // The output is that of the whole text.
    ensures written { (quota : ℕ) (machines : ℕ → Alone) (text : List ℕ) → AllRepresent plans.now quota (M.states machine.old) machines
        → KnowsPlans plans.now (M.topology machine.old) → R.remaining reader.old ≡ Some text → ¬ (result ≡ 6)
        → Appends (W.contents writer.old) (W.contents writer.new) (events_output plans.now quota machines text).text
        × (result ≡ (events_output plans.now quota machines text).status) }

    // Where the reader or the writer failed, a prefix of the output for what was read is written.
    ensures partial { (quota : ℕ) (machines : ℕ → Alone) → AllRepresent plans.now quota (M.states machine.old) machines
        → KnowsPlans plans.now (M.topology machine.old) → result ≡ 6
        → IsPartial (events_output plans.now quota machines) (R.remaining reader.old) (R.remaining reader.new)
        (W.contents writer.old) (W.contents writer.new) }

    // No other status is returned.
    ensures status { IsStatus result }

    // A failure has a cause, and nothing else comes of one.
    ensures cause { result ≡ 6
        → HasCause (R.remaining reader.old) (R.remaining reader.new) (R.failures reader.old) (R.failures reader.new)
        (W.failures writer.old) (W.failures writer.new) }
    ensures quiet { ¬ (result ≡ 6)
        → HasNoCause (R.remaining reader.old) (R.remaining reader.new) (R.failures reader.old) (R.failures reader.new)
        (W.failures writer.old) (W.failures writer.new) }
{
    let mut ahead = ReadAhead::new();
    let mut buffers = Buffers::new();
    let Ok(end) = flush_and_read_line(&mut ahead, reader, writer) else {
        return FAILED;
    };
    let next = NextLine {
        earlier: 0,
        end,
        parsed: None,
    };
    apply_lines(
        machine,
        plans,
        next,
        &mut ahead,
        &mut buffers,
        reader,
        writer,
    )
}
