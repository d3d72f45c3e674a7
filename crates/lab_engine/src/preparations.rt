//! The lines before all events, which say what the regions of the disk hold.
ghost use Rattle.std.specs.Prelude.{◌≡◌, ◌+◌, ◌⊎◌, ◌<◌, ◌≤◌, ℕ, ⊤, List, Option, None, [], true, false, length, take};
ghost use Rattle.std.specs.Prelude.{IfOk, IfSome, IfNone, OnOk, OnErr};
ghost use Rattle.std.specs.Io.KnownBytes.{prepend_known};
ghost use Rattle.lease_disk.specs.Crash.{IsFormattedOld};
ghost use Rattle.lease_disk.specs.Device.{ChangesOne};
ghost use Rattle.lease_disk.specs.Model.{device_of, failing_call_of, disk_region};
ghost use Rattle.world.specs.Start.{Opening};
ghost use Rattle.lab_engine.specs.Progress.{IsParsedIn};
ghost use Rattle.lab_engine.specs.Lab.{prepared};
ghost use Rattle.lab_engine.specs.Next.{IsHeld, IsNextLine};
ghost use Rattle.lab_engine.specs.Preparations.{AreOver, ArePrepared, AreWithin, IsDiskFormatted, IsDiskReadyFor};
ghost use Rattle.lab_engine.specs.Preparations.{PreparedSoFar, StaysReady};
ghost use Rattle.lab_text.specs.Line.{line_of_text};
ghost use Rattle.streams.specs.LineEnd.{Fits, HoldsLast, IsCounted, IsLineEnd};
ghost use Rattle.lab_text.specs.ParsedLine.{IsPreparationWithin, line_of_preparation};
ghost use Rattle.streams.specs.ReadAhead.{held};

use crate::buffers::Buffers;
use crate::next_line::NextLine;
use config::Plans;
use lab_text::MAX_BYTES;
use lab_text::parse_line::{Parsed, Preparation};
use lease_disk::{ModelDisk, format_old};
use streams::{ByteReader, Failed, LineEnd, MAX_TEXT, ReadAhead, read_line};

/// Formats a region in format 1, whichever call is to fail in its move.
fn format_region(disk: &mut ModelDisk, region: u16)
    requires { region < length disk.old.regions }
    ensures formatted { IsFormattedOld (disk_region disk.new region) }
    ensures readable { (disk_region disk.new region).readable ≡ (disk_region disk.old region).readable }
    ensures failing_call { failing_call_of disk.new region ≡ failing_call_of disk.old region }
    ensures frame { ChangesOne true region (device_of disk.old) (device_of disk.new) }
{
    let fault = disk.fault(region);
    disk.fail_at(region, 0);
    let _ = format_old(region, disk);
    disk.fail_at(region, fault);
}

/// Does what a line says of a circuit's region.
fn prepare_region(
    disk: &mut ModelDisk,
    plans: &Plans,
    preparation: Preparation,
    bytes: &[u8; MAX_BYTES],
)
    requires named { IsPreparationWithin plans.now.union preparation }
    requires disk { IsDiskReadyFor plans.now.union disk.old }
    ensures prepared { (quota : ℕ) (openings : ℕ → Opening) → AreOver plans.now quota (device_of disk.old) openings
        → ArePrepared plans.now quota (device_of disk.new) (prepared (line_of_preparation preparation bytes.now) openings) }
    ensures disk { StaysReady disk.old disk.new }
{
    match preparation {
        Preparation::Fill(circuit, byte) => {
            let region = plans.union().at(circuit).region;
            disk.fill(region, byte);
        }
        Preparation::Old(circuit) => {
            let region = plans.union().at(circuit).region;
            format_region(disk, region);
        }
        Preparation::Load(circuit, at, len) => {
            let region = plans.union().at(circuit).region;
            disk.load(region, at, &bytes[..len]);
        }
        Preparation::Move(circuit, fault) => {
            let region = plans.union().at(circuit).region;
            disk.fail_at(region, fault);
        }
    }
}

/// Applies a line that may come before all events, or returns the event that it says.
fn prepare(
    disk: &mut ModelDisk,
    plans: &Plans,
    line: &[u8],
    buffers: &mut Buffers,
) -> Option<Parsed>
    requires short { length line.now ≤ 8192 }
    requires disk { IsDiskReadyFor plans.now.union disk.old }
    ensures event { IfSome result (λ _. (openings : ℕ → Opening)
        → prepared (line_of_text plans.now.union plans.now.count line.now) openings ≡ None) }
    ensures parsed { IfSome result (IsParsedIn plans.now buffers.new line.now) }
    ensures prepared { IfNone result ((quota : ℕ) (openings : ℕ → Opening) → AreOver plans.now quota (device_of disk.old) openings
        → ArePrepared plans.now quota (device_of disk.new) (prepared (line_of_text plans.now.union plans.now.count line.now) openings)) }
    ensures same { IfSome result (λ _. disk.new ≡ disk.old) }
    ensures disk { StaysReady disk.old disk.new }
{
    match buffers.parse(plans, line) {
        Parsed::Ignored => None,
        Parsed::Prepare(preparation) => {
            prepare_region(disk, plans, preparation, &buffers.bytes);
            None
        }
        event @ (Parsed::Bad | Parsed::Event(_) | Parsed::Restart | Parsed::Batch(_, _)) => {
            Some(event)
        }
    }
}

/// Applies the last line of the text, which lacks its line feed, where it may come before all events, and
/// consumes it. Returns how the line of the first event ends, and the event, or the end of an empty line
/// where there is none.
fn prepare_last(
    disk: &mut ModelDisk,
    plans: &Plans,
    len: usize,
    ahead: &mut ReadAhead,
    buffers: &mut Buffers,
) -> (LineEnd, Option<Parsed>)
    requires short { len ≤ 8192 }
    requires inside { len ≤ length (held ahead.old) }
    requires disk { IsDiskReadyFor plans.now.union disk.old }
    ensures prepared { (quota number : ℕ) (given left : Option (List ℕ)) → HoldsLast (held ahead.old) left len
        → PreparedSoFar plans.now quota number false given (prepend_known (held ahead.old) left) (device_of disk.old)
        (λ rest. ⊤)
        → PreparedSoFar plans.now quota number true given (prepend_known (held ahead.new) left) (device_of disk.new)
        (Fits (held ahead.new) result.0) }
    ensures end { (left : Option (List ℕ)) → HoldsLast (held ahead.old) left len → IsLineEnd (held ahead.new) left result.0 }
    ensures line { IsHeld plans.now buffers.new (held ahead.new) result.0 result.1 }
    ensures shorter { length (held ahead.new) ≤ length (held ahead.old) }
    ensures count { ahead.new.count ≡ ahead.old.count }
    ensures disk { StaysReady disk.old disk.new }
{
    let line = &ahead.as_slice()[..len];
    if let Some(parsed) = prepare(disk, plans, line, buffers) {
        return (LineEnd::EndOfInput(len), Some(parsed));
    }
    ahead.consume(len);
    (LineEnd::EndOfInput(0), None)
}

/// Applies the lines before the first event, and returns that event's line, parsed, or an empty one at the
/// end of the text. Writes nothing.
pub(crate) fn prepare_all<R: ByteReader>(
    disk: &mut ModelDisk,
    plans: &Plans,
    ahead: &mut ReadAhead,
    buffers: &mut Buffers,
    reader: &mut R,
) -> Result<NextLine, Failed>
    requires regions { AreWithin plans.now.union (length disk.old.regions) }
    requires formatted { IsDiskFormatted disk.old }
    requires held { held ahead.old ≡ [] }
    requires count { ahead.old.count ≡ 0 }
    ensures prepared { IfOk result (λ next. (quota : ℕ)
        → PreparedSoFar plans.now quota (next.earlier + 1) true (R.remaining reader.old)
        (prepend_known (held ahead.new) (R.remaining reader.new)) (device_of disk.new)
        (Fits (held ahead.new) next.end)) }
    ensures next { IfOk result (IsNextLine plans.now buffers.new ahead.new (R.remaining reader.new)) }
    ensures disk { StaysReady disk.old disk.new }
    ensures counted { IsCounted (R.remaining reader.old) (R.remaining reader.new) 0 ahead.new.count }
    ensures quiet { OnOk result (R.failures reader.new ≡ R.failures reader.old) }
    ensures cause { OnErr result ((R.failures reader.new ≡ R.failures reader.old + 1) ⊎ (ahead.new.count ≡ 18446744073709551615)) }
{
    // each line before the last has a byte at least, its line feed
    'lines: for earlier in 0..MAX_TEXT {
        let Ok(end) = read_line(ahead, reader) else {
            return Err(Failed);
        };
        let len = match end {
            LineEnd::Newline(len) => len,
            LineEnd::TooLong => return Ok(NextLine::new(earlier, end, None)),
            LineEnd::EndOfInput(len) => {
                let (end, parsed) = prepare_last(disk, plans, len, ahead, buffers);
                return Ok(NextLine::new(earlier, end, parsed));
            }
        };
        let line = &ahead.as_slice()[..len];
        if let Some(event) = prepare(disk, plans, line, buffers) {
            return Ok(NextLine::new(earlier, end, Some(event)));
        }
        ahead.consume(len + 1);
    }
    unreachable!()
}
