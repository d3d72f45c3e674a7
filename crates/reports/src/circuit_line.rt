//! A circuit's line of a report.
ghost use Rattle.std.specs.Prelude.{◌≡◌, ◌||◌, Some, false, nat_lt};
ghost use Rattle.std.specs.Fmt.{WritesOnOk};
ghost use Rattle.reports.specs.CircuitLine.{circuit_text, declined_part, dropped_part, dropped_parts, end_text, has_parts, joined, lead};

use counts::{Counts, REASONS};
use std::fmt;
use types::Discard;

/// A circuit's line of a report: how many of its datagrams were dropped and for which reasons, and how many addresses were
/// declined. Nothing at all where there were none. To write it takes no memory.
#[derive(Clone, Copy)]
pub struct CircuitLine<'a> {
    pub circuit: &'a str,
    pub counts: &'a Counts,
    pub declined: u64,
}

/// Writes what stands before a part: the circuit before the first, a comma before each other.
fn write_lead<W: fmt::Write>(
    has_parts: bool,
    circuit: &str,
    f: &mut fmt::Formatter<W>,
) -> fmt::Result
    ensures { WritesOnOk W.write_str_gives f.old result (lead has_parts circuit.now) f.new }
{
    if has_parts {
        f.write_str(", ")
    } else {
        write!(f, "{circuit}: ")
    }
}

/// Writes how many datagrams were dropped for a reason, if any were.
fn write_dropped<W: fmt::Write>(
    has_parts: bool,
    circuit: &str,
    dropped: u64,
    why: Discard,
    f: &mut fmt::Formatter<W>,
) -> fmt::Result
    ensures { WritesOnOk W.write_str_gives f.old result (joined has_parts circuit.now (dropped_part dropped why)) f.new }
{
    if dropped == 0 {
        return Ok(());
    }
    write_lead(has_parts, circuit, f)?;
    let number = why.number();
    write!(f, "{dropped} dropped ({number})")
}

/// Writes how many addresses were declined, if any were.
fn write_declined<W: fmt::Write>(
    has_parts: bool,
    circuit: &str,
    declined: u64,
    f: &mut fmt::Formatter<W>,
) -> fmt::Result
    ensures { WritesOnOk W.write_str_gives f.old result (joined has_parts circuit.now (declined_part declined)) f.new }
{
    if declined == 0 {
        return Ok(());
    }
    write_lead(has_parts, circuit, f)?;
    write!(f, "{declined} declined by DECLINE")
}

/// Whether a line has begun after one more number, by whether it had before.
fn has_begun(has_parts: bool, number: u64) -> bool
    ensures { result ≡ (has_parts || nat_lt 0 number) }
{
    has_parts || number > 0
}

/// Whether datagrams were dropped, for any reason.
fn has_dropped(counts: &Counts) -> bool
    ensures { result ≡ has_parts (dropped_parts counts.now) }
{
    let mut has_parts = false;
    'reasons: for why in REASONS.iter() {
        has_parts = has_begun(has_parts, counts.dropped(*why));
    }
    has_parts
}

/// Writes how many datagrams were dropped for each reason.
fn write_reasons<W: fmt::Write>(
    circuit: &str,
    counts: &Counts,
    f: &mut fmt::Formatter<W>,
) -> fmt::Result
    ensures { WritesOnOk W.write_str_gives f.old result (joined false circuit.now (dropped_parts counts.now)) f.new }
{
    let mut has_parts = false;
    'reasons: for why in REASONS.iter() {
        let dropped = counts.dropped(*why);
        write_dropped(has_parts, circuit, dropped, *why, f)?;
        has_parts = has_begun(has_parts, dropped);
    }
    Ok(())
}

/// Ends a line that has begun.
fn write_end<W: fmt::Write>(has_parts: bool, f: &mut fmt::Formatter<W>) -> fmt::Result
    ensures { WritesOnOk W.write_str_gives f.old result (end_text has_parts) f.new }
{
    if has_parts { f.write_str("\n") } else { Ok(()) }
}

impl<'a> CircuitLine<'a> {
    /// Whether there is anything to say of the circuit.
    pub fn has_text(&self) -> bool
        ensures { result ≡ (has_parts (dropped_parts self.now.counts.now) || nat_lt 0 self.now.declined) }
    {
        has_begun(has_dropped(self.counts), self.declined)
    }
}

impl<'a> fmt::Display for CircuitLine<'a> {
    ghost output = { λ line. Some (circuit_text line.circuit.now line.counts.now line.declined) };

    fn fmt<W: fmt::Write>(&self, f: &mut fmt::Formatter<W>) -> fmt::Result {
        let (circuit, counts, declined) = (self.circuit, self.counts, self.declined);
        let has_parts = has_dropped(counts);
        write_reasons(circuit, counts, f)?;
        write_declined(has_parts, circuit, declined, f)?;
        write_end(has_begun(has_parts, declined), f)
    }
}
