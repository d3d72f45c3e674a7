//! The lines for what a circuit's region says.
ghost use Rattle.std.specs.Prelude.{◌≡◌, IfOk, map, string_bytes, ◌∷◌, []};
ghost use Rattle.std.specs.List.{AllZip};
ghost use Rattle.lease_list.specs.Lease.{leases_at};
ghost use Rattle.lease_list.specs.Line.{IsLeaseLine, closed_written};
ghost use Rattle.lease_list.specs.Listing.{AreLines, pool_texts};

use crate::form::{Form, What};
use crate::lease::{Lease, leases};
use crate::line::{closed_line, lease_line};
use crate::pool_line::pool_line;
use crate::pool_row::PoolRow;
use config::CircuitPart;
use region_reader::Closed;
use std::alloc::{AllocError, Global};
use types::{CircuitId, Slots};

/// The id as text: its bytes are ASCII.
fn text_of(id: &CircuitId) -> &str
    ensures { result.now ≡ id.now }
{
    let Ok(text) = std::str::from_utf8(id.as_bytes()) else {
        unreachable!()
    };
    text
}

/// The line of each lease, in their order.
fn lease_lines(
    alloc: Global,
    circuit: &str,
    leases: &[Lease],
    at: u64,
    form: Form,
) -> Result<Vec<String>, AllocError>
    ensures { IfOk result (λ lines.
        AllZip (λ lease line. IsLeaseLine circuit.now lease at form (string_bytes line)) leases.now lines.items) }
{
    let mut lines = Vec::new(alloc);
    for (i, lease) in leases.iter().enumerate() {
        let line = lease_line(alloc, circuit, lease, at, form)?;
        lines.push(line)?;
    }
    Ok(lines)
}

/// The line of each pool, by the leases of these slots that are live at a moment, in seconds; DHCPv4 before DHCPv6.
fn pool_lines(
    alloc: Global,
    part: &CircuitPart,
    slots: &Slots,
    at: u64,
    form: Form,
) -> Result<Vec<String>, AllocError>
    ensures { IfOk result (λ lines. map string_bytes lines.items ≡ pool_texts part.now form (leases_at at part.now slots.now)) }
{
    let found = leases(alloc, part, slots, at)?;
    let circuit = text_of(part.id());
    let four = PoolRow::four(alloc, circuit, part.pool4(), &found)?;
    let six = PoolRow::six(alloc, circuit, part.pool6(), &found)?;
    let mut lines = Vec::new(alloc);
    lines.push(pool_line(alloc, four, form)?)?;
    lines.push(pool_line(alloc, six, form)?)?;
    Ok(lines)
}

/// The line of each lease of these slots that is live at a moment, in seconds.
fn live_lines(
    alloc: Global,
    part: &CircuitPart,
    slots: &Slots,
    at: u64,
    form: Form,
) -> Result<Vec<String>, AllocError>
    ensures { IfOk result (λ lines.
        AllZip (λ lease line. IsLeaseLine part.now.id lease at form (string_bytes line))
        (leases_at at part.now slots.now) lines.items) }
{
    let found = leases(alloc, part, slots, at)?;
    lease_lines(alloc, text_of(part.id()), &found, at, form)
}

/// The one line of a circuit whose leases are not known.
fn closed_lines(
    alloc: Global,
    part: &CircuitPart,
    why: Closed,
    form: Form,
) -> Result<Vec<String>, AllocError>
    ensures { IfOk result (λ lines. map string_bytes lines.items ≡ closed_written part.now.id why form ∷ []) }
{
    let line = closed_line(alloc, text_of(part.id()), why, form)?;
    let mut lines = Vec::new(alloc);
    lines.push(line)?;
    Ok(lines)
}

/// The lines of a circuit whose slots are these: one for each of its leases that is live at a moment, in seconds, by
/// address, or one for each of its pools, DHCPv4 before DHCPv6; or one that says why the slots are not known. They have
/// no line feeds.
pub fn circuit_lines(
    alloc: Global,
    part: &CircuitPart,
    found: &Result<Slots, Closed>,
    at: u64,
    what: What,
    form: Form,
) -> Result<Vec<String>, AllocError>
    ensures { IfOk result (λ lines. AreLines part.now at what form found.now lines.items) }
{
    match found {
        Ok(slots) => match what {
            What::Leases => live_lines(alloc, part, slots, at, form),
            What::Pools => pool_lines(alloc, part, slots, at, form),
        },
        Err(why) => closed_lines(alloc, part, *why, form),
    }
}
