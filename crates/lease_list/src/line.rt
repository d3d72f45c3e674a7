//! A line for a lease, or for a circuit whose leases are not known.
ghost use Rattle.std.specs.Prelude.{◌≡◌, IfOk, OnOk, option_map, string_bytes};
ghost use Rattle.serde_json.specs.View.{members_view, view};
ghost use Rattle.lease_list.specs.Line.{IsLeaseLine, closed_data, closed_written, closed_words, why_of, with_client};
ghost use Rattle.lease_list.specs.Line.{with_end, with_place, written};
ghost use Rattle.lease_list.specs.Row.{line_data};

use crate::form::Form;
use crate::lease::Lease;
use crate::row::Row;
use region_reader::Closed;
use serde_json::{Map, ToValue, Value, json, put};
use std::alloc::{AllocError, Global};

/// Puts in where a lease is, and whether it is one.
fn put_place(
    alloc: Global,
    map: &mut Map<String, Value>,
    circuit: &str,
    address: String,
    state: &str,
) -> Result<(), AllocError>
    ensures { OnOk result (members_view map.new.entries
        ≡ with_place circuit.now (string_bytes address) state.now (members_view map.old.entries)) }
{
    put(map, alloc, "circuit", circuit.to_value(alloc)?)?;
    put(map, alloc, "address", Value::from(address))?;
    put(map, alloc, "state", state.to_value(alloc)?)
}

/// Puts in whose it is.
fn put_client(
    alloc: Global,
    map: &mut Map<String, Value>,
    client: Option<String>,
    iaid: Option<String>,
) -> Result<(), AllocError>
    ensures { OnOk result (members_view map.new.entries
        ≡ with_client (option_map string_bytes client) (option_map string_bytes iaid) (members_view map.old.entries)) }
{
    put(map, alloc, "client", Value::from(client))?;
    put(map, alloc, "iaid", Value::from(iaid))
}

/// Puts in when it ends.
fn put_end(
    alloc: Global,
    map: &mut Map<String, Value>,
    until: u64,
    date: Option<String>,
    left: u64,
) -> Result<(), AllocError>
    ensures { OnOk result (members_view map.new.entries
        ≡ with_end until (option_map string_bytes date) left (members_view map.old.entries)) }
{
    put(map, alloc, "until", Value::from(until))?;
    put(map, alloc, "date", Value::from(date))?;
    put(map, alloc, "left", Value::from(left))
}

/// The members of a lease's line.
fn row_value(alloc: Global, row: Row<'_>) -> Result<Value, AllocError>
    ensures { IfOk result (λ value. view value ≡ line_data row.entry) }
{
    let mut map = Map::new(alloc);
    put_place(alloc, &mut map, row.circuit, row.address, row.state)?;
    put_client(alloc, &mut map, row.client, row.iaid)?;
    put_end(alloc, &mut map, row.until, row.date, row.left)?;
    Ok(Value::Object(map))
}

/// The texts of a lease in a line.
fn row_line(alloc: Global, row: Row<'_>, form: Form) -> Result<String, AllocError>
    ensures { IfOk result (λ line. string_bytes line ≡ written form row.entry) }
{
    match form {
        Form::Text => row.to_string(alloc),
        Form::Json => row_value(alloc, row)?.to_string(alloc),
    }
}

/// The line of a lease of the circuit with this id, at a moment in seconds, without a line feed.
pub fn lease_line(
    alloc: Global,
    circuit: &str,
    lease: &Lease,
    at: u64,
    form: Form,
) -> Result<String, AllocError>
    ensures { IfOk result (λ line. IsLeaseLine circuit.now lease.now at form (string_bytes line)) }
{
    let row = Row::new(alloc, circuit, lease, at)?;
    row_line(alloc, row, form)
}

fn closed_words(why: Closed) -> &'static str
    ensures { result.now ≡ closed_words why }
{
    match why {
        Closed::Damaged | Closed::Unreadable => "closed",
        Closed::Busy => "busy",
    }
}

fn why_of(why: Closed) -> &'static str
    ensures { result.now ≡ why_of why }
{
    match why {
        Closed::Damaged => "its region is damaged",
        Closed::Unreadable => "its region can't be read",
        Closed::Busy => "no two in a row of 100 readings of its region were equal",
    }
}

/// The members of a line for a circuit whose leases are not known.
fn closed_value(alloc: Global, circuit: &str, why: Closed) -> Result<Value, AllocError>
    ensures { IfOk result (λ value. view value ≡ closed_data circuit.now why) }
{
    let (state, why) = (closed_words(why), why_of(why));
    json!(in alloc; {"circuit": circuit, "state": state, "why": why})
}

/// The line for a circuit whose leases are not known, with the reason, without a line feed.
pub fn closed_line(
    alloc: Global,
    circuit: &str,
    why: Closed,
    form: Form,
) -> Result<String, AllocError>
    ensures { IfOk result (λ line. string_bytes line ≡ closed_written circuit.now why form) }
{
    match form {
        Form::Text => {
            let (state, why) = (closed_words(why), why_of(why));
            format!(in alloc; "{circuit} {state}: {why}")
        }
        Form::Json => closed_value(alloc, circuit, why)?.to_string(alloc),
    }
}
