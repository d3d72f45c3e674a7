//! A line for a pool.
ghost use Rattle.std.specs.Prelude.{◌≡◌, IfOk, OnOk, string_bytes};
ghost use Rattle.serde_json.specs.View.{members_view, view};
ghost use Rattle.lease_list.specs.Pool.{pool_data, pool_written, proto_number, with_pool, with_range, with_usage};

use crate::form::Form;
use crate::pool::Usage;
use crate::pool_row::PoolRow;
use serde_json::{Map, ToValue, Value, put};
use std::alloc::{AllocError, Global};
use types::Proto;

fn proto_number(proto: Proto) -> u64
    ensures { result ≡ proto_number proto }
{
    match proto {
        Proto::V4 => 4,
        Proto::V6 => 6,
    }
}

/// Puts in which pool it is.
fn put_pool(
    alloc: Global,
    map: &mut Map<String, Value>,
    circuit: &str,
    proto: Proto,
) -> Result<(), AllocError>
    ensures { OnOk result (members_view map.new.entries ≡ with_pool circuit.now proto (members_view map.old.entries)) }
{
    put(map, alloc, "circuit", circuit.to_value(alloc)?)?;
    put(map, alloc, "protocol", Value::from(proto_number(proto)))
}

/// Puts in its lowest and its highest address.
fn put_range(
    alloc: Global,
    map: &mut Map<String, Value>,
    first: String,
    last: String,
) -> Result<(), AllocError>
    ensures { OnOk result (members_view map.new.entries
        ≡ with_range (string_bytes first) (string_bytes last) (members_view map.old.entries)) }
{
    put(map, alloc, "first", Value::from(first))?;
    put(map, alloc, "last", Value::from(last))
}

/// Puts in how many of its addresses are used.
fn put_usage(alloc: Global, map: &mut Map<String, Value>, usage: Usage) -> Result<(), AllocError>
    ensures { OnOk result (members_view map.new.entries ≡ with_usage usage (members_view map.old.entries)) }
{
    put(map, alloc, "leased", Value::from(usage.leased as u64))?;
    put(map, alloc, "declined", Value::from(usage.declined as u64))?;
    put(map, alloc, "free", Value::from(usage.free as u64))
}

/// The members of a pool's line.
fn pool_value(alloc: Global, row: PoolRow<'_>) -> Result<Value, AllocError>
    ensures { IfOk result (λ value. view value ≡ pool_data row.entry) }
{
    let mut map = Map::new(alloc);
    put_pool(alloc, &mut map, row.circuit, row.proto)?;
    put_range(alloc, &mut map, row.first, row.last)?;
    put_usage(alloc, &mut map, row.usage)?;
    Ok(Value::Object(map))
}

/// The line of a pool, without a line feed.
pub fn pool_line(alloc: Global, row: PoolRow<'_>, form: Form) -> Result<String, AllocError>
    ensures { IfOk result (λ line. string_bytes line ≡ pool_written form row.entry) }
{
    match form {
        Form::Text => row.to_string(alloc),
        Form::Json => pool_value(alloc, row)?.to_string(alloc),
    }
}
