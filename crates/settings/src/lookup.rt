//! What a table has at a key.
ghost use Rattle.std.specs.Prelude.{◌≡◌, IfSome, IfNone, option_map};
ghost use Rattle.toml.specs.Data.{get_member};
ghost use Rattle.toml.specs.View.{view, table_view, array_view};
ghost use Rattle.settings.specs.Field.{Value as Told, IsThere, text_at, integer_at, table_at, list_at};

use crate::names::Key;
use toml::value::Array;
use toml::{Table, Value};

/// The value at a key.
fn value_at<'a, K: Key>(table: &'a Table, key: K) -> Option<&'a Value>
    ensures { option_map (λ v. view v.now) result ≡ get_member (K.spelling key) (table_view table.now) }
{
    table.get(key.name())
}

/// The string at a key.
pub fn text_at<'a, K: Key>(table: &'a Table, key: K) -> Option<&'a str>
    ensures some { IfSome result (λ text. text_at (K.spelling key) (table_view table.now) ≡ Told text.now) }
    ensures none { IfNone result (¬ IsThere (text_at (K.spelling key) (table_view table.now))) }
{
    match value_at(table, key) {
        Some(Value::String(text)) => Some(text.as_str()),
        _ => None,
    }
}

/// The integer at a key.
pub fn integer_at<K: Key>(table: &Table, key: K) -> Option<i64>
    ensures some { IfSome result (λ n. integer_at (K.spelling key) (table_view table.now) ≡ Told n) }
    ensures none { IfNone result (¬ IsThere (integer_at (K.spelling key) (table_view table.now))) }
{
    match value_at(table, key) {
        Some(Value::Integer(n)) => Some(*n),
        _ => None,
    }
}

/// The table at a key.
pub fn table_at<'a, K: Key>(table: &'a Table, key: K) -> Option<&'a Table>
    ensures some { IfSome result (λ t. table_at (K.spelling key) (table_view table.now) ≡ Told (table_view t.now)) }
    ensures none { IfNone result (¬ IsThere (table_at (K.spelling key) (table_view table.now))) }
{
    match value_at(table, key) {
        Some(Value::Table(keys)) => Some(keys),
        _ => None,
    }
}

/// The array at a key.
pub fn list_at<'a, K: Key>(table: &'a Table, key: K) -> Option<&'a Array>
    ensures some { IfSome result (λ a. list_at (K.spelling key) (table_view table.now) ≡ Told (array_view a.now)) }
    ensures none { IfNone result (¬ IsThere (list_at (K.spelling key) (table_view table.now))) }
{
    match value_at(table, key) {
        Some(Value::Array(entries)) => Some(entries),
        _ => None,
    }
}
