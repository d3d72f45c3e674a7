//! What the strings and integers at the keys of a table stand for, each within its limits.
ghost use Rattle.std.specs.Prelude.{ℕ, List, IfOk, IfErr, IfSome, IfNone};
ghost use Rattle.toml.specs.View.{table_view};
ghost use Rattle.settings.specs.Broken.{IsOutside};
ghost use Rattle.settings.specs.Field.{HasValue, IsThere, text_at, integer_at};
ghost use Rattle.settings.specs.Texts.{IsAddress, IsSource, IsAddress6};
ghost use Rattle.settings.specs.Values.{IsNumber, IsName, IsId};

use crate::limit_fault::Outside;
use crate::limits::MAX_NAME;
use crate::lookup::{integer_at, text_at};
use crate::names::Key;
use crate::text_forms::{address, address6, source};
use arrayvec::ArrayVec;
use toml::Table;
use types::{Addr4, Addr6, CircuitId, Source};

/// The integer at a key if it is from `least` to `most`, or else the one that was found.
pub fn number_at<K: Key>(table: &Table, key: K, least: u32, most: u32) -> Result<u32, Outside>
    requires { IsThere (integer_at (K.spelling key) (table_view table.now)) }
    ensures ok { IfOk result (IsNumber (integer_at (K.spelling key) (table_view table.now)) least most) }
    ensures err { IfErr result (IsOutside (integer_at (K.spelling key) (table_view table.now)) least most) }
{
    let Some(found) = integer_at(table, key) else {
        unreachable!()
    };
    if found < i64::from(least) || i64::from(most) < found {
        return Err(Outside { found, least, most });
    }
    Ok(found as u32)
}

/// The IPv4 address at a key.
pub fn address_at<K: Key>(table: &Table, key: K) -> Option<Addr4>
    ensures some { IfSome result (λ a. HasValue (text_at (K.spelling key) (table_view table.now)) (λ text. IsAddress text a)) }
    ensures none { IfNone result ((a : Addr4) → ¬ HasValue (text_at (K.spelling key) (table_view table.now)) (λ text. IsAddress text a)) }
{
    match text_at(table, key) {
        Some(text) => address(text),
        None => None,
    }
}

/// The IPv6 address at a key.
pub fn address6_at<K: Key>(table: &Table, key: K) -> Option<Addr6>
    ensures some { IfSome result (λ a. HasValue (text_at (K.spelling key) (table_view table.now)) (λ text. IsAddress6 text a)) }
    ensures none { IfNone result ((a : Addr6) → ¬ HasValue (text_at (K.spelling key) (table_view table.now)) (λ text. IsAddress6 text a)) }
{
    match text_at(table, key) {
        Some(text) => address6(text),
        None => None,
    }
}

/// The address and port at a key.
pub fn source_at<K: Key>(table: &Table, key: K) -> Option<Source>
    ensures some { IfSome result (λ s. HasValue (text_at (K.spelling key) (table_view table.now)) (λ text. IsSource text s)) }
    ensures none { IfNone result ((s : Source) → ¬ HasValue (text_at (K.spelling key) (table_view table.now)) (λ text. IsSource text s)) }
{
    match text_at(table, key) {
        Some(text) => source(text),
        None => None,
    }
}

/// The circuit id at a key.
pub fn id_at<K: Key>(table: &Table, key: K) -> Option<CircuitId>
    ensures some { IfSome result (λ id. HasValue (text_at (K.spelling key) (table_view table.now)) (λ text. IsId text id)) }
    ensures none { IfNone result ((id : List ℕ) → ¬ HasValue (text_at (K.spelling key) (table_view table.now)) (λ text. IsId text id)) }
{
    match text_at(table, key) {
        Some(text) => CircuitId::new(text.as_bytes()),
        None => None,
    }
}

/// The name of a relay at a key.
pub fn name_at<K: Key>(table: &Table, key: K) -> Option<ArrayVec<u8, MAX_NAME>>
    ensures some { IfSome result (λ name. HasValue (text_at (K.spelling key) (table_view table.now)) (λ text. IsName text name.items)) }
    ensures none { IfNone result
        ((name : List ℕ) → ¬ HasValue (text_at (K.spelling key) (table_view table.now)) (λ text. IsName text name)) }
{
    let Some(text) = text_at(table, key) else {
        return None;
    };
    if text.is_empty() {
        return None;
    }
    let mut name = ArrayVec::new();
    match name.try_extend_from_slice(text.as_bytes()) {
        Ok(()) => Some(name),
        Err(_) => None,
    }
}
