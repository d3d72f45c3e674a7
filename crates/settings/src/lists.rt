//! Values of several parts: a DUID, name servers, a relay by its name.
ghost use Rattle.std.specs.Prelude.{ℕ, Some, List, length, ◌≤◌, ◌<◌, IfSome, IfNone};
ghost use Rattle.toml.specs.View.{view, items_view, table_view};
ghost use Rattle.types.specs.declared.limits.TheConstants.{MAX_RELAYS};
ghost use Rattle.settings.specs.Field.{HasValue, text_of, text_at, list_at, field_map, each};
ghost use Rattle.settings.specs.Texts.{IsAddress};
ghost use Rattle.settings.specs.Values.{IsDuid, AreAddresses, IsNameAt};

use crate::limits::MAX_DNS;
use crate::lookup::{list_at, text_at};
use crate::names::Key;
use crate::settings::RelayConfig;
use crate::text_forms::address;
use arrayvec::ArrayVec;
use toml::{Table, Value};
use types::{Addr4, MAX_DUID, MIN_DUID, RelayNo};

/// The DUID at a key.
pub fn duid_at<K: Key>(table: &Table, key: K) -> Option<ArrayVec<u8, MAX_DUID>>
    ensures some { IfSome result (λ duid. HasValue (text_at (K.spelling key) (table_view table.now)) (λ text. IsDuid text duid.items)) }
    ensures none { IfNone result
        ((duid : List ℕ) → ¬ HasValue (text_at (K.spelling key) (table_view table.now)) (λ text. IsDuid text duid)) }
{
    match text_at(table, key) {
        Some(text) => duid(text),
        None => None,
    }
}

/// The DUID that hexadecimal digits spell.
fn duid(text: &str) -> Option<ArrayVec<u8, MAX_DUID>>
    ensures some { IfSome result (λ duid. IsDuid text.now duid.items) }
    ensures none { IfNone result ((duid : List ℕ) → ¬ IsDuid text.now duid) }
{
    let len = text.len() / 2;
    if len < MIN_DUID || MAX_DUID < len {
        return None;
    }
    let mut bytes = [0; MAX_DUID];
    if hex::decode_to_slice(text, &mut bytes[..len]).is_err() {
        return None;
    }
    let mut duid = ArrayVec::new();
    match duid.try_extend_from_slice(&bytes[..len]) {
        Ok(()) => Some(duid),
        Err(_) => None,
    }
}

/// The addresses that strings spell, at most 4.
fn addresses(texts: &[Value]) -> Option<ArrayVec<Addr4, MAX_DNS>>
    ensures some { IfSome result (λ found. AreAddresses (each text_of (items_view texts.now)) found.items) }
    ensures few { IfSome result (λ found. length found.items ≤ MAX_DNS) }
    ensures none { IfNone result
        ((found : List Addr4) → length found ≤ MAX_DNS → ¬ AreAddresses (each text_of (items_view texts.now)) found) }
{
    let mut found = ArrayVec::new();
    for entry in texts {
        let Some(address) = address_of(entry) else {
            return None;
        };
        if found.is_full() {
            return None;
        }
        found.push(address);
    }
    Some(found)
}

/// The address that an entry spells.
fn address_of(entry: &Value) -> Option<Addr4>
    ensures some { IfSome result (λ a. HasValue (text_of (Some (view entry.now))) (λ text. IsAddress text a)) }
    ensures none { IfNone result ((a : Addr4) → ¬ HasValue (text_of (Some (view entry.now))) (λ text. IsAddress text a)) }
{
    match entry.as_str() {
        Some(text) => address(text),
        None => None,
    }
}

/// The name servers at a key.
pub fn addresses_at<K: Key>(table: &Table, key: K) -> Option<ArrayVec<Addr4, MAX_DNS>>
    ensures some { IfSome result (λ found.
        HasValue (field_map (each text_of) (list_at (K.spelling key) (table_view table.now))) (λ texts.
        AreAddresses texts found.items)) }
    ensures few { IfSome result (λ found. length found.items ≤ MAX_DNS) }
    ensures none { IfNone result ((found : List Addr4) → length found ≤ MAX_DNS
        → ¬ HasValue (field_map (each text_of) (list_at (K.spelling key) (table_view table.now))) (λ texts.
        AreAddresses texts found)) }
{
    match list_at(table, key) {
        Some(texts) => addresses(texts),
        None => None,
    }
}

/// The first relay with the name at a key.
pub fn relay_at<K: Key>(table: &Table, key: K, relays: &[RelayConfig]) -> Option<RelayNo>
    ensures some { IfSome result (λ n. HasValue (text_at (K.spelling key) (table_view table.now)) (IsNameAt relays.now n)) }
    ensures none { IfNone result ((n : ℕ) → n < MAX_RELAYS
        → ¬ HasValue (text_at (K.spelling key) (table_view table.now)) (IsNameAt relays.now n)) }
{
    match text_at(table, key) {
        Some(name) => relay_named(relays, name),
        None => None,
    }
}

/// The first relay with this name.
fn relay_named(relays: &[RelayConfig], name: &str) -> Option<RelayNo>
    ensures some { IfSome result (λ n. IsNameAt relays.now n name.now) }
    ensures none { IfNone result ((n : ℕ) → n < MAX_RELAYS → ¬ IsNameAt relays.now n name.now) }
{
    for (i, relay) in relays.iter().enumerate() {
        if relay.name.as_slice() == name.as_bytes() {
            return RelayNo::new(i);
        }
    }
    None
}
