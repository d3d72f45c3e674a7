//! Whether every table and key is present and of its type.
ghost use Rattle.std.specs.Prelude.{ℕ, List, ◌≡◌, ◌↔◌, Some, IsNone, IsTrue, IfSome, IfNone, ⊤};
ghost use Rattle.toml.specs.View.{view, items_view, table_view};
ghost use Rattle.settings.specs.Broken.{HasId, HasServerKey, HasRelayKey, HasCircuitKey, RelayLacks, CircuitLacks};
ghost use Rattle.settings.specs.Field.{Value as Told, HasValue, text_of, each};
ghost use Rattle.settings.specs.Keys.{AllThere, IsRelayName, HasServerKeys, HasRelayKeys, HasCircuitKeys};
ghost use Rattle.settings.specs.Tables.{server_keys, relay_keys, circuit_keys, relay_entry, circuit_entry};

use crate::lookup::{integer_at, list_at, text_at};
use crate::names::{CircuitKey, CircuitRef, RelayKey, ServerKey};
use crate::values::id_at;
use toml::{Table, Value};
use types::CircuitId;

/// Returns this key if the table has no value of its type at it.
macro_rules! lacks {
    ($table:ident, $key:path, $type_at:ident) => {
        if $type_at($table, $key).is_none() {
            return Some($key);
        }
    };
}

/// A key of the server that is missing or of the wrong type.
pub fn server_lacks(server: &Table) -> Option<ServerKey>
    ensures none { IsNone result ↔ HasServerKeys (server_keys (table_view server.now)) }
    ensures some { IfSome result (λ key. ¬ HasServerKey (server_keys (table_view server.now)) key) }
{
    lacks!(server, ServerKey::Listen4, text_at);
    lacks!(server, ServerKey::Listen6, text_at);
    lacks!(server, ServerKey::Duid, text_at);
    None
}

/// A key of a relay that is missing or of the wrong type.
fn relay_lacks(relay: &Table) -> Option<RelayKey>
    ensures none { IsNone result ↔ HasRelayKeys (relay_keys (table_view relay.now)) }
    ensures some { IfSome result (λ key. ¬ HasRelayKey (relay_keys (table_view relay.now)) key) }
{
    lacks!(relay, RelayKey::Name, text_at);
    lacks!(relay, RelayKey::Source, text_at);
    None
}

/// A relay that lacks a key, by its number from 1, and the key.
pub fn relays_lack(entries: &[Value]) -> Option<(usize, RelayKey)>
    ensures none { IsNone result ↔ AllThere HasRelayKeys (each relay_entry (items_view entries.now)) }
    ensures some { IfSome result (λ r. RelayLacks (each relay_entry (items_view entries.now)) r.0 r.1) }
{
    for (i, entry) in entries.iter().enumerate() {
        if let Some(key) = relay_entry_lacks(entry) {
            return Some((i + 1, key));
        }
    }
    None
}

/// A missing key of an entry in the array of relays: `name` if the entry is not a table.
fn relay_entry_lacks(entry: &Value) -> Option<RelayKey>
    ensures none { IsNone result ↔ HasValue (relay_entry (Some (view entry.now))) HasRelayKeys }
    ensures some { IfSome result (λ key. ¬ HasValue (relay_entry (Some (view entry.now))) (λ keys. HasRelayKey keys key)) }
{
    match entry.as_table() {
        Some(relay) => relay_lacks(relay),
        None => Some(RelayKey::Name),
    }
}

/// Whether some relay has this name.
fn is_relay_name(relays: &[Value], name: &str) -> bool
    ensures { IsTrue result ↔ IsRelayName (each relay_entry (items_view relays.now)) name.now }
{
    for entry in relays {
        if has_name(entry, name) {
            return true;
        }
    }
    false
}

/// Whether the entry is a relay with this name.
fn has_name(entry: &Value, name: &str) -> bool
    ensures { IsTrue result ↔ HasValue (relay_entry (Some (view entry.now))) (λ relay. relay.name ≡ Told name.now) }
{
    match entry.as_table() {
        Some(relay) => text_at(relay, RelayKey::Name) == Some(name),
        None => false,
    }
}

/// Whether each entry is a string.
fn are_texts(entries: &[Value]) -> bool
    ensures { IsTrue result ↔ AllThere (λ _. ⊤) (each text_of (items_view entries.now)) }
{
    for entry in entries {
        if !entry.is_str() {
            return false;
        }
    }
    true
}

/// Whether the name servers are an array of strings.
fn has_dns(circuit: &Table) -> bool
    ensures { IsTrue result ↔ HasValue (circuit_keys (table_view circuit.now)).dns (AllThere (λ _. ⊤)) }
{
    match list_at(circuit, CircuitKey::Dns) {
        Some(entries) => are_texts(entries),
        None => false,
    }
}

/// Whether the circuit names a relay.
fn has_relay(circuit: &Table, relays: &[Value]) -> bool
    ensures { IsTrue result
        ↔ HasValue (circuit_keys (table_view circuit.now)).relay
        (IsRelayName (each relay_entry (items_view relays.now))) }
{
    match text_at(circuit, CircuitKey::Relay) {
        Some(name) => is_relay_name(relays, name),
        None => false,
    }
}

/// A key of a circuit that is missing or of the wrong type, or `relay` if that names none.
fn circuit_lacks(circuit: &Table, relays: &[Value]) -> Option<CircuitKey>
    ensures none { IsNone result ↔ HasCircuitKeys (each relay_entry (items_view relays.now)) (circuit_keys (table_view circuit.now)) }
    ensures some { IfSome result (λ key.
        ¬ HasCircuitKey (each relay_entry (items_view relays.now)) (circuit_keys (table_view circuit.now)) key) }
{
    lacks!(circuit, CircuitKey::Id, text_at);
    if !has_relay(circuit, relays) {
        return Some(CircuitKey::Relay);
    }
    lacks!(circuit, CircuitKey::Region, integer_at);
    lacks!(circuit, CircuitKey::Lease, integer_at);
    lacks!(circuit, CircuitKey::Gateway4, text_at);
    lacks!(circuit, CircuitKey::Prefix4, integer_at);
    lacks!(circuit, CircuitKey::First4, text_at);
    lacks!(circuit, CircuitKey::Count4, integer_at);
    if !has_dns(circuit) {
        return Some(CircuitKey::Dns);
    }
    lacks!(circuit, CircuitKey::Link6, text_at);
    lacks!(circuit, CircuitKey::First6, text_at);
    lacks!(circuit, CircuitKey::Count6, integer_at);
    None
}

/// A missing key of an entry in the array of circuits: `id` if the entry is not a table.
fn circuit_entry_lacks(entry: &Value, relays: &[Value]) -> Option<CircuitKey>
    ensures none { IsNone result
        ↔ HasValue (circuit_entry (Some (view entry.now))) (HasCircuitKeys (each relay_entry (items_view relays.now))) }
    ensures some { IfSome result (λ key.
        ¬ HasValue (circuit_entry (Some (view entry.now))) (λ keys.
        HasCircuitKey (each relay_entry (items_view relays.now)) keys key)) }
{
    match entry.as_table() {
        Some(circuit) => circuit_lacks(circuit, relays),
        None => Some(CircuitKey::Id),
    }
}

/// The id of an entry in the array of circuits, if it is a table with an id.
pub fn entry_id(entry: &Value) -> Option<CircuitId>
    ensures some { IfSome result (HasId (circuit_entry (Some (view entry.now)))) }
    ensures none { IfNone result ((id : List ℕ) → ¬ HasId (circuit_entry (Some (view entry.now))) id) }
{
    match entry.as_table() {
        Some(circuit) => id_at(circuit, CircuitKey::Id),
        None => None,
    }
}

/// A circuit that lacks a key, and the key.
pub fn circuits_lack(entries: &[Value], relays: &[Value]) -> Option<(CircuitRef, CircuitKey)>
    ensures none { IsNone result
        ↔ AllThere (HasCircuitKeys (each relay_entry (items_view relays.now)))
        (each circuit_entry (items_view entries.now)) }
    ensures some { IfSome result (λ r.
        CircuitLacks (each relay_entry (items_view relays.now)) (each circuit_entry (items_view entries.now)) r.0 r.1) }
{
    for (i, entry) in entries.iter().enumerate() {
        if let Some(key) = circuit_entry_lacks(entry, relays) {
            let circuit = CircuitRef {
                number: i + 1,
                id: entry_id(entry),
            };
            return Some((circuit, key));
        }
    }
    None
}
