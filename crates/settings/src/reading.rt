//! From a text's tables to the values of its relays and circuits.
ghost use Rattle.std.specs.Prelude.{◌≡◌, ◌≤◌, List, length, All, Some, IfOk, IfErr};
ghost use Rattle.toml.specs.Data.{Items, Members};
ghost use Rattle.toml.specs.View.{view, items_view, table_view};
ghost use Rattle.types.specs.declared.limits.TheConstants.{MAX_RELAYS, MAX_CIRCUITS};
ghost use Rattle.settings.specs.Field.{Field, HasValue, each};
ghost use Rattle.settings.specs.Broken.{IsMissing, IsRelayUnfit, IsCircuitUnfit};
ghost use Rattle.settings.specs.Keys.{AllThere, HasAll, HasRelayKeys, HasCircuitKeys};
ghost use Rattle.settings.specs.Settings.{IsServerWithinLimits, IsRelayWithinLimits, IsWithinLimits};
ghost use Rattle.settings.specs.Tables.{RelayKeys, relay_entry, circuit_entry, tables_of, found_tables};
ghost use Rattle.settings.specs.Read.{EachReads, IsRead, IsUnread};
ghost use Rattle.settings.specs.Values.{IsRelay, IsCircuit};

use crate::entries::{circuit_of, relay_of, server_of};
use crate::fault::{ConfigFault, Location};
use crate::keys::{circuits_lack, entry_id, relays_lack, server_lacks};
use crate::limit_fault::{CircuitLimit, LimitFault};
use crate::lookup::{list_at, table_at};
use crate::names::{CircuitRef, RelayKey, TableName};
use crate::settings::{CircuitConfig, RelayConfig, ServerConfig};
use std::alloc::Global;
use toml::{Table, Value};
use types::{MAX_CIRCUITS, MAX_RELAYS};

/// The tables of a text, which have every key.
#[derive(Clone, Copy)]
pub struct TextTables<'a> {
    pub server: &'a Table,
    pub relays: &'a [Value],
    pub circuits: &'a [Value],
}

/// The tables of a text, or the location of a table or key that is missing or of the wrong type.
pub fn tables_in<'a>(doc: &'a Table) -> Result<TextTables<'a>, Location>
    ensures tables { IfOk result (λ f.
        tables_of (table_view doc.now)
        ≡ found_tables (table_view f.server.now) (items_view f.relays.now) (items_view f.circuits.now)) }
    ensures all { IfOk result (λ _. HasAll (tables_of (table_view doc.now))) }
    ensures lacks { IfErr result (IsMissing (tables_of (table_view doc.now))) }
{
    let Some(server) = table_at(doc, TableName::Server) else {
        return Err(Location::Table(TableName::Server));
    };
    if let Some(key) = server_lacks(server) {
        return Err(Location::Server(key));
    }
    let Some(relays) = list_at(doc, TableName::Relay) else {
        return Err(Location::Table(TableName::Relay));
    };
    let relays = relays.as_slice();
    if let Some((number, key)) = relays_lack(relays) {
        return Err(Location::Relay(number, key));
    }
    let Some(circuits) = list_at(doc, TableName::Circuit) else {
        return Err(Location::Table(TableName::Circuit));
    };
    let circuits = circuits.as_slice();
    if let Some((circuit, key)) = circuits_lack(circuits, relays) {
        return Err(Location::Circuit(circuit, key));
    }
    Ok(TextTables {
        server,
        relays,
        circuits,
    })
}

/// The values of the server, the relays and the circuits.
#[derive(Drop)]
pub struct Values {
    pub server: ServerConfig,
    pub relays: Vec<RelayConfig>,
    pub circuits: Vec<CircuitConfig>,
}

/// The values of an entry in the array of relays, or a key whose value is malformed.
fn relay_in(entry: &Value) -> Result<RelayConfig, RelayKey>
    requires { HasValue (relay_entry (Some (view entry.now))) HasRelayKeys }
    ensures ok { IfOk result (λ relay. HasValue (relay_entry (Some (view entry.now))) (λ keys. IsRelay keys relay)) }
    ensures err { IfErr result (λ key. HasValue (relay_entry (Some (view entry.now))) (λ keys. IsRelayUnfit keys key)) }
{
    match entry.as_table() {
        Some(relay) => relay_of(relay),
        None => unreachable!(),
    }
}

/// The values of an entry in the array of circuits, or what is wrong with one of them.
fn circuit_in(entry: &Value, relays: &[RelayConfig]) -> Result<CircuitConfig, CircuitLimit>
    requires few { length relays.now ≤ 8 }
    requires keys { (names : List (Field RelayKeys)) × EachReads IsRelay names relays.now
        × HasValue (circuit_entry (Some (view entry.now))) (HasCircuitKeys names) }
    ensures ok { IfOk result (λ circuit. HasValue (circuit_entry (Some (view entry.now))) (λ keys. IsCircuit relays.now keys circuit)) }
    ensures err { IfErr result (λ limit. HasValue (circuit_entry (Some (view entry.now))) (λ keys. IsCircuitUnfit keys limit)) }
{
    match entry.as_table() {
        Some(circuit) => circuit_of(circuit, relays),
        None => unreachable!(),
    }
}

/// The values of each relay, in order, or the first relay that has one outside its limits.
fn relays_in(alloc: Global, entries: &[Value]) -> Result<Vec<RelayConfig>, ConfigFault>
    requires { AllThere HasRelayKeys (each relay_entry (items_view entries.now)) }
    ensures read { IfOk result (λ relays. EachReads IsRelay (each relay_entry (items_view entries.now)) relays.items) }
    ensures some { IfOk result (λ relays. 1 ≤ length relays.items) }
    ensures few { IfOk result (λ relays. length relays.items ≤ 8) }
    ensures unread { IfErr result (λ fault.
        (server : Members) (circuits : Items)
        → IsUnread (found_tables server (items_view entries.now) circuits) fault) }
{
    let count = entries.len();
    if count < 1 || MAX_RELAYS < count {
        return Err(ConfigFault::Limit(LimitFault::Relays(count)));
    }
    let Ok(mut relays) = Vec::with_capacity(alloc, count) else {
        return Err(ConfigFault::Memory);
    };
    for (i, entry) in entries.iter().enumerate() {
        let relay = match relay_in(entry) {
            Ok(relay) => relay,
            Err(key) => return Err(ConfigFault::Limit(LimitFault::Relay(i + 1, key))),
        };
        if relays.push(relay).is_err() {
            return Err(ConfigFault::Memory);
        }
    }
    Ok(relays)
}

/// The values of each circuit, in order, or the first circuit that has one outside its limits.
fn circuits_in(
    alloc: Global,
    entries: &[Value],
    relays: &[RelayConfig],
) -> Result<Vec<CircuitConfig>, ConfigFault>
    requires few { length relays.now ≤ 8 }
    requires keys { (names : List (Field RelayKeys)) × EachReads IsRelay names relays.now
        × AllThere (HasCircuitKeys names) (each circuit_entry (items_view entries.now)) }
    ensures read { IfOk result (λ circuits. EachReads (IsCircuit relays.now) (each circuit_entry (items_view entries.now)) circuits.items) }
    ensures some { IfOk result (λ circuits. 1 ≤ length circuits.items) }
    ensures few { IfOk result (λ circuits. length circuits.items ≤ 1024) }
    ensures unread { IfErr result (λ fault.
        (server : Members) (names : Items) → IsUnread (found_tables server names (items_view entries.now)) fault) }
{
    let count = entries.len();
    if count < 1 || MAX_CIRCUITS < count {
        return Err(ConfigFault::Limit(LimitFault::Circuits(count)));
    }
    let Ok(mut circuits) = Vec::with_capacity(alloc, count) else {
        return Err(ConfigFault::Memory);
    };
    for (i, entry) in entries.iter().enumerate() {
        let circuit = match circuit_in(entry, relays) {
            Ok(circuit) => circuit,
            Err(limit) => {
                let number = i + 1;
                let id = entry_id(entry);
                let circuit = CircuitRef { number, id };
                return Err(ConfigFault::Limit(LimitFault::Circuit(circuit, limit)));
            }
        };
        if circuits.push(circuit).is_err() {
            return Err(ConfigFault::Memory);
        }
    }
    Ok(circuits)
}

/// The values of tables that have every key, or the first fault: a value, or a number of entries, outside
/// its limits, or out of memory.
pub fn values_in(
    alloc: Global,
    server: &Table,
    relays: &[Value],
    circuits: &[Value],
) -> Result<Values, ConfigFault>
    requires { HasAll (found_tables (table_view server.now) (items_view relays.now) (items_view circuits.now)) }
    ensures read { IfOk result (λ v.
        IsRead (found_tables (table_view server.now) (items_view relays.now) (items_view circuits.now))
        (record { server = v.server; relays = v.relays.items; circuits = v.circuits.items })) }
    ensures server { IfOk result (λ v. IsServerWithinLimits v.server) }
    ensures relays { IfOk result (λ v. All IsRelayWithinLimits v.relays.items) }
    ensures circuits { IfOk result (λ v. All (IsWithinLimits v.relays.items) v.circuits.items) }
    ensures unread { IfErr result (IsUnread (found_tables (table_view server.now) (items_view relays.now) (items_view circuits.now))) }
{
    let server = match server_of(server) {
        Ok(server) => server,
        Err(key) => return Err(ConfigFault::Limit(LimitFault::Server(key))),
    };
    let relays = match relays_in(alloc, relays) {
        Ok(relays) => relays,
        Err(fault) => return Err(fault),
    };
    let circuits = match circuits_in(alloc, circuits, &relays) {
        Ok(circuits) => circuits,
        Err(fault) => return Err(fault),
    };
    Ok(Values {
        server,
        relays,
        circuits,
    })
}
