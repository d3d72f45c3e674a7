//! The server, a relay and a circuit, each from its table.
ghost use Rattle.std.specs.Prelude.{ℕ, ◌+◌, ◌^◌, ◌≤◌, ◌<◌, List, IfOk, IfErr};
ghost use Rattle.toml.specs.View.{table_view};
ghost use Rattle.types.specs.Addr.{number4, number6};
ghost use Rattle.settings.specs.Broken.{IsServerUnfit, IsRelayUnfit, IsCircuitUnfit};
ghost use Rattle.settings.specs.Field.{Field, HasValue, IsThere};
ghost use Rattle.settings.specs.Keys.{HasCircuitKeys};
ghost use Rattle.settings.specs.Tables.{RelayKeys, server_keys, relay_keys, circuit_keys};
ghost use Rattle.settings.specs.Texts.{IsAddress, IsAddress6};
ghost use Rattle.settings.specs.Values.{IsNumber, IsNameAt, IsServer, IsRelay, IsCircuit};

use crate::limit_fault::CircuitLimit;
use crate::limits::{MAX_PREFIX4, MIN_PREFIX4};
use crate::lists::{addresses_at, duid_at, relay_at};
use crate::names::{CircuitKey, RelayKey, ServerKey};
use crate::pools::{is_within4, is_within6};
use crate::settings::{CircuitConfig, RelayConfig, ServerConfig};
use crate::values::{address_at, address6_at, id_at, name_at, number_at, source_at};
use toml::Table;
use types::{Addr4, Addr6, MAX_LEASE, MAX_POOL, MAX_REGION, MIN_LEASE};

/// The value at a key of the server or of a relay, or the key if the value is malformed.
macro_rules! value {
    ($value_at:ident, $table:ident, $key:path) => {
        match $value_at($table, $key) {
            Some(value) => value,
            None => return Err($key),
        }
    };
}

/// The value at a key of a circuit, or the fault that it is malformed.
macro_rules! formed {
    ($value_at:ident, $table:ident, $key:ident) => {
        match $value_at($table, CircuitKey::$key) {
            Some(value) => value,
            None => return Err(CircuitLimit::Form(CircuitKey::$key)),
        }
    };
}

/// The number at a key of a circuit, or the fault that it is outside its limits.
macro_rules! number {
    ($table:ident, $key:ident, $least:expr, $most:expr) => {
        match number_at($table, CircuitKey::$key, $least, $most) {
            Ok(number) => number,
            Err(outside) => return Err(CircuitLimit::Number(CircuitKey::$key, outside)),
        }
    };
}

/// The server's values, or a key whose value is malformed.
pub fn server_of(table: &Table) -> Result<ServerConfig, ServerKey>
    ensures ok { IfOk result (IsServer (server_keys (table_view table.now))) }
    ensures err { IfErr result (IsServerUnfit (server_keys (table_view table.now))) }
{
    let listen4 = value!(source_at, table, ServerKey::Listen4);
    let listen6 = value!(source_at, table, ServerKey::Listen6);
    let duid = value!(duid_at, table, ServerKey::Duid);
    Ok(ServerConfig {
        listen4,
        listen6,
        duid,
    })
}

/// A relay's values, or a key whose value is malformed.
pub fn relay_of(table: &Table) -> Result<RelayConfig, RelayKey>
    ensures ok { IfOk result (IsRelay (relay_keys (table_view table.now))) }
    ensures err { IfErr result (IsRelayUnfit (relay_keys (table_view table.now))) }
{
    let name = value!(name_at, table, RelayKey::Name);
    let source = value!(source_at, table, RelayKey::Source);
    Ok(RelayConfig { name, source })
}

/// The values of a circuit behind one of the relays, or what is wrong with one of them.
pub fn circuit_of(table: &Table, relays: &[RelayConfig]) -> Result<CircuitConfig, CircuitLimit>
    requires keys { (entries : List (Field RelayKeys)) × HasCircuitKeys entries (circuit_keys (table_view table.now)) }
    requires relay { (index : ℕ) × (index < 8) × HasValue (circuit_keys (table_view table.now)).relay (IsNameAt relays.now index) }
    ensures ok { IfOk result (IsCircuit relays.now (circuit_keys (table_view table.now))) }
    ensures err { IfErr result (IsCircuitUnfit (circuit_keys (table_view table.now))) }
{
    let id = formed!(id_at, table, Id);
    let Some(relay) = relay_at(table, CircuitKey::Relay, relays) else {
        unreachable!()
    };
    let region = number!(table, Region, 0, MAX_REGION);
    let lease = number!(table, Lease, MIN_LEASE, MAX_LEASE);
    let gateway4 = formed!(address_at, table, Gateway4);
    let prefix4 = number!(table, Prefix4, MIN_PREFIX4, MAX_PREFIX4);
    let (first4, count4) = pool4_of(table)?;
    let dns = formed!(addresses_at, table, Dns);
    let link6 = formed!(address6_at, table, Link6);
    let (first6, count6) = pool6_of(table)?;
    Ok(CircuitConfig {
        id,
        relay,
        region: region as u16,
        lease,
        gateway4,
        prefix4: prefix4 as u8,
        first4,
        count4,
        dns,
        link6,
        first6,
        count6,
    })
}

/// The first address of a circuit's DHCPv4 pool and how many it has.
fn pool4_of(table: &Table) -> Result<(Addr4, u8), CircuitLimit>
    requires { IsThere (circuit_keys (table_view table.now)).count4 }
    ensures ok { IfOk result (λ p.
        HasValue (circuit_keys (table_view table.now)).first4 (λ text. IsAddress text p.0)
        × IsNumber (circuit_keys (table_view table.now)).count4 1 16 p.1 × (number4 p.0 + p.1 ≤ 2 ^ 32)) }
    ensures err { IfErr result (IsCircuitUnfit (circuit_keys (table_view table.now))) }
{
    let first = formed!(address_at, table, First4);
    let count = number!(table, Count4, 1, MAX_POOL as u32);
    if !is_within4(first, count as u8) {
        return Err(CircuitLimit::PastLast4);
    }
    Ok((first, count as u8))
}

/// The first address of a circuit's DHCPv6 pool and how many it has.
fn pool6_of(table: &Table) -> Result<(Addr6, u8), CircuitLimit>
    requires { IsThere (circuit_keys (table_view table.now)).count6 }
    ensures ok { IfOk result (λ p.
        HasValue (circuit_keys (table_view table.now)).first6 (λ text. IsAddress6 text p.0)
        × IsNumber (circuit_keys (table_view table.now)).count6 1 16 p.1 × (number6 p.0 + p.1 ≤ 2 ^ 128)) }
    ensures err { IfErr result (IsCircuitUnfit (circuit_keys (table_view table.now))) }
{
    let first = formed!(address6_at, table, First6);
    let count = number!(table, Count6, 1, MAX_POOL as u32);
    if !is_within6(first, count as u8) {
        return Err(CircuitLimit::PastLast6);
    }
    Ok((first, count as u8))
}
