//! What differs between configurations of one server.
ghost use Rattle.std.specs.Prelude.{◌≡◌, ◌↔◌, ◌<◌, ℕ, length, slice_index_or, All, AllPairs, IfSome, IfNone, IsTrue};
ghost use Rattle.settings.specs.Settings.{Settings};
ghost use Rattle.config.specs.Differences.{SharesServer, CircuitsAgree, ServerKeyDiffers, RelayKeyDiffers};
ghost use Rattle.config.specs.Differences.{CircuitKeyDiffers, RelayDiffers, PartDiffers, IsServerDifference};
ghost use Rattle.config.specs.Differences.{IsDifferentIn, CircuitDiffers, IsCircuitDifference};

use crate::config::Config;
use settings::{
    CircuitConfig, CircuitDifference, CircuitKey, RelayConfig, RelayKey, ServerConfig,
    ServerDifference, ServerKey, ServerPart,
};
use types::{Addr4, CircuitId};

/// The first key at which two servers' values differ.
fn server_key(first: &ServerConfig, other: &ServerConfig) -> Option<ServerKey>
    ensures some { IfSome result (ServerKeyDiffers first.now other.now) }
    ensures none { IfNone result (other.now ≡ first.now) }
{
    if first.listen4 != other.listen4 {
        return Some(ServerKey::Listen4);
    }
    if first.listen6 != other.listen6 {
        return Some(ServerKey::Listen6);
    }
    if first.duid.as_slice() != other.duid.as_slice() {
        return Some(ServerKey::Duid);
    }
    None
}

/// The first key at which two relays' values differ.
fn relay_key(first: &RelayConfig, other: &RelayConfig) -> Option<RelayKey>
    ensures some { IfSome result (RelayKeyDiffers first.now other.now) }
    ensures none { IfNone result (other.now ≡ first.now) }
{
    if first.name.as_slice() != other.name.as_slice() {
        return Some(RelayKey::Name);
    }
    if first.source != other.source {
        return Some(RelayKey::Source);
    }
    None
}

/// Whether two lists of addresses are the same.
fn same_addresses(one: &[Addr4], other: &[Addr4]) -> bool
    ensures { IsTrue result ↔ (one.now ≡ other.now) }
{
    one == other
}

/// The first key at which the values of two circuits of one id differ.
fn circuit_key(one: &CircuitConfig, other: &CircuitConfig) -> Option<CircuitKey>
    requires { one.now.id ≡ other.now.id }
    ensures some { IfSome result (CircuitKeyDiffers one.now other.now) }
    ensures none { IfNone result (one.now ≡ other.now) }
{
    if one.relay != other.relay {
        return Some(CircuitKey::Relay);
    }
    if one.region != other.region {
        return Some(CircuitKey::Region);
    }
    if one.lease != other.lease {
        return Some(CircuitKey::Lease);
    }
    if one.gateway4 != other.gateway4 {
        return Some(CircuitKey::Gateway4);
    }
    if one.prefix4 != other.prefix4 {
        return Some(CircuitKey::Prefix4);
    }
    if one.first4 != other.first4 {
        return Some(CircuitKey::First4);
    }
    if one.count4 != other.count4 {
        return Some(CircuitKey::Count4);
    }
    if !same_addresses(one.dns.as_slice(), other.dns.as_slice()) {
        return Some(CircuitKey::Dns);
    }
    if one.link6 != other.link6 {
        return Some(CircuitKey::Link6);
    }
    if one.first6 != other.first6 {
        return Some(CircuitKey::First6);
    }
    if one.count6 != other.count6 {
        return Some(CircuitKey::Count6);
    }
    None
}

/// The first of as many relays that differs: its number, counted from 1, and the key.
fn relay(first: &[RelayConfig], other: &[RelayConfig]) -> Option<(usize, RelayKey)>
    requires { length other.now ≡ length first.now }
    ensures some { IfSome result (λ found. RelayDiffers first.now other.now found.0 found.1) }
    ensures none { IfNone result (other.now ≡ first.now) }
{
    for index in 0..first.len() {
        if let Some(key) = relay_key(&first[index], &other[index]) {
            return Some((index + 1, key));
        }
    }
    None
}

/// What differs of the server or the relays: a key of the server, how many relays there are, or a key of
/// one.
fn server_part(first: &Config, other: &Config) -> Option<ServerPart>
    ensures some { IfSome result (PartDiffers first.now other.now) }
    ensures none { IfNone result (SharesServer first.now other.now) }
{
    if let Some(key) = server_key(first.server(), other.server()) {
        return Some(ServerPart::Server(key));
    }
    let (count, of_first) = (other.relay_count(), first.relay_count());
    if count != of_first {
        return Some(ServerPart::RelayCount(count, of_first));
    }
    if let Some((number, key)) = relay(first.relays(), other.relays()) {
        return Some(ServerPart::Relay(number, key));
    }
    None
}

/// The first configuration whose server or relays are not those of the first.
pub fn server_difference(configs: &[Config]) -> Option<ServerDifference>
    ensures some { IfSome result (IsServerDifference configs.now) }
    ensures none { IfNone result (AllPairs SharesServer configs.now) }
{
    for index in 1..configs.len() {
        if let Some(part) = server_part(&configs[0], &configs[index]) {
            let number = index + 1;
            return Some(ServerDifference { number, part });
        }
    }
    None
}

/// The key at which a circuit differs from the configuration's of its id, if it has one.
fn difference_from(config: &Config, circuit: &CircuitConfig) -> Option<CircuitKey>
    ensures some { IfSome result (IsDifferentIn config.now circuit.now) }
    ensures none { IfNone result (All (λ c. c.id ≡ circuit.now.id → c ≡ circuit.now) config.now.circuits) }
{
    circuit_key(config.at(config.circuit(&circuit.id)?), circuit)
}

/// The id of a circuit that both configurations have, and a key at which it differs.
fn circuit(one: &Config, other: &Config) -> Option<(CircuitId, CircuitKey)>
    ensures some { IfSome result (λ found. CircuitDiffers one.now other.now found.0 found.1) }
    ensures none { IfNone result (CircuitsAgree one.now other.now) }
{
    let circuits = other.circuits();
    for index in 0..circuits.len() {
        if let Some(key) = difference_from(one, &circuits[index]) {
            return Some((circuits[index].id.copy(), key));
        }
    }
    None
}

/// A circuit that differs between a configuration and one before it.
fn difference_before(configs: &[Config], other: usize) -> Option<CircuitDifference>
    requires { other < length configs.now }
    ensures some { IfSome result (IsCircuitDifference configs.now) }
    ensures none { IfNone result ((k : ℕ) (d : Settings) → k < other
        → CircuitsAgree (slice_index_or configs.now k d) (slice_index_or configs.now other d)) }
{
    for one in 0..other {
        if let Some((id, key)) = circuit(&configs[one], &configs[other]) {
            let (one, other) = (one + 1, other + 1);
            return Some(CircuitDifference {
                id,
                key,
                one,
                other,
            });
        }
    }
    None
}

/// A circuit that differs between two of the configurations.
pub fn circuit_difference(configs: &[Config]) -> Option<CircuitDifference>
    ensures some { IfSome result (IsCircuitDifference configs.now) }
    ensures none { IfNone result (AllPairs CircuitsAgree configs.now) }
{
    for other in 0..configs.len() {
        if let Some(difference) = difference_before(configs, other) {
            return Some(difference);
        }
    }
    None
}
