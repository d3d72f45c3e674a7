//! The rules about a configuration's values, for any number of relays and circuits.
ghost use Rattle.std.specs.Prelude.{◌≡◌, ◌≢◌, ◌+◌, ◌<◌, List, length, slice_get, All, AllPairs, Some, OnOk, IfErr, IfSome, IfNone};
ghost use Rattle.config.specs.Broken.{AreSame, AreTwo, AreTwoRelays, HasSource, IsGatewayInPool, IsOffSubnet};
ghost use Rattle.config.specs.Rules.{IsOnSubnet, NamesDiffer, GatewaysOutside, CircuitsApart, KeepsRules};
ghost use Rattle.settings.specs.Settings.{Settings, IsWithinLimits};
ghost use Rattle.config.specs.Valid.{IsLeastOfCircuits, IsLeastRule};

use crate::pairs::{Relation, first_of_all, first_pair, first_related};
use crate::relations::{
    GatewayInPool4, IsSourceOf, LinkInPool6, SameId, SameRegion, SameRelayName, SameSource,
    SharedPool4, SharedPool6,
};
use crate::subnets::off_subnet;
use settings::{
    CircuitConfig, CircuitKey, CircuitRef, ConfigFault, RelayConfig, SameName, ServerConfig,
};
use types::Source;

/// A circuit of the list, by its number and its id.
fn circuit_ref(circuits: &[CircuitConfig], index: usize) -> CircuitRef
    requires { index < length circuits.now }
    ensures number { result.number ≡ index + 1 }
    ensures id { (c : CircuitConfig) → slice_get circuits.now index ≡ Some c → result.id ≡ Some c.id }
{
    CircuitRef {
        number: index + 1,
        id: Some(circuits[index].id.copy()),
    }
}

/// Two circuits that are related, the first before the second.
fn two_circuits<R: Relation<CircuitConfig, CircuitConfig>>(
    circuits: &[CircuitConfig],
) -> Option<(CircuitRef, CircuitRef)>
    ensures some { IfSome result (λ two. (s : Settings) → s.circuits ≡ circuits.now → AreTwo s two.0 two.1 R.related) }
    ensures none { IfNone result (AllPairs (λ c d. ¬ R.related c d) circuits.now) }
{
    let (first, second) = first_pair::<CircuitConfig, R>(circuits)?;
    Some((circuit_ref(circuits, first), circuit_ref(circuits, second)))
}

/// The numbers of two relays that are related, the lower one first.
fn two_relays<R: Relation<RelayConfig, RelayConfig>>(
    relays: &[RelayConfig],
) -> Option<(usize, usize)>
    ensures some { IfSome result (λ two. (s : Settings) → s.relays ≡ relays.now → AreTwoRelays s two.0 two.1 R.related) }
    ensures none { IfNone result (AllPairs (λ r q. ¬ R.related r q) relays.now) }
{
    let (first, second) = first_pair::<RelayConfig, R>(relays)?;
    Some((first + 1, second + 1))
}

/// The number of a relay with this source.
fn relay_of(relays: &[RelayConfig], source: &Source) -> Option<usize>
    ensures some { IfSome result (λ number. (s : Settings) → s.relays ≡ relays.now → HasSource s number source.now) }
    ensures none { IfNone result (All (λ r. r.source ≢ source.now) relays.now) }
{
    let index = first_related::<Source, RelayConfig, IsSourceOf>(source, relays, 0)?;
    Some(index + 1)
}

/// Rule 44: two ids, two relays' names, or two of the sources and the server's addresses that are the
/// same. The variants of `SameName` are tried in their order.
fn same_name(
    server: &ServerConfig,
    relays: &[RelayConfig],
    circuits: &[CircuitConfig],
) -> Option<SameName>
    ensures some { IfSome result (AreSame (record { server = server.now; relays = relays.now; circuits = circuits.now })) }
    ensures none { IfNone result (NamesDiffer (record { server = server.now; relays = relays.now; circuits = circuits.now })) }
{
    if let Some((first, second)) = two_circuits::<SameId>(circuits) {
        return Some(SameName::Ids(first, second));
    }
    if let Some((first, second)) = two_relays::<SameRelayName>(relays) {
        return Some(SameName::Names(first, second));
    }
    if let Some((first, second)) = two_relays::<SameSource>(relays) {
        return Some(SameName::Sources(first, second));
    }
    if server.listen4 == server.listen6 {
        return Some(SameName::Listens);
    }
    if let Some(relay) = relay_of(relays, &server.listen4) {
        return Some(SameName::Listen4(relay));
    }
    if let Some(relay) = relay_of(relays, &server.listen6) {
        return Some(SameName::Listen6(relay));
    }
    None
}

/// Rule 48: a circuit, the key of its gateway or its link address, and the circuit whose pool contains it.
fn gateway_in_pool(circuits: &[CircuitConfig]) -> Option<(CircuitRef, CircuitKey, CircuitRef)>
    ensures some { IfSome result (λ found. (s : Settings) → s.circuits ≡ circuits.now → IsGatewayInPool s found.0 found.1 found.2) }
    ensures none { IfNone result ((s : Settings) → s.circuits ≡ circuits.now → GatewaysOutside s) }
{
    if let Some((first, second)) = first_of_all::<CircuitConfig, GatewayInPool4>(circuits) {
        let (circuit, owner) = (circuit_ref(circuits, first), circuit_ref(circuits, second));
        return Some((circuit, CircuitKey::Gateway4, owner));
    }
    if let Some((first, second)) = first_of_all::<CircuitConfig, LinkInPool6>(circuits) {
        let (circuit, owner) = (circuit_ref(circuits, first), circuit_ref(circuits, second));
        return Some((circuit, CircuitKey::Link6, owner));
    }
    None
}

/// Rule 49: a circuit, and the key of its gateway or of its pool, whichever is off its subnet.
fn circuit_off_subnet(circuits: &[CircuitConfig]) -> Option<(CircuitRef, CircuitKey)>
    requires limits { (relays : List RelayConfig) × All (IsWithinLimits relays) circuits.now }
    ensures some { IfSome result (λ found. (s : Settings) → s.circuits ≡ circuits.now → IsOffSubnet s found.0 found.1) }
    ensures none { IfNone result (All IsOnSubnet circuits.now) }
{
    for index in 0..circuits.len() {
        if let Some(key) = off_subnet(&circuits[index]) {
            return Some((circuit_ref(circuits, index), key));
        }
    }
    None
}

/// Rules 45 to 48 between circuits, in their order: the lowest that is broken, and the circuits that break
/// it.
pub fn circuit_rules(circuits: &[CircuitConfig]) -> Result<(), ConfigFault>
    ensures ok { OnOk result ((s : Settings) → s.circuits ≡ circuits.now → CircuitsApart s) }
    ensures err { IfErr result (λ fault. (s : Settings) → s.circuits ≡ circuits.now → IsLeastOfCircuits s fault) }
{
    if let Some((first, second)) = two_circuits::<SameRegion>(circuits) {
        return Err(ConfigFault::RegionTwice(first, second));
    }
    if let Some((first, second)) = two_circuits::<SharedPool4>(circuits) {
        return Err(ConfigFault::Overlap4(first, second));
    }
    if let Some((first, second)) = two_circuits::<SharedPool6>(circuits) {
        return Err(ConfigFault::Overlap6(first, second));
    }
    if let Some((circuit, key, owner)) = gateway_in_pool(circuits) {
        return Err(ConfigFault::GatewayInPool(circuit, key, owner));
    }
    Ok(())
}

/// Rules 44 to 49 about the values of the server, its relays and its circuits, in their order: the lowest
/// that is broken, and the entries that break it.
pub fn rules(
    server: &ServerConfig,
    relays: &[RelayConfig],
    circuits: &[CircuitConfig],
) -> Result<(), ConfigFault>
    requires limits { All (IsWithinLimits relays.now) circuits.now }
    ensures ok { OnOk result (KeepsRules (record { server = server.now; relays = relays.now; circuits = circuits.now })) }
    ensures err { IfErr result (IsLeastRule (record { server = server.now; relays = relays.now; circuits = circuits.now })) }
{
    if let Some(same) = same_name(server, relays, circuits) {
        return Err(ConfigFault::IdTwice(same));
    }
    if let Err(fault) = circuit_rules(circuits) {
        return Err(fault);
    }
    if let Some((circuit, key)) = circuit_off_subnet(circuits) {
        return Err(ConfigFault::OffSubnet(circuit, key));
    }
    Ok(())
}
