//! What two relays, or two circuits, may not have in common.
ghost use Rattle.std.specs.Prelude.{◌≡◌, ℕ, ◌+◌, ◌≤◌, ◌<◌, ◌↔◌, IsTrue};
ghost use Rattle.types.specs.Addr.{number4, number6};
ghost use Rattle.config.specs.Rules.{IsInPool4, IsInPool6};

use crate::pairs::Relation;
use settings::{CircuitConfig, RelayConfig};
use types::Source;

/// Two circuits have the same id.
pub struct SameId;

impl Relation<CircuitConfig, CircuitConfig> for SameId {
    ghost related = { λ c d. c.id ≡ d.id };

    fn holds(one: &CircuitConfig, other: &CircuitConfig) -> bool {
        one.id == other.id
    }
}

/// Two circuits have the same region.
pub struct SameRegion;

impl Relation<CircuitConfig, CircuitConfig> for SameRegion {
    ghost related = { λ c d. c.region ≡ d.region };

    fn holds(one: &CircuitConfig, other: &CircuitConfig) -> bool {
        one.region == other.region
    }
}

/// Whether two runs of numbers, each given by its first and its length, have a number in common.
fn overlap(first: u128, count: u8, second: u128, other: u8) -> bool
    ensures { IsTrue result ↔ ((n : ℕ) × ((first ≤ n) × (n < first + count)) × ((second ≤ n) × (n < second + other))) }
{
    if first <= second {
        second - first < u128::from(count) && other > 0
    } else {
        first - second < u128::from(other) && count > 0
    }
}

/// Two circuits' DHCPv4 pools share an address.
pub struct SharedPool4;

impl Relation<CircuitConfig, CircuitConfig> for SharedPool4 {
    ghost related = { λ c d. (n : ℕ) × IsInPool4 c n × IsInPool4 d n };

    fn holds(one: &CircuitConfig, other: &CircuitConfig) -> bool {
        let first = u128::from(one.first4.number());
        let second = u128::from(other.first4.number());
        overlap(first, one.count4, second, other.count4)
    }
}

/// Two circuits' DHCPv6 pools share an address.
pub struct SharedPool6;

impl Relation<CircuitConfig, CircuitConfig> for SharedPool6 {
    ghost related = { λ c d. (n : ℕ) × IsInPool6 c n × IsInPool6 d n };

    fn holds(one: &CircuitConfig, other: &CircuitConfig) -> bool {
        let first = one.first6.number();
        let second = other.first6.number();
        overlap(first, one.count6, second, other.count6)
    }
}

/// The gateway of one circuit is in the other's DHCPv4 pool.
pub struct GatewayInPool4;

impl Relation<CircuitConfig, CircuitConfig> for GatewayInPool4 {
    ghost related = { λ c d. IsInPool4 d (number4 c.gateway4) };

    fn holds(one: &CircuitConfig, other: &CircuitConfig) -> bool {
        let first = u64::from(other.first4.number());
        let gateway = u64::from(one.gateway4.number());
        first <= gateway && gateway < first + u64::from(other.count4)
    }
}

/// The link address of one circuit is in the other's DHCPv6 pool.
pub struct LinkInPool6;

impl Relation<CircuitConfig, CircuitConfig> for LinkInPool6 {
    ghost related = { λ c d. IsInPool6 d (number6 c.link6) };

    fn holds(one: &CircuitConfig, other: &CircuitConfig) -> bool {
        let first = other.first6.number();
        let link = one.link6.number();
        first <= link && link - first < u128::from(other.count6)
    }
}

/// Two relays have the same name.
pub struct SameRelayName;

impl Relation<RelayConfig, RelayConfig> for SameRelayName {
    ghost related = { λ r q. r.name.items ≡ q.name.items };

    fn holds(one: &RelayConfig, other: &RelayConfig) -> bool {
        one.name.as_slice() == other.name.as_slice()
    }
}

/// Two relays have the same source.
pub struct SameSource;

impl Relation<RelayConfig, RelayConfig> for SameSource {
    ghost related = { λ r q. r.source ≡ q.source };

    fn holds(one: &RelayConfig, other: &RelayConfig) -> bool {
        one.source == other.source
    }
}

/// An address of the server is a relay's source.
pub struct IsSourceOf;

impl Relation<Source, RelayConfig> for IsSourceOf {
    ghost related = { λ address relay. relay.source ≡ address };

    fn holds(one: &Source, other: &RelayConfig) -> bool {
        other.source == *one
    }
}
