//! Whether a circuit's addresses are host addresses in its subnets.
ghost use Rattle.std.specs.Prelude.{◌≡◌, ◌≢◌, ℕ, ◌+◌, ◌/◌, ◌^◌, ◌≤◌, ◌↔◌, IsTrue, IfSome, IfNone};
ghost use Rattle.std.specs.Bool.{OnTrue, OnFalse};
ghost use Rattle.types.specs.Addr.{number4, number6};
ghost use Rattle.config.specs.Broken.{IsCircuitOf, IsOffSubnet};
ghost use Rattle.config.specs.Rules.{IsInPool4, IsInPool6, IsHost, IsOnSubnet};
ghost use Rattle.settings.specs.Settings.{Settings};

use settings::{CircuitConfig, CircuitKey, CircuitRef};

/// Whether an address is a host address in the gateway's subnet.
fn is_host(address: u64, gateway: u64, prefix: u8) -> bool
    requires { prefix ≤ 30 }
    ensures { IsTrue result ↔ IsHost prefix gateway address }
{
    let size = 2u64.pow(32 - u32::from(prefix));
    address / size == gateway / size && address % size != 0 && address % size != size - 1
}

/// Whether the gateway is a host address in its own subnet.
fn has_host_gateway(circuit: &CircuitConfig) -> bool
    requires prefix { circuit.now.prefix4 ≤ 30 }
    ensures { IsTrue result ↔ IsHost circuit.now.prefix4 (number4 circuit.now.gateway4) (number4 circuit.now.gateway4) }
{
    let gateway = u64::from(circuit.gateway4.number());
    is_host(gateway, gateway, circuit.prefix4)
}

/// Whether every address of the DHCPv4 pool is a host address in the gateway's subnet.
fn has_host_pool(circuit: &CircuitConfig) -> bool
    requires prefix { circuit.now.prefix4 ≤ 30 }
    ensures all { OnTrue result ((n : ℕ) → IsInPool4 circuit.now n → IsHost circuit.now.prefix4 (number4 circuit.now.gateway4) n) }
    ensures one { OnFalse result ((n : ℕ) × IsInPool4 circuit.now n × ¬ IsHost circuit.now.prefix4 (number4 circuit.now.gateway4) n) }
{
    let first = u64::from(circuit.first4.number());
    let gateway = u64::from(circuit.gateway4.number());
    for slot in 0..u64::from(circuit.count4) {
        if !is_host(first + slot, gateway, circuit.prefix4) {
            return false;
        }
    }
    true
}

/// Whether every address of the DHCPv6 pool has the link's first 64 bits.
fn is_on_link6(circuit: &CircuitConfig) -> bool
    requires within { number6 circuit.now.first6 + circuit.now.count6 ≤ 2 ^ 128 }
    ensures all { OnTrue result ((n : ℕ) → IsInPool6 circuit.now n → n / 2 ^ 64 ≡ number6 circuit.now.link6 / 2 ^ 64) }
    ensures one { OnFalse result ((n : ℕ) × IsInPool6 circuit.now n × (n / 2 ^ 64 ≢ number6 circuit.now.link6 / 2 ^ 64)) }
{
    let first = circuit.first6.number();
    let link = circuit.link6.number();
    for slot in 0..u128::from(circuit.count6) {
        if (first + slot) / LINK_SIZE != link / LINK_SIZE {
            return false;
        }
    }
    true
}

/// How many addresses share the first 64 bits.
const LINK_SIZE: u128 = 1 << 64;

/// The key of the gateway or of the pool that is off the circuit's subnet.
pub fn off_subnet(circuit: &CircuitConfig) -> Option<CircuitKey>
    requires prefix { circuit.now.prefix4 ≤ 30 }
    requires within { number6 circuit.now.first6 + circuit.now.count6 ≤ 2 ^ 128 }
    ensures none { IfNone result (IsOnSubnet circuit.now) }
    ensures some { IfSome result (λ key. (s : Settings) (named : CircuitRef) → IsCircuitOf s named circuit.now → IsOffSubnet s named key) }
{
    if !has_host_gateway(circuit) {
        return Some(CircuitKey::Gateway4);
    }
    if !has_host_pool(circuit) {
        return Some(CircuitKey::First4);
    }
    if !is_on_link6(circuit) {
        return Some(CircuitKey::First6);
    }
    None
}
