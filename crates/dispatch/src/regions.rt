//! How many regions a configuration needs.
ghost use Rattle.std.specs.Prelude.{◌≡◌, ◌<◌, ◌≤◌, ◌+◌, ℕ, Some, slice_get};
ghost use Rattle.settings.specs.declared.settings.CircuitConfig.{CircuitConfig};

use config::Config;
use types::Circuit;

/// How many regions a device needs to have those of all circuits: one more than the greatest number.
pub fn region_count(config: &Config) -> u16
    ensures enough { (c : ℕ) (circuit : CircuitConfig) → slice_get config.now.circuits c ≡ Some circuit → circuit.region < result }
    ensures no_more { (c : ℕ) × (circuit : CircuitConfig) × (slice_get config.now.circuits c ≡ Some circuit)
        × (circuit.region + 1 ≡ result) }
    ensures most { result ≤ 1024 }
{
    let mut regions = 0;
    for index in 0..config.circuit_count() {
        let circuit = Circuit::at(index);
        let needed = config.at(circuit).region + 1;
        if needed > regions {
            regions = needed;
        }
    }
    regions
}
