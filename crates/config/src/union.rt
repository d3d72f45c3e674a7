//! Several configurations of one server, taken together.
ghost use Rattle.std.specs.Prelude.{◌≡◌, ◌≤◌, ◌++◌, ◌∷◌, [], List, length, map, flat_map, All, AllPairs, IfOk, IfErr, OnOk};
ghost use Rattle.settings.specs.declared.settings.CircuitConfig.{CircuitConfig};
ghost use Rattle.config.specs.Differences.{SharesServer};
ghost use Rattle.config.specs.Plans.{IsUnionFault};
ghost use Rattle.config.specs.Rules.{IsSound};
ghost use Rattle.config.specs.Union.{each_once, IsUnion};

use crate::circuit_index::CircuitIndex;
use crate::config::Config;
use crate::rules::circuit_rules;
use settings::{CircuitConfig, ConfigFault, LimitFault, RelayConfig, Values};
use std::alloc::{AllocError, Global};
use types::MAX_CIRCUITS;

/// A copy of relays, in their order; an error where memory is refused.
fn copy_relays(alloc: Global, relays: &[RelayConfig]) -> Result<Vec<RelayConfig>, AllocError>
    ensures { IfOk result (λ copy. copy.items ≡ relays.now) }
{
    let mut copy = Vec::with_capacity(alloc, relays.len())?;
    for relay in relays {
        copy.push(relay.copy())?;
    }
    Ok(copy)
}

/// Adds a copy of a circuit, unless there is one of its id; an error where memory is refused.
fn add(
    circuits: &mut Vec<CircuitConfig>,
    index: &mut CircuitIndex,
    circuit: &CircuitConfig,
) -> Result<(), AllocError>
    requires { index.old ≡ map (λ c. c.id) circuits.old.items }
    ensures index { OnOk result (index.new ≡ map (λ c. c.id) circuits.new.items) }
    ensures once { OnOk result ((before : List CircuitConfig) → circuits.old.items ≡ each_once before
        → circuits.new.items ≡ each_once (before ++ circuit.now ∷ [])) }
{
    if index.add(circuit.id.copy())? {
        circuits.push(circuit.copy())?;
    }
    Ok(())
}

/// Adds a copy of each of these circuits of whose id there is none yet; an error where memory is refused.
fn add_all(
    circuits: &mut Vec<CircuitConfig>,
    index: &mut CircuitIndex,
    more: &[CircuitConfig],
) -> Result<(), AllocError>
    requires { index.old ≡ map (λ c. c.id) circuits.old.items }
    ensures index { OnOk result (index.new ≡ map (λ c. c.id) circuits.new.items) }
    ensures once { OnOk result ((before : List CircuitConfig) → circuits.old.items ≡ each_once before
        → circuits.new.items ≡ each_once (before ++ more.now)) }
{
    for circuit in more {
        add(circuits, index, circuit)?;
    }
    Ok(())
}

/// The circuits of all, each id once, in order of first appearance; an error where memory is refused.
fn circuits_of(alloc: Global, configs: &[Config]) -> Result<Vec<CircuitConfig>, AllocError>
    ensures { IfOk result (λ circuits. circuits.items ≡ each_once (flat_map (λ config. config.circuits) configs.now)) }
{
    let mut circuits = Vec::new(alloc);
    let mut index = CircuitIndex::new(alloc);
    for plan in 0..configs.len() {
        add_all(&mut circuits, &mut index, configs[plan].circuits())?;
    }
    Ok(circuits)
}

/// The values of all together; an error where memory is refused.
fn values_of(alloc: Global, configs: &[Config]) -> Result<Values, AllocError>
    requires some { 1 ≤ length configs.now }
    requires shared { AllPairs SharesServer configs.now }
    ensures { IfOk result (λ values.
        IsUnion configs.now
        (record { server = values.server; relays = values.relays.items; circuits = values.circuits.items })) }
{
    let first = &configs[0];
    Ok(Values {
        server: first.server().copy(),
        relays: copy_relays(alloc, first.relays())?,
        circuits: circuits_of(alloc, configs)?,
    })
}

/// The configuration of all together, or the lowest of rules 43 and 45 to 48 that it breaks and what breaks
/// it. Rules 44 and 49 it keeps, as each of them does.
pub fn union_of(alloc: Global, configs: &[Config]) -> Result<Config, ConfigFault>
    requires some { 1 ≤ length configs.now }
    requires sound { All IsSound configs.now }
    requires shared { AllPairs SharesServer configs.now }
    ensures union { IfOk result (IsUnion configs.now) }
    ensures sound { IfOk result IsSound }
    ensures broken { IfErr result (IsUnionFault configs.now) }
{
    let Ok(values) = values_of(alloc, configs) else {
        return Err(ConfigFault::Memory);
    };
    let count = values.circuits.len();
    if MAX_CIRCUITS < count {
        return Err(ConfigFault::Limit(LimitFault::Circuits(count)));
    }
    if let Err(fault) = circuit_rules(&values.circuits) {
        return Err(fault);
    }
    match Config::of(alloc, values) {
        Ok(config) => Ok(config),
        Err(_) => Err(ConfigFault::Memory),
    }
}
