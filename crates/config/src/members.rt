//! Which of several configurations have which circuits.
ghost use Rattle.std.specs.Prelude.{◌≡◌, ◌≤◌, length, map, IfOk};
ghost use Rattle.config.specs.Union.{has_circuit};

use crate::config::Config;
use crate::plans::MAX_PLANS;
use arrayvec::ArrayVec;
use settings::CircuitConfig;
use std::alloc::{AllocError, Global};
use types::CircuitId;

/// Whether each configuration has a circuit with exactly this id, in their order.
fn row_of(configs: &[Config], id: &CircuitId) -> ArrayVec<bool, MAX_PLANS>
    requires { length configs.now ≤ 8 }
    ensures { result.items ≡ map (has_circuit id.now) configs.now }
{
    let mut row = ArrayVec::new();
    for config in configs {
        row.push(config.has_circuit(id));
    }
    row
}

/// For each circuit, in order, whether each configuration has one of its id; an error where memory is
/// refused.
pub fn members_of(
    alloc: Global,
    circuits: &[CircuitConfig],
    configs: &[Config],
) -> Result<Vec<ArrayVec<bool, MAX_PLANS>>, AllocError>
    requires { length configs.now ≤ 8 }
    ensures { IfOk result (λ rows. map (λ row. row.items) rows.items ≡ map (λ c. map (has_circuit c.id) configs.now) circuits.now) }
{
    let mut rows = Vec::with_capacity(alloc, circuits.len())?;
    for circuit in circuits {
        rows.push(row_of(configs, &circuit.id))?;
    }
    Ok(rows)
}
