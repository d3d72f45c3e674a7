//! What a circuit's server makes of a datagram before anything is saved.
ghost use Rattle.std.specs.Prelude.{◌≡◌, Ok, None, IfSome};
ghost use Rattle.batch_saves.specs.Batch.{IsReady};
ghost use Rattle.circuit_server.specs.Prepared.{IsSavedAlone};

use crate::decision::CircuitDecision;
use lease_disk::{Disk, Fault, Marks, Saving};

/// A decision whose changes of the circuit's books are made, and the save that has to be done before its reply leaves.
#[derive(Drop)]
pub struct Prepared<'a> {
    pub(crate) decision: CircuitDecision<'a>,
    /// None where nothing has to be saved.
    pub saving: Option<Saving>,
}

/// Saves what has to be saved, if anything, alone. Returns the marks of the region after it.
pub(crate) fn save_alone<D: Disk>(
    saving: &Option<Saving>,
    disk: &mut D,
) -> Result<Option<Marks>, Fault>
    requires { IfSome saving.now (IsReady D.tells (D.device disk.old)) }
    ensures nothing { saving.now ≡ None → (result ≡ Ok None) × (D.device disk.new ≡ D.device disk.old) }
    ensures saved { IfSome saving.now (IsSavedAlone D.tells result (D.device disk.old) (D.device disk.new)) }
{
    let Some(saving) = saving else {
        return Ok(None);
    };
    let mut saving = *saving;
    saving.save(disk)?;
    Ok(Some(saving.marks))
}
