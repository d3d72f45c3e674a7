//! The slots that a circuit's region means.
ghost use Rattle.std.specs.Prelude.{◌≡◌, ◌≢◌, ◌≤◌, ◌+◌, Err, length};
ghost use Rattle.region_reader.specs.declared.closed.Closed.TheVariants as closed;
ghost use Rattle.region_reader.specs.CircuitSlots.{AreCircuitSlots};

use crate::closed::Closed;
use crate::steady::{RegionReader, Unsteady, read_steadily};
use config::CircuitPart;
use lease_disk::{REGION, slots_in};
use types::Slots;

/// The slots that a circuit's region means, of either format, by a reader; or why they are not known. `bytes` then has
/// those of the region if it was read, and any if not.
pub fn circuit_slots<R: RegionReader>(
    part: &CircuitPart,
    reader: &mut R,
    bytes: &mut [u8; REGION],
) -> Result<Slots, Closed>
    ensures slots { AreCircuitSlots part.now bytes.new (R.readings reader.old) (R.readings reader.new) result }
    ensures most { length (R.readings reader.new) + R.failures reader.new ≤ length (R.readings reader.old) + R.failures reader.old + 100 }
    ensures busy { result ≡ Err closed.Busy → length (R.readings reader.new) ≡ length (R.readings reader.old) + 100 }
    ensures quiet { result ≢ Err closed.Unreadable → R.failures reader.new ≡ R.failures reader.old }
    ensures cause { result ≡ Err closed.Unreadable → R.failures reader.new ≡ R.failures reader.old + 1 }
{
    match read_steadily(reader, part.region(), bytes) {
        Ok(()) => slots_in(bytes, part.counts()).ok_or(Closed::Damaged),
        Err(Unsteady::Busy) => Err(Closed::Busy),
        Err(Unsteady::Unreadable) => Err(Closed::Unreadable),
    }
}
