//! A circuit by its index, and its texts.
ghost use Rattle.std.specs.Prelude.{◌<◌, length, IfSome};

use access::Access;
use config::CircuitPart;
use types::Circuit;

/// The circuit of this index, if there is one.
pub fn circuit_at(access: &Access, index: usize) -> Option<Circuit>
    ensures { IfSome result (λ circuit. circuit < length access.now.server.topology.circuits) }
{
    if index < access.server().circuit_count() && index < 1024 {
        Some(Circuit::at(index))
    } else {
        None
    }
}

/// The text of an id, whose bytes are visible ASCII characters.
pub fn text_of(id: &[u8]) -> &str {
    std::str::from_utf8(id).unwrap_or("?")
}

/// The text of a circuit's id.
pub fn id_of(part: &CircuitPart) -> &str {
    text_of(part.id().as_bytes())
}
