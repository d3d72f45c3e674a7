//! What holds of every circuit's server: functions that do nothing, for their contracts.
ghost use Rattle.std.specs.Prelude.{IfSome};
ghost use Rattle.circuit_server.specs.SlotsOfPools.{HasSlots};

use crate::circuit_server::CircuitServer;

/// An open circuit has slots of its books' pools.
pub fn has_slots(server: &CircuitServer)
    ensures { IfSome server.now HasSlots }
{
    if let Some(circuit) = &server.state {
        let _four = circuit.four.slots();
        let _six = circuit.six.slots();
    }
}
