//! The servers of all circuits, by index. The clock of an open circuit is the later of its own and the moment of the ticks
//! since the last restart, so that a tick looks at none of them.
ghost use Rattle.std.specs.Prelude.{◌≡◌, ◌<◌, ◌≤◌, ◌+◌, ◌*◌, ℕ, None, length, map, replicate, All, IfOk, IfSome};
ghost use Rattle.circuit_server.specs.Deadlines.{KeepsEntries, held_in};
ghost use Rattle.circuit_server.specs.SlotsOfPools.{HasSlots};
ghost use Rattle.circuit_server.specs.Ticked.{state_at};
ghost use Rattle.circuit_server.specs.Unoffered.{state_unoffered};
ghost use Rattle.dispatch.specs.Restarted.{AreRestarted, CanRestart, IsRestartOf, IsTableAnew};
ghost use Rattle.dispatch.specs.ServerValue.{HoldsDeadlines};
ghost use Rattle.dispatch.specs.Turned.{AreTurned, turns_off};
ghost use Rattle.timers.specs.Deadlines.{deadline};

use circuit_server::CircuitServer;
use config::{CircuitPart, Circuits};
use lease_disk::Disk;
use std::alloc::{AllocError, Global};
use timers::Deadlines;
use types::{Circuit, Moment};

/// A server for each of so many circuits. Each is closed.
pub(crate) fn closed_servers(alloc: Global, count: usize) -> Result<Vec<CircuitServer>, AllocError>
    ensures { IfOk result (λ servers. servers.items ≡ replicate count None) }
{
    let mut servers = Vec::with_capacity(alloc, count)?;
    'servers: for _ in 0..count {
        servers.push(CircuitServer::closed())?;
    }
    Ok(servers)
}

/// Each open circuit has slots of its books' pools. Nothing is done: this is called for its contract.
pub(crate) fn have_slots(servers: &[CircuitServer])
    ensures { All (λ state. IfSome state HasSlots) servers.now }
{
    'circuits: for server in servers {
        circuit_server::laws::has_slots(server);
    }
}

/// The circuit is no longer served: it loses its offers, and its slots have the deadlines of what is left.
fn turn_off(server: &mut CircuitServer, ticked: Moment, circuit: Circuit, table: &mut Deadlines)
    requires room { 32 * circuit + 32 ≤ length table.old.slots }
    ensures state { server.new ≡ state_unoffered (state_at ticked server.old) }
    ensures own { (s : ℕ) → s < 32 → deadline table.new (32 * circuit + s) ≡ held_in server.new s }
    ensures entries { KeepsEntries circuit table.old table.new server.new }
{
    server.tick(ticked);
    server.turn_off(table, circuit);
}

/// Turns off each circuit that is served and that this plan does not have. All clocks are at the moment of the last tick, or later.
pub(crate) fn turn_off_all(
    servers: &mut [CircuitServer],
    ticked: Moment,
    circuits: &Circuits,
    plan: usize,
    table: &mut Deadlines,
)
    requires size { length servers.old ≡ length circuits.now.circuits }
    requires held { HoldsDeadlines table.old (map (state_at ticked) servers.old) }
    ensures { AreTurned (turns_off circuits.now plan) (map (state_at ticked) servers.old)
        (map (state_at ticked) servers.new) table.old table.new }
{
    'circuits: for index in 0..circuits.count() {
        let circuit = Circuit::at(index);
        if turns_off(circuits, plan, circuit) {
            turn_off(&mut servers[index], ticked, circuit, table);
        }
    }
}

/// Whether a circuit turns off when this plan comes into force: it is served, and the plan does not have it.
fn turns_off(circuits: &Circuits, plan: usize, circuit: Circuit) -> bool
    requires { circuit < length circuits.now.circuits }
    ensures { result ≡ turns_off circuits.now plan circuit }
{
    circuits.serves(circuit) && !circuits.serves_in(plan, circuit)
}

/// Begins each with what its region holds, which is moved to format 2 in this buffer, and gives its slots their deadlines.
pub(crate) fn restart_all<D: Disk>(
    parts: &[CircuitPart],
    servers: &mut [CircuitServer],
    disk: &mut D,
    buffer: &mut [u8],
    table: &mut Deadlines,
)
    requires room { length table.old.slots ≡ 32 * length parts.now }
    requires few { length parts.now ≤ 1024 }
    requires size { length servers.old ≡ length parts.now }
    requires can { CanRestart D.tells parts.now (D.device disk.old) }
    requires buffer { length buffer.old ≡ 16384 }
    ensures size { length servers.new ≡ length servers.old }
    ensures restarted { AreRestarted D.tells parts.now servers.new (D.device disk.old) (D.device disk.new) (D.doubt disk.new) }
    ensures device { IsRestartOf D.tells parts.now (D.device disk.old) (D.device disk.new) }
    ensures table { IsTableAnew table.old table.new servers.new }
    ensures buffer { length buffer.new ≡ 16384 }
{
    'circuits: for index in 0..parts.len() {
        servers[index].restart(&parts[index], disk, buffer);
        servers[index].set_deadlines(table, Circuit::at(index));
    }
}
