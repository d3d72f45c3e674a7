//! The sockets of relay, server and circuits.
ghost use Rattle.std.specs.Prelude.{◌≡◌, ◌≤◌, ◌<◌, ◌+◌, ◌*◌, length, map, All, Some, slice_get, option_map, IfOk, IfErr};
ghost use Rattle.config.specs.CircuitPart.{CircuitPart, part_in, parts_of};
ghost use Rattle.config.specs.Topology.{topology_of};
ghost use Rattle.sockets.specs.Sockets.{AreBound, AreCircuitSockets, AreOwnSockets, AreRelaySockets, IsBound};
ghost use Rattle.sockets.specs.Sockets.{IsCircuitSocket, IsRelaySocket, IsSocket, Refuses, WasRefused, client_port};
ghost use Rattle.sockets.specs.Sockets.{local_port};

use config::Config;
use std::alloc::Global;
use std::net::Net;
use thiserror::Error;
use types::{Addr4, Circuit, Proto, RelayNo, Source};
use udp::{BindFault, DatagramSocket, History, Role, Waiter};

/// Ports of one circuit: two where it listens, and two where its frames go.
pub(crate) const PORTS: u16 = 4;

/// The address of every circuit's ports.
pub(crate) const LOOPBACK: Addr4 = Addr4([127, 0, 0, 1]);

/// Why the sockets were not opened.
#[derive(Clone, Copy, Debug, PartialEq, Eq, Error)]
pub enum SocketFault {
    #[error("out of memory")]
    Memory,
    /// No socket could be bound to this address and port.
    #[error("no socket can be bound")]
    Bind(Source),
}

/// The sockets of one circuit.
#[derive(Drop)]
pub struct CircuitSockets {
    /// Where its DHCPv4 frames come from, and those towards it leave.
    pub socket4: DatagramSocket,
    /// Where its DHCPv6 frames come from, and those towards it leave.
    pub socket6: DatagramSocket,
    /// The index of its relay.
    pub relay: usize,
}

/// All sockets: those of the circuits and of the relays in the order of the configuration, and the
/// server's.
#[derive(Drop)]
pub struct Sockets {
    pub circuits: Vec<CircuitSockets>,
    pub listen4: DatagramSocket,
    pub listen6: DatagramSocket,
    pub relays: Vec<DatagramSocket>,
}

/// A port on loopback.
pub fn local(port: u16) -> Source
    ensures { result ≡ local_port port }
{
    Source {
        addr: LOOPBACK,
        port,
    }
}

/// Where frames of a protocol towards a circuit go. Each circuit has four ports, the first one's begin at `port`.
pub fn client(port: u16, circuit: Circuit, proto: Proto) -> Source
    requires ports { port + 4 * circuit ≤ 65532 }
    ensures { result ≡ client_port port circuit proto }
{
    let first = port + PORTS * circuit.index() as u16;
    match proto {
        Proto::V4 => local(first + 2),
        Proto::V6 => local(first + 3),
    }
}

/// Binds a socket, which is watched from then on.
fn bind<R: Net>(
    net: &R,
    role: Role,
    at: Source,
    waiter: &mut Waiter,
    history: &mut History,
) -> Result<DatagramSocket, SocketFault>
    ensures bound { IfOk result (λ socket. IsBound socket role at history.old.id) }
    ensures same { history.new.id ≡ history.old.id }
    ensures silent { IfOk result (λ _. history.new.entries ≡ history.old.entries) }
    ensures refused { IfErr result (Refuses (λ refused. (refused ≡ at) × WasRefused history.old.entries history.new.entries at)) }
{
    match DatagramSocket::bind(net, role, at, history) {
        Ok(mut socket) => {
            waiter.watch(&mut socket);
            Ok(socket)
        }
        Err(BindFault::Memory) => Err(SocketFault::Memory),
        Err(BindFault::Refused) => Err(SocketFault::Bind(at)),
    }
}

impl CircuitSockets {
    /// Binds the sockets of the circuit at this index. The ports of the first circuit begin at `port`,
    /// those of each other one 4 later.
    fn bind<R: Net>(
        net: &R,
        config: &Config,
        port: u16,
        index: usize,
        waiter: &mut Waiter,
        history: &mut History,
    ) -> Result<CircuitSockets, SocketFault>
        requires few { length config.now.circuits ≤ 1024 }
        requires index { index < length config.now.circuits }
        requires ports { port + 4 * length config.now.circuits ≤ 65536 }
        ensures behind { IfOk result (λ circuit. circuit.relay < length config.now.relays) }
        ensures relay { IfOk result (λ circuit.
            option_map (λ values. values.relay) (slice_get config.now.circuits index) ≡ Some circuit.relay) }
        ensures own { IfOk result (λ circuit.
            (part : CircuitPart) → part_in config.now index ≡ Some part
            → AreCircuitSockets (map (λ relay. relay.source) config.now.relays) port history.old.id index part
            circuit) }
        ensures same { history.new.id ≡ history.old.id }
        ensures silent { IfOk result (λ _. history.new.entries ≡ history.old.entries) }
        ensures refused { IfErr result (Refuses (λ at.
            IsCircuitSocket (length config.now.circuits) port at
            × WasRefused history.old.entries history.new.entries at)) }
    {
        let circuit = Circuit::at(index);
        let relay = config.at(circuit).relay.index();
        let first = port + PORTS * index as u16;
        let (role4, role6) = (
            Role::Circuit(circuit, Proto::V4),
            Role::Circuit(circuit, Proto::V6),
        );
        let socket4 = bind(net, role4, local(first), waiter, history)?;
        let socket6 = bind(net, role6, local(first + 1), waiter, history)?;
        Ok(CircuitSockets {
            socket4,
            socket6,
            relay,
        })
    }
}

impl CircuitSockets {
    /// Where frames of a protocol come from.
    pub fn socket(&self, proto: Proto) -> &DatagramSocket
        ensures v4 { proto ≡ Proto.V4 → result.now ≡ self.now.socket4 }
        ensures v6 { proto ≡ Proto.V6 → result.now ≡ self.now.socket6 }
    {
        match proto {
            Proto::V4 => &self.socket4,
            Proto::V6 => &self.socket6,
        }
    }
}

fn bind_circuits<R: Net>(
    net: &R,
    alloc: Global,
    config: &Config,
    port: u16,
    waiter: &mut Waiter,
    history: &mut History,
) -> Result<Vec<CircuitSockets>, SocketFault>
    requires ports { port + 4 * length config.now.circuits ≤ 65536 }
    ensures count { IfOk result (λ circuits. length circuits.items ≡ length config.now.circuits) }
    ensures behind { IfOk result (λ circuits. All (λ circuit. circuit.relay < length config.now.relays) circuits.items) }
    ensures own { IfOk result (λ circuits.
        AreOwnSockets (map (λ relay. relay.source) config.now.relays) port history.old.id (parts_of config.now)
        circuits.items) }
    ensures same { history.new.id ≡ history.old.id }
    ensures silent { IfOk result (λ _. history.new.entries ≡ history.old.entries) }
    ensures refused { IfErr result (Refuses (λ at.
        IsCircuitSocket (length config.now.circuits) port at × WasRefused history.old.entries history.new.entries at)) }
{
    let Ok(mut circuits) = Vec::with_capacity(alloc, config.circuit_count()) else {
        return Err(SocketFault::Memory);
    };
    'circuits: for index in 0..config.circuit_count() {
        let sockets = CircuitSockets::bind(net, config, port, index, waiter, history)?;
        let Ok(()) = circuits.push(sockets) else {
            return Err(SocketFault::Memory);
        };
    }
    Ok(circuits)
}

fn bind_relays<R: Net>(
    net: &R,
    alloc: Global,
    config: &Config,
    waiter: &mut Waiter,
    history: &mut History,
) -> Result<Vec<DatagramSocket>, SocketFault>
    ensures count { IfOk result (λ relays. length relays.items ≡ length config.now.relays) }
    ensures own { IfOk result (λ relays. AreRelaySockets (map (λ relay. relay.source) config.now.relays) history.old.id relays.items) }
    ensures same { history.new.id ≡ history.old.id }
    ensures silent { IfOk result (λ _. history.new.entries ≡ history.old.entries) }
    ensures refused { IfErr result
        (Refuses (λ at. IsRelaySocket config.now.relays at × WasRefused history.old.entries history.new.entries at)) }
{
    let Ok(mut relays) = Vec::with_capacity(alloc, config.relay_count()) else {
        return Err(SocketFault::Memory);
    };
    'relays: for index in 0..config.relay_count() {
        let relay = RelayNo::at(index);
        let source = config.relay(relay).source;
        let socket = bind(net, Role::Relay(relay), source, waiter, history)?;
        let Ok(()) = relays.push(socket) else {
            return Err(SocketFault::Memory);
        };
    }
    Ok(relays)
}

impl Sockets {
    /// The server's socket of a protocol.
    pub fn server(&self, proto: Proto) -> &DatagramSocket
        ensures v4 { proto ≡ Proto.V4 → result.now ≡ self.now.listen4 }
        ensures v6 { proto ≡ Proto.V6 → result.now ≡ self.now.listen6 }
    {
        match proto {
            Proto::V4 => &self.listen4,
            Proto::V6 => &self.listen6,
        }
    }

    /// Binds all sockets of a configuration, and watches them. Those of the first circuit begin at `port`, those of
    /// each other one 4 later.
    pub fn bind<R: Net>(
        net: &R,
        alloc: Global,
        config: &Config,
        port: u16,
        waiter: &mut Waiter,
        history: &mut History,
    ) -> Result<Sockets, SocketFault>
        requires ports { port + 4 * length config.now.circuits ≤ 65536 }
        ensures circuits { IfOk result (λ sockets. length sockets.circuits.items ≡ length config.now.circuits) }
        ensures relays { IfOk result (λ sockets. length sockets.relays.items ≡ length config.now.relays) }
        ensures behind { IfOk result (λ sockets. All (λ circuit. circuit.relay < length config.now.relays) sockets.circuits.items) }
        ensures bound { IfOk result (AreBound (topology_of config.now) port history.old.id) }
        ensures same { history.new.id ≡ history.old.id }
        ensures silent { IfOk result (λ _. history.new.entries ≡ history.old.entries) }
        ensures refused { IfErr result
            (Refuses (λ at. IsSocket config.now port at × WasRefused history.old.entries history.new.entries at)) }
    {
        let server = config.server();
        let (role4, role6) = (Role::Server(Proto::V4), Role::Server(Proto::V6));
        let circuits = bind_circuits(net, alloc, config, port, waiter, history)?;
        let listen4 = bind(net, role4, server.listen4, waiter, history)?;
        let listen6 = bind(net, role6, server.listen6, waiter, history)?;
        let relays = bind_relays(net, alloc, config, waiter, history)?;
        Ok(Sockets {
            circuits,
            listen4,
            listen6,
            relays,
        })
    }
}
