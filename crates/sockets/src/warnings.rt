//! Addresses that the system accepts, though they serve nobody, or too many.
ghost use Rattle.std.specs.Prelude.{◌≡◌, ◌≤◌, ◌<◌, ◌+◌, ◌*◌, IfSome, IfNone, Some, length, slice_get, true, false};
ghost use Rattle.sockets.specs.Warnings.{IsClients, IsNoClients, IsWarned, ReceivesSomeClients, addresses_of, is_group};
ghost use Rattle.sockets.specs.Warnings.{HasNoClientsAddress, IsFirstClientsAddress};

use crate::sockets::{LOOPBACK, PORTS, client};
use config::Config;
use thiserror::Error;
use types::{Addr4, Circuit, Proto, RelayNo, Source};

/// What is wrong with an address of the server or of a relay.
#[derive(Clone, Copy, Debug, PartialEq, Eq, Error)]
pub enum Warning {
    #[error("warning: 0.0.0.0 listens on every interface, and no datagram comes from it")]
    EveryInterface,
    #[error("warning: a multicast or broadcast address serves nobody")]
    Group,
    /// Frames towards the clients of this circuit go there.
    #[error("warning: frames towards the clients of a circuit go there; choose another --port")]
    Clients(Circuit),
}

/// Whether this is a multicast group, an address above these, of which the last is the limited broadcast address, or
/// loopback's broadcast address.
fn is_group(addr: Addr4) -> bool
    ensures { result ≡ is_group addr }
{
    let number = addr.number();
    number >= 0xe000_0000 || number == 0x7fff_ffff
}

/// The circuit towards whose clients frames go to this address.
fn clients_at(at: Source, port: u16, circuits: usize) -> Option<Circuit>
    requires few { circuits ≤ 1024 }
    requires ports { port + 4 * circuits ≤ 65536 }
    ensures some { IfSome result (IsClients port circuits at) }
    ensures none { IfNone result (IsNoClients port circuits at) }
{
    'circuits: for index in 0..circuits {
        let circuit = Circuit::at(index);
        if at == client(port, circuit, Proto::V4) || at == client(port, circuit, Proto::V6) {
            return Some(circuit);
        }
    }
    None
}

/// What is wrong with an address of the server or of a relay, where so many circuits have their ports from `port` on.
pub fn warn(at: Source, port: u16, circuits: usize) -> Option<Warning>
    requires few { circuits ≤ 1024 }
    requires ports { port + 4 * circuits ≤ 65536 }
    ensures { IsWarned port circuits at result }
{
    if at.addr.is_unspecified() {
        return Some(Warning::EveryInterface);
    }
    if is_group(at.addr) {
        return Some(Warning::Group);
    }
    clients_at(at, port, circuits).map(Warning::Clients)
}

/// Whether frames towards the clients of a circuit reach this address, where so many circuits have their ports from `port` on.
fn receives_clients(at: Source, port: u16, circuits: usize) -> bool
    requires ports { port + 4 * circuits ≤ 65536 }
    ensures some { result ≡ true → ReceivesSomeClients port circuits at }
    ensures none { result ≡ false → ¬ ReceivesSomeClients port circuits at }
{
    if at.port < port || (at.addr != LOOPBACK && !at.addr.is_unspecified()) {
        return false;
    }
    let (place, ports) = (usize::from(at.port - port), usize::from(PORTS));
    place < ports * circuits && place % ports >= 2
}

/// The address at this place among those of the server and the relays.
fn address_at(config: &Config, place: usize) -> Source
    requires within { place < 2 + length config.now.relays }
    ensures { slice_get (addresses_of config.now) place ≡ Some result }
{
    let server = config.server();
    match place {
        0 => server.listen4,
        1 => server.listen6,
        _ => config.relay(RelayNo::at(place - 2)).source,
    }
}

/// The first address of the server or of a relay that frames towards the clients of a circuit reach.
pub fn clients_address(config: &Config, port: u16) -> Option<Source>
    requires ports { port + 4 * length config.now.circuits ≤ 65536 }
    ensures some { IfSome result (IsFirstClientsAddress config.now port) }
    ensures none { IfNone result (HasNoClientsAddress config.now port) }
{
    let circuits = config.circuit_count();
    'places: for place in 0..2 + config.relay_count() {
        let at = address_at(config, place);
        if receives_clients(at, port, circuits) {
            return Some(at);
        }
    }
    None
}
