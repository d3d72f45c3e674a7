//! Circuits and relays by name.
ghost use Rattle.std.specs.Prelude.{◌≡◌, ◌<◌, length, IfSome};
ghost use Rattle.config.specs.Topology.{topology_of, is_relay, is_server};
ghost use Rattle.lab_text.specs.Fields.{circuit_named, relay_named};

use config::Config;
use types::{Circuit, CircuitId, RelayNo, Source};

/// The circuit with exactly this id.
pub(crate) fn circuit_named(config: &Config, id: &[u8]) -> Option<Circuit>
    ensures value { result ≡ circuit_named config.now id.now }
    ensures within { IfSome result (λ circuit. circuit < length config.now.circuits) }
{
    // Only the proof needs this call: its contract says that no two circuits share an id.
    let _ = config.circuit_count();
    let Some(id) = CircuitId::new(id) else {
        return None;
    };
    config.circuit(&id)
}

/// The first relay with exactly this name.
#[tactic(auto, unfolding(crate::specs::Fields::relay_named))]
pub(crate) fn relay_named(config: &Config, name: &[u8]) -> Option<RelayNo>
    ensures value { result ≡ relay_named config.now name.now }
    ensures within { IfSome result (λ relay. relay < length config.now.relays) }
{
    'relays: for index in 0..config.relay_count() {
        let relay = RelayNo::at(index);
        if config.relay(relay).name.as_slice() == name {
            return Some(relay);
        }
    }
    None
}

/// Whether one of the relays sends its datagrams from here.
pub(crate) fn is_relay(config: &Config, source: Source) -> bool
    ensures { result ≡ is_relay (topology_of config.now) source }
{
    'relays: for index in 0..config.relay_count() {
        let relay = RelayNo::at(index);
        if source == config.relay(relay).source {
            return true;
        }
    }
    false
}

/// Whether the server sends its datagrams from here, in either protocol.
pub(crate) fn is_server(config: &Config, source: Source) -> bool
    ensures { result ≡ is_server (topology_of config.now) source }
{
    let server = config.server();
    source == server.listen4 || source == server.listen6
}
