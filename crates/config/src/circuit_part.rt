//! One circuit's part of a configuration, as its relay and its server keep it.
ghost use Rattle.std.specs.Prelude.{◌≡◌, ◌<◌, [], ◌∷◌, length, false, Some};
ghost use Rattle.types.specs.Addr.{is_unspecified};
ghost use Rattle.config.specs.CircuitPart.{IsPart, listen_of, part_in, pool4_of, pool6_of};

use crate::config::Config;
use arrayvec::ArrayVec;
use settings::{CircuitConfig, MAX_DNS, copy_of};
use std::marker::Model;
use types::{Addr4, Addr6, Circuit, CircuitId, MAX_DUID, Pool4, Pool6, Proto, Source};

/// A circuit's values, with the source of its relay and the server's values. It is a copy, so that
/// relay and server don't need the configuration once they are open.
#[derive(Drop)]
pub struct CircuitPart {
    circuit: CircuitConfig,
    relay: Source,
    listen4: Source,
    listen6: Source,
    duid: ArrayVec<u8, MAX_DUID>,
}

impl Model for CircuitPart {
    ghost use Rattle.config.specs.CircuitPart.{CircuitPart, IsPart, part_of};

    ghost Value = { CircuitPart };

    ghost view = { λ p. part_of p.circuit p.relay p.listen4 p.listen6 p.duid.items };

    ghost invariant = { λ p. IsPart (part_of p.circuit p.relay p.listen4 p.listen6 p.duid.items) };
}

impl CircuitPart {
    /// The part of a circuit of the configuration.
    pub fn of(config: &Config, circuit: Circuit) -> CircuitPart
        requires { circuit < length config.now.circuits }
        ensures value { part_in config.now circuit ≡ Some result }
        ensures sound { IsPart result }
    {
        let values = config.at(circuit);
        let relay = config.relay(values.relay);
        let server = config.server();
        prove!(!values.gateway4.is_unspecified());
        types::laws::has_sixteen_bytes(values.link6);
        CircuitPart {
            circuit: values.copy(),
            relay: relay.source,
            listen4: server.listen4,
            listen6: server.listen6,
            duid: copy_of(&server.duid),
        }
    }

    pub fn id(&self) -> &CircuitId
        ensures { result.now ≡ self.now.id }
    {
        &self.circuit.id
    }

    /// Where the datagrams of the circuit's relay come from.
    pub fn relay(&self) -> Source
        ensures { result ≡ self.now.relay }
    {
        self.relay
    }

    /// Where the server receives datagrams of this protocol.
    pub fn listen(&self, proto: Proto) -> Source
        ensures { result ≡ listen_of self.now proto }
    {
        match proto {
            Proto::V4 => self.listen4,
            Proto::V6 => self.listen6,
        }
    }

    pub fn gateway4(&self) -> Addr4
        ensures value { result ≡ self.now.gateway4 }
        ensures given { is_unspecified result.0 ≡ false }
    {
        self.circuit.gateway4
    }

    /// The relay's address on the circuit's link, by which the server knows the link.
    pub fn link6(&self) -> Addr6
        ensures value { result.0 ≡ self.now.link6 }
        ensures size { length self.now.link6 ≡ 16 }
    {
        self.circuit.link6
    }

    /// The number of the circuit's region on the device.
    pub fn region(&self) -> u16
        ensures { result ≡ self.now.region }
    {
        self.circuit.region
    }

    /// How many addresses the DHCPv4 and the DHCPv6 pool have.
    pub fn counts(&self) -> [u8; 2]
        ensures { result ≡ self.now.count4 ∷ self.now.count6 ∷ [] }
    {
        [self.circuit.count4, self.circuit.count6]
    }

    /// The length of the gateway's prefix in bits.
    pub fn prefix4(&self) -> u8
        ensures { result ≡ self.now.prefix4 }
    {
        self.circuit.prefix4
    }

    /// The lease time in seconds.
    pub fn lease(&self) -> u32
        ensures { result ≡ self.now.lease }
    {
        self.circuit.lease
    }

    /// The DHCPv4 name servers, at most 4.
    pub fn dns(&self) -> &ArrayVec<Addr4, MAX_DNS>
        ensures { result.now.items ≡ self.now.dns }
    {
        &self.circuit.dns
    }

    /// The server's DUID, 3 to 130 bytes.
    pub fn duid(&self) -> &ArrayVec<u8, MAX_DUID>
        ensures value { result.now.items ≡ self.now.duid }
        ensures sound { IsPart self.now }
    {
        &self.duid
    }

    pub fn pool4(&self) -> Pool4
        ensures { result ≡ pool4_of self.now }
    {
        let values = &self.circuit;
        let pool = Pool4::new(values.first4, values.count4, values.gateway4, values.lease);
        let Some(pool) = pool else { unreachable!() };
        pool
    }

    pub fn pool6(&self) -> Pool6
        ensures { result ≡ pool6_of self.now }
    {
        let values = &self.circuit;
        let Some(pool) = Pool6::new(values.first6, values.count6, values.lease) else {
            unreachable!()
        };
        pool
    }
}
