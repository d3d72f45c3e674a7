//! What a configuration says about the server, a relay and a circuit, by the names of its keys.
ghost use Rattle.std.specs.Prelude.{◌≡◌};

use crate::limits::{MAX_DNS, MAX_NAME};
use arrayvec::ArrayVec;
use types::{Addr4, Addr6, CircuitId, MAX_DUID, RelayNo, Source};

/// The server, from the table `server`.
#[derive(Drop)]
pub struct ServerConfig {
    /// Where the server receives DHCPv4 datagrams.
    pub listen4: Source,
    /// Where the server receives DHCPv6 datagrams.
    pub listen6: Source,
    /// 3 to 130 bytes.
    pub duid: ArrayVec<u8, MAX_DUID>,
}

/// A relay, from one entry of `relay`.
#[derive(Drop)]
pub struct RelayConfig {
    /// 1 to 32 bytes.
    pub name: ArrayVec<u8, MAX_NAME>,
    /// Where its datagrams come from.
    pub source: Source,
}

/// A circuit, from one entry of `circuit`.
#[derive(Drop)]
pub struct CircuitConfig {
    pub id: CircuitId,
    /// The relay that the circuit is behind.
    pub relay: RelayNo,
    /// Where the circuit's leases are kept: 0 to 1023.
    pub region: u16,
    /// The time of a lease, 60 to 604800 seconds.
    pub lease: u32,
    pub gateway4: Addr4,
    /// How many bits all addresses of the circuit's network share: 8 to 30.
    pub prefix4: u8,
    /// The lowest address of the DHCPv4 pool.
    pub first4: Addr4,
    /// How many addresses the DHCPv4 pool has: 1 to 16.
    pub count4: u8,
    /// Name servers, at most 4.
    pub dns: ArrayVec<Addr4, MAX_DNS>,
    pub link6: Addr6,
    /// The lowest address of the DHCPv6 pool.
    pub first6: Addr6,
    /// How many addresses the DHCPv6 pool has: 1 to 16.
    pub count6: u8,
}

/// A copy of a short list.
pub fn copy_of<T: Copy + Default, const N: usize>(values: &ArrayVec<T, N>) -> ArrayVec<T, N>
    ensures { result ≡ values.now }
{
    let mut copy = ArrayVec::new();
    let copied = copy.try_extend_from_slice(values.as_slice());
    prove!(copied.is_ok());
    copy
}

impl ServerConfig {
    /// A copy of the server's values.
    pub fn copy(&self) -> ServerConfig
        ensures { result ≡ self.now }
    {
        ServerConfig {
            listen4: self.listen4,
            listen6: self.listen6,
            duid: copy_of(&self.duid),
        }
    }
}

impl RelayConfig {
    /// A copy of the relay's values.
    pub fn copy(&self) -> RelayConfig
        ensures { result ≡ self.now }
    {
        RelayConfig {
            name: copy_of(&self.name),
            source: self.source,
        }
    }
}

impl CircuitConfig {
    /// A copy of the circuit's values.
    pub fn copy(&self) -> CircuitConfig
        ensures { result ≡ self.now }
    {
        CircuitConfig {
            id: self.id.copy(),
            relay: self.relay,
            region: self.region,
            lease: self.lease,
            gateway4: self.gateway4,
            prefix4: self.prefix4,
            first4: self.first4,
            count4: self.count4,
            dns: copy_of(&self.dns),
            link6: self.link6,
            first6: self.first6,
            count6: self.count6,
        }
    }
}
