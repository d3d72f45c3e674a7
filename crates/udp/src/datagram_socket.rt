//! A UDP socket that never waits. What the system does with it is in three functions, `bind`, `take` and `send`, and each
//! says in the history what it did; `take_if_ready` says that nothing waited where the system has told of nothing.
ghost use Rattle.std.specs.Prelude.{◌≡◌, ◌≢◌, ◌&&◌, not, Err, IfOk, IfSome, IfNone, true, false};
ghost use Rattle.types.specs.declared.addr.Source.{Source};
ghost use Rattle.udp.specs.Address.{IsSystemForm};
ghost use Rattle.udp.specs.History.{Empty, IsWithin, Refused, Sent, attempt_entry, with_entry};
ghost use Rattle.udp.specs.Waiting.{OthersStay, is_told};
ghost use Rattle.udp.specs.declared.datagram_socket.Attempt.TheVariants as attempt;
ghost use Rattle.udp.specs.declared.datagram_socket.BindFault.TheVariants as fault;

use crate::history::{Happened, History, Role};
use crate::waiting::{Place, Waiter};
use mio::net::UdpSocket;
use std::io::ErrorKind;
use std::marker::Model;
use std::net::{IpAddr, Ipv4Addr, Net, SocketAddr};
use types::{Addr4, MAX_DATAGRAM, Source};

/// The length of the buffer that a datagram is received in. It has one byte more than the longest that is
/// served, so that of a longer one enough arrives to be refused for its length.
pub const BUFFER_LEN: usize = MAX_DATAGRAM + 1;

/// Why a socket was not bound.
#[derive(Clone, Copy, PartialEq, Eq)]
pub enum BindFault {
    /// The system is out of memory.
    Memory,
    /// The system refused the address.
    Refused,
}

/// What came of an attempt to take a datagram.
#[derive(Clone, Copy, PartialEq, Eq)]
pub enum Attempt {
    /// One was taken: how many bytes of it are in the buffer, and where it came from.
    Took(usize, Source),
    /// None waited.
    Empty,
    /// The receive failed. Its datagram, if there was one, is lost.
    Failed,
}

/// A bound UDP socket that never waits, which is for one thing.
#[derive(Drop)]
pub struct DatagramSocket {
    pub(crate) socket: UdpSocket,
    pub(crate) role: Role,
    at: Source,
    /// Which history says what happens at it.
    history: u8,
    /// Which bit it has in a waiter.
    pub(crate) place: Place,
    /// Whether a waiter watches it. The bit of one that is not watched stays set, so that it is always asked.
    pub(crate) is_watched: bool,
}

impl Model for DatagramSocket {
    ghost use Rattle.udp.specs.Socket.{SocketValue};
    ghost use Rattle.udp.specs.Waiting.{IsPlace, bit_of};

    ghost Value = { SocketValue };

    ghost view = { λ s. record { role = s.role; at = s.at; history = s.history } };

    ghost invariant = { λ s. IsPlace (bit_of s.role) s.place };
}

/// The system's form of an address and port.
fn system_address(source: Source) -> SocketAddr
    ensures { IsSystemForm source result }
{
    let Addr4([a, b, c, d]) = source.addr;
    SocketAddr::new(IpAddr::V4(Ipv4Addr::new(a, b, c, d)), source.port)
}

/// An IPv4 address and port of the system's form.
fn source_of(address: SocketAddr) -> Option<Source>
    ensures some { IfSome result (λ source. IsSystemForm source address) }
    ensures none { IfNone result ((source : Source) → ¬ IsSystemForm source address) }
{
    match address.ip() {
        IpAddr::V4(ip) => Some(Source {
            addr: Addr4(ip.octets()),
            port: address.port(),
        }),
        IpAddr::V6(_) => None,
    }
}

impl DatagramSocket {
    /// Binds a socket to this address and port.
    pub fn bind<R: Net>(
        net: &R,
        role: Role,
        at: Source,
        history: &mut History,
    ) -> Result<DatagramSocket, BindFault>
        ensures bound { IfOk result (λ socket. socket ≡ record { role = role; at = at; history = history.old.id }) }
        ensures same { history.new.id ≡ history.old.id }
        ensures silent { IfOk result (λ _. history.new.entries ≡ history.old.entries) }
        ensures refused { result ≡ Err fault.Refused → history.new.entries ≡ with_entry (Refused role at) history.old.entries }
        ensures memory { result ≡ Err fault.Memory → history.new.entries ≡ history.old.entries }
    {
        match UdpSocket::bind(net, system_address(at)) {
            Ok(socket) => Ok(DatagramSocket {
                socket,
                role,
                at,
                history: history.id(),
                place: Place::of_role(&role),
                is_watched: false,
            }),
            Err(error) if error.kind() == ErrorKind::OutOfMemory => Err(BindFault::Memory),
            Err(_) => {
                history.add(&Happened::Refused(role, at));
                Err(BindFault::Refused)
            }
        }
    }

    /// Takes a datagram that waits into `buffer`, if there is one.
    pub fn take(&self, buffer: &mut [u8; BUFFER_LEN], history: &mut History) -> Attempt
        requires { history.old.id ≡ self.now.history }
        ensures same { history.new.id ≡ history.old.id }
        ensures len { IsWithin 1281 result }
        ensures entries { history.new.entries ≡ with_entry (attempt_entry self.now.role buffer.new result) history.old.entries }
    {
        match self.socket.recv_from(buffer) {
            Ok((len, from)) => {
                let Some(from) = source_of(from) else {
                    history.add(&Happened::Failed(self.role));
                    return Attempt::Failed;
                };
                history.add(&Happened::Took(self.role, from, &buffer[..len]));
                Attempt::Took(len, from)
            }
            Err(error) if error.kind() == ErrorKind::WouldBlock => {
                history.add(&Happened::Empty(self.role));
                Attempt::Empty
            }
            Err(_) => {
                history.add(&Happened::Failed(self.role));
                Attempt::Failed
            }
        }
    }

    /// Whether none waits at a socket that is watched, as far as the system has told: it has told of no datagram since a receive
    /// found the socket empty.
    #[inline]
    pub fn is_idle(&self, waiter: &Waiter, history: &mut History) -> bool
        ensures same { history.new.id ≡ history.old.id }
        ensures idle { result ≡ true → history.new.entries ≡ with_entry (Empty self.now.role) history.old.entries }
        ensures unknown { result ≡ false → history.new ≡ history.old }
        ensures told { result ≡ not (is_told waiter.now self.now.role) }
    {
        let is_idle = !waiter.is_ready(self.place);
        if is_idle {
            history.add(&Happened::Empty(self.role));
        }
        is_idle
    }

    /// Whether none waits at this socket and none at the other, as far as the system has told.
    #[inline]
    pub fn is_idle_with(
        &self,
        other: &DatagramSocket,
        waiter: &Waiter,
        history: &mut History,
    ) -> bool
        ensures same { history.new.id ≡ history.old.id }
        ensures idle { result ≡ true
            → history.new.entries
            ≡ with_entry (Empty other.now.role) (with_entry (Empty self.now.role) history.old.entries) }
        ensures unknown { result ≡ false → history.new ≡ history.old }
        ensures told { result ≡ (not (is_told waiter.now self.now.role) && not (is_told waiter.now other.now.role)) }
    {
        let are_idle = !waiter.is_ready(self.place) && !waiter.is_ready(other.place);
        if are_idle {
            history.add(&Happened::Empty(self.role));
            history.add(&Happened::Empty(other.role));
        }
        are_idle
    }

    /// Takes a datagram from a socket that is watched. If the system has told of no datagram since a receive found the socket
    /// empty, none waits, and it isn't asked again.
    #[inline(always)]
    pub fn take_if_ready(
        &self,
        buffer: &mut [u8; BUFFER_LEN],
        waiter: &mut Waiter,
        history: &mut History,
    ) -> Attempt
        requires { history.old.id ≡ self.now.history }
        ensures same { history.new.id ≡ history.old.id }
        ensures len { IsWithin 1281 result }
        ensures entries { history.new.entries ≡ with_entry (attempt_entry self.now.role buffer.new result) history.old.entries }
        ensures kept { result ≢ attempt.Empty → waiter.new ≡ waiter.old }
        ensures others { OthersStay self.now.role waiter.old waiter.new }
    {
        if self.is_idle(waiter, history) {
            return Attempt::Empty;
        }
        self.take_and_tell(buffer, waiter, history)
    }

    /// Takes a datagram, and tells the waiter if there is none. It is no part of its caller's code, which mostly has nothing to
    /// take.
    #[inline(never)]
    fn take_and_tell(
        &self,
        buffer: &mut [u8; BUFFER_LEN],
        waiter: &mut Waiter,
        history: &mut History,
    ) -> Attempt
        requires { history.old.id ≡ self.now.history }
        ensures same { history.new.id ≡ history.old.id }
        ensures len { IsWithin 1281 result }
        ensures entries { history.new.entries ≡ with_entry (attempt_entry self.now.role buffer.new result) history.old.entries }
        ensures kept { result ≢ attempt.Empty → waiter.new ≡ waiter.old }
        ensures others { OthersStay self.now.role waiter.old waiter.new }
    {
        let attempt = self.take(buffer, history);
        if attempt == Attempt::Empty && self.is_watched {
            waiter.found_empty(self.place);
        }
        attempt
    }

    /// Sends a datagram, or loses it. Returns whether the system accepted it.
    pub fn send(&self, datagram: &[u8], to: Source, history: &mut History) -> bool
        requires { history.old.id ≡ self.now.history }
        ensures entries { history.new.entries ≡ with_entry (Sent self.now.role to datagram.now result) history.old.entries }
        ensures same { history.new.id ≡ history.old.id }
    {
        let accepted = self.socket.send_to(datagram, system_address(to)).is_ok();
        history.add(&Happened::Sent(self.role, to, datagram, accepted));
        accepted
    }
}
