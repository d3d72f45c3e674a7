//! Which sockets a datagram may wait at, by what the system tells, and waiting for one.
ghost use Rattle.std.specs.Int.{bit_at};
ghost use Rattle.std.specs.Prelude.{◌≡◌, ◌≢◌, ℕ, ◌≤◌, ◌<◌, ◌-◌, ◌++◌, IfOk, true, false};
ghost use Rattle.udp.specs.History.{idle_circuits};
ghost use Rattle.udp.specs.Waiting.{AllAreTold, AllStayTold, IsPlace, OthersStay, bit_in, bit_of, is_set, is_told, row_of};
ghost use Rattle.udp.specs.declared.history.Role.{Role};
ghost use Rattle.udp.specs.declared.history.Role.TheVariants as role;

use crate::datagram_socket::DatagramSocket;
use crate::history::{History, Role};
use mio::{Events, Interest, Poll, Token};
use std::alloc::{AllocError, Global};
use std::marker::Model;
use std::net::Net;
use std::rt::Clock;
use std::thread;
use std::time::Duration;
use types::{MAX_RELAYS, Proto};

/// How many sockets a word has a bit for.
const WORD: usize = 64;

/// How many rows of words there are: of the circuits' DHCPv4 sockets, of their DHCPv6 sockets, and of the others.
const ROWS: usize = 3;

/// Where the bit of a socket is: its word, and the word in which it alone is set. Nothing is divided to read or to set it.
#[derive(Clone, Copy)]
pub(crate) struct Place {
    word: usize,
    mask: u64,
}

impl Place {
    /// The place of this bit.
    fn of(bit: usize) -> Place
        ensures { IsPlace bit result }
    {
        Place {
            word: bit / WORD,
            mask: 1 << (bit % WORD),
        }
    }

    /// The place of the socket with this role.
    pub(crate) fn of_role(role: &Role) -> Place
        ensures { IsPlace (bit_of role.now) result }
    {
        Place::of(role_bit(role))
    }
}

/// What the system tells of the sockets that it watches. It takes no memory after it was made.
///
/// The system tells of a socket when a datagram arrives, once. So a socket may have one from then on until a receive finds it
/// empty; a datagram that comes after that is told of again. Before the first receive any socket may have one.
#[derive(Drop)]
pub struct Waiter {
    /// None where the system does not tell of a socket: then any may have a datagram, and waiting is sleeping.
    poll: Option<Poll>,
    events: Events<Global>,
    /// Which sockets may have a datagram, a bit each: most have none. Word 3n + r is word n of row r.
    ready: Vec<u64>,
}

impl Model for Waiter {
    ghost use Rattle.std.specs.Prelude.{ℕ, List};

    ghost Value = { List ℕ };

    ghost view = { λ w. w.ready.items };
}

/// The row of the circuits' sockets of a protocol.
#[inline]
fn proto_row(proto: Proto) -> usize
    ensures row { (c : ℕ) → result ≡ row_of (role.Circuit c proto) }
    ensures within { result < 3 }
{
    match proto {
        Proto::V4 => 0,
        Proto::V6 => 1,
    }
}

/// The bit with this number of a row.
fn row_bit(row: usize, index: usize) -> usize
    requires row { row < 3 }
    requires index { index < 1024 }
    ensures { result ≡ bit_in row index }
{
    WORD * (ROWS * (index / WORD) + row) + index % WORD
}

/// The bit of the socket with this role.
fn role_bit(role: &Role) -> usize
    ensures { result ≡ bit_of role.now }
{
    match role {
        Role::Circuit(circuit, proto) => row_bit(proto_row(*proto), circuit.index()),
        Role::Server(Proto::V4) => row_bit(2, 0),
        Role::Server(Proto::V6) => row_bit(2, 1),
        Role::Relay(relay) => row_bit(2, 2 + relay.index()),
    }
}

/// Sets this bit, if a word has it.
#[inline]
fn set(words: &mut [u64], place: Place)
    ensures set { (bit : ℕ) → IsPlace bit place → is_set words.new bit ≡ true }
    ensures stay { (bit : ℕ) → is_set words.old bit ≡ true → is_set words.new bit ≡ true }
{
    if place.word < words.len() {
        words[place.word] |= place.mask;
    }
}

/// Sets the bits that the system tells of.
fn set_all(words: &mut [u64], events: &Events<Global>)
    ensures { (bit : ℕ) → is_set words.old bit ≡ true → is_set words.new bit ≡ true }
{
    'events: for event in events.iter() {
        let Token(bit) = event.token();
        set(words, Place::of(bit));
    }
}

/// Takes this bit away, if a word has it.
#[inline]
fn clear(words: &mut [u64], place: Place)
    ensures { (bit other : ℕ) → IsPlace bit place → other ≢ bit → is_set words.new other ≡ is_set words.old other }
{
    if place.word < words.len() {
        words[place.word] &= !place.mask;
    }
}

/// The first bit of a word from this one on that is set; 64 if none is.
#[inline]
fn first_set(word: u64, from: usize) -> usize
    requires { from < 64 }
    ensures bound { result ≤ 64 }
    ensures from { from ≤ result }
    ensures unset { (i : ℕ) → from ≤ i → i < result → bit_at word i ≡ 0 }
{
    let bits = word & (u64::MAX << from);
    bits.trailing_zeros() as usize
}

impl Waiter {
    /// Watches no socket yet, and has room for those of so many circuits, of the server and of the relays; out of memory
    /// where there is none for that.
    pub fn new<R: Net>(net: &R, alloc: Global, circuits: usize) -> Result<Waiter, AllocError>
        requires { circuits ≤ 1024 }
        ensures { IfOk result (λ waiter. AllAreTold waiter) }
    {
        let words = ROWS * circuits.div_ceil(WORD).max(1);
        Ok(Waiter {
            poll: Poll::new(net).ok(),
            events: Events::with_capacity(alloc, 2 * circuits + 2 + MAX_RELAYS)?,
            ready: Vec::from_elem(alloc, u64::MAX, words)?,
        })
    }

    /// Watches a socket as well.
    pub fn watch(&mut self, socket: &mut DatagramSocket)
        ensures socket { socket.new ≡ socket.old }
        ensures told { AllStayTold self.old self.new }
    {
        let Some(poll) = &self.poll else {
            return;
        };
        let bit = role_bit(&socket.role);
        let watched = poll
            .registry()
            .register(&mut socket.socket, Token(bit), Interest::READABLE);
        socket.is_watched = watched.is_ok();
        if watched.is_err() {
            self.stop_polling();
        }
    }

    /// The system tells of the sockets no longer.
    fn stop_polling(&mut self)
        ensures { AllAreTold self.new }
    {
        self.poll = None;
        self.ready.fill(u64::MAX);
    }

    /// Whether the socket of this place may have a datagram.
    #[inline(always)]
    pub(crate) fn is_ready(&self, place: Place) -> bool
        ensures { (bit : ℕ) → IsPlace bit place → result ≡ is_set self.now bit }
    {
        match self.ready.get(place.word) {
            Some(word) => word & place.mask != 0,
            None => true,
        }
    }

    /// Passes over the circuits from `from` on at whose socket of this protocol no datagram waits, as far as the system has
    /// told, and returns the first other one, or `end` if there is none. It looks at 64 circuits at once.
    pub fn pass_over(&self, proto: Proto, from: usize, end: usize, history: &mut History) -> usize
        requires { from ≤ end }
        ensures from { from ≤ result }
        ensures end { result ≤ end }
        ensures passed { (c : ℕ) → from ≤ c → c < result → is_told self.now (role.Circuit c proto) ≡ false }
        ensures idle { history.new.entries ≡ history.old.entries ++ idle_circuits proto from (result - from) }
        ensures same { history.new.id ≡ history.old.id }
    {
        let next = self.next_ready(proto, from, end);
        history.add_idle(proto, from, next - from);
        next
    }

    /// The first circuit from `from` on whose socket of this protocol may have a datagram, or `end`.
    fn next_ready(&self, proto: Proto, from: usize, end: usize) -> usize
        requires { from ≤ end }
        ensures from { from ≤ result }
        ensures end { result ≤ end }
        ensures passed { (c : ℕ) → from ≤ c → c < result → is_told self.now (role.Circuit c proto) ≡ false }
    {
        let row = proto_row(proto);
        let mut next = from;
        'words: while next < end {
            let Some(word) = self.ready.get(ROWS * (next / WORD) + row) else {
                return next;
            };
            let first = first_set(*word, next % WORD);
            next = (next - next % WORD).saturating_add(first);
            if first < WORD {
                return next.min(end);
            }
        }
        end
    }

    /// A datagram was sent to this socket: it may have one now, whether or not the system has told of it.
    #[inline]
    pub fn mark_ready(&mut self, socket: &DatagramSocket)
        ensures marked { is_told self.new socket.now.role ≡ true }
        ensures told { AllStayTold self.old self.new }
    {
        set(&mut self.ready, socket.place);
    }

    /// A receive found the socket of this place empty.
    pub(crate) fn found_empty(&mut self, place: Place)
        ensures { (role : Role) → IsPlace (bit_of role) place → OthersStay role self.old self.new }
    {
        if self.poll.is_some() {
            clear(&mut self.ready, place);
        }
    }

    /// Has the system tell where datagrams arrived, and waits so long for the first. Returns whether it can tell.
    fn ask(&mut self, most: Duration) -> bool
        ensures { AllStayTold self.old self.new }
    {
        let Some(poll) = &mut self.poll else {
            return false;
        };
        if poll.poll(&mut self.events, Some(most)).is_err() {
            self.stop_polling();
            return false;
        }
        set_all(&mut self.ready, &self.events);
        true
    }

    /// Has the system tell at which watched sockets datagrams arrived, without waiting.
    pub fn poll(&mut self)
        ensures told { AllStayTold self.old self.new }
    {
        self.ask(Duration::ZERO);
    }

    /// Waits until a watched socket has a datagram, at most so many milliseconds. Whoever waits has found each socket empty
    /// before, or has not been told of it; else what the system still has to tell of an earlier datagram ends the wait at once.
    pub fn wait<R: Clock>(&mut self, rt: &R, millis: u16)
        ensures told { AllStayTold self.old self.new }
    {
        let most = Duration::from_millis(u64::from(millis));
        if !self.ask(most) {
            thread::sleep(rt, most);
        }
    }
}
