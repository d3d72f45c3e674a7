//! The datagrams that the server takes in a turn, each in the buffer that it was received in.
ghost use Rattle.std.specs.Prelude.{◌≡◌, ◌≤◌, ◌<◌, ◌++◌, ℕ, List, [], All, length, take};
ghost use Rattle.access.specs.Taken.{attempt_datagrams};
ghost use Rattle.udp.specs.History.{attempt_entry, with_entry};

use std::marker::Model;
use types::{MAX_BATCH, Proto, Source};
use udp::{Attempt, BUFFER_LEN, DatagramSocket, History, Waiter};

/// A datagram that was taken from one of the server's sockets.
#[derive(Clone, Copy)]
pub(crate) struct Datagram {
    pub(crate) proto: Proto,
    pub(crate) source: Source,
    /// How many bytes of the buffer it has.
    len: usize,
    buffer: [u8; BUFFER_LEN],
}

impl Datagram {
    pub(crate) fn bytes(&self) -> &[u8]
        requires { self.now.len ≤ 1281 }
        ensures { result.now ≡ take self.now.len self.now.buffer }
    {
        &self.buffer[..self.len]
    }
}

/// The datagrams of a turn, in order. The room for sixteen lies in the value.
#[derive(Drop)]
pub(crate) struct Datagrams {
    count: usize,
    slots: [Datagram; MAX_BATCH],
}

impl Model for Datagrams {
    ghost use Rattle.std.specs.Prelude.{◌≤◌, All, List, take};
    ghost use Rattle.access.specs.declared.datagrams.Datagram.{Datagram};

    ghost Value = { List Datagram };

    ghost view = { λ d. take d.count d.slots };

    // no slot has more bytes than its buffer
    ghost invariant = { λ d. (d.count ≤ 16) × All (λ (one : Datagram). one.len ≤ 1281) d.slots };
}

impl Datagrams {
    pub(crate) fn new() -> Datagrams
        ensures { result ≡ [] }
    {
        let none = Datagram {
            proto: Proto::V4,
            source: Source::UNSPECIFIED,
            len: 0,
            buffer: [0; BUFFER_LEN],
        };
        Datagrams {
            count: 0,
            slots: [none; MAX_BATCH],
        }
    }

    pub(crate) fn clear(&mut self)
        ensures { self.new ≡ [] }
    {
        self.count = 0;
    }

    pub(crate) fn as_slice(&self) -> &[Datagram]
        ensures value { result.now ≡ self.now }
        ensures fits { All (λ (one : Datagram). one.len ≤ 1281) result.now }
        ensures few { length result.now ≤ 16 }
    {
        &self.slots[..self.count]
    }

    /// Takes the datagram that waits at a socket of this protocol, if there is one.
    pub(crate) fn receive(
        &mut self,
        socket: &DatagramSocket,
        proto: Proto,
        waiter: &mut Waiter,
        history: &mut History,
    ) -> Attempt
        requires room { length self.old < 16 }
        requires history { history.old.id ≡ socket.now.history }
        ensures same { history.new.id ≡ history.old.id }
        ensures received { (buffer : List ℕ)
            × (history.new.entries ≡ with_entry (attempt_entry socket.now.role buffer result) history.old.entries)
            × (self.new ≡ self.old ++ attempt_datagrams proto buffer result) }
    {
        let slot = &mut self.slots[self.count];
        let attempt = socket.take_if_ready(&mut slot.buffer, waiter, history);
        if let Attempt::Took(len, from) = attempt {
            slot.proto = proto;
            slot.source = from;
            slot.len = len;
            self.count += 1;
        }
        attempt
    }
}
