//! Room for the datagrams that are kept.
ghost use Rattle.std.specs.Prelude.{◌≡◌, ◌*◌, ◌<◌, ◌≤◌, length, slice_get, slice_set, IfOk};
ghost use Rattle.std.specs.declared.option.Option.TheVariants.{Some};

use std::alloc::Global;
use std::marker::Model;
use types::{MAX_DATAGRAM, Memory, Proto};

/// The protocol and the length of a datagram.
#[derive(Clone, Copy)]
pub(crate) struct Head {
    proto: Proto,
    len: u16,
}

impl Head {
    /// The head of a datagram without bytes.
    const EMPTY: Head = Head {
        proto: Proto::V4,
        len: 0,
    };
}

/// Places, counted from 0, with a datagram in each. The bytes of all lie in one row and their heads
/// in another: a call touches one head of four bytes, and of the row no more than the datagram has.
/// That counts over many circuits, where next to nothing of what a call needs is in the cache.
#[derive(Drop)]
pub(crate) struct Packets {
    heads: Vec<Head>,
    // `MAX_DATAGRAM` for each head; what lies after the end of a datagram is never read, so no call
    // clears it
    bytes: Vec<u8>,
}

impl Model for Packets {
    ghost use Rattle.std.specs.Prelude.{List};
    ghost use Rattle.lossy_net.specs.Net.{Datagram};

    ghost Value = { List Datagram };

    ghost use Rattle.lossy_net.specs.Places.{all_datagrams, IsFilled};

    ghost view = { all_datagrams };

    ghost invariant = { IsFilled };
}

impl Packets {
    /// This many places, with an empty datagram in each.
    pub(crate) fn new(alloc: Global, count: usize) -> Result<Packets, Memory>
        requires { count ≤ 2 * 1024 * 256 }
        ensures { IfOk result (λ packets. length packets ≡ count) }
    {
        let Ok(heads) = Vec::from_elem(alloc, Head::EMPTY, count) else {
            return Err(Memory);
        };
        let Ok(bytes) = Vec::from_elem(alloc, 0, count * MAX_DATAGRAM) else {
            return Err(Memory);
        };
        Ok(Packets { heads, bytes })
    }

    /// Replaces the datagram in this place by a copy of this one.
    pub(crate) fn replace(&mut self, place: usize, proto: Proto, bytes: &[u8])
        requires place { place < length self.old }
        requires fits { length bytes.now ≤ 1280 }
        ensures { self.new ≡ slice_set self.old place (record { proto = proto; bytes = bytes.now }) }
    {
        let len = bytes.len();
        self.heads[place] = Head {
            proto,
            len: len as u16,
        };
        let start = place * MAX_DATAGRAM;
        self.bytes[start..start + len].copy_from_slice(bytes);
    }

    /// The datagram in this place.
    pub(crate) fn get(&self, place: usize) -> (Proto, &[u8])
        requires { place < length self.now }
        ensures { slice_get self.now place ≡ Some (record { proto = result.0; bytes = result.1.now }) }
    {
        let head = self.heads[place];
        let start = place * MAX_DATAGRAM;
        let end = start + usize::from(head.len);
        (head.proto, &self.bytes[start..end])
    }
}
