//! Frames on their way to clients.
ghost use Rattle.std.specs.Prelude.{◌≡◌};
ghost use Rattle.sockets.specs.Sockets.{front_of, proto_of};

use types::{Dest, Proto};
use wire::FramedBuf;

/// The protocol of a frame that goes there.
pub fn proto_of(dest: Dest) -> Proto
    ensures { result ≡ proto_of dest }
{
    match dest {
        Dest::Broadcast | Dest::Unicast(_, _) => Proto::V4,
        Dest::Peer(_) => Proto::V6,
    }
}

/// Puts in front of a frame, where it lies, what a client's end of its circuit gets before it: before a DHCPv4 frame one byte,
/// 0 for broadcast and 1 for unicast; before a DHCPv6 frame the address of the peer.
pub fn put_front(dest: &Dest, frame: &mut FramedBuf)
    ensures { frame.new ≡ record frame.old { front = front_of dest.now } }
{
    match dest {
        Dest::Broadcast => frame.put_front(&[0]),
        Dest::Unicast(_, _) => frame.put_front(&[1]),
        Dest::Peer(peer) => frame.put_front(&peer.0),
    }
}
