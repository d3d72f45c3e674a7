//! What becomes of a datagram that was taken.
ghost use Rattle.std.specs.Prelude.{◌≡◌};
ghost use Rattle.access.specs.Turn.{HasSentOn, with_bytes};

use counts::Fate;
use types::{Discard, Source};
use udp::{DatagramSocket, History};

/// Sends what was made of a datagram from this socket to there, or nothing where it was dropped.
pub(crate) fn send_on(
    made: Result<(), Discard>,
    socket: &DatagramSocket,
    to: Source,
    bytes: &[u8],
    done: Fate,
    history: &mut History,
) -> Fate
    requires { history.old.id ≡ socket.now.history }
    ensures sent { HasSentOn socket.now.role to done (with_bytes made bytes.now) history.old.entries history.new.entries result }
    ensures same { history.new.id ≡ history.old.id }
{
    match made {
        Ok(()) => done.if_sent(socket.send(bytes, to, history)),
        Err(why) => Fate::Dropped(why),
    }
}
