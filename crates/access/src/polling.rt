//! In which order datagrams are taken from the server's two sockets.
ghost use Rattle.std.specs.Prelude.{◌≡◌, ◌<◌};
ghost use Rattle.access.specs.Polling.{again, may_wait, next_of, other, waiting_at};
ghost use Rattle.access.specs.Taken.{after_attempt};

use types::Proto;
use udp::Attempt;

/// Whether a datagram may wait at one of the server's sockets, as far as a turn knows.
#[derive(Clone, Copy, PartialEq, Eq)]
pub enum Waiting {
    Perhaps,
    /// The socket was empty when it was tried last.
    No,
    /// A receive failed: the socket isn't tried again in this turn.
    Lost,
}

/// Where a turn stands that takes datagrams from the server's two sockets.
#[derive(Clone, Copy, PartialEq, Eq)]
pub struct Polling {
    /// How many more it takes.
    pub(crate) left: usize,
    /// Which socket it tries first.
    pub(crate) first: Proto,
    pub(crate) v4: Waiting,
    pub(crate) v6: Waiting,
}

/// The other protocol.
fn other(proto: Proto) -> Proto
    ensures { result ≡ other proto }
{
    match proto {
        Proto::V4 => Proto::V6,
        Proto::V6 => Proto::V4,
    }
}

impl Waiting {
    /// What is known of a socket after a datagram was taken from either of the two.
    fn again(self) -> Waiting
        ensures { result ≡ again self }
    {
        match self {
            Waiting::Perhaps | Waiting::No => Waiting::Perhaps,
            Waiting::Lost => Waiting::Lost,
        }
    }
}

impl Polling {
    /// Whether a datagram may wait at this socket.
    fn may_wait_at(&self, proto: Proto) -> bool
        ensures { result ≡ may_wait (waiting_at proto self.now) }
    {
        match proto {
            Proto::V4 => matches!(self.v4, Waiting::Perhaps),
            Proto::V6 => matches!(self.v6, Waiting::Perhaps),
        }
    }

    /// The socket that is tried next, if any.
    pub(crate) fn next(&self) -> Option<Proto>
        ensures { result ≡ next_of self.now }
    {
        let (first, second) = (self.first, other(self.first));
        if self.left == 0 {
            None
        } else if self.may_wait_at(first) {
            Some(first)
        } else if self.may_wait_at(second) {
            Some(second)
        } else {
            None
        }
    }

    /// This came of a try of this socket.
    pub(crate) fn tried(&mut self, proto: Proto, attempt: Attempt)
        requires { 0 < self.old.left }
        ensures { self.new ≡ after_attempt proto attempt self.old }
    {
        match (attempt, proto) {
            (Attempt::Took(..), _) => {
                self.left -= 1;
                self.first = other(proto);
                (self.v4, self.v6) = (self.v4.again(), self.v6.again());
            }
            (Attempt::Empty, Proto::V4) => self.v4 = Waiting::No,
            (Attempt::Empty, Proto::V6) => self.v6 = Waiting::No,
            (Attempt::Failed, Proto::V4) => self.v4 = Waiting::Lost,
            (Attempt::Failed, Proto::V6) => self.v6 = Waiting::Lost,
        }
    }
}
