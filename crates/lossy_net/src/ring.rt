//! Where the datagrams of one circuit and direction lie among their places.
ghost use Rattle.std.specs.Prelude.{◌≡◌, ◌+◌, ◌≤◌, ◌<◌, ◌%◌, min};
ghost use Rattle.lossy_net.specs.Ring.{before};

/// The newest lies in place `newest`, and each older one in the next place; after the last place
/// comes the first.
#[derive(Clone, Copy)]
pub(crate) struct Ring {
    pub(crate) newest: usize,
    pub(crate) len: usize,
}

impl Ring {
    /// A ring of no datagrams.
    pub(crate) const EMPTY: Ring = Ring { newest: 0, len: 0 };

    /// The ring with one datagram more, in the place before the newest. The oldest is lost where all
    /// places are in use.
    pub(crate) fn next(self, quota: usize) -> Ring
        requires newest { self.newest < quota }
        requires len { self.len ≤ quota }
        ensures newest { result.newest ≡ before quota self.newest }
        ensures len { result.len ≡ min quota (self.len + 1) }
    {
        let newest = if self.newest == 0 {
            quota - 1
        } else {
            self.newest - 1
        };
        let len = if self.len == quota {
            quota
        } else {
            self.len + 1
        };
        Ring { newest, len }
    }

    /// The place of the datagram with this number, 0 the newest.
    pub(crate) fn position(self, number: usize, quota: usize) -> usize
        requires newest { self.newest < quota }
        requires number { number < quota }
        requires most { quota ≤ 256 }
        ensures { result ≡ (self.newest + number) % quota }
    {
        (self.newest + number) % quota
    }
}
