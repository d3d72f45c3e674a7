//! Whether saves have failed.
ghost use Rattle.std.specs.Prelude.{◌≡◌, ◌==◌, not};

/// How many datagrams had been dropped for a save that failed.
#[derive(Clone, Copy)]
pub struct Faults {
    dropped: u64,
}

impl Faults {
    pub fn new() -> Faults
        ensures { result.dropped ≡ 0 }
    {
        Faults { dropped: 0 }
    }

    /// Whether there are others now than at the last look.
    pub fn look(&mut self, dropped: u64) -> bool
        ensures differ { result ≡ not (self.old.dropped == dropped) }
        ensures kept { self.new.dropped ≡ dropped }
    {
        let differ = self.dropped != dropped;
        self.dropped = dropped;
        differ
    }
}
