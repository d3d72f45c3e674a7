//! When circuits are looked at.
ghost use Rattle.std.specs.Prelude.{◌≡◌, max};
ghost use Rattle.reports.specs.Looks.{includes, no_look_yet, scope_at};

use types::Moment;

/// Which circuits are looked at.
#[derive(Clone, Copy)]
pub enum Scope {
    All,
    /// Those of which datagrams were taken since they were looked at.
    WithTraffic,
    Nothing,
}

impl Scope {
    /// Whether a circuit is looked at, with or without traffic since the last look at it.
    pub fn includes(self, has_traffic: bool) -> bool
        ensures { result ≡ includes self has_traffic }
    {
        match self {
            Scope::All => true,
            Scope::WithTraffic => has_traffic,
            Scope::Nothing => false,
        }
    }
}

/// When circuits are looked at: all in each new second. In between, where leases are listed and datagrams were received since the
/// last look, those with traffic.
#[derive(Clone, Copy)]
pub struct Looks {
    lists_leases: bool,
    /// The last second in which all circuits were looked at.
    second: u64,
    /// How many datagrams had been received at the last look.
    received: u64,
}

impl Looks {
    pub fn new(lists_leases: bool) -> Looks
        ensures { result ≡ no_look_yet lists_leases }
    {
        Looks {
            lists_leases,
            second: 0,
            received: 0,
        }
    }

    /// Whether leases are listed.
    pub fn lists_leases(&self) -> bool
        ensures { result ≡ self.now.lists_leases }
    {
        self.lists_leases
    }

    /// Which circuits are looked at at this moment, by when so many datagrams were received.
    pub fn look(&mut self, now: Moment, received: u64) -> Scope
        ensures scope { result ≡ scope_at self.old now received }
        ensures next { self.new ≡ record self.old { second = max self.old.second now; received = received } }
    {
        let has_traffic = self.received != received;
        self.received = received;
        if now.seconds() > self.second {
            self.second = now.seconds();
            return Scope::All;
        }
        if self.lists_leases && has_traffic {
            Scope::WithTraffic
        } else {
            Scope::Nothing
        }
    }
}
