//! Where the options stand that relays and servers look for, found while a list is read.
ghost use Rattle.std.specs.Prelude.{◌≡◌, ◌==◌, ◌&&◌, if◌then◌else◌, ℕ, List, ◌∷◌, Some};
ghost use Rattle.v4_options.specs.Codes.{RELAY_AGENT_INFORMATION};
ghost use Rattle.v4_options.specs.Places.{ArePlaced, IsWithin, value_at};

use crate::code;

/// Where the values of the options stand that relays and servers look for, so that whoever wants one does not walk over the list
/// again: the place of the length before each value, 0 where there is no such option. Of each code it is the first.
#[derive(Clone, Copy)]
pub(crate) struct Places {
    pub(crate) requested: usize,
    pub(crate) overload: usize,
    pub(crate) kind: usize,
    pub(crate) server: usize,
    pub(crate) client: usize,
    pub(crate) agent: usize,
}

/// The first place of two, which is 0 where there was none yet.
fn put(first: &mut usize, place: usize)
    ensures { first.new ≡ (if first.old == 0 then place else first.old) }
{
    if *first == 0 {
        *first = place;
    }
}

impl Places {
    /// Before the first option of a list.
    pub(crate) fn none() -> Places
        ensures all { (bytes : List ℕ) (list : List (ℕ × List ℕ)) → ArePlaced bytes result list list }
        ensures agent { result.agent ≡ 0 }
    {
        Places {
            requested: 0,
            overload: 0,
            kind: 0,
            server: 0,
            client: 0,
            agent: 0,
        }
    }

    /// The next option of the list, the length of whose value stands here.
    #[rattlefmt::skip]
    pub(crate) fn add(&mut self, code: u8, place: usize)
        ensures all { (bytes value : List ℕ) (rest whole : List (ℕ × List ℕ)) → value_at bytes place ≡ Some value
            → IsWithin bytes place → ArePlaced bytes self.old ((code, value) ∷ rest) whole
            → ArePlaced bytes self.new rest whole }
        ensures agent { self.new.agent ≡ (if code == RELAY_AGENT_INFORMATION && self.old.agent == 0 then place else self.old.agent) }
    {
        match code {
            code::REQUESTED_ADDRESS       => put(&mut self.requested, place),
            code::OPTION_OVERLOAD         => put(&mut self.overload, place),
            code::MESSAGE_TYPE            => put(&mut self.kind, place),
            code::SERVER_IDENTIFIER       => put(&mut self.server, place),
            code::CLIENT_IDENTIFIER       => put(&mut self.client, place),
            code::RELAY_AGENT_INFORMATION => put(&mut self.agent, place),
            _ => {}
        }
    }
}
