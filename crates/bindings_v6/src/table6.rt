//! What a client's message calls for: a table, one row a line (RFC 8415, section 18.3).
ghost use Rattle.std.specs.Prelude.{◌≡◌, ◌+◌, ◌≤◌, Some, length, option_map, if◌then◌else◌};
ghost use Rattle.types.specs.Addr.{number6};
ghost use Rattle.types.specs.declared.discard.Discard.TheVariants.{OtherServer};
ghost use Rattle.bindings_v6.specs.Book6.{in_pool};
ghost use Rattle.bindings_v6.specs.Lookup6.{IsLookup, decision_in, lookup_of, number_of};
ghost use Rattle.slots.specs.Row.{Unchanged, drops};
ghost use Rattle.bindings_v6.specs.Table6.{others, is_listed, where_listed, is_off_link, first_listed, solicit_row};
ghost use Rattle.bindings_v6.specs.Table6.{request_row, renew_row, confirm_row, no_binding, release_row, decline_row};
ghost use Rattle.bindings_v6.specs.Table6.{is_for_us, row_of};

use crate::case6::{Case6, SlotAddress, assignment, message_status, refusal};
use crate::decision6::Decision6;
use crate::server6::is_for_us;
use arrayvec::ArrayVec;
use exchange::{MAX_LISTED, Reply6, ReplyIa, ReplyKind6, Request6, Status6};
use types::{Addr6, Discard, Kind6, Pool6};

/// What the table looks at of a client: its live binding, and its pick.
#[derive(Clone, Copy)]
pub struct Lookup6 {
    pub binding: Option<SlotAddress>,
    pub pick: Option<SlotAddress>,
}

/// The first address that a client lists.
pub fn first_listed(listed: &[Addr6]) -> Option<Addr6>
    ensures { option_map number6 result ≡ first_listed listed.now }
{
    match listed {
        [] => None,
        [first, ..] => Some(*first),
    }
}

/// The listed addresses but this one, in order.
fn others(listed: &[Addr6], address: Addr6) -> ArrayVec<Addr6, MAX_LISTED>
    requires { length listed.now ≤ 4 }
    ensures { result.items ≡ others (number6 address) listed.now }
{
    let mut others = ArrayVec::new();
    for other in listed {
        if other.number() != address.number() {
            others.push(*other);
        }
    }
    others
}

fn is_listed(listed: &[Addr6], address: Addr6) -> bool
    ensures { result ≡ is_listed listed.now (number6 address) }
{
    listed
        .iter()
        .any(|other| other.number() == address.number())
}

/// Whether a client lists the address that it has.
fn where_listed(listed: &[Addr6], held: Option<SlotAddress>) -> bool
    ensures { result ≡ where_listed listed.now (number_of held) }
{
    match held {
        None => false,
        Some(held) => is_listed(listed, held.address),
    }
}

/// Whether the link has this address: the pool is all of the link.
fn is_on_link(pool: Pool6, address: Addr6) -> bool
    ensures { result ≡ in_pool pool (number6 address) }
{
    pool.slot(address).is_some()
}

/// Whether a listed address is not the link's.
fn is_off_link(pool: Pool6, listed: &[Addr6]) -> bool
    ensures { result ≡ is_off_link pool listed.now }
{
    listed.iter().any(|address| !is_on_link(pool, *address))
}

/// Solicit (RFC 8415, section 18.3.1).
fn solicit_row(case: &Case6, found: &Lookup6) -> Decision6
    requires { IsLookup case.now.pool found.now }
    ensures { result ≡ decision_in case.now (solicit_row (lookup_of found.now).pick) }
{
    match found.pick {
        Some(pick) => case.replies(assignment(
            ReplyKind6::Advertise,
            ArrayVec::new(),
            pick.address,
        )),
        None => case.replies(refusal(ReplyKind6::Advertise, Status6::NoAddrsAvail)),
    }
}

/// Request (RFC 8415, section 18.3.2).
#[rattlefmt::skip]
fn request_row(case: &Case6, found: &Lookup6, off_link: bool) -> Decision6
    requires { IsLookup case.now.pool found.now }
    ensures { result ≡ decision_in case.now (request_row (case.now.clock + case.now.pool.lease) off_link (lookup_of found.now).pick) }
{
    //     off the link  pick
    match (off_link,     found.pick) {
          (true,         _)          => case.replies(refusal(ReplyKind6::Reply, Status6::NotOnLink)),
          (false,        Some(pick)) => case.grants(ArrayVec::new(), pick),
          (false,        None)       => case.replies(refusal(ReplyKind6::Reply, Status6::NoAddrsAvail)),
    }
}

/// Renew and Rebind (RFC 8415, sections 18.3.4 and 18.3.5).
fn renew_row(case: &Case6, found: &Lookup6, listed: &[Addr6]) -> Decision6
    requires at { IsLookup case.now.pool found.now }
    requires few { length listed.now ≤ 4 }
    ensures { result ≡ decision_in case.now (renew_row (case.now.clock + case.now.pool.lease) listed.now (lookup_of found.now).binding) }
{
    match found.binding {
        Some(bound) => case.grants(others(listed, bound.address), bound),
        None => case.replies(refusal(ReplyKind6::Reply, Status6::NoBinding)),
    }
}

/// Confirm (RFC 8415, section 18.3.3).
#[rattlefmt::skip]
fn confirm_row(case: &Case6, listed: &[Addr6], off_link: bool) -> Decision6
    ensures { result ≡ decision_in case.now (confirm_row listed.now off_link) }
{
    //     listed       off the link
    match (listed,      off_link) {
          ([],          _)     => case.drops(Discard::NothingToSay),
          ([_, ..],     true)  => case.replies(message_status(Status6::NotOnLink)),
          ([_, ..],     false) => case.replies(message_status(Status6::Success)),
    }
}

/// A client without a binding gives one up.
fn no_binding(case: &Case6) -> Decision6
    ensures { result ≡ decision_in case.now no_binding }
{
    case.replies(Reply6 {
        kind: ReplyKind6::Reply,
        status: Some(Status6::Success),
        ia: ReplyIa::Status(Status6::NoBinding),
    })
}

/// Release (RFC 8415, section 18.3.7).
#[rattlefmt::skip]
fn release_row(case: &Case6, found: &Lookup6, listed: bool) -> Decision6
    requires { IsLookup case.now.pool found.now }
    ensures { result ≡ decision_in case.now (release_row (lookup_of found.now).binding listed) }
{
    //     binding         listed
    match (found.binding,  listed) {
          (Some(bound),    true)  => case.frees(bound),
          (Some(_),        false) => case.replies(message_status(Status6::Success)),
          (None,           _)     => no_binding(case),
    }
}

/// Decline (RFC 8415, section 18.3.8).
#[rattlefmt::skip]
fn decline_row(case: &Case6, found: &Lookup6, listed: bool) -> Decision6
    requires { IsLookup case.now.pool found.now }
    ensures { result ≡ decision_in case.now (decline_row case.now.clock (lookup_of found.now).binding listed) }
{
    //     binding         listed
    match (found.binding,  listed) {
          (Some(bound),    true)  => case.bars(bound),
          (Some(_),        false) => case.replies(message_status(Status6::Success)),
          (None,           _)     => no_binding(case),
    }
}

/// What a message calls for, by its type.
#[rattlefmt::skip]
fn row_of(case: &Case6, found: &Lookup6, listed: &[Addr6], kind: Kind6) -> Decision6
    requires at { IsLookup case.now.pool found.now }
    requires few { length listed.now ≤ 4 }
    ensures { result ≡ decision_in case.now (row_of case.now.pool case.now.clock (lookup_of found.now) listed.now kind) }
{
    let off_link = is_off_link(case.pool, listed);
    let bound_listed = where_listed(listed, found.binding);
    match kind {
        Kind6::Solicit => solicit_row(case, found),
        Kind6::Request => request_row(case, found, off_link),
        Kind6::Renew   => renew_row(case, found, listed),
        Kind6::Rebind  => renew_row(case, found, listed),
        Kind6::Confirm => confirm_row(case, listed, off_link),
        Kind6::Release => release_row(case, found, bound_listed),
        Kind6::Decline => decline_row(case, found, bound_listed),
    }
}

/// What a message calls for, by whom it is for and by its type.
pub fn decision_for(case: &Case6, found: &Lookup6, request: &Request6) -> Decision6
    requires { IsLookup case.now.pool found.now }
    ensures { result ≡ decision_in case.now (if is_for_us request.now.kind request.now.server
        then row_of case.now.pool case.now.clock (lookup_of found.now) request.now.listed.items request.now.kind
        else drops OtherServer Unchanged) }
{
    if is_for_us(request.kind, request.server) {
        row_of(case, found, request.listed.as_slice(), request.kind)
    } else {
        case.drops(Discard::OtherServer)
    }
}
