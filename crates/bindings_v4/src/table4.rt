//! What a client's message calls for: a table, one row a line (RFC 2131, section 4.3).
ghost use Rattle.std.specs.Prelude.{◌≡◌, ◌+◌, Some, IfSome, option_map};
ghost use Rattle.types.specs.Addr.{number4};
ghost use Rattle.bindings_v4.specs.Book4.{in_pool};
ghost use Rattle.bindings_v4.specs.Lookup4.{IsAt, IsLookup, decision_in, lookup_of, number_of};
ghost use Rattle.bindings_v4.specs.Table4.{discover_row, other_server_row, selecting_row, known_address_row};
ghost use Rattle.bindings_v4.specs.Table4.{no_server_row, decline_row, release_row, inform_row, where_is};
ghost use Rattle.bindings_v4.specs.Table4.{where_specified, server_of, row_of};

use crate::case4::{Case4, SlotAddress};
use crate::decision4::Decision4;
use crate::server4::{Server4, server_of};
use exchange::{Reply4, Request4};
use types::{Addr4, Discard, Kind4};

/// What the table looks at of a client: its live binding, its live offer, and its pick.
#[derive(Clone, Copy)]
pub struct Lookup4 {
    pub binding: Option<SlotAddress>,
    pub offer: Option<SlotAddress>,
    pub pick: Option<SlotAddress>,
}

/// The address, where it is not 0.0.0.0.
fn where_specified(address: Addr4) -> Option<Addr4>
    ensures { option_map number4 result ≡ where_specified address }
{
    if address.is_unspecified() {
        None
    } else {
        Some(address)
    }
}

/// The address that a client has, where it is the one that it names.
fn where_is(
    case: &Case4<'_>,
    held: Option<SlotAddress>,
    named: Option<Addr4>,
) -> Option<SlotAddress>
    requires { IfSome held (λ found. IsAt case.now.pool found) }
    ensures address { number_of result ≡ where_is (number_of held) (option_map number4 named) }
    ensures at { IfSome result (λ found. IsAt case.now.pool found) }
{
    match (held, named) {
        (Some(held), Some(named)) => {
            if held.address.number() == named.number() {
                Some(held)
            } else {
                None
            }
        }
        _ => None,
    }
}

/// DHCPDISCOVER (RFC 2131, section 4.3.1).
#[rattlefmt::skip]
fn discover_row(case: &Case4<'_>, found: &Lookup4) -> Decision4
    requires { IsLookup case.now.pool found.now }
    ensures { result ≡ decision_in case.now (discover_row case.now.clock (lookup_of found.now).pick (lookup_of found.now).binding) }
{
    //     pick        binding
    match (found.pick, found.binding) {
          (None,       _)       => case.drops(Discard::NoAddress),
          (Some(pick), Some(_)) => case.reoffers(pick),
          (Some(pick), None)    => case.offers(pick),
    }
}

/// DHCPREQUEST to another server, which the client chose (RFC 2131, section 3.1, step 3).
fn other_server_row(case: &Case4<'_>, found: &Lookup4) -> Decision4
    requires { IsLookup case.now.pool found.now }
    ensures { result ≡ decision_in case.now (other_server_row (lookup_of found.now).offer) }
{
    match found.offer {
        None => case.drops(Discard::OtherServer),
        Some(offered) => case.withdraws(offered),
    }
}

/// DHCPREQUEST to this server: SELECTING (RFC 2131, section 4.3.2). What the client has is its binding
/// or offer, where option 50 names it.
#[rattlefmt::skip]
fn selecting_row(case: &Case4<'_>, wanted: Option<Addr4>, held: Option<SlotAddress>) -> Decision4
    requires { IfSome held (λ found. IsAt case.now.pool found) }
    ensures { result
        ≡ decision_in case.now
        (selecting_row (case.now.clock + case.now.pool.lease) (option_map number4 wanted) (number_of held)) }
{
    //     option 50 what the client has
    match (wanted,   held) {
          (None,     _)          => case.drops(Discard::NothingToSay),
          (Some(_),  Some(held)) => case.grants(held),
          (Some(_),  None)       => case.replies(Reply4::Nak),
    }
}

/// A client that names the address that it has.
#[rattlefmt::skip]
fn known_address_row(case: &Case4<'_>, found: &Lookup4, address: Addr4) -> Decision4
    requires { IsLookup case.now.pool found.now }
    ensures { result
        ≡ decision_in case.now (known_address_row (case.now.clock + case.now.pool.lease)
        (in_pool case.now.pool (number4 address)) (lookup_of found.now).binding (number4 address)) }
{
    let bound = where_is(case, found.binding, Some(address));
    //     in the pool                         binding        the binding, where it is this address
    match (case.pool.slot(address).is_some(), found.binding, bound) {
          (false,                             _,             _)           => case.replies(Reply4::Nak),
          (true,                              Some(_),       Some(bound)) => case.grants(bound),
          (true,                              Some(_),       None)        => case.replies(Reply4::Nak),
          (true,                              None,          _)           => case.drops(Discard::NoRecord),
    }
}

/// DHCPREQUEST without option 54 (RFC 2131, section 4.3.2).
#[rattlefmt::skip]
fn no_server_row(case: &Case4<'_>, found: &Lookup4, request: &Request4) -> Decision4
    requires { IsLookup case.now.pool found.now }
    ensures { result
        ≡ decision_in case.now (no_server_row case.now.pool (case.now.clock + case.now.pool.lease)
        (lookup_of found.now).binding (option_map number4 request.now.wanted)
        (where_specified request.now.ciaddr)) }
{
    //     option 50       ciaddr
    match (request.wanted, where_specified(request.ciaddr)) {
          (Some(_),        Some(_))       => case.drops(Discard::NothingToSay),
          (None,           None)          => case.drops(Discard::NothingToSay),
          // INIT-REBOOT
          (Some(address),  None)          => known_address_row(case, found, address),
          // RENEWING, REBINDING
          (None,           Some(address)) => known_address_row(case, found, address),
    }
}

/// DHCPDECLINE (RFC 2131, section 4.3.3), by the binding that option 50 names.
fn decline_row(case: &Case4<'_>, bound: Option<SlotAddress>) -> Decision4
    requires { IfSome bound (λ found. IsAt case.now.pool found) }
    ensures { result ≡ decision_in case.now (decline_row case.now.clock (number_of bound)) }
{
    match bound {
        Some(bound) => case.bars(bound),
        None => case.drops(Discard::NothingToSay),
    }
}

/// DHCPRELEASE (RFC 2131, section 4.3.4), by the binding that ciaddr names.
fn release_row(case: &Case4<'_>, bound: Option<SlotAddress>) -> Decision4
    requires { IfSome bound (λ found. IsAt case.now.pool found) }
    ensures { result ≡ decision_in case.now (release_row (number_of bound)) }
{
    match bound {
        Some(bound) => case.frees(bound),
        None => case.drops(Discard::NothingToSay),
    }
}

/// DHCPINFORM (RFC 2131, section 4.3.5).
fn inform_row(case: &Case4<'_>, ciaddr: Addr4) -> Decision4
    ensures { result ≡ decision_in case.now (inform_row (where_specified ciaddr)) }
{
    match where_specified(ciaddr) {
        None => case.drops(Discard::NothingToSay),
        Some(_) => case.replies(Reply4::Inform),
    }
}

/// What a message calls for, by its type and by whom it is for.
#[rattlefmt::skip]
pub fn decision_for(case: &Case4<'_>, found: &Lookup4, request: &Request4) -> Decision4
    requires { IsLookup case.now.pool found.now }
    ensures { result ≡ decision_in case.now (row_of case.now.pool case.now.clock (lookup_of found.now) request.now request.now.kind
        (server_of case.now.pool request.now.server)) }
{
    let bound_wanted = where_is(case, found.binding, request.wanted);
    let bound_ciaddr = where_is(case, found.binding, Some(request.ciaddr));
    let held = bound_wanted.or(where_is(case, found.offer, request.wanted));
    //     type             option 54
    match (request.kind,    server_of(case.pool, request.server)) {
          (Kind4::Discover, _)                => discover_row(case, found),
          (Kind4::Request,  Server4::Another) => other_server_row(case, found),
          (Kind4::Request,  Server4::This)    => selecting_row(case, request.wanted, held),
          (Kind4::Request,  Server4::Anybody) => no_server_row(case, found, request),
          (Kind4::Decline,  Server4::Another) => case.drops(Discard::OtherServer),
          (Kind4::Decline,  _)                => decline_row(case, bound_wanted),
          (Kind4::Release,  Server4::Another) => case.drops(Discard::OtherServer),
          (Kind4::Release,  _)                => release_row(case, bound_ciaddr),
          (Kind4::Inform,   Server4::Another) => case.drops(Discard::OtherServer),
          (Kind4::Inform,   _)                => inform_row(case, request.ciaddr),
          // only a server sends these
          (Kind4::Offer,    _)                => case.drops(Discard::NotServed),
          (Kind4::Ack,      _)                => case.drops(Discard::NotServed),
          (Kind4::Nak,      _)                => case.drops(Discard::NotServed),
    }
}
