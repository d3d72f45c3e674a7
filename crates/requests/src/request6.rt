//! What a client's DHCPv6 message asks of the book.
ghost use Rattle.std.specs.Prelude.{◌≡◌, ◌≤◌, Ok, Err, Some, map, option_map};
ghost use Rattle.std.specs.Option.{option_and_then};
ghost use Rattle.v6_options.specs.Codes.{CLIENT_ID, IA_ADDRESS, IA_NA};
ghost use Rattle.v6_options.specs.Spelling.{look_up};
ghost use Rattle.v6_message.specs.Ia.{addresses_in, ia_of};
ghost use Rattle.v6_message.specs.Lists.{count};
ghost use Rattle.requests.specs.Request6.{client_request, request6_in, server_in};

use arrayvec::ArrayVec;
use config::CircuitPart;
use exchange::{MAX_LISTED, Request6, ServerId};
use types::{Addr6, Discard, Key6, Kind6};
use v6_message::{Ia6, Message6};

/// The bytes before a message's options: without them it has no type.
const HEADER: usize = 4;

/// The message that a Relay-forward carries, and what it asks of the circuit's book, or why it asks
/// nothing.
pub fn request6_in<'a>(
    part: &CircuitPart,
    bytes: &'a [u8],
) -> Result<(Message6<'a>, Request6), Discard>
    ensures { result ≡ request6_in part.now.duid bytes.now }
{
    if bytes.len() < HEADER {
        return Err(Discard::Malformed);
    }
    let Some(kind) = Kind6::new(bytes[0]) else {
        return Err(Discard::NotServed);
    };
    let Ok(message) = Message6::read(bytes) else {
        return Err(Discard::Malformed);
    };
    match client_request(part, kind, &message) {
        Ok(request) => Ok((message, request)),
        Err(why) => Err(why),
    }
}

/// What a message of this type asks, if it has a client id that is a DUID.
fn client_request(
    part: &CircuitPart,
    kind: Kind6,
    message: &Message6<'_>,
) -> Result<Request6, Discard>
    ensures { result
        ≡ client_request part.now.duid kind message.now (look_up CLIENT_ID message.now.options)
        (option_and_then ia_of (look_up IA_NA message.now.options)) }
{
    let ia = message.ia();
    let Some(client) = message.client_id() else {
        return Err(Discard::ClientKey);
    };
    let Some(key) = Key6::new(client, ia.iaid()) else {
        return Err(Discard::ClientKey);
    };
    Ok(Request6 {
        kind,
        key,
        server: server_in(part.duid().as_slice(), message.server_id()),
        listed: listed_in(ia),
    })
}

/// Which server a message names, by this server's DUID and the message's option 2.
fn server_in(duid: &[u8], named: Option<&[u8]>) -> ServerId
    ensures { result ≡ server_in duid.now (option_map (λ value. value.now) named.entry) }
{
    match named {
        None => ServerId::None,
        Some(id) if id == duid => ServerId::Ours,
        Some(_) => ServerId::Other,
    }
}

/// The addresses in an IA_NA, in order.
fn listed_in(ia: &Ia6<'_>) -> ArrayVec<Addr6, MAX_LISTED>
    requires { count IA_ADDRESS ia.now.options ≤ 4 }
    ensures { result.items ≡ map (λ a. record { 0 = a.address }) (addresses_in ia.now.options) }
{
    let mut listed = ArrayVec::new();
    let mut left = ia.addresses();
    'addresses: while let Some(found) = left.next() {
        listed.push(found.address);
    }
    listed
}
