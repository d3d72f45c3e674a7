//! What a client's message asks of the book.
ghost use Rattle.std.specs.Prelude.{◌≡◌, true, false, IfSome, IfNone};
ghost use Rattle.requests.specs.Request4.{is_from_server, is_key, key_of, request4_in};

use exchange::Request4;
use types::{Discard, Key4, Kind4};
use v4_message::Message;
use v4_message::field::ETHERNET;

/// The message as the book is asked, or why it is not asked.
pub fn request4_in(message: &Message<'_>) -> Result<Request4, Discard>
    ensures { result ≡ request4_in message.now }
{
    let kind = message.kind();
    if is_from_server(kind) {
        return Err(Discard::NotServed);
    }
    let Some(key) = client_key(message) else {
        return Err(Discard::ClientKey);
    };
    Ok(Request4 {
        kind,
        key,
        server: message.server_identifier(),
        wanted: message.requested_address(),
        ciaddr: message.ciaddr(),
    })
}

/// Whether only a server sends this type.
fn is_from_server(kind: Kind4) -> bool
    ensures { result ≡ is_from_server kind }
{
    match kind {
        Kind4::Discover => false,
        Kind4::Offer => true,
        Kind4::Request => false,
        Kind4::Decline => false,
        Kind4::Ack => true,
        Kind4::Nak => true,
        Kind4::Release => false,
        Kind4::Inform => false,
    }
}

/// The client's key: option 61, else the hardware type and address (RFC 2131, section 4.2); `None`
/// outside 2 to 64 bytes.
fn client_key(message: &Message<'_>) -> Option<Key4>
    ensures key { IfSome result (λ key. key ≡ key_of message.now) }
    ensures served { IfSome result (λ key. is_key key ≡ true) }
    ensures none { IfNone result (is_key (key_of message.now) ≡ false) }
{
    match message.client_identifier() {
        Some(identifier) => Key4::new(identifier),
        None => {
            let chaddr = message.chaddr();
            Key4::new(&[
                ETHERNET, chaddr[0], chaddr[1], chaddr[2], chaddr[3], chaddr[4], chaddr[5],
            ])
        }
    }
}
