//! The datagrams of DHCPv6 replies (RFC 8415, sections 18.3 and 19.3).
ghost use Rattle.std.specs.Prelude.{◌≡◌, ℕ, ◌≤◌, ◌+◌, ◌*◌, List, [], ◌∷◌, ◌++◌, length, map, None, Ok};
ghost use Rattle.exchange.specs.declared.request6.ReplyIa.TheVariants.{Given};
ghost use Rattle.v6_options.specs.Codes.{IA_NA, INTERFACE_ID, RELAY_MESSAGE};
ghost use Rattle.v6_options.specs.Spelling.{option, spelling};
ghost use Rattle.v6_message.specs.Ia.{ia_header};
ghost use Rattle.v6_message.specs.Message.{MessageValue, SpellsMessage, message_bytes};
ghost use Rattle.v6_message.specs.MessageReading.{message_of};
ghost use Rattle.v6_message.specs.Relay.{SpellsRelay, relay_header};
ghost use Rattle.v6_message.specs.RelayReading.{relay_of};
ghost use Rattle.config.specs.CircuitPart.{IsPart};
ghost use Rattle.replies.specs.Reply6.{IsReplyIa, read_within, relay_reply, reply6_bytes, reply_message};
ghost use Rattle.replies.specs.Reply6.{address_option, ia_options, reply_options, status_option, status_options};

use crate::laws;
use arrayvec::ArrayVec;
use config::CircuitPart;
use exchange::{MAX_LISTED, Reply6, ReplyIa, Status6};
use types::{Addr6, Key6};
use v6_message::{IaAddress, IaHeader, Message6, MessageHeader, RELAY_REPLY, Relay6, RelayHeader};
use v6_options::code;
use wire::PacketBuf;

/// The bytes of a message before its options.
const MESSAGE_HEADER: usize = 4;

/// The bytes of an option before its value.
const OPTION_HEAD: usize = 4;

/// The bytes of an IA_NA before its options.
const IA_HEAD: usize = 16;

/// The bytes of a status as an option.
const STATUS_LEN: usize = 6;

/// The bytes of an address as an option.
const ADDRESS_LEN: usize = 28;

/// Writes a reply to this client's message in this Relay-forward of the circuit, over whatever `out` held. It reads back
/// as the Relay-reply that it is, and what that carries spells the client's reply, which reads back in turn if it is
/// within the limits for reading.
pub fn write6(
    part: &CircuitPart,
    request: &Relay6<'_>,
    message: &Message6<'_>,
    client: &Key6,
    reply: &Reply6,
    out: &mut PacketBuf,
)
    ensures bytes { out.new ≡ reply6_bytes part.now request.now message.now client.now reply.now }
    ensures fits { length out.new ≤ 508 }
    ensures without_status { reply.now.status ≡ None → length out.new ≤ 502 }
    ensures spelled { SpellsRelay out.new (relay_reply part.now request.now message.now client.now reply.now) }
    ensures again { relay_of out.new ≡ Ok (relay_reply part.now request.now message.now client.now reply.now) }
    ensures inside { SpellsMessage (message_bytes (reply_message part.now message.now client.now reply.now))
        (reply_message part.now message.now client.now reply.now) }
    ensures inside_again { message_of (message_bytes (reply_message part.now message.now client.now reply.now))
        ≡ read_within reply.now.ia (reply_message part.now message.now client.now reply.now) }
{
    laws::reply6_is_read();
    keeps_limits(part, request, message, client);
    put_header(request, out);
    put(code::INTERFACE_ID, part.id().as_bytes(), out);
    put_message(part, message, client, reply, out);
}

/// For its contract: the limits that the types of a circuit's part, a Relay-forward, a message and a client keep.
fn keeps_limits(part: &CircuitPart, request: &Relay6<'_>, message: &Message6<'_>, client: &Key6)
    ensures sound { IsPart part.now }
    ensures link { length request.now.link_address ≡ 16 }
    ensures peer { length request.now.peer_address ≡ 16 }
    ensures id { length message.now.transaction_id ≡ 3 }
    ensures duid { length client.now.duid ≤ 130 }
{
    let _duid = part.duid();
    let _link = request.link_address();
    let _peer = request.peer_address();
    let _id = message.transaction_id();
    let _client = client.duid();
}

/// The Relay-reply's header, over whatever `out` held.
fn put_header(request: &Relay6<'_>, out: &mut PacketBuf)
    ensures bytes { out.new ≡ relay_header 13 request.now.hop_count request.now.link_address request.now.peer_address }
    ensures len { length out.new ≡ 34 }
{
    out.clear();
    let header = RelayHeader {
        kind: RELAY_REPLY,
        hop_count: request.hop_count(),
        link_address: request.link_address(),
        peer_address: request.peer_address(),
    };
    let _ = header.write(out);
}

/// Option 9 with the client's reply: at most 438 bytes.
fn put_message(
    part: &CircuitPart,
    message: &Message6<'_>,
    client: &Key6,
    reply: &Reply6,
    out: &mut PacketBuf,
)
    requires { length out.old + 438 ≤ 1280 }
    ensures bytes { out.new ≡ out.old ++ option RELAY_MESSAGE (message_bytes (reply_message part.now message.now client.now reply.now)) }
    ensures len { length out.new ≤ length out.old + 438 }
    ensures without_status { reply.now.status ≡ None → length out.new ≤ length out.old + 432 }
    ensures whole { IsReplyIa reply.now.ia }
{
    let header = MessageHeader {
        kind: reply.kind.code(),
        transaction_id: message.transaction_id(),
    };
    put_head(code::RELAY_MESSAGE, message_len(part, client, reply), out);
    let _ = header.write(out);
    put_options(part, client, reply, out);
}

/// How many bytes the client's reply has: at most 434.
fn message_len(part: &CircuitPart, client: &Key6, reply: &Reply6) -> usize
    ensures value { (message : MessageValue) → length message.transaction_id ≡ 3 → IsReplyIa reply.now.ia
        → length (message_bytes (reply_message part.now message client.now reply.now)) ≡ result }
    ensures most { result ≤ 434 }
    ensures without_status { reply.now.status ≡ None → result ≤ 428 }
{
    let ids = 2 * OPTION_HEAD + client.duid().len() + part.duid().len();
    let status = match reply.status {
        None => 0,
        Some(_) => STATUS_LEN,
    };
    MESSAGE_HEADER + ids + status + ia_len(&reply.ia)
}

/// The options in the order sent: at most 430 bytes.
fn put_options(part: &CircuitPart, client: &Key6, reply: &Reply6, out: &mut PacketBuf)
    requires { length out.old + 430 ≤ 1280 }
    ensures bytes { out.new ≡ out.old ++ spelling (reply_options part.now client.now reply.now) }
    ensures whole { IsReplyIa reply.now.ia }
{
    put(code::CLIENT_ID, client.duid(), out);
    put(code::SERVER_ID, part.duid().as_slice(), out);
    put_status_of_all(reply.status, out);
    put_ia(part.lease(), client.iaid(), &reply.ia, out);
}

/// The status of the whole message, if it has one: at most 6 bytes.
fn put_status_of_all(status: Option<Status6>, out: &mut PacketBuf)
    requires { length out.old + 6 ≤ 1280 }
    ensures bytes { out.new ≡ out.old ++ spelling (status_options status) }
    ensures len { length out.new ≤ length out.old + 6 }
{
    if let Some(status) = status {
        put_status(status, out);
    }
}

/// The IA_NA, if there is one: at most 156 bytes.
fn put_ia(lease: u32, iaid: u32, ia: &ReplyIa, out: &mut PacketBuf)
    requires { length out.old + 156 ≤ 1280 }
    ensures bytes { out.new ≡ out.old ++ spelling (ia_options lease iaid ia.now) }
    ensures whole { IsReplyIa ia.now }
{
    match ia {
        ReplyIa::None => {}
        ReplyIa::Status(status) => {
            put_ia_head(iaid, 0, 0, STATUS_LEN, out);
            put_status(*status, out);
        }
        ReplyIa::Given(zeroed, leased) => {
            let t2 = (4 * u64::from(lease) / 5) as u32;
            put_ia_head(iaid, lease / 2, t2, addresses_len(zeroed), out);
            put_addresses(lease, zeroed, *leased, out);
        }
    }
}

/// How many bytes the IA_NA has, 0 if there is none.
fn ia_len(ia: &ReplyIa) -> usize
    ensures value { (lease : ℕ) (iaid : ℕ) → IsReplyIa ia.now → length (spelling (ia_options lease iaid ia.now)) ≡ result }
    ensures most { result ≤ 156 }
{
    match ia {
        ReplyIa::None => 0,
        ReplyIa::Status(_) => IA_HEAD + STATUS_LEN,
        ReplyIa::Given(zeroed, _) => IA_HEAD + addresses_len(zeroed),
    }
}

/// The IA_NA up to its options, which have `len` bytes and are to follow: 16 bytes.
fn put_ia_head(iaid: u32, t1: u32, t2: u32, len: usize, out: &mut PacketBuf)
    requires { length out.old + len + 16 ≤ 1280 }
    ensures bytes { (options : List ℕ) → length options ≡ len
        → out.new ++ options ≡ out.old ++ option IA_NA (ia_header iaid t1 t2 ++ options) }
    ensures len { length out.new ≡ length out.old + 16 }
{
    let header = IaHeader { iaid, t1, t2 };
    put_head(code::IA_NA, IA_HEAD - OPTION_HEAD + len, out);
    let _ = header.write(out);
}

/// The zeroed addresses and the leased one: at most 140 bytes.
fn put_addresses(
    lease: u32,
    zeroed: &ArrayVec<Addr6, MAX_LISTED>,
    leased: Addr6,
    out: &mut PacketBuf,
)
    requires { length out.old + 140 ≤ 1280 }
    ensures bytes { out.new ≡ out.old ++ spelling (map (address_option 0) zeroed.now.items ++ address_option lease leased ∷ []) }
    ensures whole { IsReplyIa (Given zeroed.now leased) }
{
    for address in zeroed.as_slice() {
        put_address(*address, 0, out);
    }
    put_address(leased, lease, out);
}

/// How many bytes the zeroed addresses and the leased one have: at most 140.
fn addresses_len(zeroed: &ArrayVec<Addr6, MAX_LISTED>) -> usize
    ensures value { result ≡ 28 * (1 + length zeroed.now.items) }
    ensures most { result ≤ 140 }
{
    ADDRESS_LEN * (1 + zeroed.len())
}

/// An address with both lifetimes.
fn put_address(address: Addr6, lifetime: u32, out: &mut PacketBuf)
    requires { length out.old + 28 ≤ 1280 }
    ensures bytes { out.new ≡ out.old ++ spelling (address_option lifetime address ∷ []) }
    ensures len { length out.new ≡ length out.old + 28 }
    ensures whole { length address.0 ≡ 16 }
{
    let address = IaAddress {
        address,
        preferred_lifetime: lifetime,
        valid_lifetime: lifetime,
    };
    let _ = address.write(out);
}

/// A status without a text.
fn put_status(status: Status6, out: &mut PacketBuf)
    requires { length out.old + 6 ≤ 1280 }
    ensures bytes { out.new ≡ out.old ++ spelling (status_option status ∷ []) }
    ensures len { length out.new ≡ length out.old + 6 }
{
    put(code::STATUS_CODE, &status.code().to_be_bytes(), out);
}

/// Appends the code of an option for which there is room and the length of its value, which is to follow.
fn put_head(code: u16, len: usize, out: &mut PacketBuf)
    requires { length out.old + len + 4 ≤ 1280 }
    ensures bytes { (value : List ℕ) → length value ≡ len → out.new ++ value ≡ out.old ++ option code value }
    ensures len { length out.new ≡ length out.old + 4 }
{
    let _ = v6_options::put_head(code, len as u16, out);
}

/// Appends an option for which there is room.
fn put(code: u16, value: &[u8], out: &mut PacketBuf)
    requires { length out.old + length value.now + 4 ≤ 1280 }
    ensures bytes { out.new ≡ out.old ++ option code value.now }
    ensures len { length out.new ≡ length out.old + length value.now + 4 }
{
    let _ = v6_options::put(code, value, out);
}
