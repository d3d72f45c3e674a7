//! The datagrams of DHCPv4 replies (RFC 2131, section 4.3.1, table 3).
ghost use Rattle.std.specs.Prelude.{◌≡◌, ◌≤◌, ◌+◌, ◌<◌, [], ◌∷◌, ◌++◌, length, take};
ghost use Rattle.std.specs.List.{flat_map};
ghost use Rattle.types.specs.Kind4.{code_of_kind};
ghost use Rattle.v4_options.specs.Spelling.{option, spelling, look_up};
ghost use Rattle.v4_message.specs.Header.{header_bytes};
ghost use Rattle.v4_message.specs.Layout.{MAGIC_COOKIE};
ghost use Rattle.v4_message.specs.Spelling.{MessageValue};
ghost use Rattle.wire.specs.Padding.{padded_to};
ghost use Rattle.replies.specs.Reply4.{ciaddr_in, echo, flags_in, inform_options, lease_options, mask, nak_options};
ghost use Rattle.replies.specs.Reply4.{name_servers, reply4_bytes, reply_header, reply_options, yiaddr_in};

use arrayvec::ArrayVec;
use config::{CircuitPart, MAX_DNS};
use exchange::Reply4;
use types::{Addr4, Kind4};
use v4_message::field::{FILE_LEN, SNAME_LEN};
use v4_message::{BROADCAST, Header, Message, OP_REPLY};
use v4_options::code;
use wire::PacketBuf;

/// The bytes of the shortest reply (RFC 1542, section 2.1); shorter ones are zero-padded.
const MIN_REPLY: usize = 300;

static NO_NAME: [u8; SNAME_LEN] = [0; SNAME_LEN];

static NO_FILE: [u8; FILE_LEN] = [0; FILE_LEN];

/// Writes a reply's datagram over whatever `out` held.
pub fn write4(part: &CircuitPart, request: &Message<'_>, reply: Reply4, out: &mut PacketBuf)
    ensures bytes { out.new ≡ reply4_bytes part.now request.now reply }
    ensures fits { length out.new ≤ 555 }
{
    put_header(request, reply, out);
    put_options(part, request, reply, out);
    put_end(out);
}

/// The header and the cookie, over whatever `out` held.
fn put_header(request: &Message<'_>, reply: Reply4, out: &mut PacketBuf)
    ensures bytes { out.new ≡ header_bytes (reply_header request.now reply) ++ MAGIC_COOKIE }
    ensures len { length out.new ≡ 240 }
{
    out.clear();
    let header = Header {
        op: OP_REPLY,
        hops: 0,
        xid: request.xid(),
        secs: [0; 2],
        flags: flags_in(request, reply),
        ciaddr: ciaddr_in(request, reply),
        yiaddr: yiaddr_in(reply),
        siaddr: Addr4::UNSPECIFIED,
        giaddr: request.giaddr(),
        chaddr: request.chaddr(),
        sname: &NO_NAME,
        file: &NO_FILE,
    };
    let _ = header.write(out);
}

/// A client that gets a NAK may have a wrong address, so the relay has to broadcast it (RFC 2131,
/// section 4.3.2).
fn flags_in(request: &Message<'_>, reply: Reply4) -> u16
    ensures { result ≡ flags_in request.now reply }
{
    match reply {
        Reply4::Offer(_) | Reply4::Ack(_) | Reply4::Inform => request.flags(),
        Reply4::Nak => request.flags() | BROADCAST,
    }
}

fn ciaddr_in(request: &Message<'_>, reply: Reply4) -> Addr4
    ensures { result.0 ≡ ciaddr_in request.now reply }
{
    match reply {
        Reply4::Offer(_) | Reply4::Nak => Addr4::UNSPECIFIED,
        Reply4::Ack(_) | Reply4::Inform => request.ciaddr(),
    }
}

fn yiaddr_in(reply: Reply4) -> Addr4
    ensures { result.0 ≡ yiaddr_in reply }
{
    match reply {
        Reply4::Offer(address) | Reply4::Ack(address) => address,
        Reply4::Inform | Reply4::Nak => Addr4::UNSPECIFIED,
    }
}

/// The options in the order sent: at most 314 bytes.
fn put_options(part: &CircuitPart, request: &Message<'_>, reply: Reply4, out: &mut PacketBuf)
    requires { length out.old + 314 ≤ 1280 }
    ensures bytes { out.new ≡ out.old ++ spelling (reply_options part.now request.now reply) }
    ensures len { length out.new ≤ length out.old + 314 }
{
    match reply {
        Reply4::Offer(_) => put_lease_options(Kind4::Offer, part, request, out),
        Reply4::Ack(_) => put_lease_options(Kind4::Ack, part, request, out),
        Reply4::Inform => put_inform_options(part, request, out),
        Reply4::Nak => put_nak_options(part, request, out),
    }
}

/// The options of an OFFER, and of an ACK with a lease: at most 314 bytes.
fn put_lease_options(kind: Kind4, part: &CircuitPart, request: &Message<'_>, out: &mut PacketBuf)
    requires { length out.old + 314 ≤ 1280 }
    ensures bytes { out.new ≡ out.old ++ spelling (lease_options (code_of_kind kind) part.now request.now) }
    ensures len { length out.new ≤ length out.old + 314 }
{
    let _ = out.extend(&lease_option_bytes(kind, part));
    put_name_servers(part, out);
    put_echo(request, out);
}

/// The first seven of these options, whose lengths are fixed, in one array.
#[rattlefmt::skip]
fn lease_option_bytes(kind: Kind4, part: &CircuitPart) -> [u8; 39]
    ensures { (m : MessageValue) → result ≡ spelling (take 7 (lease_options (code_of_kind kind) part.now m)) }
{
    let server = part.gateway4().0;
    let lease = part.lease().to_be_bytes();
    let t1 = (part.lease() / 2).to_be_bytes();
    let t2 = ((7 * u64::from(part.lease()) / 8) as u32).to_be_bytes();
    let mask = mask(part.prefix4()).to_be_bytes();
    [
        code::MESSAGE_TYPE,      1, kind.code(),
        code::SERVER_IDENTIFIER, 4, server[0], server[1], server[2], server[3],
        code::LEASE_TIME,        4, lease[0],  lease[1],  lease[2],  lease[3],
        code::RENEWAL_TIME,      4, t1[0],     t1[1],     t1[2],     t1[3],
        code::REBINDING_TIME,    4, t2[0],     t2[1],     t2[2],     t2[3],
        code::SUBNET_MASK,       4, mask[0],   mask[1],   mask[2],   mask[3],
        code::ROUTER,            4, server[0], server[1], server[2], server[3],
    ]
}

/// The options of an ACK to an INFORM: at most 296 bytes.
fn put_inform_options(part: &CircuitPart, request: &Message<'_>, out: &mut PacketBuf)
    requires { length out.old + 296 ≤ 1280 }
    ensures bytes { out.new ≡ out.old ++ spelling (inform_options part.now request.now) }
    ensures len { length out.new ≤ length out.old + 296 }
{
    put(code::MESSAGE_TYPE, &[Kind4::Ack.code()], out);
    put(code::SERVER_IDENTIFIER, &part.gateway4().0, out);
    put(code::SUBNET_MASK, &mask(part.prefix4()).to_be_bytes(), out);
    put(code::ROUTER, &part.gateway4().0, out);
    put_name_servers(part, out);
    put_echo(request, out);
}

/// The options of a NAK: at most 266 bytes.
fn put_nak_options(part: &CircuitPart, request: &Message<'_>, out: &mut PacketBuf)
    requires { length out.old + 266 ≤ 1280 }
    ensures bytes { out.new ≡ out.old ++ spelling (nak_options part.now request.now) }
    ensures len { length out.new ≤ length out.old + 266 }
{
    put(code::MESSAGE_TYPE, &[Kind4::Nak.code()], out);
    put(code::SERVER_IDENTIFIER, &part.gateway4().0, out);
    put_echo(request, out);
}

/// The subnet mask of a prefix of this length.
fn mask(prefix: u8) -> u32
    ensures { result ≡ mask prefix }
{
    ((1u64 << 32) - (1u64 << 32u8.saturating_sub(prefix))) as u32
}

/// The name servers, if there are any: at most 18 bytes.
fn put_name_servers(part: &CircuitPart, out: &mut PacketBuf)
    requires { length out.old + 18 ≤ 1280 }
    ensures bytes { out.new ≡ out.old ++ spelling (name_servers part.now.dns) }
    ensures len { length out.new ≤ length out.old + 18 }
{
    let dns = part.dns();
    if !dns.is_empty() {
        let addresses = address_bytes(dns);
        put(code::DOMAIN_NAME_SERVER, addresses.as_slice(), out);
    }
}

/// The bytes of the addresses, concatenated.
fn address_bytes(dns: &ArrayVec<Addr4, MAX_DNS>) -> ArrayVec<u8, 16>
    ensures { result.items ≡ flat_map (λ a. a.0) dns.now.items }
{
    let mut bytes = ArrayVec::new();
    for address in dns.as_slice() {
        let _ = bytes.try_extend_from_slice(&address.0);
    }
    bytes
}

/// The relay agent information, if the request has any: at most 257 bytes.
fn put_echo(request: &Message<'_>, out: &mut PacketBuf)
    requires { length out.old + 257 ≤ 1280 }
    ensures bytes { out.new ≡ out.old ++ spelling (echo (look_up 82 request.now.options)) }
    ensures len { length out.new ≤ length out.old + 257 }
{
    if let Some(information) = request.relay_agent_information() {
        put(code::RELAY_AGENT_INFORMATION, information, out);
    }
}

/// The end option, and zeros up to the shortest reply.
fn put_end(out: &mut PacketBuf)
    requires { length out.old ≤ 554 }
    ensures bytes { out.new ≡ padded_to 300 (out.old ++ 255 ∷ []) }
    ensures fits { length out.new ≤ 555 }
{
    let _ = out.push(code::END);
    let _ = out.pad_to(MIN_REPLY);
}

/// Appends an option for which there is room.
fn put(code: u8, value: &[u8], out: &mut PacketBuf)
    requires short { length value.now ≤ 255 }
    requires room { length out.old + length value.now + 2 ≤ 1280 }
    ensures bytes { out.new ≡ out.old ++ option code value.now }
    ensures len { length out.new ≡ length out.old + length value.now + 2 }
{
    let _ = v4_options::put(code, value, out);
}
