//! Whole messages (RFC 2131, section 2).
ghost use Rattle.std.specs.Prelude.{◌≡◌, ◌≤◌, ◌<◌, ◌+◌, ◌↔◌, [], ◌∷◌, ◌++◌, ◌==◌, ◌||◌, length, Some, Ok, Err, IsOk};
ghost use Rattle.std.specs.Prelude.{OnOk, OnErr, IfSome, option_map};
ghost use Rattle.types.specs.Kind4.{code_of_kind};
ghost use Rattle.v4_options.specs.Codes.{REQUESTED_ADDRESS, OPTION_OVERLOAD, MESSAGE_TYPE, SERVER_IDENTIFIER};
ghost use Rattle.v4_options.specs.Codes.{CLIENT_IDENTIFIER, RELAY_AGENT_INFORMATION};
ghost use Rattle.v4_options.specs.Spelling.{look_up};
ghost use Rattle.v4_message.specs.Header.{IsSized, header_bytes};
ghost use Rattle.v4_message.specs.Layout.{MAGIC_COOKIE};
ghost use Rattle.v4_message.specs.Reading.{are_allowed, has_cookie, is_ethernet, kind_in, may_be_addr, message_of};
ghost use Rattle.v4_message.specs.Spelling.{MessageValue, IsValid, Spells, Fails, message_bytes};

use crate::fault::MessageFault;
use crate::field;
use crate::header::{OP_REPLY, OP_REQUEST, append};
use crate::parts::{addr_of, array_at};
use std::marker::Model;
use types::{Addr4, Kind4, MAX_DATAGRAM};
use v4_options::{Options, code};
use wire::{Full, PacketBuf};

/// A message in the bytes that it was read from. Its fields are slices of those bytes, or small values.
#[derive(Drop)]
pub struct Message<'a> {
    bytes: &'a [u8],
    options: Options<'a>,
    kind: Kind4,
}

impl<'a> Model for Message<'a> {
    ghost use Rattle.v4_message.specs.Spelling.{MessageValue};
    ghost use Rattle.v4_message.specs.Header.{header_at};
    ghost use Rattle.v4_message.specs.Read.{IsRead};

    ghost Value = { MessageValue };

    ghost view = { λ m. record { header = header_at m.bytes.now; options = m.options } };

    ghost invariant = { λ m. IsRead m.bytes.now m.options m.kind };
}

impl<'a> Message<'a> {
    /// The message that these bytes spell. The bytes after the end option are ignored.
    pub fn read(bytes: &'a [u8]) -> Result<Message<'a>, MessageFault>
        ensures exact { result ≡ message_of bytes.now }
        ensures spelled { (m : MessageValue) → result ≡ Ok m ↔ Spells bytes.now m }
        ensures fails { (fault : MessageFault) → result ≡ Err fault ↔ Fails fault bytes.now }
    {
        message_in(bytes)
    }

    pub fn op(&self) -> u8
        ensures { result ≡ self.now.header.op }
    {
        self.bytes[field::OP]
    }

    pub fn hops(&self) -> u8
        ensures { result ≡ self.now.header.hops }
    {
        self.bytes[field::HOPS]
    }

    pub fn xid(&self) -> [u8; 4]
        ensures { result ≡ self.now.header.xid }
    {
        *array_at(self.bytes, field::XID)
    }

    pub fn secs(&self) -> [u8; 2]
        ensures { result ≡ self.now.header.secs }
    {
        *array_at(self.bytes, field::SECS)
    }

    pub fn flags(&self) -> u16
        ensures { result ≡ self.now.header.flags }
    {
        u16::from_be_bytes(*array_at(self.bytes, field::FLAGS))
    }

    pub fn ciaddr(&self) -> Addr4
        ensures { result.0 ≡ self.now.header.ciaddr }
    {
        Addr4(*array_at(self.bytes, field::CIADDR))
    }

    pub fn yiaddr(&self) -> Addr4
        ensures { result.0 ≡ self.now.header.yiaddr }
    {
        Addr4(*array_at(self.bytes, field::YIADDR))
    }

    pub fn siaddr(&self) -> Addr4
        ensures { result.0 ≡ self.now.header.siaddr }
    {
        Addr4(*array_at(self.bytes, field::SIADDR))
    }

    /// The first relay agent's address, 0.0.0.0 where no relay has forwarded the message.
    pub fn giaddr(&self) -> Addr4
        ensures { result.0 ≡ self.now.header.giaddr }
    {
        Addr4(*array_at(self.bytes, field::GIADDR))
    }

    /// The client's hardware address: 16 bytes, of which an Ethernet client uses 6.
    pub fn chaddr(&self) -> &'a [u8; 16]
        ensures { result.now ≡ self.now.header.chaddr }
    {
        array_at(self.bytes, field::CHADDR)
    }

    pub fn sname(&self) -> &'a [u8; 64]
        ensures { result.now ≡ self.now.header.sname }
    {
        array_at(self.bytes, field::SNAME)
    }

    pub fn file(&self) -> &'a [u8; 128]
        ensures { result.now ≡ self.now.header.file }
    {
        array_at(self.bytes, field::FILE)
    }

    pub fn options(&self) -> &Options<'a>
        ensures { result.now ≡ self.now.options }
    {
        &self.options
    }

    /// Option 53, the message type.
    pub fn kind(&self) -> Kind4
        ensures value { look_up MESSAGE_TYPE self.now.options ≡ Some (code_of_kind result ∷ []) }
        ensures valid { IsValid self.now }
    {
        self.kind
    }

    /// Option 50, the address that the client requests.
    pub fn requested_address(&self) -> Option<Addr4>
        ensures { option_map (λ addr. addr.0) result ≡ look_up REQUESTED_ADDRESS self.now.options }
    {
        address_in(self.options.get(code::REQUESTED_ADDRESS))
    }

    /// Option 54, the server that the message names.
    pub fn server_identifier(&self) -> Option<Addr4>
        ensures { option_map (λ addr. addr.0) result ≡ look_up SERVER_IDENTIFIER self.now.options }
    {
        address_in(self.options.get(code::SERVER_IDENTIFIER))
    }

    /// Option 61, of any length.
    pub fn client_identifier(&self) -> Option<&'a [u8]>
        ensures { option_map (λ value. value.now) result ≡ look_up CLIENT_IDENTIFIER self.now.options }
    {
        self.options.get(code::CLIENT_IDENTIFIER)
    }

    /// Option 82, a list of suboptions (`Suboptions::read` reads it).
    pub fn relay_agent_information(&self) -> Option<&'a [u8]>
        ensures value { option_map (λ value. value.now) result ≡ look_up RELAY_AGENT_INFORMATION self.now.options }
        ensures fits { IfSome result (λ value. length value.now < 256) }
    {
        self.options.get(code::RELAY_AGENT_INFORMATION)
    }

    /// Appends the header and the cookie, 240 bytes, as they were read. Where they do not fit, `out` is
    /// left empty.
    pub fn write_header(&self, out: &mut PacketBuf) -> Result<(), Full>
        ensures full { IsOk result ↔ (length out.old + 240 ≤ 1280) }
        ensures ok { OnOk result (out.new ≡ out.old ++ (header_bytes self.now.header ++ MAGIC_COOKIE)) }
        ensures err { OnErr result (out.new ≡ []) }
        ensures sized { IsSized self.now.header }
    {
        let front = &self.bytes[..field::OPTIONS];
        if out.len() + field::OPTIONS > MAX_DATAGRAM {
            out.clear();
            return Err(Full);
        }
        append(out, front);
        Ok(())
    }

    /// Appends the header as a relay agent forwards it, with another hop count and giaddr (RFC 1542,
    /// section 4.1.1), and the cookie. Where they do not fit, `out` is left empty.
    pub fn write_forwarded_header(
        &self,
        hops: u8,
        giaddr: Addr4,
        out: &mut PacketBuf,
    ) -> Result<(), Full>
        ensures full { IsOk result ↔ (length out.old + 240 ≤ 1280) }
        ensures ok { OnOk result (out.new
            ≡ out.old ++ (header_bytes (record self.now.header { hops = hops; giaddr = giaddr.0 }) ++ MAGIC_COOKIE)) }
        ensures err { OnErr result (out.new ≡ []) }
        ensures sized { IsSized self.now.header }
    {
        let bytes = self.bytes;
        if out.len() + field::OPTIONS > MAX_DATAGRAM {
            out.clear();
            return Err(Full);
        }
        append(out, &bytes[..field::HOPS]);
        append(out, &[hops]);
        append(out, &bytes[field::XID..field::GIADDR]);
        append(out, &giaddr.0);
        append(out, &bytes[field::CHADDR..field::OPTIONS]);
        Ok(())
    }

    /// Appends the message: its options in order, without pads, and nothing after the end option. Where
    /// it does not fit, `out` is left empty.
    pub fn write(&self, out: &mut PacketBuf) -> Result<(), Full>
        ensures full { IsOk result ↔ (length out.old + length (message_bytes self.now) ≤ 1280) }
        ensures ok { OnOk result (out.new ≡ out.old ++ message_bytes self.now) }
        ensures err { OnErr result (out.new ≡ []) }
    {
        self.write_header(out)?;
        self.options.write(out)?;
        if out.push(code::END).is_err() {
            out.clear();
            return Err(Full);
        }
        Ok(())
    }
}

/// The message, or the first fault in the order of `MessageFault`.
fn message_in(bytes: &[u8]) -> Result<Message<'_>, MessageFault>
    ensures { result ≡ message_of bytes.now }
{
    if bytes.len() < field::OPTIONS {
        return Err(MessageFault::Short);
    }
    if !has_cookie(bytes) {
        return Err(MessageFault::Cookie);
    }
    if !is_ethernet(bytes) {
        return Err(MessageFault::Hardware);
    }
    let (_, tail) = bytes.split_at(field::OPTIONS);
    let Ok(options) = Options::read(tail) else {
        return Err(MessageFault::Options);
    };
    let check = check_options(&options);
    if !check.are_allowed {
        return Err(MessageFault::Options);
    }
    if !is_op(bytes[field::OP]) {
        return Err(MessageFault::Kind);
    }
    match check.kind {
        None => Err(MessageFault::Kind),
        Some(kind) => Ok(Message {
            bytes,
            options,
            kind,
        }),
    }
}

fn has_cookie(bytes: &[u8]) -> bool
    requires { 240 ≤ length bytes.now }
    ensures { result ≡ has_cookie bytes.now }
{
    &bytes[field::COOKIE..field::COOKIE + field::COOKIE_LEN] == field::MAGIC_COOKIE.as_slice()
}

fn is_ethernet(bytes: &[u8]) -> bool
    requires { 240 ≤ length bytes.now }
    ensures { result ≡ is_ethernet bytes.now }
{
    bytes[field::HTYPE] == field::ETHERNET && bytes[field::HLEN] == field::ETHERNET_LEN
}

fn is_op(op: u8) -> bool
    ensures { result ≡ (op == 1 || op == 2) }
{
    op == OP_REQUEST || op == OP_REPLY
}

/// Whether a message with these options is read, and its kind.
#[derive(Drop)]
struct OptionsCheck {
    are_allowed: bool,
    kind: Option<Kind4>,
}

fn check_options(options: &Options<'_>) -> OptionsCheck
    ensures allowed { result.are_allowed ≡ are_allowed options.now }
    ensures kind { option_map code_of_kind result.kind ≡ kind_in (look_up MESSAGE_TYPE options.now) }
{
    let has_overload = options.get(code::OPTION_OVERLOAD).is_some();
    let requested = options.get(code::REQUESTED_ADDRESS);
    let server = options.get(code::SERVER_IDENTIFIER);
    let are_addrs = is_addr_or_none(requested) && is_addr_or_none(server);
    OptionsCheck {
        are_allowed: !has_overload && are_addrs,
        kind: kind_of(options.get(code::MESSAGE_TYPE)),
    }
}

/// Whether an option is an address or absent.
fn is_addr_or_none(found: Option<&[u8]>) -> bool
    ensures { result ≡ may_be_addr (option_map (λ value. value.now) found.entry) }
{
    match found {
        None => true,
        Some(value) => value.len() == field::ADDR_LEN,
    }
}

/// The address of an option that is an address or absent.
fn address_in(found: Option<&[u8]>) -> Option<Addr4>
    requires { IfSome found (λ value. length value.now ≡ 4) }
    ensures { option_map (λ addr. addr.0) result ≡ option_map (λ value. value.now) found.entry }
{
    match found {
        None => None,
        Some(value) => Some(addr_of(value)),
    }
}

/// The kind that option 53 means.
fn kind_of(found: Option<&[u8]>) -> Option<Kind4>
    ensures { option_map code_of_kind result ≡ kind_in (option_map (λ value. value.now) found.entry) }
{
    match found {
        Some([code]) => Kind4::new(*code),
        _ => None,
    }
}
