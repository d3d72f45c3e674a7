//! Messages of clients and servers (RFC 8415, section 8).
ghost use Rattle.std.specs.Prelude.{◌≡◌, ◌≤◌, ◌<◌, ◌+◌, ◌^◌, ◌↔◌, [], ◌∷◌, ◌++◌, length, Some, Ok, Err, IsOk, OnOk};
ghost use Rattle.std.specs.Prelude.{OnErr, IfSome, option_map};
ghost use Rattle.std.specs.Option.{option_and_then};
ghost use Rattle.v6_options.specs.Codes.{CLIENT_ID, SERVER_ID, IA_NA, IA_ADDRESS};
ghost use Rattle.v6_options.specs.Spelling.{look_up, spelling};
ghost use Rattle.v6_message.specs.Ia.{ia_of, status_in};
ghost use Rattle.v6_message.specs.Lists.{count};
ghost use Rattle.v6_message.specs.Message.{MessageValue, SpellsMessage, IsReadable, FailsMessage, message_bytes};
ghost use Rattle.v6_message.specs.MessageReading.{message_of};

use crate::count::has_at_most;
use crate::fault::MessageFault;
use crate::ia::{Ia6, has_few_addresses};
use crate::message_header::MessageHeader;
use crate::parts::array_at;
use crate::scan::{ListFault, Sender, fault_in};
use crate::status::status_of;
use std::marker::Model;
use v6_options::{Options, code};
use wire::{Full, PacketBuf};

/// The bytes before the options.
const HEADER: usize = 4;

/// A client's or server's message in the bytes that it was read from. Its fields are slices of those
/// bytes, or small values. The type is not tested.
#[derive(Drop)]
pub struct Message6<'a> {
    bytes: &'a [u8],
    options: Options<'a>,
    ia: Ia6<'a>,
}

impl<'a> Model for Message6<'a> {
    ghost use Rattle.v6_message.specs.Message.{MessageValue};
    ghost use Rattle.v6_message.specs.MessageReading.{IsRead, message_at};

    ghost Value = { MessageValue };

    ghost view = { λ m. message_at m.bytes.now m.options };

    ghost invariant = { λ m. IsRead m.bytes.now m.options m.ia };
}

impl<'a> Message6<'a> {
    /// The message that these bytes spell, all of them, with exactly one IA_NA and at most 4 addresses in it.
    pub fn read(bytes: &'a [u8]) -> Result<Message6<'a>, MessageFault>
        ensures exact { result ≡ message_of bytes.now }
        ensures spelled { (m : MessageValue) → result ≡ Ok m ↔ (SpellsMessage bytes.now m × IsReadable m) }
        ensures fails { (fault : MessageFault) → result ≡ Err fault ↔ FailsMessage fault bytes.now }
    {
        message_in(bytes)
    }

    /// The message type.
    pub fn kind(&self) -> u8
        ensures { result ≡ self.now.kind }
    {
        self.bytes[0]
    }

    pub fn transaction_id(&self) -> [u8; 3]
        ensures { result ≡ self.now.transaction_id }
    {
        *array_at(self.bytes, 1)
    }

    pub fn options(&self) -> &Options<'a>
        ensures { result.now ≡ self.now.options }
    {
        &self.options
    }

    /// Option 1, the client's DUID. Its length is not tested.
    pub fn client_id(&self) -> Option<&'a [u8]>
        ensures value { option_map (λ value. value.now) result ≡ look_up CLIENT_ID self.now.options }
        ensures fits { IfSome result (λ value. length value.now < 2 ^ 16) }
    {
        self.options.get(code::CLIENT_ID)
    }

    /// Option 2, the DUID of the server that the message names. Its length is not tested.
    pub fn server_id(&self) -> Option<&'a [u8]>
        ensures value { option_map (λ value. value.now) result ≡ look_up SERVER_ID self.now.options }
        ensures fits { IfSome result (λ value. length value.now < 2 ^ 16) }
    {
        self.options.get(code::SERVER_ID)
    }

    /// Option 3, the IA_NA.
    pub fn ia(&self) -> &Ia6<'a>
        ensures value { option_and_then ia_of (look_up IA_NA self.now.options) ≡ Some result.now }
        ensures one { count IA_NA self.now.options ≡ 1 }
        ensures few { count IA_ADDRESS result.now.options ≤ 4 }
    {
        &self.ia
    }

    /// The code of option 13, a status; `None` where there is no such option, or it has fewer than 2 bytes.
    pub fn status(&self) -> Option<u16>
        ensures { result ≡ status_in self.now.options }
    {
        status_of(&self.options)
    }

    /// The fields before the options, as values.
    pub fn header(&self) -> MessageHeader
        ensures kind { result.kind ≡ self.now.kind }
        ensures id { result.transaction_id ≡ self.now.transaction_id }
    {
        MessageHeader {
            kind: self.kind(),
            transaction_id: self.transaction_id(),
        }
    }

    /// Appends the message. Where it does not fit, `out` is left empty.
    pub fn write(&self, out: &mut PacketBuf) -> Result<(), Full>
        ensures full { IsOk result ↔ (length out.old + length (message_bytes self.now) ≤ 1280) }
        ensures ok { OnOk result (out.new ≡ out.old ++ message_bytes self.now) }
        ensures err { OnErr result (out.new ≡ []) }
        ensures spelled { SpellsMessage (message_bytes self.now) self.now }
        ensures again { message_of (message_bytes self.now) ≡ Ok self.now }
    {
        put_message(&self.header(), &self.options, out)
    }
}

/// Appends a header and options. Where they do not fit, `out` is left empty.
fn put_message(
    header: &MessageHeader,
    options: &Options<'_>,
    out: &mut PacketBuf,
) -> Result<(), Full>
    ensures full { IsOk result ↔ (length out.old + length (header.now.kind ∷ header.now.transaction_id ++ spelling options.now) ≤ 1280) }
    ensures ok { OnOk result (out.new ≡ out.old ++ (header.now.kind ∷ header.now.transaction_id ++ spelling options.now)) }
    ensures err { OnErr result (out.new ≡ []) }
{
    header.write(out)?;
    options.write(out)
}

fn message_in(bytes: &[u8]) -> Result<Message6<'_>, MessageFault>
    ensures { result ≡ message_of bytes.now }
{
    if bytes.len() < HEADER {
        return Err(MessageFault::Short);
    }
    let (_, tail) = bytes.split_at(HEADER);
    match fault_in(tail, Sender::Client) {
        Some(ListFault::Cut) => return Err(MessageFault::Cut),
        Some(ListFault::Twice) => return Err(MessageFault::Twice),
        None => {}
    }
    let Ok(options) = Options::read(tail) else {
        unreachable!();
    };
    if !has_at_most(1, code::IA_NA, tail) {
        return Err(MessageFault::IaCount);
    }
    let Some(value) = options.get(code::IA_NA) else {
        return Err(MessageFault::IaCount);
    };
    if !has_few_addresses(value) {
        return Err(MessageFault::AddrCount);
    }
    let Some(ia) = Ia6::read(value) else {
        unreachable!();
    };
    Ok(Message6 { bytes, options, ia })
}
