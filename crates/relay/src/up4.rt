//! DHCPv4 on the way up: what a relay makes of a client's frame, for one circuit.
ghost use Rattle.std.specs.Prelude.{◌≡◌, ◌+◌, ◌≤◌, ◌<◌, [], ◌∷◌, ◌++◌, length, Some, Ok, Err, IsOk, IfErr, OnOk, OnErr, IfSome, IfNone};
ghost use Rattle.types.specs.Kind4.{code_of_kind};
ghost use Rattle.v4_message.specs.Reading.{kind_in};
ghost use Rattle.v4_message.specs.Spelling.{message_bytes};
ghost use Rattle.v4_options.specs.Spelling.{option};
ghost use Rattle.v4_options.specs.Codes.{RELAY_AGENT_INFORMATION};
ghost use Rattle.config.specs.CircuitPart as parts;
ghost use Rattle.relay.specs.Up4.{agent_information, is_from_server, message_relayed_up, relayed_up4, with_agent_information};

use config::CircuitPart;
use types::{Discard, Kind4, MAX_FRAME};
use v4_message::{Message, OP_REQUEST};
use v4_options::{code, put};
use wire::{Full, PacketBuf};

/// A message that has passed this many relays is discarded (RFC 1542, section 4.1.1).
const MAX_HOPS: u8 = 16;

/// Writes the datagram for the server, or returns why there is none.
pub(crate) fn relay_up4(
    part: &CircuitPart,
    frame: &[u8],
    out: &mut PacketBuf,
) -> Result<(), Discard>
    ensures ok { OnOk result (relayed_up4 part.now frame.now ≡ Ok out.new) }
    ensures err { IfErr result (λ why. relayed_up4 part.now frame.now ≡ Err why) }
    ensures empty { OnErr result (out.new ≡ []) }
{
    out.clear();
    if frame.len() > MAX_FRAME {
        return Err(Discard::TooLong);
    }
    let Ok(message) = Message::read(frame) else {
        return Err(Discard::MalformedUp);
    };
    if let Some(why) = refusal(&message) {
        return Err(why);
    }
    let written = write_with_agent_information(part, &message, out);
    prove!(written.is_ok());
    Ok(())
}

/// Why a client's message is not relayed: the first rule that applies.
fn refusal(message: &Message<'_>) -> Option<Discard>
    ensures none { IfNone result ((part : parts.CircuitPart)
        → message_relayed_up part (Ok message.now) ≡ Ok (message_bytes (with_agent_information part message.now))) }
    ensures some { IfSome result (λ why. (part : parts.CircuitPart) → message_relayed_up part (Ok message.now) ≡ Err why) }
    ensures hops { IfNone result (message.now.header.hops < 16) }
{
    if message.op() != OP_REQUEST {
        return Some(Discard::NotRequest);
    }
    if !message.giaddr().is_unspecified() {
        return Some(Discard::HasGiaddr);
    }
    if message.relay_agent_information().is_some() {
        return Some(Discard::HasOption82);
    }
    if message.hops() >= MAX_HOPS {
        return Some(Discard::Hops);
    }
    if is_from_server(message.kind()) {
        return Some(Discard::WrongType);
    }
    None
}

/// Whether only a server sends this type.
fn is_from_server(kind: Kind4) -> bool
    ensures { result ≡ is_from_server (kind_in (Some (code_of_kind kind ∷ []))) }
{
    matches!(kind, Kind4::Offer | Kind4::Ack | Kind4::Nak)
}

/// Appends the message one hop further, with giaddr (RFC 1542, section 4.1.1) and with option 82 as
/// its last option (RFC 3046, section 2.1).
fn write_with_agent_information(
    part: &CircuitPart,
    message: &Message<'_>,
    out: &mut PacketBuf,
) -> Result<(), Full>
    requires empty { out.old ≡ [] }
    requires hops { message.now.header.hops < 16 }
    ensures ok { OnOk result (out.new ≡ message_bytes (with_agent_information part.now message.now)) }
    ensures room { length (message_bytes message.now) ≤ 1024 → IsOk result }
{
    message.write_forwarded_header(message.hops() + 1, part.gateway4(), out)?;
    message.options().write(out)?;
    put_agent_information(part, out)?;
    out.push(code::END)
}

/// Appends option 82, without a buffer of its own: its code and length, then its two suboptions.
fn put_agent_information(part: &CircuitPart, out: &mut PacketBuf) -> Result<(), Full>
    ensures ok { OnOk result (out.new ≡ out.old ++ option RELAY_AGENT_INFORMATION (agent_information part.now)) }
    ensures len { length out.new ≤ length out.old + 42 }
    ensures room { length out.old + 42 ≤ 1280 → IsOk result }
{
    let id = part.id().as_bytes();
    let gateway = part.gateway4();
    // two codes, two lengths and two values
    let len = 4 + id.len() + gateway.0.len();
    out.extend(&[code::RELAY_AGENT_INFORMATION, len as u8])?;
    put(code::CIRCUIT_ID, id, out)?;
    put(code::SERVER_IDENTIFIER_OVERRIDE, &gateway.0, out)
}
