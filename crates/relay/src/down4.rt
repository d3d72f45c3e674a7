//! DHCPv4 on the way down: what a relay makes of a server's reply, for one circuit.
ghost use Rattle.std.specs.Prelude.{◌≡◌, ◌≤◌, [], length, Ok, Err, IsOk, IfOk, IfErr, OnOk, OnErr};
ghost use Rattle.v4_message.specs.Spelling.{message_bytes};
ghost use Rattle.v4_message.specs.Agent.{agent_of};
ghost use Rattle.relay.specs.Down.{frame_on_link};
ghost use Rattle.relay.specs.Down4.{dest_of, reply_of, suboptions_in, without_agent_information};

use config::CircuitPart;
use types::{Dest, Discard, MAX_DATAGRAM};
use v4_message::field::ETHERNET_LEN;
use v4_message::{BROADCAST, Message, OP_REPLY};
use v4_options::{Suboptions, code};
use wire::{Full, PacketBuf};

/// Shorter frames are zero-padded: 236 bytes and 64 of options (RFC 1542, section 2.1).
const MIN_FRAME: usize = 300;

/// The reply that a datagram from the server is.
pub(crate) fn read_reply(datagram: &[u8]) -> Result<Message<'_>, Discard>
    ensures value { result ≡ reply_of datagram.now }
    ensures fits { IfOk result (λ reply. length (message_bytes reply) ≤ 1280) }
{
    if datagram.len() > MAX_DATAGRAM {
        return Err(Discard::MalformedDown);
    }
    let Ok(reply) = Message::read(datagram) else {
        return Err(Discard::MalformedDown);
    };
    if reply.op() != OP_REPLY {
        return Err(Discard::MalformedDown);
    }
    Ok(reply)
}

/// The suboptions in a reply's option 82.
pub(crate) fn read_suboptions<'a>(reply: &Message<'a>) -> Result<Suboptions<'a>, Discard>
    ensures { result ≡ suboptions_in (agent_of reply.now) }
{
    let Some(information) = reply.relay_agent_information() else {
        return Err(Discard::UnknownCircuitDown);
    };
    match Suboptions::read(information) {
        Ok(suboptions) => Ok(suboptions),
        Err(_) => Err(Discard::MalformedDown),
    }
}

/// Writes the frame for the circuit that a reply names and returns where it goes, or why there is
/// none.
pub(crate) fn relay_down4(
    part: &CircuitPart,
    reply: &Message<'_>,
    out: &mut PacketBuf,
) -> Result<Dest, Discard>
    requires empty { out.old ≡ [] }
    requires fits { length (message_bytes reply.now) ≤ 1280 }
    ensures ok { IfOk result (λ dest.
        frame_on_link part.now.gateway4.0 reply.now.header.giaddr (without_agent_information reply.now)
        ≡ Ok (record { dest = dest; bytes = out.new })) }
    ensures err { IfErr result (λ why.
        frame_on_link part.now.gateway4.0 reply.now.header.giaddr (without_agent_information reply.now) ≡ Err why) }
    ensures empty { OnErr result (out.new ≡ []) }
{
    if reply.giaddr() != part.gateway4() {
        return Err(Discard::WrongLinkDown);
    }
    let written = write_without_agent_information(reply, out);
    prove!(written.is_ok());
    Ok(dest_of(reply))
}

/// Appends the reply without option 82 (RFC 3046, section 2.1), and zeros up to 300 bytes.
fn write_without_agent_information(reply: &Message<'_>, out: &mut PacketBuf) -> Result<(), Full>
    requires empty { out.old ≡ [] }
    ensures ok { OnOk result (out.new ≡ (without_agent_information reply.now).bytes) }
    ensures room { length (message_bytes reply.now) ≤ 1280 → IsOk result }
{
    reply.write_header(out)?;
    reply
        .options()
        .write_without(code::RELAY_AGENT_INFORMATION, out)?;
    out.push(code::END)?;
    out.pad_to(MIN_FRAME)
}

/// Where the frame goes: to all clients where this one can't take a unicast yet, or has no address
/// (RFC 2131, section 4.1).
fn dest_of(reply: &Message<'_>) -> Dest
    ensures { result ≡ dest_of reply.now }
{
    let client = reply.yiaddr();
    if reply.flags() & BROADCAST != 0 || client.is_unspecified() {
        return Dest::Broadcast;
    }
    let mut hardware = [0; 6];
    hardware.copy_from_slice(&reply.chaddr()[..usize::from(ETHERNET_LEN)]);
    Dest::Unicast(hardware, client)
}
