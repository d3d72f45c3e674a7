//! DHCPv6 on the way up: what a relay makes of a client's frame, for one circuit.
ghost use Rattle.std.specs.Prelude.{◌≡◌, ◌≤◌, ◌||◌, ◌==◌, ℕ, List, [], length, Ok, Err, IsOk, IfErr, OnOk, OnErr, IfSome, IfNone};
ghost use Rattle.v6_message.specs.Relay.{relay_bytes};
ghost use Rattle.config.specs.CircuitPart as parts;
ghost use Rattle.relay.specs.Up6.{message_relayed_up6, relay_forward, relayed_up6};

use config::CircuitPart;
use types::{Addr6, Discard, Kind6, MAX_FRAME};
use v6_message::{Message6, RELAY_FORWARD, RELAY_REPLY, RelayHeader};
use v6_options::{code, put};
use wire::{Full, PacketBuf};

/// The bytes of the client's address, which are before its message.
const PEER: usize = 16;

/// Shorter frames have no whole message header.
const MIN_FRAME: usize = 20;

/// Writes the datagram for the server, or returns why there is none.
pub(crate) fn relay_up6(
    part: &CircuitPart,
    frame: &[u8],
    out: &mut PacketBuf,
) -> Result<(), Discard>
    ensures ok { OnOk result (relayed_up6 part.now frame.now ≡ Ok out.new) }
    ensures err { IfErr result (λ why. relayed_up6 part.now frame.now ≡ Err why) }
    ensures empty { OnErr result (out.new ≡ []) }
{
    out.clear();
    if frame.len() > MAX_FRAME {
        return Err(Discard::TooLong);
    }
    if frame.len() < MIN_FRAME {
        return Err(Discard::MalformedUp);
    }
    let (peer, message) = frame.split_at(PEER);
    if let Some(why) = refusal(message) {
        return Err(why);
    }
    let written = write_relay_forward(part, peer, message, out);
    prove!(written.is_ok());
    Ok(())
}

/// Why a client's message is not relayed: the first rule that applies.
fn refusal(message: &[u8]) -> Option<Discard>
    requires { 4 ≤ length message.now }
    ensures none { IfNone result ((part : parts.CircuitPart) (peer : List ℕ)
        → message_relayed_up6 part peer message.now ≡ Ok (relay_bytes (relay_forward part peer message.now))) }
    ensures some { IfSome result (λ why. (part : parts.CircuitPart) (peer : List ℕ) → message_relayed_up6 part peer message.now ≡ Err why) }
{
    let kind = message[0];
    if is_from_relay(kind) {
        return Some(Discard::NestedRelay);
    }
    if Kind6::new(kind).is_none() {
        return Some(Discard::WrongType);
    }
    if Message6::read(message).is_err() {
        return Some(Discard::MalformedUp);
    }
    None
}

/// Whether only a relay sends this type.
fn is_from_relay(kind: u8) -> bool
    ensures { result ≡ (kind == 12 || kind == 13) }
{
    kind == RELAY_FORWARD || kind == RELAY_REPLY
}

/// Appends a Relay-forward with the message as it came, without a buffer of its own: its fields, the
/// circuit's id, and the message (RFC 8415, section 19.1.1).
fn write_relay_forward(
    part: &CircuitPart,
    peer: &[u8],
    message: &[u8],
    out: &mut PacketBuf,
) -> Result<(), Full>
    requires empty { out.old ≡ [] }
    requires peer { length peer.now ≡ 16 }
    requires message { length message.now ≤ 1008 }
    ensures ok { OnOk result (out.new ≡ relay_bytes (relay_forward part.now peer.now message.now)) }
    ensures room { IsOk result }
{
    let mut header = RelayHeader {
        kind: RELAY_FORWARD,
        hop_count: 0,
        link_address: part.link6(),
        peer_address: Addr6([0; PEER]),
    };
    header.peer_address.0.copy_from_slice(peer);
    header.write(out)?;
    put(code::INTERFACE_ID, part.id().as_bytes(), out)?;
    put(code::RELAY_MESSAGE, message, out)
}
