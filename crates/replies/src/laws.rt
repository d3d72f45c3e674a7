//! What holds of every reply: functions that do nothing, for their contracts.
ghost use Rattle.std.specs.Prelude.{◌≡◌, ◌≤◌, length, Ok, Some};
ghost use Rattle.config.specs.CircuitPart.{CircuitPart, IsPart};
ghost use Rattle.types.specs.Key6.{Key6Value};
ghost use Rattle.exchange.specs.declared.request4.Reply4.{Reply4};
ghost use Rattle.exchange.specs.declared.request6.Reply6.{Reply6};
ghost use Rattle.v4_message.specs.Header.{IsSized};
ghost use Rattle.v4_message.specs.Reading.{message_of};
ghost use Rattle.v4_message.specs.Spelling.{MessageValue};
ghost use Rattle.v6_options.specs.Codes.{RELAY_MESSAGE, INTERFACE_ID};
ghost use Rattle.v6_options.specs.Spelling.{look_up};
ghost use Rattle.v6_message.specs.Message as message6;
ghost use Rattle.v6_message.specs.MessageReading as read6;
ghost use Rattle.v6_message.specs.Relay.{RelayValue, SpellsRelay};
ghost use Rattle.v6_message.specs.RelayReading.{relay_of};
ghost use Rattle.replies.specs.Reply4.{reply4_bytes, reply_message, yiaddr_in};
ghost use Rattle.replies.specs.Reply6 as reply6;

/// What the server writes reads back as the reply that it is: its header, and its options in order, the
/// request's option 82 among them.
pub fn reply_is_read()
    ensures { (part : CircuitPart) (request : MessageValue) (reply : Reply4) → IsPart part → IsSized request.header
        → length (yiaddr_in reply) ≡ 4
        → message_of (reply4_bytes part request reply) ≡ Ok (reply_message part request reply) }
{
    v4_message::laws::written_is_read();
}

/// What the server writes to a DHCPv6 client has at most 508 bytes and reads back as the Relay-reply that it is, with
/// the circuit id as its interface id and the client's reply in it. That spells the message that the reply is, and reads
/// back as that message where it has an IA_NA with at most 4 addresses (`inside_again`).
pub fn reply6_is_read()
    ensures read { (part : CircuitPart) (request : RelayValue) (message : message6.MessageValue) (client : Key6Value) (reply : Reply6)
        → IsPart part → length request.link_address ≡ 16 → length request.peer_address ≡ 16 → reply6.IsReplyTo message client reply
        → relay_of (reply6.reply6_bytes part request message client reply) ≡ Ok (reply6.relay_reply part request message client reply) }
    ensures spelled { (part : CircuitPart) (request : RelayValue) (message : message6.MessageValue) (client : Key6Value) (reply : Reply6)
        → IsPart part → length request.link_address ≡ 16 → length request.peer_address ≡ 16 → reply6.IsReplyTo message client reply
        → SpellsRelay (reply6.reply6_bytes part request message client reply) (reply6.relay_reply part request message client reply) }
    ensures fits { (part : CircuitPart) (request : RelayValue) (message : message6.MessageValue) (client : Key6Value) (reply : Reply6)
        → IsPart part → length request.link_address ≡ 16 → length request.peer_address ≡ 16 → reply6.IsReplyTo message client reply
        → length (reply6.reply6_bytes part request message client reply) ≤ 508 }
    ensures interface { (part : CircuitPart) (request : RelayValue) (message : message6.MessageValue) (client : Key6Value) (reply : Reply6)
        → look_up INTERFACE_ID (reply6.relay_reply part request message client reply).options ≡ Some part.id }
    ensures message { (part : CircuitPart) (request : RelayValue) (message : message6.MessageValue) (client : Key6Value)
        (reply : Reply6)
        → look_up RELAY_MESSAGE (reply6.relay_reply part request message client reply).options
        ≡ Some (message6.message_bytes (reply6.reply_message part message client reply)) }
    ensures inside { (part : CircuitPart) (message : message6.MessageValue) (client : Key6Value) (reply : Reply6)
        → IsPart part → reply6.IsReplyTo message client reply
        → message6.SpellsMessage (message6.message_bytes (reply6.reply_message part message client reply))
        (reply6.reply_message part message client reply) }
    ensures inside_again { (part : CircuitPart) (message : message6.MessageValue) (client : Key6Value) (reply : Reply6)
        → IsPart part → reply6.IsReplyTo message client reply
        → read6.message_of (message6.message_bytes (reply6.reply_message part message client reply))
        ≡ reply6.read_within reply.ia (reply6.reply_message part message client reply) }
{
    v6_message::laws::written_relay_is_read();
    v6_message::laws::written_message_is_read();
}
