//! Laws of the definitions alone: what any reader and writer of messages can rely on.
ghost use Rattle.std.specs.Prelude.{◌≡◌, ◌↔◌, ℕ, ◌++◌, List, Ok, Err};
ghost use Rattle.v4_options.specs.Spelling.{AreOptions};
ghost use Rattle.wire.specs.Bytes.{AreBytes};
ghost use Rattle.v4_message.specs.declared.field.TheConstants.{SNAME_LEN, FILE_LEN};
ghost use Rattle.v4_message.specs.declared.header.TheConstants.{OP_REQUEST, OP_REPLY, BROADCAST};
ghost use Rattle.v4_message.specs.declared.fault.MessageFault.{MessageFault};
ghost use Rattle.v4_message.specs.Header.{IsSized};
ghost use Rattle.v4_message.specs.Reading.{message_of};
ghost use Rattle.v4_message.specs.Spelling.{MessageValue, IsValid, Spells, Fails, message_bytes};

/// The named values as the standard's numbers (RFC 2131, section 2).
pub fn header_values()
    ensures request { OP_REQUEST ≡ 1 }
    ensures reply { OP_REPLY ≡ 2 }
    ensures broadcast { BROADCAST ≡ 0x8000 }
    ensures sname { SNAME_LEN ≡ 64 }
    ensures file { FILE_LEN ≡ 128 }
{}

/// Reading any bytes returns a message exactly where they spell it, and a fault exactly where they
/// have it.
pub fn exact_reading()
    ensures message { (bytes : List ℕ) (m : MessageValue) → AreBytes bytes → message_of bytes ≡ Ok m ↔ Spells bytes m }
    ensures fault { (bytes : List ℕ) (fault : MessageFault) → AreBytes bytes → message_of bytes ≡ Err fault ↔ Fails fault bytes }
{}

/// A message that was written reads back as the same message, whatever bytes follow it.
pub fn written_is_read()
    ensures read { (m : MessageValue) (rest : List ℕ) → IsSized m.header → IsValid m → AreOptions m.options
        → message_of (message_bytes m ++ rest) ≡ Ok m }
    ensures spelled { (m : MessageValue) (rest : List ℕ) → IsSized m.header → IsValid m → AreOptions m.options
        → Spells (message_bytes m ++ rest) m }
{}

/// Bytes spell at most one message, have at most one fault, and never both. The options of a spelled
/// message have distinct codes.
pub fn one_reading()
    ensures message { (bytes : List ℕ) (a : MessageValue) (b : MessageValue) → Spells bytes a → Spells bytes b → a ≡ b }
    ensures fault { (bytes : List ℕ) (a : MessageFault) (b : MessageFault) → Fails a bytes → Fails b bytes → a ≡ b }
    ensures never_both { (bytes : List ℕ) (m : MessageValue) (fault : MessageFault) → Spells bytes m → Fails fault bytes → ⊥ }
    ensures distinct { (bytes : List ℕ) (m : MessageValue) → Spells bytes m → AreOptions m.options }
{}
