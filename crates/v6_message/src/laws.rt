//! Laws of the definitions alone: what any reader and writer of messages can rely on.
ghost use Rattle.std.specs.Prelude.{◌≡◌, ◌≤◌, ◌↔◌, ℕ, List, length, Some, Ok, Err};
ghost use Rattle.v6_options.specs.Codes.{IA_NA};
ghost use Rattle.v6_options.specs.Spelling.{AreOptions};
ghost use Rattle.v6_message.specs.declared.scan.Sender.TheVariants.{Client, Relay};
ghost use Rattle.v6_message.specs.Lists.{count, AreAllowed, IsIa};
ghost use Rattle.wire.specs.Bytes.{AreBytes};
ghost use Rattle.v6_message.specs.declared.fault.RelayFault.{RelayFault};
ghost use Rattle.v6_message.specs.declared.fault.MessageFault.{MessageFault};
ghost use Rattle.v6_message.specs.Ia.{AddressValue, IaValue, IsAddressValue, IsIaValue, address_at, address_bytes, ia_bytes, ia_of};
ghost use Rattle.v6_message.specs.Message.{MessageValue, HasAtMost, SpellsMessage, IsReadable, FailsMessage, message_bytes};
ghost use Rattle.v6_message.specs.MessageReading.{counted, message_of};
ghost use Rattle.v6_message.specs.declared.relay_header.TheConstants.{RELAY_FORWARD, RELAY_REPLY};
ghost use Rattle.v6_message.specs.Relay.{RelayValue, SpellsRelay, FailsRelay, relay_bytes};
ghost use Rattle.v6_message.specs.RelayReading.{relay_of};

/// The named values as the standard's numbers (RFC 8415, section 7.3).
pub fn relay_values()
    ensures forward { RELAY_FORWARD ≡ 12 }
    ensures reply { RELAY_REPLY ≡ 13 }
{}

/// Reading any bytes returns a relay message exactly where they spell it, and a fault exactly where
/// they have it.
pub fn exact_relay_reading()
    ensures message { (bytes : List ℕ) (m : RelayValue) → AreBytes bytes → relay_of bytes ≡ Ok m ↔ SpellsRelay bytes m }
    ensures fault { (bytes : List ℕ) (fault : RelayFault) → AreBytes bytes → relay_of bytes ≡ Err fault ↔ FailsRelay fault bytes }
{}

/// A relay message that was written reads back as the same message, if its options are allowed.
pub fn written_relay_is_read()
    ensures spelled { (m : RelayValue) → length m.link_address ≡ 16 → length m.peer_address ≡ 16 → AreOptions m.options
        → AreAllowed Relay m.options → SpellsRelay (relay_bytes m) m }
    ensures read { (m : RelayValue) → length m.link_address ≡ 16 → length m.peer_address ≡ 16 → AreOptions m.options
        → AreAllowed Relay m.options → relay_of (relay_bytes m) ≡ Ok m }
{}

/// Bytes spell at most one relay message, have at most one fault, and never both.
pub fn one_relay_reading()
    ensures message { (bytes : List ℕ) (a : RelayValue) (b : RelayValue) → SpellsRelay bytes a → SpellsRelay bytes b → a ≡ b }
    ensures fault { (bytes : List ℕ) (a : RelayFault) (b : RelayFault) → FailsRelay a bytes → FailsRelay b bytes → a ≡ b }
    ensures never_both { (bytes : List ℕ) (m : RelayValue) (fault : RelayFault) → SpellsRelay bytes m → FailsRelay fault bytes → ⊥ }
{}

/// Reading any bytes returns a message exactly where they spell it and it is within the limits for
/// reading, and a fault exactly where they have it.
pub fn exact_message_reading()
    ensures message { (bytes : List ℕ) (m : MessageValue) → AreBytes bytes
        → message_of bytes ≡ Ok m ↔ (SpellsMessage bytes m × IsReadable m) }
    ensures fault { (bytes : List ℕ) (fault : MessageFault) → AreBytes bytes → message_of bytes ≡ Err fault ↔ FailsMessage fault bytes }
{}

/// A message that was written spells that message, if its options are allowed, with at most one IA_NA and
/// at most 5 addresses in it. It reads back as the same message where its counts are within the limits for
/// reading, and otherwise as the fault of a count (`counts`).
pub fn written_message_is_read()
    ensures spelled { (m : MessageValue) → length m.transaction_id ≡ 3 → AreOptions m.options
        → AreAllowed Client m.options → count IA_NA m.options ≤ 1 → HasAtMost 5 m.options
        → SpellsMessage (message_bytes m) m }
    ensures read { (m : MessageValue) → length m.transaction_id ≡ 3 → AreOptions m.options → AreAllowed Client m.options
        → IsReadable m → message_of (message_bytes m) ≡ Ok m }
    ensures counts { (m : MessageValue) → length m.transaction_id ≡ 3 → AreOptions m.options
        → AreAllowed Client m.options → message_of (message_bytes m) ≡ counted m }
{}

/// An IA_NA that was written is one, and reads back as the same; so does an address.
pub fn written_ia_is_read()
    ensures formed { (ia : IaValue) → IsIaValue ia → IsIa (ia_bytes ia) }
    ensures read { (ia : IaValue) → IsIaValue ia → ia_of (ia_bytes ia) ≡ Some ia }
    ensures address { (a : AddressValue) → IsAddressValue a → address_at (address_bytes a) ≡ a }
{}

/// Bytes spell at most one message, have at most one fault, and never both where it is within the limits
/// for reading.
pub fn one_message_reading()
    ensures message { (bytes : List ℕ) (a : MessageValue) (b : MessageValue) → SpellsMessage bytes a → SpellsMessage bytes b → a ≡ b }
    ensures fault { (bytes : List ℕ) (a : MessageFault) (b : MessageFault) → AreBytes bytes → FailsMessage a bytes
        → FailsMessage b bytes → a ≡ b }
    ensures never_both { (bytes : List ℕ) (m : MessageValue) (fault : MessageFault) → AreBytes bytes
        → SpellsMessage bytes m → IsReadable m → FailsMessage fault bytes → ⊥ }
{}
