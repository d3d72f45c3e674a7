//! Laws of the definitions alone: what any reader and writer of options can rely on.
ghost use Rattle.std.specs.Prelude.{◌≡◌, ◌↔◌, ℕ, List, Ok, Err};
ghost use Rattle.v6_options.specs.declared.code.TheConstants as code;
ghost use Rattle.wire.specs.Bytes.{AreBytes};
ghost use Rattle.v6_options.specs.declared.fault.OptFault.{OptFault};
ghost use Rattle.v6_options.specs.Reading.{options_of};
ghost use Rattle.v6_options.specs.Spelling.{spelling, AreOptions, Spells, Fails};

/// The codes as the standard's numbers.
pub fn code_values()
    ensures client { code.CLIENT_ID ≡ 1 }
    ensures server { code.SERVER_ID ≡ 2 }
    ensures ia { code.IA_NA ≡ 3 }
    ensures address { code.IA_ADDRESS ≡ 5 }
    ensures message { code.RELAY_MESSAGE ≡ 9 }
    ensures status { code.STATUS_CODE ≡ 13 }
    ensures interface { code.INTERFACE_ID ≡ 18 }
{}

/// A list that was written reads back as the same list.
pub fn written_is_read()
    ensures read { (list : List (ℕ × List ℕ)) → AreOptions list → options_of (spelling list) ≡ Ok list }
    ensures spelled { (list : List (ℕ × List ℕ)) → AreOptions list → Spells (spelling list) list }
{}

/// Reading returns a list exactly where the bytes spell it, and a fault exactly where they
/// have it.
pub fn exact_reading()
    ensures list { (bytes : List ℕ) (list : List (ℕ × List ℕ)) → AreBytes bytes → (options_of bytes ≡ Ok list ↔ Spells bytes list) }
    ensures fault { (bytes : List ℕ) (fault : OptFault) → AreBytes bytes → (options_of bytes ≡ Err fault ↔ Fails fault bytes) }
{}

/// Bytes spell at most one list, and have no fault where they spell one.
pub fn one_reading()
    ensures list { (bytes : List ℕ) (a : List (ℕ × List ℕ)) (b : List (ℕ × List ℕ)) → Spells bytes a → Spells bytes b → a ≡ b }
    ensures never_both { (bytes : List ℕ) (list : List (ℕ × List ℕ)) (fault : OptFault) → Spells bytes list → Fails fault bytes → ⊥ }
{}
