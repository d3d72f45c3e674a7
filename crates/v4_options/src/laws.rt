//! Laws of the definitions alone: what any reader and writer of options can rely on.
ghost use Rattle.std.specs.Prelude.{◌≡◌, ◌≢◌, ◌↔◌, ℕ, List, [], ◌∷◌, ◌++◌, Ok, Err, None};
ghost use Rattle.v4_options.specs.declared.code.TheConstants as code;
ghost use Rattle.v4_options.specs.Codes.{PAD, END};
ghost use Rattle.v4_options.specs.declared.fault.OptFault.{OptFault};
ghost use Rattle.v4_options.specs.declared.fault.SuboptFault.{SuboptFault};
ghost use Rattle.v4_options.specs.Reading.{options_of};
ghost use Rattle.v4_options.specs.Spelling.{spelling, look_up, without, AreOptions, Spells, Fails};
ghost use Rattle.v4_options.specs.Suboptions.{AreDistinct, SpellsSuboptions, FailsSuboptions};
ghost use Rattle.v4_options.specs.Subreading.{suboptions_of};

/// The codes of what is read, as the standards' numbers: of options and of the suboptions of option 82.
pub fn code_values()
    ensures pad { code.PAD ≡ 0 }
    ensures requested { code.REQUESTED_ADDRESS ≡ 50 }
    ensures overload { code.OPTION_OVERLOAD ≡ 52 }
    ensures message_type { code.MESSAGE_TYPE ≡ 53 }
    ensures server { code.SERVER_IDENTIFIER ≡ 54 }
    ensures client { code.CLIENT_IDENTIFIER ≡ 61 }
    ensures agent { code.RELAY_AGENT_INFORMATION ≡ 82 }
    ensures end { code.END ≡ 255 }
    ensures circuit { code.CIRCUIT_ID ≡ 1 }
    ensures server_override { code.SERVER_IDENTIFIER_OVERRIDE ≡ 11 }
{}

/// The codes of the options that are only sent, as the standards' numbers.
pub fn reply_code_values()
    ensures mask { code.SUBNET_MASK ≡ 1 }
    ensures router { code.ROUTER ≡ 3 }
    ensures name_server { code.DOMAIN_NAME_SERVER ≡ 6 }
    ensures lease { code.LEASE_TIME ≡ 51 }
    ensures renewal { code.RENEWAL_TIME ≡ 58 }
    ensures rebinding { code.REBINDING_TIME ≡ 59 }
{}

/// Reading any bytes returns a list exactly where they spell it, and a fault exactly where they have
/// it.
pub fn exact_reading()
    ensures list { (bytes : List ℕ) (list : List (ℕ × List ℕ)) → options_of bytes ≡ Ok list ↔ Spells bytes list }
    ensures fault { (bytes : List ℕ) (fault : OptFault) → options_of bytes ≡ Err fault ↔ Fails fault bytes }
{}

/// A list that was written reads back as the same list, whatever bytes follow its end option.
pub fn written_is_read()
    ensures read { (list : List (ℕ × List ℕ)) (rest : List ℕ) → AreOptions list → options_of (spelling list ++ END ∷ rest) ≡ Ok list }
    ensures spelled { (list : List (ℕ × List ℕ)) (rest : List ℕ) → AreOptions list → Spells (spelling list ++ END ∷ rest) list }
{}

/// Bytes spell at most one list, have at most one fault, and never both. The codes of a spelled list
/// are distinct.
pub fn one_reading()
    ensures list { (bytes : List ℕ) (a : List (ℕ × List ℕ)) (b : List (ℕ × List ℕ)) → Spells bytes a → Spells bytes b → a ≡ b }
    ensures fault { (bytes : List ℕ) (a : OptFault) (b : OptFault) → Fails a bytes → Fails b bytes → a ≡ b }
    ensures never_both { (bytes : List ℕ) (list : List (ℕ × List ℕ)) (fault : OptFault) → Spells bytes list → Fails fault bytes → ⊥ }
    ensures distinct { (bytes : List ℕ) (list : List (ℕ × List ℕ)) → Spells bytes list → AreOptions list }
{}

/// Leaving out a code removes its option, keeps every other option, and keeps distinct codes
/// distinct.
pub fn left_out()
    ensures gone { (code : ℕ) (list : List (ℕ × List ℕ)) → look_up code (without code list) ≡ None }
    ensures others { (code : ℕ) (other : ℕ) (list : List (ℕ × List ℕ)) → other ≢ code
        → look_up other (without code list) ≡ look_up other list }
    ensures distinct { (code : ℕ) (list : List (ℕ × List ℕ)) → AreOptions list → AreOptions (without code list) }
{}

/// The bytes of two concatenated lists are their bytes, concatenated. A new option at the end of a list
/// keeps the codes distinct; it is found by its code, and every other option as before.
pub fn appended()
    ensures bytes { (a : List (ℕ × List ℕ)) (b : List (ℕ × List ℕ)) → spelling (a ++ b) ≡ spelling a ++ spelling b }
    ensures distinct { (list : List (ℕ × List ℕ)) (code : ℕ) (value : List ℕ) → code ≢ PAD → code ≢ END
        → look_up code list ≡ None → AreOptions list → AreOptions (list ++ (code, value) ∷ []) }
    ensures found { (list : List (ℕ × List ℕ)) (code : ℕ) (value : List ℕ) → look_up code list ≡ None
        → look_up code (list ++ (code, value) ∷ []) ≡ Some value }
    ensures others { (list : List (ℕ × List ℕ)) (code : ℕ) (other : ℕ) (value : List ℕ) → other ≢ code
        → look_up other (list ++ (code, value) ∷ []) ≡ look_up other list }
{}

/// Reading any bytes returns a list of suboptions exactly where they spell it, and a fault exactly
/// where they have it.
pub fn exact_subreading()
    ensures list { (bytes : List ℕ) (list : List (ℕ × List ℕ)) → suboptions_of bytes ≡ Ok list ↔ SpellsSuboptions bytes list }
    ensures fault { (bytes : List ℕ) (fault : SuboptFault) → suboptions_of bytes ≡ Err fault ↔ FailsSuboptions fault bytes }
{}

/// Suboptions that were written read back as the same list.
pub fn subwritten_is_read()
    ensures read { (list : List (ℕ × List ℕ)) → AreDistinct list → suboptions_of (spelling list) ≡ Ok list }
    ensures spelled { (list : List (ℕ × List ℕ)) → AreDistinct list → SpellsSuboptions (spelling list) list }
{}

/// Bytes spell at most one list of suboptions, have at most one fault, and never both.
pub fn one_subreading()
    ensures list { (bytes : List ℕ) (a : List (ℕ × List ℕ)) (b : List (ℕ × List ℕ)) → SpellsSuboptions bytes a
        → SpellsSuboptions bytes b → a ≡ b }
    ensures fault { (bytes : List ℕ) (a : SuboptFault) (b : SuboptFault) → FailsSuboptions a bytes → FailsSuboptions b bytes → a ≡ b }
    ensures never_both { (bytes : List ℕ) (list : List (ℕ × List ℕ)) (fault : SuboptFault) → SpellsSuboptions bytes list
        → FailsSuboptions fault bytes → ⊥ }
{}
