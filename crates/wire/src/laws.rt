//! What holds of bytes and of big-endian numbers: functions that do nothing, for their contracts.
ghost use Rattle.std.specs.Prelude.{◌≡◌, ◌^◌, ◌<◌, ℕ, List, ◌++◌, length};
ghost use Rattle.std.specs.Int.{w16, w32, w64, from_be_bytes, to_be_bytes};
ghost use Rattle.wire.specs.Bytes.{AreBytes};

/// What a slice of bytes holds are bytes.
pub fn are_bytes(bytes: &[u8])
    ensures { AreBytes bytes.now }
{}

/// A number's bytes read as that number, whatever follows them.
pub fn number_again()
    ensures two { (n : ℕ) (rest : List ℕ) → n < 2 ^ 16 → from_be_bytes w16 (to_be_bytes w16 n ++ rest) ≡ n }
    ensures four { (n : ℕ) (rest : List ℕ) → n < 2 ^ 32 → from_be_bytes w32 (to_be_bytes w32 n ++ rest) ≡ n }
    ensures eight { (n : ℕ) (rest : List ℕ) → n < 2 ^ 64 → from_be_bytes w64 (to_be_bytes w64 n ++ rest) ≡ n }
{}

/// Bytes of a number's width are the bytes of the number that they spell.
pub fn bytes_again()
    ensures two { (bytes : List ℕ) → AreBytes bytes → length bytes ≡ 2 → to_be_bytes w16 (from_be_bytes w16 bytes) ≡ bytes }
    ensures four { (bytes : List ℕ) → AreBytes bytes → length bytes ≡ 4 → to_be_bytes w32 (from_be_bytes w32 bytes) ≡ bytes }
    ensures eight { (bytes : List ℕ) → AreBytes bytes → length bytes ≡ 8 → to_be_bytes w64 (from_be_bytes w64 bytes) ≡ bytes }
{}
