//! The next item of a list of options.
ghost use Rattle.std.specs.Prelude.{◌≡◌, ◌<◌, ◌≤◌, ◌^◌, ◌+◌, ◌⊎◌, ◌++◌, length, drop, IfOk, OnOk, OnErr};
ghost use Rattle.std.specs.Int.{w16, to_be_bytes, from_be_bytes};
ghost use Rattle.v6_options.specs.Spelling.{option};
ghost use Rattle.v6_options.specs.Token.{Begins};

use wire::{Cursor, Short};

/// The next item of a list.
#[derive(Clone, Copy)]
pub enum Token<'a> {
    /// No bytes are left.
    Nothing,
    /// What is left is no whole option.
    Cut,
    /// A code and a value.
    Whole(u16, &'a [u8]),
}

/// Takes the next token from the bytes that are left. After a cut nothing of them can be read.
pub fn next_token<'a>(left: &mut Cursor<'a>) -> Token<'a>
    ensures { Begins result left.old left.new }
{
    if left.rest().is_empty() {
        return Token::Nothing;
    }
    match next_option(left) {
        Ok((code, value)) => Token::Whole(code, value),
        Err(Short) => Token::Cut,
    }
}

/// Takes a code, a length and as many bytes.
fn next_option<'a>(left: &mut Cursor<'a>) -> Result<(u16, &'a [u8]), Short>
    ensures whole { IfOk result (λ o. left.old ≡ option o.0 o.1.now ++ left.new) }
    ensures fits { IfOk result (λ o. length o.1.now < 2 ^ 16) }
    ensures cut { OnErr result ((length left.old < 4) ⊎ (length left.old < 4 + from_be_bytes w16 (drop 2 left.old))) }
{
    let code = next_number(left)?;
    let len = next_number(left)?;
    Ok((code, left.take(usize::from(len))?))
}

/// Takes a number of two bytes.
fn next_number(left: &mut Cursor<'_>) -> Result<u16, Short>
    ensures spelled { IfOk result (λ n. left.old ≡ to_be_bytes w16 n ++ left.new) }
    ensures value { IfOk result (λ n. n ≡ from_be_bytes w16 left.old) }
    ensures rest { OnOk result (left.new ≡ drop 2 left.old) }
    ensures size { OnOk result (2 ≤ length left.old) }
    ensures err { OnErr result (length left.old < 2) }
{
    let bytes = left.take(2)?;
    Ok(u16::from_be_bytes([bytes[0], bytes[1]]))
}
