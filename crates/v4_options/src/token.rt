//! The next item of a list of options or suboptions.
ghost use Rattle.std.specs.Prelude.{◌≡◌, ◌<◌, length, ◌∷◌, ◌++◌, IfOk, OnErr};
ghost use Rattle.v4_options.specs.Spelling.{IsShort};
ghost use Rattle.v4_options.specs.Token.{Begins};

use crate::code::{END, PAD};
use wire::{Cursor, Short};

/// What a list holds. Options have pads and an end (RFC 2132, section 2). Suboptions have neither:
/// codes 0 and 255 are like any other there (RFC 3046, section 2.0).
#[derive(Clone, Copy)]
pub(crate) enum Syntax {
    Options,
    Suboptions,
}

/// The next item of a list.
#[derive(Clone, Copy)]
pub(crate) enum Token<'a> {
    /// No bytes are left.
    Nothing,
    Pad,
    End,
    /// A code whose length byte or value goes past the last byte.
    Cut,
    /// A code and a value.
    Whole(u8, &'a [u8]),
}

/// Takes the next token from the bytes that are left.
pub(crate) fn next_token<'a>(left: &mut Cursor<'a>, syntax: Syntax) -> Token<'a>
    ensures { Begins syntax result left.old left.new }
{
    let Ok(code) = left.u8() else {
        return Token::Nothing;
    };
    match syntax {
        Syntax::Options if code == PAD => Token::Pad,
        Syntax::Options if code == END => Token::End,
        Syntax::Options | Syntax::Suboptions => match next_value(left) {
            Ok(value) => Token::Whole(code, value),
            Err(Short) => Token::Cut,
        },
    }
}

/// Takes a length byte and as many bytes.
fn next_value<'a>(left: &mut Cursor<'a>) -> Result<&'a [u8], Short>
    ensures ok { IfOk result (λ value. left.old ≡ length value.now ∷ value.now ++ left.new) }
    ensures fits { IfOk result (λ value. length value.now < 256) }
    ensures err { OnErr result (IsShort left.old) }
{
    let len = left.u8()?;
    left.take(usize::from(len))
}
