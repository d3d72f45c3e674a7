//! How many options have a code.
ghost use Rattle.std.specs.Prelude.{◌≡◌, nat_le};
ghost use Rattle.v6_options.specs.Reading.{listed};
ghost use Rattle.v6_message.specs.Lists.{count};

use v6_options::{Token, next_token};
use wire::Cursor;

/// Whether at most `limit` options of these bytes have this code.
pub(crate) fn has_at_most(limit: u8, code: u16, bytes: &[u8]) -> bool
    ensures { result ≡ nat_le (count code (listed bytes.now)) limit }
{
    let mut free = limit;
    let mut left = Cursor::new(bytes);
    'row: loop {
        match next_token(&mut left) {
            Token::Nothing | Token::Cut => return true,
            Token::Whole(other, _) if other != code => {}
            Token::Whole(_, _) if free == 0 => return false,
            Token::Whole(_, _) => free -= 1,
        }
    }
}
