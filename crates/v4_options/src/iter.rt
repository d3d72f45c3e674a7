//! The options of a list, one by one.
ghost use Rattle.std.specs.Prelude.{◌≡◌, ◌<◌, length, IfSome, option_map};
ghost use Rattle.v4_options.specs.Reading.{listed_from};
ghost use Rattle.v4_options.specs.Spelling.{look_up};

use crate::token::{Syntax, Token, next_token};
use std::marker::Model;
use wire::Cursor;

/// The options, or suboptions, of a list that are still to come.
#[derive(Drop)]
pub struct Iter<'a> {
    left: Cursor<'a>,
    syntax: Syntax,
}

impl<'a> Model for Iter<'a> {
    ghost use Rattle.std.specs.Prelude.{ℕ, List};
    ghost use Rattle.v4_options.specs.Reading.{listed_from};

    ghost Value = { List (ℕ × List ℕ) };

    ghost view = { λ i. listed_from i.syntax 0 i.left };
}

impl<'a> Iter<'a> {
    pub(crate) fn new(bytes: &'a [u8], syntax: Syntax) -> Iter<'a>
        ensures { result ≡ listed_from syntax 0 bytes.now }
    {
        Iter {
            left: Cursor::new(bytes),
            syntax,
        }
    }

    /// The value of the first option with this code, `None` where there is none.
    pub(crate) fn value_of(self, wanted: u8) -> Option<&'a [u8]>
        ensures value { option_map (λ value. value.now) result ≡ look_up wanted self.entry }
        ensures fits { IfSome result (λ value. length value.now < 256) }
    {
        'row: for (code, value) in self {
            if code == wanted {
                return Some(value);
            }
        }
        None
    }
}

impl<'a> Iterator for Iter<'a> {
    ghost use Rattle.std.specs.Iterator.{item_count};
    ghost use Rattle.v4_options.specs.Next.{GivesOption};

    type Item = (u8, &'a [u8]);

    ghost next_gives = { GivesOption };

    ghost remaining = { item_count (λ options. options) };

    #[tactic(auto, using(crate::proofs::Tokens::listed_is))]
    fn next(&mut self) -> Option<(u8, &'a [u8])> {
        'row: loop {
            match next_token(&mut self.left, self.syntax) {
                Token::Pad => {}
                Token::Whole(code, value) => return Some((code, value)),
                Token::Nothing | Token::End | Token::Cut => break,
            }
        }
        // bytes may follow an end: the next call returns `None` again
        self.left = Cursor::new(&[]);
        None
    }
}
