//! The options of a list, one by one.
ghost use Rattle.std.specs.Prelude.{◌≡◌, ◌<◌, ◌^◌, length, IfSome, option_map};
ghost use Rattle.v6_options.specs.Reading.{listed};
ghost use Rattle.v6_options.specs.Spelling.{look_up};

use crate::token::{Token, next_token};
use std::marker::Model;
use wire::Cursor;

/// The options of a list that are still to come.
#[derive(Drop)]
pub struct Iter<'a> {
    left: Cursor<'a>,
}

impl<'a> Model for Iter<'a> {
    ghost use Rattle.std.specs.Prelude.{ℕ, List};
    ghost use Rattle.v6_options.specs.Reading.{listed};

    ghost Value = { List (ℕ × List ℕ) };

    ghost view = { λ i. listed i.left };
}

impl<'a> Iter<'a> {
    pub(crate) fn new(bytes: &'a [u8]) -> Iter<'a>
        ensures { result ≡ listed bytes.now }
    {
        Iter {
            left: Cursor::new(bytes),
        }
    }

    /// The value of the first option with this code, `None` where there is none.
    pub(crate) fn value_of(self, wanted: u16) -> Option<&'a [u8]>
        ensures value { option_map (λ value. value.now) result ≡ look_up wanted self.entry }
        ensures fits { IfSome result (λ value. length value.now < 2 ^ 16) }
    {
        'row: for (code, value) in self {
            if code == wanted {
                return Some(value);
            }
        }
        None
    }
}

impl<'a> Iterator for Iter<'a> {
    ghost use Rattle.std.specs.Iterator.{item_count};
    ghost use Rattle.v6_options.specs.Next.{GivesOption};

    type Item = (u16, &'a [u8]);

    ghost next_gives = { GivesOption };

    ghost remaining = { item_count (λ options. options) };

    #[tactic(auto, using(crate::proofs::Tokens::listed_is))]
    fn next(&mut self) -> Option<(u16, &'a [u8])> {
        match next_token(&mut self.left) {
            Token::Whole(code, value) => Some((code, value)),
            Token::Nothing | Token::Cut => {
                self.left = Cursor::new(&[]);
                None
            }
        }
    }
}
