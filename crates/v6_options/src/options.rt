//! Lists of options (RFC 8415, section 21.1).
ghost use Rattle.std.specs.Prelude.{◌≡◌, ◌≤◌, ◌<◌, ◌^◌, ◌+◌, ◌↔◌, ℕ, List, ◌++◌, [], length, IsOk, OnOk, OnErr, IfSome};
ghost use Rattle.std.specs.Prelude.{Ok, Err, option_map};
ghost use Rattle.v6_options.specs.Spelling.{spelling, look_up, Spells, Fails};
ghost use Rattle.v6_options.specs.Reading.{cut_from, options_of};

use crate::fault::OptFault;
use crate::iter::Iter;
use crate::token::{Token, next_token};
use crate::writing::put;
use std::marker::Model;
use wire::{Cursor, Full, PacketBuf};

/// A list of options in the bytes that it was read from. Its values are slices of those bytes.
#[derive(Drop)]
pub struct Options<'a> {
    bytes: &'a [u8],
}

impl<'a> Model for Options<'a> {
    ghost use Rattle.std.specs.Prelude.{ℕ, List};
    ghost use Rattle.v6_options.specs.Reading.{listed};

    ghost Value = { List (ℕ × List ℕ) };

    ghost view = { λ o. listed o.bytes.now };
}

impl<'a> Options<'a> {
    /// The options of these bytes, all of them. A code may appear twice.
    pub fn read(bytes: &'a [u8]) -> Result<Options<'a>, OptFault>
        ensures exact { result ≡ options_of bytes.now }
        ensures spelled { (list : List (ℕ × List ℕ)) → result ≡ Ok list ↔ Spells bytes.now list }
        ensures fails { (fault : OptFault) → result ≡ Err fault ↔ Fails fault bytes.now }
    {
        if is_cut(bytes) {
            return Err(OptFault::Cut);
        }
        Ok(Options { bytes })
    }

    /// The value of the first option with this code, `None` where there is none.
    pub fn get(&self, code: u16) -> Option<&'a [u8]>
        ensures value { option_map (λ value. value.now) result ≡ look_up code self.now }
        ensures fits { IfSome result (λ value. length value.now < 2 ^ 16) }
    {
        self.iter().value_of(code)
    }

    /// All options, in order.
    pub fn iter(&self) -> Iter<'a>
        ensures { result ≡ self.now }
    {
        Iter::new(self.bytes)
    }

    /// Appends the options in order. Where they do not fit, `out` is left empty.
    pub fn write(&self, out: &mut PacketBuf) -> Result<(), Full>
        ensures full { IsOk result ↔ (length out.old + length (spelling self.now) ≤ 1280) }
        ensures ok { OnOk result (out.new ≡ out.old ++ spelling self.now) }
        ensures err { OnErr result (out.new ≡ []) }
    {
        prove!(out.len() <= 1280);
        'row: for (code, value) in self.iter() {
            put(code, value, out)?;
        }
        Ok(())
    }
}

/// Whether the last option is cut off.
fn is_cut(bytes: &[u8]) -> bool
    ensures { result ≡ cut_from 0 bytes.now }
{
    let mut left = Cursor::new(bytes);
    'row: loop {
        match next_token(&mut left) {
            Token::Nothing => return false,
            Token::Cut => return true,
            Token::Whole(_, _) => {}
        }
    }
}
