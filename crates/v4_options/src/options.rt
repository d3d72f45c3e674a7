//! Lists of options (RFC 2132, section 2).
ghost use Rattle.std.specs.Prelude.{◌≡◌, ◌≤◌, ◌<◌, ◌+◌, ◌↔◌, ℕ, List, ◌++◌, [], length, IsOk, OnOk, OnErr, IfSome, option_map};
ghost use Rattle.v4_options.specs.Spelling.{spelling, look_up, without, Spells, Fails};
ghost use Rattle.v4_options.specs.Places.{IsWithin, value_at};
ghost use Rattle.v4_options.specs.Reading.{listed_from, options_of};
ghost use Rattle.v4_options.specs.declared.token.Syntax.TheVariants as syntax;

use crate::code::{self, END};
use crate::fault::OptFault;
use crate::front::front_of;
use crate::iter::Iter;
use crate::places::Places;
use crate::seen_codes::SeenCodes;
use crate::token::{Syntax, Token, next_token};
use std::marker::Model;
use types::MAX_DATAGRAM;
use wire::{Cursor, Full, PacketBuf};

/// A list of options in the bytes that it was read from. Its values are slices of those bytes.
#[derive(Drop)]
pub struct Options<'a> {
    bytes: &'a [u8],
    places: Places,
    /// How many bytes at the front spell the options, if they do (`front_of`).
    front: Option<usize>,
}

impl<'a> Model for Options<'a> {
    ghost use Rattle.std.specs.Prelude.{ℕ, List};
    ghost use Rattle.v4_options.specs.Reading.{listed_from};
    ghost use Rattle.v4_options.specs.declared.token.Syntax.TheVariants as syntax;

    ghost Value = { List (ℕ × List ℕ) };

    ghost view = { λ o. listed_from syntax.Options 0 o.bytes.now };

    ghost use Rattle.std.specs.Prelude.{[]};
    ghost use Rattle.v4_options.specs.Front.{HasFront};
    ghost use Rattle.v4_options.specs.Places.{ArePlaced};

    ghost invariant = { λ o. ArePlaced o.bytes.now o.places [] (listed_from syntax.Options 0 o.bytes.now) × HasFront o.front o.bytes.now };
}

impl<'a> Options<'a> {
    /// The options up to the end option. The bytes after it are ignored.
    pub fn read(bytes: &'a [u8]) -> Result<Options<'a>, OptFault>
        ensures exact { result ≡ options_of bytes.now }
        ensures spelled { (list : List (ℕ × List ℕ)) → result ≡ Ok list ↔ Spells bytes.now list }
        ensures fails { (fault : OptFault) → result ≡ Err fault ↔ Fails fault bytes.now }
    {
        read_list(bytes)
    }

    /// The value of the option with this code, `None` where there is none.
    pub fn get(&self, code: u8) -> Option<&'a [u8]>
        ensures value { option_map (λ value. value.now) result ≡ look_up code self.now }
        ensures fits { IfSome result (λ value. length value.now < 256) }
    {
        let places = &self.places;
        match code {
            code::REQUESTED_ADDRESS => value_at(self.bytes, places.requested),
            code::OPTION_OVERLOAD => value_at(self.bytes, places.overload),
            code::MESSAGE_TYPE => value_at(self.bytes, places.kind),
            code::SERVER_IDENTIFIER => value_at(self.bytes, places.server),
            code::CLIENT_IDENTIFIER => value_at(self.bytes, places.client),
            code::RELAY_AGENT_INFORMATION => value_at(self.bytes, places.agent),
            _ => self.iter().value_of(code),
        }
    }

    /// All options, in order.
    pub fn iter(&self) -> Iter<'a>
        ensures { result ≡ self.now }
    {
        Iter::new(self.bytes, Syntax::Options)
    }

    /// Appends the options in order, without pads and without an end. Where they do not fit, `out` is
    /// left empty.
    pub fn write(&self, out: &mut PacketBuf) -> Result<(), Full>
        ensures full { IsOk result ↔ (length out.old + length (spelling self.now) ≤ 1280) }
        ensures ok { OnOk result (out.new ≡ out.old ++ spelling self.now) }
        ensures err { OnErr result (out.new ≡ []) }
    {
        prove!(out.len() <= MAX_DATAGRAM);
        if self.places.agent == 0
            && let Some(len) = self.front
        {
            return append(&self.bytes[..len], out);
        }
        // no option has the code of the end
        write_rows(self.bytes, END, out)
    }

    /// Adds the options without that of one code, in order, without pads and without an end.
    pub fn write_without(&self, left_out: u8, out: &mut PacketBuf) -> Result<(), Full>
        ensures full { IsOk result ↔ (length out.old + length (spelling (without left_out self.now)) ≤ 1280) }
        ensures ok { OnOk result (out.new ≡ out.old ++ spelling (without left_out self.now)) }
        ensures err { OnErr result (out.new ≡ []) }
    {
        prove!(out.len() <= MAX_DATAGRAM);
        if left_out == code::RELAY_AGENT_INFORMATION
            && let Some(len) = self.front
        {
            return append(&self.bytes[..len], out);
        }
        write_rows(self.bytes, left_out, out)
    }
}

/// The list that these bytes spell, or the first fault from the left.
fn read_list<'a>(bytes: &'a [u8]) -> Result<Options<'a>, OptFault>
    ensures { result ≡ options_of bytes.now }
{
    let mut seen = SeenCodes::new();
    let mut places = Places::none();
    let mut has_pad = false;
    let mut left = Cursor::new(bytes);
    'row: loop {
        match next_token(&mut left, Syntax::Options) {
            Token::Nothing => return Err(OptFault::NoEnd),
            Token::Pad => has_pad = true,
            Token::End => {
                let end = bytes.len() - left.rest().len() - 1;
                return Ok(Options {
                    bytes,
                    places,
                    front: front_of(bytes, places.agent, end, has_pad),
                });
            }
            Token::Cut => return Err(OptFault::Cut),
            Token::Whole(code, _) if seen.has(code) => return Err(OptFault::Twice),
            Token::Whole(code, value) => {
                let end = bytes.len() - left.rest().len();
                seen.add(code);
                places.add(code, end - value.len() - 1);
            }
        }
    }
}

/// The value whose length stands here; none where that is place 0.
fn value_at(bytes: &[u8], place: usize) -> Option<&[u8]>
    requires { 0 < place → IsWithin bytes.now place }
    ensures value { option_map (λ value. value.now) result ≡ value_at bytes.now place }
    ensures fits { IfSome result (λ value. length value.now < 256) }
{
    if place == 0 {
        return None;
    }
    let len = usize::from(bytes[place]);
    Some(&bytes[place + 1..][..len])
}

/// Appends options without pads and without those of one code. Options that follow one another without either between them
/// are appended together.
fn write_rows(bytes: &[u8], left_out: u8, out: &mut PacketBuf) -> Result<(), Full>
    requires { length out.old ≤ 1280 }
    ensures full { IsOk result ↔ (length out.old + length (spelling (without left_out (listed_from syntax.Options 0 bytes.now))) ≤ 1280) }
    ensures ok { OnOk result (out.new ≡ out.old ++ spelling (without left_out (listed_from syntax.Options 0 bytes.now))) }
    ensures err { OnErr result (out.new ≡ []) }
{
    let mut left = Cursor::new(bytes);
    let mut front = bytes;
    let mut len = 0;
    'row: loop {
        match next_token(&mut left, Syntax::Options) {
            Token::Whole(code, _) if code != left_out => {
                len = front.len() - left.rest().len();
                continue;
            }
            Token::Whole(_, _) => {}
            Token::Pad => {}
            Token::Nothing | Token::End | Token::Cut => break,
        }
        append(&front[..len], out)?;
        front = left.rest();
        len = 0;
    }
    append(&front[..len], out)
}

/// Appends bytes. Where they do not fit, `out` is left empty.
fn append(bytes: &[u8], out: &mut PacketBuf) -> Result<(), Full>
    ensures full { IsOk result ↔ (length out.old + length bytes.now ≤ 1280) }
    ensures ok { OnOk result (out.new ≡ out.old ++ bytes.now) }
    ensures err { OnErr result (out.new ≡ []) }
{
    if out.extend(bytes).is_err() {
        out.clear();
        return Err(Full);
    }
    Ok(())
}
