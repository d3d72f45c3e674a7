//! The options of a message, from the left.
ghost use Rattle.std.specs.Prelude.{◌≡◌};
ghost use Rattle.v6_message.specs.Lists.{first_code, second_code};
ghost use Rattle.v6_message.specs.Reading.{first_fault, is_formed};

use crate::ia::is_ia;
use crate::seen_codes::SeenCodes;
use v6_options::{Token, code, next_token};
use wire::Cursor;

/// Whose options they are: those of a client's or server's message, or of a relay's.
#[derive(Clone, Copy)]
pub(crate) enum Sender {
    Client,
    Relay,
}

/// Why the options are none of a message.
#[derive(Clone, Copy)]
pub(crate) enum ListFault {
    Cut,
    Twice,
}

impl Sender {
    /// One of the two codes that may appear once at most.
    pub(crate) fn first_code(self) -> u16
        ensures { result ≡ first_code self }
    {
        match self {
            Sender::Client => code::CLIENT_ID,
            Sender::Relay => code::RELAY_MESSAGE,
        }
    }

    /// The other one.
    pub(crate) fn second_code(self) -> u16
        ensures { result ≡ second_code self }
    {
        match self {
            Sender::Client => code::SERVER_ID,
            Sender::Relay => code::INTERFACE_ID,
        }
    }

    /// Whether a whole option has a value that its code allows.
    fn is_formed(self, code: u16, value: &[u8]) -> bool
        ensures { result ≡ is_formed self code value.now }
    {
        match self {
            Sender::Client => code != code::IA_NA || is_ia(value),
            Sender::Relay => true,
        }
    }
}

/// The first fault from the left.
pub(crate) fn fault_in(bytes: &[u8], sender: Sender) -> Option<ListFault>
    ensures { result ≡ first_fault sender bytes.now }
{
    let mut left = Cursor::new(bytes);
    let mut seen = SeenCodes::new(sender);
    'row: loop {
        match next_token(&mut left) {
            Token::Nothing => return None,
            Token::Cut => return Some(ListFault::Cut),
            Token::Whole(code, value) if !sender.is_formed(code, value) => {
                return Some(ListFault::Cut);
            }
            Token::Whole(code, _) if seen.has(code) => return Some(ListFault::Twice),
            Token::Whole(code, _) => seen.add(code),
        }
    }
}
