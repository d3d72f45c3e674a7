//! Why bytes spell no list of options, or of suboptions.
ghost use Rattle.std.specs.Prelude.{◌≡◌};
ghost use Rattle.v4_options.specs.Reading.{fault_from, no_code};
ghost use Rattle.v4_options.specs.declared.token.Syntax.TheVariants as syntax;

use crate::seen_codes::SeenCodes;
use crate::token::{Syntax, Token, next_token};
use thiserror::Error;
use wire::Cursor;

/// Why bytes spell no list of options. The leftmost fault is reported, and of those of one option the
/// first in this order.
#[derive(Clone, Copy, Debug, PartialEq, Eq, Error)]
pub enum OptFault {
    /// The bytes stop before an end option.
    #[error("the options have no end")]
    NoEnd,
    /// An option's length byte or value goes past the last byte.
    #[error("an option is cut off")]
    Cut,
    /// An option has the code of one before it.
    #[error("an option appears twice")]
    Twice,
}

/// Why bytes spell no list of suboptions. The leftmost fault is reported, and of those of one suboption
/// the first in this order.
#[derive(Clone, Copy, Debug, PartialEq, Eq, Error)]
pub enum SuboptFault {
    /// A suboption's length byte or value goes past the last byte.
    #[error("a suboption is cut off")]
    Cut,
    /// A suboption has the code of one before it.
    #[error("a suboption appears twice")]
    Twice,
}

/// The first fault of suboptions from the left. They have no end: `NoEnd` is where the bytes stop.
pub(crate) fn suboption_fault(bytes: &[u8]) -> Option<OptFault>
    ensures { result ≡ fault_from syntax.Suboptions no_code 0 bytes.now }
{
    let mut seen = SeenCodes::new();
    let mut left = Cursor::new(bytes);
    'row: loop {
        match next_token(&mut left, Syntax::Suboptions) {
            Token::Nothing => return Some(OptFault::NoEnd),
            Token::Pad => {}
            Token::End => return None,
            Token::Cut => return Some(OptFault::Cut),
            Token::Whole(code, _) if seen.has(code) => return Some(OptFault::Twice),
            Token::Whole(code, _) => seen.add(code),
        }
    }
}
