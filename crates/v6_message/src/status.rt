//! The status in a list of options (RFC 8415, section 21.13).
ghost use Rattle.std.specs.Prelude.{◌≡◌};
ghost use Rattle.v6_message.specs.Ia.{status_in};

use crate::parts::array_at;
use v6_options::{Options, code};

/// The bytes of a status before its text.
const STATUS_TEXT: usize = 2;

/// The code of the first option 13; `None` where there is no such option, or it has fewer than 2 bytes.
pub(crate) fn status_of(options: &Options<'_>) -> Option<u16>
    ensures { result ≡ status_in options.now }
{
    match options.get(code::STATUS_CODE) {
        None => None,
        Some(value) if value.len() < STATUS_TEXT => None,
        Some(value) => Some(u16::from_be_bytes(*array_at(value, 0))),
    }
}
