//! Decimal numbers.
ghost use Rattle.std.specs.Prelude.{◌≡◌, ◌≤◌, IfSome};
ghost use Rattle.lab_text.specs.Fields.{lacks_first, number_to};

use types::{LAST_MOMENT, Moment};

/// The greatest number that names a datagram.
const MAX_NUMBER: u64 = 65535;

/// The last call of the disk in a save.
const MAX_FAULT: u64 = 6;

/// There is no digit, or a leading zero.
fn lacks_first(text: &[u8]) -> bool
    ensures { result ≡ lacks_first text.now }
{
    if text.len() < 2 {
        return text.is_empty();
    }
    text[0] == b'0'
}

/// The number that a text spells, `None` where it is not a number or exceeds `most`.
pub(crate) fn number(text: &[u8], most: u64) -> Option<u64>
    requires { most ≤ 1099511627775 }
    ensures value { result ≡ number_to most text.now }
    ensures within { IfSome result (λ n. n ≤ most) }
{
    if lacks_first(text) {
        return None;
    }
    let mut number = 0;
    'digits: for digit in text {
        if !digit.is_ascii_digit() {
            return None;
        }
        number = 10 * number + u64::from(*digit - b'0');
        if number > most {
            return None;
        }
    }
    Some(number)
}

/// The number that names a datagram.
pub(crate) fn datagram_number(text: &[u8]) -> Option<u16>
    ensures { result ≡ number_to 65535 text.now }
{
    match number(text, MAX_NUMBER) {
        Some(number) => Some(number as u16),
        None => None,
    }
}

/// The number of the call of the disk that fails in a save.
pub(crate) fn fault_number(text: &[u8]) -> Option<u8>
    ensures { result ≡ number_to 6 text.now }
{
    match number(text, MAX_FAULT) {
        Some(number) => Some(number as u8),
        None => None,
    }
}

/// A moment in seconds.
pub(crate) fn moment(text: &[u8]) -> Option<Moment>
    ensures { result ≡ number_to 1099511627775 text.now }
{
    match number(text, LAST_MOMENT) {
        Some(seconds) => Moment::new(seconds),
        None => None,
    }
}
