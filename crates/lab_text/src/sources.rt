//! Texts of addresses and ports.
ghost use Rattle.std.specs.Prelude.{◌≡◌};
ghost use Rattle.lab_text.specs.Fields.{address_of, at_least, number_to, source_of};

use crate::digits::number;
use crate::parting::parted;
use types::{Addr4, Source};

/// The greatest port.
const MAX_PORT: u64 = 65535;

/// A number from 0 to 255.
fn octet(text: &[u8]) -> Option<u8>
    ensures { result ≡ number_to 255 text.now }
{
    match number(text, 255) {
        Some(octet) => Some(octet as u8),
        None => None,
    }
}

/// The port that a text spells, 1 to 65535.
fn port(text: &[u8]) -> Option<u16>
    ensures { result ≡ at_least 1 (number_to 65535 text.now) }
{
    match number(text, MAX_PORT) {
        Some(0) => None,
        Some(port) => Some(port as u16),
        None => None,
    }
}

/// The address that a text spells, as `10.0.0.1`.
fn address(text: &[u8]) -> Option<Addr4>
    ensures { result ≡ address_of text.now }
{
    let (one, rest) = parted(text, b'.')?;
    let (two, rest) = parted(rest, b'.')?;
    let (three, four) = parted(rest, b'.')?;
    let one = octet(one)?;
    let two = octet(two)?;
    let three = octet(three)?;
    let four = octet(four)?;
    Some(Addr4([one, two, three, four]))
}

/// The address and port that a text spells, as `10.0.0.1:67`.
pub(crate) fn source(text: &[u8]) -> Option<Source>
    ensures { result ≡ source_of text.now }
{
    let (front, back) = parted(text, b':')?;
    let addr = address(front)?;
    let port = port(back)?;
    Some(Source { addr, port })
}
