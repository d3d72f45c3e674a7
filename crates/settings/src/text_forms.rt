//! How addresses and ports are written.
ghost use Rattle.std.specs.Prelude.{ℕ, IfSome, IfNone};
ghost use Rattle.settings.specs.Texts.{IsAddress, IsPort, IsSource, IsAddress6};

use std::net::Ipv4Addr;
use types::{Addr4, Addr6, Source};

/// The address that a string spells, such as `10.0.0.1`.
pub fn address(text: &str) -> Option<Addr4>
    ensures some { IfSome result (IsAddress text.now) }
    ensures none { IfNone result ((a : Addr4) → ¬ IsAddress text.now a) }
{
    match text.parse::<Ipv4Addr>() {
        Ok(address) => Some(Addr4(address.octets())),
        Err(_) => None,
    }
}

/// The port that a string spells, such as `67`.
pub fn port(text: &str) -> Option<u16>
    ensures some { IfSome result (IsPort text.now) }
    ensures none { IfNone result ((n : ℕ) → ¬ IsPort text.now n) }
{
    let bytes = text.as_bytes();
    // no sign and no leading zero
    if bytes.is_empty() || bytes[0] <= b'0' {
        return None;
    }
    match text.parse() {
        Ok(port) => Some(port),
        Err(_) => None,
    }
}

/// The address and port that a string spells, such as `10.0.0.1:67`.
pub fn source(text: &str) -> Option<Source>
    ensures some { IfSome result (IsSource text.now) }
    ensures none { IfNone result ((s : Source) → ¬ IsSource text.now s) }
{
    let Some((front, back)) = text.split_once(':') else {
        return None;
    };
    let Some(addr) = address(front) else {
        return None;
    };
    let Some(port) = port(back) else {
        return None;
    };
    Some(Source { addr, port })
}

/// The IPv6 address that 32 hexadecimal digits spell.
pub fn address6(text: &str) -> Option<Addr6>
    ensures some { IfSome result (IsAddress6 text.now) }
    ensures none { IfNone result ((a : Addr6) → ¬ IsAddress6 text.now a) }
{
    let mut bytes = [0; 16];
    hex::decode_to_slice(text, &mut bytes).ok()?;
    Some(Addr6(bytes))
}
