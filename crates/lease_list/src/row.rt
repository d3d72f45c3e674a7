//! The texts of a lease.
ghost use Rattle.std.specs.Prelude.{◌≡◌, Some, IfOk, option_map, string_bytes};
ghost use Rattle.std.specs.Net.Addr.{segments_of};
ghost use Rattle.std.specs.Net.Text.{ipv4_text, ipv6_text};
ghost use Rattle.hex.specs.Hex.{encode_lower};
ghost use Rattle.lease_list.specs.Row.{IsDate, IsRow, address_text, client_text, iaid_text, state_text, or_dash, line_text};

use crate::lease::Lease;
use httpdate::{HttpDate, fmt_http_date};
use std::alloc::{AllocError, Global};
use std::fmt;
use std::marker::Model;
use std::net::{Ipv4Addr, Ipv6Addr};
use types::{Addr4, Addr6};

/// What a line says of a lease.
#[derive(Drop)]
pub struct Row<'a> {
    /// The circuit's id.
    pub circuit: &'a str,
    pub address: String,
    /// `bound`, or `declined` where nobody holds the address.
    pub state: &'static str,
    /// The client's identifier or DUID in hexadecimal, and its IAID, which DHCPv6 alone has.
    pub client: Option<String>,
    pub iaid: Option<String>,
    /// When it ends, in seconds and as a date in UTC; there is no date past the year 9999.
    pub until: u64,
    pub date: Option<String>,
    /// How many seconds are left.
    pub left: u64,
}

impl<'a> Model for Row<'a> {
    ghost use Rattle.std.specs.Prelude.{option_map, string_bytes};
    ghost use Rattle.lease_list.specs.Row.{Texts};

    ghost Value = { Texts };

    ghost view = { λ r.
        record {
          circuit = r.circuit.now;
          address = string_bytes r.address;
          state = r.state.now;
          client = option_map
              string_bytes r.client;
          iaid = option_map string_bytes r.iaid;
          until = r.until;
          date = option_map
              string_bytes r.date;
          left = r.left;
        } };
}

/// Four decimal numbers.
pub fn text4(alloc: Global, address: Addr4) -> Result<String, AllocError>
    ensures { IfOk result (λ text. string_bytes text ≡ ipv4_text address.0) }
{
    Ipv4Addr::from_octets(address.0).to_string(alloc)
}

/// Groups of hexadecimal digits (RFC 5952).
pub fn text6(alloc: Global, address: Addr6) -> Result<String, AllocError>
    ensures { IfOk result (λ text. string_bytes text ≡ ipv6_text (segments_of address.0)) }
{
    Ipv6Addr::from_octets(address.0).to_string(alloc)
}

fn address_text(alloc: Global, lease: &Lease) -> Result<String, AllocError>
    ensures { IfOk result (λ text. string_bytes text ≡ address_text lease.now) }
{
    match *lease {
        Lease::V4(address, _, _) => text4(alloc, address),
        Lease::V6(address, _, _) => text6(alloc, address),
    }
}

/// Bytes in hexadecimal.
fn digits_of(alloc: Global, bytes: &[u8]) -> Result<Option<String>, AllocError>
    ensures { IfOk result (λ text. option_map string_bytes text ≡ Some (encode_lower bytes.now)) }
{
    let text = hex::encode(alloc, bytes)?;
    Ok(Some(text))
}

fn client_text(alloc: Global, lease: &Lease) -> Result<Option<String>, AllocError>
    ensures { IfOk result (λ text. option_map string_bytes text ≡ client_text lease.now) }
{
    match *lease {
        Lease::V4(_, Some(key), _) => digits_of(alloc, key.as_bytes()),
        Lease::V6(_, Some(key), _) => digits_of(alloc, key.duid()),
        Lease::V4(_, None, _) | Lease::V6(_, None, _) => Ok(None),
    }
}

fn iaid_text(alloc: Global, lease: &Lease) -> Result<Option<String>, AllocError>
    ensures { IfOk result (λ text. option_map string_bytes text ≡ iaid_text lease.now) }
{
    let Lease::V6(_, Some(key), _) = *lease else {
        return Ok(None);
    };
    let bytes = key.iaid().to_be_bytes();
    digits_of(alloc, &bytes[..])
}

fn state_text(lease: &Lease) -> &'static str
    ensures { result.now ≡ state_text lease.now }
{
    match *lease {
        Lease::V4(_, Some(_), _) | Lease::V6(_, Some(_), _) => "bound",
        Lease::V4(_, None, _) | Lease::V6(_, None, _) => "declined",
    }
}

/// The date of a moment, in seconds since 1970; `None` past the year 9999.
fn date_text(alloc: Global, until: u64) -> Result<Option<String>, AllocError>
    ensures { IfOk result (λ text. IsDate until (option_map string_bytes text)) }
{
    let Ok(date) = HttpDate::from_unix_secs(until) else {
        return Ok(None);
    };
    let text = fmt_http_date(alloc, date)?;
    Ok(Some(text))
}

/// A text, or a dash where there is none.
fn or_dash(text: &Option<String>) -> &str
    ensures { result.now ≡ or_dash (option_map string_bytes text.now) }
{
    match text {
        Some(text) => text.as_str(),
        None => "-",
    }
}

impl<'a> Row<'a> {
    /// The texts of a lease of the circuit with this id, at a moment in seconds.
    pub fn new(
        alloc: Global,
        circuit: &'a str,
        lease: &Lease,
        at: u64,
    ) -> Result<Row<'a>, AllocError>
        ensures { IfOk result (IsRow circuit.entry.now lease.now at) }
    {
        let address = address_text(alloc, lease)?;
        let state = state_text(lease);
        let client = client_text(alloc, lease)?;
        let iaid = iaid_text(alloc, lease)?;
        let until = lease.until();
        let date = date_text(alloc, until)?;
        let left = until.saturating_sub(at);
        Ok(Row {
            circuit,
            address,
            state,
            client,
            iaid,
            until,
            date,
            left,
        })
    }
}

impl<'a> fmt::Display for Row<'a> {
    ghost output = { λ row. Some (line_text row) };

    fn fmt<W: fmt::Write>(&self, f: &mut fmt::Formatter<W>) -> fmt::Result {
        let (circuit, address, state) = (self.circuit, self.address.as_str(), self.state);
        let client = or_dash(&self.client);
        let iaid = or_dash(&self.iaid);
        let date = or_dash(&self.date);
        let (until, left) = (self.until, self.left);
        write!(
            f,
            "{circuit} {address} {state} {client} {iaid} until {until} ({date}) left {left}"
        )
    }
}
