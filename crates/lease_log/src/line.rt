//! The line of a change.
ghost use Rattle.std.specs.Prelude.{◌≡◌, ◌≤◌, Some, length};
ghost use Rattle.std.specs.Fmt.{WritesOnOk};
ghost use Rattle.hex.specs.Hex.{encode_lower};
ghost use Rattle.lease_log.specs.Line.{address_text, client_text, line_text, until_text, word_of};

use crate::change::{Change, Happened, Holder};
use std::net::{Ipv4Addr, Ipv6Addr};
use std::{fmt, str};
use types::MAX_DUID;

/// The line of a change in the circuit with this id, without a line feed. To write it takes no memory.
#[derive(Clone, Copy)]
pub struct Line<'a> {
    pub circuit: &'a str,
    pub change: &'a Change,
}

fn word_of(happened: Happened) -> &'static str
    ensures { result.now ≡ word_of happened }
{
    match happened {
        Happened::Leased(_) => "leased",
        Happened::Released => "released",
        Happened::Declined(_) => "declined",
        Happened::Ended => "ended",
    }
}

/// Writes bytes in hexadecimal.
fn write_hex<W: fmt::Write>(bytes: &[u8], f: &mut fmt::Formatter<W>) -> fmt::Result
    requires { length bytes.now ≤ 130 }
    ensures { WritesOnOk W.write_str_gives f.old result (encode_lower bytes.now) f.new }
{
    let mut room = [0; 2 * MAX_DUID];
    let digits = &mut room[..2 * bytes.len()];
    hex::encode_to_slice(bytes, digits).map_err(|_| fmt::Error)?;
    f.write_str(str::from_utf8(digits).map_err(|_| fmt::Error)?)
}

fn write_address<W: fmt::Write>(holder: &Holder, f: &mut fmt::Formatter<W>) -> fmt::Result
    ensures { WritesOnOk W.write_str_gives f.old result (address_text holder.now) f.new }
{
    match *holder {
        Holder::V4(address, _) => f.write(Ipv4Addr::from_octets(address.0)),
        Holder::V6(address, _) => f.write(Ipv6Addr::from_octets(address.0)),
    }
}

/// Writes a client's identifier or DUID, and its IAID, which DHCPv6 alone has.
fn write_client<W: fmt::Write>(holder: &Holder, f: &mut fmt::Formatter<W>) -> fmt::Result
    ensures { WritesOnOk W.write_str_gives f.old result (client_text holder.now) f.new }
{
    match *holder {
        Holder::V4(_, client) => {
            write_hex(client.as_bytes(), f)?;
            f.write_str(" -")
        }
        Holder::V6(_, client) => {
            write_hex(client.duid(), f)?;
            f.write_str(" ")?;
            let iaid = client.iaid().to_be_bytes();
            write_hex(&iaid[..], f)
        }
    }
}

fn write_until<W: fmt::Write>(happened: Happened, f: &mut fmt::Formatter<W>) -> fmt::Result
    ensures { WritesOnOk W.write_str_gives f.old result (until_text happened) f.new }
{
    match happened {
        Happened::Leased(until) | Happened::Declined(until) => write!(f, " until {until}"),
        Happened::Released | Happened::Ended => Ok(()),
    }
}

impl<'a> fmt::Display for Line<'a> {
    ghost output = { λ line. Some (line_text line.circuit.now line.change.now) };

    fn fmt<W: fmt::Write>(&self, f: &mut fmt::Formatter<W>) -> fmt::Result {
        let (circuit, change) = (self.circuit, self.change);
        let (moment, word) = (change.moment, word_of(change.happened));
        write!(f, "{moment} {circuit} ")?;
        write_address(&change.holder, f)?;
        write!(f, " {word} ")?;
        write_client(&change.holder, f)?;
        write_until(change.happened, f)
    }
}
