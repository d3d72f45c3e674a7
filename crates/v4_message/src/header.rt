//! A message's header as values, for writing messages (RFC 2131, section 2).
ghost use Rattle.std.specs.Prelude.{◌≡◌, ◌≤◌, ◌+◌, ◌↔◌, [], ◌++◌, length, IsOk, OnOk, OnErr};
ghost use Rattle.v4_message.specs.Header.{header_bytes, IsSized};

use crate::field::{ETHERNET, ETHERNET_LEN, MAGIC_COOKIE, OPTIONS};
use types::{Addr4, MAX_DATAGRAM};
use wire::{Full, PacketBuf};

/// A client's message (BOOTREQUEST).
pub const OP_REQUEST: u8 = 1;

/// A server's message (BOOTREPLY).
pub const OP_REPLY: u8 = 2;

/// Set in `flags` if the client cannot receive unicast yet (RFC 2131, section 2).
pub const BROADCAST: u16 = 0x8000;

/// The fields of a header, by the standard's names. The hardware is Ethernet.
#[derive(Clone, Copy)]
pub struct Header<'a> {
    pub op: u8,
    pub hops: u8,
    pub xid: [u8; 4],
    pub secs: [u8; 2],
    pub flags: u16,
    pub ciaddr: Addr4,
    pub yiaddr: Addr4,
    pub siaddr: Addr4,
    pub giaddr: Addr4,
    pub chaddr: &'a [u8; 16],
    pub sname: &'a [u8; 64],
    pub file: &'a [u8; 128],
}

impl<'a> Header<'a> {
    ghost use Rattle.v4_message.specs.Written.{header_value};

    /// Appends the header and the cookie, 240 bytes; the caller appends the options and their end. Where
    /// they do not fit, `out` is left empty.
    pub fn write(&self, out: &mut PacketBuf) -> Result<(), Full>
        ensures full { IsOk result ↔ (length out.old + 240 ≤ 1280) }
        ensures ok { OnOk result (out.new ≡ out.old ++ (header_bytes (header_value self.now) ++ MAGIC_COOKIE)) }
        ensures err { OnErr result (out.new ≡ []) }
        ensures sized { OnOk result (IsSized (header_value self.now)) }
    {
        if out.len() + OPTIONS > MAX_DATAGRAM {
            out.clear();
            return Err(Full);
        }
        append(out, &[self.op, ETHERNET, ETHERNET_LEN, self.hops]);
        append(out, &self.xid);
        append(out, &self.secs);
        append(out, &self.flags.to_be_bytes());
        append(out, &self.ciaddr.0);
        append(out, &self.yiaddr.0);
        append(out, &self.siaddr.0);
        append(out, &self.giaddr.0);
        let (chaddr, sname, file) = (self.chaddr, self.sname, self.file);
        append(out, chaddr);
        append(out, sname);
        append(out, file);
        append(out, &MAGIC_COOKIE);
        Ok(())
    }
}

/// Appends bytes that fit.
pub(crate) fn append(out: &mut PacketBuf, bytes: &[u8])
    requires { length out.old + length bytes.now ≤ 1280 }
    ensures bytes { out.new ≡ out.old ++ bytes.now }
    ensures len { length out.new ≡ length out.old + length bytes.now }
{
    let _ = out.extend(bytes);
}
