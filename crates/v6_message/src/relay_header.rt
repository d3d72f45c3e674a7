//! A relay message's fields before its options, for writing (RFC 8415, section 9).
ghost use Rattle.std.specs.Prelude.{◌≡◌, ◌≤◌, ◌+◌, ◌↔◌, [], ◌++◌, length, IsOk, OnOk, OnErr};
ghost use Rattle.v6_message.specs.Relay.{relay_header};

use types::Addr6;
use wire::{Full, PacketBuf};

/// A message on its way to the server.
pub const RELAY_FORWARD: u8 = 12;

/// A message on its way to the client.
pub const RELAY_REPLY: u8 = 13;

/// The fields by the standard's names. `kind` is the message type.
#[derive(Clone, Copy)]
pub struct RelayHeader {
    pub kind: u8,
    pub hop_count: u8,
    pub link_address: Addr6,
    pub peer_address: Addr6,
}

impl RelayHeader {
    /// Appends the 34 bytes before the options. Where they do not fit, `out` is left empty.
    pub fn write(&self, out: &mut PacketBuf) -> Result<(), Full>
        ensures full { IsOk result ↔ (length out.old + 34 ≤ 1280) }
        ensures ok { OnOk result (out.new
            ≡ out.old
            ++ relay_header self.now.kind self.now.hop_count self.now.link_address.0 self.now.peer_address.0) }
        ensures err { OnErr result (out.new ≡ []) }
    {
        if out.extend(&[self.kind, self.hop_count]).is_err()
            || out.extend(&self.link_address.0).is_err()
            || out.extend(&self.peer_address.0).is_err()
        {
            out.clear();
            return Err(Full);
        }
        Ok(())
    }
}
