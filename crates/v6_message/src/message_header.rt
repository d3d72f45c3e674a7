//! The fields before the options of a client's or server's message, for writing (RFC 8415, section 8).
ghost use Rattle.std.specs.Prelude.{◌≡◌, ◌≤◌, ◌+◌, ◌↔◌, [], ◌∷◌, ◌++◌, length, IsOk, OnOk, OnErr};

use wire::{Full, PacketBuf};

/// The fields by the standard's names. `kind` is the message type.
#[derive(Clone, Copy)]
pub struct MessageHeader {
    pub kind: u8,
    pub transaction_id: [u8; 3],
}

impl MessageHeader {
    /// Appends the 4 bytes before the options. Where they do not fit, `out` is left empty.
    pub fn write(&self, out: &mut PacketBuf) -> Result<(), Full>
        ensures full { IsOk result ↔ (length out.old + 4 ≤ 1280) }
        ensures ok { OnOk result (out.new ≡ out.old ++ (self.now.kind ∷ self.now.transaction_id)) }
        ensures err { OnErr result (out.new ≡ []) }
    {
        if out.push(self.kind).is_err() || out.extend(&self.transaction_id).is_err() {
            out.clear();
            return Err(Full);
        }
        Ok(())
    }
}
