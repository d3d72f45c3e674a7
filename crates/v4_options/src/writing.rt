//! Writing one option (RFC 2132, section 2).
ghost use Rattle.std.specs.Prelude.{◌≡◌, ◌≤◌, ◌+◌, ◌↔◌, [], ◌++◌, length, IsOk, OnOk, OnErr};
ghost use Rattle.v4_options.specs.Spelling.{option};

use wire::{Full, PacketBuf};

/// Appends an option or a suboption. Where it does not fit the datagram, `out` is left empty.
pub fn put(code: u8, value: &[u8], out: &mut PacketBuf) -> Result<(), Full>
    requires short { length value.now ≤ 255 }
    ensures full { IsOk result ↔ (length out.old + length (option code value.now) ≤ 1280) }
    ensures ok { OnOk result (out.new ≡ out.old ++ option code value.now) }
    ensures err { OnErr result (out.new ≡ []) }
{
    if out.extend(&[code, value.len() as u8]).is_err() || out.extend(value).is_err() {
        out.clear();
        return Err(Full);
    }
    Ok(())
}
