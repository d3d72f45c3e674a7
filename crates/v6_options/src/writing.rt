//! Writing one option (RFC 8415, section 21.1).
ghost use Rattle.std.specs.Prelude.{◌≡◌, ◌≤◌, ◌<◌, ◌^◌, ◌+◌, ◌↔◌, [], ◌++◌, length, IsOk, OnOk, OnErr};
ghost use Rattle.std.specs.Int.{w16, to_be_bytes};
ghost use Rattle.v6_options.specs.Spelling.{option};

use wire::{Full, PacketBuf};

/// Appends an option whose value has at most 65535 bytes. Where it does not fit the datagram, `out` is
/// left empty.
pub fn put(code: u16, value: &[u8], out: &mut PacketBuf) -> Result<(), Full>
    requires short { length value.now < 2 ^ 16 }
    ensures full { IsOk result ↔ (length out.old + length (option code value.now) ≤ 1280) }
    ensures ok { OnOk result (out.new ≡ out.old ++ option code value.now) }
    ensures err { OnErr result (out.new ≡ []) }
{
    put_head(code, value.len() as u16, out)?;
    if out.extend(value).is_err() {
        out.clear();
        return Err(Full);
    }
    Ok(())
}

/// Appends the code of an option and the length of its value, which is to follow. Where these 4 bytes do not
/// fit, `out` is left empty.
pub fn put_head(code: u16, len: u16, out: &mut PacketBuf) -> Result<(), Full>
    ensures full { IsOk result ↔ (length out.old + 4 ≤ 1280) }
    ensures ok { OnOk result (out.new ≡ out.old ++ (to_be_bytes w16 code ++ to_be_bytes w16 len)) }
    ensures err { OnErr result (out.new ≡ []) }
{
    if out.extend(&code.to_be_bytes()).is_err() || out.extend(&len.to_be_bytes()).is_err() {
        out.clear();
        return Err(Full);
    }
    Ok(())
}
