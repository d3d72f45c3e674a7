//! The numbers of an IA_NA, for writing (RFC 8415, section 21.4).
ghost use Rattle.std.specs.Prelude.{◌≡◌, ◌≤◌, ◌+◌, ◌↔◌, [], ◌++◌, length, IsOk, OnOk, OnErr};
ghost use Rattle.v6_message.specs.Ia.{ia_header};

use wire::{Full, PacketBuf};

/// The fields before the options, by the standard's names. T1 and T2 are seconds.
#[derive(Clone, Copy)]
pub struct IaHeader {
    pub iaid: u32,
    pub t1: u32,
    pub t2: u32,
}

impl IaHeader {
    /// Appends the 12 bytes before the options. Where they do not fit, `out` is left empty.
    pub fn write(&self, out: &mut PacketBuf) -> Result<(), Full>
        ensures full { IsOk result ↔ (length out.old + 12 ≤ 1280) }
        ensures ok { OnOk result (out.new ≡ out.old ++ ia_header self.now.iaid self.now.t1 self.now.t2) }
        ensures err { OnErr result (out.new ≡ []) }
    {
        put_parts(
            &self.iaid.to_be_bytes(),
            &self.t1.to_be_bytes(),
            &self.t2.to_be_bytes(),
            out,
        )
    }
}

/// Appends three parts. Where they do not fit, `out` is left empty.
fn put_parts(a: &[u8], b: &[u8], c: &[u8], out: &mut PacketBuf) -> Result<(), Full>
    ensures full { IsOk result ↔ (length out.old + (length a.now + (length b.now + length c.now)) ≤ 1280) }
    ensures ok { OnOk result (out.new ≡ out.old ++ (a.now ++ (b.now ++ c.now))) }
    ensures err { OnErr result (out.new ≡ []) }
{
    if out.extend(a).is_err() || out.extend(b).is_err() || out.extend(c).is_err() {
        out.clear();
        return Err(Full);
    }
    Ok(())
}
