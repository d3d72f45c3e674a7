//! Parts of a message whose length is known.
ghost use Rattle.std.specs.Prelude.{◌≡◌, ◌+◌, ◌≤◌, length};
ghost use Rattle.types.specs.declared.addr.Addr4.{Addr4};
ghost use Rattle.wire.specs.Part.{part};

use types::Addr4;

/// The `N` bytes from offset `at`.
pub(crate) fn array_at<const N: usize>(bytes: &[u8], at: usize) -> &[u8; N]
    requires { at + N ≤ length bytes.now }
    ensures { result.now ≡ part bytes.now at N }
{
    match bytes[at..].split_first_chunk() {
        Some((array, _)) => array,
        None => unreachable!(),
    }
}

/// The address that these four bytes are.
pub(crate) fn addr_of(bytes: &[u8]) -> Addr4
    requires { length bytes.now ≡ 4 }
    ensures { result.0 ≡ bytes.now }
{
    let mut addr = [0; 4];
    addr.copy_from_slice(bytes);
    Addr4(addr)
}
