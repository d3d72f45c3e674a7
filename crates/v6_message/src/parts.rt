//! Parts of a message whose length is known.
ghost use Rattle.std.specs.Prelude.{◌≡◌, ◌+◌, ◌≤◌, length};
ghost use Rattle.wire.specs.Part.{part};

/// The `N` bytes from offset `at`.
pub(crate) fn array_at<const N: usize>(bytes: &[u8], at: usize) -> &[u8; N]
    requires { at + N ≤ length bytes.now }
    ensures { result.now ≡ part bytes.now at N }
{
    match bytes[at..].split_first_chunk() {
        Some((array, _)) => array,
        None => unreachable!(),
    }
}
