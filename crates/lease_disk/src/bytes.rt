//! Writing over bytes in memory.
ghost use Rattle.std.specs.Prelude.{◌≡◌, ◌≤◌, ◌+◌, ◌-◌, ℕ, length, slice_index, nat_lt, if◌then◌else◌};
ghost use Rattle.lease_disk.specs.Region.{is_within};

/// Copies `source` over the bytes of `target` from an offset on.
pub fn put(target: &mut [u8], at: usize, source: &[u8])
    requires { at + length source.now ≤ length target.old }
    ensures { (i : ℕ) → slice_index target.new i
        ≡ (if is_within at (length source.now) i then slice_index source.now (i - at) else slice_index target.old i) }
{
    for (i, byte) in source.iter().enumerate() {
        target[at + i] = *byte;
    }
}

/// Gives all bytes one value.
pub fn overwrite(bytes: &mut [u8], byte: u8)
    ensures { (i : ℕ) → slice_index bytes.new i ≡ (if nat_lt i (length bytes.old) then byte else 0) }
{
    for place in bytes.iter_mut() {
        *place = byte;
    }
}
