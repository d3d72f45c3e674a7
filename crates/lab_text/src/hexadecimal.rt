//! Bytes as hexadecimal digits.
ghost use Rattle.std.specs.Prelude.{◌≡◌, ◌≤◌, take, option_map, IfSome};
ghost use Rattle.lab_text.specs.Fields.{bytes_of, byte_of};

/// The most bytes that a field may spell.
pub const MAX_BYTES: usize = 2048;

/// Writes the bytes that a text spells to the front of the array and returns their count.
pub(crate) fn bytes_at(text: &[u8], bytes: &mut [u8; MAX_BYTES]) -> Option<usize>
    ensures value { option_map (λ n. take n bytes.new) result ≡ bytes_of text.now }
    ensures within { IfSome result (λ n. n ≤ 2048) }
{
    if text.is_empty() {
        return None;
    }
    if text == b"-".as_slice() {
        return Some(0);
    }
    if text.len() > 2 * MAX_BYTES {
        return None;
    }
    let count = text.len() / 2;
    match hex::decode_to_slice(text, &mut bytes[..count]) {
        Ok(()) => Some(count),
        Err(_) => None,
    }
}

/// The byte that two digits spell.
pub(crate) fn byte(text: &[u8]) -> Option<u8>
    ensures { result ≡ byte_of text.now }
{
    if text.len() != 2 {
        return None;
    }
    let mut byte = [0; 1];
    match hex::decode_to_slice(text, &mut byte[..]) {
        Ok(()) => Some(byte[0]),
        Err(_) => None,
    }
}
