//! What a text has on both sides of a mark.
ghost use Rattle.std.specs.Prelude.{◌≡◌, ◌<◌, ◌==◌, length, option_map, IfSome};
ghost use Rattle.std.specs.List.{position};
ghost use Rattle.lab_text.specs.Fields.{parted, parted_last};

use memchr::memrchr;

/// The index of the first of these bytes.
fn index_of(text: &[u8], byte: u8) -> Option<usize>
    ensures value { result ≡ position (λ b. b == byte) text.now }
    ensures within { IfSome result (λ at. at < length text.now) }
{
    text.iter().position(|b| *b == byte)
}

/// What a text has before and after the first of these bytes.
pub(crate) fn parted(text: &[u8], byte: u8) -> Option<(&[u8], &[u8])>
    ensures { option_map (λ parts. (parts.0.now, parts.1.now)) result ≡ parted byte text.now }
{
    let Some(at) = index_of(text, byte) else {
        return None;
    };
    Some((&text[..at], &text[at + 1..]))
}

/// What a text has before and after the last of these bytes.
pub(crate) fn parted_last(text: &[u8], byte: u8) -> Option<(&[u8], &[u8])>
    ensures { option_map (λ parts. (parts.0.now, parts.1.now)) result ≡ parted_last byte text.now }
{
    match memrchr(byte, text) {
        Some(at) => Some((&text[..at], &text[at + 1..])),
        None => None,
    }
}
