//! Which bytes of a list are its options but for the relay agent information.
ghost use Rattle.std.specs.Prelude.{◌≡◌, ◌<◌, ◌+◌, ℕ, List, [], length};
ghost use Rattle.v4_options.specs.Front.{IsRead, HasFront};
ghost use Rattle.v4_options.specs.Places.{IsWithin};
ghost use Rattle.v4_options.specs.Reading.{listed_from};
ghost use Rattle.v4_options.specs.declared.token.Syntax.TheVariants as syntax;

/// How many bytes from the first on are those of a list's options but for option 82, the relay agent information; `None` where
/// those do not stand together. A relay appends that option as the last one (RFC 3046, section 2.1), so that whoever takes it away
/// again, or writes a list that has none, finds all others together.
///
/// The end option stands at `end`. Of option 82 `agent` is the place of the value's length, or 0 where there is none.
pub(crate) fn front_of(bytes: &[u8], agent: usize, end: usize, has_pad: bool) -> Option<usize>
    requires { 0 < agent → IsWithin bytes.now agent }
    ensures { (left : List ℕ) → IsRead has_pad agent bytes.now left → listed_from syntax.Options 0 left ≡ []
        → end + length left ≡ length bytes.now → HasFront result bytes.now }
{
    if has_pad {
        return None;
    }
    if agent == 0 {
        return Some(end);
    }
    if agent + 1 + usize::from(bytes[agent]) == end {
        return Some(agent - 1);
    }
    // an option follows that option
    None
}
