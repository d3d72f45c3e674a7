//! The next line of the text.
ghost use Rattle.std.specs.Prelude.{◌≡◌};

use lab_text::parse_line::Parsed;
use streams::LineEnd;

/// A line that was read and not yet consumed.
#[derive(Clone, Copy)]
pub struct NextLine {
    /// How many lines of the text come before it.
    pub earlier: u64,
    pub end: LineEnd,
    /// What it says, where it was parsed.
    pub parsed: Option<Parsed>,
}

impl NextLine {
    pub fn new(earlier: u64, end: LineEnd, parsed: Option<Parsed>) -> NextLine
        ensures { result ≡ record { earlier = earlier; end = end; parsed = parsed } }
    {
        NextLine {
            earlier,
            end,
            parsed,
        }
    }
}
