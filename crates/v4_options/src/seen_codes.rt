//! The codes that a reader has met.
ghost use Rattle.std.specs.Prelude.{◌≡◌};
ghost use Rattle.v4_options.specs.Reading.{has_code, no_code, with_code};

/// A set of codes, a bit for each.
#[derive(Drop)]
pub(crate) struct SeenCodes {
    words: [u64; 4],
}

impl SeenCodes {
    pub(crate) fn new() -> SeenCodes
        ensures { has_code result.words ≡ no_code }
    {
        SeenCodes { words: [0; 4] }
    }

    pub(crate) fn has(&self, code: u8) -> bool
        ensures { result ≡ has_code self.now.words code }
    {
        (self.words[usize::from(code / 64)] >> (code % 64)) & 1 == 1
    }

    pub(crate) fn add(&mut self, code: u8)
        ensures { has_code self.new.words ≡ with_code code (has_code self.old.words) }
    {
        self.words[usize::from(code / 64)] |= 1 << (code % 64);
    }
}
