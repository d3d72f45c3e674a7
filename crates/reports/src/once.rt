//! What is told once.
ghost use Rattle.std.specs.Prelude.{◌≡◌};
ghost use Rattle.reports.specs.Once.{is_told, once, once_told};

/// Something that is told when it is first so, and never again.
#[derive(Clone, Copy)]
pub struct Once {
    was_told: bool,
}

impl Once {
    /// Before the first look. What was so then is never told.
    pub fn new(was_so: bool) -> Once
        ensures { result ≡ once was_so }
    {
        Once { was_told: was_so }
    }

    /// Whether it is told at this look, where it is so or is not.
    pub fn tell(&mut self, is_so: bool) -> bool
        ensures told { result ≡ is_told self.old is_so }
        ensures next { self.new ≡ once_told self.old is_so }
    {
        let is_told = is_so && !self.was_told;
        self.was_told = self.was_told || is_so;
        is_told
    }
}
