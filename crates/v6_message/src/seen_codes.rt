//! Which of the codes that may appear once at most a reader has met.
ghost use Rattle.std.specs.Prelude.{◌≡◌, ◌||◌, ◌==◌, false};
ghost use Rattle.v6_message.specs.Lists.{first_code, second_code};
ghost use Rattle.v6_message.specs.Reading.{is_again};

use crate::scan::Sender;

#[derive(Drop)]
pub(crate) struct SeenCodes {
    sender: Sender,
    first: bool,
    second: bool,
}

impl SeenCodes {
    pub(crate) fn new(sender: Sender) -> SeenCodes
        ensures sender { result.sender ≡ sender }
        ensures first { result.first ≡ false }
        ensures second { result.second ≡ false }
    {
        SeenCodes {
            sender,
            first: false,
            second: false,
        }
    }

    /// Whether the code may appear once at most, and has appeared.
    pub(crate) fn has(&self, code: u16) -> bool
        ensures { result ≡ is_again self.now.sender self.now.first self.now.second code }
    {
        (self.first && code == self.sender.first_code())
            || (self.second && code == self.sender.second_code())
    }

    pub(crate) fn add(&mut self, code: u16)
        ensures sender { self.new.sender ≡ self.old.sender }
        ensures first { self.new.first ≡ (self.old.first || code == first_code self.old.sender) }
        ensures second { self.new.second ≡ (self.old.second || code == second_code self.old.sender) }
    {
        self.first = self.first || code == self.sender.first_code();
        self.second = self.second || code == self.sender.second_code();
    }
}
