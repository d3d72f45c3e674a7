//! A count that takes no bytes.
ghost use Rattle.std.specs.Prelude.{◌≡◌, ◌+◌, ℕ};
ghost use Rattle.std.specs.Borrow.{ftrue};

use std::marker::{Model, PhantomData};

/// How often something was done, which contracts see and the program does not: it has no bytes, so
/// it has no greatest value.
#[derive(Drop)]
pub struct Count {
    marker: PhantomData<u8>,
    pub ghost count: { ℕ },
}

impl Model for Count {
    ghost also_owns = { λ _. ftrue };
}

impl Count {
    pub fn new() -> Count
        ensures { result.count ≡ 0 }
    {
        Count {
            marker: PhantomData,
        }
    }

    /// One more.
    pub fn tick(&mut self)
        ensures { self.new.count ≡ self.old.count + 1 }
    {}
}
