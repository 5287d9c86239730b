//! A number that contracts alone see.
ghost use Rattle.std.specs.Prelude.{◌≡◌, ◌+◌, ℕ};
ghost use Rattle.std.specs.Borrow.{ftrue};

use std::marker::{Model, PhantomData};

/// A number without a bound that only contracts see, as `number`. It takes no bytes, and its calls do nothing at run time.
#[derive(Drop)]
pub struct Count {
    marker: PhantomData<u8>,
    pub ghost number: { ℕ },
}

impl Model for Count {
    ghost also_owns = { λ _. ftrue };
}

// It owns nothing.
unsafe impl Send for Count {}

impl Count {
    /// The number 0.
    pub(crate) fn new() -> Count
        ensures { result.number ≡ 0 }
    {
        Count {
            marker: PhantomData,
        }
    }

    /// Raises the number by one.
    pub(crate) fn raise(&mut self)
        ensures { self.new.number ≡ self.old.number + 1 }
    {}
}
