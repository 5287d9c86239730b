//! A `head` pipe: it lets the first matches through, as many as its count.
ghost use Rattle.std.specs.Prelude.{◌≡◌, ◌+◌, ◌≤◌, min, nat_lt};

/// A head, with the number of matches that it let through.
#[derive(Drop)]
pub(crate) struct Head {
    /// How many it lets through.
    pub(crate) count: u32,
    /// How many it let through so far.
    pub(crate) passed: u32,
    ghost within: { passed ≤ count },
}

impl Head {
    /// Counts one more match, and returns whether it is let through.
    pub(crate) fn lets_through(&mut self) -> bool
        ensures count { self.new.count ≡ self.old.count }
        ensures passed { self.new.passed ≡ min self.old.count (self.old.passed + 1) }
        ensures through { result ≡ nat_lt self.old.passed self.old.count }
    {
        if self.passed < self.count {
            self.passed += 1;
            return true;
        }
        false
    }
}
