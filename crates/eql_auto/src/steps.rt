//! A count of probes of slots. It takes no bytes and no time.
ghost use Rattle.std.specs.Prelude.{◌≡◌, ◌+◌, ◌<◌};

use crate::count::Count;
use std::marker::Model;
use std::sync::ledger::{Ledger, Share};

/// How many probes of slots were taken. Contracts see it as a number; it takes no bytes, and only a probe raises it.
///
/// A count is made from a share of the ledger. So who is given one can make no second one: it has no share to make it from.
#[derive(Drop)]
pub struct Steps<L: Ledger> {
    share: Share<L>,
    count: Count,
}

impl<L: Ledger> Model for Steps<L> {
    ghost use Rattle.std.specs.Prelude.{ℕ, ◌<◌};

    ghost Value = { ℕ };

    ghost view = { λ s. s.count.number };

    ghost invariant = { λ s. 0 < s.share.parts };
}

impl<L: Ledger> Steps<L> {
    /// A count at 0, made from a share of the ledger.
    pub fn of(share: Share<L>) -> Steps<L>
        requires { 0 < share.parts }
        ensures { result ≡ 0 }
    {
        Steps {
            share,
            count: Count::new(),
        }
    }

    /// Counts one probe.
    pub(crate) fn tick(&mut self)
        ensures { self.new ≡ self.old + 1 }
    {
        self.count.raise();
    }
}
