//! With what a run over a hub begins.

use std::marker::Brand;

/// With what a run over a hub begins, for contracts alone. It has no bytes. A call that passes `Brand` picks it.
pub trait HubOpening<S, L> {
    ghost use Rattle.std.specs.Prelude.{ℕ, List, Option};

    /// The text of each lane, where one is named. A lane doesn't tell it once bytes were taken.
    ghost text: { ℕ → Option (List ℕ) };
}

impl<S, L> HubOpening<S, L> for Brand {
    ghost use Rattle.std.specs.Prelude.{None};

    ghost text = { λ s. None };
}
