//! With what a bench of locks begins.

use std::marker::Brand;

/// With what a bench of locks begins, for contracts alone. It has no bytes. A call that passes `Brand` picks it.
pub trait LockOpening<S, L> {
    ghost use Rattle.std.specs.Prelude.{ℕ, List, Option};
    ghost use Rattle.eql_hub.specs.Hands.{HandView, HubView};

    /// Which locks the hub has.
    ghost hub: { HubView };

    /// What the hand knows as the bench takes it.
    ghost hand: { HandView S L };

    /// The text of each lane as the hub was made of it, where one is named.
    ghost text: { ℕ → Option (List ℕ) };
}

impl<S, L> LockOpening<S, L> for Brand {
    ghost use Rattle.std.specs.Prelude.{[], None};

    ghost hub = { record { lanes = []; parts = []; alone = [] } };

    ghost hand = { record {
      lanes = record { locks = []; views = [] };
      parts = record { locks = []; views = [] };
    } };

    ghost text = { λ s. None };
}
