//! With what a bench begins.

use std::marker::Brand;

/// With what a bench begins, for contracts alone. It has no bytes. A call that passes `Brand` picks it.
pub trait Opening<S, L> {
    ghost use Rattle.std.specs.Prelude.{ℕ, List, Option};
    ghost use Rattle.eql_lane.specs.Views.{LaneView};
    ghost use Rattle.eql_replay.specs.declared.foreign.Foreign.{Foreign};

    /// The lanes.
    ghost lanes: { List (LaneView S L) };

    /// The text of each lane, where one is named. A lane doesn't tell it once bytes were taken.
    ghost text: { ℕ → Option (List ℕ) };

    /// What others play: a list before each call.
    ghost plays: { List (List Foreign) };
}

impl<S, L> Opening<S, L> for Brand {
    ghost use Rattle.std.specs.Prelude.{[], None};

    ghost lanes = { [] };

    ghost text = { λ s. None };

    ghost plays = { [] };
}
