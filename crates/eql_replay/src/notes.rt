//! The notes of a bench, which take no bytes.
ghost use Rattle.std.specs.Prelude.{◌≡◌, [], ◌∷◌, ◌++◌};

use crate::noted::Noted;
use std::marker::Model;
use std::mem::replace;
use std::snapshot::Snapshot;

/// Notes from the first to the last. A snapshot has no bytes, so all but the last note are there for clauses alone.
#[derive(Drop)]
pub(crate) enum Trail {
    /// Nothing was noted.
    Start,
    /// There is a last note.
    After {
        /// Those before it.
        before: Snapshot<Trail>,
        /// The last.
        note: Noted,
    },
}

/// What was played, in order. It has no bytes: contracts see it as the list of the notes, and nothing is kept of it at run
/// time.
#[derive(Drop)]
pub(crate) struct Notes {
    trail: Snapshot<Trail>,
}

impl Model for Notes {
    ghost use Rattle.std.specs.Prelude.{List};
    ghost use Rattle.eql_replay.specs.declared.noted.Noted.{Noted};
    ghost use Rattle.eql_replay.specs.Trails.{notes_of};

    ghost Value = { List Noted };

    ghost view = { λ n. notes_of n.trail.value };
}

impl Notes {
    /// No notes.
    pub(crate) fn new() -> Notes
        ensures { result ≡ [] }
    {
        Notes {
            trail: Snapshot::of(&Trail::Start),
        }
    }

    /// Adds a note at the end. It takes no memory.
    pub(crate) fn push(&mut self, note: Noted)
        ensures { self.new ≡ self.old ++ note ∷ [] }
    {
        let before = replace(&mut self.trail, Snapshot::of(&Trail::Start));
        self.trail = Snapshot::of(&Trail::After { before, note });
    }
}
