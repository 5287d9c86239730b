//! The counts of a book with its pipes: how many matches were found, and what became of them.
ghost use Rattle.std.specs.Prelude.{◌≡◌, ◌≤◌, ◌∷◌, [], IfOk};
ghost use Rattle.std.specs.Prelude.{option_to_list};

use crate::gate::{Gate, admit, states_of};
use eql_values::{BookCut, Match, Numbered, PipeStates};
use std::alloc::{AllocError, Global};

/// The counts and the pipes.
#[derive(Drop)]
pub(crate) struct Ledger {
    /// How many matches were found.
    pub(crate) found: u64,
    /// How many of them all pipes let through before the end.
    pub(crate) listed: u64,
    /// The pipes, from left to right.
    pub(crate) gates: Vec<Gate>,
    ghost listed_to: { listed ≤ found },
}

impl Ledger {
    ghost use Rattle.eql_book.specs.Books.{FitsPipes, kept_after, let_out};
    ghost use Rattle.eql_book.specs.Gates.{pipes_of};
    ghost use Rattle.eql_book.specs.Ledgers.{kept_of};

    /// Numbers a match and gives it to the pipes. Returns it where all let it through. A match
    /// beyond the greatest number of 64 bits is left out.
    pub(crate) fn count(&mut self, found: Match) -> Result<Option<Numbered>, AllocError>
        ensures pipes { pipes_of self.new.gates.items ≡ pipes_of self.old.gates.items }
        ensures kept { IfOk result (λ _. kept_of self.new
            ≡ kept_after (pipes_of self.old.gates.items) (kept_of self.old) (found ∷ [])) }
        ensures out { IfOk result (λ out. option_to_list out
            ≡ let_out (pipes_of self.old.gates.items) (kept_of self.old) (found ∷ [])) }
    {
        if self.found == u64::MAX {
            return Ok(None);
        }
        let number = self.found + 1;
        let out = admit(&mut self.gates, Numbered { number, found })?;
        self.found = number;
        if out.is_some() {
            self.listed += 1;
        }
        Ok(out)
    }

    /// What a cut keeps of the output.
    pub(crate) fn cut(&self, alloc: Global) -> Result<BookCut, AllocError>
        ensures kept { IfOk result (λ cut. cut ≡ kept_of self.now) }
        ensures fits { IfOk result (λ cut. FitsPipes (pipes_of self.now.gates.items) cut) }
    {
        let states = states_of(alloc, &self.gates)?;
        Ok(BookCut {
            found: self.found,
            listed: self.listed,
            pipes: PipeStates::of(states),
        })
    }
}
