//! What a run keeps of a shard and of its output: counts, pipes and their states.
ghost use Rattle.std.specs.Prelude.{◌≡◌};

use crate::found::Numbereds;
use crate::item::Items;
use eql_digest::Digest;
use std::alloc::AllocError;
use std::marker::Model;

/// Why a line is rejected. Of several reasons the first in this order is told, but for the last
/// three, which come with the field that is refused first.
#[derive(Clone, Copy, Debug, PartialEq, Eq)]
pub enum Reason {
    /// It has more than 1,048,576 bytes without its line feed.
    Long,
    /// It is no JSON text.
    NotJson,
    /// Its value isn't an object.
    NotObject,
    /// It has no timestamp.
    NoTime,
    /// Its timestamp can't be read.
    BadTime,
    /// A used field has a value of another kind.
    Kind,
    /// A used field has a number with a fraction.
    Fraction,
    /// A used field has a number beyond 64 signed bits.
    Range,
}

/// The first line of a shard that was rejected.
#[derive(Clone, Copy, Debug, PartialEq, Eq)]
pub struct FirstBad {
    /// The line, from 1.
    pub line: u32,
    /// Why.
    pub reason: Reason,
}

/// What became of the lines of a shard.
#[derive(Clone, Copy, Debug, PartialEq, Eq)]
pub struct Counts {
    /// All lines, blank ones too.
    pub lines: u32,
    /// Readable lines that weren't late.
    pub accepted: u32,
    /// Readable lines that were late.
    pub late: u32,
    /// Lines that were rejected.
    pub rejected: u32,
    /// The first line that was rejected.
    pub first: Option<FirstBad>,
}

/// What is kept of a shard between two rounds of a run.
#[derive(Drop)]
pub struct LaneCut {
    /// The bytes of the lines that were read, with their line ends.
    pub offset: u64,
    /// The digest of these bytes.
    pub digest: Digest,
    /// Whether the shard was read to its end.
    pub closed: bool,
    /// The greatest timestamp of a readable line, in nanoseconds since the epoch.
    pub best: Option<i128>,
    /// What became of the lines that were read.
    pub counts: Counts,
    /// The accepted events that weren't handed on.
    pub items: Items,
}

impl Clone for LaneCut {
    ghost is_clone = { λ old new. new ≡ old };

    fn clone(&self) -> Result<LaneCut, AllocError> {
        let items = self.items.clone()?;
        Ok(LaneCut {
            offset: self.offset,
            digest: self.digest,
            closed: self.closed,
            best: self.best,
            counts: self.counts,
            items,
        })
    }
}

/// What is kept of each shard.
#[derive(Drop)]
pub struct LaneCuts {
    items: Vec<LaneCut>,
}

impl Model for LaneCuts {
    ghost use Rattle.std.specs.Prelude.{List};
    ghost use Rattle.eql_values.specs.declared.cut.LaneCut.{LaneCut};

    ghost Value = { List LaneCut };

    ghost view = { λ l. l.items.items };
}

impl LaneCuts {
    /// The list of these shards.
    pub fn of(items: Vec<LaneCut>) -> LaneCuts
        ensures { result ≡ items.items }
    {
        LaneCuts { items }
    }

    /// The shards, lent.
    pub fn items(&self) -> &Vec<LaneCut>
        ensures { result.now.items ≡ self.now }
    {
        &self.items
    }

    /// The shards, taken out.
    pub fn into_items(self) -> Vec<LaneCut>
        ensures { result.items ≡ self }
    {
        self.items
    }
}

impl Clone for LaneCuts {
    ghost is_clone = { λ old new. new ≡ old };

    fn clone(&self) -> Result<LaneCuts, AllocError> {
        let items = self.items.clone()?;
        Ok(LaneCuts { items })
    }
}

/// A pipe at the end of a query.
#[derive(Clone, Copy, Debug, PartialEq, Eq)]
pub enum Pipe {
    /// Keeps the first matches, as many as the number.
    Head(u32),
    /// Keeps the last matches, as many as the number.
    Tail(u32),
}

/// The pipes of a query, from left to right.
#[derive(Drop)]
pub struct Pipes {
    items: Vec<Pipe>,
}

impl Model for Pipes {
    ghost use Rattle.std.specs.Prelude.{List};
    ghost use Rattle.eql_values.specs.declared.cut.Pipe.{Pipe};

    ghost Value = { List Pipe };

    ghost view = { λ l. l.items.items };
}

impl Pipes {
    /// The list of these pipes.
    pub fn of(items: Vec<Pipe>) -> Pipes
        ensures { result ≡ items.items }
    {
        Pipes { items }
    }

    /// The pipes, lent.
    pub fn items(&self) -> &Vec<Pipe>
        ensures { result.now.items ≡ self.now }
    {
        &self.items
    }

    /// The pipes, taken out.
    pub fn into_items(self) -> Vec<Pipe>
        ensures { result.items ≡ self }
    {
        self.items
    }
}

impl Clone for Pipes {
    ghost is_clone = { λ old new. new ≡ old };

    fn clone(&self) -> Result<Pipes, AllocError> {
        let items = self.items.clone()?;
        Ok(Pipes { items })
    }
}

/// What a pipe has seen of its input.
#[derive(Drop)]
pub enum PipeState {
    /// How many matches a head let through.
    Head {
        /// Their number.
        passed: u32,
    },
    /// The last matches that came to a tail.
    Tail {
        /// The matches.
        kept: Numbereds,
    },
}

impl Clone for PipeState {
    ghost is_clone = { λ old new. new ≡ old };

    fn clone(&self) -> Result<PipeState, AllocError> {
        match self {
            PipeState::Head { passed } => Ok(PipeState::Head { passed: *passed }),
            PipeState::Tail { kept } => {
                let kept = kept.clone()?;
                Ok(PipeState::Tail { kept })
            }
        }
    }
}

/// What each pipe has seen, from left to right.
#[derive(Drop)]
pub struct PipeStates {
    items: Vec<PipeState>,
}

impl Model for PipeStates {
    ghost use Rattle.std.specs.Prelude.{List};
    ghost use Rattle.eql_values.specs.declared.cut.PipeState.{PipeState};

    ghost Value = { List PipeState };

    ghost view = { λ l. l.items.items };
}

impl PipeStates {
    /// The list of these states.
    pub fn of(items: Vec<PipeState>) -> PipeStates
        ensures { result ≡ items.items }
    {
        PipeStates { items }
    }

    /// The states, lent.
    pub fn items(&self) -> &Vec<PipeState>
        ensures { result.now.items ≡ self.now }
    {
        &self.items
    }

    /// The states, taken out.
    pub fn into_items(self) -> Vec<PipeState>
        ensures { result.items ≡ self }
    {
        self.items
    }
}

impl Clone for PipeStates {
    ghost is_clone = { λ old new. new ≡ old };

    fn clone(&self) -> Result<PipeStates, AllocError> {
        let items = self.items.clone()?;
        Ok(PipeStates { items })
    }
}

/// What is kept of the output between two rounds of a run.
#[derive(Drop)]
pub struct BookCut {
    /// How many matches were found.
    pub found: u64,
    /// How many lines of the listing were written.
    pub listed: u64,
    /// What each pipe has seen.
    pub pipes: PipeStates,
}

impl Clone for BookCut {
    ghost is_clone = { λ old new. new ≡ old };

    fn clone(&self) -> Result<BookCut, AllocError> {
        let pipes = self.pipes.clone()?;
        Ok(BookCut {
            found: self.found,
            listed: self.listed,
            pipes,
        })
    }
}
