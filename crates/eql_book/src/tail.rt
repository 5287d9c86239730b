//! A `tail` pipe: it keeps the last matches, as many as its count, until the end.
ghost use Rattle.std.specs.Prelude.{◌≡◌, ◌<◌, ◌≤◌, ◌++◌, ◌∷◌, ◌⊎◌, [], IfOk, OnOk, OnErr, length};
ghost use Rattle.circular_buffer.specs.Buffer.{keep_last};

use circular_buffer::HeapCircularBuffer;
use eql_values::{Numbered, Numbereds};
use std::alloc::{AllocError, Global};

/// How many matches a tail first takes the room for.
const FIRST_ROOM: usize = 16;

/// A tail, with the last matches that came to it.
#[derive(Drop)]
pub(crate) struct Tail {
    /// How many it keeps.
    pub(crate) count: u32,
    /// Those that it keeps, with room for no more than its count.
    pub(crate) kept: HeapCircularBuffer<Numbered>,
    ghost room: { kept.capacity ≤ count },
    ghost within: { length kept.items ≤ count },
}

impl Tail {
    /// A tail that keeps these matches.
    pub(crate) fn new(alloc: Global, count: u32, kept: Numbereds) -> Result<Tail, AllocError>
        requires { length kept ≤ count }
        ensures count { IfOk result (λ tail. tail.count ≡ count) }
        ensures kept { IfOk result (λ tail. tail.kept.items ≡ kept) }
    {
        let kept = filled(alloc, kept.into_items())?;
        Ok(Tail { count, kept })
    }

    /// Takes the room for one more match, where there may be more.
    fn make_room(&mut self) -> Result<(), AllocError>
        ensures count { self.new.count ≡ self.old.count }
        ensures kept { self.new.kept.items ≡ self.old.kept.items }
        ensures room { OnOk result ((length self.new.kept.items < self.new.kept.capacity)
            ⊎ (self.new.kept.capacity ≡ self.new.count)) }
    {
        let capacity = self.kept.capacity();
        if self.kept.len() < capacity {
            return Ok(());
        }
        let larger = (capacity * 2).max(FIRST_ROOM).min(self.count as usize);
        self.kept.resize(larger)
    }

    /// Keeps a match, and lets the first one go where there are more than the count. After want of
    /// memory it keeps what it kept.
    pub(crate) fn keep(&mut self, found: Numbered) -> Result<(), AllocError>
        ensures count { self.new.count ≡ self.old.count }
        ensures kept { OnOk result (self.new.kept.items
            ≡ keep_last self.old.count (self.old.kept.items ++ found ∷ [])) }
        ensures same { OnErr result (self.new.kept.items ≡ self.old.kept.items) }
    {
        self.make_room()?;
        self.kept.push_back(found);
        Ok(())
    }

    /// A copy of the matches that are kept.
    pub(crate) fn copied(&self, alloc: Global) -> Result<Numbereds, AllocError>
        ensures { IfOk result (λ list. list ≡ self.now.kept.items) }
    {
        let mut list = Vec::new(alloc);
        for found in &self.kept {
            list.push(found.clone()?)?;
        }
        Ok(Numbereds::of(list))
    }
}

/// A buffer that is full of these matches.
fn filled(alloc: Global, items: Vec<Numbered>) -> Result<HeapCircularBuffer<Numbered>, AllocError>
    ensures items { IfOk result (λ kept. kept.items ≡ items.items) }
    ensures room { IfOk result (λ kept. kept.capacity ≡ length items.items) }
{
    let mut kept = HeapCircularBuffer::with_capacity(alloc, items.len())?;
    for found in items {
        kept.push_back(found);
    }
    Ok(kept)
}
