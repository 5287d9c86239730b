//! The source over bytes in memory. It can be told which of its takes fail.
ghost use Rattle.std.specs.Prelude.{◌≡◌, ◌≤◌, Some, None, min, take, drop, vec_len, length, IfOk};
ghost use Rattle.eql_outside.specs.Plans.{fresh_plan};

use crate::faults::Lent;
use crate::plan::PlannedFaults;
use crate::refused::Failed;
use crate::shelf::memory::MemFile;
use crate::source::Source;
use crate::supply::Supply;
use eql_values::Memory;
use std::alloc::Global;

/// A source over bytes in memory.
pub struct MemSource {
    bytes: Vec<u8>,
    at: usize,
    piece: usize,
    planned: PlannedFaults,
    lent: Option<Lent>,
    ghost some_piece: { 1 ≤ piece },
    ghost within: { at ≤ vec_len bytes },
}

// A drop of its own: where a source is dropped there is one call, and not one for each part.
impl Drop for MemSource {
    fn drop(self) {
        let MemSource {
            bytes: _,
            at: _,
            piece: _,
            planned: _,
            lent: _,
        } = self;
    }
}

impl MemSource {
    ghost use Rattle.std.specs.Prelude.{string_bytes, option_map};
    ghost use Rattle.eql_outside.specs.Faults.{name_lent};
    ghost use Rattle.eql_outside.specs.Pieces.{piece_of};

    /// A source over the whole file, of which nothing is taken yet, and that no shelf lent.
    pub fn new(file: MemFile) -> MemSource
        ensures left { ⟦<MemSource as Source>⟧.left result ≡ Some file.bytes.items }
        ensures faults { ⟦<MemSource as Source>⟧.fault_count result ≡ 0 }
        ensures apart { ⟦<MemSource as Source>⟧.lent_as result ≡ None }
        ensures untold { ⟦<MemSource as Source>⟧.supply_of result ≡ Supply.Untold }
        ensures plan { ⟦<MemSource as Source>⟧.fault_plan result
            ≡ Some (fresh_plan file.fails.items) }
        ensures piece { piece_of result ≡ file.piece }
    {
        let MemFile {
            name: _,
            bytes,
            piece,
            fails,
        } = file;
        MemSource {
            bytes,
            at: 0,
            piece,
            planned: PlannedFaults::new(fails),
            lent: None,
        }
    }

    /// A source over a copy of the file, lent under its name.
    pub(crate) fn lend(alloc: Global, file: &MemFile, lent: Lent) -> Result<MemSource, Memory>
        ensures left { IfOk result
            (λ s. ⟦<MemSource as Source>⟧.left s ≡ Some file.now.bytes.items) }
        ensures faults { IfOk result (λ s. ⟦<MemSource as Source>⟧.fault_count s ≡ 0) }
        ensures named { IfOk result
            (λ s. ⟦<MemSource as Source>⟧.lent_as s ≡ Some (name_lent lent)) }
        ensures plan { IfOk result
            (λ s. ⟦<MemSource as Source>⟧.fault_plan s ≡ Some (fresh_plan file.now.fails.items)) }
        ensures piece { IfOk result (λ s. piece_of s ≡ file.now.piece) }
    {
        let bytes = Vec::from_slice(alloc, file.bytes.as_slice())?;
        let fails = Vec::from_slice(alloc, file.fails.as_slice())?;
        Ok(MemSource {
            bytes,
            at: 0,
            piece: file.piece,
            planned: PlannedFaults::new(fails),
            lent: Some(lent),
        })
    }

    /// What the source was lent as, for the shelf that takes it back.
    pub(crate) fn into_lent(self) -> Option<Lent>
        ensures { option_map name_lent result ≡ ⟦<MemSource as Source>⟧.lent_as self }
    {
        let MemSource {
            bytes: _,
            at: _,
            piece: _,
            planned: _,
            lent,
        } = self;
        lent
    }

    // The bytes that one take gives at most.
    fn next_piece(&self) -> &[u8]
        ensures { result.now ≡ take (piece_of self.now) (drop self.now.at self.now.bytes.items) }
    {
        let left = &self.bytes[self.at..];
        &left[..self.piece.min(left.len())]
    }
}

// Puts as many of the bytes at the front of a buffer as fit there, and returns how many they are.
fn put_front(into: &mut [u8], from: &[u8]) -> usize
    ensures count { result ≡ min (length into.old) (length from.now) }
    ensures bytes { take result into.new ≡ take result from.now }
{
    let n = into.len().min(from.len());
    into[..n].copy_from_slice(&from[..n]);
    n
}

impl Source for MemSource {
    ghost use Rattle.std.specs.Prelude.{option_map};
    ghost use Rattle.eql_outside.specs.Faults.{name_lent};
    ghost use Rattle.eql_outside.specs.Planned.{plan_of};

    ghost left = { λ s. Some (drop s.at s.bytes.items) };

    ghost fault_count = { λ s. s.planned.faults };

    ghost lent_as = { λ s. option_map name_lent s.lent };

    ghost fault_plan = { λ s. Some (plan_of s.planned) };

    fn take(&mut self, into: &mut [u8]) -> Result<usize, Failed> {
        self.planned.call()?;
        let n = put_front(into, self.next_piece());
        self.at += n;
        Ok(n)
    }

    fn faults(&self) -> u64 {
        self.planned.faults()
    }

    fn supply(&self) -> Supply {
        Supply::Untold
    }
}
