//! The sink that has the bytes in memory. It can be told which of its calls fail.
ghost use Rattle.std.specs.Prelude.{◌≡◌, ◌≤◌, Some, [], length, take};
ghost use Rattle.eql_outside.specs.Plans.{fresh_plan};

use crate::plan::PlannedFaults;
use crate::refused::OutRefused;
use crate::sink::Sink;
use std::alloc::Global;

/// A sink that has the bytes in memory.
#[derive(Drop)]
pub struct MemSink {
    bytes: Vec<u8>,
    kept: usize,
    planned: PlannedFaults,
    ghost written_first: { kept ≤ length bytes.items },
}

impl MemSink {
    /// An empty sink, with the numbers, from 1, of the calls of `write` and `keep` that fail.
    pub fn new(alloc: Global, fails: Vec<u64>) -> MemSink
        ensures written { ⟦<MemSink as Sink>⟧.written result ≡ Some [] }
        ensures kept { ⟦<MemSink as Sink>⟧.kept result ≡ Some [] }
        ensures faults { ⟦<MemSink as Sink>⟧.fault_count result ≡ 0 }
        ensures plan { ⟦<MemSink as Sink>⟧.fault_plan result ≡ Some (fresh_plan fails.items) }
    {
        MemSink {
            bytes: Vec::new(alloc),
            kept: 0,
            planned: PlannedFaults::new(fails),
        }
    }

    /// The bytes that were written.
    pub fn bytes(&self) -> &Vec<u8>
        ensures { ⟦<MemSink as Sink>⟧.written self.now ≡ Some result.now.items }
    {
        &self.bytes
    }

    /// Those of them that are kept.
    pub fn kept(&self) -> &[u8]
        ensures { ⟦<MemSink as Sink>⟧.kept self.now ≡ Some result.now }
    {
        &self.bytes[..self.kept]
    }
}

impl Sink for MemSink {
    ghost use Rattle.eql_outside.specs.Planned.{plan_of};

    ghost written = { λ s. Some s.bytes.items };

    ghost kept = { λ s. Some (take s.kept s.bytes.items) };

    ghost fault_count = { λ s. s.planned.faults };

    ghost fault_plan = { λ s. Some (plan_of s.planned) };

    fn write(&mut self, _alloc: Global, bytes: &[u8]) -> Result<(), OutRefused> {
        self.planned.call()?;
        match self.bytes.extend_from_slice(bytes) {
            Ok(()) => Ok(()),
            Err(error) => Err(OutRefused::from(error)),
        }
    }

    fn keep(&mut self, _alloc: Global) -> Result<(), OutRefused> {
        self.planned.call()?;
        self.kept = self.bytes.len();
        Ok(())
    }

    fn faults(&self) -> u64 {
        self.planned.faults()
    }
}
