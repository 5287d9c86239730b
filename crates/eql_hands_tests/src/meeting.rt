//! Two sources of which each waits for the other one to be asked, so that one thread alone can't get on.
use eql_outside::{Failed, MemSource, Source, Supply};
use std::alloc::Global;
use std::sync::Arc;
use std::sync::atomic::{AtomicBool, Ordering};
use std::thread::yield_now;

/// How often a source looks for the other one before it gives up.
const LOOKS: u32 = 100_000_000;

/// After so many looks other threads are let run.
const ROUND: u32 = 1024;

/// A flag that threads share.
pub(crate) type Flag = Arc<AtomicBool, Global>;

/// Whether a flag was raised before the looks ran out.
fn sees(flag: &Flag) -> bool {
    for look in 0..LOOKS {
        if flag.load(Ordering::SeqCst) {
            return true;
        }
        if look % ROUND == 0 {
            yield_now();
        }
    }
    false
}

/// A source that raises a flag at each take, and at the first one looks for the flag of another source.
#[derive(Drop)]
pub(crate) struct MeetingSource {
    pub(crate) source: MemSource,
    /// It was asked before.
    pub(crate) asked: bool,
    pub(crate) mine: Flag,
    pub(crate) other: Flag,
    /// Raised where the other source wasn't asked in time.
    pub(crate) missed: Flag,
}

impl MeetingSource {
    // Raises the flag, and looks for the other one where this is the first take.
    fn meet(&self) {
        self.mine.store(true, Ordering::SeqCst);
        if !self.asked && !sees(&self.other) {
            self.missed.store(true, Ordering::SeqCst);
        }
    }
}

impl Source for MeetingSource {
    ghost left = { λ s. ⟦<MemSource as Source>⟧.left s.source };

    ghost fault_count = { λ s. ⟦<MemSource as Source>⟧.fault_count s.source };

    ghost lent_as = { λ s. ⟦<MemSource as Source>⟧.lent_as s.source };

    ghost fault_plan = { λ s. ⟦<MemSource as Source>⟧.fault_plan s.source };

    ghost supply_of = { λ s. ⟦<MemSource as Source>⟧.supply_of s.source };

    fn take(&mut self, into: &mut [u8]) -> Result<usize, Failed> {
        self.meet();
        self.asked = true;
        self.source.take(into)
    }

    fn faults(&self) -> u64 {
        self.source.faults()
    }

    fn supply(&self) -> Supply {
        self.source.supply()
    }
}
