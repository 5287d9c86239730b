//! The disk in memory. It keeps each of its moments, so that it can tell them, and it can be told which of its calls
//! fail and from which on all do.
ghost use Rattle.std.specs.Prelude.{◌≡◌, Some, IfOk, OnOk, OnErr};
ghost use Rattle.eql_outside.specs.Areas.{IsImage, kept_areas, seen_areas, with_store};
ghost use Rattle.eql_outside.specs.Moments.{later};
ghost use Rattle.eql_outside.specs.Disks.{store_of, fresh};
ghost use Rattle.eql_outside.specs.Plans.{unstarted_until};

use crate::disk::store::{MemMoment, MemStore};
use crate::disk::{Area, Disk};
use crate::plan::PlannedFaults;
use crate::refused::OutRefused;
use eql_values::Memory;
use std::alloc::Global;

/// A disk in memory.
pub struct MemDisk {
    areas: MemMoment,
    past: Vec<MemMoment>,
    planned: PlannedFaults,
}

// A drop of its own: where a disk is dropped there is one call, and not one for each part.
impl Drop for MemDisk {
    fn drop(self) {
        let MemDisk {
            areas: _,
            past: _,
            planned: _,
        } = self;
    }
}

impl MemDisk {
    ghost use Rattle.eql_outside.specs.MemDisks.{now_of, history_of};

    /// A disk with these bytes in its areas, all of which are kept. The calls of these numbers, from 1, fail, and all
    /// calls from the number `stop` on.
    pub fn new(
        alloc: Global,
        a: Vec<u8>,
        b: Vec<u8>,
        fails: Vec<u64>,
        stop: Option<u64>,
    ) -> Result<MemDisk, Memory>
        ensures history { IfOk result
            (λ d. ⟦<MemDisk as Disk>⟧.history d ≡ Some (fresh a.items b.items)) }
        ensures faults { IfOk result (λ d. ⟦<MemDisk as Disk>⟧.fault_count d ≡ 0) }
        ensures plan { IfOk result
            (λ d. ⟦<MemDisk as Disk>⟧.fault_plan d ≡ Some (unstarted_until stop fails.items)) }
    {
        Ok(MemDisk {
            areas: MemMoment::settled(alloc, a, b)?,
            past: Vec::new(alloc),
            planned: PlannedFaults::until(fails, stop),
        })
    }

    /// A copy with the same moments and the same plan, and with no fault counted.
    pub(crate) fn copy(&self, alloc: Global) -> Result<MemDisk, Memory>
        ensures history { IfOk result (λ d. history_of d ≡ history_of self.now) }
        ensures faults { IfOk result (λ d. ⟦<MemDisk as Disk>⟧.fault_count d ≡ 0) }
        ensures plan { IfOk result (λ d. ⟦<MemDisk as Disk>⟧.fault_plan d
            ≡ ⟦<MemDisk as Disk>⟧.fault_plan self.now) }
    {
        Ok(MemDisk {
            areas: self.areas.copy(alloc)?,
            past: MemMoment::copy_all(alloc, &self.past)?,
            planned: self.planned.copy(alloc)?,
        })
    }

    // One moment more, with another content of an area.
    fn go_on(&mut self, alloc: Global, area: Area, next: MemStore) -> Result<(), Memory>
        ensures ok { OnOk result (history_of self.new
            ≡ later (with_store area (store_of next) (now_of self.old)) (history_of self.old)) }
        ensures err { OnErr result (history_of self.new ≡ history_of self.old) }
        ensures planned { self.new.planned ≡ self.old.planned }
    {
        let moment = self.areas.with(alloc, area, next)?;
        self.past.insert(0, self.areas.copy(alloc)?)?;
        self.areas = moment;
        Ok(())
    }

    /// The bytes of both areas as a crash could leave them now: for 0 what the last good sync of each kept, for 1 what
    /// reads give. Any other number, less 2, says digit by digit what is left of the writes since: first of the last
    /// write to area `A`, then of those before it, then of those to area `B`. Of a write of n bytes the first 0 to n
    /// bytes are there and no others (the digits 0 to n), or the first 1 to n - 1 are there and `a5` stands in place of
    /// the others (the digits n + 1 to 2 n - 1).
    pub fn crashed(&self, alloc: Global, choice: u64) -> Result<(Vec<u8>, Vec<u8>), Memory>
        ensures image { IfOk result
            (λ i. IsImage (now_of self.now) (record { a = i.0.items; b = i.1.items })) }
        ensures kept { IfOk result (λ i. choice ≡ 0
            → (record { a = i.0.items; b = i.1.items }) ≡ kept_areas (now_of self.now)) }
        ensures seen { IfOk result (λ i. choice ≡ 1
            → (record { a = i.0.items; b = i.1.items }) ≡ seen_areas (now_of self.now)) }
    {
        let (a, rest) = self.areas.store(Area::A).left(alloc, choice)?;
        let (b, _) = self.areas.store(Area::B).left(alloc, rest)?;
        Ok((a, b))
    }
}

impl Disk for MemDisk {
    ghost use Rattle.eql_outside.specs.MemDisks.{history_of};
    ghost use Rattle.eql_outside.specs.Planned.{plan_of};

    ghost history = { λ d. Some (history_of d) };

    ghost fault_count = { λ d. d.planned.faults };

    ghost fault_plan = { λ d. Some (plan_of d.planned) };

    fn read(
        &mut self,
        alloc: Global,
        area: Area,
        at: u64,
        len: u64,
    ) -> Result<Vec<u8>, OutRefused> {
        self.planned.call()?;
        let bytes = self.areas.store(area).seen();
        let from = (at as usize).min(bytes.len());
        let rest = &bytes[from..];
        let n = (len as usize).min(rest.len());
        Ok(Vec::from_slice(alloc, &rest[..n])?)
    }

    fn write(
        &mut self,
        alloc: Global,
        area: Area,
        at: u64,
        bytes: &[u8],
    ) -> Result<(), OutRefused> {
        self.planned.call()?;
        let next = self.areas.store(area).written(alloc, at, bytes)?;
        Ok(self.go_on(alloc, area, next)?)
    }

    fn sync(&mut self, alloc: Global, area: Area) -> Result<(), OutRefused> {
        self.planned.call()?;
        let next = self.areas.store(area).synced(alloc)?;
        Ok(self.go_on(alloc, area, next)?)
    }

    fn faults(&self) -> u64 {
        self.planned.faults()
    }
}
