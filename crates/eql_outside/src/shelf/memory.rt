//! The shelf over files in memory, with a disk in memory. It can be told which of its calls fail, and which calls of
//! its sources and its disk.
ghost use Rattle.std.specs.Prelude.{◌≡◌, ◌≤◌, Some, true, false, is_none, IfOk};
ghost use Rattle.eql_outside.specs.Plans.{fresh_plan};

use crate::disk::Disk;
use crate::disk::memory::MemDisk;
use crate::faults::{Lent, NameFaults};
use crate::holding::HeldCounts;
use crate::plan::PlannedFaults;
use crate::refused::{DiskHeld, DiskRefused, OutRefused};
use crate::shelf::Shelf;
use crate::shelf::find::find_named;
use crate::source::Source;
use crate::source::memory::MemSource;
use eql_values::Memory;
use std::alloc::Global;

/// A file in memory.
#[derive(Drop)]
pub struct MemFile {
    /// Its name.
    pub name: String,
    /// Its bytes.
    pub bytes: Vec<u8>,
    /// The greatest number of bytes that one take gives, at least 1.
    pub piece: usize,
    /// The numbers, from 1, of the takes that fail.
    pub fails: Vec<u64>,
    ghost some_piece: { 1 ≤ piece },
}

/// A shelf over files in memory, with one disk. Its sources are over copies, and it hands out a copy of the disk.
pub struct MemShelf {
    files: Vec<MemFile>,
    planned: PlannedFaults,
    names: NameFaults,
    absent: u64,
    lent: u64,
    disk: MemDisk,
    out: bool,
    disk_faults: u64,
    held: Option<DiskHeld>,
    held_counts: HeldCounts,
}

// A drop of its own: where a shelf is dropped there is one call, and not one for each part.
impl Drop for MemShelf {
    fn drop(self) {
        let MemShelf {
            files: _,
            planned: _,
            names: _,
            absent: _,
            lent: _,
            disk: _,
            out: _,
            disk_faults: _,
            held: _,
            held_counts: _,
        } = self;
    }
}

impl MemShelf {
    ghost use Rattle.std.specs.Prelude.{ℕ, List};
    ghost use Rattle.eql_outside.specs.Keeping.{KeepsSources};
    ghost use Rattle.eql_outside.specs.Memory.{contents, planned_fails};

    /// A shelf of these files and this disk, with the numbers, from 1, of its calls of `source` and `disk` that fail.
    /// Of two files with one name the first is found.
    pub fn new(
        _alloc: Global,
        files: Vec<MemFile>,
        disk: MemDisk,
        fails: Vec<u64>,
    ) -> Result<MemShelf, Memory>
        ensures files { IfOk result
            (λ s. ⟦<MemShelf as Shelf>⟧.files s ≡ Some (contents files.items)) }
        ensures faults { IfOk result (λ s. ⟦<MemShelf as Shelf>⟧.fault_count s ≡ 0) }
        ensures names { IfOk result
            (λ s. (name : List ℕ) → ⟦<MemShelf as Shelf>⟧.faults_of s name ≡ 0) }
        ensures absent { IfOk result (λ s. ⟦<MemShelf as Shelf>⟧.absent_count s ≡ 0) }
        ensures lent { IfOk result (λ s. ⟦<MemShelf as Shelf>⟧.lent_count s ≡ Some 0) }
        ensures plan { IfOk result
            (λ s. ⟦<MemShelf as Shelf>⟧.fault_plan s ≡ Some (fresh_plan fails.items)) }
        ensures plans { IfOk result
            (λ s. ⟦<MemShelf as Shelf>⟧.source_plans s ≡ Some (planned_fails files.items)) }
        ensures disk { IfOk result (λ s. ⟦<MemShelf as Shelf>⟧.disk_history s
            ≡ ⟦<MemDisk as Disk>⟧.history disk) }
        ensures disk_plan { IfOk result (λ s. ⟦<MemShelf as Shelf>⟧.disk_plan s
            ≡ ⟦<MemDisk as Disk>⟧.fault_plan disk) }
        ensures disk_faults { IfOk result (λ s. ⟦<MemShelf as Shelf>⟧.disk_fault_count s ≡ 0) }
        ensures is_in { IfOk result (λ s. ⟦<MemShelf as Shelf>⟧.is_out s ≡ false) }
        ensures held { IfOk result
            (λ s. (why : DiskHeld) → ⟦<MemShelf as Shelf>⟧.held_count s why ≡ 0) }
        ensures free { IfOk result (λ s. ⟦<MemShelf as Shelf>⟧.is_free s ≡ true) }
    {
        Ok(MemShelf {
            files,
            planned: PlannedFaults::new(fails),
            names: NameFaults::End,
            absent: 0,
            lent: 0,
            disk,
            out: false,
            disk_faults: 0,
            held: None,
            held_counts: HeldCounts::none(),
        })
    }

    /// The same shelf, of which the disk is held for this reason from now on.
    pub fn holding(self, why: DiskHeld) -> MemShelf
        ensures held { ⟦<MemShelf as Shelf>⟧.is_free result ≡ false }
        ensures files_kept { KeepsSources ⟦<MemShelf as Shelf>⟧.files
            ⟦<MemShelf as Shelf>⟧.source_plans ⟦<MemShelf as Shelf>⟧.fault_count
            ⟦<MemShelf as Shelf>⟧.absent_count ⟦<MemShelf as Shelf>⟧.faults_of
            ⟦<MemShelf as Shelf>⟧.lent_count self result }
        ensures plan_kept { ⟦<MemShelf as Shelf>⟧.fault_plan result
            ≡ ⟦<MemShelf as Shelf>⟧.fault_plan self }
        ensures disk_kept { (⟦<MemShelf as Shelf>⟧.disk_history result
            ≡ ⟦<MemShelf as Shelf>⟧.disk_history self)
            × (⟦<MemShelf as Shelf>⟧.disk_plan result ≡ ⟦<MemShelf as Shelf>⟧.disk_plan self)
            × (⟦<MemShelf as Shelf>⟧.disk_fault_count result
            ≡ ⟦<MemShelf as Shelf>⟧.disk_fault_count self)
            × (⟦<MemShelf as Shelf>⟧.is_out result ≡ ⟦<MemShelf as Shelf>⟧.is_out self) }
        ensures counts_kept { (any : DiskHeld) → ⟦<MemShelf as Shelf>⟧.held_count result any
            ≡ ⟦<MemShelf as Shelf>⟧.held_count self any }
    {
        let mut shelf = self;
        shelf.held = Some(why);
        shelf
    }

    /// The disk, as it was last given back, or as the shelf was made with it.
    pub fn into_disk(self) -> MemDisk
        requires { ⟦<MemShelf as Shelf>⟧.is_out self ≡ false }
        ensures history { ⟦<MemDisk as Disk>⟧.history result
            ≡ ⟦<MemShelf as Shelf>⟧.disk_history self }
        ensures plan { ⟦<MemDisk as Disk>⟧.fault_plan result
            ≡ ⟦<MemShelf as Shelf>⟧.disk_plan self }
    {
        let MemShelf {
            files: _,
            planned: _,
            names: _,
            absent: _,
            lent: _,
            disk,
            out: _,
            disk_faults: _,
            held: _,
            held_counts: _,
        } = self;
        disk
    }
}

impl Shelf for MemShelf {
    type Src = MemSource;

    type Dsk = MemDisk;

    ghost use Rattle.eql_outside.specs.Faults.{faults_in};
    ghost use Rattle.eql_outside.specs.Holding.{held_in};
    ghost use Rattle.eql_outside.specs.MemDisks.{history_of};
    ghost use Rattle.eql_outside.specs.Memory.{contents, planned_fails};
    ghost use Rattle.eql_outside.specs.Planned.{plan_of};

    ghost files = { λ s. Some (contents s.files.items) };

    ghost fault_count = { λ s. s.planned.faults };

    ghost faults_of = { λ s. faults_in s.names };

    ghost absent_count = { λ s. s.absent };

    ghost lent_count = { λ s. Some s.lent };

    ghost fault_plan = { λ s. Some (plan_of s.planned) };

    ghost source_plans = { λ s. Some (planned_fails s.files.items) };

    ghost disk_history = { λ s. Some (history_of s.disk) };

    ghost is_out = { λ s. s.out };

    ghost disk_fault_count = { λ s. s.disk_faults };

    ghost disk_plan = { λ s. Some (plan_of s.disk.planned) };

    ghost held_count = { λ s. held_in s.held_counts };

    ghost is_free = { λ s. is_none s.held };

    fn source(&mut self, alloc: Global, name: &String) -> Result<Option<MemSource>, OutRefused> {
        let fails = self.planned.next();
        let lent = Lent::new(alloc, name)?;
        if fails {
            self.planned.add_fault();
            self.names.add(lent);
            return Err(OutRefused::Failed);
        }
        match find_named(&self.files, name) {
            Some(file) => {
                // A count that can't rise is want of memory: no more sources than its numbers fit there.
                if self.lent == u64::MAX {
                    return Err(OutRefused::Memory);
                }
                let source = MemSource::lend(alloc, file, lent)?;
                self.lent += 1;
                Ok(Some(source))
            }
            None => {
                self.absent = self.absent.saturating_add(1);
                Ok(None)
            }
        }
    }

    fn give_source(&mut self, src: MemSource) {
        self.lent = self.lent.saturating_sub(1);
        if src.faults() > 0 {
            self.planned.add_fault();
            if let Some(lent) = src.into_lent() {
                self.names.add(lent);
            }
        }
    }

    fn disk(&mut self, alloc: Global, _name: &String) -> Result<MemDisk, DiskRefused> {
        if self.planned.next() {
            self.disk_faults = self.disk_faults.saturating_add(1);
            return Err(DiskRefused::Failed);
        }
        if let Some(why) = self.held {
            self.held_counts.add(why);
            return Err(DiskRefused::Held(why));
        }
        let disk = self.disk.copy(alloc)?;
        self.out = true;
        Ok(disk)
    }

    fn give_disk(&mut self, disk: MemDisk) {
        if disk.faults() > 0 {
            self.disk_faults = self.disk_faults.saturating_add(1);
        }
        self.disk = disk;
        self.out = false;
    }

    fn faults(&self) -> u64 {
        self.planned.faults()
    }

    fn disk_faults(&self) -> u64 {
        self.disk_faults
    }
}
