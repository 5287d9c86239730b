//! What a shelf is: where files stand under their names.
ghost use Rattle.std.specs.Prelude.{◌≡◌, ◌≢◌, ◌<◌, ◌↔◌, ◌+◌, ◌-◌, ℕ, Bool, true, false, List, Option, Some, None, Ok, Err, IfOk, IfSome, IsErr, IsSomeAnd, MatchOption, string_bytes};
ghost use Rattle.eql_outside.specs.Outside.{file_named};
ghost use Rattle.eql_outside.specs.Keeping.{RisesWhere, RisesUnderWhere, KeepsDisk, KeepsSources};
ghost use Rattle.eql_outside.specs.Moments.{History};
ghost use Rattle.eql_outside.specs.Plans.{FaultPlan, fresh_plan, plan_after_call, FailsNext};
ghost use Rattle.eql_outside.specs.declared.refused.DiskHeld.{DiskHeld};

use crate::disk::Disk;
use crate::refused::{DiskHeld, DiskRefused, OutRefused};
use crate::source::Source;
use std::alloc::Global;

pub(crate) mod file;
pub(crate) mod find;
pub(crate) mod memory;

/// Where files stand under their names. It lends sources over them, and takes these back. It also has one disk, which
/// it hands out for every name.
pub trait Shelf {
    /// What it lends. Several threads may read one after another.
    type Src: Source + Send + Sync;

    type Dsk: Disk;

    /// The names and bytes of the files, where the shelf tells.
    ghost files: { Self → Option (List (List ℕ × List ℕ)) };

    /// How often `source` failed or a source came back that had failed.
    ghost fault_count: { Self → ℕ };

    /// How often `source` failed for a name, or a source came back that was lent under it and had failed.
    ghost faults_of: { Self → List ℕ → ℕ };

    /// How often a file wasn't there.
    ghost absent_count: { Self → ℕ };

    /// How many sources are lent and haven't come back, where the shelf tells.
    ghost lent_count: { Self → Option ℕ } = { λ _. None };

    /// The moments of the disk, as it was last given back, where the shelf tells.
    ghost disk_history: { Self → Option History };

    /// Whether the disk is handed out.
    ghost is_out: { Self → Bool };

    /// How often `disk` failed or a disk came back that had failed.
    ghost disk_fault_count: { Self → ℕ };

    /// How often the disk wasn't handed out for this reason.
    ghost held_count: { Self → DiskHeld → ℕ };

    /// Whether the shelf tells that its disk isn't held.
    ghost is_free: { Self → Bool } = { λ _. false };

    /// Which calls of the disk fail, as it was last given back, where the shelf tells.
    ghost disk_plan: { Self → Option FaultPlan } = { λ _. None };

    /// Which calls of `source` and `disk` fail, numbered together, where the shelf tells.
    ghost fault_plan: { Self → Option FaultPlan } = { λ _. None };

    /// The names of the files, each with the numbers of the takes that fail, where the shelf tells.
    ghost source_plans: { Self → Option (List (List ℕ × List ℕ)) } = { λ _. None };

    /// A source over the file of this name, from its first byte on. `None` comes exactly when no file has the
    /// name. The shelf keeps the file, so that its name may be asked for again.
    fn source(&mut self, alloc: Global, name: &String) -> Result<Option<Self::Src>, OutRefused>
        ensures found { IfOk result (λ o. IfSome (files self.old) (λ fs.
            MatchOption o (file_named (string_bytes name.now) fs ≡ None)
            (λ s. IsSomeAnd (file_named (string_bytes name.now) fs)
            (λ bytes. Self.Src.left s ≡ Some bytes)))) }
        ensures fresh { IfOk result (λ o. IfSome o (λ s. Self.Src.fault_count s ≡ 0)) }
        ensures named { IfOk result (λ o. IfSome o
            (λ s. Self.Src.lent_as s ≡ Some (string_bytes name.now))) }
        ensures kept { files self.new ≡ files self.old }
        ensures disk_kept { KeepsDisk disk_history is_out disk_fault_count disk_plan
            held_count is_free self.old self.new }

        // One more is lent where a source is handed out, and none elsewhere.
        ensures lends { IfSome (lent_count self.old) (λ n. IfOk result
            (λ o. MatchOption o (lent_count self.new ≡ Some n)
            (λ _. lent_count self.new ≡ Some (n + 1)))) }
        ensures lends_none { IsErr result → lent_count self.new ≡ lent_count self.old }

        // The count of faults rises where the call fails, that of absences where no file has the
        // name, and neither rises elsewhere. Of the counts by name that of this name alone rises.
        ensures faults { RisesWhere fault_count (result ≡ Err OutRefused.Failed)
            self.old self.new }
        ensures faults_named { RisesUnderWhere faults_of (Some (string_bytes name.now))
            (result ≡ Err OutRefused.Failed) self.old self.new }
        ensures absences { RisesWhere absent_count (result ≡ Ok None) self.old self.new }

        // A shelf with a plan fails where that says so, but for want of memory, and nowhere else,
        // and so do its sources.
        ensures planned { IfSome (fault_plan self.old) (λ plan.
            (result ≡ Err OutRefused.Failed → FailsNext plan) × (FailsNext plan → IsErr result)) }
        ensures numbered { IfSome (fault_plan self.old)
            (λ plan. fault_plan self.new ≡ Some (plan_after_call plan)) }
        ensures plans { IfOk result (λ o. IfSome (source_plans self.old) (λ ps. IfSome o
            (λ s. IsSomeAnd (file_named (string_bytes name.now) ps)
            (λ fails. Self.Src.fault_plan s ≡ Some (fresh_plan fails))))) }
        ensures plans_kept { source_plans self.new ≡ source_plans self.old };

    /// Takes a source back. Where the source failed, the count of faults rises, and that of the name under which it
    /// was lent. Otherwise all counts of faults stay. One source less is lent.
    fn give_source(&mut self, src: Self::Src)
        ensures kept { files self.new ≡ files self.old }
        ensures returned { IfSome (lent_count self.old)
            (λ n. lent_count self.new ≡ Some (n - 1)) }
        ensures disk_kept { KeepsDisk disk_history is_out disk_fault_count disk_plan
            held_count is_free self.old self.new }
        ensures faults { RisesWhere fault_count (0 < Self.Src.fault_count src) self.old self.new }
        ensures faults_named { RisesUnderWhere faults_of (Self.Src.lent_as src)
            (0 < Self.Src.fault_count src) self.old self.new }
        ensures absences { absent_count self.new ≡ absent_count self.old }
        ensures numbered { fault_plan self.new ≡ fault_plan self.old }
        ensures plans_kept { source_plans self.new ≡ source_plans self.old };

    /// The disk as it stands, with its moments and its plan, and with count 0. It is made with empty areas where there
    /// is none of the name. Where another run has it, or a file of it is one that the shelf has lent or is there for both
    /// areas, it isn't handed out, and isn't touched.
    fn disk(&mut self, alloc: Global, name: &String) -> Result<Self::Dsk, DiskRefused>
        ensures as_it_stands { IfOk result (λ d. (Self.Dsk.history d ≡ disk_history self.old)
            × (Self.Dsk.fault_plan d ≡ disk_plan self.old)) }
        ensures fresh { IfOk result (λ d. Self.Dsk.fault_count d ≡ 0) }
        ensures out { IfOk result (λ _. is_out self.new ≡ true) }
        ensures not_out { IsErr result → is_out self.new ≡ is_out self.old }
        ensures kept { (disk_history self.new ≡ disk_history self.old)
            × (disk_plan self.new ≡ disk_plan self.old) }
        ensures files_kept { KeepsSources files source_plans fault_count absent_count faults_of
            lent_count self.old self.new }

        // The count of the disk's faults rises where the call fails, and nowhere else.
        ensures faults { RisesWhere disk_fault_count (result ≡ Err DiskRefused.Failed)
            self.old self.new }

        // Of the counts of what holds it that of the reason told rises, and no other. A shelf that
        // tells that its disk isn't held never refuses so.
        ensures held { (why : DiskHeld) → RisesWhere (λ shelf. held_count shelf why)
            (result ≡ Err (DiskRefused.Held why)) self.old self.new }
        ensures free { is_free self.old ≡ true → (why : DiskHeld)
            → result ≢ Err (DiskRefused.Held why) }
        ensures free_kept { is_free self.new ≡ is_free self.old }

        // A shelf with a plan fails where that says so, and nowhere else.
        ensures planned { IfSome (fault_plan self.old)
            (λ plan. (result ≡ Err DiskRefused.Failed) ↔ FailsNext plan) }
        ensures numbered { IfSome (fault_plan self.old)
            (λ plan. fault_plan self.new ≡ Some (plan_after_call plan)) };

    /// Takes the disk back: the shelf's disk is then this one, with its moments and its plan. Where it failed, the
    /// count of the disk's faults rises, and otherwise it stays.
    fn give_disk(&mut self, disk: Self::Dsk)
        ensures taken { (disk_history self.new ≡ Self.Dsk.history disk)
            × (disk_plan self.new ≡ Self.Dsk.fault_plan disk) }
        ensures back { is_out self.new ≡ false }
        ensures files_kept { KeepsSources files source_plans fault_count absent_count faults_of
            lent_count self.old self.new }
        ensures faults { RisesWhere disk_fault_count (0 < Self.Dsk.fault_count disk)
            self.old self.new }
        ensures held_kept { ((why : DiskHeld) → held_count self.new why ≡ held_count self.old why)
            × (is_free self.new ≡ is_free self.old) }
        ensures numbered { fault_plan self.new ≡ fault_plan self.old };

    /// How often `source` failed or a source came back that had failed. The number stands still at the greatest
    /// of its type.
    fn faults(&self) -> u64
        ensures { result ≡ fault_count self.now };

    /// How often `disk` failed or a disk came back that had failed. The number stands still at the greatest of its
    /// type.
    fn disk_faults(&self) -> u64
        ensures { result ≡ disk_fault_count self.now };
}
