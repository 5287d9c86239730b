//! What a disk is: two areas of bytes that outlive a crash.
ghost use Rattle.std.specs.Prelude.{◌≡◌, ◌≢◌, ◌≤◌, ◌↔◌, ℕ, List, Option, Some, None, Err, IfOk, OnOk, OnErr, IfSome, length, take, drop};
ghost use Rattle.eql_outside.specs.Outside.{Rose};
ghost use Rattle.eql_outside.specs.Areas.{Write, Store, Moment, store};
ghost use Rattle.eql_outside.specs.Moments.{History, DiskTells, Wrote, RefusesWrite, Syncs, RefusesSync};
ghost use Rattle.eql_outside.specs.Plans.{FaultPlan, plan_after_call, FailsNext};

use crate::refused::OutRefused;
use std::alloc::Global;

pub(crate) mod file;
pub(crate) mod memory;
pub(crate) mod store;

/// One of the two areas of a disk.
#[derive(Clone, Copy, Debug, PartialEq, Eq)]
pub enum Area {
    /// The first area.
    A,
    /// The second area.
    B,
}

/// Two areas of bytes that outlive a crash.
pub trait Disk {
    /// The disk now and at each moment before, where it tells. A write and a sync are a moment each, and a read is
    /// none.
    ghost history: { Self → Option History };

    /// How many calls failed.
    ghost fault_count: { Self → ℕ };

    /// Which calls fail, where the disk tells.
    ghost fault_plan: { Self → Option FaultPlan } = { λ _. None };

    /// The first `len` of the bytes that stand in an area from `at` on, or all of them where they are fewer.
    fn read(&mut self, alloc: Global, area: Area, at: u64, len: u64) -> Result<Vec<u8>, OutRefused>
        ensures bytes { IfOk result (λ bytes. IfSome (history self.old)
            (λ h. bytes.items ≡ take len (drop at (store area h.now).seen))) }
        ensures few { IfOk result (λ bytes. length bytes.items ≤ len) }
        ensures kept { history self.new ≡ history self.old }

        // The count rises where the call fails, and nowhere else.
        ensures cause { result ≡ Err OutRefused.Failed
            → Rose (fault_count self.old) (fault_count self.new) }
        ensures steady { result ≢ Err OutRefused.Failed
            → fault_count self.new ≡ fault_count self.old }
        ensures counts { fault_count self.old ≤ fault_count self.new }

        // A disk with a plan fails where that says so, and nowhere else.
        ensures planned { IfSome (fault_plan self.old)
            (λ plan. (result ≡ Err OutRefused.Failed) ↔ FailsNext plan) }
        ensures numbered { IfSome (fault_plan self.old)
            (λ plan. fault_plan self.new ≡ Some (plan_after_call plan)) };

    /// Writes bytes over what stands in an area from `at` on, and past its end. After a refusal nothing was written,
    /// or reads give what a crash could have left of the write.
    fn write(&mut self, alloc: Global, area: Area, at: u64, bytes: &[u8]) -> Result<(), OutRefused>
        requires { IfSome (history self.old) (λ h. at ≤ length (store area h.now).seen) }
        ensures ok { OnOk result (DiskTells (Wrote area (record { at = at; bytes = bytes.now }))
            (history self.old) (history self.new)) }
        ensures refused { OnErr result
            (DiskTells (RefusesWrite area (record { at = at; bytes = bytes.now }))
            (history self.old) (history self.new)) }

        // As of a read.
        ensures cause { result ≡ Err OutRefused.Failed
            → Rose (fault_count self.old) (fault_count self.new) }
        ensures steady { result ≢ Err OutRefused.Failed
            → fault_count self.new ≡ fault_count self.old }
        ensures counts { fault_count self.old ≤ fault_count self.new }
        ensures planned { IfSome (fault_plan self.old)
            (λ plan. (result ≡ Err OutRefused.Failed) ↔ FailsNext plan) }
        ensures numbered { IfSome (fault_plan self.old)
            (λ plan. fault_plan self.new ≡ Some (plan_after_call plan)) };

    /// Keeps what was written to an area: after `Ok` a crash leaves of it what reads give. After a refusal nothing
    /// changed, or reads give something else that a crash could have left.
    fn sync(&mut self, alloc: Global, area: Area) -> Result<(), OutRefused>
        ensures ok { OnOk result (DiskTells (Syncs area) (history self.old) (history self.new)) }
        ensures refused { OnErr result
            (DiskTells (RefusesSync area) (history self.old) (history self.new)) }

        // As of a read.
        ensures cause { result ≡ Err OutRefused.Failed
            → Rose (fault_count self.old) (fault_count self.new) }
        ensures steady { result ≢ Err OutRefused.Failed
            → fault_count self.new ≡ fault_count self.old }
        ensures counts { fault_count self.old ≤ fault_count self.new }
        ensures planned { IfSome (fault_plan self.old)
            (λ plan. (result ≡ Err OutRefused.Failed) ↔ FailsNext plan) }
        ensures numbered { IfSome (fault_plan self.old)
            (λ plan. fault_plan self.new ≡ Some (plan_after_call plan)) };

    /// How many calls failed. The number stands still at the greatest of its type.
    fn faults(&self) -> u64
        ensures { result ≡ fault_count self.now };
}
