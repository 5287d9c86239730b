//! What a source is: where bytes come from, in order and once.
ghost use Rattle.std.specs.Prelude.{◌≡◌, ◌≤◌, ◌<◌, ◌↔◌, ℕ, List, [], Option, Some, None, Ok, IfOk, IfSome, IsOk, IsErr, length};
ghost use Rattle.eql_outside.specs.Outside.{Rose};
ghost use Rattle.eql_outside.specs.Sources.{Takes};
ghost use Rattle.eql_outside.specs.Plans.{FaultPlan, plan_after_call, FailsNext};
ghost use Rattle.eql_outside.specs.declared.supply.Supply.{Supply as Expected};

use crate::refused::Failed;
use crate::supply::Supply;
use std::fs::File;
use std::io::Read;

pub(crate) mod file;
pub(crate) mod memory;

/// Where bytes come from, in order and once.
pub trait Source {
    /// The bytes that are left, where the source tells.
    ghost left: { Self → Option (List ℕ) };

    /// How many takes failed.
    ghost fault_count: { Self → ℕ };

    /// The name under which a shelf lent the source, where one did.
    ghost lent_as: { Self → Option (List ℕ) };

    /// Which takes fail, where the source tells.
    ghost fault_plan: { Self → Option FaultPlan } = { λ _. None };

    /// What may be expected of its takes.
    ghost supply_of: { Self → Expected } = { λ _. Expected.Untold };

    /// Takes the next bytes, puts them at the front of the buffer, and returns how many they are. None for a
    /// buffer that isn't empty is exactly the end. A failed call takes nothing. Behind the bytes that were put
    /// there, and after a failure, what stands in the buffer is open.
    fn take(&mut self, into: &mut [u8]) -> Result<usize, Failed>
        ensures within { IfOk result (λ n. n ≤ length into.old) }
        ensures taken { IfOk result (λ n. IfSome (left self.old)
            (λ bytes. Takes bytes n into.new (left self.new))) }
        ensures end { result ≡ Ok 0 → 0 < length into.old
            → IfSome (left self.old) (λ bytes. bytes ≡ []) }
        ensures kept { IsErr result → left self.new ≡ left self.old }

        // A source that doesn't tell goes on so, its name stays, and so does what may be expected.
        ensures silent { left self.old ≡ None → left self.new ≡ None }
        ensures named { lent_as self.new ≡ lent_as self.old }
        ensures supplied { supply_of self.new ≡ supply_of self.old }

        // The count rises where the call fails, and nowhere else.
        ensures cause { IsErr result → Rose (fault_count self.old) (fault_count self.new) }
        ensures steady { IsOk result → fault_count self.new ≡ fault_count self.old }
        ensures counts { fault_count self.old ≤ fault_count self.new }

        // A source with a plan fails where that says so, and nowhere else.
        ensures planned { IfSome (fault_plan self.old) (λ plan. IsErr result ↔ FailsNext plan) }
        ensures numbered { IfSome (fault_plan self.old)
            (λ plan. fault_plan self.new ≡ Some (plan_after_call plan)) };

    /// How many takes failed. The number stands still at the greatest of its type.
    fn faults(&self) -> u64
        ensures { result ≡ fault_count self.now };

    /// What may be expected of the next takes.
    fn supply(&self) -> Supply
        ensures { result ≡ supply_of self.now };
}

/// A reader of a type whose values all tell the bytes that they have left, or of which none does.
pub trait ReadsAlike: Read {
    ghost alike: { (reader other : Self)
        → Self.Read.remaining reader ≡ None → Self.Read.remaining other ≡ None };
}

impl ReadsAlike for File {
    ghost use Rattle.std.specs.Prelude.{refl};

    ghost alike = { λ reader other silent. refl };
}
