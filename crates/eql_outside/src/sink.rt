//! What a sink is: where bytes go, in order.
ghost use Rattle.std.specs.Prelude.{◌≡◌, ◌≢◌, ◌≤◌, ◌↔◌, ℕ, List, Option, Some, None, Err, OnOk, OnErr, IfSome};
ghost use Rattle.eql_outside.specs.Outside.{Rose};
ghost use Rattle.eql_outside.specs.Written.{WroteAll, WroteFront};
ghost use Rattle.eql_outside.specs.Plans.{FaultPlan, plan_after_call, FailsNext};

use crate::refused::OutRefused;
use std::alloc::Global;
use std::io::{self, Stderr, Write};

pub(crate) mod memory;
pub(crate) mod stdout;
pub(crate) mod stream;

/// Where bytes go, in order.
pub trait Sink {
    /// The bytes that were written, where the sink tells.
    ghost written: { Self → Option (List ℕ) };

    /// The bytes that stay behind the sink whatever happens to the machine, where the sink tells.
    ghost kept: { Self → Option (List ℕ) } = { λ _. None };

    /// How many calls of `write` and `keep` failed.
    ghost fault_count: { Self → ℕ };

    /// Which calls of `write` and `keep` fail, numbered together, where the sink tells.
    ghost fault_plan: { Self → Option FaultPlan } = { λ _. None };

    /// Appends all of the bytes, or a prefix of them where it is refused.
    fn write(&mut self, alloc: Global, bytes: &[u8]) -> Result<(), OutRefused>
        ensures ok { OnOk result (WroteAll bytes.now (written self.old) (written self.new)) }
        ensures prefix { OnErr result
            (WroteFront bytes.now (written self.old) (written self.new)) }

        ensures keeps { kept self.new ≡ kept self.old }

        // A sink that doesn't tell goes on so.
        ensures silent { written self.old ≡ None → written self.new ≡ None }

        // The count rises where the call fails, and nowhere else.
        ensures cause { result ≡ Err OutRefused.Failed
            → Rose (fault_count self.old) (fault_count self.new) }
        ensures steady { result ≢ Err OutRefused.Failed
            → fault_count self.new ≡ fault_count self.old }
        ensures counts { fault_count self.old ≤ fault_count self.new }

        // A sink with a plan fails where that says so, and nowhere else.
        ensures planned { IfSome (fault_plan self.old)
            (λ plan. (result ≡ Err OutRefused.Failed) ↔ FailsNext plan) }
        ensures numbered { IfSome (fault_plan self.old)
            (λ plan. fault_plan self.new ≡ Some (plan_after_call plan)) };

    /// Has all that was written kept, so that not even a power cut takes it back. Over a regular file it waits for the
    /// device. Behind a pipe, a terminal or a socket it is the far side that keeps, and this does nothing.
    fn keep(&mut self, alloc: Global) -> Result<(), OutRefused>
        ensures same { written self.new ≡ written self.old }
        ensures ok { OnOk result (IfSome (kept self.old) (λ _. kept self.new ≡ written self.old)) }
        ensures refused { OnErr result (kept self.new ≡ kept self.old) }
        ensures silent { kept self.old ≡ None → kept self.new ≡ None }

        // As of a write.
        ensures cause { result ≡ Err OutRefused.Failed
            → Rose (fault_count self.old) (fault_count self.new) }
        ensures steady { result ≢ Err OutRefused.Failed
            → fault_count self.new ≡ fault_count self.old }
        ensures counts { fault_count self.old ≤ fault_count self.new }
        ensures planned { IfSome (fault_plan self.old)
            (λ plan. (result ≡ Err OutRefused.Failed) ↔ FailsNext plan) }
        ensures numbered { IfSome (fault_plan self.old)
            (λ plan. fault_plan self.new ≡ Some (plan_after_call plan)) };

    /// How many calls of `write` and `keep` failed. The number stands still at the greatest of its type.
    fn faults(&self) -> u64
        ensures { result ≡ fault_count self.now };
}

/// A writer of a type whose values all tell the bytes that they hold, or of which none does.
pub trait WritesAlike: Write {
    /// Has the device keep all that was written, where there is one that could lose it. There is none behind memory, and
    /// what goes to standard error isn't kept.
    fn keep_written(&self) -> io::Result<()> {
        Ok(())
    }

    ghost alike: { (writer other : Self)
        → Self.Write.contents writer ≡ None → Self.Write.contents other ≡ None };
}

impl WritesAlike for Stderr {
    ghost use Rattle.std.specs.Prelude.{refl};

    ghost alike = { λ writer other silent. refl };
}
