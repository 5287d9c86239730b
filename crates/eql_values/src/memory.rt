//! Want of memory, the one refusal that every call that takes memory may give.
ghost use Rattle.std.specs.Prelude.{◌≡◌};

use std::alloc::{AllocError, AllocFailed};

/// Memory ran out.
#[derive(Clone, Copy, Debug, PartialEq, Eq)]
pub struct Memory;

impl From<AllocError> for Memory {
    ghost use Rattle.eql_values.specs.Wants.{memory};

    ghost from_gives = { λ _ r. r ≡ memory };

    fn from(_error: AllocError) -> Memory {
        Memory
    }
}

impl<T: Drop> From<AllocFailed<T>> for Memory {
    ghost use Rattle.eql_values.specs.Wants.{memory};

    ghost from_gives = { λ _ r. r ≡ memory };

    fn from(_error: AllocFailed<T>) -> Memory {
        Memory
    }
}
