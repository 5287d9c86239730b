//! Why no event comes of an object.
use eql_values::{Memory, Reason};
use std::alloc::{AllocError, AllocFailed};

/// Why no event comes of an object.
#[derive(Clone, Copy, Drop)]
pub(crate) enum Refused {
    /// It is rejected for this reason.
    Bad(Reason),
    /// Memory ran out.
    Memory,
}

impl From<Reason> for Refused {
    ghost use Rattle.std.specs.Prelude.{◌≡◌};
    ghost use Rattle.eql_lines.specs.declared.refused.Refused.TheVariants.{Bad as bad};

    ghost from_gives = { λ r e. e ≡ bad r };

    fn from(reason: Reason) -> Refused {
        Refused::Bad(reason)
    }
}

impl From<Memory> for Refused {
    ghost use Rattle.std.specs.Prelude.{◌≡◌};
    ghost use Rattle.eql_lines.specs.declared.refused.Refused.TheVariants.{Memory as memory};

    ghost from_gives = { λ _ e. e ≡ memory };

    fn from(_memory: Memory) -> Refused {
        Refused::Memory
    }
}

impl From<AllocError> for Refused {
    ghost use Rattle.std.specs.Prelude.{◌≡◌};
    ghost use Rattle.eql_lines.specs.declared.refused.Refused.TheVariants.{Memory as memory};

    ghost from_gives = { λ _ e. e ≡ memory };

    fn from(_error: AllocError) -> Refused {
        Refused::Memory
    }
}

impl<T: Drop> From<AllocFailed<T>> for Refused {
    ghost use Rattle.std.specs.Prelude.{◌≡◌};
    ghost use Rattle.eql_lines.specs.declared.refused.Refused.TheVariants.{Memory as memory};

    ghost from_gives = { λ _ e. e ≡ memory };

    fn from(_error: AllocFailed<T>) -> Refused {
        Refused::Memory
    }
}
