//! Why a call to the outside is refused.
use crate::disk::Area;
use eql_values::Memory;
use std::alloc::AllocError;
use thiserror::Error;

/// The call failed, and its object's count of faults rose.
#[derive(Clone, Copy, Debug, PartialEq, Eq, Error)]
#[error("reading failed")]
pub struct Failed;

/// Why a sink or a shelf refused.
#[derive(Clone, Copy, Debug, PartialEq, Eq, Error)]
pub enum OutRefused {
    /// The call failed, and its object's count of faults rose.
    #[error("reading or writing failed")]
    Failed,
    /// Memory ran out.
    #[error("memory ran out")]
    Memory,
}

/// Why a disk is held, so that it isn't handed out.
#[derive(Clone, Copy, Debug, PartialEq, Eq)]
pub enum DiskHeld {
    /// Another run has it.
    Busy,
    /// The file of this area is one that the shelf has lent, or, of the second area, that of the first.
    Shared(Area),
}

/// Why a shelf doesn't hand out its disk.
#[derive(Clone, Copy, Debug, PartialEq, Eq, Error)]
pub enum DiskRefused {
    /// It is held.
    #[error("the disk is held")]
    Held(DiskHeld),
    /// The call failed, and the count of the disk's faults rose.
    #[error("opening the disk failed")]
    Failed,
    /// Memory ran out.
    #[error("memory ran out")]
    Memory,
}

impl From<Failed> for OutRefused {
    ghost use Rattle.std.specs.Prelude.{◌≡◌};
    ghost use Rattle.eql_outside.specs.declared.refused.OutRefused.{OutRefused as Refused};

    ghost from_gives = { λ _ r. r ≡ Refused.Failed };

    fn from(_failed: Failed) -> OutRefused {
        OutRefused::Failed
    }
}

impl From<Memory> for OutRefused {
    ghost use Rattle.std.specs.Prelude.{◌≡◌};
    ghost use Rattle.eql_outside.specs.declared.refused.OutRefused.{OutRefused as Refused};

    ghost from_gives = { λ _ r. r ≡ Refused.Memory };

    fn from(_memory: Memory) -> OutRefused {
        OutRefused::Memory
    }
}

impl From<AllocError> for OutRefused {
    ghost use Rattle.std.specs.Prelude.{◌≡◌};
    ghost use Rattle.eql_outside.specs.declared.refused.OutRefused.{OutRefused as Refused};

    ghost from_gives = { λ _ r. r ≡ Refused.Memory };

    fn from(_error: AllocError) -> OutRefused {
        OutRefused::Memory
    }
}

impl From<Failed> for DiskRefused {
    ghost use Rattle.std.specs.Prelude.{◌≡◌};
    ghost use Rattle.eql_outside.specs.declared.refused.DiskRefused.{DiskRefused as Refused};

    ghost from_gives = { λ _ r. r ≡ Refused.Failed };

    fn from(_failed: Failed) -> DiskRefused {
        DiskRefused::Failed
    }
}

impl From<Memory> for DiskRefused {
    ghost use Rattle.std.specs.Prelude.{◌≡◌};
    ghost use Rattle.eql_outside.specs.declared.refused.DiskRefused.{DiskRefused as Refused};

    ghost from_gives = { λ _ r. r ≡ Refused.Memory };

    fn from(_memory: Memory) -> DiskRefused {
        DiskRefused::Memory
    }
}

impl From<AllocError> for DiskRefused {
    ghost use Rattle.std.specs.Prelude.{◌≡◌};
    ghost use Rattle.eql_outside.specs.declared.refused.DiskRefused.{DiskRefused as Refused};

    ghost from_gives = { λ _ r. r ≡ Refused.Memory };

    fn from(_error: AllocError) -> DiskRefused {
        DiskRefused::Memory
    }
}
