//! Why a call on the areas is refused.
use eql_outside::OutRefused;
use eql_values::Memory;
use std::alloc::AllocError;
use thiserror::Error;

/// Why the areas can't be read or written.
#[derive(Clone, Copy, Debug, PartialEq, Eq, Error)]
pub enum CkRefused {
    /// A call on the disk failed, and the disk's count of faults rose.
    #[error("the checkpoint disk failed")]
    DiskFault,
    /// The area that counts holds no cut.
    #[error("checkpoint area {area} is damaged at byte {at} of its text")]
    Damaged {
        /// The area, 0 or 1.
        area: u32,
        /// The number of bytes of the text before what couldn't be read. It is 0 where the generation or the length
        /// of the text is at fault.
        at: u64,
    },
    /// Another program wrote an area: it isn't empty, and its first byte is neither 0 nor 1.
    #[error("checkpoint area {area} is another program's")]
    Foreign {
        /// The area, 0 or 1.
        area: u32,
    },
    /// The last generation is the greatest that is given, 2^63.
    #[error("no greater generation is given")]
    Generation,
    /// Memory ran out.
    #[error("memory ran out")]
    Memory,
}

impl From<OutRefused> for CkRefused {
    ghost use Rattle.std.specs.Prelude.{◌≡◌};
    ghost use Rattle.eql_ckdisk.specs.Refusing.{refusing};

    ghost from_gives = { λ e r. r ≡ refusing e };

    fn from(refused: OutRefused) -> CkRefused {
        match refused {
            OutRefused::Failed => CkRefused::DiskFault,
            OutRefused::Memory => CkRefused::Memory,
        }
    }
}

impl From<AllocError> for CkRefused {
    ghost use Rattle.std.specs.Prelude.{◌≡◌};
    ghost use Rattle.eql_ckdisk.specs.declared.refused.CkRefused.{CkRefused as Refused};

    ghost from_gives = { λ _ r. r ≡ Refused.Memory };

    fn from(_error: AllocError) -> CkRefused {
        CkRefused::Memory
    }
}

impl From<Memory> for CkRefused {
    ghost use Rattle.std.specs.Prelude.{◌≡◌};
    ghost use Rattle.eql_ckdisk.specs.declared.refused.CkRefused.{CkRefused as Refused};

    ghost from_gives = { λ _ r. r ≡ Refused.Memory };

    fn from(_memory: Memory) -> CkRefused {
        CkRefused::Memory
    }
}
