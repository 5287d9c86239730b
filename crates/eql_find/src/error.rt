//! Why a run stops before its end.
ghost use Rattle.std.specs.Prelude.{◌≡◌};
ghost use Rattle.eql_find.specs.Errors.{run_status_of};

use eql_cut::Differs;
use eql_inputs::InputError;
use eql_lane::ShardLimit;
use eql_outside::{DiskHeld, OutRefused};

/// Why the cut that the disk holds is refused. Shards count from 0.
#[derive(Drop)]
pub enum CutStop {
    /// Another program wrote an area.
    Foreign {
        /// The area, 0 or 1.
        area: u32,
    },
    /// The area that counts is damaged.
    Damaged {
        /// The area, 0 or 1.
        area: u32,
        /// The place in its text, in bytes.
        at: u64,
    },
    /// The cut is of another run.
    Differs(Differs),
    /// The cut doesn't fit the run.
    Unfit,
    /// A shard ends before the offset of the cut.
    Short {
        /// The shard.
        shard: u32,
        /// The offset, in bytes.
        offset: u64,
        /// How many bytes the shard has.
        had: u64,
    },
    /// The bytes of a shard before the offset of the cut aren't those that were read.
    OtherBytes {
        /// The shard.
        shard: u32,
    },
    /// A line that the cut names isn't among the whole lines of its shard before the offset of the cut.
    NoLine {
        /// The shard.
        shard: u32,
        /// The least such line, from 1.
        line: u32,
    },
    /// The cut says that a shard was read to its end, and the shard has a further byte.
    Grown {
        /// The shard.
        shard: u32,
    },
}

/// Why a run stops before its end.
#[derive(Drop)]
pub enum FindError<'a> {
    /// The files are refused, one of them failed, or memory ran out.
    Files(InputError<'a>),
    /// The cut that the disk of the checkpoint holds is refused.
    Cut(CutStop),
    /// The disk of the checkpoint is held: another run has it, or a file of it serves for something else.
    Held(DiskHeld),
    /// The disk of the checkpoint failed.
    Disk,
    /// The output failed.
    Write,
    /// A shard reached a limit.
    Limit(ShardLimit),
    /// The generations of the disk came to their end.
    Generation,
    /// The report isn't written whole: the error output failed, or memory ran out.
    Report(OutRefused),
}

impl<'a> FindError<'a> {
    /// The status of a run that stops so: that of its files, 7 for a disk that is held and for a cut that is refused,
    /// 6 for a fault of the disk, 5 for a write fault, 9 for a limit, and 8 for want of memory.
    pub fn status(&self) -> u8
        ensures { result ≡ run_status_of self.now }
    {
        match self {
            FindError::Files(error) => error.status(),
            FindError::Cut(_) | FindError::Held(_) => 7,
            FindError::Disk => 6,
            FindError::Write | FindError::Report(OutRefused::Failed) => 5,
            FindError::Limit(_) | FindError::Generation => 9,
            FindError::Report(OutRefused::Memory) => 8,
        }
    }
}
