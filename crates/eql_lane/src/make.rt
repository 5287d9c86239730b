//! How a lane begins, and why it isn't made.

use eql_values::{LaneCut, Lines};

/// How a lane begins.
#[derive(Drop)]
pub enum LaneStart {
    /// At the start of its shard, of which nothing was read.
    Fresh,
    /// With what a cut keeps of it. The bytes before its offset have its digest.
    From(LaneCut),
    /// With what a cut keeps of it that has no digest, which is set anew.
    Retrace(LaneCut),
    /// With what a cut keeps of it that has no digest and no places. They are set anew, and the
    /// places of the wanted lines are kept for [`places`](crate::Lane::places).
    Lift {
        /// What the cut keeps.
        cut: LaneCut,
        /// The wanted lines, from 1, ascending, among them those of the cut's events.
        wanted: Lines,
    },
}

/// Why a lane isn't made.
#[derive(Clone, Copy, PartialEq, Eq)]
pub enum LaneRefused {
    /// The source ended before the offset of the cut.
    Short {
        /// The offset, in bytes.
        offset: u64,
        /// How many bytes the source had.
        had: u64,
    },
    /// The bytes before the offset of the cut have another digest than the cut says.
    Differs,
    /// A wanted line isn't among the whole lines before the offset of the cut.
    NoLine {
        /// The least such line.
        line: u32,
    },
    /// The cut says that the shard was closed, and the source has a further byte.
    Grown,
    /// The source failed.
    Failed,
    /// Memory ran out.
    Memory,
}
