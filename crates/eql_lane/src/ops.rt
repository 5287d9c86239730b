//! What is played on a lane, and what is returned.

use eql_values::{Items, LaneCut, Mark};

/// What a lane is asked to do.
#[derive(Clone, Copy)]
pub enum LaneOp {
    /// Reads at most this many lines, from 1 to 4,096.
    Feed {
        /// How many lines at most.
        max: u32,
    },
    /// Hands out the events below the mark and the lane's own low.
    Take {
        /// The mark.
        mark: Mark,
    },
    /// Tells the low.
    Look,
    /// Tells what a cut keeps of the lane.
    Snap,
}

/// A limit that a shard, counted from 0, reached.
#[derive(Clone, Copy, PartialEq, Eq)]
pub enum ShardLimit {
    /// It has more than 4,294,967,294 lines, with those that were counted before it went on from a cut.
    Lines {
        /// The shard.
        shard: u32,
    },
    /// It has 1,099,511,627,776 bytes or more.
    Bytes {
        /// The shard.
        shard: u32,
    },
}

/// What a lane returns.
#[derive(Drop)]
pub enum LaneReply {
    /// So many lines were read.
    Fed {
        /// Their number.
        lines: u32,
    },
    /// So many events wait below the low, at least 65,536. Nothing was read.
    Held {
        /// Their number.
        ready: u32,
    },
    /// The source has ended, and all of it was read before.
    Closed,
    /// The source failed, after so many lines.
    Failed {
        /// Their number.
        lines: u32,
    },
    /// The shard reached a limit.
    Limit(ShardLimit),
    /// The events that were handed out.
    Taken(Items),
    /// The low.
    Low(Mark),
    /// What a cut keeps of the lane.
    Cut(LaneCut),
    /// Memory ran out, after so many lines.
    Memory {
        /// Their number.
        lines: u32,
    },
}
