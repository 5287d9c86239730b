//! Why a run stops before its end.
ghost use Rattle.std.specs.Prelude.{◌≡◌};
ghost use Rattle.eql_conductor.specs.Going.{stop_by};

use crate::bench::NotPlayed;
use eql_lane::ShardLimit;

/// Why a run stops before its end. Shards count from 0.
#[derive(Clone, Copy, PartialEq, Eq)]
pub enum Stop {
    /// The source of a shard failed.
    Read {
        /// The shard.
        shard: u32,
    },
    /// The sink failed.
    Write,
    /// The disk failed.
    Disk,
    /// Memory ran out.
    Memory,
    /// A shard reached a limit.
    Limit(ShardLimit),
    /// The generations of the disk came to their end.
    Generation,
    /// A lock had so many turns that it takes no more.
    Worn,
}

/// An operation that wasn't played stops the run.
pub(crate) fn unplayed(by: NotPlayed) -> Stop
    ensures { result ≡ stop_by by }
{
    match by {
        NotPlayed::Worn { word: _ } => Stop::Worn,
        NotPlayed::Memory => Stop::Memory,
    }
}
