//! Why a search stopped or its lanes aren't made, as a error of the run.
ghost use Rattle.std.specs.Prelude.{◌≡◌, ◌<◌, length};
ghost use Rattle.eql_find.specs.Stops.{IsErrorAt, IsErrorOf, MayStop};

use crate::error::{CutStop, FindError};
use eql_conductor::Stop;
use eql_inputs::InputError;
use eql_lane::LaneRefused;
use eql_shards::NotMade;
use eql_words::Names;

/// The error of a run over these shards whose search stopped so.
pub(crate) fn error_of<'a>(stop: Stop, shards: &'a Names) -> FindError<'a>
    requires { MayStop (length shards.now) stop }
    ensures { IsErrorOf shards.now stop result }
{
    match stop {
        Stop::Read { shard } => FindError::Files(InputError::Read(&shards.items()[shard as usize])),
        Stop::Write => FindError::Write,
        Stop::Disk => FindError::Disk,
        Stop::Memory => FindError::Files(InputError::Memory),
        Stop::Limit(limit) => FindError::Limit(limit),
        Stop::Generation => FindError::Generation,
        Stop::Worn => unreachable!(),
    }
}

/// The error of a run over these shards whose lanes aren't made.
pub(crate) fn error_at<'a>(stop: NotMade, shards: &'a Names) -> FindError<'a>
    requires { stop.why ≡ LaneRefused.Failed → stop.shard < length shards.now }
    ensures { IsErrorAt shards.now stop.shard stop.why result }
{
    let shard = stop.shard;
    match stop.why {
        LaneRefused::Short { offset, had } => FindError::Cut(CutStop::Short { shard, offset, had }),
        LaneRefused::Differs => FindError::Cut(CutStop::OtherBytes { shard }),
        LaneRefused::NoLine { line } => FindError::Cut(CutStop::NoLine { shard, line }),
        LaneRefused::Grown => FindError::Cut(CutStop::Grown { shard }),
        LaneRefused::Failed => FindError::Files(InputError::Read(&shards.items()[shard as usize])),
        LaneRefused::Memory => FindError::Files(InputError::Memory),
    }
}
