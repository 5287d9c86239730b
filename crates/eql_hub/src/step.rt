//! What a step of a hand returns.
ghost use Rattle.std.specs.Prelude.{◌≡◌};
ghost use Rattle.eql_hub.specs.Sweeps.{tried_lane, tried_part};

use eql_lane::{LaneOp, LaneReply, ShardLimit};
use eql_parts::{PartOp, PartReply};
use eql_turn_lock::{NotNow, Tried};

/// Why a hand can't go on.
#[derive(Clone, Copy)]
pub enum HandFault {
    /// The source of a lane failed.
    Read {
        /// The lane's place, from 0, which is its shard in a search.
        shard: u32,
    },
    /// Memory ran out.
    Memory,
    /// A shard reached a limit.
    Limit(ShardLimit),
    /// A lock has had so many turns that it takes no more.
    Worn,
}

/// What one step did.
#[derive(Clone, Copy)]
pub enum Did {
    /// It fed a lane.
    Fed {
        /// The lane, from 0.
        lane: u32,
    },
    /// It had a part play events.
    Turned {
        /// The part, from 0.
        part: u32,
    },
    /// Nothing was to be done.
    Nothing,
    /// It met a fault.
    Fault(HandFault),
}

/// What a look at a lane ends the step with. Nothing was to be done where it is `None`.
pub(crate) fn after_feed(lane: u32, tried: Tried<LaneReply, LaneOp>) -> Option<Did>
    ensures { result ≡ tried_lane lane tried }
{
    match tried {
        Tried::Idle { op: _ } => None,
        Tried::Played(reply) => match reply {
            LaneReply::Fed { lines: _ } => Some(Did::Fed { lane }),
            LaneReply::Failed { lines: _ } => Some(Did::Fault(HandFault::Read { shard: lane })),
            LaneReply::Limit(of) => Some(Did::Fault(HandFault::Limit(of))),
            LaneReply::Memory { lines: _ } => Some(Did::Fault(HandFault::Memory)),
            _ => None,
        },
        Tried::Refused(NotNow::Busy { word: _, op: _ }) => None,
        Tried::Refused(NotNow::Worn { word: _, op: _ }) => Some(Did::Fault(HandFault::Worn)),
    }
}

/// What a look at a part ends the step with.
pub(crate) fn after_turn(part: u32, tried: Tried<PartReply, PartOp>) -> Option<Did>
    ensures { result ≡ tried_part part tried }
{
    match tried {
        Tried::Idle { op: _ } => None,
        Tried::Played(reply) => match reply {
            PartReply::Turned { items: _ } => Some(Did::Turned { part }),
            PartReply::Memory { back: _, items: _ } => Some(Did::Fault(HandFault::Memory)),
            _ => None,
        },
        Tried::Refused(NotNow::Busy { word: _, op: _ }) => None,
        Tried::Refused(NotNow::Worn { word: _, op: _ }) => Some(Did::Fault(HandFault::Worn)),
    }
}
