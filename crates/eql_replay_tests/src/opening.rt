//! Lanes as a run may begin with them: over texts in memory, afresh or with what a cut keeps.
ghost use Rattle.std.specs.Prelude.{◌≡◌, ◌≤◌, All, IfOk, IfSome};
ghost use Rattle.eql_lane.specs.Slacks.{greatest_slack_ms, nanos_of};
ghost use Rattle.eql_lane.specs.Starts.{MayBegin, MayStart};
ghost use Rattle.eql_replay_tests.specs.Opens.{BeginAll, BeginsWith, IsFreshAt, StandsAt, StartsAs};

use eql_lane::{Lane, LaneStart};
use eql_outside::{MemFile, MemSource};
use eql_stages::{Plan, PlanReader};
use eql_values::LaneCuts;
use std::alloc::Global;
use std::test::Fail;

/// A lane in memory.
pub(crate) type MemLane = Lane<MemSource, PlanReader>;

/// How many bytes a take of a source gives at most.
const PIECE: usize = 100;

/// A source over a text.
fn source_over(alloc: Global, text: &[u8]) -> Result<MemSource, Fail> {
    Ok(MemSource::new(MemFile {
        name: String::new(alloc),
        bytes: Vec::from_slice(alloc, text)?,
        piece: PIECE,
        fails: Vec::new(alloc),
    }))
}

/// A lane over a text.
fn lane_over(
    alloc: Global,
    plan: &Plan,
    text: &[u8],
    shard: u32,
    slack: Option<u64>,
    start: LaneStart,
) -> Result<MemLane, Fail>
    requires slack { IfSome slack (λ ms. ms ≤ greatest_slack_ms) }
    requires start { MayStart start }
    ensures { IfOk result (BeginsWith (nanos_of slack) (StartsAs start) shard) }
{
    let source = source_over(alloc, text)?;
    let reader = PlanReader::new(alloc, plan)?;
    match Lane::make(alloc, source, reader, shard, slack, start) {
        Ok(lane) => Ok(lane),
        Err(_) => Err(Fail::new("a lane isn't made")),
    }
}

/// A lane over each text, of which nothing was read.
pub(crate) fn fresh_lanes(
    alloc: Global,
    plan: &Plan,
    texts: &Vec<Vec<u8>>,
    slack: Option<u64>,
) -> Result<Vec<MemLane>, Fail>
    requires slack { IfSome slack (λ ms. ms ≤ greatest_slack_ms) }
    ensures { IfOk result (λ lanes. BeginAll (nanos_of slack) IsFreshAt lanes.items) }
{
    let mut lanes = Vec::new(alloc);
    for text in texts {
        let shard = u32::try_from(lanes.len())?;
        let lane = lane_over(alloc, plan, text, shard, slack, LaneStart::Fresh)?;
        lanes.push(lane)?;
    }
    Ok(lanes)
}

/// A lane over each text, with what a cut keeps of it.
pub(crate) fn lanes_from(
    alloc: Global,
    plan: &Plan,
    texts: &Vec<Vec<u8>>,
    slack: u64,
    cuts: &LaneCuts,
) -> Result<Vec<MemLane>, Fail>
    requires slack { slack ≤ greatest_slack_ms }
    requires begin { All MayBegin cuts.now }
    ensures { IfOk result (λ lanes.
        BeginAll (nanos_of (Some slack)) (StandsAt cuts.now) lanes.items) }
{
    let mut lanes = Vec::new(alloc);
    for cut in cuts.items() {
        let text = texts.get(lanes.len()).ok_or("a text")?;
        let shard = u32::try_from(lanes.len())?;
        let start = LaneStart::From(cut.clone()?);
        let lane = lane_over(alloc, plan, text, shard, Some(slack), start)?;
        lanes.push(lane)?;
    }
    Ok(lanes)
}
