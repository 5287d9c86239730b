//! Lanes of which nothing was read, and parts on which nothing is pending.
ghost use Rattle.std.specs.Prelude.{◌≡◌, ◌≤◌, IfOk, None, length};
ghost use Rattle.eql_stages.specs.Planned.{line_of, planned_query};
ghost use Rattle.eql_hands_tests.specs.Fresh.{IsFreshLane};

use eql_auto::Steps;
use eql_hub::TurnedPart;
use eql_lane::{Lane, LaneStart};
use eql_outside::{MemFile, MemSource, Source};
use eql_parts::Part;
use eql_stages::{Plan, PlanReader};
use eql_values::{Holders, LineReader, Mark, Memory};
use std::alloc::Global;
use std::sync::ledger::{Ledger, Share};
use std::test::Fail;

/// How many bytes a take of a source gives at most.
const PIECE: usize = 100;

/// A source over a text.
pub(crate) fn source_over(alloc: Global, text: &[u8]) -> Result<MemSource, Memory> {
    Ok(MemSource::new(MemFile {
        name: String::new(alloc),
        bytes: Vec::from_slice(alloc, text)?,
        piece: PIECE,
        fails: Vec::new(alloc),
    }))
}

/// A lane over a source, of which nothing was read, without a slack.
pub(crate) fn fresh_lane<S: Source + Drop>(
    alloc: Global,
    plan: &Plan,
    source: S,
    shard: u32,
) -> Result<Lane<S, PlanReader>, Fail>
    ensures { IfOk result (IsFreshLane ⟦<PlanReader as LineReader>⟧.read_of
        (line_of (planned_query plan.now)) shard) }
{
    let reader = PlanReader::new(alloc, plan)?;
    match Lane::make(alloc, source, reader, shard, None, LaneStart::Fresh) {
        Ok(lane) => Ok(lane),
        Err(_) => Err(Fail::new("a lane isn't made")),
    }
}

/// Sixteen parts of so many stages, with no span, on which nothing is pending.
pub(crate) fn fresh_parts<G: Ledger>(
    alloc: Global,
    stages: u32,
    share: Share<G>,
) -> Result<Vec<TurnedPart<G>>, Memory>
    requires from { 1 ≤ stages }
    requires to { stages ≤ 256 }
    requires shares { 16 ≤ share.parts }
    requires nothing { share.amount ≡ 0 }
    ensures { IfOk result (λ parts. length parts.items ≡ 16) }
{
    let mut share = share;
    let mut parts = Vec::new(alloc);
    for _part in 0..16usize {
        let mut steps = Steps::of(share.split_off(1, 0));
        let none = Holders::of(Vec::new(alloc));
        let part = Part::new(alloc, stages, None, none, Mark::Start, &mut steps)?;
        parts.push(TurnedPart::new(part, steps))?;
    }
    Ok(parts)
}
