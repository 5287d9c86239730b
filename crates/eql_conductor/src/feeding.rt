//! The lanes' half of a round, up to the mark: each lane is fed once, and looked at.
ghost use Rattle.std.specs.Prelude.{◌≡◌, ◌<◌, ◌≤◌, ◌∷◌, [], IfErr, IfOk, OnErr, OnOk};
ghost use Rattle.eql_lane.specs.Lanes.{lesser};
ghost use Rattle.eql_conductor.specs.Benches.{Rests};
ghost use Rattle.eql_conductor.specs.Bounds.{FeedsAll, IsSomeLow, LaneHadLow, LaneWasFed};
ghost use Rattle.eql_conductor.specs.Going.{StopsBy, Went};
ghost use Rattle.eql_conductor.specs.LaneRounds.{IsSafe, IsSafeAt};
ghost use Rattle.eql_conductor.specs.RoundNotes.{NotesLaneFront, NotesLane, NotesLanesFront, NotesLanes, NotesLooksFront, NotesLooks};
ghost use Rattle.eql_conductor.specs.declared.note.Note.TheVariants.{Fed, Looked};

use crate::bench::Bench;
use crate::stop::{Stop, unplayed};
use eql_lane::{LaneOp, LaneReply, ShardLimit};
use eql_values::Mark;

// Feeds one lane.
#[tactic(auto, using(crate::proofs::Resting::feed_rests, crate::proofs::Onward::lane_went, crate::proofs::LaneNotes::fed_noted, crate::proofs::LaneNotes::fed_broken, crate::proofs::LaneNotes::unplayed_broken))]
fn feed_one<B: Bench>(bench: &mut B, s: u32, batch: u32) -> Result<(), Stop>
    requires place { s < (B.known bench.old).lanes }
    requires batch { (1 ≤ batch) × (batch ≤ 4096) }
    ensures rests { Rests (B.known bench.old) (B.known bench.new) }
    ensures went { OnOk result (Went (B.known bench.old) (B.known bench.new)) }
    ensures stops { IfErr result (λ stop. StopsBy stop (B.known bench.old) (B.known bench.new)) }
    ensures fed { OnOk result (LaneWasFed s (B.known bench.old) (B.known bench.new)) }
    ensures notes { OnOk result (NotesLane s (Fed batch ∷ [])
        (B.known bench.old) (B.known bench.new)) }
    ensures broken_notes { OnErr result (NotesLaneFront s (Fed batch ∷ [])
        (B.known bench.old) (B.known bench.new)) }
{
    match bench.lane(s, LaneOp::Feed { max: batch }) {
        Err(by) => Err(unplayed(by)),
        Ok(LaneReply::Fed { lines: _ }) => Ok(()),
        Ok(LaneReply::Held { ready: _ }) => Ok(()),
        Ok(LaneReply::Closed) => Ok(()),
        Ok(LaneReply::Failed { lines: _ }) => Err(Stop::Read { shard: s }),
        Ok(LaneReply::Limit(ShardLimit::Lines { shard: _ })) => {
            Err(Stop::Limit(ShardLimit::Lines { shard: s }))
        }
        Ok(LaneReply::Limit(ShardLimit::Bytes { shard: _ })) => {
            Err(Stop::Limit(ShardLimit::Bytes { shard: s }))
        }
        Ok(LaneReply::Memory { lines: _ }) => Err(Stop::Memory),
        Ok(_) => unreachable!(),
    }
}

/// Feeds each lane once.
pub(crate) fn feed_all<B: Bench>(bench: &mut B, batch: u32) -> Result<(), Stop>
    requires batch { (1 ≤ batch) × (batch ≤ 4096) }
    ensures rests { Rests (B.known bench.old) (B.known bench.new) }
    ensures went { OnOk result (Went (B.known bench.old) (B.known bench.new)) }
    ensures stops { IfErr result (λ stop. StopsBy stop (B.known bench.old) (B.known bench.new)) }
    ensures fed { OnOk result (FeedsAll (B.known bench.old) (B.known bench.new)) }
    ensures notes { OnOk result (NotesLanes (λ s. Fed batch ∷ [])
        (B.known bench.old) (B.known bench.new)) }
    ensures broken_notes { OnErr result (NotesLanesFront (λ s. Fed batch ∷ [])
        (B.known bench.old) (B.known bench.new)) }
{
    let count = bench.lanes();
    for s in 0..count {
        feed_one(bench, s, batch)?;
    }
    Ok(())
}

// The lesser of two marks.
fn least(a: Mark, b: Mark) -> Mark
    ensures { result ≡ lesser a b }
{
    if a <= b { a } else { b }
}

// Looks at one lane.
#[tactic(auto, using(crate::proofs::Onward::lane_went, crate::proofs::BoundsRounds::looked_low, crate::proofs::LaneNotes::looked_noted, crate::proofs::LaneNotes::unplayed_noted))]
fn look_one<B: Bench>(bench: &mut B, s: u32) -> Result<Mark, Stop>
    requires place { s < (B.known bench.old).lanes }
    ensures rests { Rests (B.known bench.old) (B.known bench.new) }
    ensures safe { IfOk result (λ mark. IsSafeAt s mark (B.known bench.new)) }
    ensures went { OnOk result (Went (B.known bench.old) (B.known bench.new)) }
    ensures stops { IfErr result (λ stop. StopsBy stop (B.known bench.old) (B.known bench.new)) }
    ensures low { IfOk result (λ mark.
        LaneHadLow s mark (B.known bench.old) (B.known bench.new)) }
    ensures notes { IfOk result (λ low.
        NotesLane s (Looked low ∷ []) (B.known bench.old) (B.known bench.new)) }
    ensures broken_notes { OnErr result (NotesLane s [] (B.known bench.old) (B.known bench.new)) }
{
    match bench.lane(s, LaneOp::Look) {
        Err(by) => Err(unplayed(by)),
        Ok(LaneReply::Low(mark)) => Ok(mark),
        Ok(_) => unreachable!(),
    }
}

/// Looks at each lane. Returns the least low.
pub(crate) fn look_all<B: Bench>(bench: &mut B) -> Result<Mark, Stop>
    ensures rests { Rests (B.known bench.old) (B.known bench.new) }
    ensures safe { IfOk result (λ mark. IsSafe mark (B.known bench.new)) }
    ensures went { OnOk result (Went (B.known bench.old) (B.known bench.new)) }
    ensures stops { IfErr result (λ stop. StopsBy stop (B.known bench.old) (B.known bench.new)) }
    ensures low { IfOk result (λ mark. IsSomeLow mark (B.known bench.old) (B.known bench.new)) }
    ensures notes { IfOk result (NotesLooks (B.known bench.old) (B.known bench.new)) }
    ensures broken_notes { OnErr result (NotesLooksFront (B.known bench.old) (B.known bench.new)) }
{
    let count = bench.lanes();
    let mut mark = Mark::End;
    for s in 0..count {
        let low = look_one(bench, s)?;
        mark = least(mark, low);
    }
    Ok(mark)
}
