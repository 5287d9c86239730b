//! Calls of a hand on one lane and on one part.
ghost use Rattle.std.specs.Prelude.{◌≡◌, ◌<◌, MatchResult, length};
ghost use Rattle.eql_lane.specs.Lanes.{LaneAllows};
ghost use Rattle.eql_parts.specs.PartSteps.{PartAllows};
ghost use Rattle.eql_turn_lock.specs.Calls.{Plays, RefusesWorn};
ghost use Rattle.eql_turn_lock.specs.Passes.{KnowsHistory};
ghost use Rattle.eql_lock_row.specs.Rows.{ChangesAt, MayPlayAt};
ghost use Rattle.eql_hub.specs.Hands.{IsHandOf};
ghost use Rattle.eql_hub.specs.Turns.{IsLaneTurn, IsPartTurn, is_open_lane, is_open_part};

use crate::hub::{Hand, Hub};
use eql_lane::{LaneOp, LaneReply};
use eql_outside::Source;
use eql_parts::{PartOp, PartReply};
use eql_turn_lock::NotNow;
use eql_values::LineReader;
use std::sync::Wait;
use std::sync::ledger::Ledger;

impl<S: Source, L: LineReader, G: Ledger> Hub<S, L, G> {
    /// Plays the operation on a lane, from 0, and waits for its turn. It never returns `Busy`.
    pub fn call_lane<R: Wait>(
        &self,
        rt: &R,
        hand: &mut Hand<S, L, G>,
        lane: u32,
        op: LaneOp,
    ) -> Result<LaneReply, NotNow<LaneOp>>
        requires own { IsHandOf self.now hand.old }
        requires place { lane < length self.now.lanes }
        requires may { MayPlayAt (λ x o. LaneAllows o)
            (IsLaneTurn S.left S.lent_as S.fault_plan L.read_of) is_open_lane
            hand.old.lanes.views lane op }
        ensures own { IsHandOf self.now hand.new }
        ensures played { ChangesAt lane (λ v w. MatchResult result
            (λ reply. Plays (IsLaneTurn S.left S.lent_as S.fault_plan L.read_of) is_open_lane
            v op reply w) (λ refused. RefusesWorn v op refused w)
            × KnowsHistory (IsLaneTurn S.left S.lent_as S.fault_plan L.read_of) is_open_lane w)
            hand.old.lanes.views hand.new.lanes.views }
        ensures parts { hand.new.parts ≡ hand.old.parts }
    {
        self.lanes.call(rt, &mut hand.lanes, lane as usize, op)
    }

    /// Plays the operation on a part, from 0, and waits for its turn. It never returns `Busy`.
    pub fn call_part<R: Wait>(
        &self,
        rt: &R,
        hand: &mut Hand<S, L, G>,
        part: u32,
        op: PartOp,
    ) -> Result<PartReply, NotNow<PartOp>>
        requires own { IsHandOf self.now hand.old }
        requires place { part < length self.now.parts }
        requires may { MayPlayAt (λ x o. PartAllows x.state o) IsPartTurn is_open_part
            hand.old.parts.views part op }
        ensures own { IsHandOf self.now hand.new }
        ensures played { ChangesAt part (λ v w. MatchResult result
            (λ reply. Plays IsPartTurn is_open_part v op reply w)
            (λ refused. RefusesWorn v op refused w) × KnowsHistory IsPartTurn is_open_part w)
            hand.old.parts.views hand.new.parts.views }
        ensures lanes { hand.new.lanes ≡ hand.old.lanes }
    {
        self.parts.call(rt, &mut hand.parts, part as usize, op)
    }
}
