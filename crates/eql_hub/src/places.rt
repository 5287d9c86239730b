//! The places over which a hand goes: the lanes, and behind them the parts.
ghost use Rattle.std.specs.Prelude.{◌≡◌, ◌≤◌, ◌<◌, ◌+◌, MatchOption, length};
ghost use Rattle.eql_turn_lock.specs.Passes.{KnowsHistory};
ghost use Rattle.eql_lock_row.specs.Rows.{ChangesAt};
ghost use Rattle.eql_hub.specs.Hands.{IsHandOf};
ghost use Rattle.eql_hub.specs.Steps.{LaneEnds, LaneIsIdle, PartEnds, PartIsIdle};
ghost use Rattle.eql_hub.specs.Sweeps.{SweepEnds, TriesPlace};
ghost use Rattle.eql_hub.specs.Turns.{IsLaneTurn, IsPartTurn, is_open_lane, is_open_part};

use crate::hub::{Hand, Hub};
use crate::step::{Did, after_feed, after_turn};
use eql_lane::LaneOp;
use eql_outside::Source;
use eql_parts::PartOp;
use eql_values::LineReader;
use std::sync::ledger::Ledger;

impl<S: Source, L: LineReader, G: Ledger> Hub<S, L, G> {
    // Feeds a lane, if its turn is free. It takes no turn where the last reply there was `Held` or `Closed`.
    fn feed_lane(&self, hand: &mut Hand<S, L, G>, batch: u32, lane: u32) -> Option<Did>
        requires own { IsHandOf self.now hand.old }
        requires batch_from { 1 ≤ batch }
        requires batch_to { batch ≤ 4096 }
        requires place { lane < length self.now.lanes }
        ensures own { IsHandOf self.now hand.new }
        ensures lanes { ChangesAt lane (λ v w. MatchOption result
            (LaneIsIdle S.left S.lent_as S.fault_plan L.read_of batch v w)
            (λ did. LaneEnds S.left S.lent_as S.fault_plan L.read_of batch did lane v w)
            × KnowsHistory (IsLaneTurn S.left S.lent_as S.fault_plan L.read_of) is_open_lane w)
            hand.old.lanes.views hand.new.lanes.views }
        ensures parts { hand.new.parts ≡ hand.old.parts }
    {
        let op = LaneOp::Feed { max: batch };
        let tried = self
            .lanes
            .try_unless_idle(&mut hand.lanes, lane as usize, op);
        after_feed(lane, tried)
    }

    // Turns a part, if its turn is free. It takes no turn where the last reply there was `Idle`.
    fn turn_part(&self, hand: &mut Hand<S, L, G>, batch: u32, part: u32) -> Option<Did>
        requires own { IsHandOf self.now hand.old }
        requires batch_from { 1 ≤ batch }
        requires batch_to { batch ≤ 4096 }
        requires place { part < length self.now.parts }
        ensures own { IsHandOf self.now hand.new }
        ensures parts { ChangesAt part (λ v w. MatchOption result (PartIsIdle batch v w)
            (λ did. PartEnds batch did part v w) × KnowsHistory IsPartTurn is_open_part w)
            hand.old.parts.views hand.new.parts.views }
        ensures lanes { hand.new.lanes ≡ hand.old.lanes }
    {
        let op = PartOp::Turn { max: batch };
        let tried = self
            .parts
            .try_unless_idle(&mut hand.parts, part as usize, op);
        after_turn(part, tried)
    }

    // Does what is to be done in a place, if anything is. A lane that the conductor alone feeds isn't tried.
    fn try_place(&self, hand: &mut Hand<S, L, G>, batch: u32, place: usize) -> Option<Did>
        requires own { IsHandOf self.now hand.old }
        requires batch_from { 1 ≤ batch }
        requires batch_to { batch ≤ 4096 }
        requires place { place < length self.now.lanes + length self.now.parts }
        ensures own { IsHandOf self.now hand.new }
        ensures tried { TriesPlace S.left S.lent_as S.fault_plan L.read_of batch self.now.alone
            (length self.now.lanes) place result hand.old hand.new }
    {
        self.are_few();
        let lanes = self.lane_count() as usize;
        if place < lanes {
            if self.is_fed_alone(place) {
                return None;
            }
            self.feed_lane(hand, batch, place as u32)
        } else {
            self.turn_part(hand, batch, (place - lanes) as u32)
        }
    }

    /// Goes over places until something is done in one.
    pub(crate) fn sweep(
        &self,
        hand: &mut Hand<S, L, G>,
        batch: u32,
        from: usize,
        to: usize,
    ) -> Option<(usize, Did)>
        requires own { IsHandOf self.now hand.old }
        requires batch_from { 1 ≤ batch }
        requires batch_to { batch ≤ 4096 }
        requires order { from ≤ to }
        requires places { to ≤ length self.now.lanes + length self.now.parts }
        ensures own { IsHandOf self.now hand.new }
        ensures swept { SweepEnds S.left S.lent_as S.fault_plan L.read_of batch self.now.alone
            (length self.now.lanes) from to result hand.old hand.new }
    {
        for place in from..to {
            if let Some(did) = self.try_place(hand, batch, place) {
                return Some((place, did));
            }
        }
        None
    }
}
