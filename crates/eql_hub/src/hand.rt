//! A step of a hand.
ghost use Rattle.std.specs.Prelude.{◌≡◌, ◌<◌, ◌≤◌, ◌+◌, IfSome, length};
ghost use Rattle.eql_hub.specs.Hands.{IsHandOf, Knows};
ghost use Rattle.eql_hub.specs.Steps.{AddsAtMostOneEach, Steps};
ghost use Rattle.eql_hub.specs.Sweeps.{did_in};

use crate::hub::{Hand, Hub};
use crate::step::Did;
use eql_outside::Source;
use eql_values::LineReader;
use std::sync::ledger::Ledger;

impl<S: Source, L: LineReader, G: Ledger> Hub<S, L, G> {
    // Goes once over all places, from one on.
    fn go_round(
        &self,
        hand: &mut Hand<S, L, G>,
        batch: u32,
        start: usize,
        count: usize,
    ) -> Option<(usize, Did)>
        requires own { IsHandOf self.now hand.old }
        requires batch_from { 1 ≤ batch }
        requires batch_to { batch ≤ 4096 }
        requires start { start ≤ count }
        requires count { count ≡ length self.now.lanes + length self.now.parts }
        requires lanes { length hand.old.lanes.views ≡ length self.now.lanes }
        requires parts { length hand.old.parts.views ≡ length self.now.parts }
        ensures own { IsHandOf self.now hand.new }
        ensures place { IfSome result (λ found. found.0 < count) }
        ensures knows { Knows S.left S.lent_as S.fault_plan L.read_of hand.old
            → Knows S.left S.lent_as S.fault_plan L.read_of hand.new }
        ensures steps { Steps S.left S.lent_as S.fault_plan L.read_of batch self.now.alone
            (did_in result) hand.old hand.new }
    {
        if let Some(found) = self.sweep(hand, batch, start, count) {
            return Some(found);
        }
        self.sweep(hand, batch, 0, start)
    }

    /// Feeds a lane or has a part play events where something is to be done: at most `batch` lines or events, from 1 to 4,096. It
    /// tries each part once at most, and each lane but those that the conductor alone feeds. It waits for nobody.
    pub fn hand_step(&self, hand: &mut Hand<S, L, G>, batch: u32) -> Did
        requires own { IsHandOf self.now hand.old }
        requires batch_from { 1 ≤ batch }
        requires batch_to { batch ≤ 4096 }
        ensures own { IsHandOf self.now hand.new }
        ensures knows { Knows S.left S.lent_as S.fault_plan L.read_of hand.old
            → Knows S.left S.lent_as S.fault_plan L.read_of hand.new }
        ensures steps { Steps S.left S.lent_as S.fault_plan L.read_of batch self.now.alone result
            hand.old hand.new }
        ensures mine { AddsAtMostOneEach hand.old hand.new }
    {
        self.are_few();
        let count = hand.lane_count() + hand.part_count();
        let start = hand.next.min(count);
        match self.go_round(hand, batch, start, count) {
            None => Did::Nothing,
            Some((place, did)) => {
                hand.next = self.place_after(place);
                did
            }
        }
    }
}
