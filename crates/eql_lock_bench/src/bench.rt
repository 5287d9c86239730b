//! A bench over a hub of locks.
ghost use Rattle.std.specs.Prelude.{◌≡◌, ◌<◌, IfErr, IfOk, length};
ghost use Rattle.eql_lane.specs.Lanes.{LaneAllows};
ghost use Rattle.eql_conductor.specs.Benches.{LanePlays, MayPlay, PartPlays, WasNotPlayed};
ghost use Rattle.eql_lock_row.specs.Rows.{ChangesAt};
ghost use Rattle.eql_hub.specs.Hands.{IsFirst, IsHandOf, Knows};
ghost use Rattle.eql_hub.specs.Turns.{IsLaneTurn, IsPartTurn, is_open_lane, is_open_part};
ghost use Rattle.eql_lock_bench.specs.Benched.{AreOfTexts, IsBenchHand};
ghost use Rattle.eql_lock_bench.specs.Locked.{Answers, IsNeverBusy, known_by, told_of};

use crate::opening::LockOpening;
use eql_conductor::{Bench, NotPlayed};
use eql_hub::{Bell, Hand, Hub};
use eql_lane::{LaneOp, LaneReply};
use eql_outside::Source;
use eql_parts::{PartOp, PartReply};
use eql_turn_lock::NotNow;
use eql_values::LineReader;
use std::marker::{Model, PhantomData};
use std::sync::Wait;
use std::sync::ledger::Ledger;

// The bell is rung where so many events and more are delivered to a part. Fewer are played sooner than a hand that sleeps is awake.
const MANY_EVENTS: usize = 256;

/// A hub and its first hand, by which the caller plays. Other hands may play on the hub at any time. A call may wait.
///
/// Contracts see it as what the hand knows. It rings the bell where hands that sleep may find work: as a round begins, as what lanes
/// hold was taken, and where many events are delivered.
#[derive(Drop)]
pub struct LockBench<'a, R, S: Source, L: LineReader, G: Ledger, T: LockOpening<S, L>> {
    rt: &'a R,
    hub: &'a Hub<S, L, G>,
    bell: &'a Bell,
    hand: Hand<S, L, G>,
    of: PhantomData<T>,
}

impl<'a, R, S: Source, L: LineReader, G: Ledger, T: LockOpening<S, L>> Model
    for LockBench<'a, R, S, L, G, T> {
    ghost use Rattle.std.specs.Prelude.{◌≡◌};
    ghost use Rattle.eql_hub.specs.Hands.{HandView};
    ghost use Rattle.eql_lock_bench.specs.Benched.{IsBenchHand};

    ghost Value = { HandView S L };

    ghost view = { λ b. b.hand };

    ghost invariant = { λ b. (b.hub.now ≡ T.hub)
        × IsBenchHand S.left S.lent_as S.fault_plan L.read_of T.text T.hub T.hand b.hand };
}

impl<'a, R, S: Source, L: LineReader, G: Ledger, T: LockOpening<S, L>> LockBench<
    'a,
    R,
    S,
    L,
    G,
    T,
> {
    /// A bench over this hub, played on by its first hand, with the bell of its other hands.
    pub fn new(
        rt: &'a R,
        hub: &'a Hub<S, L, G>,
        bell: &'a Bell,
        hand: Hand<S, L, G>,
    ) -> LockBench<'a, R, S, L, G, T>
        requires opening { (hub.now ≡ T.hub) × (hand ≡ T.hand) }
        requires own { IsHandOf hub.now hand }
        requires first { IsFirst hand }
        requires knows { Knows S.left S.lent_as S.fault_plan L.read_of hand }
        requires texts { AreOfTexts S.left T.text hand.lanes.views }
        ensures { result ≡ hand }
    {
        let _ = hand.lane_count();
        let _ = hand.part_count();
        LockBench {
            rt,
            hub,
            bell,
            hand,
            of: PhantomData,
        }
    }

    /// The hand, with all that it knows by then. It takes no memory.
    pub fn into_hand(self) -> Hand<S, L, G>
        ensures hand { result ≡ self.entry }
        ensures is { IsBenchHand S.left S.lent_as S.fault_plan L.read_of T.text T.hub T.hand
            result }
    {
        self.hand
    }
}

// Whether hands may find work as this is played on a lane, of so many: a round begins with a feed of the first one, and behind the
// take of the last one the lanes hold less.
fn has_work_behind(op: &LaneOp, lane: u32, lanes: u32) -> bool {
    match op {
        LaneOp::Feed { max: _ } => lane == 0,
        LaneOp::Take { mark: _ } => lane.wrapping_add(1) == lanes,
        LaneOp::Look => false,
        LaneOp::Snap => false,
    }
}

// Whether many events are delivered.
fn delivers_many(op: &PartOp) -> bool {
    match op {
        PartOp::Deliver { items, mark: _ } => items.items().len() >= MANY_EVENTS,
        _ => false,
    }
}

// The answer of a bench: a lock that is worn gives no turn.
fn told<O: Drop, A>(answer: Result<A, NotNow<O>>) -> Result<A, NotPlayed>
    requires { IsNeverBusy answer }
    ensures { result ≡ told_of answer }
{
    match answer {
        Ok(reply) => Ok(reply),
        Err(NotNow::Busy { word: _, op: _ }) => unreachable!(),
        Err(NotNow::Worn { word, op: _ }) => Err(NotPlayed::Worn { word }),
    }
}

impl<'a, R: Wait, S: Source, L: LineReader, G: Ledger, T: LockOpening<S, L>> Bench
    for LockBench<'a, R, S, L, G, T> {
    ghost known = { λ b. known_by S.left S.lent_as S.fault_plan L.read_of T.text b };

    fn lanes(&self) -> u32 {
        self.hub.lane_count()
    }

    fn parts(&self) -> u32 {
        self.hub.part_count()
    }

    fn lane(&mut self, s: u32, op: LaneOp) -> Result<LaneReply, NotPlayed>
        requires place { s < length self.old.lanes.views }
        requires allowed { LaneAllows op }
        ensures played { IfOk result (λ reply. LanePlays s op reply
            (known_by S.left S.lent_as S.fault_plan L.read_of T.text self.old)
            (known_by S.left S.lent_as S.fault_plan L.read_of T.text self.new)) }
        ensures not_played { IfErr result (λ by. WasNotPlayed by
            (known_by S.left S.lent_as S.fault_plan L.read_of T.text self.old)
            (known_by S.left S.lent_as S.fault_plan L.read_of T.text self.new)) }
        ensures call { ChangesAt s
            (Answers (IsLaneTurn S.left S.lent_as S.fault_plan L.read_of) is_open_lane op result)
            self.old.lanes.views self.new.lanes.views }
        ensures parts { self.new.parts ≡ self.old.parts }
    {
        if has_work_behind(&op, s, self.lanes()) {
            self.bell.ring();
        }
        let answer = self.hub.call_lane(self.rt, &mut self.hand, s, op);
        told(answer)
    }

    fn part(&mut self, p: u32, op: PartOp) -> Result<PartReply, NotPlayed>
        requires place { p < length self.old.parts.views }
        requires allowed { MayPlay
            (known_by S.left S.lent_as S.fault_plan L.read_of T.text self.old) p op }
        ensures played { IfOk result (λ reply. PartPlays p op reply
            (known_by S.left S.lent_as S.fault_plan L.read_of T.text self.old)
            (known_by S.left S.lent_as S.fault_plan L.read_of T.text self.new)) }
        ensures not_played { IfErr result (λ by. WasNotPlayed by
            (known_by S.left S.lent_as S.fault_plan L.read_of T.text self.old)
            (known_by S.left S.lent_as S.fault_plan L.read_of T.text self.new)) }
        ensures call { ChangesAt p
            (Answers IsPartTurn is_open_part op result)
            self.old.parts.views self.new.parts.views }
        ensures lanes { self.new.lanes ≡ self.old.lanes }
    {
        let many = delivers_many(&op);
        let answer = self.hub.call_part(self.rt, &mut self.hand, p, op);
        if many {
            self.bell.ring();
        }
        told(answer)
    }
}
