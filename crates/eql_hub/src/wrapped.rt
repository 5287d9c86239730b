//! A lane and a part as values of a turn lock.
ghost use Rattle.std.specs.Prelude.{◌≡◌, ◌≤◌, [], length, vec_capacity};

use eql_auto::Steps;
use eql_lane::{Lane, LaneOp, LaneReply};
use eql_outside::Source;
use eql_parts::{Part, PartOp, PartReply};
use eql_turn_lock::Turned;
use eql_values::LineReader;
use std::marker::Model;
use std::sync::ledger::Ledger;

/// A lane that is played on in turns. Contracts see it as the lane.
///
/// Every operation that a lane allows is allowed in each state. A `Feed` is open to all.
#[derive(Drop)]
pub struct TurnedLane<S: Source, L: LineReader> {
    lane: Lane<S, L>,
}

impl<S: Source, L: LineReader> Model for TurnedLane<S, L> {
    ghost use Rattle.eql_lane.specs.Views.{LaneView};

    ghost Value = { LaneView S L };

    ghost view = { λ l. l.lane };
}

impl<S: Source, L: LineReader> TurnedLane<S, L> {
    /// The lane, to be put under a lock.
    pub fn new(lane: Lane<S, L>) -> TurnedLane<S, L>
        ensures { result ≡ lane }
    {
        TurnedLane { lane }
    }

    /// The lane itself.
    pub fn into_lane(self) -> Lane<S, L>
        ensures { result ≡ self }
    {
        self.lane
    }
}

impl<S: Source, L: LineReader> Turned for TurnedLane<S, L> {
    ghost use Rattle.eql_lane.specs.Lanes.{LaneAllows};
    ghost use Rattle.eql_hub.specs.Turns.{IsLaneTurn, is_idle_lane, is_open_lane, open_lane_allowed};

    type Op = LaneOp;

    type Reply = LaneReply;

    ghost allows = { λ lane op. LaneAllows op };

    ghost step_of = { IsLaneTurn S.left S.lent_as S.fault_plan L.read_of };

    ghost is_open = { is_open_lane };

    ghost is_idle = { is_idle_lane };

    fn play(&mut self, op: LaneOp) -> LaneReply {
        self.lane.play(op)
    }

    fn idles(reply: &LaneReply) -> bool {
        matches!(reply, LaneReply::Held { ready: _ } | LaneReply::Closed)
    }

    ghost opens = { λ lane op is. open_lane_allowed op is };

    ghost stays_allowed = { λ x y op later reply is step may. may };
}

/// A part that is played on in turns, with its own count of probes. Contracts see it as the part.
///
/// Every operation that a part allows in a state is allowed. A `Turn` is open to all.
#[derive(Drop)]
pub struct TurnedPart<G: Ledger> {
    part: Part<G>,
    steps: Steps<G>,
}

impl<G: Ledger> Model for TurnedPart<G> {
    ghost use Rattle.eql_parts.specs.PartSteps.{PartView};

    ghost Value = { PartView };

    ghost view = { λ p. p.part };
}

impl<G: Ledger> TurnedPart<G> {
    /// The part, to be put under a lock, with the count of its probes.
    pub fn new(part: Part<G>, steps: Steps<G>) -> TurnedPart<G>
        ensures { result ≡ part }
    {
        TurnedPart { part, steps }
    }
}

impl<G: Ledger> Turned for TurnedPart<G> {
    ghost use Rattle.eql_parts.specs.PartSteps.{PartAllows};
    ghost use Rattle.eql_hub.specs.Turns.{IsPartTurn, is_idle_part, is_open_part, open_part_allowed, part_stays_allowed};

    type Op = PartOp;

    type Reply = PartReply;

    ghost allows = { λ part op. PartAllows part.state op };

    ghost step_of = { IsPartTurn };

    ghost is_open = { is_open_part };

    ghost is_idle = { is_idle_part };

    fn play(&mut self, op: PartOp) -> PartReply {
        self.part.play(op, &mut self.steps)
    }

    fn idles(reply: &PartReply) -> bool {
        matches!(reply, PartReply::Idle)
    }

    ghost opens = { λ part op is. open_part_allowed part.state op is };

    ghost stays_allowed = { λ x y op later reply is step may.
        part_stays_allowed x y op later reply is step may };
}

/// Wraps lanes, in room for them.
pub(crate) fn wrap_all<S: Source, L: LineReader>(
    lanes: Vec<Lane<S, L>>,
    wrapped: &mut Vec<TurnedLane<S, L>>,
)
    requires empty { wrapped.old.items ≡ [] }
    requires room { length lanes.items ≤ vec_capacity wrapped.old }
    ensures { wrapped.new.items ≡ lanes.items }
{
    let mut lanes = lanes;
    while let Some(lane) = lanes.pop() {
        wrapped.push_reserved(TurnedLane { lane });
    }
    lanes.destroy_empty();
    wrapped.reverse();
}

/// Unwraps lanes, in room for them.
pub(crate) fn unwrap_all<S: Source, L: LineReader>(
    wrapped: Vec<TurnedLane<S, L>>,
    lanes: &mut Vec<Lane<S, L>>,
)
    requires empty { lanes.old.items ≡ [] }
    requires room { length wrapped.items ≤ vec_capacity lanes.old }
    ensures { lanes.new.items ≡ wrapped.items }
{
    let mut wrapped = wrapped;
    while let Some(lane) = wrapped.pop() {
        lanes.push_reserved(lane.into_lane());
    }
    wrapped.destroy_empty();
    lanes.reverse();
}
