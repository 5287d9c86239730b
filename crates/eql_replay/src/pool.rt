//! Lanes and parts in lists, and what is played on them.
ghost use Rattle.std.specs.Prelude.{◌≡◌, ◌<◌, Some, All, length, slice_get};
ghost use Rattle.eql_lane.specs.Lanes.{LaneAllows};
ghost use Rattle.eql_parts.specs.PartSteps.{PartAllows, PartView};
ghost use Rattle.eql_replay.specs.Pools.{ForeignsPlay, ForeignPlays, IsPlay, PlaysLaneAt, PlaysPartAt};

use crate::foreign::{Foreign, Foreigns};
use eql_auto::Steps;
use eql_lane::{Lane, LaneOp, LaneReply};
use eql_outside::Source;
use eql_parts::{Part, PartOp, PartReply};
use eql_values::LineReader;
use std::marker::Model;
use std::sync::ledger::Ledger;

/// Lanes and parts, each in its place, and the count of probes that the parts share.
#[derive(Drop)]
pub(crate) struct Pool<S: Source, L: LineReader, G: Ledger> {
    lanes: Vec<Lane<S, L>>,
    parts: Vec<Part<G>>,
    steps: Steps<G>,
}

impl<S: Source, L: LineReader, G: Ledger> Model for Pool<S, L, G> {
    ghost use Rattle.eql_conductor.specs.Lists.{PoolView};

    ghost Value = { PoolView S L };

    ghost view = { λ p. record { lanes = p.lanes.items; parts = p.parts.items } };
}

// Plays an operation on one of these lanes.
fn play_lane<S: Source, L: LineReader>(
    lanes: &mut Vec<Lane<S, L>>,
    s: usize,
    op: LaneOp,
) -> LaneReply
    requires place { s < length lanes.old.items }
    requires allowed { LaneAllows op }
    ensures { PlaysLaneAt S.left S.lent_as S.fault_plan L.read_of s op result
        lanes.old.items lanes.new.items }
{
    lanes[s].play(op)
}

// Plays an operation on one of these parts.
fn play_part<G: Ledger>(
    parts: &mut Vec<Part<G>>,
    p: usize,
    op: PartOp,
    steps: &mut Steps<G>,
) -> PartReply
    requires place { p < length parts.old.items }
    requires allowed { (part : PartView) → slice_get parts.old.items p ≡ Some part
        → PartAllows part.state op }
    ensures { PlaysPartAt p op result parts.old.items parts.new.items }
{
    parts[p].play(op, steps)
}

impl<S: Source, L: LineReader, G: Ledger> Pool<S, L, G> {
    /// These lanes and parts.
    pub(crate) fn new(lanes: Vec<Lane<S, L>>, parts: Vec<Part<G>>, steps: Steps<G>) -> Pool<S, L, G>
        ensures { result ≡ record { lanes = lanes.items; parts = parts.items } }
    {
        Pool {
            lanes,
            parts,
            steps,
        }
    }

    /// How many lanes there are.
    pub(crate) fn lane_count(&self) -> usize
        ensures { result ≡ length self.now.lanes }
    {
        self.lanes.len()
    }

    /// How many parts there are.
    pub(crate) fn part_count(&self) -> usize
        ensures { result ≡ length self.now.parts }
    {
        self.parts.len()
    }

    /// The lanes, taken out.
    pub(crate) fn into_lanes(self) -> Vec<Lane<S, L>>
        ensures { result.items ≡ self.lanes }
    {
        self.lanes
    }

    /// Plays an operation on a lane, from 0.
    pub(crate) fn lane(&mut self, s: u32, op: LaneOp) -> LaneReply
        requires place { s < length self.old.lanes }
        requires allowed { LaneAllows op }
        ensures played { PlaysLaneAt S.left S.lent_as S.fault_plan L.read_of s op result
            self.old.lanes self.new.lanes }
        ensures parts { self.new.parts ≡ self.old.parts }
    {
        play_lane(&mut self.lanes, s as usize, op)
    }

    /// Plays an operation on a part, from 0.
    pub(crate) fn part(&mut self, p: u32, op: PartOp) -> PartReply
        requires place { p < length self.old.parts }
        requires allowed { (part : PartView) → slice_get self.old.parts p ≡ Some part
            → PartAllows part.state op }
        ensures played { PlaysPartAt p op result self.old.parts self.new.parts }
        ensures lanes { self.new.lanes ≡ self.old.lanes }
    {
        play_part(&mut self.parts, p as usize, op, &mut self.steps)
    }

    // Plays an operation of others.
    fn play(&mut self, foreign: Foreign)
        requires fits { IsPlay (length self.old.lanes) (length self.old.parts) foreign }
        ensures { ForeignPlays S.left S.lent_as S.fault_plan L.read_of foreign
            self.old self.new }
    {
        match foreign {
            Foreign::Feed { lane, max } => {
                let _ = self.lane(lane, LaneOp::Feed { max });
            }
            Foreign::Turn { part, max } => {
                let _ = self.part(part, PartOp::Turn { max });
            }
        }
    }

    /// Plays operations of others, in order.
    pub(crate) fn play_all(&mut self, foreigns: &Foreigns)
        requires fit { All (IsPlay (length self.old.lanes) (length self.old.parts)) foreigns.now }
        ensures { ForeignsPlay S.left S.lent_as S.fault_plan L.read_of foreigns.now
            self.old self.new }
    {
        for foreign in foreigns.items() {
            self.play(*foreign);
        }
    }
}
