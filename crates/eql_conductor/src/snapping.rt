//! What a cut keeps of each lane, and of all parts.
ghost use Rattle.std.specs.Prelude.{◌≡◌, ◌<◌, ◌∷◌, ◌++◌, [], ℕ, ℤ, List, Option, All, map, IfErr, IfOk, OnErr, OnOk};
ghost use Rattle.eql_values.specs.declared.found.Holder.{Holder};
ghost use Rattle.eql_values.specs.declared.order.Mark.{Mark};
ghost use Rattle.eql_values.specs.declared.order.Mark.TheVariants.{At as AtTime};
ghost use Rattle.eql_values.specs.Ordered.{numbers};
ghost use Rattle.eql_laws.specs.Alive.{HoldersAreInOrder, alive_holders};
ghost use Rattle.eql_laws.specs.Shapes.{IsFull};
ghost use Rattle.eql_parts.specs.PartSteps.{Rules};
ghost use Rattle.eql_conductor.specs.Benches.{Rests};
ghost use Rattle.eql_conductor.specs.Going.{StopsBy, Went};
ghost use Rattle.eql_conductor.specs.LaneRounds.{LanesAreAt, text_at};
ghost use Rattle.eql_conductor.specs.PartRounds.{AreAtRest, AreSomehowFull, pending_after};
ghost use Rattle.eql_conductor.specs.RoundNotes.{NotesLaneFront, NotesLane, NotesLanesFront, NotesLanes, NotesPart, NotesParts};
ghost use Rattle.eql_conductor.specs.declared.note.Note.TheVariants.{Snapped};
ghost use Rattle.eql_conductor.specs.Snaps.{SnapsAll, IsSnap, held_of};
ghost use Rattle.eql_conductor.specs.declared.stop.Stop.TheVariants.{Memory as OutOfMemory};

use crate::bench::Bench;
use crate::stop::{Stop, unplayed};
use eql_lane::{LaneOp, LaneReply};
use eql_merge::merge_holders;
use eql_parts::{PartOp, PartReply};
use eql_values::{Holders, LaneCut, LaneCuts};
use std::alloc::Global;

// Takes a cut of one lane.
#[tactic(auto, using(crate::proofs::Onward::lane_went, crate::proofs::LaneNotes::snapped_noted, crate::proofs::LaneNotes::snapped_broken, crate::proofs::LaneNotes::unplayed_broken))]
fn snap_lane<B: Bench>(bench: &mut B, s: u32) -> Result<LaneCut, Stop>
    requires place { s < (B.known bench.old).lanes }
    ensures rests { Rests (B.known bench.old) (B.known bench.new) }
    ensures snap { (texts : Option (List (List ℕ))) (mark : Mark)
        → LanesAreAt texts mark (B.known bench.old)
        → IfOk result (λ cut. IsSnap (text_at texts s) ((B.known bench.old).set s) mark cut) }
    ensures went { OnOk result (Went (B.known bench.old) (B.known bench.new)) }
    ensures stops { IfErr result (λ stop. StopsBy stop (B.known bench.old) (B.known bench.new)) }
    ensures notes { OnOk result (NotesLane s (Snapped ∷ [])
        (B.known bench.old) (B.known bench.new)) }
    ensures broken_notes { OnErr result (NotesLaneFront s (Snapped ∷ [])
        (B.known bench.old) (B.known bench.new)) }
{
    match bench.lane(s, LaneOp::Snap) {
        Err(by) => Err(unplayed(by)),
        Ok(LaneReply::Cut(cut)) => Ok(cut),
        Ok(LaneReply::Memory { lines: _ }) => Err(Stop::Memory),
        Ok(_) => unreachable!(),
    }
}

// Adds a cut at the end.
fn add_cut(cuts: &mut Vec<LaneCut>, cut: LaneCut) -> Result<(), Stop>
    ensures ok { OnOk result (cuts.new.items ≡ cuts.old.items ++ cut ∷ []) }
    ensures memory { IfErr result (λ stop. stop ≡ OutOfMemory) }
{
    match cuts.push(cut) {
        Ok(()) => Ok(()),
        Err(_) => Err(Stop::Memory),
    }
}

/// Takes a cut of each lane.
pub(crate) fn snap_lanes<B: Bench>(alloc: Global, bench: &mut B) -> Result<LaneCuts, Stop>
    ensures rests { Rests (B.known bench.old) (B.known bench.new) }
    ensures snaps { (texts : Option (List (List ℕ))) (mark : Mark)
        → LanesAreAt texts mark (B.known bench.old)
        → IfOk result (λ cuts. SnapsAll texts mark (B.known bench.old) cuts) }
    ensures went { OnOk result (Went (B.known bench.old) (B.known bench.new)) }
    ensures stops { IfErr result (λ stop. StopsBy stop (B.known bench.old) (B.known bench.new)) }
    ensures notes { OnOk result (NotesLanes (λ s. Snapped ∷ [])
        (B.known bench.old) (B.known bench.new)) }
    ensures broken_notes { OnErr result (NotesLanesFront (λ s. Snapped ∷ [])
        (B.known bench.old) (B.known bench.new)) }
{
    let count = bench.lanes();
    let mut cuts = Vec::new(alloc);
    for s in 0..count {
        let cut = snap_lane(bench, s)?;
        add_cut(&mut cuts, cut)?;
    }
    Ok(LaneCuts::of(cuts))
}

// Copies the pending sequences of one part.
#[tactic(auto, using(crate::proofs::PartNotes::snapped_part, crate::proofs::PartNotes::unplayed_part))]
fn snap_part<B: Bench>(bench: &mut B, p: u32) -> Result<Holders, Stop>
    requires place { p < (B.known bench.old).parts }
    ensures rests { Rests (B.known bench.old) (B.known bench.new) }
    ensures held { (rules : Rules) (all : List Holder) (time : ℤ)
        → AreAtRest rules all (AtTime time) (B.known bench.old)
        → IfOk result (λ held. held ≡ held_of rules all time p) }
    ensures went { OnOk result (Went (B.known bench.old) (B.known bench.new)) }
    ensures stops { IfErr result (λ stop. StopsBy stop (B.known bench.old) (B.known bench.new)) }
    ensures notes { NotesPart p 0 1 (B.known bench.old) (B.known bench.new) }
{
    match bench.part(p, PartOp::Snap) {
        Err(by) => Err(unplayed(by)),
        Ok(PartReply::Cut(held)) => Ok(held),
        Ok(PartReply::Memory { back: _, items: _ }) => Err(Stop::Memory),
        Ok(_) => unreachable!(),
    }
}

// Adds a list at the end.
fn add_held(lists: &mut Vec<Holders>, held: Holders) -> Result<(), Stop>
    ensures ok { OnOk result (lists.new.items ≡ lists.old.items ++ held ∷ []) }
    ensures memory { IfErr result (λ stop. stop ≡ OutOfMemory) }
{
    match lists.push(held) {
        Ok(()) => Ok(()),
        Err(_) => Err(Stop::Memory),
    }
}

// Copies the pending sequences of each part.
fn snap_each<B: Bench>(alloc: Global, bench: &mut B) -> Result<Vec<Holders>, Stop>
    ensures rests { Rests (B.known bench.old) (B.known bench.new) }
    ensures held { (rules : Rules) (all : List Holder) (time : ℤ)
        → AreAtRest rules all (AtTime time) (B.known bench.old)
        → IfOk result (λ lists. lists.items ≡ map (held_of rules all time) (numbers 16)) }
    ensures went { OnOk result (Went (B.known bench.old) (B.known bench.new)) }
    ensures stops { IfErr result (λ stop. StopsBy stop (B.known bench.old) (B.known bench.new)) }
    ensures notes { NotesParts (λ p. 0) 1 (B.known bench.old) (B.known bench.new) }
{
    let count = bench.parts();
    let mut lists = Vec::new(alloc);
    for p in 0..count {
        let held = snap_part(bench, p)?;
        add_held(&mut lists, held)?;
    }
    Ok(lists)
}

/// Copies the pending sequences of all parts, which rest at a time, by key and stage.
pub(crate) fn snap_parts<B: Bench>(
    alloc: Global,
    bench: &mut B,
    time: i128,
) -> Result<Holders, Stop>
    requires some { AreSomehowFull (AtTime time) (B.known bench.old) }
    ensures rests { Rests (B.known bench.old) (B.known bench.new) }
    ensures held { (rules : Rules) (all : List Holder)
        → AreAtRest rules all (AtTime time) (B.known bench.old)
        → IfOk result (λ held. held ≡ alive_holders rules.span time (pending_after rules all [])) }
    ensures in_order { IfOk result (λ held. HoldersAreInOrder held) }
    ensures full { IfOk result (λ held. All IsFull held) }
    ensures went { OnOk result (Went (B.known bench.old) (B.known bench.new)) }
    ensures stops { IfErr result (λ stop. StopsBy stop (B.known bench.old) (B.known bench.new)) }
    ensures notes { NotesParts (λ p. 0) 1 (B.known bench.old) (B.known bench.new) }
{
    let lists = snap_each(alloc, bench)?;
    match merge_holders(alloc, lists) {
        Ok(held) => Ok(held),
        Err(_) => Err(Stop::Memory),
    }
}
