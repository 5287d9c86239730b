//! The lanes' half of a round, from the mark on: what lies below it is taken from each lane.
ghost use Rattle.std.specs.Prelude.{◌≡◌, ◌<◌, ◌+◌, ◌∷◌, ◌++◌, [], ℕ, List, Option, None, length, IfErr, IfOk, OnErr, OnOk};
ghost use Rattle.eql_laws.specs.Lateness.{IsAtMost};
ghost use Rattle.eql_conductor.specs.LaneCalls.{HandsOver};
ghost use Rattle.eql_conductor.specs.Benches.{PartsRest};
ghost use Rattle.eql_conductor.specs.Bounds.{AllGaveOut, OneGaveOut};
ghost use Rattle.eql_conductor.specs.Going.{LanesGo, StopsBy, Went};
ghost use Rattle.eql_conductor.specs.LaneRounds.{AllHandOver, IsSafe, LanesAreAt, AreTakenTo, text_at};
ghost use Rattle.eql_conductor.specs.Handed.{AllHandOut, LaneHands, LanesHand, sizes};
ghost use Rattle.eql_conductor.specs.RoundNotes.{NotesLaneFront, NotesLane, NotesLanesFront, NotesLanes};
ghost use Rattle.eql_conductor.specs.declared.note.Note.TheVariants.{Took};
ghost use Rattle.eql_conductor.specs.declared.stop.Stop.TheVariants.{Memory as OutOfMemory};

use crate::bench::Bench;
use crate::stop::{Stop, unplayed};
use eql_lane::{LaneOp, LaneReply};
use eql_values::{ItemLists, Items, Mark};
use std::alloc::Global;

// Takes from one lane what lies below a safe mark.
#[tactic(auto, using(crate::proofs::Onward::unplayed_goes, crate::proofs::Onward::lane_went, crate::proofs::LaneNotes::took_noted, crate::proofs::LaneNotes::took_broken, crate::proofs::LaneNotes::unplayed_broken, crate::proofs::Handing::taken_hands, crate::proofs::Handing::lacked_hands, crate::proofs::Handing::unplayed_hands))]
fn take_one<B: Bench>(bench: &mut B, s: u32, last: Mark, mark: Mark) -> Result<Items, Stop>
    requires place { s < (B.known bench.old).lanes }
    requires lanes { AreTakenTo None s last mark (B.known bench.old) }
    requires safe { IsSafe mark (B.known bench.old) }
    requires later { IsAtMost last mark }
    ensures hands { (texts : Option (List (List ℕ)))
        → AreTakenTo texts s last mark (B.known bench.old)
        → IfOk result (HandsOver (text_at texts s) ((B.known bench.old).set s) last mark) }
    ensures lanes { (texts : Option (List (List ℕ)))
        → AreTakenTo texts s last mark (B.known bench.old)
        → OnOk result (AreTakenTo texts (s + 1) last mark (B.known bench.new)) }
    ensures goes { LanesGo (B.known bench.old) (B.known bench.new) }
    ensures parts { PartsRest (B.known bench.old) (B.known bench.new) }
    ensures went { OnOk result (Went (B.known bench.old) (B.known bench.new)) }
    ensures stops { IfErr result (λ stop. StopsBy stop (B.known bench.old) (B.known bench.new)) }
    ensures gave { OnOk result (OneGaveOut s mark (B.known bench.old) (B.known bench.new)) }
    ensures handed { IfOk result (λ items. LaneHands s (length items)
        (B.known bench.old) (B.known bench.new)) }
    ensures none_handed { OnErr result (LanesHand (λ s. 0)
        (B.known bench.old) (B.known bench.new)) }
    ensures notes { OnOk result (NotesLane s (Took mark ∷ [])
        (B.known bench.old) (B.known bench.new)) }
    ensures broken_notes { OnErr result (NotesLaneFront s (Took mark ∷ [])
        (B.known bench.old) (B.known bench.new)) }
{
    match bench.lane(s, LaneOp::Take { mark }) {
        Err(by) => Err(unplayed(by)),
        Ok(LaneReply::Taken(items)) => Ok(items),
        Ok(LaneReply::Memory { lines: _ }) => Err(Stop::Memory),
        Ok(_) => unreachable!(),
    }
}

// Adds a list at the end.
fn add_items(lists: &mut Vec<Items>, items: Items) -> Result<(), Stop>
    ensures ok { OnOk result (lists.new.items ≡ lists.old.items ++ items ∷ []) }
    ensures memory { IfErr result (λ stop. stop ≡ OutOfMemory) }
{
    match lists.push(items) {
        Ok(()) => Ok(()),
        Err(_) => Err(Stop::Memory),
    }
}

/// Takes from each lane what lies below a safe mark.
pub(crate) fn take_all<B: Bench>(
    alloc: Global,
    bench: &mut B,
    last: Mark,
    mark: Mark,
) -> Result<ItemLists, Stop>
    requires lanes { LanesAreAt None last (B.known bench.old) }
    requires safe { IsSafe mark (B.known bench.old) }
    requires later { IsAtMost last mark }
    ensures hands { (texts : Option (List (List ℕ))) → LanesAreAt texts last (B.known bench.old)
        → IfOk result (AllHandOver texts last mark (B.known bench.old)) }
    ensures lanes { (texts : Option (List (List ℕ))) → LanesAreAt texts last (B.known bench.old)
        → OnOk result (LanesAreAt texts mark (B.known bench.new)) }
    ensures goes { LanesGo (B.known bench.old) (B.known bench.new) }
    ensures parts { PartsRest (B.known bench.old) (B.known bench.new) }
    ensures went { OnOk result (Went (B.known bench.old) (B.known bench.new)) }
    ensures stops { IfErr result (λ stop. StopsBy stop (B.known bench.old) (B.known bench.new)) }
    ensures gave { OnOk result (AllGaveOut mark (B.known bench.old) (B.known bench.new)) }
    ensures handed { IfOk result (λ lists. LanesHand (sizes lists)
        (B.known bench.old) (B.known bench.new)) }
    ensures none_handed { OnErr result (AllHandOut 0 (B.known bench.old) (B.known bench.new)) }
    ensures notes { OnOk result (NotesLanes (λ s. Took mark ∷ [])
        (B.known bench.old) (B.known bench.new)) }
    ensures broken_notes { OnErr result (NotesLanesFront (λ s. Took mark ∷ [])
        (B.known bench.old) (B.known bench.new)) }
{
    let count = bench.lanes();
    let mut lists = Vec::new(alloc);
    for s in 0..count {
        let items = take_one(bench, s, last, mark)?;
        add_items(&mut lists, items)?;
    }
    Ok(ItemLists::of(lists))
}
