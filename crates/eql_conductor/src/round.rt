//! The part of a round behind the mark, call by call: what lies below the mark is taken, and of it the events that have routes are
//! put in order and played by the parts. What they find is put in order.
ghost use Rattle.std.specs.Prelude.{◌≡◌, ◌≤◌, ◌∷◌, [], ℕ, List, Option, None, IfErr, IfOk, OnErr, OnOk};
ghost use Rattle.eql_values.specs.declared.found.Holder.{Holder};
ghost use Rattle.eql_laws.specs.Lateness.{IsAtMost};
ghost use Rattle.eql_parts.specs.PartSteps.{CanDeliver, Rules};
ghost use Rattle.eql_conductor.specs.Benches.{LanesRest, PartsRest, StaysSame};
ghost use Rattle.eql_conductor.specs.Bounds.{AllGaveOut};
ghost use Rattle.eql_conductor.specs.Fitting.{TakesFitting};
ghost use Rattle.eql_conductor.specs.Going.{LanesGo, StopsBy, Went};
ghost use Rattle.eql_conductor.specs.Handed.{AllHandOut};
ghost use Rattle.eql_conductor.specs.LaneRounds.{IsSafe, LanesAreAt};
ghost use Rattle.eql_conductor.specs.PartRounds.{AreAtRest, AreSomehowAtRest, pending_after};
ghost use Rattle.eql_conductor.specs.RoundNotes.{NotesLanesFront, NotesLanes, NotesParts, delivered_to};
ghost use Rattle.eql_conductor.specs.Rounds.{found_by};
ghost use Rattle.eql_conductor.specs.declared.note.Note.TheVariants.{Took};

use crate::bench::Bench;
use crate::fitting::merge_fitting;
use crate::playing::{collect_all, deliver_all, turn_all};
use crate::stop::Stop;
use crate::taking::take_all;
use eql_merge::merge_matches;
use eql_values::{Items, Mark, Matches};
use std::alloc::Global;

/// Takes from each lane what lies below a safe mark, and puts the events that have routes in order.
pub(crate) fn take_in_order<B: Bench>(
    alloc: Global,
    bench: &mut B,
    last: Mark,
    mark: Mark,
) -> Result<Items, Stop>
    requires lanes { LanesAreAt None last (B.known bench.old) }
    requires safe { IsSafe mark (B.known bench.old) }
    requires later { IsAtMost last mark }
    ensures taken { IfOk result (TakesFitting last mark
        (B.known bench.old) (B.known bench.new)) }
    ensures lanes { (texts : Option (List (List ℕ))) → LanesAreAt texts last (B.known bench.old)
        → OnOk result (LanesAreAt texts mark (B.known bench.new)) }
    ensures goes { LanesGo (B.known bench.old) (B.known bench.new) }
    ensures parts { PartsRest (B.known bench.old) (B.known bench.new) }
    ensures went { OnOk result (Went (B.known bench.old) (B.known bench.new)) }
    ensures stops { IfErr result (λ stop. StopsBy stop (B.known bench.old) (B.known bench.new)) }
    ensures gave { OnOk result (AllGaveOut mark (B.known bench.old) (B.known bench.new)) }
    ensures none_handed { OnErr result (AllHandOut 0 (B.known bench.old) (B.known bench.new)) }
    ensures notes { OnOk result (NotesLanes (λ s. Took mark ∷ [])
        (B.known bench.old) (B.known bench.new)) }
    ensures broken_notes { OnErr result (NotesLanesFront (λ s. Took mark ∷ [])
        (B.known bench.old) (B.known bench.new)) }
{
    let lists = take_all(alloc, bench, last, mark)?;
    match merge_fitting(alloc, lists) {
        Ok(items) => Ok(items),
        Err(_) => Err(Stop::Memory),
    }
}

/// Has the events played by the parts. Returns what they find, in order.
pub(crate) fn play_parts<B: Bench>(
    alloc: Global,
    bench: &mut B,
    items: &Items,
    last: Mark,
    mark: Mark,
    batch: u32,
) -> Result<Matches, Stop>
    requires batch { (1 ≤ batch) × (batch ≤ 4096) }
    requires can { CanDeliver last items.now mark }
    requires some { AreSomehowAtRest last (B.known bench.old) }
    ensures found { (rules : Rules) (all : List Holder)
        → AreAtRest rules all last (B.known bench.old)
        → IfOk result (λ found. found ≡ found_by rules all items.now) }
    ensures parts { (rules : Rules) (all : List Holder)
        → AreAtRest rules all last (B.known bench.old)
        → OnOk result (AreAtRest rules (pending_after rules all items.now) mark
        (B.known bench.new)) }
    ensures same { StaysSame (B.known bench.old) (B.known bench.new) }
    ensures lanes { LanesRest (B.known bench.old) (B.known bench.new) }
    ensures went { OnOk result (Went (B.known bench.old) (B.known bench.new)) }
    ensures stops { IfErr result (λ stop. StopsBy stop (B.known bench.old) (B.known bench.new)) }
    ensures notes { NotesParts (delivered_to items.now) 3
        (B.known bench.old) (B.known bench.new) }
{
    deliver_all(alloc, bench, items, last, mark)?;
    turn_all(bench, items, mark, batch)?;
    let lists = collect_all(alloc, bench, items, mark)?;
    match merge_matches(alloc, lists) {
        Ok(found) => Ok(found),
        Err(_) => Err(Stop::Memory),
    }
}
