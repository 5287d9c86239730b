//! A run over lanes: what is pending gets its places, the lanes are searched, and the report is written.
ghost use Rattle.std.specs.Prelude.{◌≡◌, ◌⊎◌, ℕ, List, Option, IfErr, IfOk, OnErr, OnOk, map, true};
ghost use Rattle.std.specs.List.{AllZip};
ghost use Rattle.eql_outside.specs.Unfailing.{IsUnfailing};
ghost use Rattle.eql_book.specs.Books.{FitsPipes};
ghost use Rattle.eql_conductor.specs.Runs.{IsKeptUnfailing};
ghost use Rattle.eql_cut.specs.Placing.{LinesAscend};
ghost use Rattle.eql_search.specs.Answers.{AreUnfailing as AreLanesUnfailing};
ghost use Rattle.eql_words.specs.Bounds.{FindIsBounded};
ghost use Rattle.eql_find.specs.Errors.{IsFault};
ghost use Rattle.eql_find.specs.LaneOutcomes.{LaneFaultsAreTold, LanesRun};
ghost use Rattle.eql_find.specs.LaneOutcomes.{StaysSource};
ghost use Rattle.eql_find.specs.Running.{BeginsAs, BeginsRun, every_asked, rest_over};
ghost use Rattle.eql_find.specs.Searching.{bare, places_in};
ghost use Rattle.eql_find.specs.Starting.{pipes_of};

use crate::error::FindError;
use crate::plan::PlannedQuery;
use crate::stops::error_of;
use eql_book::Book;
use eql_conductor::{Keep, Run, RunPlan, cuts_may_begin};
use eql_cut::{CutHead, lifted_cuts_fit};
use eql_hands::Gate;
use eql_inputs::InputError;
use eql_lane::Lane;
use eql_outside::{Disk, Sink, Source};
use eql_resume::{Pending, lifted_lanes_are_placed};
use eql_runs::{matches_are_counted, spans_change_no_fit};
use eql_search::{Rules, search};
use eql_shards::write_report;
use eql_stages::PlanReader;
use eql_values::{BookCut, Holders, LineReader, Mark, Memory, PlaceLists};
use eql_words::Find;
use std::alloc::Global;
use std::sync::Wait;
use std::thread::Threads;

/// The places of wanted lines that lanes keep, taken out of them.
fn places_of<S: Source, L: LineReader>(
    alloc: Global,
    lanes: &mut Vec<Lane<S, L>>,
) -> Result<PlaceLists, Memory>
    ensures places { IfOk result (λ lists. lists ≡ places_in lanes.old.items) }
    ensures taken { OnOk result (lanes.new.items ≡ map bare lanes.old.items) }
    ensures untouched { OnErr result (lanes.new ≡ lanes.old) }
{
    let mut lists = Vec::with_capacity(alloc, lanes.len())?;
    for shard in 0..lanes.len() {
        lists.push_reserved(lanes[shard].places());
    }
    Ok(PlaceLists::of(lists))
}

/// The mark, the pending sequences and the book of a search that begins with these, with the places that its lanes found.
fn begin_rest<S: Source, L: LineReader>(
    alloc: Global,
    lanes: &mut Vec<Lane<S, L>>,
    rest: Pending,
    planned: &PlannedQuery,
    find: &Find,
) -> Result<(Mark, Holders, Book), Memory>
    requires ascend { LinesAscend (places_in lanes.old.items) }
    requires fits { FitsPipes (pipes_of planned.now) (rest_over lanes.old.items rest).book }
    ensures begins { IfOk result (λ begun. BeginsAs find.now planned.now
        (rest_over lanes.old.items rest) begun.0 begun.1 begun.2) }
    ensures taken { OnOk result (lanes.new.items ≡ map bare lanes.old.items) }
    ensures lanes { (lanes.new.items ≡ lanes.old.items)
        ⊎ (lanes.new.items ≡ map bare lanes.old.items) }
{
    let places = places_of(alloc, lanes)?;
    let placed = rest.place(alloc, places)?;
    let (mark, holders, kept) = placed.into_parts();
    let book = book_of(alloc, planned, kept, find.places)?;
    Ok((mark, holders, book))
}

/// The book of a run that goes on from what a cut keeps of it.
fn book_of(
    alloc: Global,
    planned: &PlannedQuery,
    from: BookCut,
    places: bool,
) -> Result<Book, Memory>
    requires { FitsPipes (pipes_of planned.now) from }
    ensures { IfOk result (λ book. book
        ≡ record { pipes = pipes_of planned.now; places = places; kept = from; whole = true }) }
{
    let pipes = planned.plan.pipes().clone()?;
    Book::new(alloc, pipes, from, places)
}

/// After how many rounds a run keeps a cut, where it keeps any.
fn every_of(find: &Find) -> Option<u32>
    ensures { result ≡ every_asked find.now }
{
    match &find.checkpoint {
        Some(checkpoint) => Some(checkpoint.every),
        None => None,
    }
}

/// Searches the lanes, which began as a run was found to begin, writes the listing and then the report, and keeps cuts where
/// that is asked for.
pub(crate) fn run_lanes<
    'a,
    R: Threads + Wait + Sync,
    S: Source + Send + Sync,
    K: Sink,
    E: Sink,
    D: Disk,
    W: Gate + Sync,
>(
    rt: &R,
    alloc: Global,
    lanes: &mut Vec<Lane<S, PlanReader>>,
    rest: Pending,
    head: CutHead,
    keep: Option<Keep<D>>,
    planned: &PlannedQuery,
    find: &'a Find,
    out: &mut K,
    err: &mut E,
    gate: &W,
) -> (Result<(), FindError<'a>>, Option<Keep<D>>)
    ghost known_texts: { Option (List (List ℕ)) }
    requires bounds { FindIsBounded find.now }
    requires begins { BeginsRun S.left ⟦<PlanReader as LineReader>⟧.read_of D.history
        known_texts find.now planned.now lanes.old.items rest head keep }

    // What was written, which cuts were put, and why the run stopped.
    ensures ends { LanesRun K.Sink E.Sink D.Disk known_texts find.now planned.now lanes.old.items
        rest head out.old out.new err.old err.new keep result.1 result.0 }
    ensures lanes { AllZip (StaysSource S.left S.lent_as) lanes.old.items lanes.new.items }

    // No fault is passed over.
    ensures told { LaneFaultsAreTold K.Sink E.Sink D.Disk find.now lanes.old.items lanes.new.items
        out.old out.new err.old err.new keep result.1 result.0 }
    ensures unfailing { AreLanesUnfailing S.fault_plan lanes.old.items
        → IsUnfailing (K.fault_plan out.old) → IsUnfailing (E.fault_plan err.old)
        → IsKeptUnfailing D.fault_plan keep → IfErr result.0 (λ error. ¬ IsFault error) }
{
    cuts_may_begin();
    lifted_cuts_fit();
    lifted_lanes_are_placed();
    spans_change_no_fit();
    matches_are_counted();
    let (mark, holders, book) = match begin_rest(alloc, lanes, rest, planned, find) {
        Ok(begun) => begun,
        Err(_) => return (Err(FindError::Files(InputError::Memory)), keep),
    };
    let plan = RunPlan {
        batch: find.batch,
        every: every_of(find),
        head,
        mark,
    };
    let mut run = Run { plan, book, keep };
    let rules = Rules {
        stages: planned.plan.stages(),
        span: planned.plan.span(),
    };
    match search(
        rt, alloc, lanes, rules, holders, &mut run, find.hands, out, gate,
    ) {
        Ok(()) => match write_report(alloc, lanes, err) {
            Ok(()) => (Ok(()), run.keep),
            Err(refused) => (Err(FindError::Report(refused)), run.keep),
        },
        Err(stop) => (Err(error_of(stop, &find.shards)), run.keep),
    }
}
