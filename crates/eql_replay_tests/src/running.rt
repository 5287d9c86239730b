//! A replay over lanes and parts as a run may begin with them.
ghost use Rattle.std.specs.Prelude.{◌≡◌, ◌≤◌, ◌<◌, ℕ, All, IfOk, IsTrue, None, length, true};
ghost use Rattle.eql_laws.specs.Alive.{IsSpan};
ghost use Rattle.eql_parts.specs.PartSteps.{Rules};
ghost use Rattle.eql_conductor.specs.Runs.{MayRun};
ghost use Rattle.eql_replay.specs.Listed.{bench_known};
ghost use Rattle.eql_replay.specs.Pools.{IsPlay};
ghost use Rattle.eql_replay_tests.specs.Opens.{MayKeepOver, Starts};

use crate::opening::MemLane;
use crate::parts::{PARTS, Sought, make_parts};
use eql_auto::Steps;
use eql_book::Book;
use eql_conductor::{Keep, RunPlan, Stop, cut_runs_begin, cuts_may_begin, fresh_runs_begin};
use eql_lane::Lane;
use eql_outside::{Disk, MemDisk, MemSink, MemSource};
use eql_replay::{Foreign, Foreigns, ListBench, Opening, replay};
use eql_stages::PlanReader;
use eql_values::{Holders, LineReader};
use std::alloc::Global;
use std::marker::Brand;
use std::sync::ledger::{Blank, Ledger};
use std::test::Fail;

/// Whether there is this place, and as many may be read or played.
fn is_play(lanes: u32, foreign: Foreign) -> bool
    ensures { IsTrue result → IsPlay lanes 16 foreign }
{
    match foreign {
        Foreign::Feed { lane, max } => lane < lanes && 1 <= max && max <= 4096,
        Foreign::Turn { part, max } => part < PARTS && 1 <= max && max <= 4096,
    }
}

/// Whether all of these may be played.
fn are_plays(lanes: u32, foreigns: &Foreigns) -> bool
    ensures { IsTrue result → All (IsPlay lanes 16) foreigns.now }
{
    for foreign in foreigns.items() {
        if !is_play(lanes, *foreign) {
            return false;
        }
    }
    true
}

/// Whether all plays of these lists may be.
fn may_play(lanes: u32, plays: &Vec<Foreigns>) -> bool
    ensures { IsTrue result → All (λ foreigns. All (IsPlay lanes 16) foreigns) plays.now.items }
{
    for foreigns in plays {
        if !are_plays(lanes, foreigns) {
            return false;
        }
    }
    true
}

/// Whether a span isn't negative.
fn is_span(span: Option<i128>) -> bool
    ensures { IsTrue result → IsSpan span }
{
    match span {
        None => true,
        Some(span) => 0 <= span,
    }
}

/// A bench of these lanes and of sixteen parts with these pending sequences, as a run by the plan may begin with.
pub(crate) fn open_bench<L: LineReader + Drop, G: Ledger, T: Opening<MemSource, L>>(
    alloc: Global,
    plan: &RunPlan,
    sought: Sought,
    lanes: Vec<Lane<MemSource, L>>,
    holders: &Holders,
    plays: Vec<Foreigns>,
    blank: Blank,
    book: &Book,
) -> Result<ListBench<MemSource, L, G, T>, Fail>
    requires ledger { (blank.name ≡ G.name) × (blank.parts ≡ G.parts) × (0 < G.parts) }
    requires opening { (lanes.items ≡ T.lanes) × (plays.items ≡ T.plays) }
    requires untold { (s : ℕ) → T.text s ≡ None }
    requires starts { let rules : Rules = record { stages = sought.stages; span = sought.span }
        in Starts plan.now rules lanes.items holders.now book.now }
    requires whole { book.now.whole ≡ true }
    ensures may { IfOk result (λ bench.
        MayRun plan.now (bench_known L.read_of T.text bench) book.now) }
    ensures lanes { IfOk result (λ bench. length bench.pool.lanes ≡ length lanes.items) }
{
    let count = u32::try_from(lanes.len())?;
    if !may_play(count, &plays) {
        return Err(Fail::new("no such play"));
    }
    if count == 0 || plan.batch < 1 || 4096 < plan.batch {
        return Err(Fail::new("no such run"));
    }
    if sought.stages < 1 || 256 < sought.stages || !is_span(sought.span) {
        return Err(Fail::new("no such sequence"));
    }
    cuts_may_begin();
    let (_kept, share) = blank.open::<G>();
    let mut steps = Steps::of(share);
    let parts = make_parts(alloc, sought, holders, plan.mark, &mut steps)?;
    let bench: ListBench<MemSource, L, G, T> = ListBench::new(lanes, parts, steps, plays);
    fresh_runs_begin(&bench);
    cut_runs_begin(&bench);
    Ok(bench)
}

/// Replays a run over such a bench.
fn replay_over<L: LineReader + Drop, G: Ledger, T: Opening<MemSource, L>>(
    alloc: Global,
    plan: &RunPlan,
    sought: Sought,
    lanes: Vec<Lane<MemSource, L>>,
    holders: &Holders,
    plays: Vec<Foreigns>,
    blank: Blank,
    book: &mut Book,
    sink: &mut MemSink,
    keep: &mut Option<Keep<MemDisk>>,
) -> Result<Result<(), Stop>, Fail>
    requires ledger { (blank.name ≡ G.name) × (blank.parts ≡ G.parts) × (0 < G.parts) }
    requires opening { (lanes.items ≡ T.lanes) × (plays.items ≡ T.plays) }
    requires untold { (s : ℕ) → T.text s ≡ None }
    requires starts { let rules : Rules = record { stages = sought.stages; span = sought.span }
        in Starts plan.now rules lanes.items holders.now book.old }
    requires whole { book.old.whole ≡ true }
    requires keeps { MayKeepOver ⟦<MemDisk as Disk>⟧.history plan.now (length lanes.items)
        keep.old }
{
    let mut bench: ListBench<MemSource, L, G, T> = open_bench(
        alloc, plan, sought, lanes, holders, plays, blank, book,
    )?;
    Ok(replay(alloc, plan, &mut bench, book, sink, keep))
}

/// Replays a run over lanes in memory and parts with pending sequences.
pub(crate) fn run_over(
    alloc: Global,
    plan: &RunPlan,
    sought: Sought,
    lanes: Vec<MemLane>,
    holders: &Holders,
    plays: Vec<Foreigns>,
    book: &mut Book,
    sink: &mut MemSink,
    keep: &mut Option<Keep<MemDisk>>,
) -> Result<Result<(), Stop>, Fail>
    requires starts { let rules : Rules = record { stages = sought.stages; span = sought.span }
        in Starts plan.now rules lanes.items holders.now book.old }
    requires whole { book.old.whole ≡ true }
    requires keeps { MayKeepOver ⟦<MemDisk as Disk>⟧.history plan.now (length lanes.items)
        keep.old }
{
    let blank = Blank::new(1);
    replay_over::<PlanReader, Brand, Brand>(
        alloc, plan, sought, lanes, holders, plays, blank, book, sink, keep,
    )
}
