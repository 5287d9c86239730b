//! Runs by a plan over texts in memory: afresh, or from a cut that fits.
ghost use Rattle.std.specs.Prelude.{◌≡◌, ◌≤◌, IfOk, IfSome, IsTrue, None, true};
ghost use Rattle.eql_lane.specs.Slacks.{greatest_slack_ms};
ghost use Rattle.eql_book.specs.Laws.{fresh_cut};
ghost use Rattle.eql_cut.specs.CutValues.{names_ascend};
ghost use Rattle.eql_cut.specs.Domain.{IsCut};
ghost use Rattle.eql_replay_tests.specs.Opens.{MayKeepBy};

use crate::opening::{fresh_lanes, lanes_from};
use crate::parts::Sought;
use crate::running::run_over;
use eql_book::Book;
use eql_conductor::{Keep, RunPlan, Stop, cuts_may_begin};
use eql_cut::{Cut, CutHead, fits};
use eql_outside::{Disk, MemDisk, MemSink};
use eql_replay::Foreigns;
use eql_stages::Plan;
use eql_values::{BookCut, Holders, Mark, Memory, NameKinds, PipeStates, Pipes, Text};
use std::alloc::Global;
use std::test::Fail;

/// The greatest slack, in milliseconds.
const GREATEST_SLACK: u64 = 3_153_600_000_000;

/// How a run goes.
#[derive(Clone, Copy)]
pub(crate) struct Way {
    /// The slack, in milliseconds.
    pub(crate) slack: Option<u64>,
    /// How many lines are read at once.
    pub(crate) batch: u32,
    /// After how many rounds a cut is kept.
    pub(crate) every: Option<u32>,
}

/// Whether a run may have the slack.
fn is_slack(slack: Option<u64>) -> bool
    ensures { IsTrue result → IfSome slack (λ ms. ms ≤ greatest_slack_ms) }
{
    match slack {
        None => true,
        Some(ms) => ms <= GREATEST_SLACK,
    }
}

/// What a plan seeks.
pub(crate) fn sought_by(plan: &Plan) -> Sought {
    Sought {
        stages: plan.stages(),
        span: plan.span(),
    }
}

/// What the cuts of a run say of it.
pub(crate) fn head_of(alloc: Global, slack: Option<u64>, lanes: usize) -> Result<CutHead, Fail>
    ensures names { IfOk result (λ head. IsTrue (names_ascend head.mapping)) }
    ensures shards { IfOk result (λ head. head.shards ≡ lanes) }
{
    let shards = u32::try_from(lanes)?;
    Ok(CutHead {
        query: Text::of(String::from_str(alloc, "q")?),
        mapping: NameKinds::of(Vec::new(alloc)),
        tie: None,
        slack: slack.unwrap_or(0),
        shards,
    })
}

/// A book with no pipes, to which nothing was added.
pub(crate) fn fresh_book(alloc: Global) -> Result<Book, Memory>
    ensures kept { IfOk result (λ book. book.kept ≡ fresh_cut book.pipes) }
    ensures whole { IfOk result (λ book. book.whole ≡ true) }
{
    let from = BookCut {
        found: 0,
        listed: 0,
        pipes: PipeStates::of(Vec::new(alloc)),
    };
    let book = Book::new(alloc, Pipes::of(Vec::new(alloc)), from, false)?;
    Ok(book)
}

/// Runs afresh.
pub(crate) fn run_fresh(
    alloc: Global,
    plan: &Plan,
    texts: &Vec<Vec<u8>>,
    way: Way,
    plays: Vec<Foreigns>,
    sink: &mut MemSink,
    keep: &mut Option<Keep<MemDisk>>,
) -> Result<Result<(), Stop>, Fail>
    requires keeps { MayKeepBy ⟦<MemDisk as Disk>⟧.history way.every keep.old }
{
    if !is_slack(way.slack) {
        return Err(Fail::new("no such slack"));
    }
    let lanes = fresh_lanes(alloc, plan, texts, way.slack)?;
    let go = RunPlan {
        batch: way.batch,
        every: way.every,
        head: head_of(alloc, way.slack, lanes.len())?,
        mark: Mark::Start,
    };
    let mut book = fresh_book(alloc)?;
    let none = Holders::of(Vec::new(alloc));
    run_over(
        alloc,
        &go,
        sought_by(plan),
        lanes,
        &none,
        plays,
        &mut book,
        sink,
        keep,
    )
}

/// Runs on from a cut that fits.
pub(crate) fn run_from(
    alloc: Global,
    plan: &Plan,
    texts: &Vec<Vec<u8>>,
    way: Way,
    plays: Vec<Foreigns>,
    cut: Cut,
    sink: &mut MemSink,
    keep: &mut Option<Keep<MemDisk>>,
) -> Result<Result<(), Stop>, Fail>
    requires cut { IsCut cut }
    requires keeps { MayKeepBy ⟦<MemDisk as Disk>⟧.history way.every keep.old }
{
    let pipes = Pipes::of(Vec::new(alloc));
    let sought = sought_by(plan);
    if !fits(&cut, sought.stages, plan.keys(), &pipes) {
        return Err(Fail::new("the cut doesn't fit"));
    }
    let slack = cut.head.slack;
    if way.slack != Some(slack) || GREATEST_SLACK < slack {
        return Err(Fail::new("the cut has another slack"));
    }
    cuts_may_begin();
    let lanes = lanes_from(alloc, plan, texts, slack, &cut.lanes)?;
    let go = RunPlan {
        batch: way.batch,
        every: way.every,
        head: head_of(alloc, Some(slack), lanes.len())?,
        mark: Mark::At(cut.mark),
    };
    let mut book = Book::new(alloc, pipes, cut.book, false)?;
    run_over(
        alloc,
        &go,
        sought,
        lanes,
        &cut.holders,
        plays,
        &mut book,
        sink,
        keep,
    )
}
