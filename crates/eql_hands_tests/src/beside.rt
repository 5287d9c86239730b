//! A search whose hands have to play steps: two shards of which each is read only once the other one is asked too.
ghost use Rattle.std.specs.Prelude.{◌≡◌, All, IfOk, None, length, true};
ghost use Rattle.eql_book.specs.Laws.{fresh_cut};
ghost use Rattle.eql_stages.specs.Planned.{line_of, planned_query};
ghost use Rattle.eql_hands_tests.specs.Fresh.{AreTwo};

use crate::meeting::{Flag, MeetingSource};
use crate::opening::{fresh_lane, source_over};
use crate::plans::plan_of;
use eql_book::Book;
use eql_conductor::{Run, RunPlan, Stop};
use eql_cut::CutHead;
use eql_hands::NoGate;
use eql_lane::Lane;
use eql_outside::{MemDisk, MemSink, Source};
use eql_search::{Rules, search};
use eql_stages::{Plan, PlanReader};
use eql_values::{BookCut, Holders, LineReader, Mark, Memory, NameKinds, PipeStates, Pipes, Text};
use std::alloc::Global;
use std::sync::atomic::{AtomicBool, Ordering};
use std::sync::{Arc, Wait};
use std::test::Fail;
use std::thread::Threads;

/// A plan of a run from the start, without cuts, over two shards in batches of 256.
fn run_plan(alloc: Global) -> RunPlan
    ensures batch { result.batch ≡ 256 }
    ensures every { result.every ≡ None }
    ensures mark { result.mark ≡ Mark.Start }
{
    RunPlan {
        batch: 256,
        every: None,
        head: CutHead {
            query: Text::of(String::new(alloc)),
            mapping: NameKinds::of(Vec::new(alloc)),
            tie: None,
            slack: 0,
            shards: 2,
        },
        mark: Mark::Start,
    }
}

/// A book with no pipes, to which nothing was added.
fn fresh_book(alloc: Global) -> Result<Book, Memory>
    ensures kept { IfOk result (λ book. book.kept ≡ fresh_cut book.pipes) }
    ensures whole { IfOk result (λ book. book.whole ≡ true) }
{
    let from = BookCut {
        found: 0,
        listed: 0,
        pipes: PipeStates::of(Vec::new(alloc)),
    };
    Book::new(alloc, Pipes::of(Vec::new(alloc)), from, false)
}

/// Searches two lanes for single events, with four hands and no checkpoint.
fn search_two<R: Threads + Wait + Sync, S: Source + Send + Sync>(
    rt: &R,
    alloc: Global,
    lanes: &mut Vec<Lane<S, PlanReader>>,
    sink: &mut MemSink,
) -> Result<(), Stop>
    requires two { AreTwo ⟦<PlanReader as LineReader>⟧.read_of lanes.old.items }
{
    let Ok(book) = fresh_book(alloc) else {
        return Err(Stop::Memory);
    };
    let plan = run_plan(alloc);
    let none = Holders::of(Vec::new(alloc));
    let rules = Rules {
        stages: 1,
        span: None,
    };
    let mut run: Run<MemDisk> = Run {
        plan,
        book,
        keep: None,
    };
    search(rt, alloc, lanes, rules, none, &mut run, 4, sink, &NoGate)
}

/// Lanes over two sources, the first one's shard 0 and the other one's 1.
fn two_lanes(
    alloc: Global,
    plan: &Plan,
    first: MeetingSource,
    second: MeetingSource,
) -> Result<Vec<Lane<MeetingSource, PlanReader>>, Fail>
    ensures { IfOk result (λ lanes. AreTwo ⟦<PlanReader as LineReader>⟧.read_of lanes.items) }
{
    let first = fresh_lane(alloc, plan, first, 0)?;
    let second = fresh_lane(alloc, plan, second, 1)?;
    Ok(vec![in alloc; first, second]?)
}

/// A flag that isn't raised.
fn flag(alloc: Global) -> Result<Flag, Fail> {
    match Arc::new(alloc, AtomicBool::new(false)) {
        Ok(flag) => Ok(flag),
        Err(_) => Err(Fail::new("no flag")),
    }
}

/// The same flag.
fn same(flag: &Flag) -> Result<Flag, Fail> {
    match Arc::try_clone(flag) {
        Ok(flag) => Ok(flag),
        Err(_) => Err(Fail::new("no flag")),
    }
}

/// A source over a text that meets another one.
fn meeting(
    alloc: Global,
    text: &[u8],
    mine: &Flag,
    other: &Flag,
    missed: &Flag,
) -> Result<MeetingSource, Fail> {
    Ok(MeetingSource {
        source: source_over(alloc, text)?,
        asked: false,
        mine: same(mine)?,
        other: same(other)?,
        missed: same(missed)?,
    })
}

/// The event of each shard.
static FIRST: &[u8] = b"{\"@timestamp\":1,\"event\":{\"category\":\"a\"}}\n";

static SECOND: &[u8] = b"{\"@timestamp\":2,\"event\":{\"category\":\"a\"}}\n";

/// Whoever asks one source first stays there until the other one is asked. So a conductor whose hands play no steps can't end.
#[test]
fn hands_of_a_search_play_steps(rt: HostRuntime) -> Result<(), Fail> {
    let alloc = rt.alloc();
    let (one, two, missed) = (flag(alloc)?, flag(alloc)?, flag(alloc)?);
    let plan = plan_of(alloc, b"any where true")?;
    let first = meeting(alloc, FIRST, &one, &two, &missed)?;
    let second = meeting(alloc, SECOND, &two, &one, &missed)?;
    let mut lanes = two_lanes(alloc, &plan, first, second)?;
    let mut sink = MemSink::new(alloc, Vec::new(alloc));
    let ended = search_two(&rt, alloc, &mut lanes, &mut sink);
    assert!(rt; matches!(ended, Ok(())));
    assert_eq!(rt; sink.bytes().as_slice(), b"1 [] 0:1\n2 [] 1:1\n".as_slice());
    assert!(rt; !missed.load(Ordering::SeqCst));
    Ok(())
}
