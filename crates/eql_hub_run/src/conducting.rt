//! The conductor's own run by the first hand, with a crew of other hands at work beside it.
ghost use Rattle.std.specs.Prelude.{◌≡◌, ◌≤◌, All, IfSome, IsSomeAnd, length};
ghost use Rattle.eql_conductor.specs.Records.{ConductorRan};
ghost use Rattle.eql_conductor.specs.Runs.{MayKeepIf, MayRun};
ghost use Rattle.eql_hub_run.specs.Workers.{HasPlayed, MayStart};

use crate::workers::{Worker, play_crew};
use eql_conductor::{Bench, Conductor, Run, Stop};
use eql_hands::Gate;
use eql_hub::{Bell, Hub};
use eql_outside::{Disk, Sink, Source};
use eql_values::LineReader;
use std::alloc::Global;
use std::sync::Wait;
use std::sync::ledger::Ledger;
use std::thread::{Threads, join_mut};

// How many lines or events a step of a hand plays at most: a quarter of what the conductor does, and no more than a few. A hand
// keeps its lane so long, and so the conductor waits no longer for it.
fn hand_batch(batch: u32) -> u32
    ensures from { 1 ≤ result }
    ensures to { result ≤ 4096 }
{
    (batch / 4).clamp(1, 32)
}

// Plays rounds, and has the bell tell the hands when the run begins and that it has ended.
fn run_with_bell<B: Bench, K: Sink, D: Disk>(
    alloc: Global,
    bell: &Bell,
    bench: &mut B,
    run: &mut Run<D>,
    sink: &mut K,
) -> Result<(), Stop>
    requires may { MayRun run.old.plan (B.known bench.old) run.old.book }
    requires keeps { MayKeepIf D.history D.fault_count run.old.plan
        (B.known bench.old) run.old.keep }
    ensures { ConductorRan K.Sink D.Disk (B.known bench.old) (B.known bench.new)
        sink.old sink.new run.old run.new result }
{
    bell.begin();
    let ended = Conductor::run(alloc, &run.plan, bench, &mut run.book, sink, &mut run.keep);
    bell.end();
    ended
}

/// Plays rounds over the bench in this thread, and steps of the workers' hands in others. The workers go into their thread and
/// come back with what their hands did.
pub(crate) fn play_beside<
    R: Threads + Wait + Sync,
    S: Source + Send + Sync,
    L: LineReader + Send + Sync,
    G: Ledger + Send + Sync,
    B: Bench,
    K: Sink,
    D: Disk,
    W: Gate + Sync,
>(
    rt: &R,
    alloc: Global,
    hub: &Hub<S, L, G>,
    bell: &Bell,
    bench: B,
    workers: Vec<Worker<S, L, G>>,
    run: &mut Run<D>,
    sink: &mut K,
    gate: &W,
) -> (Result<(), Stop>, B, Vec<Worker<S, L, G>>)
    requires may { MayRun run.old.plan (B.known bench) run.old.book }
    requires keeps { MayKeepIf D.history D.fault_count run.old.plan (B.known bench) run.old.keep }
    requires start { All (MayStart hub.now) workers.items }
    ensures ran { ConductorRan K.Sink D.Disk (B.known bench) (B.known result.1)
        sink.old sink.new run.old run.new result.0 }
    ensures played { All (HasPlayed hub.now) result.2.items }
    ensures count { length result.2.items ≡ length workers.items }
{
    let mut bench = bench;
    if workers.is_empty() {
        let ended = run_with_bell(alloc, bell, &mut bench, run, sink);
        return (ended, bench, workers);
    }
    let batch = hand_batch(run.plan.batch);
    let mut crew = Some(workers);
    let (workers, ended) = join_mut(
        rt,
        &mut move || -> Vec<Worker<S, L, G>>
            requires { IsSomeAnd crew (λ workers. All (MayStart hub.now) workers.items)
                × (1 ≤ batch) × (batch ≤ 4096) }
            ensures { IfSome crew.entry (λ workers. All (HasPlayed hub.entry.now) result.items
                × (length result.items ≡ length workers.items)) }
        { play_crew(rt, crew.take(), hub, bell, batch, gate) },
        &mut || run_with_bell(alloc, bell, &mut bench, run, sink),
    );
    (ended, bench, workers)
}
