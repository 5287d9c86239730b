//! The run.
ghost use Rattle.std.specs.Prelude.{◌≡◌, ◌≤◌, IfNone, IfSome, length};
ghost use Rattle.eql_conductor.specs.GoingOn.{AreOfTexts};
ghost use Rattle.eql_conductor.specs.Lists.{known_in};
ghost use Rattle.eql_conductor.specs.Runs.{MayKeepIf, MayRun};
ghost use Rattle.eql_hub_run.specs.Beside.{RanBeside};
ghost use Rattle.eql_hub_run.specs.Conducted.{MayConduct, opened};

use crate::conducting::play_beside;
use crate::gathering::{join_all, told};
use crate::helping::helping;
use crate::opening::HubOpening;
use crate::splitting::split_off;
use crate::workers::Worker;
use eql_conductor::{Run, Stop};
use eql_hands::Gate;
use eql_hub::{Bell, Hand, Hub, TurnedPart};
use eql_lane::Lane;
use eql_lock_bench::{LockBench, LockOpening};
use eql_outside::{Disk, Sink, Source};
use eql_values::LineReader;
use std::alloc::Global;
use std::marker::Brand;
use std::sync::Wait;
use std::sync::ledger::Ledger;
use std::thread::Threads;

// Plays rounds over a hub by its first hand, and steps of the workers' hands beside it. Joins all hands, and closes the hub.
fn run_over<
    R: Threads + Wait + Sync,
    S: Source + Send + Sync,
    L: LineReader + Send + Sync,
    G: Ledger + Send + Sync,
    T: LockOpening<S, L>,
    K: Sink,
    D: Disk,
    W: Gate + Sync,
>(
    rt: &R,
    alloc: Global,
    hub: Hub<S, L, G>,
    hand: Hand<S, L, G>,
    workers: Vec<Worker<S, L, G>>,
    run: &mut Run<D>,
    sink: &mut K,
    gate: &W,
) -> (Result<(), Stop>, Vec<Lane<S, L>>)
    requires opening { (hub ≡ T.hub) × (hand ≡ T.hand) }
    requires may { MayConduct S.Source L.LineReader D.Disk T.text hub hand workers.items run.old }
    ensures { RanBeside S.Source L.LineReader K.Sink D.Disk T.text (opened hand).lanes
        result.1.items (opened hand).parts sink.old sink.new run.old run.new result.0 }
{
    let bell = Bell::new();
    let bench: LockBench<R, S, L, G, T> = LockBench::new(rt, &hub, &bell, hand);
    let (ended, bench, workers) = play_beside(
        rt, alloc, &hub, &bell, bench, workers, run, sink, gate,
    );
    let answer = told(ended, &workers);
    let mut first = bench.into_hand();
    join_all(&hub, &mut first, workers);
    let (lanes, _) = hub.close(first);
    (answer, lanes)
}

/// Plays rounds over lanes and parts until each shard was read to its end or something is refused, with at most so many hands
/// beside the conductor, themselves at most 65,536, each on a thread of its own. A hand feeds lanes and turns parts where something
/// is to be done, and sleeps where nothing is. There are no more hands than can help: none where the files are short, and no more
/// than there are further processors and files. Where memory is short there are fewer, and where no thread can be made they play
/// apart from the conductor.
///
/// `None` is returned where there is no memory for the hub: nothing was played then. The lanes come back in their order. Of
/// how the conductor ended and of the faults that the hands met the one of the least status is told, and of several of that
/// status the conductor's. What is promised of this is that a read fault which any of them met is told.
///
/// `T` names the texts of the lanes for contracts. A caller passes `Brand` and picks them.
pub fn run_hub<
    R: Threads + Wait + Sync,
    S: Source + Send + Sync,
    L: LineReader + Send + Sync,
    G: Ledger + Send + Sync,
    T: HubOpening<S, L>,
    K: Sink,
    D: Disk,
    W: Gate + Sync,
>(
    rt: &R,
    alloc: Global,
    lanes: Vec<Lane<S, L>>,
    parts: Vec<TurnedPart<G>>,
    hands: u32,
    run: &mut Run<D>,
    sink: &mut K,
    gate: &W,
) -> (Option<Result<(), Stop>>, Vec<Lane<S, L>>)
    requires few { length lanes.items ≤ 256 }
    requires hands { hands ≤ 65536 }
    requires texts { AreOfTexts S.left T.text lanes.items }
    requires may { MayRun run.old.plan (known_in L.read_of T.text lanes.items parts.items)
        run.old.book }
    requires keeps { MayKeepIf D.history D.fault_count run.old.plan
        (known_in L.read_of T.text lanes.items parts.items) run.old.keep }
    ensures ran { IfSome result.0 (RanBeside S.Source L.LineReader K.Sink D.Disk T.text
        lanes.items result.1.items parts.items sink.old sink.new run.old run.new) }
    ensures unplayed { IfNone result.0 ((result.1.items ≡ lanes.items)
        × (sink.new ≡ sink.old) × (run.new ≡ run.old)) }
{
    let hands = helping(rt, lanes.as_slice(), hands);
    match Hub::make(alloc, lanes, parts) {
        Err((_, lanes)) => (None, lanes),
        Ok((hub, hand)) => {
            let _ = hand.lane_count();
            let _ = hand.part_count();
            let mut hand = hand;
            let workers = split_off(alloc, &hub, &mut hand, hands);
            let (ended, lanes) = run_over::<R, S, L, G, Brand, K, D, W>(
                rt, alloc, hub, hand, workers, run, sink, gate,
            );
            (Some(ended), lanes)
        }
    }
}
