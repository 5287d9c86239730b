//! Hands that play on threads of their own.
ghost use Rattle.std.specs.Prelude.{◌≡◌, ◌≤◌, All, IfSome, IsSomeAnd, length};
ghost use Rattle.eql_hub_run.specs.Workers.{HasPlayed, MayStart};

use eql_hands::{Gate, run_hand};
use eql_hub::{Bell, Hand, HandFault, Hub};
use eql_outside::Source;
use eql_values::LineReader;
use std::marker::Model;
use std::sync::Wait;
use std::sync::ledger::Ledger;
use std::thread;
use std::thread::Threads;

/// A hand that plays beside the conductor, the number by which it passes the gate, and the fault that it met.
#[derive(Drop)]
pub(crate) struct Worker<S: Source, L: LineReader, G: Ledger> {
    pub(crate) hand: Option<Hand<S, L, G>>,
    pub(crate) number: u32,
    pub(crate) met: Option<HandFault>,
}

impl<S: Source, L: LineReader, G: Ledger> Model for Worker<S, L, G> {
    ghost use Rattle.eql_hub_run.specs.Workers.{WorkerView};

    ghost Value = { WorkerView S L };

    ghost view = { λ w. record { hand = w.hand; number = w.number; met = w.met } };
}

/// Plays steps of the worker's hand until it is to stop.
pub(crate) fn play<R: Wait, S: Source, L: LineReader, G: Ledger, W: Gate>(
    rt: &R,
    worker: &mut Worker<S, L, G>,
    hub: &Hub<S, L, G>,
    bell: &Bell,
    batch: u32,
    gate: &W,
)
    requires start { MayStart hub.now worker.old }
    requires batch_from { 1 ≤ batch }
    requires batch_to { batch ≤ 4096 }
    ensures { HasPlayed hub.now worker.new }
{
    match worker.hand.take() {
        None => unreachable!(),
        Some(hand) => {
            let (hand, met) = run_hand(rt, hub, bell, hand, worker.number, batch, gate);
            worker.hand = Some(hand);
            worker.met = met;
        }
    }
}

/// Plays steps of all hands, each on a thread of its own where one can be made, until each is to stop.
pub(crate) fn play_all<
    R: Threads + Wait + Sync,
    S: Source + Send + Sync,
    L: LineReader + Send + Sync,
    G: Ledger + Send + Sync,
    W: Gate + Sync,
>(rt: &R, workers: &mut [Worker<S, L, G>], hub: &Hub<S, L, G>, bell: &Bell, batch: u32, gate: &W)
    requires start { All (MayStart hub.now) workers.old }
    requires batch_from { 1 ≤ batch }
    requires batch_to { batch ≤ 4096 }
    ensures played { All (HasPlayed hub.now) workers.new }
    ensures count { length workers.new ≡ length workers.old }
{
    let threads = workers.len().max(1);
    thread::for_each_mut(
        rt,
        workers,
        threads,
        &|_, worker: &mut Worker<S, L, G>|
            requires { MayStart hub.now worker.now × (1 ≤ batch) × (batch ≤ 4096) }
            ensures { HasPlayed hub.entry.now worker.exit.now }
        { play(rt, worker, hub, bell, batch, gate) },
    );
}

/// Plays all hands of a crew that is handed over, and hands it back.
pub(crate) fn play_crew<
    R: Threads + Wait + Sync,
    S: Source + Send + Sync,
    L: LineReader + Send + Sync,
    G: Ledger + Send + Sync,
    W: Gate + Sync,
>(
    rt: &R,
    crew: Option<Vec<Worker<S, L, G>>>,
    hub: &Hub<S, L, G>,
    bell: &Bell,
    batch: u32,
    gate: &W,
) -> Vec<Worker<S, L, G>>
    requires start { IsSomeAnd crew (λ workers. All (MayStart hub.now) workers.items) }
    requires batch_from { 1 ≤ batch }
    requires batch_to { batch ≤ 4096 }
    ensures played { All (HasPlayed hub.now) result.items }
    ensures count { IfSome crew (λ workers. length result.items ≡ length workers.items) }
{
    match crew {
        None => unreachable!(),
        Some(mut workers) => {
            play_all(rt, workers.as_mut_slice(), hub, bell, batch, gate);
            workers
        }
    }
}
