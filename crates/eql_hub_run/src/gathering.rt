//! What is told of several faults, and all hands joined into the first one.
ghost use Rattle.std.specs.Prelude.{◌≡◌, All, List};
ghost use Rattle.eql_hub.specs.Hands.{HandView, IsFirst};
ghost use Rattle.eql_hub_run.specs.Beside.{rank};
ghost use Rattle.eql_hub_run.specs.Gathers.{GathersHands, HandsAre, IsLeastOf, stop_of_fault};
ghost use Rattle.eql_hub_run.specs.Workers.{HasPlayed, IsNoRead, IsWhole};

use crate::workers::Worker;
use eql_conductor::Stop;
use eql_hub::{Hand, HandFault, Hub};
use eql_outside::Source;
use eql_values::LineReader;
use std::sync::ledger::Ledger;

// The order of ends by their statuses, the one that is told first at 0.
fn order_of(end: Result<(), Stop>) -> u32
    ensures { result ≡ rank end }
{
    match end {
        Err(Stop::Read { shard: _ }) => 0,
        Err(Stop::Write) => 1,
        Err(Stop::Disk) => 2,
        Err(Stop::Memory) => 3,
        Err(Stop::Limit(_)) => 4,
        Err(Stop::Generation) => 4,
        Err(Stop::Worn) => 4,
        Ok(()) => 5,
    }
}

// How a run stops by the fault of a hand.
fn stop_of(met: HandFault) -> Stop
    ensures { result ≡ stop_of_fault met }
{
    match met {
        HandFault::Read { shard } => Stop::Read { shard },
        HandFault::Memory => Stop::Memory,
        HandFault::Limit(of) => Stop::Limit(of),
        HandFault::Worn => Stop::Worn,
    }
}

/// What is told: how the conductor ended, or the first fault of a hand that comes before that in the order of statuses.
pub(crate) fn told<S: Source, L: LineReader, G: Ledger>(
    ended: Result<(), Stop>,
    workers: &[Worker<S, L, G>],
) -> Result<(), Stop>
    ensures { IsLeastOf ended workers.now result }
{
    let mut answer = ended;
    for worker in workers {
        if let Some(met) = worker.met {
            let by = stop_of(met);
            if order_of(Err(by)) < order_of(answer) {
                answer = Err(by);
            }
        }
    }
    answer
}

/// Takes the hands of all workers into the first one.
pub(crate) fn join_all<S: Source, L: LineReader, G: Ledger>(
    hub: &Hub<S, L, G>,
    hand: &mut Hand<S, L, G>,
    workers: Vec<Worker<S, L, G>>,
)
    requires own { IsWhole hub.now hand.old }
    requires first { IsFirst hand.old }
    requires played { All (HasPlayed hub.now) workers.items }
    ensures own { IsWhole hub.now hand.new }
    ensures first { IsFirst hand.new }
    ensures gathered { (hands : List (HandView S L)) × HandsAre workers.items hands
        × GathersHands (All (λ w. IsNoRead w.met) workers.items) hands hand.old hand.new }
{
    let mut workers = workers;
    while let Some(worker) = workers.pop() {
        match worker.hand {
            None => unreachable!(),
            Some(other) => hub.join_hand(hand, other),
        }
    }
}
