//! Further hands, split off the first one.
ghost use Rattle.std.specs.Prelude.{◌≤◌, All, length};
ghost use Rattle.eql_conductor.specs.Lists.{PoolView};
ghost use Rattle.eql_hub.specs.Hands.{IsFirst, Knows};
ghost use Rattle.eql_hub_run.specs.Gathers.{IsUnplayedHand};
ghost use Rattle.eql_hub_run.specs.Workers.{IsWhole, MayStart};

use crate::workers::Worker;
use eql_hub::{Hand, Hub};
use eql_outside::Source;
use eql_values::LineReader;
use std::alloc::Global;
use std::sync::ledger::Ledger;

/// As many workers as are wanted, each with a hand that is split off the first one. Where memory is short there are fewer.
pub(crate) fn split_off<S: Source, L: LineReader, G: Ledger>(
    alloc: Global,
    hub: &Hub<S, L, G>,
    hand: &mut Hand<S, L, G>,
    hands: u32,
) -> Vec<Worker<S, L, G>>
    ghost pool: { PoolView S L }
    requires own { IsWhole hub.now hand.old }
    requires knows { Knows S.left S.lent_as S.fault_plan L.read_of hand.old }
    requires unplayed { IsUnplayedHand 0 pool.lanes pool.parts hand.old }
    ensures own { IsWhole hub.now hand.new }
    ensures first { IsFirst hand.new }
    ensures knows { Knows S.left S.lent_as S.fault_plan L.read_of hand.new }
    ensures unplayed { IsUnplayedHand (length result.items) pool.lanes pool.parts hand.new }
    ensures start { All (MayStart hub.now) result.items }
    ensures count { length result.items ≤ hands }
{
    let Ok(mut workers) = Vec::with_capacity(alloc, hands as usize) else {
        return Vec::new(alloc);
    };
    for place in 0..hands {
        let Ok(other) = hub.split_hand(alloc, hand) else {
            break;
        };
        workers.push_reserved(Worker {
            hand: Some(other),
            number: place + 1,
            met: None,
        });
    }
    workers
}
