//! The reading half of a round: the lanes are fed and looked at, and where the least low is greater than the last mark, what lies
//! below it is taken.
ghost use Rattle.std.specs.Prelude.{◌≤◌, None, IfErr, IfOk, OnErr};
ghost use Rattle.eql_conductor.specs.Going.{LanesGo, StopsBy};
ghost use Rattle.eql_conductor.specs.LaneRounds.{LanesAreAt};
ghost use Rattle.eql_conductor.specs.Reading.{TakesRound, TakingBreaks};

use crate::bench::Bench;
use crate::feeding::{feed_all, look_all};
use crate::round::take_in_order;
use crate::run::Conductor;
use crate::stop::Stop;
use eql_values::{Items, Mark};
use std::alloc::Global;

/// What a round took from the lanes.
#[derive(Drop)]
pub struct TakenRound {
    /// The mark of the round: below it no event of a lane can come any more.
    pub mark: Mark,
    /// The events below the mark that have routes, in ascending order.
    pub items: Items,
}

impl Conductor {
    /// The reading half of a round. Each lane is fed once, a batch of 1 to 4,096 lines, and looked at. Where the least low is
    /// greater than the last mark, what lies below it is taken from each lane. Returns none where the round doesn't count.
    pub fn take_round<B: Bench>(
        alloc: Global,
        bench: &mut B,
        last: Mark,
        batch: u32,
    ) -> Result<Option<TakenRound>, Stop>
        requires batch { (1 ≤ batch) × (batch ≤ 4096) }
        requires lanes { LanesAreAt None last (B.known bench.old) }
        ensures round { IfOk result (TakesRound last batch
            (B.known bench.old) (B.known bench.new)) }
        ensures broken { OnErr result (TakingBreaks last batch
            (B.known bench.old) (B.known bench.new)) }
        ensures goes { LanesGo (B.known bench.old) (B.known bench.new) }
        ensures stops { IfErr result (λ stop.
            StopsBy stop (B.known bench.old) (B.known bench.new)) }
    {
        feed_all(bench, batch)?;
        let mark = look_all(bench)?;
        if mark <= last {
            return Ok(None);
        }
        let items = take_in_order(alloc, bench, last, mark)?;
        Ok(Some(TakenRound { mark, items }))
    }
}
