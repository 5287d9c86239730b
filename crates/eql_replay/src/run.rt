//! A run of the conductor over a bench of lists.
ghost use Rattle.std.specs.Prelude.{◌≡◌, ◌≢◌, ℕ, Some, Err, slice_get};
ghost use Rattle.eql_outside.specs.Unfailing.{IsUnfailing};
ghost use Rattle.eql_lane.specs.Views.{LaneView};
ghost use Rattle.eql_conductor.specs.declared.stop.Stop.TheVariants.{Read, Worn};
ghost use Rattle.eql_conductor.specs.Records.{ConductorRan, run_of};
ghost use Rattle.eql_conductor.specs.Runs.{MayKeepIf, MayRun};
ghost use Rattle.eql_replay.specs.Listed.{bench_known};

use crate::list_bench::ListBench;
use crate::opening::Opening;
use eql_book::Book;
use eql_conductor::{Conductor, Keep, RunPlan, Stop};
use eql_outside::{Disk, Sink, Source};
use eql_values::LineReader;
use std::alloc::Global;
use std::sync::ledger::Ledger;

/// Plays rounds over the lanes and parts of a bench until each shard was read to its end or something is refused, whatever
/// others play in between.
pub fn replay<S: Source, L: LineReader, G: Ledger, T: Opening<S, L>, K: Sink, D: Disk>(
    alloc: Global,
    plan: &RunPlan,
    bench: &mut ListBench<S, L, G, T>,
    book: &mut Book,
    sink: &mut K,
    keep: &mut Option<Keep<D>>,
) -> Result<(), Stop>
    requires may { MayRun plan.now (bench_known L.read_of T.text bench.old) book.old }
    requires keeps { MayKeepIf D.history D.fault_count plan.now
        (bench_known L.read_of T.text bench.old) keep.old }
    ensures ran { ConductorRan K.Sink D.Disk
        (bench_known L.read_of T.text bench.old) (bench_known L.read_of T.text bench.new)
        sink.old sink.new (run_of plan.now book.old keep.old)
        (run_of plan.now book.new keep.new) result }
    ensures not_worn { result ≢ Err Worn }
    ensures planned { (s : ℕ) (lane : LaneView S L) → slice_get T.lanes s ≡ Some lane
        → IsUnfailing (S.fault_plan lane.source) → result ≢ Err (Read s) }
{
    let ended = Conductor::run(alloc, plan, bench, book, sink, keep);
    bench.fails_as_planned();
    ended
}
