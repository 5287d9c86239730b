//! A step of a run: a round, and a cut where one is due after it.
ghost use Rattle.std.specs.Prelude.{◌≡◌, ◌≢◌, ◌≤◌, ◌<◌, ◌-◌, ◌^◌, None, Err, IfErr, IfOk, IfSome};
ghost use Rattle.eql_outside.specs.Unfailing.{IsUnfailing};
ghost use Rattle.eql_conductor.specs.declared.stop.Stop.TheVariants.{Disk as DiskFailed, Write as SinkFailed};
ghost use Rattle.eql_conductor.specs.Bounds.{RoundSpends};
ghost use Rattle.eql_conductor.specs.Going.{LanesGo};
ghost use Rattle.eql_conductor.specs.Outputs.{output_of};
ghost use Rattle.eql_conductor.specs.RunNotes.{place};
ghost use Rattle.eql_conductor.specs.Running.{IsAtMark, KeepStands, StepIs, StepStops};
ghost use Rattle.eql_conductor.specs.Runs.{EndsBy, IsKeptUnfailing, disk_faults};

use crate::advance::play_round;
use crate::bench::Bench;
use crate::keeping::keep_cut;
use crate::plan::{Keep, RunPlan};
use crate::stop::Stop;
use eql_book::Book;
use eql_outside::{Disk, Sink};
use eql_values::Mark;
use std::alloc::Global;

/// Plays one round after so many that counted, and keeps a cut where it counts and one is due.
/// Returns the round's mark where it counts.
pub(crate) fn play_and_keep<B: Bench, K: Sink, D: Disk>(
    alloc: Global,
    plan: &RunPlan,
    bench: &mut B,
    book: &mut Book,
    sink: &mut K,
    keep: &mut Option<Keep<D>>,
    last: Mark,
    count: u128,
) -> Result<Option<Mark>, Stop>
    requires batch { (1 ≤ plan.now.batch) × (plan.now.batch ≤ 4096) }
    requires every { IfSome plan.now.every (λ n. 1 ≤ n) }
    requires at { IsAtMark last (B.known bench.old) book.old }
    requires stands { KeepStands D.history D.fault_count plan.now (B.known bench.old) keep.old }
    requires count { count < 2 ^ 128 - 1 }
    ensures step { IfOk result (StepIs D.history D.fault_count plan.now (place last count)
        (B.known bench.old) (B.known bench.new) book.old book.new
        (output_of K.Sink sink.old) (output_of K.Sink sink.new) keep.old keep.new) }
    ensures stopped { IfErr result (StepStops D.history D.fault_count plan.now (place last count)
        (B.known bench.old) (B.known bench.new) book.old book.new
        (output_of K.Sink sink.old) (output_of K.Sink sink.new) keep.old keep.new) }
    ensures spends { IfOk result (RoundSpends last (B.known bench.old) (B.known bench.new)) }
    ensures cause { EndsBy result (B.known bench.old) (B.known bench.new)
        (K.fault_count sink.old) (K.fault_count sink.new)
        (disk_faults D.history D.fault_count keep.old)
        (disk_faults D.history D.fault_count keep.new) }
    ensures goes { LanesGo (B.known bench.old) (B.known bench.new) }
    ensures silent { K.written sink.old ≡ None → K.written sink.new ≡ None }
    ensures unfailing { IsUnfailing (K.fault_plan sink.old)
        → (result ≢ Err SinkFailed) × IsUnfailing (K.fault_plan sink.new) }
    ensures unfailing_disk { IsKeptUnfailing D.fault_plan keep.old
        → (result ≢ Err DiskFailed) × IsKeptUnfailing D.fault_plan keep.new }
{
    book.fits();
    match play_round(alloc, bench, book, sink, last, plan.batch)? {
        None => Ok(None),
        Some(mark) => {
            keep_cut(alloc, plan, bench, book, sink, keep, mark, count + 1)?;
            Ok(Some(mark))
        }
    }
}
