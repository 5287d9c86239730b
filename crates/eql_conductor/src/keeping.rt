//! A cut between two rounds, every so many of them.
ghost use Rattle.std.specs.Prelude.{◌≡◌, ◌≢◌, ◌≤◌, ◌%◌, ◌↔◌, Some, Err, IfErr, IfSome, IsSomeAnd, IsTrue, OnOk};
ghost use Rattle.eql_outside.specs.Outside.{Rose};
ghost use Rattle.eql_ckdisk.specs.Putting.{Stands, last_cut};
ghost use Rattle.eql_conductor.specs.declared.stop.Stop.TheVariants.{Disk as DiskFailed};
ghost use Rattle.eql_conductor.specs.Going.{LanesGo, Went};
ghost use Rattle.eql_conductor.specs.Outputs.{output_of};
ghost use Rattle.eql_conductor.specs.Rounds.{StopsSaving, TellsSink};
ghost use Rattle.eql_conductor.specs.RunNotes.{cut_after};
ghost use Rattle.eql_conductor.specs.Running.{CutGoes, CutStops, IsAtMark, KeepStands, time_in};
ghost use Rattle.eql_conductor.specs.Runs.{IsKeptUnfailing, disk_faults};
ghost use Rattle.eql_conductor.specs.Saving.{IsHeadOf, TellsDisk};

use crate::bench::Bench;
use crate::plan::{Keep, RunPlan};
use crate::saving::save;
use crate::stop::Stop;
use eql_book::Book;
use eql_cut::CutHead;
use eql_outside::{Disk, Sink};
use eql_values::Mark;
use std::alloc::Global;

// Whether a cut is kept after so many counted rounds.
fn is_due(every: Option<u32>, count: u128) -> bool
    requires { IfSome every (λ n. 1 ≤ n) }
    ensures { IsTrue result ↔ IsSomeAnd every (λ n. count % n ≡ 0) }
{
    match every {
        Some(n) => count % u128::from(n) == 0,
        None => false,
    }
}

// Keeps a cut where the mark is a time.
fn keep_at<B: Bench, K: Sink, D: Disk>(
    alloc: Global,
    head: &CutHead,
    bench: &mut B,
    book: &Book,
    sink: &mut K,
    keep: &mut Keep<D>,
    mark: Mark,
) -> Result<(), Stop>
    requires at { IsAtMark mark (B.known bench.old) book.now }
    requires head { IsHeadOf head.now (B.known bench.old) }
    requires stands { Stands (last_cut keep.old.state) (D.history keep.old.disk) }
    ensures goes_on { OnOk result (CutGoes D.history D.fault_count head.now mark (time_in mark)
        (B.known bench.old) (B.known bench.new) book.now
        (output_of K.Sink sink.old) (output_of K.Sink sink.new)
        (Some keep.old) (Some keep.new)) }
    ensures stopped { IfErr result (CutStops D.history D.fault_count head.now mark (time_in mark)
        (B.known bench.old) (B.known bench.new) book.now
        (output_of K.Sink sink.old) (output_of K.Sink sink.new)
        (Some keep.old) (Some keep.new)) }
    ensures goes { LanesGo (B.known bench.old) (B.known bench.new) }
    ensures went { OnOk result (Went (B.known bench.old) (B.known bench.new)) }
    ensures stops { IfErr result (λ stop.
        StopsSaving stop (B.known bench.old) (B.known bench.new)) }
    ensures same { K.written sink.new ≡ K.written sink.old }
    ensures sink_faults { TellsSink K.Sink sink.old sink.new result }
    ensures faults { TellsDisk D.Disk keep.old.disk keep.new.disk result }
{
    match mark {
        Mark::At(time) => save(alloc, head, bench, book, sink, keep, time),
        Mark::Start | Mark::End => Ok(()),
    }
}

/// Keeps a cut where one is due after so many counted rounds and the mark is a time.
pub(crate) fn keep_cut<B: Bench, K: Sink, D: Disk>(
    alloc: Global,
    plan: &RunPlan,
    bench: &mut B,
    book: &Book,
    sink: &mut K,
    keep: &mut Option<Keep<D>>,
    mark: Mark,
    count: u128,
) -> Result<(), Stop>
    requires every { IfSome plan.now.every (λ n. 1 ≤ n) }
    requires at { IsAtMark mark (B.known bench.old) book.now }
    requires stands { KeepStands D.history D.fault_count plan.now (B.known bench.old) keep.old }
    ensures goes_on { OnOk result (CutGoes D.history D.fault_count plan.now.head mark
        (cut_after plan.now.every count (Some mark))
        (B.known bench.old) (B.known bench.new) book.now
        (output_of K.Sink sink.old) (output_of K.Sink sink.new) keep.old keep.new) }
    ensures stopped { IfErr result (CutStops D.history D.fault_count plan.now.head mark
        (cut_after plan.now.every count (Some mark))
        (B.known bench.old) (B.known bench.new) book.now
        (output_of K.Sink sink.old) (output_of K.Sink sink.new) keep.old keep.new) }
    ensures goes { LanesGo (B.known bench.old) (B.known bench.new) }
    ensures went { OnOk result (Went (B.known bench.old) (B.known bench.new)) }
    ensures stops { IfErr result (λ stop.
        StopsSaving stop (B.known bench.old) (B.known bench.new)) }
    ensures same { K.written sink.new ≡ K.written sink.old }
    ensures sink_faults { TellsSink K.Sink sink.old sink.new result }
    ensures cause { result ≡ Err DiskFailed
        → Rose (disk_faults D.history D.fault_count keep.old)
        (disk_faults D.history D.fault_count keep.new) }
    ensures steady { result ≢ Err DiskFailed
        → disk_faults D.history D.fault_count keep.new
        ≡ disk_faults D.history D.fault_count keep.old }
    ensures counts { disk_faults D.history D.fault_count keep.old
        ≤ disk_faults D.history D.fault_count keep.new }
    ensures unfailing { IsKeptUnfailing D.fault_plan keep.old
        → (result ≢ Err DiskFailed) × IsKeptUnfailing D.fault_plan keep.new }
{
    let Some(keep) = keep else {
        return Ok(());
    };
    if is_due(plan.every, count) {
        return keep_at(alloc, &plan.head, bench, book, sink, keep, mark);
    }
    Ok(())
}
