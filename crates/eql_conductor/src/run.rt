//! A run of the conductor: round after round, until all shards were read.
ghost use Rattle.std.specs.Prelude.{◌≡◌, ◌≢◌, None, Err, false, true, IfErr, OnErr, OnOk};
ghost use Rattle.eql_outside.specs.Unfailing.{IsUnfailing};
ghost use Rattle.eql_outside.specs.Written.{WroteAll, WroteFront};
ghost use Rattle.eql_book.specs.Books.{held_back};
ghost use Rattle.eql_book.specs.Listing.{listing};
ghost use Rattle.eql_conductor.specs.declared.stop.Stop.TheVariants.{Disk as DiskFailed, Write as SinkFailed};
ghost use Rattle.eql_conductor.specs.Going.{LanesGo};
ghost use Rattle.eql_conductor.specs.Outputs.{output_of};
ghost use Rattle.eql_conductor.specs.Rounds.{StopsOut, TellsSink};
ghost use Rattle.eql_conductor.specs.Records.{ConductorRan, Ran, run_of};
ghost use Rattle.eql_conductor.specs.Running.{RanAll};
ghost use Rattle.eql_conductor.specs.Runs.{EndsBy, IsKeptUnfailing, MayKeepIf, MayRun, disk_faults};

use crate::bench::Bench;
use crate::plan::{Keep, RunPlan};
use crate::stepping::play_and_keep;
use crate::stop::Stop;
use eql_book::Book;
use eql_outside::{Disk, OutRefused, Sink};
use eql_values::Mark;
use std::alloc::Global;

/// What plays the lanes and the parts of a bench in rounds.
pub struct Conductor {}

// Plays rounds until one comes to the end of all lanes.
fn play_rounds<B: Bench, K: Sink, D: Disk>(
    alloc: Global,
    plan: &RunPlan,
    bench: &mut B,
    book: &mut Book,
    sink: &mut K,
    keep: &mut Option<Keep<D>>,
) -> Result<(), Stop>
    requires may { MayRun plan.now (B.known bench.old) book.old }
    requires keeps { MayKeepIf D.history D.fault_count plan.now (B.known bench.old) keep.old }
    ensures ran { OnOk result (RanAll D.history D.fault_count plan.now
        (B.known bench.old) (B.known bench.new) book.old book.new
        (output_of K.Sink sink.old) (output_of K.Sink sink.new) keep.old keep.new) }
    ensures stopped { IfErr result (λ stop. Ran D.history D.fault_count plan.now
        (B.known bench.old) (B.known bench.new) book.old book.new
        (output_of K.Sink sink.old) (output_of K.Sink sink.new) keep.old keep.new (Err stop)) }
    ensures cause { EndsBy result (B.known bench.old) (B.known bench.new)
        (K.fault_count sink.old) (K.fault_count sink.new)
        (disk_faults D.history D.fault_count keep.old)
        (disk_faults D.history D.fault_count keep.new) }
    ensures goes { LanesGo (B.known bench.old) (B.known bench.new) }
    ensures silent { K.written sink.old ≡ None → K.written sink.new ≡ None }
    ensures unfailing { IsUnfailing (K.fault_plan sink.old)
        → (result ≢ Err SinkFailed) × IsUnfailing (K.fault_plan sink.new) }
    ensures unfailing_disk { IsKeptUnfailing D.fault_plan keep.old
        → (result ≢ Err DiskFailed) × IsKeptUnfailing D.fault_plan keep.new }
{
    book.fits();
    // There are fewer lanes than 2^32, so that the rounds end long before the loop does.
    bench.lanes();
    let mut last = plan.mark;
    let mut count = 0;
    for round in 0..u128::MAX {
        if let Some(mark) = play_and_keep(alloc, plan, bench, book, sink, keep, last, count)? {
            if mark == Mark::End {
                return Ok(());
            }
            last = mark;
            count += 1;
        }
    }
    unreachable!()
}

// Writes what the book holds back until the end.
fn end_book<K: Sink>(alloc: Global, book: &mut Book, sink: &mut K) -> Result<(), Stop>
    requires whole { book.old.whole ≡ true }
    ensures still { OnOk result (book.new ≡ book.old) }
    ensures lines { OnOk result (WroteAll (listing book.old.places (held_back book.old))
        (K.written sink.old) (K.written sink.new)) }
    ensures spoilt { OnErr result (book.new.whole ≡ false) }
    ensures front { OnErr result (WroteFront (listing book.old.places (held_back book.old))
        (K.written sink.old) (K.written sink.new)) }
    ensures keeps { K.kept sink.new ≡ K.kept sink.old }
    ensures out { IfErr result StopsOut }
    ensures faults { TellsSink K.Sink sink.old sink.new result }
{
    match book.end(alloc, sink) {
        Ok(()) => Ok(()),
        Err(OutRefused::Failed) => Err(Stop::Write),
        Err(OutRefused::Memory) => Err(Stop::Memory),
    }
}

impl Conductor {
    /// Plays rounds until each shard was read to its end or something is refused. A round feeds each
    /// lane, looks at each, takes what lies below the least low, has it played by the parts, and gives
    /// what they find to the book. Every so many rounds that took something a cut is put, once the
    /// lines that it counts are kept.
    pub fn run<B: Bench, K: Sink, D: Disk>(
        alloc: Global,
        plan: &RunPlan,
        bench: &mut B,
        book: &mut Book,
        sink: &mut K,
        keep: &mut Option<Keep<D>>,
    ) -> Result<(), Stop>
        requires may { MayRun plan.now (B.known bench.old) book.old }
        requires keeps { MayKeepIf D.history D.fault_count plan.now (B.known bench.old) keep.old }

        // What was written and kept, and which cuts were put, why it ended, what stays of lanes and
        // parts, and that sink and disk go on as they are planned.
        ensures ran { ConductorRan K.Sink D.Disk (B.known bench.old) (B.known bench.new)
            sink.old sink.new (run_of plan.now book.old keep.old)
            (run_of plan.now book.new keep.new) result }
    {
        play_rounds(alloc, plan, bench, book, sink, keep)?;
        end_book(alloc, book, sink)
    }
}
