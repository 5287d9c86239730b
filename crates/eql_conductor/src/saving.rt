//! A cut of all lanes, parts and the book between two rounds, put on the disk once the lines that it counts are kept.
ghost use Rattle.std.specs.Prelude.{◌≡◌, ◌≢◌, ◌^◌, ◌∷◌, [], true, List, ℕ, Option, None, Err, IfErr, IfOk, IfSome, OnErr, OnOk};
ghost use Rattle.eql_values.specs.declared.found.Holder.{Holder};
ghost use Rattle.eql_values.specs.declared.order.Mark.TheVariants.{At as AtTime};
ghost use Rattle.eql_parts.specs.PartSteps.{Rules};
ghost use Rattle.eql_cut.specs.Domain.{IsCut};
ghost use Rattle.eql_ckdisk.specs.Cuts.{Holds};
ghost use Rattle.eql_ckdisk.specs.Found.{next};
ghost use Rattle.eql_ckdisk.specs.Putting.{Stands, last_cut};
ghost use Rattle.eql_conductor.specs.declared.stop.Stop.TheVariants.{Disk as DiskFailed, Generation, Memory as OutOfMemory};
ghost use Rattle.eql_conductor.specs.Benches.{Rests};
ghost use Rattle.eql_conductor.specs.Going.{LanesGo, StopsBy, Went};
ghost use Rattle.eql_conductor.specs.LaneRounds.{LanesAreAt};
ghost use Rattle.eql_conductor.specs.Outputs.{KeepsAll, output_of};
ghost use Rattle.eql_conductor.specs.PartRounds.{AreAtRest, AreSomehowFull};
ghost use Rattle.eql_conductor.specs.RunNotes.{NotesSaveFront, NotesSave};
ghost use Rattle.eql_conductor.specs.Rounds.{StopsKeeping, StopsOut, StopsSaving, TellsSink};
ghost use Rattle.eql_conductor.specs.Saving.{BookKeepsNumbers, IsHeadOf, IsSavedAt, SavesNoCut, PutsCuts, SavesCut, TellsDisk};

use crate::bench::Bench;
use crate::plan::Keep;
use crate::snapping::{snap_lanes, snap_parts};
use crate::standing::types_say;
use crate::stop::Stop;
use eql_book::Book;
use eql_ckdisk::{CkRefused, put};
use eql_cut::{Cut, CutHead};
use eql_outside::{Disk, OutRefused, Sink};
use eql_values::{Holders, LaneCuts, Memory};
use std::alloc::Global;

// A copy of what a cut says of its run.
fn copy_head(head: &CutHead) -> Result<CutHead, Memory>
    ensures { IfOk result (λ copy. copy ≡ head.now) }
{
    let query = head.query.clone()?;
    let mapping = head.mapping.clone()?;
    let tie = head.tie.clone()?;
    Ok(CutHead {
        query,
        mapping,
        tie,
        slack: head.slack,
        shards: head.shards,
    })
}

// The cut of these lanes and pending sequences, and of the book.
fn cut_of(
    alloc: Global,
    head: &CutHead,
    book: &Book,
    time: i128,
    lanes: LaneCuts,
    holders: Holders,
) -> Result<Cut, Memory>
    requires whole { book.now.whole ≡ true }
    ensures { IfOk result (λ cut. cut ≡ record {
      head = head.now;
      mark = time;
      lanes = lanes;
      holders = holders;
      book = book.now.kept;
    }) }
{
    let head = copy_head(head)?;
    let book = book.cut(alloc)?;
    Ok(Cut {
        head,
        mark: time,
        lanes,
        holders,
        book,
    })
}

// Takes a cut of lanes and parts that rest at a time, and of the book.
fn take_cut<B: Bench>(
    alloc: Global,
    head: &CutHead,
    bench: &mut B,
    book: &Book,
    time: i128,
) -> Result<Cut, Stop>
    requires lanes { LanesAreAt None (AtTime time) (B.known bench.old) }
    requires some { AreSomehowFull (AtTime time) (B.known bench.old) }
    requires whole { book.now.whole ≡ true }
    requires numbers { BookKeepsNumbers book.now.kept }
    requires head { IsHeadOf head.now (B.known bench.old) }
    ensures saved { IfOk result (λ cut. IsSavedAt head.now time (B.known bench.old) book.now cut) }
    ensures rests { Rests (B.known bench.old) (B.known bench.new) }
    ensures went { OnOk result (Went (B.known bench.old) (B.known bench.new)) }
    ensures stops { IfErr result (λ stop. StopsBy stop (B.known bench.old) (B.known bench.new)) }
    ensures notes { OnOk result (NotesSave (B.known bench.old) (B.known bench.new)) }
    ensures broken_notes { OnErr result (NotesSaveFront (B.known bench.old) (B.known bench.new)) }
{
    let lanes = snap_lanes(alloc, bench)?;
    let holders = snap_parts(alloc, bench, time)?;
    match cut_of(alloc, head, book, time, lanes, holders) {
        Ok(cut) => {
            types_say(&cut);
            Ok(cut)
        }
        Err(_) => Err(Stop::Memory),
    }
}

// Has all that was written kept.
fn keep_written<K: Sink>(alloc: Global, sink: &mut K) -> Result<(), Stop>
    ensures same { K.written sink.new ≡ K.written sink.old }
    ensures kept { OnOk result
        (KeepsAll (output_of K.Sink sink.old) (output_of K.Sink sink.new)) }
    ensures refused { OnErr result (K.kept sink.new ≡ K.kept sink.old) }
    ensures out { IfErr result StopsOut }
    ensures faults { TellsSink K.Sink sink.old sink.new result }
{
    match sink.keep(alloc) {
        Ok(()) => Ok(()),
        Err(OutRefused::Failed) => Err(Stop::Write),
        Err(OutRefused::Memory) => Err(Stop::Memory),
    }
}

// Puts a cut on the disk.
fn put_cut<D: Disk>(alloc: Global, keep: &mut Keep<D>, cut: &Cut) -> Result<(), Stop>
    requires stands { Stands (last_cut keep.old.state) (D.history keep.old.disk) }
    requires is { IsCut cut.now }
    ensures puts { PutsCuts (last_cut keep.old.state) (cut.now ∷ [])
        (D.history keep.old.disk) (D.history keep.new.disk) }
    ensures next { OnOk result (last_cut keep.new.state ≡ next (last_cut keep.old.state)) }
    ensures holds { OnOk result (IfSome (D.history keep.new.disk)
        (λ k. Holds (last_cut keep.new.state) cut.now k.now)) }
    ensures stands { OnOk result
        (Stands (last_cut keep.new.state) (D.history keep.new.disk)) }
    ensures same { OnErr result (last_cut keep.new.state ≡ last_cut keep.old.state) }
    ensures stands_yet { IfErr result (λ stop. (stop ≢ DiskFailed) → (stop ≢ OutOfMemory)
        → Stands (last_cut keep.new.state) (D.history keep.new.disk)) }
    ensures stops { IfErr result StopsKeeping }
    ensures full { result ≡ Err Generation
        → (last_cut keep.new.state).generation ≡ 2 ^ 63 }
    ensures faults { TellsDisk D.Disk keep.old.disk keep.new.disk result }
{
    match put(alloc, &mut keep.disk, &mut keep.state, cut) {
        Ok(()) => Ok(()),
        Err(CkRefused::DiskFault) => Err(Stop::Disk),
        Err(CkRefused::Memory) => Err(Stop::Memory),
        Err(CkRefused::Generation) => Err(Stop::Generation),
        Err(CkRefused::Damaged { .. } | CkRefused::Foreign { .. }) => unreachable!(),
    }
}

/// Takes a cut of lanes and parts that rest at a time, and of the book, has kept what was written,
/// and puts the cut on the disk.
pub(crate) fn save<B: Bench, K: Sink, D: Disk>(
    alloc: Global,
    head: &CutHead,
    bench: &mut B,
    book: &Book,
    sink: &mut K,
    keep: &mut Keep<D>,
    time: i128,
) -> Result<(), Stop>
    requires lanes { LanesAreAt None (AtTime time) (B.known bench.old) }
    requires some { AreSomehowFull (AtTime time) (B.known bench.old) }
    requires whole { book.now.whole ≡ true }
    requires numbers { BookKeepsNumbers book.now.kept }
    requires head { IsHeadOf head.now (B.known bench.old) }
    requires stands { Stands (last_cut keep.old.state) (D.history keep.old.disk) }
    ensures lanes { (texts : Option (List (List ℕ)))
        → LanesAreAt texts (AtTime time) (B.known bench.old)
        → OnOk result (LanesAreAt texts (AtTime time) (B.known bench.new)) }
    ensures parts { (rules : Rules) (all : List Holder)
        → AreAtRest rules all (AtTime time) (B.known bench.old)
        → OnOk result (AreAtRest rules all (AtTime time) (B.known bench.new)) }
    ensures saved { OnOk result (SavesCut head.now time (B.known bench.old) book.now
        (output_of K.Sink sink.old) (output_of K.Sink sink.new)
        keep.old.state keep.new.state (D.history keep.old.disk) (D.history keep.new.disk)) }
    ensures not_saved { OnErr result (SavesNoCut head.now time (B.known bench.old) book.now
        (output_of K.Sink sink.old) (output_of K.Sink sink.new)
        keep.old.state keep.new.state (D.history keep.old.disk) (D.history keep.new.disk)) }
    ensures goes { LanesGo (B.known bench.old) (B.known bench.new) }
    ensures went { OnOk result (Went (B.known bench.old) (B.known bench.new)) }
    ensures stops { IfErr result (λ stop.
        StopsSaving stop (B.known bench.old) (B.known bench.new)) }
    ensures notes { OnOk result (NotesSave (B.known bench.old) (B.known bench.new)) }
    ensures broken_notes { OnErr result (NotesSaveFront (B.known bench.old) (B.known bench.new)) }
    ensures full { result ≡ Err Generation
        → (last_cut keep.new.state).generation ≡ 2 ^ 63 }
    ensures stands_yet { IfErr result (λ stop. (stop ≢ DiskFailed) → (stop ≢ OutOfMemory)
        → Stands (last_cut keep.new.state) (D.history keep.new.disk)) }
    ensures same { K.written sink.new ≡ K.written sink.old }
    ensures sink_faults { TellsSink K.Sink sink.old sink.new result }
    ensures faults { TellsDisk D.Disk keep.old.disk keep.new.disk result }
{
    let cut = take_cut(alloc, head, bench, book, time)?;
    keep_written(alloc, sink)?;
    put_cut(alloc, keep, &cut)
}
