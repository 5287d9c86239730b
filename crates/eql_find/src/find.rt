//! The run.
ghost use Rattle.std.specs.Prelude.{◌≡◌, ◌≢◌, ◌-◌, All, IfErr, IfSome, None, Some, false, length, map, ℕ, List, Option};
ghost use Rattle.eql_conductor.specs.Runs.{IsKeptUnfailing};
ghost use Rattle.eql_shards.specs.Shards.{AreWholeFiles};
ghost use Rattle.eql_outside.specs.Unfailing.{IsUnfailing, AreUnfailing};
ghost use Rattle.eql_words.specs.Bounds.{FindIsBounded};
ghost use Rattle.eql_runs.specs.Outcomes.{DiskIsSame};
ghost use Rattle.eql_find.specs.Errors.{IsFault};
ghost use Rattle.eql_find.specs.Finding.{IsPlanOf, texts_told};
ghost use Rattle.eql_find.specs.Outcomes.{FaultsAreTold, FindEnds};
ghost use Rattle.eql_find.specs.Running.{KeepsIfAsked};
ghost use Rattle.eql_find.specs.Starting.{BeginsOnDisk, IsFreshKeep};

use crate::checkpoint::{Start, give_keep, start_run};
use crate::error::FindError;
use crate::plan::{PlannedQuery, read_plan};
use crate::running::run_lanes;
use crate::stops::error_at;
use eql_ckdisk::puts_go_on;
use eql_hands::Gate;
use eql_outside::{Shelf, Sink, crashes_leave_images};
use eql_runs::{disks_hold_one_thing, spans_change_no_fit, tested_cuts_are_accepted};
use eql_shards::{give_lanes, give_sources, make_lanes, open_shards};
use eql_words::Find;
use std::alloc::Global;
use std::sync::Wait;
use std::thread::Threads;

/// Runs from what was found to begin with: makes lanes over the sources, searches them, writes the listing and then the
/// report, and gives sources and disk back.
fn run_start<'a, R: Threads + Wait + Sync, H: Shelf, K: Sink, E: Sink, W: Gate + Sync>(
    rt: &R,
    alloc: Global,
    sources: Vec<H::Src>,
    start: Start<H::Dsk>,
    planned: &PlannedQuery,
    find: &'a Find,
    shelf: &mut H,
    out: &mut K,
    err: &mut E,
    gate: &W,
) -> Result<(), FindError<'a>>
    ghost known_texts: { Option (List (List ℕ)) }
    requires told { known_texts ≡ texts_told (H.files shelf.old) find.now.shards }
    requires bounds { FindIsBounded find.now }
    requires plan { IsPlanOf find.now (H.files shelf.old) planned.now }
    requires whole { AreWholeFiles find.now.shards (H.files shelf.old)
        (map H.Src.left sources.items) }
    requires named { map H.Src.lent_as sources.items ≡ map (λ name. Some name) find.now.shards }
    requires fresh { All (λ source. H.Src.fault_count source ≡ 0) sources.items }
    requires begins { BeginsOnDisk find.now planned.now (H.disk_history shelf.old)
        start.head start.keep start.lanes.items start.rest }
    requires keeps { KeepsIfAsked H.Dsk.history find.now.checkpoint start.keep }
    requires kept { IsFreshKeep H.Dsk.history H.Dsk.fault_count
        (H.disk_history shelf.old) start.keep }
    ensures ends { FindEnds K.Sink E.Sink find.now (H.files shelf.old) (H.disk_history shelf.old)
        (H.disk_history shelf.new) out.old out.new err.old err.new result }
    ensures told { FaultsAreTold K.Sink E.Sink H.Shelf shelf.old shelf.new
        (H.disk_fault_count shelf.old) (H.disk_fault_count shelf.new)
        out.old out.new err.old err.new result }
    ensures unfailing { All (λ source. IsUnfailing (H.Src.fault_plan source)) sources.items
        → IsKeptUnfailing H.Dsk.fault_plan start.keep
        → IsUnfailing (K.fault_plan out.old) → IsUnfailing (E.fault_plan err.old)
        → IfErr result (λ error. ¬ IsFault error) }
    ensures kept { H.files shelf.new ≡ H.files shelf.old }
    ensures lent { IfSome (H.lent_count shelf.old)
        (λ n. H.lent_count shelf.new ≡ Some (n - length find.now.shards)) }
    ensures back { find.now.checkpoint ≢ None → H.is_out shelf.new ≡ false }
    ensures disk_kept { find.now.checkpoint ≡ None → DiskIsSame H.Shelf shelf.old shelf.new }
{
    crashes_leave_images();
    puts_go_on();
    disks_hold_one_thing();
    spans_change_no_fit();
    tested_cuts_are_accepted();
    let Start {
        head,
        keep,
        lanes,
        rest,
    } = start;
    let mut lanes = match make_lanes(alloc, sources, planned, find.slack, lanes, shelf) {
        Ok(lanes) => lanes,
        Err(stop) => {
            give_keep(keep, shelf);
            return Err(error_at(stop, &find.shards));
        }
    };
    let (ran, keep) = run_lanes(
        rt, alloc, &mut lanes, rest, head, keep, planned, find, out, err, gate,
    );
    give_lanes(lanes, shelf);
    give_keep(keep, shelf);
    ran
}

/// Searches the shards of these sources, from what the disk holds where there is a checkpoint, writes the listing and
/// then the report, and gives sources and disk back.
fn run_shards<'a, R: Threads + Wait + Sync, H: Shelf, K: Sink, E: Sink, W: Gate + Sync>(
    rt: &R,
    alloc: Global,
    sources: Vec<H::Src>,
    planned: &PlannedQuery,
    find: &'a Find,
    shelf: &mut H,
    out: &mut K,
    err: &mut E,
    gate: &W,
) -> Result<(), FindError<'a>>
    requires bounds { FindIsBounded find.now }
    requires plan { IsPlanOf find.now (H.files shelf.old) planned.now }
    requires whole { AreWholeFiles find.now.shards (H.files shelf.old)
        (map H.Src.left sources.items) }
    requires named { map H.Src.lent_as sources.items ≡ map (λ name. Some name) find.now.shards }
    requires fresh { All (λ source. H.Src.fault_count source ≡ 0) sources.items }
    ensures ends { FindEnds K.Sink E.Sink find.now (H.files shelf.old) (H.disk_history shelf.old)
        (H.disk_history shelf.new) out.old out.new err.old err.new result }
    ensures told { FaultsAreTold K.Sink E.Sink H.Shelf shelf.old shelf.new
        (H.disk_fault_count shelf.old) (H.disk_fault_count shelf.new)
        out.old out.new err.old err.new result }
    ensures unfailing { All (λ source. IsUnfailing (H.Src.fault_plan source)) sources.items
        → IsUnfailing (H.fault_plan shelf.old)
        → (find.now.checkpoint ≢ None → IsUnfailing (H.disk_plan shelf.old))
        → IsUnfailing (K.fault_plan out.old) → IsUnfailing (E.fault_plan err.old)
        → IfErr result (λ error. ¬ IsFault error) }
    ensures kept { H.files shelf.new ≡ H.files shelf.old }
    ensures lent { IfSome (H.lent_count shelf.old)
        (λ n. H.lent_count shelf.new ≡ Some (n - length find.now.shards)) }
    ensures back { H.is_out shelf.old ≡ false → H.is_out shelf.new ≡ false }
    ensures disk_kept { find.now.checkpoint ≡ None → DiskIsSame H.Shelf shelf.old shelf.new }
{
    puts_go_on();
    disks_hold_one_thing();
    spans_change_no_fit();
    match start_run(alloc, planned, find, shelf) {
        Ok(start) => run_start(
            rt, alloc, sources, start, planned, find, shelf, out, err, gate,
        ),
        Err(error) => {
            give_sources(sources, shelf);
            Err(error)
        }
    }
}

/// Runs `find`: reads the query and the mapping, searches the shards, writes the listing to `out` and then the report
/// to `err`. With a checkpoint it goes on from the cut that the shelf's disk holds, or begins afresh where that holds
/// none, and puts cuts on the disk. What the shelf lent goes back to it, the disk too.
///
/// On `Ok` listing and report are there whole, the listing from the line after those that the cut counts. Else `out`
/// got a front of the listing, nothing at all where the files, the disk or its cut are refused, and `err` nothing. Where the
/// report alone was refused the listing is there whole, and `err` got a front of the report.
pub fn find_matches<'a, R: Threads + Wait + Sync, H: Shelf, K: Sink, E: Sink, W: Gate + Sync>(
    rt: &R,
    alloc: Global,
    find: &'a Find,
    shelf: &mut H,
    out: &mut K,
    err: &mut E,
    gate: &W,
) -> Result<(), FindError<'a>>
    requires { FindIsBounded find.now }

    // What was written, why it stopped, and what the disk came to hold.
    ensures ends { FindEnds K.Sink E.Sink find.now (H.files shelf.old) (H.disk_history shelf.old)
        (H.disk_history shelf.new) out.old out.new err.old err.new result }

    // No fault is passed over, nor a disk that is held.
    ensures told { FaultsAreTold K.Sink E.Sink H.Shelf shelf.old shelf.new
        (H.disk_fault_count shelf.old) (H.disk_fault_count shelf.new)
        out.old out.new err.old err.new result }
    ensures unfailing { IsUnfailing (H.fault_plan shelf.old)
        → AreUnfailing (H.source_plans shelf.old)
        → (find.now.checkpoint ≢ None → IsUnfailing (H.disk_plan shelf.old))
        → IsUnfailing (K.fault_plan out.old) → IsUnfailing (E.fault_plan err.old)
        → IfErr result (λ error. ¬ IsFault error) }

    // What stays of the shelf, and that all that it lent came back.
    ensures kept { H.files shelf.new ≡ H.files shelf.old }
    ensures lent { IfSome (H.lent_count shelf.old) (λ n. H.lent_count shelf.new ≡ Some n) }
    ensures back { H.is_out shelf.old ≡ false → H.is_out shelf.new ≡ false }
    ensures disk_kept { find.now.checkpoint ≡ None → DiskIsSame H.Shelf shelf.old shelf.new }
{
    let planned = match read_plan(alloc, find, shelf) {
        Ok(planned) => planned,
        Err(error) => return Err(FindError::Files(error)),
    };
    match open_shards(alloc, &find.shards, shelf) {
        Ok(sources) => run_shards(rt, alloc, sources, &planned, find, shelf, out, err, gate),
        Err(error) => Err(FindError::Files(error)),
    }
}
