//! The top call.
ghost use Rattle.std.specs.Prelude.{◌≡◌, ◌≢◌, ◌⊎◌, ◌≤◌, ◌<◌, None, IfSome, Some, true, false};
ghost use Rattle.eql_outside.specs.Moments as moments;
ghost use Rattle.eql_outside.specs.Outside.{Rose};
ghost use Rattle.eql_outside.specs.declared.refused.DiskHeld.{DiskHeld};
ghost use Rattle.eql_outside.specs.Unfailing.{IsUnfailing, AreUnfailing};
ghost use Rattle.eql_words.specs.Commands.{command_of};
ghost use Rattle.eql_words.specs.Words.{bytes_of};
ghost use Rattle.eql_ckdisk.specs.Going.{Goes};
ghost use Rattle.eql_ckdisk.specs.Keeping.{LeavesNoMore};
ghost use Rattle.eql_runs.specs.Outcomes.{KeepDisk};
ghost use Rattle.eql_runs.specs.Runs.{AskDisk, IfTold, IsAccepted, WroteAll, WroteListing, WroteSome, TellsFront, ReachesLimit, IsReady, IsRefusedAs};

use crate::run::run_words;
use eql_hands::Gate;
use eql_outside::{Shelf, Sink};
use std::alloc::Global;
use std::sync::Wait;
use std::thread::Threads;

/// How a run ended: its status, and the sinks that it was given.
#[derive(Drop)]
pub struct Ended<K, E> {
    /// 0 done; 1 a file isn't there; 2 the words are no command; 3 the query or the mapping is refused; 4 a read fault; 5 a
    /// write fault; 6 a fault of the checkpoint's disk; 7 the checkpoint is refused or held; 8 out of memory; 9 a limit is reached.
    pub status: u8,
    /// The output, with the listing, the canonical text or the summary.
    pub out: K,
    /// The report, or one line that says why there is none (three where the words are no command).
    pub err: E,
}

/// Runs the program on the words after its name.
///
/// `find` writes the listing of a query's matches in its shards to `out`, and the report to `err`; `check` writes the
/// canonical text of a query to `out`; `made` writes a summary of what it finds in events that it makes itself to `out`. On
/// status 0 they are there whole. On every other status `out` got a front of the listing, the text or the summary, nothing at
/// all where the words, the files or the checkpoint are refused, and `err` a front of what is told. On status 5 the listing is
/// there whole where `out` didn't fail. What the shelf lent goes back to it, its disk too.
///
/// With a checkpoint `find` begins with the cut that the shelf's disk holds, and the listing is then what follows the lines that
/// this cut counts. The run puts cuts on the disk, and whatever a crash at any moment leaves of the disk holds what it held
/// before, or one of these cuts.
///
/// `find` and `made` search with further threads beside the caller's, as many as `--hands` says, and one where it isn't there.
/// They read shards and play events. On status 0 the bytes written are the same for every number of threads and every schedule.
/// Several faults may come at once then, of which one is told, and a read fault before others.
pub fn eql_main<R: Threads + Wait + Sync, H: Shelf, K: Sink, E: Sink, G: Gate + Sync>(
    rt: &R,
    alloc: Global,
    words: &Vec<String>,
    shelf: &mut H,
    mut out: K,
    mut err: E,
    gate: &G,
) -> Ended<K, E>
    // The headline: on status 0 the output got exactly the listing, from the line after those that
    // the cut counts with which the run began, and the error output the report. And nothing
    // refuses the run.
    ensures done { result.status ≡ 0
        → WroteAll (bytes_of words.now.items) (H.files shelf.old) (H.disk_history shelf.old)
        (K.written out) (K.written result.out) (E.written err) (E.written result.err) }
    ensures accepted { result.status ≡ 0
        → IfTold (bytes_of words.now.items) (H.files shelf.old) (H.disk_history shelf.old)
        (IsAccepted (bytes_of words.now.items)) }

    // On every other status the output got nothing, or a front of the listing.
    ensures prefix { result.status ≢ 0
        → WroteSome (bytes_of words.now.items) (H.files shelf.old) (H.disk_history shelf.old)
        (K.written out) (K.written result.out) }

    // Where the error output alone failed, the listing is there whole.
    ensures listed { result.status ≡ 5 → ¬ (Rose (K.fault_count out) (K.fault_count result.out))
        → WroteListing (bytes_of words.now.items) (H.files shelf.old) (H.disk_history shelf.old)
        (K.written out) (K.written result.out) }

    // Where the words, the files or the checkpoint are refused the output isn't touched.
    ensures refused { (result.status ≡ 1) ⊎ (result.status ≡ 2) ⊎ (result.status ≡ 3)
        ⊎ (result.status ≡ 7) → result.out ≡ out }

    // Nor does the disk come to hold anything that it didn't: each image at each moment is one of
    // those at the start.
    ensures cut_kept { (result.status ≡ 1) ⊎ (result.status ≡ 2) ⊎ (result.status ≡ 3)
        ⊎ (result.status ≡ 7)
        → moments.DiskTells (Goes LeavesNoMore)
        (H.disk_history shelf.old) (H.disk_history shelf.new) }

    // On every other status a text is told whose cause holds, or a front of it.
    ensures told { result.status ≢ 0
        → TellsFront (bytes_of words.now.items) (H.files shelf.old)
        (H.disk_history shelf.old) (H.disk_history shelf.new)
        (H.faults_of shelf.old) (H.faults_of shelf.new)
        (H.held_count shelf.old) (H.held_count shelf.new) result.status
        (E.written err) (E.written result.err) }

    // The causes that the objects count, and the words.
    ensures absent { result.status ≡ 1
        → Rose (H.absent_count shelf.old) (H.absent_count shelf.new) }
    ensures words { result.status ≡ 2 → command_of (bytes_of words.now.items) ≡ None }
    ensures no_words { command_of (bytes_of words.now.items) ≡ None
        → (result.status ≡ 2) ⊎ (result.status ≡ 8) }
    ensures read { result.status ≡ 4
        → Rose (H.fault_count shelf.old) (H.fault_count shelf.new) }
    ensures write { result.status ≡ 5
        → Rose (K.fault_count out) (K.fault_count result.out)
        ⊎ Rose (E.fault_count err) (E.fault_count result.err) }
    ensures disk { result.status ≡ 6
        → Rose (H.disk_fault_count shelf.old) (H.disk_fault_count shelf.new) }
    ensures cut { result.status ≡ 7 → AskDisk (bytes_of words.now.items) }
    ensures limit { result.status ≡ 9
        → ReachesLimit (bytes_of words.now.items) (H.files shelf.old)
        (H.disk_history shelf.old) (H.disk_history shelf.new) }

    // No fault is passed over, no absent file, and no disk that is held: where several faults come
    // at once the read fault is told.
    ensures reads_told { H.fault_count shelf.old < H.fault_count shelf.new → result.status ≡ 4 }
    ensures absences_told { H.absent_count shelf.old < H.absent_count shelf.new
        → result.status ≡ 1 }
    ensures writes_told { K.fault_count out < K.fault_count result.out
        → (result.status ≡ 5) ⊎ (result.status ≡ 4) }
    ensures disks_told { H.disk_fault_count shelf.old < H.disk_fault_count shelf.new
        → (result.status ≡ 6) ⊎ (result.status ≡ 4) }
    ensures held_told { (why : DiskHeld)
        → H.held_count shelf.old why < H.held_count shelf.new why → result.status ≡ 7 }
    ensures errors_told { E.fault_count err < E.fault_count result.err → result.status ≢ 0 }

    // A run with good words, files and checkpoint in which nothing fails, and of which the disk
    // isn't held, is done, unless memory ran out; and nothing fails over objects of which no call
    // is planned to fail.
    ensures complete { IsReady (bytes_of words.now.items) (H.files shelf.old)
        (H.disk_history shelf.old)
        → ¬ (Rose (H.fault_count shelf.old) (H.fault_count shelf.new))
        → (AskDisk (bytes_of words.now.items)
        → ¬ (Rose (H.disk_fault_count shelf.old) (H.disk_fault_count shelf.new)))
        → (AskDisk (bytes_of words.now.items) → (why : DiskHeld)
        → ¬ (Rose (H.held_count shelf.old why) (H.held_count shelf.new why)))
        → ¬ (Rose (K.fault_count out) (K.fault_count result.out))
        → ¬ (Rose (E.fault_count err) (E.fault_count result.err))
        → (result.status ≡ 0) ⊎ (result.status ≡ 8) }
    ensures grounded { IsReady (bytes_of words.now.items) (H.files shelf.old)
        (H.disk_history shelf.old)
        → IsUnfailing (H.fault_plan shelf.old) → AreUnfailing (H.source_plans shelf.old)
        → (AskDisk (bytes_of words.now.items) → IsUnfailing (H.disk_plan shelf.old))
        → (AskDisk (bytes_of words.now.items) → H.is_free shelf.old ≡ true)
        → IsUnfailing (K.fault_plan out) → IsUnfailing (E.fault_plan err)
        → (result.status ≡ 0) ⊎ (result.status ≡ 8) }

    // Where the words, the files or the checkpoint are refused and no read fails, nor the disk,
    // the status is that of the first cause, unless memory ran out.
    ensures exact { ¬ (Rose (H.fault_count shelf.old) (H.fault_count shelf.new))
        → (AskDisk (bytes_of words.now.items)
        → ¬ (Rose (H.disk_fault_count shelf.old) (H.disk_fault_count shelf.new)))
        → IsRefusedAs (bytes_of words.now.items) (H.files shelf.old) (H.disk_history shelf.old)
        result.status }

    // The shelf keeps its files, and all that it lent came back.
    ensures kept { H.files shelf.new ≡ H.files shelf.old }
    ensures lent { IfSome (H.lent_count shelf.old) (λ n. H.lent_count shelf.new ≡ Some n) }
    ensures back { H.is_out shelf.old ≡ false → H.is_out shelf.new ≡ false }

    // With a checkpoint each image of the disk at each moment stands for what was there, or for a
    // cut of the run, and the lines that a cut counts were written, and kept. Without one the disk
    // is as it was.
    ensures moments { KeepDisk (bytes_of words.now.items) (H.files shelf.old)
        (K.written out) (K.written result.out) (K.kept out) (K.kept result.out)
        (H.disk_history shelf.old) (H.disk_history shelf.new) }
    ensures disk_kept { ¬ (AskDisk (bytes_of words.now.items))
        → (H.disk_history shelf.new ≡ H.disk_history shelf.old)
        × (H.is_out shelf.new ≡ H.is_out shelf.old)
        × (H.disk_fault_count shelf.new ≡ H.disk_fault_count shelf.old)
        × (H.disk_plan shelf.new ≡ H.disk_plan shelf.old)
        × ((why : DiskHeld) → H.held_count shelf.new why ≡ H.held_count shelf.old why)
        × (H.is_free shelf.new ≡ H.is_free shelf.old) }

    // No count falls.
    ensures counts { (H.fault_count shelf.old ≤ H.fault_count shelf.new)
        × (H.absent_count shelf.old ≤ H.absent_count shelf.new)
        × (H.disk_fault_count shelf.old ≤ H.disk_fault_count shelf.new)
        × ((why : DiskHeld) → H.held_count shelf.old why ≤ H.held_count shelf.new why)
        × (K.fault_count out ≤ K.fault_count result.out)
        × (E.fault_count err ≤ E.fault_count result.err) }
{
    let status = run_words(rt, alloc, words, shelf, &mut out, &mut err, gate);
    Ended { status, out, err }
}
