//! What a run begins with: afresh, or with the cut that the disk of its checkpoint holds.
ghost use Rattle.std.specs.Prelude.{◌≡◌, ◌≢◌, ◌<◌, ◌≤◌, IfErr, IfOk, IfSome, IsTrue, None, OnErr, OnOk, false};
ghost use Rattle.eql_ckdisk.specs.Going.{Goes};
ghost use Rattle.eql_ckdisk.specs.Keeping.{LeavesNoMore};
ghost use Rattle.eql_cut.specs.CutValues.{names_ascend};
ghost use Rattle.eql_conductor.specs.Runs.{IsKeptUnfailing};
ghost use Rattle.eql_outside.specs.Keeping.{KeepsSources};
ghost use Rattle.eql_outside.specs.Moments.{DiskTells};
ghost use Rattle.eql_outside.specs.Outside.{Rose};
ghost use Rattle.eql_outside.specs.Unfailing.{IsUnfailing};
ghost use Rattle.eql_words.specs.Bounds.{FindIsBounded};
ghost use Rattle.eql_find.specs.Errors.{HeldIsTold, IsFault, reason_in, reason_told};
ghost use Rattle.eql_find.specs.Searching.{head_in};
ghost use Rattle.eql_find.specs.Starting.{BeginsOnDisk, DiskRose, HasStartCause, IsDiskOrMemory, IsErrorOfStart, KeepsFor, disk_after, plan_after};

use crate::error::{CutStop, FindError};
use crate::plan::{PlannedQuery, head_of};
use eql_conductor::Keep;
use eql_cut::CutHead;
use eql_inputs::InputError;
use eql_lane::LaneStart;
use eql_outside::{Disk, DiskRefused, Shelf, unfailing_stays};
use eql_resume::{Pending, StartRefused, begin, find_start};
use eql_words::{Checkpoint, Find};
use std::alloc::Global;

/// What a run begins with.
pub(crate) struct Start<D> {
    /// What its cuts say of it.
    pub head: CutHead,
    /// Where it keeps its cuts, if it does.
    pub keep: Option<Keep<D>>,
    /// How the lane of each shard begins.
    pub lanes: Vec<LaneStart>,
    /// What is pending, and what the book keeps.
    pub rest: Pending,
}

/// Why a run isn't begun, as a error.
fn error_of_start<'a>(refused: StartRefused) -> FindError<'a>
    ensures of { IsErrorOfStart refused result }
    ensures none { reason_in result ≡ None }
{
    match refused {
        StartRefused::Disk => FindError::Disk,
        StartRefused::Foreign { area } => FindError::Cut(CutStop::Foreign { area }),
        StartRefused::Damaged { area, at } => FindError::Cut(CutStop::Damaged { area, at }),
        StartRefused::Differs(differs) => FindError::Cut(CutStop::Differs(differs)),
        StartRefused::Unfit => FindError::Cut(CutStop::Unfit),
        StartRefused::Memory => FindError::Files(InputError::Memory),
    }
}

/// The disk of a checkpoint, handed out by the shelf.
fn open_disk<'a, H: Shelf>(
    alloc: Global,
    checkpoint: &'a Checkpoint,
    shelf: &mut H,
) -> Result<H::Dsk, FindError<'a>>
    ensures as_it_stands { IfOk result (λ d. (H.Dsk.history d ≡ H.disk_history shelf.old)
        × (H.Dsk.fault_plan d ≡ H.disk_plan shelf.old) × (H.Dsk.fault_count d ≡ 0)) }
    ensures cause { IfErr result IsDiskOrMemory }
    ensures fault { IfErr result (λ error. DiskRose error
        (H.disk_fault_count shelf.old) (H.disk_fault_count shelf.new)) }
    ensures steady { OnOk result (H.disk_fault_count shelf.new ≡ H.disk_fault_count shelf.old) }
    ensures counts { H.disk_fault_count shelf.old ≤ H.disk_fault_count shelf.new }
    ensures not_out { OnErr result (H.is_out shelf.new ≡ H.is_out shelf.old) }
    ensures kept { KeepsSources H.files H.source_plans H.fault_count H.absent_count H.faults_of
        H.lent_count shelf.old shelf.new }
    ensures history { (H.disk_history shelf.new ≡ H.disk_history shelf.old)
        × (H.disk_plan shelf.new ≡ H.disk_plan shelf.old) }
    ensures held { HeldIsTold H.Shelf shelf.old shelf.new (reason_told result) }
    ensures unfailing { IsUnfailing (H.fault_plan shelf.old)
        → IfErr result (λ error. ¬ IsFault error) }
{
    unfailing_stays();
    match shelf.disk(alloc, checkpoint.name.name()) {
        Ok(disk) => Ok(disk),
        Err(DiskRefused::Held(why)) => Err(FindError::Held(why)),
        Err(DiskRefused::Failed) => Err(FindError::Disk),
        Err(DiskRefused::Memory) => Err(FindError::Files(InputError::Memory)),
    }
}

/// Gives the disk of a run back, where it has one.
pub(crate) fn give_keep<H: Shelf>(keep: Option<Keep<H::Dsk>>, shelf: &mut H)
    ensures taken { (H.disk_history shelf.new
        ≡ disk_after H.Dsk.history (H.disk_history shelf.old) keep)
        × (H.disk_plan shelf.new ≡ plan_after H.Dsk.fault_plan (H.disk_plan shelf.old) keep) }
    ensures back { IfSome keep (λ _. H.is_out shelf.new ≡ false) }
    ensures none { keep ≡ None → shelf.new ≡ shelf.old }
    ensures kept { KeepsSources H.files H.source_plans H.fault_count H.absent_count H.faults_of
        H.lent_count shelf.old shelf.new }
    ensures raised { IfSome keep (λ k. 0 < H.Dsk.fault_count k.disk
        → Rose (H.disk_fault_count shelf.old) (H.disk_fault_count shelf.new)) }
    ensures same { IfSome keep (λ k. H.Dsk.fault_count k.disk ≡ 0
        → H.disk_fault_count shelf.new ≡ H.disk_fault_count shelf.old) }
    ensures counts { H.disk_fault_count shelf.old ≤ H.disk_fault_count shelf.new }
    ensures held { HeldIsTold H.Shelf shelf.old shelf.new None }
{
    if let Some(Keep { disk, state: _ }) = keep {
        shelf.give_disk(disk);
    }
}

/// Begins with what a disk holds. Where that is refused the disk is handed back.
fn start_on<'a, D: Disk>(
    alloc: Global,
    disk: D,
    head: CutHead,
    planned: &PlannedQuery,
    find: &Find,
) -> Result<Start<D>, (FindError<'a>, D)>
    requires bounds { FindIsBounded find.now }
    requires asked { find.now.checkpoint ≢ None }
    requires fresh { D.fault_count disk ≡ 0 }
    requires head { head ≡ head_in find.now planned.now }
    requires names { IsTrue (names_ascend planned.now.mapping) }
    ensures begins { IfOk result (λ start. BeginsOnDisk find.now planned.now (D.history disk)
        start.head start.keep start.lanes.items start.rest) }
    ensures keeps { IfOk result (λ start.
        KeepsFor D.history D.fault_count (D.history disk) start.keep) }
    ensures cause { IfErr result (λ r. HasStartCause find.now planned.now (D.history disk) r.0) }
    ensures not_held { IfErr result (λ r. reason_in r.0 ≡ None) }
    ensures moments { IfErr result (λ r.
        DiskTells (Goes LeavesNoMore) (D.history disk) (D.history r.1)) }
    ensures fault { IfErr result (λ r. DiskRose r.0 (D.fault_count disk) (D.fault_count r.1)) }
    ensures unfailing { IsUnfailing (D.fault_plan disk)
        → IfErr result (λ r. ¬ IsFault r.0)
        × IfOk result (λ start. IsKeptUnfailing D.fault_plan start.keep) }
{
    let mut disk = disk;
    let stages = planned.plan.stages();
    let values = planned.plan.keys();
    let pipes = planned.plan.pipes();
    match find_start(alloc, &mut disk, &head, stages, values, pipes) {
        Err(refused) => Err((error_of_start(refused), disk)),
        Ok(found) => {
            match begin(
                alloc,
                found.cut,
                found.format,
                stages,
                values,
                head.shards,
                pipes,
            ) {
                Err(_) => Err((FindError::Files(InputError::Memory), disk)),
                Ok(beginning) => Ok(Start {
                    head,
                    keep: Some(Keep {
                        disk,
                        state: found.state,
                    }),
                    lanes: beginning.lanes,
                    rest: beginning.rest,
                }),
            }
        }
    }
}

/// Begins afresh, and keeps no cuts.
fn start_afresh<'a, D: Disk>(
    alloc: Global,
    head: CutHead,
    planned: &PlannedQuery,
    find: &Find,
) -> Result<Start<D>, FindError<'a>>
    requires bounds { FindIsBounded find.now }
    requires none { find.now.checkpoint ≡ None }
    requires head { head ≡ head_in find.now planned.now }
    requires names { IsTrue (names_ascend planned.now.mapping) }
    ensures begins { IfOk result (λ start. BeginsOnDisk find.now planned.now None
        start.head start.keep start.lanes.items start.rest) }
    ensures keeps { IfOk result (λ start. start.keep ≡ None) }
    ensures cause { IfErr result (λ error. error ≡ FindError.Files InputError.Memory) }
{
    let stages = planned.plan.stages();
    let values = planned.plan.keys();
    let pipes = planned.plan.pipes();
    match begin(alloc, None, 0, stages, values, head.shards, pipes) {
        Err(_) => Err(FindError::Files(InputError::Memory)),
        Ok(beginning) => Ok(Start {
            head,
            keep: None,
            lanes: beginning.lanes,
            rest: beginning.rest,
        }),
    }
}

/// Finds what a run begins with: what the shelf's disk holds where it has a checkpoint, and nothing else. Where that is
/// refused the disk goes back, and where the disk is held it doesn't come out.
pub(crate) fn start_run<'a, H: Shelf>(
    alloc: Global,
    planned: &PlannedQuery,
    find: &'a Find,
    shelf: &mut H,
) -> Result<Start<H::Dsk>, FindError<'a>>
    requires bounds { FindIsBounded find.now }
    ensures begins { IfOk result (λ start. BeginsOnDisk find.now planned.now
        (H.disk_history shelf.old) start.head start.keep start.lanes.items start.rest) }
    ensures keeps { IfOk result (λ start. (find.now.checkpoint ≡ None → start.keep ≡ None)
        × (find.now.checkpoint ≢ None
        → KeepsFor H.Dsk.history H.Dsk.fault_count (H.disk_history shelf.old) start.keep)) }
    ensures cause { IfErr result (HasStartCause find.now planned.now (H.disk_history shelf.old)) }
    ensures kept { KeepsSources H.files H.source_plans H.fault_count H.absent_count H.faults_of
        H.lent_count shelf.old shelf.new }
    ensures moments { DiskTells (Goes LeavesNoMore)
        (H.disk_history shelf.old) (H.disk_history shelf.new) }
    ensures still { OnOk result (H.disk_history shelf.new ≡ H.disk_history shelf.old) }
    ensures fault { IfErr result (λ error. DiskRose error
        (H.disk_fault_count shelf.old) (H.disk_fault_count shelf.new)) }
    ensures steady { OnOk result (H.disk_fault_count shelf.new ≡ H.disk_fault_count shelf.old) }
    ensures counts { H.disk_fault_count shelf.old ≤ H.disk_fault_count shelf.new }
    ensures held { HeldIsTold H.Shelf shelf.old shelf.new (reason_told result) }
    ensures out { OnErr result (H.is_out shelf.old ≡ false → H.is_out shelf.new ≡ false) }
    ensures untouched { find.now.checkpoint ≡ None → shelf.new ≡ shelf.old }
    ensures unfailing { IsUnfailing (H.fault_plan shelf.old)
        → (find.now.checkpoint ≢ None → IsUnfailing (H.disk_plan shelf.old))
        → IfErr result (λ error. ¬ IsFault error)
        × IfOk result (λ start. IsKeptUnfailing H.Dsk.fault_plan start.keep) }
{
    let head = match head_of(alloc, find, planned) {
        Ok(head) => head,
        Err(_) => return Err(FindError::Files(InputError::Memory)),
    };
    let Some(checkpoint) = &find.checkpoint else {
        return start_afresh(alloc, head, planned, find);
    };
    let disk = match open_disk(alloc, checkpoint, shelf) {
        Ok(disk) => disk,
        Err(error) => return Err(error),
    };
    match start_on(alloc, disk, head, planned, find) {
        Ok(start) => Ok(start),
        Err((error, disk)) => {
            shelf.give_disk(disk);
            Err(error)
        }
    }
}
