//! The cut that a disk holds, tested against the run that is to go on from it.
ghost use Rattle.std.specs.Prelude.{◌≡◌, ◌≢◌, ◌≤◌, Err, IfErr, IfOk, IfSome, None, OnOk};
ghost use Rattle.eql_outside.specs.Areas.{seen_areas};
ghost use Rattle.eql_outside.specs.Moments.{DiskTells};
ghost use Rattle.eql_outside.specs.Outside.{Rose};
ghost use Rattle.eql_outside.specs.Unfailing.{IsUnfailing};
ghost use Rattle.eql_cut.specs.Fitting.{FitsRun};
ghost use Rattle.eql_cut.specs.Placing.{IsUnplaced, orders_in};
ghost use Rattle.eql_ckdisk.specs.Found.{found_on};
ghost use Rattle.eql_ckdisk.specs.Going.{Goes};
ghost use Rattle.eql_ckdisk.specs.Keeping.{KeepsAll, LeavesNoMore};
ghost use Rattle.eql_ckdisk.specs.Putting.{Stands, last_cut};
ghost use Rattle.eql_runs.specs.Starts.{StandsFor};
ghost use Rattle.eql_resume.specs.Finding.{HasResumeCause, HasCutCause, HasFoundCause, Suits, on_of, refused_by};

use eql_ckdisk::{CkRefused, CkState, recover};
use eql_cut::{Cut, CutHead, Differs, agree, first_format_has_no_places, fits};
use eql_outside::{Disk, crashes_leave_images};
use eql_runs::heads_agree;
use eql_values::Pipes;
use std::alloc::Global;

/// The cut with which a run begins, where there is one, and where it stands on the disk.
#[derive(Drop)]
pub struct FoundCut {
    /// The cut, with the head of the run and fit for it.
    pub cut: Option<Cut>,
    /// The format of its text, 1 to 4, or 0 where there is no cut. In format 1 its events have no places yet, and in the first
    /// three its lanes have no digests.
    pub format: u8,
    /// Where the last cut stands.
    pub state: CkState,
}

/// Why a run isn't begun.
#[derive(Drop)]
pub enum StartRefused {
    /// The disk failed.
    Disk,
    /// Another program wrote an area.
    Foreign {
        /// The area, 0 or 1.
        area: u32,
    },
    /// The area that counts is damaged.
    Damaged {
        /// The area, 0 or 1.
        area: u32,
        /// The place in its text, in bytes.
        at: u64,
    },
    /// The cut is of another run.
    Differs(Differs),
    /// The cut doesn't fit the run.
    Unfit,
    /// Memory ran out.
    Memory,
}

// The refusal of a disk that is recovered, as one of the run.
fn refusal_of(refused: CkRefused) -> StartRefused
    requires limit { refused ≢ CkRefused.Generation }
    ensures { result ≡ refused_by refused }
{
    match refused {
        CkRefused::DiskFault => StartRefused::Disk,
        CkRefused::Foreign { area } => StartRefused::Foreign { area },
        CkRefused::Damaged { area, at } => StartRefused::Damaged { area, at },
        CkRefused::Generation => unreachable!(),
        CkRefused::Memory => StartRefused::Memory,
    }
}

// Tests that a cut is one of a run with this head, so many stages, keys of so many values and these pipes.
fn test_cut(
    alloc: Global,
    cut: &Cut,
    head: &CutHead,
    stages: u32,
    values: u32,
    pipes: &Pipes,
) -> Result<(), StartRefused>
    ensures suits { OnOk result ((cut.now.head ≡ head.now)
        × FitsRun stages values pipes.now cut.now) }
    ensures cause { IfErr result (HasCutCause stages values pipes.now head.now cut.now) }
{
    heads_agree();
    match agree(alloc, cut, head) {
        Ok(None) => {}
        Ok(Some(differs)) => return Err(StartRefused::Differs(differs)),
        Err(_) => return Err(StartRefused::Memory),
    }
    if fits(cut, stages, values, pipes) {
        Ok(())
    } else {
        Err(StartRefused::Unfit)
    }
}

// The same of a cut where there is one.
fn test_found(
    alloc: Global,
    cut: &Option<Cut>,
    head: &CutHead,
    stages: u32,
    values: u32,
    pipes: &Pipes,
) -> Result<(), StartRefused>
    ensures suits { OnOk result (IfSome cut.now (λ c. (c.head ≡ head.now)
        × FitsRun stages values pipes.now c)) }
    ensures cause { IfErr result
        (λ refused. HasFoundCause stages values pipes.now head.now cut.now refused) }
{
    match cut {
        Some(cut) => test_cut(alloc, cut, head, stages, values, pipes),
        None => Ok(()),
    }
}

/// Finds the cut on the disk, and tests that it is one of a run with this head, so many stages, keys of so many values and
/// these pipes.
pub fn find_start<D: Disk>(
    alloc: Global,
    disk: &mut D,
    head: &CutHead,
    stages: u32,
    values: u32,
    pipes: &Pipes,
) -> Result<FoundCut, StartRefused>
    // What the disk held is what it was found to hold, whatever image a crash would have left from
    // now on.
    ensures holds { IfOk result (λ start. IfSome (D.history disk.old)
        (λ h. StandsFor (on_of start) (found_on (seen_areas h.now)))) }
    ensures suits { IfOk result (λ start.
        IfSome start.cut (Suits stages values pipes.now head.now)) }
    ensures unplaced { IfOk result (λ start. IfSome start.cut (λ cut. start.format ≡ 1
        → IsUnplaced (orders_in cut))) }
    ensures format { IfOk result (λ start. start.cut ≡ None → start.format ≡ 0) }
    ensures stands { IfOk result (λ start. Stands (last_cut start.state) (D.history disk.new)) }

    // Why it is refused.
    ensures cause { IfErr result (λ refused. IfSome (D.history disk.old)
        (λ h. HasResumeCause (found_on (seen_areas h.now)) stages values pipes.now head.now
        refused)) }

    // At each moment of the call each image is one of those at its start.
    ensures moments { DiskTells (Goes LeavesNoMore) (D.history disk.old) (D.history disk.new) }
    ensures kept { OnOk result (DiskTells KeepsAll (D.history disk.old) (D.history disk.new)) }

    // The disk's count rises where its fault is returned, and nowhere else.
    ensures fault { result ≡ Err StartRefused.Disk
        → Rose (D.fault_count disk.old) (D.fault_count disk.new) }
    ensures steady { result ≢ Err StartRefused.Disk
        → D.fault_count disk.new ≡ D.fault_count disk.old }
    ensures counts { D.fault_count disk.old ≤ D.fault_count disk.new }
    ensures unfailing { IsUnfailing (D.fault_plan disk.old)
        → (result ≢ Err StartRefused.Disk) × IsUnfailing (D.fault_plan disk.new) }
{
    crashes_leave_images();
    first_format_has_no_places();
    let found = match recover(alloc, disk) {
        Ok(found) => found,
        Err(refused) => return Err(refusal_of(refused)),
    };
    test_found(alloc, &found.cut, head, stages, values, pipes)?;
    Ok(FoundCut {
        cut: found.cut,
        format: found.format,
        state: found.state,
    })
}
