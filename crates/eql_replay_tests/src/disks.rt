//! Runs that keep cuts on a disk in memory, and go on from the one that stands there.
ghost use Rattle.std.specs.Prelude.{◌≡◌, ◌≢◌, IfOk, IfSome, None};
ghost use Rattle.eql_cut.specs.Domain.{IsCut};
ghost use Rattle.eql_ckdisk.specs.Putting.{Stands, last_cut};

use crate::starting::{Way, run_fresh, run_from};
use eql_ckdisk::{CkRefused, CkState, Recovered, recover};
use eql_conductor::{Keep, Stop};
use eql_cut::Cut;
use eql_outside::{Disk, MemDisk, MemSink};
use eql_replay::Foreigns;
use eql_stages::Plan;
use std::alloc::Global;
use std::test::Fail;

/// How many lines the cut counts that a run went on from, how the run ended, and the disk as it left it.
#[derive(Drop)]
pub(crate) struct Ended {
    pub(crate) listed: u64,
    pub(crate) end: Result<(), Stop>,
    pub(crate) disk: MemDisk,
}

/// Runs on from a cut, or afresh.
fn run_with(
    alloc: Global,
    plan: &Plan,
    texts: &Vec<Vec<u8>>,
    way: Way,
    plays: Vec<Foreigns>,
    cut: Option<Cut>,
    state: CkState,
    disk: MemDisk,
    sink: &mut MemSink,
) -> Result<Ended, Fail>
    requires cut { IfSome cut IsCut }
    requires stands { Stands (last_cut state) (⟦<MemDisk as Disk>⟧.history disk) }
{
    match way.every {
        None | Some(0) => return Err(Fail::new("no cuts are kept")),
        Some(_) => {}
    }
    let listed = match &cut {
        None => 0,
        Some(cut) => cut.book.listed,
    };
    let mut keep = Some(Keep { disk, state });
    let end = match cut {
        None => run_fresh(alloc, plan, texts, way, plays, sink, &mut keep)?,
        Some(cut) => run_from(alloc, plan, texts, way, plays, cut, sink, &mut keep)?,
    };
    match keep {
        Some(kept) => Ok(Ended {
            listed,
            end,
            disk: kept.disk,
        }),
        None => Err(Fail::new("the disk is gone")),
    }
}

/// Runs on from what a recovery finds on the disk. Where that fails nothing is run.
pub(crate) fn go_on(
    alloc: Global,
    plan: &Plan,
    texts: &Vec<Vec<u8>>,
    way: Way,
    plays: Vec<Foreigns>,
    disk: MemDisk,
    sink: &mut MemSink,
) -> Result<Ended, Fail> {
    let mut disk = disk;
    match recover(alloc, &mut disk) {
        Ok(found) => {
            let Recovered {
                cut,
                format: _,
                state,
            } = found;
            run_with(alloc, plan, texts, way, plays, cut, state, disk, sink)
        }
        Err(CkRefused::DiskFault) => Ok(Ended {
            listed: 0,
            end: Err(Stop::Disk),
            disk,
        }),
        Err(_) => Err(Fail::new("nothing is recovered")),
    }
}
