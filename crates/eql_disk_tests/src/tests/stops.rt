//! A stop at each call of a run of puts on a disk, and what a recovery finds in what a crash may leave then.
ghost use Rattle.std.specs.Prelude.{IfOk, OnOk};
ghost use Rattle.eql_ckdisk.specs.Putting.{Stands, last_cut};

use crate::tests::bytes::{cut_of, disk_of};
use eql_ckdisk::{CkRefused, CkState, Recovered, put, recover};
use eql_outside::{Disk, MemDisk};
use std::alloc::Global;
use std::process::Abort;
use std::test::Fail;

/// A recovery of two empty areas makes four calls on the disk, and each of the three puts six.
const CALLS: u64 = 4 + 3 * 6;

/// How a run of three puts ended.
#[derive(Drop)]
struct Run {
    /// How many puts were acknowledged.
    acknowledged: u64,
    /// Whether the disk's fault was returned.
    is_fault: bool,
    /// The disk as the run left it.
    disk: MemDisk,
}

/// What a put returns.
type Answer = Result<(), CkRefused>;

/// Puts the cut with this mark.
fn put_marked<D: Disk>(
    alloc: Global,
    disk: &mut D,
    state: &mut CkState,
    mark: u8,
) -> Result<Answer, Fail>
    requires { Stands (last_cut state.old) (D.history disk.old) }
    ensures { IfOk result (λ answer. OnOk answer
        (Stands (last_cut state.new) (D.history disk.new))) }
{
    let cut = cut_of(alloc, mark)?;
    let answer = put(alloc, disk, state, &cut);
    drop(cut);
    Ok(answer)
}

/// Puts the cuts with the marks 1 to 3, up to a refusal.
fn put_three<D: Disk>(alloc: Global, disk: &mut D, state: &mut CkState) -> Result<Answer, Fail>
    requires { Stands (last_cut state.old) (D.history disk.old) }
{
    match put_marked(alloc, disk, state, 1)? {
        Ok(()) => {}
        Err(refused) => return Ok(Err(refused)),
    }
    match put_marked(alloc, disk, state, 2)? {
        Ok(()) => {}
        Err(refused) => return Ok(Err(refused)),
    }
    put_marked(alloc, disk, state, 3)
}

/// How many of the puts behind a recovery are acknowledged, and whether the disk's fault is returned.
fn recover_and_put(alloc: Global, disk: &mut MemDisk) -> Result<(u64, bool), Fail> {
    match recover(alloc, disk) {
        Ok(found) => {
            let mut state = found.state;
            drop(found);
            let answer = put_three(alloc, disk, &mut state)?;
            Ok((state.generation(), answer == Err(CkRefused::DiskFault)))
        }
        Err(refused) => Ok((0, refused == CkRefused::DiskFault)),
    }
}

/// A recovery of two empty areas, and then puts of the cuts with the marks 1 to 3, up to a refusal.
fn run_puts(alloc: Global, stop: u64) -> Result<Run, Fail> {
    let mut disk = disk_of(alloc, "", "", Some(stop))?;
    let (acknowledged, is_fault) = recover_and_put(alloc, &mut disk)?;
    Ok(Run {
        acknowledged,
        is_fault,
        disk,
    })
}

/// The generation that was found, if nothing was or the cut whose mark is that generation.
fn own_generation(found: &Recovered) -> Option<u64> {
    let generation = found.state.generation();
    let is_cut = match &found.cut {
        Some(cut) => cut.mark == generation as i128,
        None => generation == 0,
    };
    is_cut.then_some(generation)
}

/// The generation that a recovery finds in what a crash may leave, if it finds none or the cut whose mark is that
/// generation.
fn found_in(alloc: Global, disk: &MemDisk, choice: u64) -> Result<Option<u64>, Fail> {
    let (a, b) = disk.crashed(alloc, choice)?;
    let mut image = MemDisk::new(alloc, a, b, Vec::new(alloc), None)?;
    let recovered = recover(alloc, &mut image);
    drop(image);
    match recovered {
        Ok(found) => {
            let generation = own_generation(&found);
            drop(found);
            Ok(generation)
        }
        Err(_) => Ok(None),
    }
}

/// Sees that each image of what a crash may leave of a run has the last cut that was acknowledged, or the next.
fn check_images<R: Abort>(rt: &R, alloc: Global, run: &Run, stop: u64) -> Result<(), Fail> {
    for choice in 0..32 {
        match found_in(alloc, &run.disk, choice)? {
            Some(generation) => assert!(rt;
                generation == run.acknowledged
                    || run.is_fault && generation == run.acknowledged.saturating_add(1),
                "stop {stop}, image {choice}: generation {generation}"
            ),
            None => assert!(rt; false, "stop {stop}, image {choice}: no such cut"),
        }
    }
    Ok(())
}

#[test]
fn stop_at_each_call_loses_nothing_acknowledged(rt: HostRuntime) -> Result<(), Fail> {
    let alloc = rt.alloc();
    let mut lasts = [0u64; 4];
    for stop in 1..=CALLS + 1 {
        let run = run_puts(alloc, stop)?;
        let (acknowledged, is_fault) = (run.acknowledged, run.is_fault);
        let checked = check_images(&rt, alloc, &run, stop);
        drop(run);
        checked?;
        assert_eq!(rt; is_fault, stop <= CALLS);
        match acknowledged {
            0 => lasts[0] = stop,
            1 => lasts[1] = stop,
            2 => lasts[2] = stop,
            _ => lasts[3] = stop,
        }
    }
    // Each put is acknowledged at its sixth call.
    assert_eq!(rt; lasts, [10, 16, 22, 23]);
    Ok(())
}
