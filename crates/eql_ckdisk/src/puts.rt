//! Puts a cut into the area that doesn't count, behind a closed gate, and opens the gate once the cut is kept.
ghost use Rattle.std.specs.Prelude.{◌≡◌, ◌≢◌, ◌+◌, ◌≤◌, ◌<◌, ◌^◌, ◌↔◌, Err};
ghost use Rattle.std.specs.Prelude.{IfOk, IfErr, IfSome, OnOk, OnErr, length, drop};
ghost use Rattle.eql_cut.specs.Domain.{IsCut};
ghost use Rattle.eql_cut.specs.Whole.{IsText};
ghost use Rattle.eql_outside.specs.Moments.{DiskTells};
ghost use Rattle.eql_outside.specs.Outside.{Rose};
ghost use Rattle.eql_outside.specs.Unfailing.{IsUnfailing};
ghost use Rattle.eql_ckdisk.specs.Found.{block, next};
ghost use Rattle.eql_ckdisk.specs.Cuts.{Holds, Puts};
ghost use Rattle.eql_ckdisk.specs.Putting.{HasPutText, PutsText, Stands, last_cut};
ghost use Rattle.eql_ckdisk.specs.Refusing.{TellsFound};

use crate::refused::CkRefused;
use crate::state::{CkState, GREATEST};
use crate::through::write_through;
use eql_cut::{Cut, encode_behind};
use eql_outside::{Disk, OutRefused, crashes_leave_images};
use eql_values::Memory;
use std::alloc::Global;

// Puts the generation and the length of the text over the 16 bytes before the text.
fn put_head(made: &mut [u8], generation: u64)
    requires { 16 ≤ length made.old }
    ensures { made.new ≡ block generation (drop 16 made.old) }
{
    let text_length = made.len() as u64 - 16;
    made[..8].copy_from_slice(&generation.to_le_bytes());
    made[8..16].copy_from_slice(&text_length.to_le_bytes());
}

// The generation, the length of the text, and the text of the cut.
fn make_block(alloc: Global, generation: u64, cut: &Cut) -> Result<Vec<u8>, Memory>
    requires { IsCut cut.now }
    ensures text { IfOk result (λ made. IsText 4 cut.now (drop 16 made.items)) }
    ensures head { IfOk result (λ made. made.items ≡ block generation (drop 16 made.items)) }
{
    let mut made = encode_behind(alloc, &[0; 16], cut)?;
    put_head(&mut made, generation);
    Ok(made)
}

// Puts the text of a block that has the next generation.
fn put_block<D: Disk>(
    alloc: Global,
    disk: &mut D,
    state: CkState,
    made: &[u8],
) -> Result<(), OutRefused>
    requires stands { Stands (last_cut state) (D.history disk.old) }
    requires room { (last_cut state).generation < 2 ^ 63 }
    requires head { made.now ≡ block ((last_cut state).generation + 1) (drop 16 made.now) }
    ensures moments { DiskTells (PutsText (last_cut state) (drop 16 made.now))
        (D.history disk.old) (D.history disk.new) }
    ensures done { OnOk result (DiskTells (HasPutText (last_cut state) (drop 16 made.now))
        (D.history disk.old) (D.history disk.new)) }
    ensures cause { result ≡ Err OutRefused.Failed
        → Rose (D.fault_count disk.old) (D.fault_count disk.new) }
    ensures steady { result ≢ Err OutRefused.Failed
        → D.fault_count disk.new ≡ D.fault_count disk.old }
    ensures counts { D.fault_count disk.old ≤ D.fault_count disk.new }
    ensures unfailing { IsUnfailing (D.fault_plan disk.old)
        → (result ≢ Err OutRefused.Failed) × IsUnfailing (D.fault_plan disk.new) }
{
    crashes_leave_images();
    let area = state.next_area();
    write_through(alloc, disk, area, 0, &[0])?;
    write_through(alloc, disk, area, 1, made)?;
    write_through(alloc, disk, area, 0, &[1])
}

/// Puts a cut into the area that doesn't count, or into area 0 where none does, with the next generation.
///
/// After a refusal other than [`CkRefused::Generation`] the disk is to be recovered before the next put.
///
/// # Errors
///
/// [`CkRefused::Generation`] where the last generation is 2^63; [`CkRefused::DiskFault`] where a call on the disk
/// failed; [`CkRefused::Memory`] where memory ran out.
pub fn put<D: Disk>(
    alloc: Global,
    disk: &mut D,
    state: &mut CkState,
    cut: &Cut,
) -> Result<(), CkRefused>
    requires stands { Stands (last_cut state.old) (D.history disk.old) }
    requires ordered { IsCut cut.now }

    // At each moment of the call, whatever it returns.
    ensures moments { DiskTells (Puts (last_cut state.old) cut.now)
        (D.history disk.old) (D.history disk.new) }
    ensures done { OnOk result (IfSome (D.history disk.new)
        (λ k. Holds (last_cut state.new) cut.now k.now)) }
    ensures stands { OnOk result (Stands (last_cut state.new) (D.history disk.new)) }
    ensures next { OnOk result (last_cut state.new ≡ next (last_cut state.old)) }
    ensures refused { OnErr result (last_cut state.new ≡ last_cut state.old) }
    ensures limit { (result ≡ Err CkRefused.Generation)
        ↔ ((last_cut state.old).generation ≡ 2 ^ 63) }
    ensures untouched { result ≡ Err CkRefused.Generation → disk.new ≡ disk.old }
    ensures undamaged { IfErr result (λ e. TellsFound e → ⊥) }

    // The disk's count rises where its fault is returned, and nowhere else.
    ensures cause { result ≡ Err CkRefused.DiskFault
        → Rose (D.fault_count disk.old) (D.fault_count disk.new) }
    ensures steady { result ≢ Err CkRefused.DiskFault
        → D.fault_count disk.new ≡ D.fault_count disk.old }
    ensures counts { D.fault_count disk.old ≤ D.fault_count disk.new }

    // Where no call of the disk is planned to fail, no fault is told.
    ensures unfailing { IsUnfailing (D.fault_plan disk.old)
        → (result ≢ Err CkRefused.DiskFault) × IsUnfailing (D.fault_plan disk.new) }
{
    if state.generation() >= GREATEST {
        return Err(CkRefused::Generation);
    }
    let made = make_block(alloc, state.generation() + 1, cut)?;
    put_block(alloc, disk, *state, &made)?;
    *state = state.next();
    Ok(())
}
