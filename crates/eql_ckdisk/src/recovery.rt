//! Finds the cut that counts.
ghost use Rattle.std.specs.Prelude.{◌≡◌, ◌≢◌, ◌≤◌, Option, Err, IfOk, IfErr, IfSome, OnOk};
ghost use Rattle.eql_outside.specs.Moments.{DiskTells};
ghost use Rattle.eql_outside.specs.Outside.{Rose};
ghost use Rattle.eql_outside.specs.Unfailing.{IsUnfailing};
ghost use Rattle.eql_ckdisk.specs.Found.{Found, EachFinds};
ghost use Rattle.eql_ckdisk.specs.Going.{Goes};
ghost use Rattle.eql_ckdisk.specs.Keeping.{LeavesNoMore, KeepsAll};
ghost use Rattle.eql_ckdisk.specs.Putting.{Stands, last_cut};
ghost use Rattle.eql_ckdisk.specs.Recovering.{IsAnswer, IsSound};
ghost use Rattle.eql_ckdisk.specs.Refusing.{RefusesFound, TellsFound};

use crate::find::{LastText, area_number, settle};
use crate::refused::CkRefused;
use crate::state::CkState;
use eql_cut::{Cut, CutRefused, Decoded, decode};
use eql_outside::Disk;
use std::alloc::Global;

/// The cut that counts, and where it stands.
#[derive(Drop)]
pub struct Recovered {
    /// The cut, where an area is open.
    pub cut: Option<Cut>,
    /// The format of its text, 1 to 4, or 0 where there is no cut.
    pub format: u8,
    /// Its area and its generation, which is 0 where there is no cut.
    pub state: CkState,
}

impl Recovered {
    ghost use Rattle.eql_ckdisk.specs.Heads.{IsNoneOrText, IsTextFound};

    // Reads the text as a cut.
    fn of(alloc: Global, last: LastText) -> Result<Recovered, CkRefused>
        requires { IsNoneOrText last.text last.state.generation }
        ensures found { IfOk result
            (λ r. (f : Found) → IsTextFound last f → IsAnswer r f) }
        ensures sound { IfOk result IsSound }
        ensures state { IfOk result (λ r. r.state ≡ last.state) }
        ensures refuses { IfErr result
            (λ e. (f : Found) → IsTextFound last f → RefusesFound e f) }
        ensures limit { result ≢ Err CkRefused.Generation }
        ensures fault { result ≢ Err CkRefused.DiskFault }
    {
        let LastText { text, state } = last;
        let Some(text) = text else {
            return Ok(Recovered {
                cut: None,
                format: 0,
                state,
            });
        };
        match decode(alloc, &text) {
            Ok(Decoded { cut, format }) => Ok(Recovered {
                cut: Some(cut),
                format,
                state,
            }),
            Err(CutRefused::Damaged { at }) => Err(CkRefused::Damaged {
                area: area_number(state.area()),
                at,
            }),
            Err(CutRefused::Memory) => Err(CkRefused::Memory),
        }
    }
}

/// Keeps what reads give of both areas, and finds the cut that counts.
///
/// # Errors
///
/// [`CkRefused::DiskFault`] where a call on the disk failed; [`CkRefused::Foreign`] where an area isn't empty and its
/// first byte is neither 0 nor 1; [`CkRefused::Damaged`] where the area that counts has a generation outside 1 to 2^63,
/// fewer bytes than its length says, or a text that is no cut's; [`CkRefused::Memory`] where memory ran out.
pub fn recover<D: Disk>(alloc: Global, disk: &mut D) -> Result<Recovered, CkRefused>
    // Of any disk: a cut has a text in its format, and a generation from 1 on.
    ensures sound { IfOk result IsSound }

    // Each image gives this result from now on.
    ensures found { IfOk result
        (λ r. IfSome (D.history disk.new) (λ k. EachFinds (IsAnswer r) k.now)) }
    ensures stands { IfOk result (λ r. Stands (last_cut r.state) (D.history disk.new)) }
    ensures kept { OnOk result (DiskTells KeepsAll (D.history disk.old) (D.history disk.new)) }

    // At each moment of the call, whatever it returns.
    ensures moments { DiskTells (Goes LeavesNoMore) (D.history disk.old) (D.history disk.new) }
    ensures refuses { IfErr result (λ e. IfSome (D.history disk.new)
        (λ k. EachFinds (RefusesFound e) k.now)) }
    ensures refuses_kept { IfErr result (λ e. TellsFound e
        → DiskTells KeepsAll (D.history disk.old) (D.history disk.new)) }
    ensures limit { result ≢ Err CkRefused.Generation }

    // The disk's count rises where its fault is returned, and nowhere else.
    ensures cause { result ≡ Err CkRefused.DiskFault
        → Rose (D.fault_count disk.old) (D.fault_count disk.new) }
    ensures steady { result ≢ Err CkRefused.DiskFault
        → D.fault_count disk.new ≡ D.fault_count disk.old }
    ensures counts { D.fault_count disk.old ≤ D.fault_count disk.new }

    // Where no call of the disk is planned to fail, no fault is told.
    ensures unfailing { IsUnfailing (D.fault_plan disk.old)
        → (result ≢ Err CkRefused.DiskFault) × IsUnfailing (D.fault_plan disk.new) }
{
    settle(alloc, disk)?;
    let last = LastText::find(alloc, disk)?;
    let recovered = Recovered::of(alloc, last)?;
    Ok(recovered)
}
