//! Finds the text that counts.
ghost use Rattle.std.specs.Prelude.{◌≡◌, ◌≢◌, ◌≤◌, Option, Some, Err, IfOk, IfErr, IfSome, OnOk, OnErr};
ghost use Rattle.eql_outside.specs.Areas.{seen_areas, store};
ghost use Rattle.eql_outside.specs.Moments.{DiskTells};
ghost use Rattle.eql_outside.specs.Outside.{Rose};
ghost use Rattle.eql_outside.specs.Unfailing.{IsUnfailing};
ghost use Rattle.eql_ckdisk.specs.Found.{found_on, holds};
ghost use Rattle.eql_ckdisk.specs.Going.{Goes};
ghost use Rattle.eql_ckdisk.specs.Keeping.{LeavesNoMore, KeepsAll};
ghost use Rattle.eql_ckdisk.specs.Refusing.{number_of, RefusesFound};

use crate::head::{HEAD_BYTES, Head};
use crate::refused::CkRefused;
use crate::state::{CkState, GREATEST};
use eql_outside::{Area, Disk, OutRefused, unfailing_stays};
use std::alloc::Global;

/// The text that counts, and where it stands.
#[derive(Drop)]
pub(crate) struct LastText {
    /// The text, where an area is open.
    pub(crate) text: Option<Vec<u8>>,
    /// The area and the generation, which is 0 where none is open.
    pub(crate) state: CkState,
}

/// The number of an area.
pub(crate) fn area_number(area: Area) -> u32
    ensures { result ≡ number_of area }
{
    match area {
        Area::A => 0,
        Area::B => 1,
    }
}

// The refusal of an area whose generation or length is at fault.
fn damaged_in(area: Area) -> CkRefused
    ensures { result ≡ CkRefused.Damaged (number_of area) 0 }
{
    CkRefused::Damaged {
        area: area_number(area),
        at: 0,
    }
}

// The refusal of an area that another program wrote.
fn foreign_in(area: Area) -> CkRefused
    ensures { result ≡ CkRefused.Foreign (number_of area) }
{
    CkRefused::Foreign {
        area: area_number(area),
    }
}

/// Keeps what reads give of both areas.
pub(crate) fn settle<D: Disk>(alloc: Global, disk: &mut D) -> Result<(), OutRefused>
    ensures ok { OnOk result (DiskTells KeepsAll (D.history disk.old) (D.history disk.new)) }
    ensures refused { OnErr result (DiskTells (Goes LeavesNoMore)
        (D.history disk.old) (D.history disk.new)) }
    ensures cause { result ≡ Err OutRefused.Failed
        → Rose (D.fault_count disk.old) (D.fault_count disk.new) }
    ensures steady { result ≢ Err OutRefused.Failed
        → D.fault_count disk.new ≡ D.fault_count disk.old }
    ensures counts { D.fault_count disk.old ≤ D.fault_count disk.new }
    ensures unfailing { IsUnfailing (D.fault_plan disk.old)
        → (result ≢ Err OutRefused.Failed) × IsUnfailing (D.fault_plan disk.new) }
{
    unfailing_stays();
    disk.sync(alloc, Area::A)?;
    disk.sync(alloc, Area::B)
}

impl LastText {
    ghost use Rattle.eql_ckdisk.specs.Heads.{IsHead, IsNoneOrText, IsTextFound};

    // The text of an open area with this head.
    fn in_area<D: Disk>(
        alloc: Global,
        disk: &mut D,
        area: Area,
        head: Head,
    ) -> Result<LastText, CkRefused>
        requires { IfSome (D.history disk.old) (λ h. IsHead (store area h.now).seen head) }
        ensures found { IfOk result (λ last. IfSome (D.history disk.old)
            (λ h. IsTextFound last (holds area (store area h.now).seen))) }
        ensures sound { IfOk result (λ last. IsNoneOrText last.text last.state.generation) }
        ensures refuses { IfErr result (λ e. IfSome (D.history disk.old)
            (λ h. RefusesFound e (holds area (store area h.now).seen))) }
        ensures limit { result ≢ Err CkRefused.Generation }
        ensures same { D.history disk.new ≡ D.history disk.old }
        ensures cause { result ≡ Err CkRefused.DiskFault
            → Rose (D.fault_count disk.old) (D.fault_count disk.new) }
        ensures steady { result ≢ Err CkRefused.DiskFault
            → D.fault_count disk.new ≡ D.fault_count disk.old }
        ensures counts { D.fault_count disk.old ≤ D.fault_count disk.new }
        ensures unfailing { IsUnfailing (D.fault_plan disk.old)
            → (result ≢ Err CkRefused.DiskFault) × IsUnfailing (D.fault_plan disk.new) }
    {
        unfailing_stays();
        if head.generation < 1 || head.generation > GREATEST {
            return Err(damaged_in(area));
        }
        let bytes = disk.read(alloc, area, HEAD_BYTES, head.length)?;
        if (bytes.len() as u64) < head.length {
            return Err(damaged_in(area));
        }
        Ok(LastText {
            text: Some(bytes),
            state: CkState::of(area, head.generation),
        })
    }

    /// Finds the text that counts, where neither area is another program's.
    pub(crate) fn find<D: Disk>(alloc: Global, disk: &mut D) -> Result<LastText, CkRefused>
        ensures found { IfOk result (λ last. IfSome (D.history disk.old)
            (λ h. IsTextFound last (found_on (seen_areas h.now)))) }
        ensures sound { IfOk result (λ last. IsNoneOrText last.text last.state.generation) }
        ensures refuses { IfErr result (λ e. IfSome (D.history disk.old)
            (λ h. RefusesFound e (found_on (seen_areas h.now)))) }
        ensures limit { result ≢ Err CkRefused.Generation }
        ensures same { D.history disk.new ≡ D.history disk.old }
        ensures cause { result ≡ Err CkRefused.DiskFault
            → Rose (D.fault_count disk.old) (D.fault_count disk.new) }
        ensures steady { result ≢ Err CkRefused.DiskFault
            → D.fault_count disk.new ≡ D.fault_count disk.old }
        ensures counts { D.fault_count disk.old ≤ D.fault_count disk.new }
        ensures unfailing { IsUnfailing (D.fault_plan disk.old)
            → (result ≢ Err CkRefused.DiskFault) × IsUnfailing (D.fault_plan disk.new) }
    {
        let a = Head::read(alloc, disk, Area::A)?;
        let b = Head::read(alloc, disk, Area::B)?;
        if a.foreign {
            return Err(foreign_in(Area::A));
        }
        if b.foreign {
            return Err(foreign_in(Area::B));
        }
        if a.open && (!b.open || b.generation <= a.generation) {
            return LastText::in_area(alloc, disk, Area::A, a);
        }
        if b.open {
            return LastText::in_area(alloc, disk, Area::B, b);
        }
        Ok(LastText {
            text: None,
            state: CkState::of(Area::A, 0),
        })
    }
}
