//! A write that is kept before anything else is done.
ghost use Rattle.std.specs.Prelude.{◌≡◌, ◌≢◌, ◌≤◌, Err, IfSome, OnOk, OnErr, length};
ghost use Rattle.eql_outside.specs.Areas.{store};
ghost use Rattle.eql_outside.specs.Moments.{DiskTells};
ghost use Rattle.eql_outside.specs.Outside.{Rose};
ghost use Rattle.eql_outside.specs.Unfailing.{IsUnfailing};
ghost use Rattle.eql_ckdisk.specs.Writing.{WritesAndSyncs, WroteThrough};

use eql_outside::{Area, Disk, OutRefused, crashes_leave_images, unfailing_stays};
use std::alloc::Global;

/// Writes bytes to an area from a place on, and syncs the area.
pub(crate) fn write_through<D: Disk>(
    alloc: Global,
    disk: &mut D,
    area: Area,
    at: u64,
    bytes: &[u8],
) -> Result<(), OutRefused>
    requires { IfSome (D.history disk.old) (λ h. at ≤ length (store area h.now).seen) }
    ensures ok { OnOk result (DiskTells (WroteThrough area (record { at = at; bytes = bytes.now }))
        (D.history disk.old) (D.history disk.new)) }
    ensures refused { OnErr result (DiskTells
        (WritesAndSyncs area (record { at = at; bytes = bytes.now }))
        (D.history disk.old) (D.history disk.new)) }
    ensures cause { result ≡ Err OutRefused.Failed
        → Rose (D.fault_count disk.old) (D.fault_count disk.new) }
    ensures steady { result ≢ Err OutRefused.Failed
        → D.fault_count disk.new ≡ D.fault_count disk.old }
    ensures counts { D.fault_count disk.old ≤ D.fault_count disk.new }
    ensures unfailing { IsUnfailing (D.fault_plan disk.old)
        → (result ≢ Err OutRefused.Failed) × IsUnfailing (D.fault_plan disk.new) }
{
    crashes_leave_images();
    unfailing_stays();
    disk.write(alloc, area, at, bytes)?;
    disk.sync(alloc, area)
}
