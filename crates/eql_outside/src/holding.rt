//! Why a disk isn't handed out though nothing failed: which files are in use, what an answer about a lock means, and
//! how often that was.
ghost use Rattle.std.specs.Prelude.{◌≡◌, ◌↔◌, ◌++◌, [], ◌∷◌, Some, Err, IfErr, IsOk, OnOk, OnErr};
ghost use Rattle.eql_outside.specs.Holding.{held_in, IsShared, refusal_of};
ghost use Rattle.eql_outside.specs.Keeping.{RisesWhere};

use crate::disk::Area;
use crate::refused::{DiskHeld, DiskRefused};
use eql_values::Memory;
use std::alloc::Global;
use std::fs::{Metadata, TryLockError};
use std::os::unix::fs::MetadataExt;

/// Which file of the system a file is: two names of one file have the same.
#[derive(Clone, Copy, PartialEq, Eq)]
pub(crate) struct FileId {
    device: u64,
    inode: u64,
}

impl FileId {
    /// That of the file with this metadata.
    pub(crate) fn of(metadata: &Metadata) -> FileId {
        FileId {
            device: metadata.dev(),
            inode: metadata.ino(),
        }
    }
}

/// The files that a shelf has lent.
#[derive(Drop)]
pub(crate) struct LentFiles {
    ids: Vec<FileId>,
}

impl LentFiles {
    /// None.
    pub(crate) fn none(alloc: Global) -> LentFiles
        ensures { result.ids.items ≡ [] }
    {
        LentFiles {
            ids: Vec::new(alloc),
        }
    }

    /// Notes one more.
    pub(crate) fn add(&mut self, id: FileId) -> Result<(), Memory>
        ensures ok { OnOk result (self.new.ids.items ≡ self.old.ids.items ++ id ∷ []) }
        ensures refused { OnErr result (self.new.ids.items ≡ self.old.ids.items) }
    {
        Ok(self.ids.push(id)?)
    }

    /// The first of the two areas whose file is in use: it was lent, or it is there for both areas.
    pub(crate) fn shared(&self, first: FileId, second: FileId) -> Option<Area>
        ensures { (area : Area) → (result ≡ Some area)
            ↔ IsShared self.now.ids.items first second area }
    {
        if self.ids.contains(&first) {
            Some(Area::A)
        } else if self.ids.contains(&second) || second == first {
            Some(Area::B)
        } else {
            None
        }
    }
}

/// What it means for a disk how asking for its lock ended.
pub(crate) fn locked(asked: Result<(), TryLockError>) -> Result<(), DiskRefused>
    ensures ok { OnOk asked (IsOk result) }
    ensures refused { IfErr asked (λ error. result ≡ Err (refusal_of error)) }
{
    match asked {
        Ok(()) => Ok(()),
        Err(TryLockError::WouldBlock) => Err(DiskRefused::Held(DiskHeld::Busy)),
        Err(TryLockError::Error(_)) => Err(DiskRefused::Failed),
    }
}

/// How often a disk wasn't handed out, by the reason.
#[derive(Clone, Copy)]
pub(crate) struct HeldCounts {
    busy: u64,
    first: u64,
    second: u64,
}

impl HeldCounts {
    /// Never.
    pub(crate) fn none() -> HeldCounts
        ensures { (why : DiskHeld) → held_in result why ≡ 0 }
    {
        HeldCounts {
            busy: 0,
            first: 0,
            second: 0,
        }
    }

    /// Counts once more for this reason. A count stands still at the greatest of its type.
    pub(crate) fn add(&mut self, why: DiskHeld)
        ensures { (any : DiskHeld)
            → RisesWhere (λ counts. held_in counts any) (any ≡ why) self.old self.new }
    {
        match why {
            DiskHeld::Busy => self.busy = self.busy.saturating_add(1),
            DiskHeld::Shared(Area::A) => self.first = self.first.saturating_add(1),
            DiskHeld::Shared(Area::B) => self.second = self.second.saturating_add(1),
        }
    }
}
