//! The shelf over the files of a file system. The files themselves are trusted, so it tells nothing of content: it
//! keeps its counts, and nothing else.
ghost use Rattle.std.specs.Prelude.{◌≡◌, ◌↔◌, IfOk, IsTrue};
ghost use Rattle.eql_outside.specs.Shelves.{SaysAbsent};

use crate::disk::Disk;
use crate::disk::file::FileDisk;
use crate::faults::{Lent, NameFaults};
use crate::holding::{FileId, HeldCounts, LentFiles, locked};
use crate::refused::{DiskHeld, DiskRefused, Failed, OutRefused};
use crate::shelf::Shelf;
use crate::source::file::FileSource;
use crate::source::{ReadsAlike, Source};
use crate::supply::Supply;
use eql_values::Memory;
use std::alloc::Global;
use std::fs::{File, Files, OpenFile, OpenOptions, TryLockError};
use std::io::ErrorKind;
use std::{fs, io};

/// An open file that one run at a time has. The system gives the lock back when the file is closed, and so when a
/// process ends however it ends.
pub trait Locks: OpenFile {
    /// Takes the lock, or returns at once.
    fn try_lock(&self) -> Result<(), TryLockError>;
}

impl Locks for File {
    fn try_lock(&self) -> Result<(), TryLockError> {
        File::try_lock(self)
    }
}

/// The shelf of the files of a file system. A name is a path, absolute or from the current folder. The disk of a name
/// has its areas in two files, whose names are that name with `.0` and `.1` behind it. While the disk is out it has the
/// lock of the first one.
#[derive(Drop)]
pub struct FileShelf<R> {
    files: R,
    lent: LentFiles,
    faults: u64,
    names: NameFaults,
    absent: u64,
    out: bool,
    disk_faults: u64,
    held_counts: HeldCounts,
}

// Whether an open that was refused so says that no file has the name: it isn't there, or a file stands where its
// path needs a folder.
fn says_absent(kind: ErrorKind) -> bool
    ensures { IsTrue result ↔ SaysAbsent kind }
{
    matches!(kind, ErrorKind::NotFound | ErrorKind::NotADirectory)
}

impl<R: Files> FileShelf<R>
where
    R::File: ReadsAlike + Locks + Send + Sync,
{
    ghost use Rattle.std.specs.Prelude.{ℕ, false, List};

    /// The shelf of this file system.
    pub fn new(alloc: Global, files: R) -> FileShelf<R>
        ensures faults { ⟦<FileShelf<R> as Shelf>⟧.fault_count result ≡ 0 }
        ensures names { (name : List ℕ) → ⟦<FileShelf<R> as Shelf>⟧.faults_of result name ≡ 0 }
        ensures absent { ⟦<FileShelf<R> as Shelf>⟧.absent_count result ≡ 0 }
        ensures disk_faults { ⟦<FileShelf<R> as Shelf>⟧.disk_fault_count result ≡ 0 }
        ensures is_in { ⟦<FileShelf<R> as Shelf>⟧.is_out result ≡ false }
        ensures held { (why : DiskHeld) → ⟦<FileShelf<R> as Shelf>⟧.held_count result why ≡ 0 }
    {
        FileShelf {
            files,
            lent: LentFiles::none(alloc),
            faults: 0,
            names: NameFaults::End,
            absent: 0,
            out: false,
            disk_faults: 0,
            held_counts: HeldCounts::none(),
        }
    }
}

impl<R: Files> FileShelf<R>
where
    R::File: ReadsAlike,
{
    ghost use Rattle.std.specs.Prelude.{◌≢◌, ◌≤◌, List, Ok, Err, Some, None, IfOk, IfErr, IfSome, IsNone, IsOkAnd, IsSomeAnd};
    ghost use Rattle.std.specs.IoError.{error_kind};
    ghost use Rattle.eql_outside.specs.Outside.{Rose};
    ghost use Rattle.eql_outside.specs.Faults.{name_lent, faults_in, RoseFor, FaultsAreSame};

    // Notes an open file before it is lent, so that no disk has an area in it. One whose metadata can't be had isn't noted.
    fn note(&mut self, opened: &io::Result<R::File>) -> Result<(), Memory>
        ensures { self.new ≡ record self.old { lent = self.new.lent } }
    {
        if let Ok(file) = opened
            && let Ok(metadata) = file.metadata()
        {
            self.lent.add(FileId::of(&metadata))?;
        }
        Ok(())
    }

    // Returns what the open of a file came to. A file that is open is lent, and tells what may be expected of it. Where
    // the error says that there is none, it is absent. Any other error is a fault of the name.
    fn answer(
        &mut self,
        opened: io::Result<R::File>,
        lent: Lent,
    ) -> Result<Option<FileSource<R::File>>, OutRefused>
        ensures open { IfOk opened (λ file. IsOkAnd result (λ o. IsSomeAnd o
            (λ s. ⟦<FileSource<R::File> as Source>⟧.left s ≡ R.File.remaining file))) }
        ensures absent { IfErr opened (λ error. SaysAbsent (error_kind error) → result ≡ Ok None) }
        ensures failed { IfErr opened
            (λ error. ¬ SaysAbsent (error_kind error) → result ≡ Err OutRefused.Failed) }
        ensures fresh { IfOk result (λ o. IfSome o
            (λ s. ⟦<FileSource<R::File> as Source>⟧.fault_count s ≡ 0)) }
        ensures named { IfOk result (λ o. IfSome o
            (λ s. ⟦<FileSource<R::File> as Source>⟧.lent_as s ≡ Some (name_lent lent))) }
        ensures supplied { IfOk result (λ o. IfSome o
            (λ s. ⟦<FileSource<R::File> as Source>⟧.supply_of s ≢ Supply.Untold)) }
        ensures cause { result ≡ Err OutRefused.Failed → Rose self.old.faults self.new.faults }
        ensures cause_named { result ≡ Err OutRefused.Failed
            → RoseFor (name_lent lent) (faults_in self.old.names) (faults_in self.new.names) }
        ensures steady { result ≢ Err OutRefused.Failed → self.new.faults ≡ self.old.faults }
        ensures steady_named { result ≢ Err OutRefused.Failed
            → FaultsAreSame (faults_in self.old.names) (faults_in self.new.names) }
        ensures rose { IfOk result (λ o. IsNone o → Rose self.old.absent self.new.absent) }
        ensures present { result ≢ Ok None → self.new.absent ≡ self.old.absent }
        ensures counts { (self.old.faults ≤ self.new.faults)
            × (self.old.absent ≤ self.new.absent) }
        ensures disk_kept { (self.new.out ≡ self.old.out)
            × (self.new.disk_faults ≡ self.old.disk_faults)
            × (self.new.held_counts ≡ self.old.held_counts) }
    {
        match opened {
            Ok(file) => {
                let supply = Supply::of_opened(file.metadata());
                Ok(Some(FileSource::lend(file, lent, supply)))
            }
            Err(error) => if says_absent(error.kind()) {
                self.absent = self.absent.saturating_add(1);
                Ok(None)
            } else {
                self.faults = self.faults.saturating_add(1);
                self.names.add(lent);
                Err(OutRefused::Failed)
            },
        }
    }
}

impl<R> FileShelf<R> {
    ghost use Rattle.eql_outside.specs.Holding.{held_in};
    ghost use Rattle.eql_outside.specs.Keeping.{RisesWhere};

    // Counts a disk that isn't handed out.
    fn count(&mut self, refused: DiskRefused)
        ensures faults { RisesWhere (λ shelf. shelf.disk_faults) (refused ≡ DiskRefused.Failed)
            self.old self.new }
        ensures held { (why : DiskHeld) → RisesWhere (λ shelf. held_in shelf.held_counts why)
            (refused ≡ DiskRefused.Held why) self.old self.new }
        ensures kept { self.new ≡ record self.old {
          disk_faults = self.new.disk_faults;
          held_counts = self.new.held_counts;
        } }
    {
        match refused {
            DiskRefused::Held(why) => self.held_counts.add(why),
            DiskRefused::Failed => self.disk_faults = self.disk_faults.saturating_add(1),
            DiskRefused::Memory => {}
        }
    }
}

impl<R: Files> Shelf for FileShelf<R>
where
    R::File: ReadsAlike + Locks + Send + Sync,
{
    type Src = FileSource<R::File>;

    type Dsk = FileDisk<R::File>;

    ghost use Rattle.std.specs.Prelude.{None};
    ghost use Rattle.eql_outside.specs.Faults.{faults_in};
    ghost use Rattle.eql_outside.specs.Holding.{held_in};

    ghost files = { λ _. None };

    ghost fault_count = { λ s. s.faults };

    ghost faults_of = { λ s. faults_in s.names };

    ghost absent_count = { λ s. s.absent };

    ghost disk_history = { λ _. None };

    ghost is_out = { λ s. s.out };

    ghost disk_fault_count = { λ s. s.disk_faults };

    ghost held_count = { λ s. held_in s.held_counts };

    // Opening decides whether the file is there. A folder opens, and fails at its first read.
    fn source(
        &mut self,
        alloc: Global,
        name: &String,
    ) -> Result<Option<FileSource<R::File>>, OutRefused> {
        let lent = Lent::new(alloc, name)?;
        let opened = fs::open(&self.files, name.as_str());
        self.note(&opened)?;
        self.answer(opened, lent)
    }

    fn give_source(&mut self, src: FileSource<R::File>) {
        if src.faults() > 0 {
            self.faults = self.faults.saturating_add(1);
            if let Some(lent) = src.into_lent() {
                self.names.add(lent);
            }
        }
    }

    fn disk(&mut self, alloc: Global, name: &String) -> Result<FileDisk<R::File>, DiskRefused> {
        let first = format!(in alloc; "{}.0", name)?;
        let second = format!(in alloc; "{}.1", name)?;
        match open_disk(&self.files, &self.lent, &first, &second) {
            Ok(disk) => {
                self.out = true;
                Ok(disk)
            }
            Err(refused) => {
                self.count(refused);
                Err(refused)
            }
        }
    }

    fn give_disk(&mut self, disk: FileDisk<R::File>) {
        if disk.faults() > 0 {
            self.disk_faults = self.disk_faults.saturating_add(1);
        }
        self.out = false;
    }

    fn faults(&self) -> u64 {
        self.faults
    }

    fn disk_faults(&self) -> u64 {
        self.disk_faults
    }
}

// The file of an area, which is made where it isn't there, and which file that is.
fn open_area<R: Files>(files: &R, name: &String) -> Result<(R::File, FileId), Failed> {
    let mut options = OpenOptions::new();
    options.read(true).write(true).create(true);
    let file = options.open(files, name.as_str()).map_err(|_| Failed)?;
    let metadata = file.metadata().map_err(|_| Failed)?;
    Ok((file, FileId::of(&metadata)))
}

// The disk over the files of these names, with the lock of the first one, where neither is in use.
fn open_disk<R: Files>(
    files: &R,
    lent: &LentFiles,
    first: &String,
    second: &String,
) -> Result<FileDisk<R::File>, DiskRefused>
where
    R::File: Locks,
    ensures { IfOk result (λ d. ⟦<FileDisk<R::File> as Disk>⟧.fault_count d ≡ 0) }
{
    let (a, first) = open_area(files, first)?;
    let (b, second) = open_area(files, second)?;
    if let Some(area) = lent.shared(first, second) {
        return Err(DiskRefused::Held(DiskHeld::Shared(area)));
    }
    locked(a.try_lock())?;
    Ok(FileDisk::new(a, b))
}
