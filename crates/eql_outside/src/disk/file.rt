//! The disk over two files. The files themselves are trusted, so it tells nothing of content: it keeps its count, and
//! nothing else.
ghost use Rattle.std.specs.Prelude.{◌≡◌, ◌≢◌, ◌≤◌, None, Err, IfOk, length};
ghost use Rattle.eql_outside.specs.Outside.{Rose};

use crate::disk::{Area, Disk};
use crate::refused::OutRefused;
use crate::sink::stream::write_on;
use crate::source::file::read_some;
use std::alloc::Global;
use std::fs::OpenFile;
use std::io::{Read, Seek, SeekFrom, Write};

/// How many bytes are asked of a file at a time.
const PIECE_BYTES: usize = 4096;

/// A disk whose areas are two open files.
#[derive(Drop)]
pub struct FileDisk<F> {
    a: F,
    b: F,
    faults: u64,
}

impl<F: Read + Write + Seek + OpenFile> FileDisk<F> {
    /// The disk of these files, which are open to be read and written.
    pub fn new(a: F, b: F) -> FileDisk<F>
        ensures history { ⟦<FileDisk<F> as Disk>⟧.history result ≡ None }
        ensures faults { ⟦<FileDisk<F> as Disk>⟧.fault_count result ≡ 0 }
    {
        FileDisk { a, b, faults: 0 }
    }

    // Counts a fault, if the result is one.
    fn count<T>(&mut self, answer: Result<T, OutRefused>) -> Result<T, OutRefused>
        ensures same { result ≡ answer }
        ensures cause { answer ≡ Err OutRefused.Failed → Rose self.old.faults self.new.faults }
        ensures steady { answer ≢ Err OutRefused.Failed → self.new.faults ≡ self.old.faults }
        ensures counts { self.old.faults ≤ self.new.faults }
    {
        if let Err(OutRefused::Failed) = answer {
            self.faults = self.faults.saturating_add(1);
        }
        answer
    }
}

// Reads up to `len` bytes that stand in a file from `at` on. It takes memory only for bytes that were read.
fn read_at<F: Read + Seek>(
    alloc: Global,
    file: &mut F,
    at: u64,
    len: u64,
) -> Result<Vec<u8>, OutRefused>
    ensures { IfOk result (λ bytes. length bytes.items ≤ len) }
{
    if file.seek(SeekFrom::Start(at)).is_err() {
        return Err(OutRefused::Failed);
    }
    let mut bytes = Vec::new(alloc);
    let mut piece = [0u8; PIECE_BYTES];
    let len = len as usize;
    while bytes.len() < len {
        let wanted = (len - bytes.len()).min(PIECE_BYTES);
        let n = read_some(file, &mut piece[..wanted])?;
        if n == 0 {
            break;
        }
        bytes.extend_from_slice(&piece[..n])?;
    }
    Ok(bytes)
}

// Writes bytes over what stands in a file from `at` on, and past its end.
fn write_at<F: Write + Seek>(file: &mut F, at: u64, bytes: &[u8]) -> Result<(), OutRefused> {
    if file.seek(SeekFrom::Start(at)).is_err() {
        return Err(OutRefused::Failed);
    }
    Ok(write_on(file, bytes)?)
}

// Keeps what was written to a file.
fn sync_all<F: OpenFile>(file: &F) -> Result<(), OutRefused> {
    match file.sync_all() {
        Ok(()) => Ok(()),
        Err(_) => Err(OutRefused::Failed),
    }
}

impl<F: Read + Write + Seek + OpenFile> Disk for FileDisk<F> {
    ghost history = { λ _. None };

    ghost fault_count = { λ d. d.faults };

    fn read(
        &mut self,
        alloc: Global,
        area: Area,
        at: u64,
        len: u64,
    ) -> Result<Vec<u8>, OutRefused> {
        let answer = match area {
            Area::A => read_at(alloc, &mut self.a, at, len),
            Area::B => read_at(alloc, &mut self.b, at, len),
        };
        self.count(answer)
    }

    fn write(
        &mut self,
        _alloc: Global,
        area: Area,
        at: u64,
        bytes: &[u8],
    ) -> Result<(), OutRefused> {
        let answer = match area {
            Area::A => write_at(&mut self.a, at, bytes),
            Area::B => write_at(&mut self.b, at, bytes),
        };
        self.count(answer)
    }

    fn sync(&mut self, _alloc: Global, area: Area) -> Result<(), OutRefused> {
        let answer = match area {
            Area::A => sync_all(&self.a),
            Area::B => sync_all(&self.b),
        };
        self.count(answer)
    }

    fn faults(&self) -> u64 {
        self.faults
    }
}
