//! Standard output, of which a file can be kept. What stands behind it is trusted, so it tells nothing of content.
use crate::sink::WritesAlike;
use std::fs::{Files, OpenFile, OpenOptions};
use std::io::{Stdout, Write};
use std::{fs, io};

/// The file behind standard output, also where it has no name any more.
const BEHIND: &str = "/proc/self/fd/1";

/// Standard output, with the file system by which the file behind it is found.
#[derive(Drop)]
pub struct KeptStdout<R> {
    out: Stdout,
    files: R,
}

impl<R> KeptStdout<R> {
    /// Standard output, and the file system of its process.
    pub fn new(out: Stdout, files: R) -> KeptStdout<R> {
        KeptStdout { out, files }
    }
}

impl<R> Write for KeptStdout<R> {
    fn write(&mut self, bytes: &[u8]) -> io::Result<usize> {
        self.out.write(bytes)
    }

    fn flush(&mut self) -> io::Result<()> {
        self.out.flush()
    }
}

impl<R: Files> WritesAlike for KeptStdout<R> {
    ghost use Rattle.std.specs.Prelude.{refl};

    ghost alike = { λ writer other silent. refl };

    // The file is opened once more, to be read or, where that is refused, to be written: a stream has no call that syncs
    // it, and a sync is of the whole file, whichever open of it asks.
    fn keep_written(&self) -> io::Result<()> {
        if !fs::metadata(&self.files, BEHIND)?.is_file() {
            return Ok(());
        }
        fs::open(&self.files, BEHIND)
            .or_else(|_| OpenOptions::new().write(true).open(&self.files, BEHIND))?
            .sync_data()
    }
}
