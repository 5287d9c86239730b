//! The source over a file, or over any other reader. What stands behind a file is trusted: it tells nothing of
//! content, and so this tells nothing of it either. Over a reader that tells its bytes, this tells them.
ghost use Rattle.std.specs.Prelude.{◌≡◌, ◌≤◌, None, IfOk, length};
ghost use Rattle.std.specs.Io.KnownBytes.{ReadConsumes};

use crate::faults::Lent;
use crate::refused::Failed;
use crate::source::{ReadsAlike, Source};
use crate::supply::Supply;
use std::io::{ErrorKind, Read};

/// A source over an open file, or over any other reader.
#[derive(Drop)]
pub struct FileSource<F> {
    file: F,
    faults: u64,
    lent: Option<Lent>,
    supply: Supply,
}

impl<F: ReadsAlike> FileSource<F> {
    ghost use Rattle.std.specs.Prelude.{Some, option_map};
    ghost use Rattle.eql_outside.specs.Faults.{name_lent};

    /// A source that takes from there, and that no shelf lent.
    pub fn new(file: F) -> FileSource<F>
        ensures left { ⟦<FileSource<F> as Source>⟧.left result ≡ F.remaining file }
        ensures faults { ⟦<FileSource<F> as Source>⟧.fault_count result ≡ 0 }
        ensures apart { ⟦<FileSource<F> as Source>⟧.lent_as result ≡ None }
        ensures untold { ⟦<FileSource<F> as Source>⟧.supply_of result ≡ Supply.Untold }
    {
        FileSource {
            file,
            faults: 0,
            lent: None,
            supply: Supply::Untold,
        }
    }

    /// A source that takes from there, of which this may be expected, and that a shelf lends under a name.
    pub(crate) fn lend(file: F, lent: Lent, supply: Supply) -> FileSource<F>
        ensures left { ⟦<FileSource<F> as Source>⟧.left result ≡ F.remaining file }
        ensures faults { ⟦<FileSource<F> as Source>⟧.fault_count result ≡ 0 }
        ensures named { ⟦<FileSource<F> as Source>⟧.lent_as result ≡ Some (name_lent lent) }
        ensures supply { ⟦<FileSource<F> as Source>⟧.supply_of result ≡ supply }
    {
        FileSource {
            file,
            faults: 0,
            lent: Some(lent),
            supply,
        }
    }
}

impl<F: ReadsAlike + Drop> FileSource<F> {
    ghost use Rattle.std.specs.Prelude.{option_map};
    ghost use Rattle.eql_outside.specs.Faults.{name_lent};

    /// What the source was lent as, for the shelf that takes it back.
    pub(crate) fn into_lent(self) -> Option<Lent>
        ensures { option_map name_lent result ≡ ⟦<FileSource<F> as Source>⟧.lent_as self }
    {
        self.lent
    }
}

impl<F: ReadsAlike> Source for FileSource<F> {
    ghost use Rattle.std.specs.Prelude.{option_map};
    ghost use Rattle.eql_outside.specs.Faults.{name_lent};

    ghost left = { λ s. F.remaining s.file };

    ghost fault_count = { λ s. s.faults };

    ghost lent_as = { λ s. option_map name_lent s.lent };

    ghost supply_of = { λ s. s.supply };

    fn take(&mut self, into: &mut [u8]) -> Result<usize, Failed> {
        let taken = read_some(&mut self.file, into);
        if taken.is_err() {
            self.faults = self.faults.saturating_add(1);
        }
        taken
    }

    fn faults(&self) -> u64 {
        self.faults
    }

    fn supply(&self) -> Supply {
        self.supply
    }
}

/// One read, tried again where a signal came in between.
pub(crate) fn read_some<F: Read>(file: &mut F, into: &mut [u8]) -> Result<usize, Failed>
    ensures within { IfOk result (λ n. n ≤ length into.old) }
    ensures bytes { ReadConsumes (F.remaining file.old) (F.remaining file.new) result into.new }
{
    for _ in 0..u64::MAX {
        match file.read(into) {
            Ok(n) => return Ok(n),
            Err(error) => if error.kind() != ErrorKind::Interrupted {
                break;
            },
        }
    }
    Err(Failed)
}
