//! What may be expected of the next takes of a source, so that a thread that must not wait takes from no pipe.
ghost use Rattle.std.specs.Prelude.{◌≡◌, IfOk, IfErr};
ghost use Rattle.std.specs.Fs.{file_type, metadata_len, IsFile};

use std::fs::Metadata;
use std::io;

/// What may be expected of the next takes of a source.
#[derive(Clone, Copy, PartialEq, Eq)]
pub enum Supply {
    /// It doesn't tell.
    Untold,
    /// A regular file: a take waits for the device at most.
    File {
        /// How many bytes it had when it was opened.
        bytes: u64,
    },
    /// Anything else, as a pipe or a terminal: a take may wait for as long as nobody writes.
    Pausing,
}

impl Supply {
    /// What may be expected of an opened file, by what asking for its metadata came to. Where that can't be had a take
    /// may wait.
    pub(crate) fn of_opened(asked: io::Result<Metadata>) -> Supply
        ensures file { IfOk asked
            (λ m. IsFile (file_type m) → result ≡ Supply.File (metadata_len m)) }
        ensures other { IfOk asked (λ m. ¬ IsFile (file_type m) → result ≡ Supply.Pausing) }
        ensures unknown { IfErr asked (λ _. result ≡ Supply.Pausing) }
    {
        match asked {
            Ok(metadata) => if metadata.is_file() {
                Supply::File {
                    bytes: metadata.len(),
                }
            } else {
                Supply::Pausing
            },
            Err(_) => Supply::Pausing,
        }
    }
}
