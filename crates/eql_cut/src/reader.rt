//! A place in bytes that are read.
ghost use Rattle.std.specs.Prelude.{◌≡◌, ◌≤◌, ◌<◌, ◌↔◌, [], length, take, drop};
ghost use Rattle.std.specs.Prelude.{IsTrue, IfSome, IfNone};

use std::alloc::{AllocError, AllocFailed};

/// Why bytes are no text of a cut.
#[derive(Clone, Copy, Debug, PartialEq, Eq)]
pub enum CutRefused {
    /// They are none.
    Damaged {
        /// Where that is seen.
        at: u64,
    },
    /// Memory ran out.
    Memory,
}

impl From<AllocError> for CutRefused {
    ghost use Rattle.eql_cut.specs.declared.reader.CutRefused.{CutRefused as Refused};

    ghost from_gives = { λ _ r. r ≡ Refused.Memory };

    fn from(_error: AllocError) -> CutRefused {
        CutRefused::Memory
    }
}

impl<T: Drop> From<AllocFailed<T>> for CutRefused {
    ghost use Rattle.eql_cut.specs.declared.reader.CutRefused.{CutRefused as Refused};

    ghost from_gives = { λ _ r. r ≡ Refused.Memory };

    fn from(_error: AllocFailed<T>) -> CutRefused {
        CutRefused::Memory
    }
}

/// The formats of a cut's text. The last is written, and all are read.
#[derive(Clone, Copy, Debug, PartialEq, Eq)]
pub enum Version {
    /// As `Two`, and orders have no place.
    One,
    /// As `Three`, and masks have no stage above 128.
    Two,
    /// Lanes have no digest, addresses have four bytes, and nothing closes the text.
    Three,
    /// All is there.
    Four,
}

/// Bytes, of which those before a place were read.
#[derive(Drop)]
pub struct Reader<'a> {
    left: &'a [u8],
    at: u64,
}

impl<'a> Reader<'a> {
    /// All bytes are to be read.
    pub fn new(bytes: &'a [u8]) -> Reader<'a>
        ensures { result.left.now ≡ bytes.now }
    {
        Reader { left: bytes, at: 0 }
    }

    /// The next bytes, as many as asked for.
    pub(crate) fn take(&mut self, n: usize) -> Option<&'a [u8]>
        ensures some { IfSome result (λ bytes. (n ≤ length self.old.left.now)
            × (bytes.now ≡ take n self.old.left.now)
            × (self.new.left.now ≡ drop n self.old.left.now)) }
        ensures none { IfNone result ((length self.old.left.now < n)
            × (self.new.left.now ≡ self.old.left.now)) }
    {
        if self.left.len() < n {
            return None;
        }
        let bytes = &self.left[..n];
        self.left = &self.left[n..];
        self.at = self.at.saturating_add(n as u64);
        Some(bytes)
    }

    /// Whether nothing is left.
    pub(crate) fn is_done(&self) -> bool
        ensures { IsTrue result ↔ (self.now.left.now ≡ []) }
    {
        self.left.is_empty()
    }

    /// The number of bytes that are left.
    pub(crate) fn count_left(&self) -> usize
        ensures { result ≡ length self.now.left.now }
    {
        self.left.len()
    }

    /// The number of bytes that were read.
    pub(crate) fn place(&self) -> u64
        ensures { result ≡ self.now.at }
    {
        self.at
    }
}
