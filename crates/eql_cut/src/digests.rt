//! The digest of what was read of a shard.
ghost use Rattle.std.specs.Prelude.{◌≡◌};

use crate::coded::Coded;
use crate::lists::write_each;
use crate::reader::{CutRefused, Reader, Version};
use eql_digest::Digest;
use std::alloc::{AllocError, Global};

impl Coded for [u64; 8] {
    ghost use Rattle.std.specs.Int.{w64};
    ghost use Rattle.eql_cut.specs.Formats.{number, so_many};

    ghost format = { λ v. so_many 8 (number w64) };

    ghost ordered = { λ x. Unit {0} };

    fn write(&self, to: &mut Vec<u8>) -> Result<(), AllocError> {
        write_each(self, to)
    }

    fn read(from: &mut Reader, alloc: Global, of: Version) -> Result<[u64; 8], CutRefused> {
        Ok([
            u64::read(from, alloc, of)?,
            u64::read(from, alloc, of)?,
            u64::read(from, alloc, of)?,
            u64::read(from, alloc, of)?,
            u64::read(from, alloc, of)?,
            u64::read(from, alloc, of)?,
            u64::read(from, alloc, of)?,
            u64::read(from, alloc, of)?,
        ])
    }
}

impl Coded for Digest {
    ghost use Rattle.eql_cut.specs.Values.{digest};

    ghost format = { digest };

    ghost ordered = { λ x. Unit {0} };

    fn write(&self, to: &mut Vec<u8>) -> Result<(), AllocError> {
        self.lanes.write(to)?;
        self.word.write(to)?;
        self.length.write(to)
    }

    fn read(from: &mut Reader, alloc: Global, of: Version) -> Result<Digest, CutRefused> {
        match of {
            Version::One | Version::Two | Version::Three => Ok(Digest::new()),
            Version::Four => Ok(Digest {
                lanes: <[u64; 8]>::read(from, alloc, of)?,
                word: u64::read(from, alloc, of)?,
                length: u64::read(from, alloc, of)?,
            }),
        }
    }
}
