//! What is kept of a shard.
ghost use Rattle.std.specs.Prelude.{◌≡◌, IsTrue};
ghost use Rattle.eql_cut.specs.Values.{items_ascend};

use crate::coded::Coded;
use crate::reader::{CutRefused, Reader, Version};
use eql_digest::Digest;
use eql_values::{Counts, Items, LaneCut};
use std::alloc::{AllocError, Global};

impl Coded for LaneCut {
    ghost use Rattle.eql_cut.specs.Values.{lane};

    ghost format = { lane };

    ghost ordered = { λ l. IsTrue (items_ascend l.items) };

    fn write(&self, to: &mut Vec<u8>) -> Result<(), AllocError> {
        self.offset.write(to)?;
        self.digest.write(to)?;
        self.closed.write(to)?;
        self.best.write(to)?;
        self.counts.write(to)?;
        self.items.write(to)
    }

    fn read(from: &mut Reader, alloc: Global, of: Version) -> Result<LaneCut, CutRefused> {
        Ok(LaneCut {
            offset: u64::read(from, alloc, of)?,
            digest: Digest::read(from, alloc, of)?,
            closed: bool::read(from, alloc, of)?,
            best: Option::read(from, alloc, of)?,
            counts: Counts::read(from, alloc, of)?,
            items: Items::read(from, alloc, of)?,
        })
    }
}
