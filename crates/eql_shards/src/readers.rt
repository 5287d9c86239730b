//! What says which reader of lines a lane gets.
ghost use Rattle.std.specs.Prelude.{◌≡◌, IfOk};
ghost use Rattle.eql_values.specs.Accepted.{Reads};

use eql_values::{LineReader, Memory};
use std::alloc::Global;

/// What gives the lane of each shard its reader of lines.
pub trait Readers {
    /// A reader of lines.
    type Reader: LineReader + Drop;

    /// How its readers read lines.
    ghost reads: { Self → Reads };

    /// A reader for one lane.
    fn reader(&self, alloc: Global) -> Result<Self::Reader, Memory>
        ensures { IfOk result (λ reader. Self.Reader.read_of reader ≡ reads self.now) };
}
