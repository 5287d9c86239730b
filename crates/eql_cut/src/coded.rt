//! Values that have a spelling as bytes.
ghost use Rattle.std.specs.Prelude.{◌≡◌, ◌++◌, OnOk};
ghost use Rattle.eql_cut.specs.Formats.{Format};
ghost use Rattle.eql_cut.specs.Reading.{Reads};
ghost use Rattle.eql_cut.specs.declared.reader.Version.{Version};
ghost use Rattle.eql_cut.specs.declared.reader.Version.TheVariants as version;

use crate::reader::{CutRefused, Reader, Version};
use std::alloc::{AllocError, Global};

/// A value that has a spelling.
pub trait Coded {
    /// The spelling in each format.
    ghost format: { Version → Format Self };

    /// The orders that the value is to have: what no width says.
    ghost ordered: { Self → Type 0 };

    /// Writes the value at the end, in the last format. What was written has a spelling.
    fn write(&self, to: &mut Vec<u8>) -> Result<(), AllocError>
        requires { ordered self.now }
        ensures text { OnOk result
            (to.new.items ≡ to.old.items ++ (format version.Four).text self.now) }
        ensures fits { OnOk result ((format version.Four).Fits self.now) };

    /// Reads a value at the front of what is left.
    fn read(from: &mut Reader, alloc: Global, of: Version) -> Result<Self, CutRefused>
        ensures { Reads (format of) result from.old.left.now from.new.left.now };
}
