//! Finds a file in memory by its name.
ghost use Rattle.std.specs.Prelude.{◌≡◌, string_bytes, option_map};
ghost use Rattle.eql_outside.specs.Outside.{file_named};
ghost use Rattle.eql_outside.specs.Memory.{contents, planned_fails};

use crate::shelf::memory::MemFile;

/// The first file of this name.
pub(crate) fn find_named<'a>(files: &'a [MemFile], name: &String) -> Option<&'a MemFile>
    ensures bytes { option_map (λ f. f.now.bytes.items) result
        ≡ file_named (string_bytes name.now) (contents files.now) }
    ensures fails { option_map (λ f. f.now.fails.items) result
        ≡ file_named (string_bytes name.now) (planned_fails files.now) }
{
    for file in files {
        if file.name.as_str() == name.as_str() {
            return Some(file);
        }
    }
    None
}
