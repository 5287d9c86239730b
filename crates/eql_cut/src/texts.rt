//! Texts, by their UTF-8 bytes.
ghost use Rattle.std.specs.Prelude.{◌≡◌, ◌++◌, ◌≤◌, Option, Some, None};
ghost use Rattle.std.specs.Prelude.{OnOk, IfSome, IfNone, length, string_bytes, take, drop};
ghost use Rattle.std.specs.Str.{chars, is_utf8};

use crate::coded::Coded;
use crate::reader::{CutRefused, Reader, Version};
use eql_values::Text;
use std::alloc::{AllocError, Global};

impl Coded for Text {
    ghost use Rattle.eql_cut.specs.Values.{text};

    ghost format = { λ v. text };

    ghost ordered = { λ x. Unit {0} };

    fn write(&self, to: &mut Vec<u8>) -> Result<(), AllocError> {
        let bytes = self.text().as_bytes();
        (bytes.len() as u64).write(to)?;
        to.extend_from_slice(bytes)?;
        Ok(())
    }

    fn read(from: &mut Reader, alloc: Global, of: Version) -> Result<Text, CutRefused> {
        let at = from.place();
        let count = u64::read(from, alloc, of)?;
        match from.take(count as usize) {
            Some(bytes) => match str::from_utf8(bytes) {
                Ok(s) => Ok(Text::of(String::from_str(alloc, s)?)),
                Err(_) => Err(CutRefused::Damaged { at }),
            },
            None => Err(CutRefused::Damaged { at }),
        }
    }
}
