//! Opening a file of the shelf, and reading one up to a number of bytes.
ghost use Rattle.std.specs.Prelude.{◌≡◌, ◌≤◌, ◌<◌, IfOk, IfErr, length, string_bytes};
ghost use Rattle.eql_outside.specs.Unfailing.{IsUnfailing};
ghost use Rattle.eql_inputs.specs.Fronts.{IsFrontOf, IsMissing, IsWholeFile};
ghost use Rattle.eql_inputs.specs.Shelves.{OpensShelf, ReadsShelf};
ghost use Rattle.eql_inputs.specs.Steps.{StopsReading};

use crate::error::{InputError, Refused};
use crate::front::read_front;
use eql_outside::{OutRefused, Shelf, unfailing_stays};
use eql_words::Name;
use std::alloc::Global;

/// Opens the file of this name: a source over it, from its first byte on, whose count of faults is 0.
pub fn open_file<'a, H: Shelf>(
    alloc: Global,
    name: &'a Name,
    shelf: &mut H,
) -> Result<H::Src, InputError<'a>>
    ensures whole { IfOk result
        (λ source. IsWholeFile name.now (H.files shelf.old) (H.Src.left source)) }
    ensures fresh { IfOk result (λ source. H.Src.fault_count source ≡ 0) }
    ensures named { IfOk result (λ source. H.Src.lent_as source ≡ Some name.now) }
    ensures cause { IfErr result
        (StopsReading name.now (IsMissing name.now (H.files shelf.old))) }
    ensures shelf { OpensShelf H.Shelf 1 (λ source. IsUnfailing (H.Src.fault_plan source))
        shelf.old shelf.new result }
{
    unfailing_stays();
    match shelf.source(alloc, name.name()) {
        Ok(Some(source)) => Ok(source),
        Ok(None) => Err(InputError::Refused(Refused::NoFile(name))),
        Err(OutRefused::Failed) => Err(InputError::Read(name)),
        Err(OutRefused::Memory) => Err(InputError::Memory),
    }
}

/// Reads the first `most` bytes of the file of this name, or all where it has fewer, and gives its source back. It takes
/// no more than these bytes of the file.
pub fn read_file<'a, H: Shelf>(
    alloc: Global,
    name: &'a Name,
    shelf: &mut H,
    most: usize,
) -> Result<Vec<u8>, InputError<'a>>
    requires { 0 < most }
    ensures front { IfOk result
        (λ text. IsFrontOf name.now (H.files shelf.old) most text.items) }
    ensures few { IfOk result (λ text. length text.items ≤ most) }
    ensures cause { IfErr result
        (StopsReading name.now (IsMissing name.now (H.files shelf.old))) }
    ensures shelf { ReadsShelf H.Shelf shelf.old shelf.new result }
{
    let mut source = open_file(alloc, name, shelf)?;
    let read = read_front(alloc, &mut source, most);
    shelf.give_source(source);
    match read {
        Ok(text) => Ok(text),
        Err(OutRefused::Failed) => Err(InputError::Read(name)),
        Err(OutRefused::Memory) => Err(InputError::Memory),
    }
}
