//! The shards of a command, opened.
ghost use Rattle.std.specs.Prelude.{◌≡◌, ◌≤◌, [], All, IfOk, IfErr, IsOk, Some, length, map, vec_capacity};
ghost use Rattle.eql_outside.specs.Unfailing.{IsUnfailing};
ghost use Rattle.eql_inputs.specs.Errors.{IsNoFault};
ghost use Rattle.eql_inputs.specs.Shelves.{CountsAreTold, KeepsShelf, LendsMore, NeverFails, OpensShelf};
ghost use Rattle.eql_shards.specs.Shards.{AreWholeFiles, HasShardsCause};

use crate::giving::give_sources;
use eql_inputs::{InputError, open_file};
use eql_outside::Shelf;
use eql_words::{Name, Names};
use std::alloc::Global;

/// Opens the shards, and puts their sources into an empty list that has room for them. Where that stops, those that were
/// opened stand in the list.
fn open_all<'a, H: Shelf>(
    alloc: Global,
    shards: &'a [Name],
    shelf: &mut H,
    sources: &mut Vec<H::Src>,
) -> Result<(), InputError<'a>>
    requires empty { sources.old.items ≡ [] }
    requires room { length shards.now ≤ vec_capacity sources.old }
    ensures whole { IsOk result → AreWholeFiles shards.now (H.files shelf.old)
        (map H.Src.left sources.new.items) }
    ensures named { IsOk result → map H.Src.lent_as sources.new.items
        ≡ map (λ name. Some name) shards.now }
    ensures fresh { All (λ source. H.Src.fault_count source ≡ 0) sources.new.items }
    ensures cause { IfErr result (HasShardsCause shards.now (H.files shelf.old)) }
    ensures told { CountsAreTold H.Shelf shelf.old shelf.new result }
    ensures kept { KeepsShelf H.Shelf shelf.old shelf.new }
    ensures lent { LendsMore (length sources.new.items)
        (H.lent_count shelf.old) (H.lent_count shelf.new) }
    ensures many { IsOk result → length sources.new.items ≡ length shards.now }
    ensures unfailing { NeverFails (H.fault_plan shelf.old) (H.source_plans shelf.old)
        → IfErr result IsNoFault
        × All (λ source. IsUnfailing (H.Src.fault_plan source)) sources.new.items
        × NeverFails (H.fault_plan shelf.new) (H.source_plans shelf.new) }
{
    for name in shards.iter() {
        match open_file(alloc, name, shelf) {
            Ok(source) => sources.push_reserved(source),
            Err(error) => return Err(error),
        }
    }
    Ok(())
}

/// Opens the shards: a source over each, in their order, from its first byte on, whose count of faults is 0. Where a
/// shard isn't there or can't be opened, those that were opened are given back.
pub fn open_shards<'a, H: Shelf>(
    alloc: Global,
    shards: &'a Names,
    shelf: &mut H,
) -> Result<Vec<H::Src>, InputError<'a>>
    ensures whole { IfOk result (λ sources. AreWholeFiles shards.now (H.files shelf.old)
        (map H.Src.left sources.items)) }
    ensures named { IfOk result (λ sources. map H.Src.lent_as sources.items
        ≡ map (λ name. Some name) shards.now) }
    ensures fresh { IfOk result
        (λ sources. All (λ source. H.Src.fault_count source ≡ 0) sources.items) }
    ensures cause { IfErr result (HasShardsCause shards.now (H.files shelf.old)) }
    ensures shelf { OpensShelf H.Shelf (length shards.now)
        (λ sources. All (λ source. IsUnfailing (H.Src.fault_plan source)) sources.items)
        shelf.old shelf.new result }
{
    let names = shards.items().as_slice();
    let mut sources = match Vec::with_capacity(alloc, names.len()) {
        Ok(sources) => sources,
        Err(_) => return Err(InputError::Memory),
    };
    match open_all(alloc, names, shelf, &mut sources) {
        Ok(()) => Ok(sources),
        Err(error) => {
            give_sources(sources, shelf);
            Err(error)
        }
    }
}
