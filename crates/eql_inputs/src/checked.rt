//! The query and the mapping of a command, read and checked.
ghost use Rattle.std.specs.Prelude.{◌≡◌, IfOk, IfErr};
ghost use Rattle.eql_query.specs.QueryTree.{query_tree};
ghost use Rattle.eql_check.specs.Kinds.{kind_at};
ghost use Rattle.eql_check.specs.Typing.{IsChecked};
ghost use Rattle.eql_check.specs.Used.{used_fields};
ghost use Rattle.eql_inputs.specs.Shelves.{ReadsShelf};
ghost use Rattle.eql_inputs.specs.Steps.{GotQuery, GotMapping, GotChecked, HasQueryCause, HasMappingCause, HasCheckCause, StopsChecking};

use crate::error::InputError;
use crate::file::read_file;
use crate::query::{checked_of, mapping_of, query_in};
use eql_check::{Checked, Mapping};
use eql_outside::Shelf;
use eql_query::Query;
use eql_words::Name;
use std::alloc::Global;

/// How many bytes are taken of a query at most: one more than it may have, which shows that there are too many.
const QUERY_BYTES: usize = 65537;

/// How many bytes are taken of a mapping at most: one more than it may have.
const MAPPING_BYTES: usize = 4194305;

/// A query that was checked, and the mapping that it was checked against.
#[derive(Drop)]
pub struct Inputs {
    /// The query, with the fields that it uses.
    pub checked: Checked,
    /// The mapping.
    pub mapping: Mapping,
}

/// Reads the query.
fn read_query<'a, H: Shelf>(
    alloc: Global,
    query: &'a Name,
    shelf: &mut H,
) -> Result<Query, InputError<'a>>
    ensures query { IfOk result
        (λ tree. GotQuery query.now (H.files shelf.old) (query_tree tree)) }
    ensures cause { IfErr result (HasQueryCause query.now (H.files shelf.old)) }
    ensures shelf { ReadsShelf H.Shelf shelf.old shelf.new result }
{
    let text = read_file(alloc, query, shelf, QUERY_BYTES)?;
    query_in(alloc, text.as_slice())
}

/// Reads the mapping.
fn read_mapping<'a, H: Shelf>(
    alloc: Global,
    fields: &'a Name,
    shelf: &mut H,
) -> Result<Mapping, InputError<'a>>
    ensures mapping { IfOk result
        (λ mapping. GotMapping fields.now (H.files shelf.old) mapping) }
    ensures cause { IfErr result (HasMappingCause fields.now (H.files shelf.old)) }
    ensures shelf { ReadsShelf H.Shelf shelf.old shelf.new result }
{
    let text = read_file(alloc, fields, shelf, MAPPING_BYTES)?;
    mapping_of(alloc, text.as_slice())
}

/// The query with its mapping, where it breaks no rule.
fn checked_with<'a>(
    alloc: Global,
    query: &Query,
    mapping: Mapping,
) -> Result<Inputs, InputError<'a>>
    ensures checked { IfOk result (λ inputs. IsChecked (kind_at mapping) (query_tree query.now)
        × (query_tree inputs.checked.query ≡ query_tree query.now)
        × (inputs.mapping ≡ mapping)) }
    ensures fields { IfOk result (λ inputs. inputs.checked.fields
        ≡ used_fields (kind_at inputs.mapping) (query_tree inputs.checked.query)) }
    ensures cause { IfErr result (StopsChecking mapping (query_tree query.now)) }
{
    match checked_of(alloc, query, &mapping) {
        Ok(checked) => Ok(Inputs { checked, mapping }),
        Err(error) => Err(error),
    }
}

/// Reads the query and the mapping of these names, and checks the query. At most 65,537 bytes are taken of the query and
/// 4,194,305 of the mapping, and their sources are given back. A refusal is the first of those that there are, in this
/// order: the query isn't there, its text has no tokens, they are no query, the mapping isn't there, its text is none,
/// the query breaks a rule.
pub fn read_checked<'a, H: Shelf>(
    alloc: Global,
    query: &'a Name,
    fields: &'a Name,
    shelf: &mut H,
) -> Result<Inputs, InputError<'a>>
    ensures checked { IfOk result (λ inputs. GotChecked query.now fields.now (H.files shelf.old)
        (query_tree inputs.checked.query) inputs.mapping) }
    ensures fields { IfOk result (λ inputs. inputs.checked.fields
        ≡ used_fields (kind_at inputs.mapping) (query_tree inputs.checked.query)) }
    ensures cause { IfErr result (HasCheckCause query.now fields.now (H.files shelf.old)) }
    ensures shelf { ReadsShelf H.Shelf shelf.old shelf.new result }
{
    let tree = read_query(alloc, query, shelf)?;
    let mapping = read_mapping(alloc, fields, shelf)?;
    checked_with(alloc, &tree, mapping)
}
