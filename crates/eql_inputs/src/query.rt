//! From the texts of a query and of a mapping to the checked query.
ghost use Rattle.std.specs.Prelude.{◌≡◌, IfOk, IfErr, Ok};
ghost use Rattle.eql_query.specs.QueryTree.{query_tree};
ghost use Rattle.eql_check.specs.Kinds.{kind_at};
ghost use Rattle.eql_check.specs.Mappings.{mapping_of};
ghost use Rattle.eql_check.specs.Typing.{IsChecked};
ghost use Rattle.eql_check.specs.Used.{used_fields};
ghost use Rattle.eql_runs.specs.Files.{HasTokens, ReadsAs};
ghost use Rattle.eql_inputs.specs.Steps.{error_of_lex, error_of_map, error_of_check, IsQueryText, StopsSpelling, StopsParsing, StopsQuery, StopsMapping, StopsChecking};

use crate::error::{InputError, Refused};
use eql_check::{CheckRefused, Checked, MapRefused, Mapping, can_check, check};
use eql_lexer::{LexRefused, Tokens, lex};
use eql_parser::{ParseRefused, parse};
use eql_query::Query;
use std::alloc::Global;

/// The tokens of a query's text.
pub(crate) fn tokens_of<'a>(alloc: Global, text: &[u8]) -> Result<Tokens, InputError<'a>>
    ensures tokens { IfOk result (λ tokens. HasTokens text.now tokens) }
    ensures cause { IfErr result (StopsSpelling text.now) }
{
    match lex(alloc, text) {
        Ok(tokens) => Ok(tokens),
        Err(refused) => Err(error_of_lex(refused)),
    }
}

/// The error of a text that has no tokens.
fn error_of_lex<'a>(refused: LexRefused) -> InputError<'a>
    ensures { result ≡ error_of_lex refused }
{
    match refused {
        LexRefused::Memory => InputError::Memory,
        _ => InputError::Refused(Refused::Lex(refused)),
    }
}

/// The query that tokens are.
pub(crate) fn query_of<'a>(alloc: Global, tokens: &Tokens) -> Result<Query, InputError<'a>>
    ensures query { IfOk result (λ query. ReadsAs tokens.now (query_tree query)) }
    ensures cause { IfErr result (StopsParsing tokens.now) }
{
    match parse(alloc, tokens) {
        Ok(query) => Ok(query),
        Err(ParseRefused::Memory) => Err(InputError::Memory),
        Err(refused) => Err(InputError::Refused(Refused::Parse(refused))),
    }
}

/// The mapping that a text is.
pub(crate) fn mapping_of<'a>(alloc: Global, text: &[u8]) -> Result<Mapping, InputError<'a>>
    ensures mapping { IfOk result (λ mapping. mapping_of text.now ≡ Ok mapping) }
    ensures cause { IfErr result (StopsMapping text.now) }
{
    match Mapping::read(alloc, text) {
        Ok(mapping) => Ok(mapping),
        Err(refused) => Err(error_of_map(refused)),
    }
}

/// The error of a text that is no mapping.
fn error_of_map<'a>(refused: MapRefused) -> InputError<'a>
    ensures { result ≡ error_of_map refused }
{
    match &refused {
        MapRefused::Memory => InputError::Memory,
        _ => InputError::Refused(Refused::Mapping(refused)),
    }
}

/// The query, checked against the mapping. A query with more items than can be checked takes more memory than there is.
pub(crate) fn checked_of<'a>(
    alloc: Global,
    query: &Query,
    mapping: &Mapping,
) -> Result<Checked, InputError<'a>>
    ensures checked { IfOk result
        (λ _. IsChecked (kind_at mapping.now) (query_tree query.now)) }
    ensures query { IfOk result (λ checked. query_tree checked.query ≡ query_tree query.now) }
    ensures fields { IfOk result
        (λ checked. checked.fields ≡ used_fields (kind_at mapping.now) (query_tree query.now)) }
    ensures cause { IfErr result (StopsChecking mapping.now (query_tree query.now)) }
{
    if !can_check(query) {
        return Err(InputError::Memory);
    }
    match check(alloc, query, mapping) {
        Ok(checked) => Ok(checked),
        Err(refused) => Err(error_of_check(refused)),
    }
}

/// The error of a query that breaks a rule.
fn error_of_check<'a>(refused: CheckRefused) -> InputError<'a>
    ensures { result ≡ error_of_check refused }
{
    match &refused {
        CheckRefused::Memory => InputError::Memory,
        _ => InputError::Refused(Refused::Broken(refused)),
    }
}

/// The query of a text.
pub(crate) fn query_in<'a>(alloc: Global, text: &[u8]) -> Result<Query, InputError<'a>>
    ensures query { IfOk result (λ query. IsQueryText text.now (query_tree query)) }
    ensures cause { IfErr result (StopsQuery text.now) }
{
    let tokens = tokens_of(alloc, text)?;
    query_of(alloc, &tokens)
}
