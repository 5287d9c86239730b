//! Plans from the texts of queries.
use eql_check::{Mapping, can_check, check};
use eql_lexer::lex;
use eql_parser::parse;
use eql_stages::Plan;
use std::alloc::Global;
use std::test::Fail;

/// The fields that queries name.
static MAPPING: &[u8] = br#"{"process.name":"keyword","user.name":"keyword"}"#;

/// The query of the reference's example of pending sequences.
pub(crate) static REFERENCE: &[u8] =
    br#"sequence by user.name [process where process.name == "attrib"] [process where process.name == "bash"] [process where process.name == "cat"]"#;

/// The plan of a query, with no tiebreaker.
pub(crate) fn plan_of(alloc: Global, query: &[u8]) -> Result<Plan, Fail> {
    let Ok(tokens) = lex(alloc, query) else {
        return Err(Fail::new("no tokens"));
    };
    let Ok(query) = parse(alloc, &tokens) else {
        return Err(Fail::new("no query"));
    };
    let mapping = Mapping::read(alloc, MAPPING)?;
    if !can_check(&query) {
        return Err(Fail::new("a long query"));
    }
    let Ok(checked) = check(alloc, &query, &mapping) else {
        return Err(Fail::new("a query that breaks a rule"));
    };
    Ok(Plan::make(alloc, checked, None)?)
}
