//! The canonical text of a query: one text for all ways to write it that differ only in blanks,
//! comments, escapes, parentheses that change nothing, and ways to name a field.
ghost use Rattle.std.specs.Prelude.{◌≡◌, IfOk};
ghost use Rattle.eql_parser.specs.Printed.{query_shown};
ghost use Rattle.eql_query.specs.QueryTree.{query_tree};

mod expression;
mod leaf;
mod list;
mod page;
mod symbol;
mod term;

use eql_query::Query;
use eql_values::{Memory, Text};
use page::Page;
use std::alloc::Global;
use term::{put_body, put_pipes};

/// The canonical text of a query. What a text that spells a query is printed as spells the same
/// query again. `Memory` where memory ran out.
pub fn print(alloc: Global, query: &Query) -> Result<Text, Memory>
    ensures { IfOk result (λ text. text ≡ query_shown (query_tree query.now)) }
{
    let mut page = Page::new(alloc);
    put_body(&mut page, &query.body)?;
    put_pipes(&mut page, query.pipes.items())?;
    Ok(page.into_text())
}
