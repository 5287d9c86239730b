//! How queries and their parts are written.
ghost use Rattle.std.specs.Prelude.{◌≡◌, ◌++◌, OnOk, map};
ghost use Rattle.std.specs.Option.{option_map};
ghost use Rattle.eql_parser.specs.Adding.{Adds};
ghost use Rattle.eql_parser.specs.Printed.{category_shown, term_shown, bracketed_shown, runs_shown, items_shown, span_shown, unit_text, until_shown, body_shown, pipe_shown, pipes_shown};
ghost use Rattle.eql_query.specs.QueryTree.{term_tree, body_tree};

use super::expression::put_expr;
use super::leaf::put_quoted;
use super::list::put_by;
use super::page::Page;
use super::symbol::unit_text;
use eql_query::{Body, PipeText, Span, Term, Unit};
use eql_values::{Memory, Text};

/// Writes a category: a string, or `any`.
fn put_category(page: &mut Page, category: &Option<Text>) -> Result<(), Memory>
    ensures { OnOk result (Adds page.old page.new (category_shown category.now)) }
{
    match category {
        Some(name) => put_quoted(page, name),
        None => page.put("any"),
    }
}

/// Writes a category and a condition.
fn put_term(page: &mut Page, term: &Term) -> Result<(), Memory>
    ensures { OnOk result (Adds page.old page.new (term_shown (term_tree term.now))) }
{
    put_category(page, &term.category)?;
    page.put(" where ")?;
    put_expr(page, &term.cond)
}

/// Writes a term in brackets, and its keys.
fn put_bracketed(page: &mut Page, term: &Term) -> Result<(), Memory>
    ensures { OnOk result (Adds page.old page.new (bracketed_shown (term_tree term.now))) }
{
    page.put("[")?;
    put_term(page, term)?;
    page.put("]")?;
    put_by(page, term.by.items())
}

/// Writes how often an item stands in a row, where that isn't once.
fn put_runs(page: &mut Page, runs: &i64) -> Result<(), Memory>
    ensures { OnOk result (Adds page.old page.new (runs_shown runs.now)) }
{
    if *runs == 1 {
        return Ok(());
    }
    page.put(" with runs=")?;
    page.put_number(runs)
}

/// Writes the items of a sequence, each behind a space.
fn put_items(page: &mut Page, items: &[Term]) -> Result<(), Memory>
    ensures { OnOk result (Adds page.old page.new (items_shown (map term_tree items.now))) }
{
    for item in items {
        page.put(" ")?;
        put_bracketed(page, item)?;
        put_runs(page, &item.runs)?;
    }
    Ok(())
}

/// Writes a unit of time.
fn put_unit(page: &mut Page, unit: &Unit) -> Result<(), Memory>
    ensures { OnOk result (Adds page.old page.new (λ rest. unit_text unit.now ++ rest)) }
{
    page.put(unit_text(unit))
}

/// Writes the greatest time from the first event to the last, where there is one.
fn put_span(page: &mut Page, span: &Option<Span>) -> Result<(), Memory>
    ensures { OnOk result (Adds page.old page.new (span_shown span.now)) }
{
    let Some(span) = span else {
        return Ok(());
    };
    page.put(" with maxspan=")?;
    page.put_number(&span.count)?;
    put_unit(page, &span.unit)
}

/// Writes the item that ends sequences, where there is one.
fn put_until(page: &mut Page, until: &Option<Term>) -> Result<(), Memory>
    ensures { OnOk result (Adds page.old page.new (until_shown (option_map term_tree until.now))) }
{
    let Some(term) = until else {
        return Ok(());
    };
    page.put(" until ")?;
    put_bracketed(page, term)
}

/// Writes what a query looks for.
pub(crate) fn put_body(page: &mut Page, body: &Body) -> Result<(), Memory>
    ensures { OnOk result (Adds page.old page.new (body_shown (body_tree body.now))) }
{
    match body {
        Body::Event(term) => put_term(page, term),
        Body::Sequence {
            by,
            span,
            items,
            until,
        } => {
            page.put("sequence")?;
            put_by(page, by.items())?;
            put_span(page, span)?;
            put_items(page, items.items())?;
            put_until(page, until)
        }
    }
}

/// Writes a pipe.
fn put_pipe(page: &mut Page, pipe: &PipeText) -> Result<(), Memory>
    ensures { OnOk result (Adds page.old page.new (pipe_shown pipe.now)) }
{
    match pipe {
        PipeText::Head(count) => {
            page.put(" | head ")?;
            page.put_number(count)
        }
        PipeText::Tail(count) => {
            page.put(" | tail ")?;
            page.put_number(count)
        }
    }
}

/// Writes the pipes of a query.
pub(crate) fn put_pipes(page: &mut Page, pipes: &[PipeText]) -> Result<(), Memory>
    ensures { OnOk result (Adds page.old page.new (pipes_shown pipes.now)) }
{
    for pipe in pipes {
        put_pipe(page, pipe)?;
    }
    Ok(())
}
