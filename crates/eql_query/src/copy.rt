//! Copies of queries and of their parts.
ghost use Rattle.std.specs.Prelude.{◌≡◌, map, option_map, IfOk};
ghost use Rattle.eql_query.specs.View.{tree, trees};
ghost use Rattle.eql_query.specs.QueryTree.{body_tree, query_tree, term_tree};

use crate::expr::{Expr, Exprs, FieldRef, FieldRefs};
use crate::query::{Body, PipeTexts, Query, Term, Terms};
use eql_values::{Memory, Text};
use std::alloc::Global;

/// A copy of an expression.
#[cycle(copy)]
fn copy_expr(alloc: Global, expr: &Expr) -> Result<Expr, Memory>
    ensures { IfOk result (λ new. tree new ≡ tree expr.now) }
{
    match expr {
        Expr::Null => Ok(Expr::Null),
        Expr::Bool(b) => Ok(Expr::Bool(*b)),
        Expr::Long(n) => Ok(Expr::Long(*n)),
        Expr::Str(s) => Ok(Expr::Str(s.clone()?)),
        Expr::Field(field) => Ok(Expr::Field(copy_field(field)?)),
        Expr::Not(a) => Ok(Expr::Not(copy_box(alloc, a)?)),
        Expr::And(operands) => Ok(Expr::And(copy_exprs(alloc, operands)?)),
        Expr::Or(operands) => Ok(Expr::Or(copy_exprs(alloc, operands)?)),
        Expr::Cmp(op, a, b) => Ok(Expr::Cmp(*op, copy_box(alloc, a)?, copy_box(alloc, b)?)),
        Expr::Pattern(op, a, patterns) => Ok(Expr::Pattern(
            *op,
            copy_box(alloc, a)?,
            patterns.clone()?,
        )),
        Expr::Member {
            fold,
            negated,
            left,
            list,
        } => Ok(Expr::Member {
            fold: *fold,
            negated: *negated,
            left: copy_box(alloc, left)?,
            list: list.clone()?,
        }),
        Expr::Neg(a) => Ok(Expr::Neg(copy_box(alloc, a)?)),
        Expr::Math(op, a, b) => Ok(Expr::Math(*op, copy_box(alloc, a)?, copy_box(alloc, b)?)),
        Expr::Call { name, fold, args } => Ok(Expr::Call {
            name: name.clone()?,
            fold: *fold,
            args: copy_exprs(alloc, args)?,
        }),
    }
}

#[cycle(copy)]
fn copy_box(alloc: Global, expr: &Expr) -> Result<Box<Expr>, Memory>
    ensures { IfOk result (λ new. tree new.value ≡ tree expr.now) }
{
    let expr = copy_expr(alloc, expr)?;
    Ok(Box::new(alloc, expr)?)
}

#[cycle(copy)]
fn copy_exprs(alloc: Global, exprs: &Exprs) -> Result<Exprs, Memory>
    ensures { IfOk result (λ new. trees new ≡ trees exprs.now) }
{
    let mut items = Vec::with_capacity(alloc, exprs.items().len())?;
    for item in exprs.items() {
        items.push(copy_expr(alloc, item)?)?;
    }
    Ok(Exprs::of(items))
}

fn copy_field(field: &FieldRef) -> Result<FieldRef, Memory>
    ensures { IfOk result (λ new. new ≡ field.now) }
{
    Ok(FieldRef {
        name: field.name.clone()?,
        optional: field.optional,
    })
}

fn copy_fields(alloc: Global, fields: &FieldRefs) -> Result<FieldRefs, Memory>
    ensures { IfOk result (λ new. new ≡ fields.now) }
{
    let mut items = Vec::with_capacity(alloc, fields.items().len())?;
    for field in fields.items() {
        items.push(copy_field(field)?)?;
    }
    Ok(FieldRefs::of(items))
}

fn copy_category(category: &Option<Text>) -> Result<Option<Text>, Memory>
    ensures { IfOk result (λ new. new ≡ category.now) }
{
    match category {
        None => Ok(None),
        Some(name) => Ok(Some(name.clone()?)),
    }
}

fn copy_term(alloc: Global, term: &Term) -> Result<Term, Memory>
    ensures { IfOk result (λ new. term_tree new ≡ term_tree term.now) }
{
    Ok(Term {
        category: copy_category(&term.category)?,
        cond: copy_expr(alloc, &term.cond)?,
        by: copy_fields(alloc, &term.by)?,
        runs: term.runs,
    })
}

fn copy_terms(alloc: Global, terms: &Terms) -> Result<Terms, Memory>
    ensures { IfOk result (λ new. map term_tree new ≡ map term_tree terms.now) }
{
    let mut items = Vec::with_capacity(alloc, terms.items().len())?;
    for term in terms.items() {
        items.push(copy_term(alloc, term)?)?;
    }
    Ok(Terms::of(items))
}

fn copy_until(alloc: Global, until: &Option<Term>) -> Result<Option<Term>, Memory>
    ensures { IfOk result (λ new. option_map term_tree new ≡ option_map term_tree until.now) }
{
    match until {
        None => Ok(None),
        Some(term) => Ok(Some(copy_term(alloc, term)?)),
    }
}

fn copy_body(alloc: Global, body: &Body) -> Result<Body, Memory>
    ensures { IfOk result (λ new. body_tree new ≡ body_tree body.now) }
{
    match body {
        Body::Event(term) => Ok(Body::Event(copy_term(alloc, term)?)),
        Body::Sequence {
            by,
            span,
            items,
            until,
        } => Ok(Body::Sequence {
            by: copy_fields(alloc, by)?,
            span: *span,
            items: copy_terms(alloc, items)?,
            until: copy_until(alloc, until)?,
        }),
    }
}

/// A copy of a query: one with the same tree. `Memory` where memory ran out.
pub fn copy_query(alloc: Global, query: &Query) -> Result<Query, Memory>
    ensures { IfOk result (λ new. query_tree new ≡ query_tree query.now) }
{
    let pipes = query.pipes.items().clone()?;
    Ok(Query {
        body: copy_body(alloc, &query.body)?,
        pipes: PipeTexts::of(pipes),
    })
}
