//! Queries that no text is: counts below zero, and a `number` with a base.
use crate::tests::answer::{Asked, Trial, query_answers};
use eql_query::{
    Body, Expr, Exprs, FieldRefs, PipeText, PipeTexts, Query, Span, Term, Terms, Unit,
};
use eql_values::{Memory, Text};
use std::alloc::Global;
use std::process::Abort;
use std::test::Fail;

/// `any where cond`, so many in a row.
fn item(alloc: Global, cond: Expr, runs: i64) -> Term {
    Term {
        category: None,
        cond,
        by: FieldRefs::of(Vec::new(alloc)),
        runs,
    }
}

/// Single events that meet a condition, with these pipes.
fn event(alloc: Global, cond: Expr, pipes: PipeTexts) -> Query {
    Query {
        body: Body::Event(item(alloc, cond, 1)),
        pipes,
    }
}

/// Single events with this pipe.
fn piped(alloc: Global, pipe: PipeText) -> Result<Query, Memory> {
    let pipes = PipeTexts::of(vec![in alloc; pipe]?);
    Ok(event(alloc, Expr::Bool(true), pipes))
}

/// A sequence of one item, so many in a row, within so many days.
fn sequence(alloc: Global, runs: i64, days: i64) -> Result<Query, Memory> {
    let items = vec![in alloc; item(alloc, Expr::Bool(true), runs)]?;
    Ok(Query {
        body: Body::Sequence {
            by: FieldRefs::of(Vec::new(alloc)),
            span: Some(Span {
                count: days,
                unit: Unit::D,
            }),
            items: Terms::of(items),
            until: None,
        },
        pipes: PipeTexts::of(Vec::new(alloc)),
    })
}

/// The arguments of a `number` with the base 2.
fn based_args(alloc: Global) -> Result<Exprs, Memory> {
    let text = Text::of(String::from_str(alloc, "1")?);
    let args = vec![in alloc; Expr::Str(text), Expr::Long(2)]?;
    Ok(Exprs::of(args))
}

/// Single events that are a number with the base 2.
fn based(alloc: Global) -> Result<Query, Memory> {
    let name = Text::of(String::from_str(alloc, "number")?);
    let args = based_args(alloc)?;
    let number = Expr::Call {
        name,
        fold: false,
        args,
    };
    Ok(event(alloc, number, PipeTexts::of(Vec::new(alloc))))
}

/// A query that no text is.
enum Made {
    /// Single events with a pipe.
    Piped(PipeText),
    /// A sequence of one item, with its runs and days.
    Sequence(i64, i64),
    /// A number with a base.
    Based,
}

/// The query.
fn query_of(alloc: Global, made: &Made) -> Result<Query, Memory> {
    match made {
        Made::Piped(pipe) => piped(alloc, *pipe),
        Made::Sequence(runs, days) => sequence(alloc, *runs, *days),
        Made::Based => based(alloc),
    }
}

/// Names of queries, the queries, and what is returned for them.
static QUERIES: &[(&str, Made, &str)] = &[
    ("head -1", Made::Piped(PipeText::Head(-1)), "Pipe"),
    ("head 0", Made::Piped(PipeText::Head(0)), "0 keys"),
    ("tail -1", Made::Piped(PipeText::Tail(-1)), "Pipe"),
    ("tail 0", Made::Piped(PipeText::Tail(0)), "0 keys"),
    ("-1 runs in 1 days", Made::Sequence(-1, 1), "Runs -1"),
    ("2 runs in -1 days", Made::Sequence(2, -1), "Span"),
    (
        "2 runs in the fewest days",
        Made::Sequence(2, i64::MIN),
        "Span",
    ),
    ("2 runs in 1 days", Made::Sequence(2, 1), "0 keys"),
    ("number with a base", Made::Based, "Arity number"),
];

/// Sees that this is returned for a query.
fn made_answers(
    rt: &impl Abort,
    alloc: Global,
    trial: &Trial,
    (name, made, wanted): (&str, &Made, &str),
) -> Result<(), Memory> {
    let query = query_of(alloc, made)?;
    let seen = query_answers(rt, alloc, trial, name, &query, wanted);
    drop(query);
    seen
}

/// Sees that for each query is returned what stands beside it.
fn each_made_answers(rt: &impl Abort, alloc: Global, trial: &Trial) -> Result<(), Memory> {
    for (name, made, wanted) in QUERIES {
        made_answers(rt, alloc, trial, (name, made, wanted))?;
    }
    Ok(())
}

#[test]
fn counts_below_zero_and_a_number_with_a_base(rt: HostRuntime) -> Result<(), Fail> {
    let trial = Trial::of(rt.alloc(), Asked::Check)?;
    let seen = each_made_answers(&rt, rt.alloc(), &trial);
    drop(trial);
    Ok(seen?)
}
