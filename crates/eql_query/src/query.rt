//! Queries and their parts.
ghost use Rattle.std.specs.Prelude.{◌≡◌};

use crate::expr::{Expr, FieldRefs};
use eql_values::Text;
use std::marker::Model;

/// One event of a query: a category, a condition, and for an item of a sequence its own keys and
/// runs.
pub struct Term {
    /// The category; none is `any`.
    pub category: Option<Text>,
    /// The condition.
    pub cond: Expr,
    /// The item's own key fields.
    pub by: FieldRefs,
    /// How often the item stands in a row, 1 where the query doesn't say.
    pub runs: i64,
}

impl Term {
    /// The category, the condition, the item's own keys and its runs.
    pub fn into_parts(self) -> (Option<Text>, Expr, FieldRefs, i64)
        ensures { result ≡ (self.category, self.cond, self.by, self.runs) }
    {
        let Term {
            category,
            cond,
            by,
            runs,
        } = self;
        (category, cond, by, runs)
    }
}

/// The items of a sequence, in their order.
#[derive(Drop)]
pub struct Terms {
    items: Vec<Term>,
}

impl Model for Terms {
    ghost use Rattle.std.specs.Prelude.{List};
    ghost use Rattle.std.specs.Coded.{codes};
    ghost use Rattle.eql_query.specs.declared.query.Term.{Term};
    ghost use Rattle.eql_query.specs.contracts.expr.Expr as e;

    ghost Value = { List Term };

    ghost view = { λ l. l.items.items };

    ghost coded = { Prim.hlevel (codes, e.the_row.coded) };
}

impl Terms {
    /// The list of these items.
    pub fn of(items: Vec<Term>) -> Terms
        ensures { result ≡ items.items }
    {
        Terms { items }
    }

    /// The items, lent.
    pub fn items(&self) -> &Vec<Term>
        ensures { result.now.items ≡ self.now }
    {
        &self.items
    }

    /// The items, taken out.
    pub fn into_items(self) -> Vec<Term>
        ensures { result.items ≡ self }
    {
        self.items
    }
}

/// A unit of time.
#[derive(Clone, Copy, Debug, PartialEq, Eq)]
pub enum Unit {
    /// Milliseconds.
    Ms,
    /// Seconds.
    S,
    /// Minutes.
    M,
    /// Hours.
    H,
    /// Days of 24 hours.
    D,
}

/// A span of time, as after `maxspan=`.
#[derive(Clone, Copy, Debug, PartialEq, Eq)]
pub struct Span {
    /// How many units.
    pub count: i64,
    /// The unit.
    pub unit: Unit,
}

/// A pipe as the query writes it.
#[derive(Clone, Copy, Debug, PartialEq, Eq)]
pub enum PipeText {
    /// `head N`
    Head(i64),
    /// `tail N`
    Tail(i64),
}

/// The pipes of a query, from left to right.
#[derive(Drop)]
pub struct PipeTexts {
    items: Vec<PipeText>,
}

impl Model for PipeTexts {
    ghost use Rattle.std.specs.Prelude.{List};
    ghost use Rattle.eql_query.specs.declared.query.PipeText.{PipeText};

    ghost Value = { List PipeText };

    ghost view = { λ l. l.items.items };
}

impl PipeTexts {
    /// The list of these pipes.
    pub fn of(items: Vec<PipeText>) -> PipeTexts
        ensures { result ≡ items.items }
    {
        PipeTexts { items }
    }

    /// The pipes, lent.
    pub fn items(&self) -> &Vec<PipeText>
        ensures { result.now.items ≡ self.now }
    {
        &self.items
    }

    /// The pipes, taken out.
    pub fn into_items(self) -> Vec<PipeText>
        ensures { result.items ≡ self }
    {
        self.items
    }
}

/// What a query looks for.
pub enum Body {
    /// Single events.
    Event(Term),
    /// Sequences of events.
    Sequence {
        /// The key fields that all items share.
        by: FieldRefs,
        /// The greatest time from the first event to the last.
        span: Option<Span>,
        /// The items.
        items: Terms,
        /// The item that ends pending sequences.
        until: Option<Term>,
    },
}

/// A query.
pub struct Query {
    /// What it looks for.
    pub body: Body,
    /// Its pipes.
    pub pipes: PipeTexts,
}

impl Query {
    /// What it looks for, and its pipes.
    pub fn into_parts(self) -> (Body, PipeTexts)
        ensures { result ≡ (self.body, self.pipes) }
    {
        let Query { body, pipes } = self;
        (body, pipes)
    }
}

impl Drop for Query {
    fn drop(self) {
        let Query { body: _, pipes: _ } = self;
    }
}

impl Drop for Term {
    fn drop(self) {
        let Term {
            category: _,
            cond: _,
            by: _,
            runs: _,
        } = self;
    }
}

impl Drop for Body {
    fn drop(self) {
        match self {
            Body::Event(_) => {}
            Body::Sequence {
                by: _,
                span: _,
                items: _,
                until: _,
            } => {}
        }
    }
}
