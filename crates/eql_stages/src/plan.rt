//! The plan of a checked query.
ghost use Rattle.std.specs.Prelude.{◌≡◌, ◌≤◌, ◌*ℤ◌, IfOk, map, length, true};
ghost use Rattle.std.specs.List.{list_all};
ghost use Rattle.eql_check.specs.Conditions.{key_count};
ghost use Rattle.eql_check.specs.Rules.{is_pipe};
ghost use Rattle.eql_stages.specs.Compiling.{MatchStages, MatchesUntil};
ghost use Rattle.eql_stages.specs.Matching.{stages_of};
ghost use Rattle.eql_stages.specs.Planned.{planned_query, wanted_of};
ghost use Rattle.eql_stages.specs.Stages as stages;
ghost use Rattle.eql_laws.specs.Alive.{IsSpan};
ghost use Rattle.eql_stages.specs.Stages.{stages_in, until_in, span_in, pipe_of};

use crate::compile::matchers_in;
use crate::matchers::ItemMatchers;
use eql_check::Checked;
use eql_lines::Wanted;
use eql_query::{Body, PipeText, Span, Unit};
use eql_values::{Memory, Pipe, Pipes, Text};
use std::alloc::Global;
use std::marker::Model;

/// A checked query, made ready to read lines: its conditions are compiled and its runs are counted. Contracts see it as
/// the checked query and the name of the tiebreaker field.
#[derive(Drop)]
pub struct Plan {
    checked: Checked,
    tie: Option<Text>,
    matchers: ItemMatchers,
    stages: u32,
    pipes: Pipes,
}

impl Model for Plan {
    ghost use Rattle.std.specs.Coded.{codes};
    ghost use Rattle.eql_query.specs.QueryTree.{query_tree};
    ghost use Rattle.eql_query.specs.contracts.expr.Expr as e;
    ghost use Rattle.eql_stages.specs.Planned.{PlanOf};
    ghost use Rattle.eql_stages.specs.Plans.{IsPlan};

    ghost Value = { PlanOf };

    ghost coded = { Prim.hlevel (codes, e.the_row.coded) };

    ghost view = { λ p. record { checked = p.checked; tie = p.tie } };

    ghost invariant = { λ p. IsPlan (query_tree p.checked.query) p.checked.fields
        p.matchers.items.items p.matchers.until p.stages p.pipes };
}

/// A unit in nanoseconds.
fn nanos_of(unit: Unit) -> i128
    ensures { result ≡ stages.nanos_of unit }
{
    match unit {
        Unit::Ms => 1_000_000,
        Unit::S => 1_000_000_000,
        Unit::M => 60_000_000_000,
        Unit::H => 3_600_000_000_000,
        Unit::D => 86_400_000_000_000,
    }
}

/// A span in nanoseconds.
fn nanos_in(span: Span) -> i128
    ensures { result ≡ span.count *ℤ stages.nanos_of span.unit }
{
    i128::from(span.count) * nanos_of(span.unit)
}

/// A pipe with its count, which a checked query has from 0 to 1,000,000.
fn pipe_in(pipe: PipeText) -> Pipe
    requires { is_pipe pipe ≡ true }
    ensures { result ≡ pipe_of pipe }
{
    match pipe {
        PipeText::Head(count) => Pipe::Head(count as u32),
        PipeText::Tail(count) => Pipe::Tail(count as u32),
    }
}

/// The pipes with their counts.
fn pipes_in(alloc: Global, texts: &[PipeText]) -> Result<Pipes, Memory>
    requires { list_all is_pipe texts.now ≡ true }
    ensures { IfOk result (λ pipes. pipes ≡ map pipe_of texts.now) }
{
    let mut pipes = Vec::with_capacity(alloc, texts.len())?;
    for text in texts {
        pipes.push(pipe_in(*text))?;
    }
    Ok(Pipes::of(pipes))
}

/// How many stages the items are.
fn stage_count(matchers: &ItemMatchers) -> u32
    ensures { result ≡ stages_of matchers.now.items.items }
{
    let mut count = 0;
    for matcher in &matchers.items {
        count += matcher.runs;
    }
    count
}

impl Plan {
    /// The plan of a checked query, with the name of the tiebreaker field if lines have one. `Memory` where memory ran
    /// out.
    pub fn make(alloc: Global, checked: Checked, tie: Option<Text>) -> Result<Plan, Memory>
        ensures { IfOk result (λ plan. plan ≡ record { checked = checked; tie = tie }) }
    {
        checked.rules_are_kept();
        let matchers = matchers_in(alloc, &checked)?;
        let pipes = pipes_in(alloc, checked.query().pipes.items())?;
        let stages = stage_count(&matchers);
        Ok(Plan {
            checked,
            tie,
            matchers,
            stages,
            pipes,
        })
    }

    /// The query with its used fields.
    pub fn checked(&self) -> &Checked
        ensures { result.now ≡ self.now.checked }
    {
        &self.checked
    }

    /// What is read of each line.
    pub(crate) fn wanted(&self) -> Result<Wanted, Memory>
        ensures { IfOk result (λ wanted. wanted ≡ wanted_of (planned_query self.now)) }
    {
        Ok(Wanted {
            fields: self.checked.fields().clone()?,
            tie: self.tie.clone()?,
        })
    }

    /// The items, as they judge events.
    pub(crate) fn matchers(&self) -> &ItemMatchers
        ensures matcher { MatchStages self.now.checked.fields
            (stages_in (planned_query self.now).query.body) result.now.items.items }
        ensures end { MatchesUntil self.now.checked.fields
            (until_in (planned_query self.now).query.body) result.now.until }
    {
        &self.matchers
    }

    /// How many stages the query has, runs counted: 1 for single events, else 2 to 256.
    pub fn stages(&self) -> u32
        ensures same { result ≡ length (stages_in (planned_query self.now).query.body) }
        ensures from { 1 ≤ result }
        ensures to { result ≤ 256 }
    {
        self.stages
    }

    // The span that the query sets.
    fn span_set(&self) -> Option<i128>
        ensures { result ≡ span_in (planned_query self.now).query.body }
    {
        match &self.checked.query().body {
            Body::Event(_) => None,
            Body::Sequence { span, .. } => span.map(nanos_in),
        }
    }

    /// The greatest time from the first event of a sequence to the last, in nanoseconds, if the query sets one. It is no
    /// negative time.
    pub fn span(&self) -> Option<i128>
        ensures same { result ≡ span_in (planned_query self.now).query.body }
        ensures time { IsSpan result }
    {
        self.checked().rules_are_kept();
        self.span_set()
    }

    /// How many key fields each item has, from 0 to 8.
    pub fn keys(&self) -> u32
        ensures same { result ≡ key_count (planned_query self.now).query.body }
        ensures few { result ≤ 8 }
    {
        self.checked.keys()
    }

    /// The pipes, from left to right.
    pub fn pipes(&self) -> &Pipes
        ensures { result.now ≡ map pipe_of (planned_query self.now).query.pipes }
    {
        &self.pipes
    }
}
