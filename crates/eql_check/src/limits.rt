//! The limits of a whole query: its stages, its span and its pipes.
ghost use Rattle.std.specs.Prelude.{◌≡◌, ◌≤◌, ◌&&◌, pos, int_le, true, length, map, nat_le};
ghost use Rattle.std.specs.List.{list_all};
ghost use Rattle.eql_query.specs.QueryTree.{term_tree};
ghost use Rattle.eql_check.specs.Rules as rules_of;
ghost use Rattle.eql_check.specs.Rules.{has_runs, pipes_broken, sequence_broken, span_broken};
ghost use Rattle.eql_check.specs.Answers.{Judges};

use crate::refused::CheckRefused;
use eql_query::{PipeText, Span, Term, Unit};

/// The fewest and the most stages of a sequence.
const FEWEST_STAGES: i64 = 2;

const MOST_STAGES: i64 = 256;

/// The most pipes, and the greatest count of one.
const MOST_PIPES: usize = 8;

const GREATEST_PIPE_COUNT: i64 = 1_000_000;

/// How many stages items are, runs counted.
fn stage_count(items: &[Term]) -> i64
    requires few { length items.now ≤ 4294967295 }
    requires runs { list_all has_runs (map term_tree items.now) ≡ true }
    ensures { result ≡ rules_of.stage_count (map term_tree items.now) }
{
    let mut count = 0;
    for item in items {
        count += item.runs;
    }
    count
}

/// A sequence of these items has 2 to 256 stages.
pub(crate) fn check_stages(items: &[Term]) -> Result<(), CheckRefused>
    requires few { length items.now ≤ 4294967295 }
    requires runs { list_all has_runs (map term_tree items.now) ≡ true }
    ensures { Judges result (sequence_broken (rules_of.stage_count (map term_tree items.now))) }
{
    let count = stage_count(items);
    if count < FEWEST_STAGES {
        Err(CheckRefused::FewStages)
    } else if count > MOST_STAGES {
        Err(CheckRefused::ManyStages { count })
    } else {
        Ok(())
    }
}

/// 36,500 days in a unit.
fn longest(unit: Unit) -> i64
    ensures { result ≡ rules_of.longest unit }
{
    match unit {
        Unit::Ms => 3_153_600_000_000,
        Unit::S => 3_153_600_000,
        Unit::M => 52_560_000,
        Unit::H => 876_000,
        Unit::D => 36_500,
    }
}

/// A span is 1 ms to 36,500 days.
pub(crate) fn check_span(span: Option<Span>) -> Result<(), CheckRefused>
    ensures { Judges result (span_broken span) }
{
    match span {
        None => Ok(()),
        Some(span) => {
            if 1 <= span.count && span.count <= longest(span.unit) {
                Ok(())
            } else {
                Err(CheckRefused::Span)
            }
        }
    }
}

/// Whether a pipe has a count from 0 to 1,000,000.
fn is_pipe(pipe: &PipeText) -> bool
    ensures { result ≡ rules_of.is_pipe pipe.now }
{
    let count = match pipe {
        PipeText::Head(count) | PipeText::Tail(count) => *count,
    };
    0 <= count && count <= GREATEST_PIPE_COUNT
}

fn are_pipes(pipes: &[PipeText]) -> bool
    ensures { result ≡ list_all rules_of.is_pipe pipes.now }
{
    pipes.iter().all(is_pipe)
}

/// At most 8 pipes, each with a count from 0 to 1,000,000.
pub(crate) fn check_pipes(pipes: &[PipeText]) -> Result<(), CheckRefused>
    ensures { Judges result (pipes_broken pipes.now) }
{
    if pipes.len() <= MOST_PIPES && are_pipes(pipes) {
        Ok(())
    } else {
        Err(CheckRefused::Pipe)
    }
}
