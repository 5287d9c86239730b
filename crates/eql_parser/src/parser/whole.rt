//! Queries: a term or a sequence, and its pipes.
ghost use Rattle.std.specs.Prelude.{◌≡◌, suc, length};
ghost use Rattle.eql_parser.specs.Kinds.{kinds};
ghost use Rattle.eql_query.specs.QueryTree.{body_tree, query_tree};
ghost use Rattle.eql_parser.specs.Answering.{Answers};
ghost use Rattle.eql_parser.specs.QueryGrammar as grammar;
ghost use Rattle.eql_parser.specs.QueryAnswering.{event_view};
ghost use Rattle.eql_parser.specs.Reading.{expr, res_map};
ghost use Rattle.eql_parser.specs.QueryReading.{most_open, most_levels, pipe, pipe_named, pipes, body, query, term};

use crate::parser::mark::{Mark, after};
use crate::parser::piece::{Piece, split};
use crate::parser::sequence::sequence_of;
use crate::parser::stop::{Stop, left_out};
use crate::parser::term::{Bracketed, item_from, keys_of, number_of, term_of};
use eql_lexer::Token;
use eql_query::{Body, FieldRefs, PipeText, PipeTexts, Query};
use eql_values::Text;
use std::alloc::Global;

/// A pipe, behind its `|`.
fn pipe_of(tokens: &[Token]) -> Result<(PipeText, &[Token]), Stop>
    ensures { Answers (λ p. p) result (pipe (kinds tokens.now)) }
{
    let Some((first, rest)) = split(tokens) else {
        return Err(Stop::Syntax(0));
    };
    match first {
        Piece::Name(word) => named_pipe(word, tokens.len(), rest),
        _ => Err(Stop::Syntax(tokens.len())),
    }
}

/// The pipe of a word that stands where so many tokens are left.
fn named_pipe<'a>(
    word: &'a Text,
    place: usize,
    rest: &'a [Token],
) -> Result<(PipeText, &'a [Token]), Stop>
    requires { place ≡ suc (length (kinds rest.now)) }
    ensures { Answers (λ p. p) result (pipe_named word.now (grammar.pipe_of word.now)
        (kinds rest.now)) }
{
    match word.text() {
        "head" => match number_of(rest) {
            Ok((count, behind)) => Ok((PipeText::Head(count), behind)),
            Err(stop) => Err(stop),
        },
        "tail" => match number_of(rest) {
            Ok((count, behind)) => Ok((PipeText::Tail(count), behind)),
            Err(stop) => Err(stop),
        },
        _ => match word.clone() {
            Ok(word) => Err(Stop::LeftOut(word, place)),
            Err(_) => Err(Stop::Memory),
        },
    }
}

/// The pipes up to the end.
fn pipes_of(alloc: Global, tokens: &[Token]) -> Result<(Vec<PipeText>, &[Token]), Stop>
    ensures { Answers (λ v. v.items) result
        (pipes (length (kinds tokens.now)) (kinds tokens.now)) }
{
    let mut items = Vec::new(alloc);
    let mut rest = tokens;
    // Each turn reads a token or more.
    for _ in 0..tokens.len() {
        if rest.is_empty() {
            return Ok((items, rest));
        }
        let Some(more) = after(Mark::Bar, rest) else {
            return Err(Stop::Syntax(rest.len()));
        };
        let (pipe, behind) = match pipe_of(more) {
            Ok(found) => found,
            Err(stop) => return Err(stop),
        };
        items.push(pipe)?;
        rest = behind;
    }
    if rest.is_empty() {
        Ok((items, rest))
    } else {
        Err(Stop::Syntax(rest.len()))
    }
}

/// What a query looks for.
fn body_of(alloc: Global, tokens: &[Token]) -> Result<(Body, &[Token]), Stop>
    ensures { Answers body_tree result (body (expr most_open most_levels) (kinds tokens.now)) }
{
    if let Some(_) = after(Mark::Sample, tokens) {
        return Err(left_out(alloc, "sample", tokens.len()));
    }
    if let Some(_) = after(Mark::Join, tokens) {
        return Err(left_out(alloc, "join", tokens.len()));
    }
    match after(Mark::Sequence, tokens) {
        None => event_of(alloc, tokens),
        Some(rest) => match keys_of(alloc, rest) {
            Ok((by, behind)) => sequence_of(alloc, by, behind),
            Err(stop) => Err(stop),
        },
    }
}

/// Single events.
fn event_of(alloc: Global, tokens: &[Token]) -> Result<(Body, &[Token]), Stop>
    ensures { Answers body_tree result (res_map event_view
        (term (expr most_open most_levels) (kinds tokens.now))) }
{
    match term_of(alloc, tokens) {
        Ok((term, rest)) => {
            let by = FieldRefs::of(Vec::new(alloc));
            let found = Bracketed { term, by };
            Ok((Body::Event(item_from(found, 1)), rest))
        }
        Err(stop) => Err(stop),
    }
}

/// The query that tokens are.
pub fn query_of(alloc: Global, tokens: &[Token]) -> Result<(Query, &[Token]), Stop>
    ensures { Answers query_tree result (query (kinds tokens.now)) }
{
    let (body, rest) = match body_of(alloc, tokens) {
        Ok(found) => found,
        Err(stop) => return Err(stop),
    };
    match pipes_of(alloc, rest) {
        Ok((pipes, end)) => {
            let pipes = PipeTexts::of(pipes);
            Ok((Query { body, pipes }, end))
        }
        Err(stop) => Err(stop),
    }
}
