//! Sequences: their keys, their greatest span, their items and what ends them.
ghost use Rattle.std.specs.Prelude.{◌≡◌, length};
ghost use Rattle.eql_parser.specs.Kinds.{kinds};
ghost use Rattle.eql_query.specs.QueryTree.{body_tree};
ghost use Rattle.eql_parser.specs.QueryGrammar as grammar;
ghost use Rattle.eql_parser.specs.Answering.{Answers};
ghost use Rattle.eql_parser.specs.QueryAnswering.{StopsAtNoUnit, terms_view, until_view};
ghost use Rattle.eql_parser.specs.Reading.{expr};
ghost use Rattle.eql_parser.specs.QueryReading.{most_open, most_levels, is_fine_unit, unit_at, span, items, until, behind_keys, behind_span};

use crate::parser::mark::{Mark, after};
use crate::parser::piece::{Piece, split};
use crate::parser::stop::{Stop, left_out};
use crate::parser::term::{bracketed_of, is_missing, item_from, item_of, number_of};
use crate::parser::word::is_word;
use eql_lexer::Token;
use eql_query::{Body, FieldRefs, Span, Term, Terms, Unit};
use eql_values::Text;
use std::alloc::Global;

/// The unit of time that a word names.
fn unit_named(word: &Text) -> Option<Unit>
    ensures { result ≡ grammar.unit_of word.now }
{
    match word.text() {
        "ms" => Some(Unit::Ms),
        "s" => Some(Unit::S),
        "m" => Some(Unit::M),
        "h" => Some(Unit::H),
        "d" => Some(Unit::D),
        _ => None,
    }
}

/// Whether a word names a unit of time of the language that isn't read.
fn is_fine(word: &Text) -> bool
    ensures { result ≡ is_fine_unit word.now }
{
    is_word(word, b"micros") || is_word(word, b"nanos")
}

/// Why a word that stands where a unit has to is none, where so many tokens are left.
fn no_unit(word: &Text, place: usize) -> Stop
    ensures { StopsAtNoUnit result word.now place }
{
    if is_fine(word) {
        match word.clone() {
            Ok(word) => Stop::LeftOut(word, place),
            Err(_) => Stop::Memory,
        }
    } else {
        Stop::Syntax(place)
    }
}

/// The unit of time behind a number, and the span that both make.
fn unit_of(count: i64, tokens: &[Token]) -> Result<(Option<Span>, &[Token]), Stop>
    ensures { Answers (λ s. s) result (unit_at count (kinds tokens.now)) }
{
    let Some((first, rest)) = split(tokens) else {
        return Err(Stop::Syntax(0));
    };
    match first {
        Piece::Name(word) => match unit_named(word) {
            Some(unit) => Ok((Some(Span { count, unit }), rest)),
            None => Err(no_unit(word, tokens.len())),
        },
        _ => Err(Stop::Syntax(tokens.len())),
    }
}

/// The greatest span, where it is said.
pub fn span_of(tokens: &[Token]) -> Result<(Option<Span>, &[Token]), Stop>
    ensures { Answers (λ s. s) result (span (kinds tokens.now)) }
{
    let Some(with) = after(Mark::With, tokens) else {
        return Ok((None, tokens));
    };
    let Some(named) = after(Mark::Maxspan, with) else {
        return Err(Stop::Syntax(with.len()));
    };
    let Some(assigned) = after(Mark::Assign, named) else {
        return Err(Stop::Syntax(named.len()));
    };
    match number_of(assigned) {
        Ok((count, rest)) => unit_of(count, rest),
        Err(stop) => Err(stop),
    }
}

/// The items of a sequence.
fn items_of(alloc: Global, tokens: &[Token]) -> Result<(Vec<Term>, &[Token]), Stop>
    ensures { Answers terms_view result (items (expr most_open most_levels)
        (length (kinds tokens.now)) (kinds tokens.now)) }
{
    let mut items = Vec::new(alloc);
    let mut rest = tokens;
    // Each turn reads a token or more.
    for _ in 0..tokens.len() {
        let (item, behind) = match item_of(alloc, rest) {
            Ok(found) => found,
            Err(stop) => return Err(stop),
        };
        items.push(item)?;
        if is_missing(behind) {
            return Err(left_out(alloc, "!", behind.len()));
        }
        match after(Mark::OpenItem, behind) {
            None => return Ok((items, behind)),
            Some(_) => rest = behind,
        }
    }
    Err(Stop::Syntax(rest.len()))
}

/// The item that ends pending sequences, where there is one.
fn until_of(alloc: Global, tokens: &[Token]) -> Result<(Option<Term>, &[Token]), Stop>
    ensures { Answers until_view result (until (expr most_open most_levels) (kinds tokens.now)) }
{
    let Some(rest) = after(Mark::Until, tokens) else {
        return Ok((None, tokens));
    };
    match bracketed_of(alloc, rest) {
        Ok((found, behind)) => Ok((Some(item_from(found, 1)), behind)),
        Err(stop) => Err(stop),
    }
}

/// The items of a sequence and what ends it, behind its keys and its span.
fn items_and_until(
    alloc: Global,
    by: FieldRefs,
    span: Option<Span>,
    tokens: &[Token],
) -> Result<(Body, &[Token]), Stop>
    ensures { Answers body_tree result (behind_span (expr most_open most_levels) by span
        (kinds tokens.now)) }
{
    let (items, rest) = match items_of(alloc, tokens) {
        Ok(found) => found,
        Err(stop) => return Err(stop),
    };
    match until_of(alloc, rest) {
        Ok((until, behind)) => {
            let items = Terms::of(items);
            Ok((
                Body::Sequence {
                    by,
                    span,
                    items,
                    until,
                },
                behind,
            ))
        }
        Err(stop) => Err(stop),
    }
}

/// A sequence behind the word and its keys.
pub fn sequence_of(alloc: Global, by: FieldRefs, tokens: &[Token]) -> Result<(Body, &[Token]), Stop>
    ensures { Answers body_tree result (behind_keys (expr most_open most_levels) by
        (kinds tokens.now)) }
{
    match span_of(tokens) {
        Ok((span, rest)) => items_and_until(alloc, by, span, rest),
        Err(stop) => Err(stop),
    }
}
