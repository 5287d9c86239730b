//! Terms and items: a category, a condition, and for an item its keys and runs.
ghost use Rattle.std.specs.Prelude.{◌≡◌, Some, MatchBool, IfOk, MatchOption};
ghost use Rattle.eql_parser.specs.Kinds.{kinds};
ghost use Rattle.eql_query.specs.View.{tree};
ghost use Rattle.eql_query.specs.QueryTree.{term_tree};
ghost use Rattle.eql_parser.specs.QueryGrammar.{category};
ghost use Rattle.eql_parser.specs.Pieces.{piece_kind};
ghost use Rattle.eql_parser.specs.Answering.{Answers};
ghost use Rattle.eql_parser.specs.QueryAnswering.{bracketed_view, conditioned_view, plain_item, RunsComes, LacksRuns, BeginsNoMissing, IsMissing};
ghost use Rattle.eql_parser.specs.Reading.{expr};
ghost use Rattle.eql_parser.specs.QueryReading.{most_open, most_levels, number_at, keys, runs, term, term_tree_of, bracketed_term, item};
ghost use Rattle.eql_parser.specs.QueryReading as reading;

use crate::parser::expression::expr_of;
use crate::parser::listed::listed_of;
use crate::parser::mark::{Mark, after};
use crate::parser::piece::{Piece, split};
use crate::parser::stop::{Stop, left_out};
use crate::parser::word::is_word;
use eql_lexer::Token;
use eql_query::{Expr, FieldRefs, Term};
use eql_values::Text;
use std::alloc::{AllocError, Global};

/// The most levels of a condition.
const MAX_LEVELS: u32 = 64;

/// The most parentheses that may stand open.
const MAX_PARENS: u32 = 128;

/// A category, none for any, and a condition.
#[derive(Drop)]
pub struct Conditioned {
    pub category: Option<Text>,
    pub cond: Expr,
}

/// A term in brackets, with its keys.
#[derive(Drop)]
pub struct Bracketed {
    pub term: Conditioned,
    pub by: FieldRefs,
}

/// A number.
pub fn number_of(tokens: &[Token]) -> Result<(i64, &[Token]), Stop>
    ensures { Answers (λ n. n) result (number_at (kinds tokens.now)) }
{
    let Some((first, rest)) = split(tokens) else {
        return Err(Stop::Syntax(0));
    };
    match first {
        Piece::Number(number) => Ok((number, rest)),
        _ => Err(Stop::Syntax(tokens.len())),
    }
}

/// A condition.
fn condition_of(alloc: Global, tokens: &[Token]) -> Result<(Expr, &[Token]), Stop>
    ensures { Answers tree result (expr most_open most_levels (kinds tokens.now)) }
{
    match expr_of(alloc, MAX_PARENS, MAX_LEVELS, tokens) {
        Ok((node, rest)) => Ok((node.expr, rest)),
        Err(stop) => Err(stop),
    }
}

/// The category that a word or a string names; none is any.
fn category_of(piece: Piece<'_>) -> Result<Option<Option<Text>>, AllocError>
    ensures { IfOk result (λ found. found ≡ category (piece_kind piece.entry)) }
{
    match piece {
        Piece::Any => Ok(Some(None)),
        Piece::Name(name) => Ok(Some(Some(name.clone()?))),
        Piece::Str(text) => Ok(Some(Some(text.clone()?))),
        _ => Ok(None),
    }
}

/// The condition behind a category.
fn conditioned_of(
    alloc: Global,
    category: Option<Text>,
    tokens: &[Token],
) -> Result<(Conditioned, &[Token]), Stop>
    ensures { Answers conditioned_view result
        (reading.term_of (expr most_open most_levels) (Some category) (kinds tokens.now)) }
{
    let Some(behind) = after(Mark::Where, tokens) else {
        return Err(Stop::Syntax(tokens.len()));
    };
    match condition_of(alloc, behind) {
        Ok((cond, rest)) => Ok((Conditioned { category, cond }, rest)),
        Err(stop) => Err(stop),
    }
}

/// A category and a condition.
pub fn term_of(alloc: Global, tokens: &[Token]) -> Result<(Conditioned, &[Token]), Stop>
    ensures { Answers conditioned_view result
        (term (expr most_open most_levels) (kinds tokens.now)) }
{
    let Some((first, rest)) = split(tokens) else {
        return Err(Stop::Syntax(0));
    };
    match category_of(first)? {
        Some(category) => conditioned_of(alloc, category, rest),
        None => Err(Stop::Syntax(tokens.len())),
    }
}

/// The keys that may stand here.
pub fn keys_of(alloc: Global, tokens: &[Token]) -> Result<(FieldRefs, &[Token]), Stop>
    ensures { Answers (λ fields. fields) result (keys (kinds tokens.now)) }
{
    let Some(rest) = after(Mark::By, tokens) else {
        return Ok((FieldRefs::of(Vec::new(alloc)), tokens));
    };
    match listed_of(alloc, rest) {
        Ok((fields, behind)) => Ok((FieldRefs::of(fields), behind)),
        Err(stop) => Err(stop),
    }
}

/// What follows the word `runs`, where it comes first.
fn after_runs(tokens: &[Token]) -> Option<&[Token]>
    ensures { MatchOption result (LacksRuns (kinds tokens.now))
        (λ rest. RunsComes (kinds tokens.now) (kinds rest.now)) }
{
    match split(tokens) {
        Some((Piece::Name(word), rest)) if is_word(word, b"runs") => Some(rest),
        _ => None,
    }
}

/// How often an item stands in a row; 1 where it isn't said.
fn runs_of(tokens: &[Token]) -> Result<(i64, &[Token]), Stop>
    ensures { Answers (λ n. n) result (runs (kinds tokens.now)) }
{
    let Some(with) = after(Mark::With, tokens) else {
        return Ok((1, tokens));
    };
    let Some(named) = after_runs(with) else {
        return Err(Stop::Syntax(with.len()));
    };
    let Some(assigned) = after(Mark::Assign, named) else {
        return Err(Stop::Syntax(named.len()));
    };
    number_of(assigned)
}

/// A term in brackets, with the keys behind it.
pub fn bracketed_of(alloc: Global, tokens: &[Token]) -> Result<(Bracketed, &[Token]), Stop>
    ensures { Answers bracketed_view result (bracketed_term (expr most_open most_levels)
        (kinds tokens.now)) }
{
    let Some(inside) = after(Mark::OpenItem, tokens) else {
        return Err(Stop::Syntax(tokens.len()));
    };
    let (term, rest) = match term_of(alloc, inside) {
        Ok(found) => found,
        Err(stop) => return Err(stop),
    };
    let Some(closed) = after(Mark::CloseItem, rest) else {
        return Err(Stop::Syntax(rest.len()));
    };
    match keys_of(alloc, closed) {
        Ok((by, behind)) => Ok((Bracketed { term, by }, behind)),
        Err(stop) => Err(stop),
    }
}

/// A term in brackets and its keys as an item that stands so often in a row.
pub fn item_from(found: Bracketed, runs: i64) -> Term
    ensures { term_tree result ≡ term_tree_of (conditioned_view found.term) found.by runs }
{
    let Bracketed { term, by } = found;
    let Conditioned { category, cond } = term;
    Term {
        category,
        cond,
        by,
        runs,
    }
}

/// An item that is no missing event.
fn plain_item_of(alloc: Global, tokens: &[Token]) -> Result<(Term, &[Token]), Stop>
    ensures { Answers term_tree result
        (plain_item (expr most_open most_levels) (kinds tokens.now)) }
{
    let (found, rest) = match bracketed_of(alloc, tokens) {
        Ok(found) => found,
        Err(stop) => return Err(stop),
    };
    match runs_of(rest) {
        Ok((runs, behind)) => Ok((item_from(found, runs), behind)),
        Err(stop) => Err(stop),
    }
}

/// Whether a missing event, `![`, comes first.
pub fn is_missing(tokens: &[Token]) -> bool
    ensures { MatchBool result
        (IsMissing (kinds tokens.now)) (BeginsNoMissing (kinds tokens.now)) }
{
    match after(Mark::Bang, tokens) {
        None => false,
        Some(rest) => after(Mark::OpenItem, rest).is_some(),
    }
}

/// An item of a sequence.
pub fn item_of(alloc: Global, tokens: &[Token]) -> Result<(Term, &[Token]), Stop>
    ensures { Answers term_tree result (item (expr most_open most_levels) (kinds tokens.now)) }
{
    if is_missing(tokens) {
        return Err(left_out(alloc, "!", tokens.len()));
    }
    plain_item_of(alloc, tokens)
}
