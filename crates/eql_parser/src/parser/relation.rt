//! Tests of a value against patterns and lists.
ghost use Rattle.std.specs.Prelude.{◌≡◌, codes, if◌then◌else◌, false, true, IfOk};
ghost use Rattle.std.specs.Str.{chars};
ghost use Rattle.eql_query.specs.Tree as t;
ghost use Rattle.eql_query.specs.View.{tree};
ghost use Rattle.eql_parser.specs.Kinds.{kinds};
ghost use Rattle.eql_parser.specs.Marks.{LacksOperator, compares_of};
ghost use Rattle.eql_parser.specs.Answering.{Answers, IsNode, node_tree, room, inner};
ghost use Rattle.eql_parser.specs.Reading.{above, behind_not, behind_sum, members, patterns, res_map};

use crate::parser::literal::{members_of, patterns_of};
use crate::parser::node::{Node, member_of, pattern_of};
use crate::parser::piece::{Piece, split};
use crate::parser::stop::{Stop, left_out};
use eql_lexer::Token;
use eql_query::PatOp;
use std::alloc::Global;

/// A test against patterns, behind its operator, which stands where so many tokens are left.
fn matched_of(
    alloc: Global,
    parens: u32,
    levels: u32,
    op: PatOp,
    left: Node,
    place: usize,
    tokens: &[Token],
) -> Result<(Node, &[Token]), Stop>
    requires { IsNode levels left }
    ensures answers { Answers node_tree result (above levels (tree left.expr) place
        (res_map (t.pattern op (tree left.expr))
        (patterns (room parens) (inner parens) (kinds tokens.now)))) }
    ensures node { IfOk result (λ x. IsNode levels x.0) }
{
    if left.depth >= levels {
        return Err(Stop::TooDeep(place));
    }
    let (patterns, rest) = match patterns_of(alloc, parens, tokens) {
        Ok(found) => found,
        Err(stop) => return Err(stop),
    };
    Ok((pattern_of(alloc, op, left, patterns)?, rest))
}

/// A test of membership, behind its operator, which begins where so many tokens are left.
fn among(
    alloc: Global,
    parens: u32,
    levels: u32,
    fold: bool,
    negated: bool,
    left: Node,
    place: usize,
    tokens: &[Token],
) -> Result<(Node, &[Token]), Stop>
    requires { IsNode levels left }
    ensures answers { Answers node_tree result (above levels (tree left.expr) place
        (res_map (t.member fold negated (tree left.expr))
        (members (room parens) (inner parens) (kinds tokens.now)))) }
    ensures node { IfOk result (λ x. IsNode levels x.0) }
{
    if left.depth >= levels {
        return Err(Stop::TooDeep(place));
    }
    let (list, rest) = match members_of(alloc, parens, tokens) {
        Ok(found) => found,
        Err(stop) => return Err(stop),
    };
    Ok((member_of(alloc, fold, negated, left, list)?, rest))
}

/// A test of membership behind `not`, which stands where so many tokens are left.
fn not_among(
    alloc: Global,
    parens: u32,
    levels: u32,
    left: Node,
    place: usize,
    tokens: &[Token],
) -> Result<(Node, &[Token]), Stop>
    requires { IsNode levels left }
    ensures answers { Answers node_tree result (above levels (tree left.expr) place
        (behind_not (room parens) (inner parens) (tree left.expr) (kinds tokens.now))) }
    ensures node { IfOk result (λ x. IsNode levels x.0) }
{
    if left.depth >= levels {
        return Err(Stop::TooDeep(place));
    }
    let Some((first, rest)) = split(tokens) else {
        return Err(Stop::Syntax(0));
    };
    match first {
        Piece::In(fold) => among(alloc, parens, levels, fold, true, left, place, rest),
        _ => Err(Stop::Syntax(tokens.len())),
    }
}

/// What a word calls a test by regular expressions.
fn regex_word(fold: bool) -> &'static str
    ensures { chars result.now ≡ (if fold then codes "regex~" else codes "regex") }
{
    if fold { "regex~" } else { "regex" }
}

/// A test that stands behind a value and is no comparison, or the value alone.
pub fn relation_of(
    alloc: Global,
    parens: u32,
    levels: u32,
    left: Node,
    tokens: &[Token],
) -> Result<(Node, &[Token]), Stop>
    requires left { IsNode levels left }
    requires other { LacksOperator compares_of (kinds tokens.now) }
    ensures answers { Answers node_tree result (behind_sum (room parens) (inner parens) levels
        (tree left.expr) (kinds tokens.now)) }
    ensures node { IfOk result (λ x. IsNode levels x.0) }
{
    let Some((first, rest)) = split(tokens) else {
        return Ok((left, tokens));
    };
    let place = tokens.len();
    match first {
        Piece::Matches(op) => matched_of(alloc, parens, levels, op, left, place, rest),
        Piece::In(fold) => among(alloc, parens, levels, fold, false, left, place, rest),
        Piece::Not => not_among(alloc, parens, levels, left, place, rest),
        Piece::Regex(fold) => Err(left_out(alloc, regex_word(fold), place)),
        _ => Ok((left, tokens)),
    }
}
