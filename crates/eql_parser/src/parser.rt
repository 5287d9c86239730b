//! From tokens to a query.
ghost use Rattle.std.specs.Prelude.{◌≡◌, ◌≤◌, IfOk, IfErr, MatchResult};
ghost use Rattle.eql_query.specs.QueryTree.{QueryTree, query_tree};
ghost use Rattle.eql_parser.specs.QueryGrammar.{IsQuery};
ghost use Rattle.eql_parser.specs.Limits.{levels, OpensAtMost};
ghost use Rattle.eql_parser.specs.Refusing.{end_of, IsMemory, RefusesTokens};
ghost use Rattle.eql_parser.specs.Places as places;
ghost use Rattle.eql_parser.specs.Refusals.{refusal_of};

mod called;
mod expression;
mod field;
mod joint;
mod leaf;
mod listed;
mod literal;
mod mark;
mod node;
mod operator;
mod piece;
mod relation;
mod sequence;
mod stop;
mod term;
mod whole;
mod word;

use crate::refusal::ParseRefused;
use eql_lexer::{Token, Tokens};
use eql_query::Query;
use std::alloc::Global;
use stop::Stop;
use whole::query_of;

/// The end of the last token, in bytes, or 0 where there is none.
fn end_of_last(tokens: &[Token]) -> u32
    ensures { result ≡ end_of tokens.now }
{
    let mut last = 0;
    let mut rest = tokens;
    while let [token, more @ ..] = rest {
        last = token.end;
        rest = more;
    }
    last
}

/// The place, in bytes, of the token from which on so many are left.
fn place(tokens: &[Token], left: usize) -> u32
    ensures { result ≡ places.place tokens.now left }
{
    match &tokens[tokens.len().saturating_sub(left)..] {
        [] => end_of_last(tokens),
        [here, ..] => here.start,
    }
}

/// The refusal of tokens, with its place in bytes.
fn refused(tokens: &[Token], stop: Stop) -> ParseRefused
    ensures { result ≡ refusal_of tokens.now stop }
{
    match stop {
        Stop::Memory => ParseRefused::Memory,
        Stop::Syntax(left) => ParseRefused::Syntax {
            at: place(tokens, left),
        },
        Stop::LeftOut(word, left) => ParseRefused::LeftOut {
            word,
            at: place(tokens, left),
        },
        Stop::TooDeep(left) => ParseRefused::TooDeep {
            at: place(tokens, left),
        },
        Stop::TooOpen(left) => ParseRefused::TooDeep {
            at: place(tokens, left),
        },
    }
}

/// The query that tokens are, by the grammar of the syntax reference of the Event Query Language.
/// A condition has at most 64 levels, and at most 128 parentheses stand open in it.
pub fn parse(alloc: Global, tokens: &Tokens) -> Result<Query, ParseRefused>
    // What is returned is the query that the tokens are.
    ensures found { IfOk result (λ q. IsQuery tokens.now (query_tree q)) }
    // It keeps within the limits.
    ensures levels { IfOk result (λ q. levels (query_tree q) ≤ 64) }
    ensures open { IfOk result (λ _. OpensAtMost 128 tokens.now) }
    // Each refusal has its cause.
    ensures refused { IfErr result (RefusesTokens tokens.now) }
    // A query within the limits is what is returned, unless memory runs out.
    ensures answered { (q : QueryTree)
        → IsQuery tokens.now q → levels q ≤ 64 → OpensAtMost 128 tokens.now
        → MatchResult result (λ answer. query_tree answer ≡ q) IsMemory }
{
    let items = tokens.items().as_slice();
    match query_of(alloc, items) {
        Ok((query, _)) => Ok(query),
        Err(stop) => Err(refused(items, stop)),
    }
}
