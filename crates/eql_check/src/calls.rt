//! The functions: how many arguments each takes, of which kinds, and the kind of its result.
ghost use Rattle.std.specs.Prelude.{◌≡◌, ◌++◌, map, option_map, IfOk, codes};
ghost use Rattle.std.specs.Str.{chars};
ghost use Rattle.eql_query.specs.View.{tree, trees_of};
ghost use Rattle.eql_check.specs.Calls as calls;

use crate::function::Function;
use crate::kinds::may_be;
use eql_query::Expr;
use eql_text::parse_block;
use eql_values::{Kind, Text};
use std::alloc::AllocError;

/// Whether a function takes so many arguments.
pub(crate) fn takes_count(function: Function, count: usize) -> bool
    ensures { result ≡ calls.takes_count function count }
{
    match function {
        Function::Length | Function::String | Function::Number => count == 1,
        Function::Concat => 1 <= count,
        Function::CidrMatch => 2 <= count,
        Function::IndexOf | Function::Substring => 2 <= count && count <= 3,
        Function::Between => 3 <= count && count <= 4,
        _ => count == 2,
    }
}

/// The kind of a function's result.
pub(crate) fn given_by(function: Function) -> Kind
    ensures { result ≡ calls.given_by function }
{
    match function {
        Function::StartsWith
        | Function::EndsWith
        | Function::StringContains
        | Function::CidrMatch => Kind::Bool,
        Function::Concat | Function::Substring | Function::Between | Function::String => Kind::Text,
        _ => Kind::Long,
    }
}

/// The kinds that a function asks for, by place; further places take every kind.
fn asked(function: Function) -> &'static [Kind]
    ensures { result.now ≡ calls.kinds_asked function }
{
    match function {
        Function::Length | Function::Number => &[Kind::Text],
        Function::IndexOf => &[Kind::Text, Kind::Text, Kind::Long],
        Function::StartsWith | Function::EndsWith | Function::StringContains => &[
            Kind::Text,
            Kind::Text,
        ],
        Function::Substring => &[Kind::Text, Kind::Long, Kind::Long],
        Function::Between => &[Kind::Text, Kind::Text, Kind::Text, Kind::Bool],
        Function::Concat | Function::String | Function::CidrMatch => &[],
        _ => &[Kind::Long, Kind::Long],
    }
}

fn are_asked(asked: &[Kind], kinds: &[Option<Kind>]) -> bool
    ensures { result ≡ calls.are_asked asked.now kinds.now }
{
    match asked {
        [] => true,
        [asked, others @ ..] => match kinds {
            [] => true,
            [kind, rest @ ..] => may_be(*asked, *kind) && are_asked(others, rest),
        },
    }
}

/// Whether an argument may stand for a block: a text in quotes, or what is always null.
fn is_block(arg: &Expr, kind: Option<Kind>) -> bool
    ensures { result ≡ calls.is_block (tree arg.now) kind }
{
    match arg {
        Expr::Str(_) => true,
        _ => kind.is_none(),
    }
}

fn are_blocks(args: &[Expr], kinds: &[Option<Kind>]) -> bool
    ensures { result ≡ calls.are_blocks (trees_of (map tree args.now)) kinds.now }
{
    for (arg, kind) in args.iter().zip(kinds.iter()) {
        if !is_block(arg, *kind) {
            return false;
        }
    }
    true
}

/// Whether these are arguments of `cidrMatch`: an address or a text, and blocks.
fn is_cidr(args: &[Expr], kinds: &[Option<Kind>]) -> bool
    ensures { result ≡ calls.is_cidr (trees_of (map tree args.now)) kinds.now }
{
    match (args, kinds) {
        ([_, args @ ..], [kind, kinds @ ..]) => {
            (may_be(Kind::Ip, *kind) || may_be(Kind::Text, *kind)) && are_blocks(args, kinds)
        }
        _ => true,
    }
}

/// Whether a function takes arguments of these kinds.
pub(crate) fn takes_kinds(function: Function, args: &[Expr], kinds: &[Option<Kind>]) -> bool
    ensures { result ≡ calls.takes_kinds function (trees_of (map tree args.now)) kinds.now }
{
    match function {
        Function::CidrMatch => is_cidr(args, kinds),
        _ => are_asked(asked(function), kinds),
    }
}

/// The first text in quotes that isn't a block of addresses.
fn bad_block(args: &[Expr]) -> Option<&Text>
    ensures { option_map (λ text. text.now) result
        ≡ calls.bad_block (trees_of (map tree args.now)) }
{
    for arg in args {
        if let Expr::Str(text) = arg {
            if parse_block(text).is_none() {
                return Some(text);
            }
        }
    }
    None
}

/// The first such text of a call.
pub(crate) fn bad_block_of(function: Function, args: &[Expr]) -> Option<&Text>
    ensures { option_map (λ text. text.now) result
        ≡ calls.bad_block_of function (trees_of (map tree args.now)) }
{
    match (function, args) {
        (Function::CidrMatch, [_, blocks @ ..]) => bad_block(blocks),
        _ => None,
    }
}

/// How a refusal names a function: with `~` after the name where the call has it.
pub(crate) fn shown(name: &Text, fold: bool) -> Result<Text, AllocError>
    ensures { IfOk result (λ text. text ≡ calls.shown_function name.now fold) }
{
    if fold { with_tilde(name) } else { name.clone() }
}

fn with_tilde(name: &Text) -> Result<Text, AllocError>
    ensures { IfOk result (λ text. text ≡ name.now ++ chars (codes "~")) }
{
    let mut text = name.to_string()?;
    text.push_str("~")?;
    Ok(Text::of(text))
}
