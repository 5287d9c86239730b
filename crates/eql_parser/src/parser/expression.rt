//! Conditions: a recursive descent. `parens` is how many parentheses may still open, and `levels`
//! how many levels an expression may have.
ghost use Rattle.std.specs.Prelude.{◌≡◌, length, true, IfOk};
ghost use Rattle.eql_parser.specs.Kinds.{kinds};
ghost use Rattle.eql_parser.specs.Marks.{Lacks};
ghost use Rattle.eql_parser.specs.declared.parser.mark.Mark.TheVariants as mark;
ghost use Rattle.eql_parser.specs.Answering.{Answers, IsNode, IsNodes, node_tree, nodes_trees, onto, room, inner, operand, joint_test};
ghost use Rattle.eql_parser.specs.Reading.{arguments, prim, unary, prod, sum, pred, neg, conj, expr, separated};

use crate::parser::called::{call_at, called};
use crate::parser::joint::{Joint, mark_between};
use crate::parser::leaf::leaf_of;
use crate::parser::mark::{Mark, after};
use crate::parser::node::{Node, Nodes, all_of, any_of, compared_of, math_of, minus_of, not_of};
use crate::parser::operator::{added, comparison, multiplied};
use crate::parser::relation::relation_of;
use crate::parser::stop::Stop;
use eql_lexer::Token;
use std::alloc::Global;

/// An expression.
#[cycle(descent)]
pub fn expr_of(
    alloc: Global,
    parens: u32,
    levels: u32,
    tokens: &[Token],
) -> Result<(Node, &[Token]), Stop>
    ensures answers { Answers node_tree result (expr parens levels (kinds tokens.now)) }
    ensures node { IfOk result (λ x. IsNode levels x.0) }
{
    let (first, rest) = conj_of(alloc, parens, levels, tokens)?;
    let Some(more) = after(Mark::Or, rest) else {
        return Ok((first, rest));
    };
    if first.depth >= levels {
        return Err(Stop::TooDeep(rest.len()));
    }
    let nodes = Nodes::none(alloc).with(first)?;
    let (nodes, behind) = operands_of(alloc, Joint::Or, parens, levels - 1, nodes, more)?;
    Ok((any_of(nodes), behind))
}

/// Expressions with `and` between them.
#[cycle(descent)]
fn conj_of(
    alloc: Global,
    parens: u32,
    levels: u32,
    tokens: &[Token],
) -> Result<(Node, &[Token]), Stop>
    ensures answers { Answers node_tree result (conj (room parens) (inner parens) levels
        (kinds tokens.now)) }
    ensures node { IfOk result (λ x. IsNode levels x.0) }
{
    let (first, rest) = neg_of(alloc, parens, levels, tokens)?;
    let Some(more) = after(Mark::And, rest) else {
        return Ok((first, rest));
    };
    if first.depth >= levels {
        return Err(Stop::TooDeep(rest.len()));
    }
    let nodes = Nodes::none(alloc).with(first)?;
    let (nodes, behind) = operands_of(alloc, Joint::And, parens, levels - 1, nodes, more)?;
    Ok((all_of(nodes), behind))
}

/// One of several expressions.
#[cycle(descent)]
fn operand_of(
    alloc: Global,
    joint: Joint,
    parens: u32,
    levels: u32,
    tokens: &[Token],
) -> Result<(Node, &[Token]), Stop>
    ensures answers { Answers node_tree result (operand joint parens levels (kinds tokens.now)) }
    ensures node { IfOk result (λ x. IsNode levels x.0) }
{
    match joint {
        Joint::Or => conj_of(alloc, parens, levels, tokens),
        Joint::And => neg_of(alloc, parens, levels, tokens),
        Joint::Comma => expr_of(alloc, parens, levels, tokens),
    }
}

/// Several expressions, behind those that were read.
#[cycle(descent)]
fn operands_of(
    alloc: Global,
    joint: Joint,
    parens: u32,
    levels: u32,
    so_far: Nodes,
    tokens: &[Token],
) -> Result<(Nodes, &[Token]), Stop>
    requires { IsNodes levels so_far }
    ensures answers { Answers nodes_trees result (onto (nodes_trees so_far)
        (separated (joint_test joint) (operand joint parens levels) (length (kinds tokens.now))
        (kinds tokens.now))) }
    ensures node { IfOk result (λ x. IsNodes levels x.0) }
{
    let mut nodes = so_far;
    let mut rest = tokens;
    // Each turn reads a token or more.
    for _ in 0..tokens.len() {
        let (node, behind) = match operand_of(alloc, joint, parens, levels, rest) {
            Ok(found) => found,
            Err(stop) => return Err(stop),
        };
        nodes = nodes.with(node)?;
        match after(mark_between(joint), behind) {
            None => return Ok((nodes, behind)),
            Some(more) => rest = more,
        }
    }
    Err(Stop::Syntax(rest.len()))
}

/// An expression with `not` before it, or none.
#[cycle(descent)]
fn neg_of(
    alloc: Global,
    parens: u32,
    levels: u32,
    tokens: &[Token],
) -> Result<(Node, &[Token]), Stop>
    ensures answers { Answers node_tree result (neg (room parens) (inner parens) levels
        (kinds tokens.now)) }
    ensures node { IfOk result (λ x. IsNode levels x.0) }
{
    let Some(more) = after(Mark::Not, tokens) else {
        return pred_of(alloc, parens, levels, tokens);
    };
    if levels == 0 {
        return Err(Stop::TooDeep(tokens.len()));
    }
    let (node, rest) = neg_of(alloc, parens, levels - 1, more)?;
    Ok((not_of(alloc, node)?, rest))
}

/// A comparison or another test, or a sum alone.
#[cycle(descent)]
fn pred_of(
    alloc: Global,
    parens: u32,
    levels: u32,
    tokens: &[Token],
) -> Result<(Node, &[Token]), Stop>
    ensures answers { Answers node_tree result (pred (room parens) (inner parens) levels
        (kinds tokens.now)) }
    ensures node { IfOk result (λ x. IsNode levels x.0) }
{
    let (left, rest) = sum_of(alloc, parens, levels, tokens)?;
    let Some((op, more)) = comparison(rest) else {
        return relation_of(alloc, parens, levels, left, rest);
    };
    if left.depth >= levels {
        return Err(Stop::TooDeep(rest.len()));
    }
    let (right, behind) = sum_of(alloc, parens, levels - 1, more)?;
    Ok((compared_of(alloc, op, left, right)?, behind))
}

/// A sum, or a product alone.
#[cycle(descent)]
fn sum_of(
    alloc: Global,
    parens: u32,
    levels: u32,
    tokens: &[Token],
) -> Result<(Node, &[Token]), Stop>
    ensures answers { Answers node_tree result (sum (room parens) (inner parens) levels
        (kinds tokens.now)) }
    ensures node { IfOk result (λ x. IsNode levels x.0) }
{
    let (mut left, mut rest) = prod_of(alloc, parens, levels, tokens)?;
    for _ in 0..rest.len() {
        let Some((op, more)) = added(rest) else {
            return Ok((left, rest));
        };
        if left.depth >= levels {
            return Err(Stop::TooDeep(rest.len()));
        }
        let (right, behind) = prod_of(alloc, parens, levels - 1, more)?;
        left = math_of(alloc, op, left, right)?;
        rest = behind;
    }
    Ok((left, rest))
}

/// A product, or a factor alone.
#[cycle(descent)]
fn prod_of(
    alloc: Global,
    parens: u32,
    levels: u32,
    tokens: &[Token],
) -> Result<(Node, &[Token]), Stop>
    ensures answers { Answers node_tree result (prod (room parens) (inner parens) levels
        (kinds tokens.now)) }
    ensures node { IfOk result (λ x. IsNode levels x.0) }
{
    let (mut left, mut rest) = unary_of(alloc, parens, levels, tokens)?;
    for _ in 0..rest.len() {
        let Some((op, more)) = multiplied(rest) else {
            return Ok((left, rest));
        };
        if left.depth >= levels {
            return Err(Stop::TooDeep(rest.len()));
        }
        let (right, behind) = unary_of(alloc, parens, levels - 1, more)?;
        left = math_of(alloc, op, left, right)?;
        rest = behind;
    }
    Ok((left, rest))
}

/// An expression with `-` before it, or none.
#[cycle(descent)]
fn unary_of(
    alloc: Global,
    parens: u32,
    levels: u32,
    tokens: &[Token],
) -> Result<(Node, &[Token]), Stop>
    ensures answers { Answers node_tree result (unary (room parens) (inner parens) levels
        (kinds tokens.now)) }
    ensures node { IfOk result (λ x. IsNode levels x.0) }
{
    let Some(more) = after(Mark::Minus, tokens) else {
        return prim_of(alloc, parens, levels, tokens);
    };
    if levels == 0 {
        return Err(Stop::TooDeep(tokens.len()));
    }
    let (node, rest) = unary_of(alloc, parens, levels - 1, more)?;
    Ok((minus_of(alloc, node)?, rest))
}

/// A literal, a field, a call, or an expression in parentheses.
#[cycle(descent)]
fn prim_of(
    alloc: Global,
    parens: u32,
    levels: u32,
    tokens: &[Token],
) -> Result<(Node, &[Token]), Stop>
    ensures answers { Answers node_tree result (prim (room parens) (inner parens) levels
        (kinds tokens.now)) }
    ensures node { IfOk result (λ x. IsNode levels x.0) }
{
    let Some(inside) = after(Mark::Open, tokens) else {
        return call_of(alloc, parens, levels, tokens);
    };
    if parens == 0 {
        return Err(Stop::TooOpen(tokens.len()));
    }
    let (node, rest) = expr_of(alloc, parens - 1, levels, inside)?;
    match after(Mark::Close, rest) {
        Some(behind) => Ok((node, behind)),
        None => Err(Stop::Syntax(rest.len())),
    }
}

/// A literal, a field or a call.
#[cycle(descent)]
fn call_of(
    alloc: Global,
    parens: u32,
    levels: u32,
    tokens: &[Token],
) -> Result<(Node, &[Token]), Stop>
    requires { Lacks mark.Open (kinds tokens.now) }
    ensures answers { Answers node_tree result (prim (room parens) (inner parens) levels
        (kinds tokens.now)) }
    ensures node { IfOk result (λ x. IsNode levels x.0) }
{
    let Some((name, fold, inside)) = call_at(tokens) else {
        return leaf_of(alloc, parens, levels, tokens);
    };
    if levels == 0 {
        return Err(Stop::TooDeep(tokens.len()));
    }
    if parens == 0 {
        return Err(Stop::TooOpen(tokens.len() - 1));
    }
    let (arguments, rest) = arguments_of(alloc, parens - 1, levels - 1, inside)?;
    called(alloc, levels, name, fold, arguments, tokens.len(), rest)
}

/// The arguments of a call, and the parenthesis that closes them.
#[cycle(descent)]
fn arguments_of(
    alloc: Global,
    parens: u32,
    levels: u32,
    tokens: &[Token],
) -> Result<(Nodes, &[Token]), Stop>
    ensures answers { Answers nodes_trees result (arguments true (expr parens) levels
        (kinds tokens.now)) }
    ensures node { IfOk result (λ x. IsNodes levels x.0) }
{
    if let Some(rest) = after(Mark::Close, tokens) {
        return Ok((Nodes::none(alloc), rest));
    }
    let (nodes, rest) = operands_of(
        alloc,
        Joint::Comma,
        parens,
        levels,
        Nodes::none(alloc),
        tokens,
    )?;
    match after(Mark::Close, rest) {
        Some(behind) => Ok((nodes, behind)),
        None => Err(Stop::Syntax(rest.len())),
    }
}
