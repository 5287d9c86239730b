//! Expressions with the number of their levels.
ghost use Rattle.std.specs.Prelude.{◌≡◌, ◌+◌, ◌<◌, ◌≤◌, ◌^◌, ◌++◌, ◌∷◌, [], false, suc, max, length, map, IfOk};
ghost use Rattle.std.specs.Str.{chars};
ghost use Rattle.eql_values.specs.declared.value.Value.{Value};
ghost use Rattle.eql_query.specs.Tree as t;
ghost use Rattle.eql_query.specs.View.{tree, trees_of};
ghost use Rattle.eql_parser.specs.Limits.{depth};
ghost use Rattle.eql_parser.specs.Answering.{nodes_trees};

use eql_query::{CmpOp, Expr, Exprs, MathOp, PatOp};
use eql_values::{Literals, Texts};
use std::alloc::{AllocError, AllocFailed, Global};

/// An expression with the number of its levels.
#[derive(Drop)]
pub struct Node {
    pub expr: Expr,
    pub depth: u32,
}

/// Expressions with the number of levels of the deepest.
#[derive(Drop)]
pub struct Nodes {
    pub items: Vec<Expr>,
    pub depth: u32,
}

impl Nodes {
    /// No expressions.
    pub fn none(alloc: Global) -> Nodes
        ensures items { nodes_trees result ≡ [] }
        ensures depth { result.depth ≡ 0 }
    {
        Nodes {
            items: Vec::new(alloc),
            depth: 0,
        }
    }

    /// These expressions and another one behind them.
    pub fn with(mut self, node: Node) -> Result<Nodes, AllocFailed<Expr>>
        ensures items { IfOk result
            (λ n. nodes_trees n ≡ nodes_trees self ++ tree node.expr ∷ []) }
        ensures depth { IfOk result (λ n. n.depth ≡ max self.depth node.depth) }
    {
        self.items.push(node.expr)?;
        Ok(Nodes {
            items: self.items,
            depth: self.depth.max(node.depth),
        })
    }
}

/// `not A`
pub fn not_of(alloc: Global, node: Node) -> Result<Node, AllocError>
    requires { node.depth + 1 < 2 ^ 32 }
    ensures tree { IfOk result (λ n. tree n.expr ≡ t.not (tree node.expr)) }
    ensures depth { IfOk result (λ n. n.depth ≡ suc node.depth) }
{
    Ok(Node {
        expr: Expr::Not(Box::new(alloc, node.expr)?),
        depth: node.depth + 1,
    })
}

/// `-A`
pub fn minus_of(alloc: Global, node: Node) -> Result<Node, AllocError>
    requires { node.depth + 1 < 2 ^ 32 }
    ensures tree { IfOk result (λ n. tree n.expr ≡ t.neg (tree node.expr)) }
    ensures depth { IfOk result (λ n. n.depth ≡ suc node.depth) }
{
    Ok(Node {
        expr: Expr::Neg(Box::new(alloc, node.expr)?),
        depth: node.depth + 1,
    })
}

/// A comparison.
pub fn compared_of(alloc: Global, op: CmpOp, left: Node, right: Node) -> Result<Node, AllocError>
    requires left { left.depth + 1 < 2 ^ 32 }
    requires right { right.depth + 1 < 2 ^ 32 }
    ensures tree { IfOk result (λ n. tree n.expr ≡ t.cmp op (tree left.expr) (tree right.expr)) }
    ensures depth { IfOk result (λ n. n.depth ≡ suc (max left.depth right.depth)) }
{
    let depth = left.depth.max(right.depth) + 1;
    let expr = Expr::Cmp(
        op,
        Box::new(alloc, left.expr)?,
        Box::new(alloc, right.expr)?,
    );
    Ok(Node { expr, depth })
}

/// An operator on two numbers.
pub fn math_of(alloc: Global, op: MathOp, left: Node, right: Node) -> Result<Node, AllocError>
    requires left { left.depth + 1 < 2 ^ 32 }
    requires right { right.depth + 1 < 2 ^ 32 }
    ensures tree { IfOk result (λ n. tree n.expr ≡ t.math op (tree left.expr) (tree right.expr)) }
    ensures depth { IfOk result (λ n. n.depth ≡ suc (max left.depth right.depth)) }
{
    let depth = left.depth.max(right.depth) + 1;
    let expr = Expr::Math(
        op,
        Box::new(alloc, left.expr)?,
        Box::new(alloc, right.expr)?,
    );
    Ok(Node { expr, depth })
}

/// A test against patterns.
pub fn pattern_of(alloc: Global, op: PatOp, left: Node, patterns: Texts) -> Result<Node, AllocError>
    requires { left.depth + 1 < 2 ^ 32 }
    ensures tree { IfOk result (λ n. tree n.expr ≡ t.pattern op (tree left.expr) patterns) }
    ensures depth { IfOk result (λ n. n.depth ≡ suc left.depth) }
{
    let depth = left.depth + 1;
    let expr = Expr::Pattern(op, Box::new(alloc, left.expr)?, patterns);
    Ok(Node { expr, depth })
}

/// A test of membership in a list.
pub fn member_of(
    alloc: Global,
    fold: bool,
    negated: bool,
    left: Node,
    list: Literals,
) -> Result<Node, AllocError>
    requires { left.depth + 1 < 2 ^ 32 }
    ensures tree { IfOk result (λ n. tree n.expr ≡ t.member fold negated (tree left.expr) list) }
    ensures depth { IfOk result (λ n. n.depth ≡ suc left.depth) }
{
    let depth = left.depth + 1;
    let left = Box::new(alloc, left.expr)?;
    let expr = Expr::Member {
        fold,
        negated,
        left,
        list,
    };
    Ok(Node { expr, depth })
}

/// `A and B and ..`
pub fn all_of(nodes: Nodes) -> Node
    requires { nodes.depth + 1 < 2 ^ 32 }
    ensures tree { tree result.expr ≡ t.and (trees_of (nodes_trees nodes)) }
    ensures depth { result.depth ≡ suc nodes.depth }
{
    Node {
        expr: Expr::And(Exprs::of(nodes.items)),
        depth: nodes.depth + 1,
    }
}

/// `A or B or ..`
pub fn any_of(nodes: Nodes) -> Node
    requires { nodes.depth + 1 < 2 ^ 32 }
    ensures tree { tree result.expr ≡ t.or (trees_of (nodes_trees nodes)) }
    ensures depth { result.depth ≡ suc nodes.depth }
{
    Node {
        expr: Expr::Or(Exprs::of(nodes.items)),
        depth: nodes.depth + 1,
    }
}
