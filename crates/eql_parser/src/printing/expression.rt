//! How expressions are written: each node that isn't a leaf or a call in one pair of parentheses.
ghost use Rattle.std.specs.Prelude.{◌++◌, ◌∷◌, IsTrue, OnOk};
ghost use Rattle.eql_parser.specs.Adding.{Adds, all_ascii};
ghost use Rattle.eql_parser.specs.Printed.{tree_shown, all_shown, patterns_shown, literals_shown};
ghost use Rattle.eql_query.specs.Tree as t;
ghost use Rattle.eql_query.specs.View.{tree, trees};

use super::leaf::{put_field, put_quoted};
use super::list::{put_literals, put_patterns};
use super::page::Page;
use super::symbol::{bool_text, cmp_text, math_text, member_text, pat_text};
use eql_query::{Expr, Exprs};
use eql_values::{Memory, Text, Value};

/// Writes an expression.
#[cycle(put)]
pub(crate) fn put_expr(page: &mut Page, expr: &Expr) -> Result<(), Memory>
    ensures { OnOk result (Adds page.old page.new (tree_shown (tree expr.now))) }
{
    match expr {
        Expr::Null => page.put("null"),
        Expr::Bool(value) => page.put(bool_text(*value)),
        Expr::Long(number) => page.put_number(number),
        Expr::Str(text) => put_quoted(page, text),
        Expr::Field(field) => put_field(page, field),
        Expr::Not(a) => put_behind(page, "(not ", a),
        Expr::And(operands) => put_operands(page, " and ", operands),
        Expr::Or(operands) => put_operands(page, " or ", operands),
        Expr::Cmp(op, a, b) => {
            put_left(page, a)?;
            put_behind(page, cmp_text(*op), b)
        }
        Expr::Pattern(op, a, patterns) => put_pattern(page, a, pat_text(*op), patterns.items()),
        Expr::Member {
            fold,
            negated,
            left,
            list,
        } => put_member(page, left, member_text(*fold, *negated), list.items()),
        Expr::Neg(a) => put_behind(page, "(-", a),
        Expr::Math(op, a, b) => {
            put_left(page, a)?;
            put_behind(page, math_text(*op), b)
        }
        Expr::Call { name, fold, args } => put_call(page, name, *fold, args),
    }
}

/// Writes an opening parenthesis, and the operand behind it.
#[cycle(put)]
fn put_left(page: &mut Page, a: &Expr) -> Result<(), Memory>
    ensures { OnOk result (Adds page.old page.new (λ rest. 40 ∷ tree_shown (tree a.now) rest)) }
{
    page.put("(")?;
    put_expr(page, a)
}

/// Writes an operator, the operand behind it, and a closing parenthesis.
#[cycle(put)]
fn put_behind(page: &mut Page, before: &str, a: &Expr) -> Result<(), Memory>
    requires { IsTrue (all_ascii before.now) }
    ensures { OnOk result (Adds page.old page.new (λ rest. before.now ++ tree_shown (tree a.now)
        (41 ∷ rest))) }
{
    page.put(before)?;
    put_expr(page, a)?;
    page.put(")")
}

/// Writes an operand and patterns in parentheses, with an operator between.
#[cycle(put)]
fn put_pattern(page: &mut Page, a: &Expr, between: &str, patterns: &[Text]) -> Result<(), Memory>
    requires { IsTrue (all_ascii between.now) }
    ensures { OnOk result (Adds page.old page.new (λ rest. 40 ∷ tree_shown (tree a.now)
        (between.now ++ patterns_shown patterns.now (41 ∷ rest)))) }
{
    put_left(page, a)?;
    page.put(between)?;
    put_patterns(page, patterns)?;
    page.put(")")
}

/// Writes an operand and a list in parentheses, with an operator between that ends in the list's
/// own parenthesis.
#[cycle(put)]
fn put_member(page: &mut Page, left: &Expr, between: &str, list: &[Value]) -> Result<(), Memory>
    requires { IsTrue (all_ascii between.now) }
    ensures { OnOk result (Adds page.old page.new (λ rest. 40 ∷ tree_shown (tree left.now)
        (between.now ++ literals_shown list.now (41 ∷ 41 ∷ rest)))) }
{
    put_left(page, left)?;
    page.put(between)?;
    put_literals(page, list)?;
    page.put("))")
}

/// Writes a call.
#[cycle(put)]
fn put_call(page: &mut Page, name: &Text, fold: bool, arguments: &Exprs) -> Result<(), Memory>
    ensures { OnOk result (Adds page.old page.new (tree_shown
        (t.call name.now fold (trees arguments.now)))) }
{
    page.put_name(name.text())?;
    page.put(if fold { "~(" } else { "(" })?;
    put_all(page, ", ", arguments)?;
    page.put(")")
}

/// Writes operands in parentheses, with something between.
#[cycle(put)]
fn put_operands(page: &mut Page, between: &str, operands: &Exprs) -> Result<(), Memory>
    requires { IsTrue (all_ascii between.now) }
    ensures { OnOk result (Adds page.old page.new (λ rest. 40 ∷ all_shown between.now
        (trees operands.now) (41 ∷ rest))) }
{
    page.put("(")?;
    put_all(page, between, operands)?;
    page.put(")")
}

/// Writes expressions with something between.
#[cycle(put)]
fn put_all(page: &mut Page, between: &str, exprs: &Exprs) -> Result<(), Memory>
    requires { IsTrue (all_ascii between.now) }
    ensures { OnOk result (Adds page.old page.new (all_shown between.now (trees exprs.now))) }
{
    let mut separator = "";
    for item in exprs.items() {
        page.put(separator)?;
        put_expr(page, item)?;
        separator = between;
    }
    Ok(())
}
