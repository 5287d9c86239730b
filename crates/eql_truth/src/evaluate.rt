//! The evaluation of expressions.
ghost use Rattle.std.specs.Prelude.{◌≡◌, ◌||◌, [], IfOk, Some, true, false};
ghost use Rattle.eql_query.specs.View.{tree, trees};
ghost use Rattle.eql_check.specs.Truth.{means, values, value_at, call_of, is_literal_null};
ghost use Rattle.eql_check.specs.Names.{function_of};
ghost use Rattle.eql_check.specs.ThreeValued.{truth, truth_in, negation, all_from, any_from};

use crate::slots::look_up;
use eql_check::{Checked, Function, is_null};
use eql_operators::{
    call, compare, compute, conjunction, disjunction, is_among, matches_one, negate, negation,
    truth_of, value_of,
};
use eql_query::{Expr, Exprs};
use eql_values::{Memory, NameKinds, Slots, Text, Value};
use std::alloc::Global;

/// What a condition of a checked query means where the used fields have these values, by their slots; a field whose
/// slot isn't there is null. `Memory` where memory ran out.
pub fn eval(alloc: Global, expr: &Expr, checked: &Checked, slots: &Slots) -> Result<Value, Memory>
    ensures { IfOk result
        (λ v. v ≡ means (value_at checked.now.fields slots.now) (tree expr.now)) }
{
    evaluate_in(alloc, expr, checked.fields(), slots)
}

/// What an expression means where no field has a value. `Memory` where memory ran out.
pub fn eval_constant(alloc: Global, expr: &Expr) -> Result<Value, Memory>
    ensures { IfOk result (λ v. v ≡ means (value_at [] []) (tree expr.now)) }
{
    let fields = NameKinds::of(Vec::new(alloc));
    let slots = Slots::of(Vec::new(alloc));
    evaluate_in(alloc, expr, &fields, &slots)
}

/// Whether one of two expressions is the literal `null`.
fn has_literal_null(a: &Expr, b: &Expr) -> bool
    ensures { result ≡ (is_literal_null (tree a.now) || is_literal_null (tree b.now)) }
{
    is_null(a) || is_null(b)
}

/// What an expression means where the used fields have these values.
#[cycle(evaluate)]
fn evaluate_in(
    alloc: Global,
    expr: &Expr,
    fields: &NameKinds,
    slots: &Slots,
) -> Result<Value, Memory>
    ensures { IfOk result (λ v. v ≡ means (value_at fields.now slots.now) (tree expr.now)) }
{
    match expr {
        Expr::Null => Ok(Value::Null),
        Expr::Bool(b) => Ok(Value::Bool(*b)),
        Expr::Long(n) => Ok(Value::Long(*n)),
        Expr::Str(s) => Ok(Value::Text(s.clone()?)),
        Expr::Field(field) => look_up(fields.items(), slots.items(), &field.name),
        Expr::Not(a) => evaluate_not(alloc, a, fields, slots),
        Expr::And(es) => Ok(value_of(evaluate_and(alloc, es, fields, slots)?)),
        Expr::Or(es) => Ok(value_of(evaluate_or(alloc, es, fields, slots)?)),
        Expr::Cmp(op, a, b) => {
            let x = evaluate_in(alloc, a, fields, slots)?;
            let y = evaluate_in(alloc, b, fields, slots)?;
            Ok(compare(has_literal_null(a, b), *op, &x, &y))
        }
        Expr::Pattern(op, a, patterns) => {
            let value = evaluate_in(alloc, a, fields, slots)?;
            Ok(matches_one(*op, &value, patterns))
        }
        Expr::Member {
            fold,
            negated,
            left,
            list,
        } => {
            let value = evaluate_in(alloc, left, fields, slots)?;
            Ok(is_among(*fold, *negated, &value, list))
        }
        Expr::Neg(a) => {
            let value = evaluate_in(alloc, a, fields, slots)?;
            Ok(negate(&value))
        }
        Expr::Math(op, a, b) => {
            let x = evaluate_in(alloc, a, fields, slots)?;
            let y = evaluate_in(alloc, b, fields, slots)?;
            Ok(compute(*op, &x, &y))
        }
        Expr::Call { name, fold, args } => evaluate_call(alloc, name, *fold, args, fields, slots),
    }
}

#[cycle(evaluate)]
fn evaluate_not(alloc: Global, a: &Expr, fields: &NameKinds, slots: &Slots) -> Result<Value, Memory>
    ensures { IfOk result (λ v. v
        ≡ truth (negation (truth_in (means (value_at fields.now slots.now) (tree a.now))))) }
{
    let value = evaluate_in(alloc, a, fields, slots)?;
    Ok(value_of(negation(truth_of(&value))))
}

#[cycle(evaluate)]
fn evaluate_call(
    alloc: Global,
    name: &Text,
    fold: bool,
    args: &Exprs,
    fields: &NameKinds,
    slots: &Slots,
) -> Result<Value, Memory>
    ensures { IfOk result (λ v. v
        ≡ call_of (function_of name.now fold) fold
        (values (value_at fields.now slots.now) (trees args.now))) }
{
    let values = evaluate_all(alloc, args, fields, slots)?;
    call_named(alloc, name, fold, &values)
}

/// What a call of the function that a name names gives for values; null where it names none.
fn call_named(alloc: Global, name: &Text, fold: bool, args: &Vec<Value>) -> Result<Value, Memory>
    ensures { IfOk result (λ v. v ≡ call_of (function_of name.now fold) fold args.now.items) }
{
    match Function::of(name, fold) {
        Some(function) => call(alloc, function, fold, args),
        None => Ok(Value::Null),
    }
}

#[cycle(evaluate)]
fn evaluate_and(
    alloc: Global,
    es: &Exprs,
    fields: &NameKinds,
    slots: &Slots,
) -> Result<Option<bool>, Memory>
    ensures { IfOk result
        (λ p. p ≡ all_from (Some true) (values (value_at fields.now slots.now) (trees es.now))) }
{
    let mut truth = Some(true);
    for item in es.items() {
        let value = evaluate_in(alloc, item, fields, slots)?;
        truth = conjunction(truth, truth_of(&value));
    }
    Ok(truth)
}

#[cycle(evaluate)]
fn evaluate_or(
    alloc: Global,
    es: &Exprs,
    fields: &NameKinds,
    slots: &Slots,
) -> Result<Option<bool>, Memory>
    ensures { IfOk result
        (λ p. p
        ≡ any_from (Some false) (values (value_at fields.now slots.now) (trees es.now))) }
{
    let mut truth = Some(false);
    for item in es.items() {
        let value = evaluate_in(alloc, item, fields, slots)?;
        truth = disjunction(truth, truth_of(&value));
    }
    Ok(truth)
}

#[cycle(evaluate)]
fn evaluate_all(
    alloc: Global,
    es: &Exprs,
    fields: &NameKinds,
    slots: &Slots,
) -> Result<Vec<Value>, Memory>
    ensures { IfOk result
        (λ vs. vs.items ≡ values (value_at fields.now slots.now) (trees es.now)) }
{
    let mut all = Vec::new(alloc);
    for item in es.items() {
        all.push(evaluate_in(alloc, item, fields, slots)?)?;
    }
    Ok(all)
}
