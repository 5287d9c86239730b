//! The check of one expression: its kind, or the first rule that it breaks.
ghost use Rattle.std.specs.Prelude.{◌≡◌, map};
ghost use Rattle.eql_query.specs.View.{tree, trees, trees_of};
ghost use Rattle.eql_check.specs.Kinds.{kind_at};
ghost use Rattle.eql_check.specs.Names.{function_of};
ghost use Rattle.eql_check.specs.Calls as calls;
ghost use Rattle.eql_check.specs.FirstBroken as broken;
ghost use Rattle.eql_check.specs.Answers.{Answers, bools_of};

use crate::calls::{bad_block_of, given_by, shown, takes_count, takes_kinds};
use crate::function::Function;
use crate::kinds::{can_be_among, can_compare, holds_field, may_be};
use crate::mapping::Mapping;
use crate::refused::CheckRefused;
use eql_query::{CmpOp, Expr, Exprs, FieldRef};
use eql_values::{Kind, Text, Value};
use std::alloc::Global;
use std::marker::Model;

/// The kinds of some expressions, in their order.
#[derive(Drop)]
struct Kinds {
    items: Vec<Option<Kind>>,
}

impl Model for Kinds {
    ghost use Rattle.std.specs.Prelude.{List, Option};
    ghost use Rattle.eql_values.specs.declared.value.Kind.{Kind as FieldKind};

    ghost Value = { List (Option FieldKind) };

    ghost view = { λ l. l.items.items };
}

/// This kind, where the operands have kinds that fit.
fn given(item: u32, fits: bool, kind: Kind) -> Result<Option<Kind>, CheckRefused>
    ensures { result ≡ broken.kind_if item fits kind }
{
    if fits {
        Ok(Some(kind))
    } else {
        Err(CheckRefused::KindMismatch { item })
    }
}

/// The kind of a field.
fn field_kind(mapping: &Mapping, field: &FieldRef) -> Result<Option<Kind>, CheckRefused>
    ensures { Answers result
        (broken.field_kind (kind_at mapping.now field.now.name) field.now.optional
        field.now.name) }
{
    match mapping.kind(&field.name) {
        Some(kind) => Ok(Some(kind)),
        None => {
            if field.optional {
                Ok(None)
            } else {
                let name = field.name.clone()?;
                Err(CheckRefused::UnknownField { name })
            }
        }
    }
}

/// What a call gives, by the kinds of its arguments.
fn call_kind(
    item: u32,
    name: &Text,
    fold: bool,
    args: &[Expr],
    kinds: &[Option<Kind>],
) -> Result<Option<Kind>, CheckRefused>
    ensures { Answers result
        (broken.call_kind item (function_of name.now fold) (calls.shown_function name.now fold)
        (trees_of (map tree args.now)) kinds.now) }
{
    let Some(function) = Function::of(name, fold) else {
        let name = shown(name, fold)?;
        return Err(CheckRefused::UnknownFunction { name });
    };
    if !takes_count(function, kinds.len()) {
        let name = shown(name, fold)?;
        return Err(CheckRefused::Arity { name });
    }
    if let Some(text) = bad_block_of(function, args) {
        let text = text.clone()?;
        return Err(CheckRefused::Cidr { text });
    }
    given(item, takes_kinds(function, args, kinds), given_by(function))
}

/// The kind of a comparison of two sides of these kinds.
fn comparison(
    item: u32,
    op: CmpOp,
    j: Option<Kind>,
    k: Option<Kind>,
    a: &Expr,
    b: &Expr,
) -> Result<Option<Kind>, CheckRefused>
    ensures { result ≡ broken.comparison item op j k (tree a.now) (tree b.now) }
{
    let kind = given(item, can_compare(op, j, k, a, b), Kind::Bool)?;
    if holds_field(a) && holds_field(b) {
        Err(CheckRefused::FieldToField { item })
    } else {
        Ok(kind)
    }
}

/// The kind of an operator on two whole numbers.
fn calculation(item: u32, j: Option<Kind>, k: Option<Kind>) -> Result<Option<Kind>, CheckRefused>
    ensures { result ≡ broken.calculation item j k }
{
    given(
        item,
        may_be(Kind::Long, j) && may_be(Kind::Long, k),
        Kind::Long,
    )
}

/// The kind of an expression of an item, or the first rule that it breaks. An expression that is always null has no kind.
#[cycle(kind)]
pub(crate) fn kind_of(
    alloc: Global,
    item: u32,
    mapping: &Mapping,
    expr: &Expr,
) -> Result<Option<Kind>, CheckRefused>
    ensures { Answers result (broken.kind_of item (kind_at mapping.now) (tree expr.now)) }
{
    match expr {
        Expr::Null => Ok(None),
        Expr::Bool(_) => Ok(Some(Kind::Bool)),
        Expr::Long(_) => Ok(Some(Kind::Long)),
        Expr::Str(_) => Ok(Some(Kind::Text)),
        Expr::Field(field) => field_kind(mapping, field),
        Expr::Not(a) => operator(alloc, item, mapping, a, Kind::Bool, Kind::Bool),
        Expr::Neg(a) => operator(alloc, item, mapping, a, Kind::Long, Kind::Long),
        Expr::Pattern(_, a, _) => operator(alloc, item, mapping, a, Kind::Text, Kind::Bool),
        Expr::Member {
            fold,
            left,
            list,
            ..
        } => member(alloc, item, mapping, *fold, left, list.items()),
        Expr::Math(_, a, b) => {
            let j = kind_of(alloc, item, mapping, a)?;
            let k = kind_of(alloc, item, mapping, b)?;
            calculation(item, j, k)
        }
        Expr::Cmp(op, a, b) => {
            let j = kind_of(alloc, item, mapping, a)?;
            let k = kind_of(alloc, item, mapping, b)?;
            comparison(item, *op, j, k, a, b)
        }
        Expr::And(operands) | Expr::Or(operands) => connective(alloc, item, mapping, operands),
        Expr::Call { name, fold, args } => called(alloc, item, mapping, name, *fold, args),
    }
}

/// The kind of an operator on one operand, which asks for a kind and gives one.
#[cycle(kind)]
fn operator(
    alloc: Global,
    item: u32,
    mapping: &Mapping,
    a: &Expr,
    asked: Kind,
    gives: Kind,
) -> Result<Option<Kind>, CheckRefused>
    ensures { Answers result
        (broken.operator item (kind_at mapping.now) (tree a.now) asked gives) }
{
    let k = kind_of(alloc, item, mapping, a)?;
    given(item, may_be(asked, k), gives)
}

/// The kind of a list test.
#[cycle(kind)]
fn member(
    alloc: Global,
    item: u32,
    mapping: &Mapping,
    fold: bool,
    left: &Expr,
    list: &[Value],
) -> Result<Option<Kind>, CheckRefused>
    ensures { Answers result
        (broken.member item (kind_at mapping.now) fold (tree left.now) list.now) }
{
    let k = kind_of(alloc, item, mapping, left)?;
    given(item, can_be_among(fold, k, list), Kind::Bool)
}

/// The kind of a call.
#[cycle(kind)]
fn called(
    alloc: Global,
    item: u32,
    mapping: &Mapping,
    name: &Text,
    fold: bool,
    args: &Exprs,
) -> Result<Option<Kind>, CheckRefused>
    ensures { Answers result
        (broken.call item (kind_at mapping.now) name.now fold (trees args.now)) }
{
    let kinds = kinds_of(alloc, item, mapping, args)?;
    call_kind(item, name, fold, args.items(), &kinds.items)
}

/// The kind of `and` and `or`.
#[cycle(kind)]
#[tactic(auto, using(crate::proofs::Answering::refused_operands))]
fn connective(
    alloc: Global,
    item: u32,
    mapping: &Mapping,
    operands: &Exprs,
) -> Result<Option<Kind>, CheckRefused>
    ensures { Answers result
        (broken.connective item
        (broken.kinds_of item (kind_at mapping.now) (trees operands.now))) }
{
    let all = are_bools(alloc, item, mapping, operands)?;
    given(item, all, Kind::Bool)
}

/// Whether all operands may be Boolean.
#[cycle(kind)]
fn are_bools(
    alloc: Global,
    item: u32,
    mapping: &Mapping,
    operands: &Exprs,
) -> Result<bool, CheckRefused>
    ensures { Answers result
        (bools_of (broken.kinds_of item (kind_at mapping.now) (trees operands.now))) }
{
    let mut all = true;
    for operand in operands.items() {
        let kind = kind_of(alloc, item, mapping, operand)?;
        all = all && may_be(Kind::Bool, kind);
    }
    Ok(all)
}

/// The kinds of the arguments of a call.
#[cycle(kind)]
#[tactic(auto, using(crate::proofs::Listing::one_more_kind))]
fn kinds_of(
    alloc: Global,
    item: u32,
    mapping: &Mapping,
    args: &Exprs,
) -> Result<Kinds, CheckRefused>
    ensures { Answers result (broken.kinds_of item (kind_at mapping.now) (trees args.now)) }
{
    let mut items = Vec::with_capacity(alloc, args.items().len())?;
    for arg in args.items() {
        let kind = kind_of(alloc, item, mapping, arg)?;
        items.push(kind)?;
    }
    Ok(Kinds { items })
}
