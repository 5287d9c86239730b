//! The code of an expression: its operands first, then what joins them. It is put together from its end, so that an
//! operator of a list knows how many operations follow. An expression without a field is evaluated here, once, and
//! addresses and blocks that are written in quotes are read here.
ghost use Rattle.std.specs.Prelude.{◌≡◌, ◌++◌, ◌∷◌, [], ◌+◌, ◌≤◌, ◌||◌, true, OnOk, IfOk, IfSome, vec_len, length, map, max, suc, reverse, option_map};
ghost use Rattle.eql_query.specs.View.{tree, trees, trees_of};
ghost use Rattle.eql_text.specs.Addresses.{parse_ip4};
ghost use Rattle.eql_values.specs.declared.value.Value.TheVariants as FieldValue;
ghost use Rattle.eql_check.specs.Kinds.{holds_field};
ghost use Rattle.eql_check.specs.Names.{function_of};
ghost use Rattle.eql_check.specs.Truth.{is_literal_null, slot_of};
ghost use Rattle.eql_operators.specs.Prepared.{addresses_in as addresses_among};
ghost use Rattle.eql_code.specs.declared.emit.Op.TheVariants as o;
ghost use Rattle.eql_code.specs.Folds.{beside, fold_op, first_of};
ghost use Rattle.eql_code.specs.Code as c;
ghost use Rattle.eql_code.specs.Code.{code, code_each, code_all, code_first, depth, depth_each, depth_all, depth_first, field_code};

use eql_check::{Function, holds_field, is_null};
use eql_operators::{Addresses, Blocks, addresses_in, slot_of};
use eql_query::{CmpOp, Expr, Exprs, MathOp, PatOp};
use eql_text::{Block, parse_block, parse_ip4};
use eql_truth::eval_constant;
use eql_values::{Literals, Memory, NameKinds, Text, Texts, Value};
use std::alloc::{AllocError, Global};

/// One operation of the stack machine.
#[derive(Drop)]
pub enum Op {
    /// Puts a constant on the stack.
    Push(Value),
    /// Puts the value of a slot, counted from 0, on the stack.
    Slot(usize),
    /// `not`
    Not,
    /// `and` of two. Where it is false, the rest of its list is passed over.
    And {
        /// How many operations that rest has.
        rest: usize,
    },
    /// `or` of two. Where it is true, the rest of its list is passed over.
    Or {
        /// How many operations that rest has.
        rest: usize,
    },
    /// A comparison.
    Compare {
        /// Whether a side is written as `null`.
        literal: bool,
        /// The operator.
        how: CmpOp,
    },
    /// `==`, or with `negated` its `!=`, beside a text in quotes that writes an address.
    Address {
        /// Whether it is `!=`.
        negated: bool,
        /// The text.
        text: Value,
        /// The address that it writes.
        ip: u32,
    },
    /// A test of a text against patterns.
    Pattern {
        /// The operator.
        how: PatOp,
        /// The patterns.
        patterns: Texts,
    },
    /// A list test.
    Member {
        /// Whether case is ignored.
        fold: bool,
        /// Whether it is `not in`.
        negated: bool,
        /// The literals.
        list: Literals,
        /// The addresses that they write.
        addresses: Addresses,
    },
    /// `cidrMatch` with these blocks.
    Cidr(Blocks),
    /// The other sign.
    Negate,
    /// An operator on two whole numbers.
    Math(MathOp),
    /// A call.
    Call {
        /// The function.
        function: Function,
        /// Whether case is ignored.
        fold: bool,
        /// How many arguments lie on the stack.
        count: usize,
    },
}

impl Clone for Op {
    ghost is_clone = { λ old new. new ≡ old };

    fn clone(&self) -> Result<Op, AllocError> {
        match self {
            Op::Push(value) => Ok(Op::Push(value.clone()?)),
            Op::Slot(slot) => Ok(Op::Slot(*slot)),
            Op::Not => Ok(Op::Not),
            Op::And { rest } => Ok(Op::And { rest: *rest }),
            Op::Or { rest } => Ok(Op::Or { rest: *rest }),
            Op::Compare { literal, how } => Ok(Op::Compare {
                literal: *literal,
                how: *how,
            }),
            Op::Address { negated, text, ip } => Ok(Op::Address {
                negated: *negated,
                text: text.clone()?,
                ip: *ip,
            }),
            Op::Pattern { how, patterns } => Ok(Op::Pattern {
                how: *how,
                patterns: patterns.clone()?,
            }),
            Op::Member {
                fold,
                negated,
                list,
                addresses,
            } => copy_member(*fold, *negated, list, addresses),
            Op::Cidr(blocks) => Ok(Op::Cidr(blocks.clone()?)),
            Op::Negate => Ok(Op::Negate),
            Op::Math(how) => Ok(Op::Math(*how)),
            Op::Call {
                function,
                fold,
                count,
            } => Ok(Op::Call {
                function: *function,
                fold: *fold,
                count: *count,
            }),
        }
    }
}

/// A copy of a list test.
fn copy_member(
    fold: bool,
    negated: bool,
    list: &Literals,
    addresses: &Addresses,
) -> Result<Op, AllocError>
    ensures { IfOk result (λ op. op ≡ o.Member fold negated list.now addresses.now) }
{
    let list = list.clone()?;
    let addresses = addresses.clone()?;
    Ok(Op::Member {
        fold,
        negated,
        list,
        addresses,
    })
}

/// Which operator stands after each operand of a list.
#[derive(Clone, Copy)]
enum Fold {
    And,
    Or,
}

impl Fold {
    /// The operator, with this many operations behind it in its list.
    fn op(self, rest: usize) -> Op
        ensures { result ≡ fold_op self rest }
    {
        match self {
            Fold::And => Op::And { rest },
            Fold::Or => Op::Or { rest },
        }
    }

    /// What a list begins with.
    fn first(self) -> Value
        ensures { result ≡ first_of self }
    {
        match self {
            Fold::And => Value::Bool(true),
            Fold::Or => Value::Bool(false),
        }
    }
}

/// One more operation.
fn put_op(ops: &mut Vec<Op>, op: Op) -> Result<(), Memory>
    ensures items { OnOk result (reverse ops.new.items ≡ op ∷ reverse ops.old.items) }
    ensures len { OnOk result (vec_len ops.new ≡ vec_len ops.old + 1) }
{
    ops.push(op)?;
    Ok(())
}

/// One more constant, for which a stack of one value is deep enough.
fn put_value(ops: &mut Vec<Op>, value: Value) -> Result<usize, Memory>
    ensures items { OnOk result (reverse ops.new.items ≡ o.Push value ∷ reverse ops.old.items) }
    ensures depth { IfOk result (λ d. d ≡ 1) }
    ensures len { OnOk result (vec_len ops.new ≡ vec_len ops.old + 1) }
{
    put_op(ops, Op::Push(value))?;
    Ok(1)
}

/// The value of a field: that of its slot, and null where it is no used field.
fn put_field(ops: &mut Vec<Op>, fields: &NameKinds, name: &Text) -> Result<usize, Memory>
    ensures items { OnOk result (reverse ops.new.items
        ≡ field_code (slot_of fields.now name.now) ++ reverse ops.old.items) }
    ensures depth { IfOk result (λ d. d ≡ 1) }
    ensures len { OnOk result (vec_len ops.new ≡ vec_len ops.old + 1) }
{
    match slot_of(fields.items(), name) {
        Some(slot) => {
            put_op(ops, Op::Slot(slot))?;
            Ok(1)
        }
        None => put_value(ops, Value::Null),
    }
}

/// Appends the code of an expression, its last operation first, and tells how deep a stack it needs.
#[cycle(emit)]
#[tactic(auto, using(crate::proofs::Settled::without_field))]
pub(crate) fn emit(
    alloc: Global,
    ops: &mut Vec<Op>,
    expr: &Expr,
    fields: &NameKinds,
) -> Result<usize, Memory>
    ensures items { OnOk result (reverse ops.new.items
        ≡ code fields.now (tree expr.now) ++ reverse ops.old.items) }
    ensures depth { IfOk result (λ d. d ≡ depth (tree expr.now)) }
    ensures some { IfOk result (λ d. 1 ≤ d) }
    ensures len { IfOk result (λ d. vec_len ops.old + d ≤ vec_len ops.new) }
{
    if holds_field(expr) {
        emit_node(alloc, ops, expr, fields)
    } else {
        let value = eval_constant(alloc, expr)?;
        put_value(ops, value)
    }
}

/// The code of an expression in which a field stands.
#[cycle(emit)]
#[tactic(auto, using(crate::proofs::Settled::with_field))]
fn emit_node(
    alloc: Global,
    ops: &mut Vec<Op>,
    expr: &Expr,
    fields: &NameKinds,
) -> Result<usize, Memory>
    requires { holds_field (tree expr.now) ≡ true }
    ensures items { OnOk result (reverse ops.new.items
        ≡ code fields.now (tree expr.now) ++ reverse ops.old.items) }
    ensures depth { IfOk result (λ d. d ≡ depth (tree expr.now)) }
    ensures some { IfOk result (λ d. 1 ≤ d) }
    ensures len { IfOk result (λ d. vec_len ops.old + d ≤ vec_len ops.new) }
{
    match expr {
        Expr::Null | Expr::Bool(_) | Expr::Long(_) | Expr::Str(_) => unreachable!(),
        Expr::Field(field) => put_field(ops, fields, &field.name),
        Expr::Not(a) => emit_after(alloc, ops, a, Op::Not, fields),
        Expr::And(es) => emit_list(alloc, ops, Fold::And, es, fields),
        Expr::Or(es) => emit_list(alloc, ops, Fold::Or, es, fields),
        Expr::Cmp(_, _, _) => emit_compare(alloc, ops, expr, fields),
        Expr::Pattern(how, a, patterns) => {
            let op = pattern(*how, patterns)?;
            emit_after(alloc, ops, a, op, fields)
        }
        Expr::Member {
            fold,
            negated,
            left,
            list,
        } => {
            let op = member(alloc, *fold, *negated, list)?;
            emit_after(alloc, ops, left, op, fields)
        }
        Expr::Neg(a) => emit_after(alloc, ops, a, Op::Negate, fields),
        Expr::Math(how, _, _) => emit_two(alloc, ops, expr, Op::Math(*how), fields),
        Expr::Call { name, fold, args } => emit_call(alloc, ops, name, *fold, args, fields),
    }
}

/// A test of a text against patterns.
fn pattern(how: PatOp, patterns: &Texts) -> Result<Op, Memory>
    ensures { IfOk result (λ op. op ≡ o.Pattern how patterns.now) }
{
    let patterns = patterns.clone()?;
    Ok(Op::Pattern { how, patterns })
}

/// A list test, its addresses read.
fn member(alloc: Global, fold: bool, negated: bool, list: &Literals) -> Result<Op, Memory>
    ensures { IfOk result (λ op. op ≡ o.Member fold negated list.now (addresses_among list.now)) }
{
    let addresses = addresses_in(alloc, list)?;
    let list = list.clone()?;
    Ok(Op::Member {
        fold,
        negated,
        list,
        addresses,
    })
}

/// An operator behind its operand.
#[cycle(emit)]
fn emit_after(
    alloc: Global,
    ops: &mut Vec<Op>,
    a: &Expr,
    op: Op,
    fields: &NameKinds,
) -> Result<usize, Memory>
    ensures items { OnOk result (reverse ops.new.items
        ≡ (code fields.now (tree a.now) ++ op ∷ []) ++ reverse ops.old.items) }
    ensures depth { IfOk result (λ d. d ≡ depth (tree a.now)) }
    ensures some { IfOk result (λ d. 1 ≤ d) }
    ensures len { IfOk result (λ d. vec_len ops.old + d ≤ vec_len ops.new) }
{
    put_op(ops, op)?;
    emit(alloc, ops, a, fields)
}

/// The two operands of an expression, and an operator behind them.
#[cycle(emit)]
fn emit_two(
    alloc: Global,
    ops: &mut Vec<Op>,
    expr: &Expr,
    op: Op,
    fields: &NameKinds,
) -> Result<usize, Memory>
    requires { c.has_two (tree expr.now) ≡ true }
    ensures items { OnOk result (reverse ops.new.items
        ≡ c.two_code fields.now (tree expr.now) op ++ reverse ops.old.items) }
    ensures depth { IfOk result (λ d. d ≡ c.two_depth (tree expr.now)) }
    ensures some { IfOk result (λ d. 1 ≤ d) }
    ensures len { IfOk result (λ d. vec_len ops.old + d ≤ vec_len ops.new) }
{
    put_op(ops, op)?;
    match expr {
        Expr::Cmp(_, a, b) | Expr::Math(_, a, b) => {
            let right = emit(alloc, ops, b, fields)?;
            let left = emit(alloc, ops, a, fields)?;
            Ok(left.max(right + 1))
        }
        _ => unreachable!(),
    }
}

/// A comparison in which a field stands.
#[cycle(emit)]
#[tactic(auto, using(crate::proofs::Settled::compared_code, crate::proofs::Settled::compared_depth))]
fn emit_compare(
    alloc: Global,
    ops: &mut Vec<Op>,
    expr: &Expr,
    fields: &NameKinds,
) -> Result<usize, Memory>
    requires compare { c.is_compare (tree expr.now) ≡ true }
    requires held { holds_field (tree expr.now) ≡ true }
    ensures items { OnOk result (reverse ops.new.items
        ≡ code fields.now (tree expr.now) ++ reverse ops.old.items) }
    ensures depth { IfOk result (λ d. d ≡ depth (tree expr.now)) }
    ensures some { IfOk result (λ d. 1 ≤ d) }
    ensures len { IfOk result (λ d. vec_len ops.old + d ≤ vec_len ops.new) }
{
    let side = side_of(expr)?;
    let deep = emit_side(alloc, ops, expr, side, fields)?;
    Ok(deep)
}

/// The sides of a comparison whose values come at each run, and its operator behind them.
#[cycle(emit)]
fn emit_side(
    alloc: Global,
    ops: &mut Vec<Op>,
    expr: &Expr,
    side: Beside,
    fields: &NameKinds,
) -> Result<usize, Memory>
    requires { c.is_compare (tree expr.now) ≡ true }
    ensures items { OnOk result (reverse ops.new.items
        ≡ c.compare_code_with fields.now (tree expr.now) side ++ reverse ops.old.items) }
    ensures depth { IfOk result (λ d. d ≡ c.compare_depth_with (tree expr.now) side) }
    ensures some { IfOk result (λ d. 1 ≤ d) }
    ensures len { IfOk result (λ d. vec_len ops.old + d ≤ vec_len ops.new) }
{
    match expr {
        Expr::Cmp(_, a, b) => match side {
            Beside::Right(op) => emit_after(alloc, ops, a, op, fields),
            Beside::Left(op) => emit_after(alloc, ops, b, op, fields),
            Beside::Neither(op) => emit_two(alloc, ops, expr, op, fields),
        },
        _ => unreachable!(),
    }
}

/// `==` or `!=` beside this expression, where it is a text in quotes that writes an address.
fn address_op(how: CmpOp, side: &Expr) -> Result<Option<Op>, Memory>
    ensures { IfOk result (λ op. op ≡ c.address_op how (tree side.now)) }
{
    match (is_unequal(how), quoted(side)) {
        (Some(negated), Some(text)) => address_in(negated, text),
        _ => Ok(None),
    }
}

fn address_in(negated: bool, text: &Text) -> Result<Option<Op>, Memory>
    ensures { IfOk result (λ op. op
        ≡ option_map (o.Address negated (FieldValue.Text text.now)) (parse_ip4 text.now)) }
{
    match parse_ip4(text) {
        Some(ip) => {
            let text = Value::Text(text.clone()?);
            Ok(Some(Op::Address { negated, text, ip }))
        }
        None => Ok(None),
    }
}

/// Whether an operator is `!=`, for `!=` and `==`.
fn is_unequal(how: CmpOp) -> Option<bool>
    ensures { result ≡ c.is_unequal how }
{
    match how {
        CmpOp::Eq => Some(false),
        CmpOp::Ne => Some(true),
        _ => None,
    }
}

/// A text in quotes.
fn quoted(expr: &Expr) -> Option<&Text>
    ensures { option_map (λ text. text.now) result ≡ c.quoted_text (tree expr.now) }
{
    match expr {
        Expr::Str(text) => Some(text),
        _ => None,
    }
}

/// The operator of a comparison, by the side on which a text in quotes writes an address.
enum Beside {
    Right(Op),
    Left(Op),
    Neither(Op),
}

/// The operator of a comparison.
fn beside_address(how: CmpOp, a: &Expr, b: &Expr) -> Result<Beside, Memory>
    ensures { IfOk result (λ op. op
        ≡ beside (c.address_op how (tree b.now)) (c.address_op how (tree a.now))
        (o.Compare (is_literal_null (tree a.now) || is_literal_null (tree b.now)) how)) }
{
    if let Some(op) = address_op(how, b)? {
        return Ok(Beside::Right(op));
    }
    if let Some(op) = address_op(how, a)? {
        return Ok(Beside::Left(op));
    }
    let literal = is_null(a) || is_null(b);
    Ok(Beside::Neither(Op::Compare { literal, how }))
}

/// The operator of an expression that is a comparison.
fn side_of(expr: &Expr) -> Result<Beside, Memory>
    requires { c.is_compare (tree expr.now) ≡ true }
    ensures { IfOk result (λ side. side ≡ c.side_of (tree expr.now)) }
{
    match expr {
        Expr::Cmp(how, a, b) => beside_address(*how, a, b),
        _ => unreachable!(),
    }
}

/// The block that a text in quotes writes.
fn block_of(expr: &Expr) -> Option<Block>
    ensures { result ≡ c.block_of (tree expr.now) }
{
    match quoted(expr) {
        Some(text) => parse_block(text),
        None => None,
    }
}

/// The blocks that texts in quotes write, where all of these are such texts.
#[tactic(auto, using(crate::proofs::Prepared::one_more_block))]
fn blocks_in(alloc: Global, exprs: &[Expr]) -> Result<Option<Blocks>, Memory>
    ensures { IfOk result (λ blocks. blocks ≡ c.blocks_in (trees_of (map tree exprs.now))) }
{
    let mut items = Vec::with_capacity(alloc, exprs.len())?;
    for expr in exprs {
        match block_of(expr) {
            Some(block) => items.push(block)?,
            None => return Ok(None),
        }
    }
    Ok(Some(Blocks::of(items)))
}

/// `cidrMatch` with its blocks, where all of them are written in quotes.
fn cidr_op(alloc: Global, function: Option<Function>, args: &[Expr]) -> Result<Option<Op>, Memory>
    ensures op { IfOk result (λ op. op ≡ c.cidr_op function (trees_of (map tree args.now))) }
    ensures first { IfOk result (λ op. IfSome op (λ _. 1 ≤ length args.now)) }
{
    match (is_cidr(function), args) {
        (true, [_, blocks @ ..]) => match blocks_in(alloc, blocks)? {
            Some(blocks) => Ok(Some(Op::Cidr(blocks))),
            None => Ok(None),
        },
        _ => Ok(None),
    }
}

fn is_cidr(function: Option<Function>) -> bool
    ensures { result ≡ c.is_cidr function }
{
    match function {
        Some(Function::CidrMatch) => true,
        _ => false,
    }
}

/// A call, as its last operation first.
#[cycle(emit)]
fn emit_call(
    alloc: Global,
    ops: &mut Vec<Op>,
    name: &Text,
    fold: bool,
    args: &Exprs,
    fields: &NameKinds,
) -> Result<usize, Memory>
    ensures items { OnOk result (reverse ops.new.items
        ≡ c.call_code (c.cidr_op (function_of name.now fold) (trees args.now))
        (code_first fields.now (trees args.now))
        (c.plain_call (function_of name.now fold) fold (c.count_of (trees args.now))
        (code_all fields.now (trees args.now))) ++ reverse ops.old.items) }
    ensures depth { IfOk result (λ d. d
        ≡ c.call_depth (c.cidr_op (function_of name.now fold) (trees args.now))
        (depth_first (trees args.now))
        (c.plain_depth (function_of name.now fold) (depth_all 0 (trees args.now)))) }
    ensures some { IfOk result (λ d. 1 ≤ d) }
    ensures len { IfOk result (λ d. vec_len ops.old + d ≤ vec_len ops.new) }
{
    let function = Function::of(name, fold);
    match cidr_op(alloc, function, args.items())? {
        Some(op) => emit_after(alloc, ops, &args.items()[0], op, fields),
        None => emit_plain_call(alloc, ops, function, fold, args, fields),
    }
}

/// A call behind all of its arguments.
#[cycle(emit)]
fn emit_plain_call(
    alloc: Global,
    ops: &mut Vec<Op>,
    function: Option<Function>,
    fold: bool,
    args: &Exprs,
    fields: &NameKinds,
) -> Result<usize, Memory>
    ensures items { OnOk result (reverse ops.new.items
        ≡ c.plain_call function fold (c.count_of (trees args.now))
        (code_all fields.now (trees args.now)) ++ reverse ops.old.items) }
    ensures depth { IfOk result (λ d. d ≡ c.plain_depth function (depth_all 0 (trees args.now))) }
    ensures some { IfOk result (λ d. 1 ≤ d) }
    ensures len { IfOk result (λ d. vec_len ops.old + d ≤ vec_len ops.new) }
{
    let Some(function) = function else {
        return put_value(ops, Value::Null);
    };
    let count = args.items().len();
    put_op(
        ops,
        Op::Call {
            function,
            fold,
            count,
        },
    )?;
    let deep = emit_all(alloc, ops, args, fields)?;
    Ok(deep.max(1))
}

/// A list of operands, with the operator after each, behind the value that it begins with.
#[cycle(emit)]
fn emit_list(
    alloc: Global,
    ops: &mut Vec<Op>,
    fold: Fold,
    es: &Exprs,
    fields: &NameKinds,
) -> Result<usize, Memory>
    ensures items { OnOk result (reverse ops.new.items
        ≡ (o.Push (first_of fold) ∷ code_each fields.now (fold_op fold) (trees es.now))
        ++ reverse ops.old.items) }
    ensures depth { IfOk result (λ d. d ≡ suc (depth_each (trees es.now))) }
    ensures some { IfOk result (λ d. 1 ≤ d) }
    ensures len { IfOk result (λ d. vec_len ops.old + d ≤ vec_len ops.new) }
{
    let deep = emit_each(alloc, ops, fold, es, fields)?;
    put_op(ops, Op::Push(fold.first()))?;
    Ok(deep + 1)
}

/// Appends the code of each operand of a list, with the operator after it, the last operation first.
#[cycle(emit)]
fn emit_each(
    alloc: Global,
    ops: &mut Vec<Op>,
    fold: Fold,
    es: &Exprs,
    fields: &NameKinds,
) -> Result<usize, Memory>
    ensures items { OnOk result (reverse ops.new.items
        ≡ code_each fields.now (fold_op fold) (trees es.now) ++ reverse ops.old.items) }
    ensures depth { IfOk result (λ d. d ≡ depth_each (trees es.now)) }
    ensures len { IfOk result (λ d. vec_len ops.old + d ≤ vec_len ops.new) }
{
    let start = ops.len();
    let items = es.items();
    let mut deepest = 0;
    for at in (0..items.len()).rev() {
        let rest = ops.len() - start;
        put_op(ops, fold.op(rest))?;
        let deep = emit(alloc, ops, &items[at], fields)?;
        deepest = deepest.max(deep);
    }
    Ok(deepest)
}

/// Appends the code of one argument after another, the last operation first.
#[cycle(emit)]
fn emit_all(
    alloc: Global,
    ops: &mut Vec<Op>,
    es: &Exprs,
    fields: &NameKinds,
) -> Result<usize, Memory>
    ensures items { OnOk result (reverse ops.new.items
        ≡ code_all fields.now (trees es.now) ++ reverse ops.old.items) }
    ensures depth { IfOk result (λ d. d ≡ depth_all 0 (trees es.now)) }
    ensures len { IfOk result (λ d. vec_len ops.old + d ≤ vec_len ops.new) }
{
    let items = es.items();
    let mut deepest = 0;
    for below in (0..items.len()).rev() {
        let deep = emit(alloc, ops, &items[below], fields)?;
        deepest = deepest.max(below + deep);
    }
    Ok(deepest)
}
