//! The stack machine that runs code.
ghost use Rattle.std.specs.Prelude.{◌≡◌, ◌++◌, ◌∷◌, [], ◌+◌, ◌≤◌, ◌<◌, OnOk, IfOk, IsOk, true, false, Some, vec_len, vec_capacity, length, List, get_or};
ghost use Rattle.eql_values.specs.declared.value.Value.{Value as FieldValue};
ghost use Rattle.eql_query.specs.View.{tree};
ghost use Rattle.eql_check.specs.Truth.{means, value_at};
ghost use Rattle.eql_check.specs.Functions as f;
ghost use Rattle.eql_check.specs.ThreeValued as three;
ghost use Rattle.eql_code.specs.declared.emit.Op.TheVariants.{Not as NotOp};
ghost use Rattle.eql_code.specs.Code.{code, depth};
ghost use Rattle.eql_code.specs.Texts.{makes_text_in};
ghost use Rattle.eql_code.specs.Machine.{stack_after, runs, skips, arity, of_one, of_two, on_many, take_off};
ghost use Rattle.eql_code.specs.Stack.{cell_value, stack_of, makes_text, is_free, is_text, gives};

use crate::cells::{Cell, Frame, Operands};
use crate::emit::{Op, emit};
use eql_check::{Checked, Function};
use eql_operators::{
    call, compare, compute, conjunction, disjunction, equals_address, is_among_read, is_in_blocks,
    matches_one, negate, negation, truth_of, value_of,
};
use eql_query::Expr;
use eql_values::{Memory, NameKinds, Slots, Value};
use std::alloc::{AllocError, Global};
use std::marker::Model;

/// The room in which code runs. It is empty between two runs.
#[derive(Drop)]
pub struct Stack {
    cells: Vec<Cell>,
}

impl Model for Stack {
    ghost use Rattle.std.specs.Prelude.{◌≡◌, ℕ, [], vec_capacity};

    ghost Value = { ℕ };

    ghost view = { λ s. vec_capacity s.cells };

    ghost invariant = { λ s. s.cells.items ≡ [] };
}

impl Stack {
    /// A stack with room for exactly this many values. `Memory` where memory ran out.
    pub fn with(alloc: Global, depth: u32) -> Result<Stack, Memory>
        ensures { IfOk result (λ s. s ≡ depth) }
    {
        let cells = Vec::with_capacity(alloc, depth as usize)?;
        Ok(Stack { cells })
    }
}

/// The code of an expression. Contracts see it as its operations and the depth of the stack that it needs.
#[derive(Drop)]
pub struct Code {
    ops: Vec<Op>,
    depth: u32,
}

impl Model for Code {
    ghost use Rattle.std.specs.Prelude.{List, ℕ};
    ghost use Rattle.eql_code.specs.declared.emit.Op.{Op};
    ghost use Rattle.eql_code.specs.Stack.{IsSound};

    ghost Value = { List Op × ℕ };

    ghost view = { λ c. (c.ops.items, c.depth) };

    ghost invariant = { λ c. IsSound (c.ops.items, c.depth) };
}

impl Clone for Code {
    ghost is_clone = { λ old new. new ≡ old };

    fn clone(&self) -> Result<Code, AllocError> {
        let ops = self.ops.clone()?;
        Ok(Code {
            ops,
            depth: self.depth,
        })
    }
}

/// The code of a condition of a checked query, which gives the condition's meaning. `Memory` where memory ran out,
/// or where the condition needs a stack of more than 4,294,967,295 values.
pub fn compile(alloc: Global, expr: &Expr, checked: &Checked) -> Result<Code, Memory>
    ensures means { IfOk result
        (λ c. (slots : List FieldValue)
        → gives c slots ≡ means (value_at checked.now.fields slots) (tree expr.now)) }
    // From every stack below, the code leaves that stack with the meaning on top, and no stack is
    // deeper than the depth.
    ensures leaves { IfOk result
        (λ c. (slots st : List FieldValue)
        → runs slots (length st + c.1) 0 c.0 st
        ≡ Some (means (value_at checked.now.fields slots) (tree expr.now) ∷ st)) }
    ensures free { IfOk result (λ c. makes_text_in (tree expr.now) ≡ false → is_free c.0 ≡ true) }
{
    let code = code_of(alloc, expr, checked.fields())?;
    Ok(code)
}

/// The code of an expression over these fields, and no other operations.
fn code_of(alloc: Global, expr: &Expr, fields: &NameKinds) -> Result<Code, Memory>
    ensures { IfOk result (λ c. c ≡ (code fields.now (tree expr.now), depth (tree expr.now))) }
{
    let mut ops = Vec::new(alloc);
    let deep = emit(alloc, &mut ops, expr, fields)?;
    // What was put together from its end.
    ops.reverse();
    match u32::try_from(deep) {
        Ok(depth) => Ok(Code { ops, depth }),
        Err(_) => Err(Memory),
    }
}

/// Puts a cell on the top, where there is room.
fn put_cell(cells: &mut Vec<Cell>, cell: Cell)
    requires { vec_len cells.old < vec_capacity cells.old }
    ensures items { cells.new.items ≡ cells.old.items ++ cell ∷ [] }
    ensures capacity { vec_capacity cells.new ≡ vec_capacity cells.old }
{
    cells.push_reserved(cell);
}

/// Takes the cell from the top.
fn take(cells: &mut Vec<Cell>) -> Cell
    requires { 0 < vec_len cells.old }
    ensures items { cells.old.items ≡ cells.new.items ++ result ∷ [] }
    ensures capacity { vec_capacity cells.new ≡ vec_capacity cells.old }
{
    match cells.pop() {
        Some(cell) => cell,
        None => unreachable!(),
    }
}

/// An operator on one value.
fn unary(op: &Op, a: &Value) -> Value
    requires { arity op.now ≡ 1 }
    ensures { result ≡ of_one op.now a.now }
{
    match op {
        Op::Not => value_of(negation(truth_of(a))),
        Op::Address { negated, text, ip } => equals_address(*negated, a, text, *ip),
        Op::Pattern { how, patterns } => matches_one(*how, a, patterns),
        Op::Member {
            fold,
            negated,
            list,
            addresses,
        } => is_among_read(*fold, *negated, a, list, addresses),
        Op::Cidr(blocks) => is_in_blocks(a, blocks),
        Op::Negate => negate(a),
        _ => unreachable!(),
    }
}

/// An operator on two values.
fn binary(op: &Op, a: &Value, b: &Value) -> Value
    requires { arity op.now ≡ 2 }
    ensures { result ≡ of_two op.now a.now b.now }
{
    match op {
        Op::And { .. } => value_of(conjunction(truth_of(a), truth_of(b))),
        Op::Or { .. } => value_of(disjunction(truth_of(a), truth_of(b))),
        Op::Compare { literal, how } => compare(*literal, *how, a, b),
        Op::Math(how) => compute(*how, a, b),
        _ => unreachable!(),
    }
}

/// How many operations are passed over where an operator has given a value: the rest of a list whose `and` is false, or
/// whose `or` is true.
fn passed_over(op: &Op, value: &Value) -> usize
    ensures { (st : List FieldValue) → result ≡ skips op.now (value.now ∷ st) }
{
    match (op, value) {
        (Op::And { rest }, Value::Bool(false)) | (Op::Or { rest }, Value::Bool(true)) => *rest,
        _ => 0,
    }
}

/// A call of a function whose arguments are the topmost values.
fn call_top(
    alloc: Global,
    function: Function,
    fold: bool,
    count: usize,
    frame: &Frame<'_>,
    cells: &mut Vec<Cell>,
) -> Result<(), Memory>
    requires enough { count ≤ vec_len cells.old }
    requires room { vec_len cells.old + 1 ≤ vec_capacity cells.old + count }
    ensures did { OnOk result
        (on_many (f.call_value function fold)
        (take_off count [] (stack_of frame.now.ops.now frame.now.slots.now cells.old.items))
        ≡ Some (stack_of frame.now.ops.now frame.now.slots.now cells.new.items)) }
    ensures capacity { vec_capacity cells.new ≡ vec_capacity cells.old }
    ensures free { f.makes_text function ≡ false → IsOk result }
{
    let at = cells.len() - count;
    let operands = Operands {
        cells: &cells[at..],
        frame,
    };
    let value = call(alloc, function, fold, &operands)?;
    cells.truncate(at);
    put_cell(cells, Cell::Made(value));
    Ok(())
}

/// One operation, for which the operands and the room are there. Tells how many operations are passed over behind it.
fn step(alloc: Global, frame: &Frame<'_>, at: usize, cells: &mut Vec<Cell>) -> Result<usize, Memory>
    requires at_in { at < length frame.now.ops.now }
    requires can { (st : List FieldValue)
        × (stack_after frame.now.slots.now (get_or frame.now.ops.now at NotOp)
        (stack_of frame.now.ops.now frame.now.slots.now cells.old.items) ≡ Some st)
        × (length st ≤ vec_capacity cells.old) }
    ensures did { OnOk result
        (stack_after frame.now.slots.now (get_or frame.now.ops.now at NotOp)
        (stack_of frame.now.ops.now frame.now.slots.now cells.old.items)
        ≡ Some (stack_of frame.now.ops.now frame.now.slots.now cells.new.items)) }
    ensures passed { IfOk result
        (λ n. n ≡ skips (get_or frame.now.ops.now at NotOp)
        (stack_of frame.now.ops.now frame.now.slots.now cells.new.items)) }
    ensures capacity { vec_capacity cells.new ≡ vec_capacity cells.old }
    ensures free { makes_text (get_or frame.now.ops.now at NotOp) ≡ false → IsOk result }
{
    let op = &frame.ops[at];
    match op {
        Op::Push(_) => {
            put_cell(cells, Cell::Here(at));
            Ok(0)
        }
        Op::Slot(slot) => {
            put_cell(cells, Cell::Slot(*slot));
            Ok(0)
        }
        Op::Not
        | Op::Address { .. }
        | Op::Pattern { .. }
        | Op::Member { .. }
        | Op::Cidr(_)
        | Op::Negate => {
            let a = take(cells);
            let value = unary(op, frame.seen(&a));
            put_cell(cells, Cell::Made(value));
            Ok(0)
        }
        Op::And { .. } | Op::Or { .. } | Op::Compare { .. } | Op::Math(_) => {
            let b = take(cells);
            let a = take(cells);
            let value = binary(op, frame.seen(&a), frame.seen(&b));
            let passed = passed_over(op, &value);
            put_cell(cells, Cell::Made(value));
            Ok(passed)
        }
        Op::Call {
            function,
            fold,
            count,
        } => {
            call_top(alloc, *function, *fold, *count, frame, cells)?;
            Ok(0)
        }
    }
}

/// Runs the operations on an empty stack, and takes the one cell that they leave.
fn play(
    alloc: Global,
    frame: &Frame<'_>,
    limit: usize,
    cells: &mut Vec<Cell>,
) -> Result<Cell, Memory>
    requires empty { cells.old.items ≡ [] }
    requires room { limit ≤ vec_capacity cells.old }
    requires sound { runs frame.now.slots.now limit 0 frame.now.ops.now []
        ≡ Some (gives (frame.now.ops.now, limit) frame.now.slots.now ∷ []) }
    ensures value { IfOk result (λ cell. cell_value frame.now.ops.now frame.now.slots.now cell
        ≡ gives (frame.now.ops.now, limit) frame.now.slots.now) }
    ensures empty { OnOk result (cells.new.items ≡ []) }
    ensures capacity { vec_capacity cells.new ≡ vec_capacity cells.old }
    ensures free { is_free frame.now.ops.now ≡ true → IsOk result }
{
    let mut at = 0;
    while at < frame.ops.len() {
        let passed = step(alloc, frame, at, cells)?;
        at += 1 + passed;
    }
    Ok(take(cells))
}

/// What the operations give on an empty stack.
fn value_of_code(
    alloc: Global,
    frame: &Frame<'_>,
    limit: usize,
    cells: &mut Vec<Cell>,
) -> Result<Value, Memory>
    requires empty { cells.old.items ≡ [] }
    requires room { limit ≤ vec_capacity cells.old }
    requires sound { runs frame.now.slots.now limit 0 frame.now.ops.now []
        ≡ Some (gives (frame.now.ops.now, limit) frame.now.slots.now ∷ []) }
    ensures value { IfOk result (λ v. v ≡ gives (frame.now.ops.now, limit) frame.now.slots.now) }
    ensures empty { OnOk result (cells.new.items ≡ []) }
    ensures capacity { vec_capacity cells.new ≡ vec_capacity cells.old }
    ensures free { is_free frame.now.ops.now ≡ true
        → is_text (gives (frame.now.ops.now, limit) frame.now.slots.now) ≡ false → IsOk result }
{
    let top = play(alloc, frame, limit, cells)?;
    frame.owned(top)
}

/// Whether what the operations give on an empty stack is true.
fn truth_of_code(
    alloc: Global,
    frame: &Frame<'_>,
    limit: usize,
    cells: &mut Vec<Cell>,
) -> Result<bool, Memory>
    requires empty { cells.old.items ≡ [] }
    requires room { limit ≤ vec_capacity cells.old }
    requires sound { runs frame.now.slots.now limit 0 frame.now.ops.now []
        ≡ Some (gives (frame.now.ops.now, limit) frame.now.slots.now ∷ []) }
    ensures value { IfOk result
        (λ b. b ≡ three.is_true (gives (frame.now.ops.now, limit) frame.now.slots.now)) }
    ensures empty { OnOk result (cells.new.items ≡ []) }
    ensures capacity { vec_capacity cells.new ≡ vec_capacity cells.old }
    ensures free { is_free frame.now.ops.now ≡ true → IsOk result }
{
    let top = play(alloc, frame, limit, cells)?;
    Ok(is_true(frame.seen(&top)))
}

fn is_true(value: &Value) -> bool
    ensures { result ≡ three.is_true value.now }
{
    match value {
        Value::Bool(b) => *b,
        _ => false,
    }
}

impl Code {
    /// The depth of the stack that the code needs, in values.
    pub fn depth(&self) -> u32
        ensures { result ≡ self.now.1 }
    {
        self.depth
    }

    /// What the code gives where the slots have these values, on a stack with room for its depth, which is empty
    /// again afterwards and has the same room; a slot that isn't there is null. `Memory` where memory ran out, which
    /// comes only where an operation makes a text, by `concat`, `substring`, `between` or `string`, or where the result
    /// is a text.
    pub fn run(&self, alloc: Global, slots: &Slots, stack: &mut Stack) -> Result<Value, Memory>
        requires room { self.now.1 ≤ stack.old }
        ensures value { IfOk result (λ v. v ≡ gives self.now slots.now) }
        ensures left { IfOk result
            (λ v. runs slots.now self.now.1 0 self.now.0 [] ≡ Some (v ∷ [])) }
        ensures room { stack.new ≡ stack.old }
        ensures free { is_free self.now.0 ≡ true
            → is_text (gives self.now slots.now) ≡ false → IsOk result }
    {
        let null = Value::Null;
        let frame = Frame {
            ops: &self.ops,
            slots: slots.items(),
            null: &null,
        };
        let result = value_of_code(alloc, &frame, self.depth as usize, &mut stack.cells);
        if result.is_err() {
            stack.cells.clear();
        }
        result
    }

    /// Whether the condition is true where the slots have these values, with the stack as `run` has it. `Memory` where
    /// memory ran out, which comes only where an operation makes a text.
    pub fn holds(&self, alloc: Global, slots: &Slots, stack: &mut Stack) -> Result<bool, Memory>
        requires room { self.now.1 ≤ stack.old }
        ensures value { IfOk result (λ b. b ≡ three.is_true (gives self.now slots.now)) }
        ensures room { stack.new ≡ stack.old }
        ensures free { is_free self.now.0 ≡ true → IsOk result }
    {
        let null = Value::Null;
        let frame = Frame {
            ops: &self.ops,
            slots: slots.items(),
            null: &null,
        };
        let result = truth_of_code(alloc, &frame, self.depth as usize, &mut stack.cells);
        if result.is_err() {
            stack.cells.clear();
        }
        result
    }
}
