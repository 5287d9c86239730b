//! The cells of a stack: no text is copied to lie on it.
ghost use Rattle.std.specs.Prelude.{◌≡◌, map, IfOk, IsOk, false};
ghost use Rattle.eql_values.specs.declared.value.Value.TheVariants.{Null as NullValue};
ghost use Rattle.eql_code.specs.Stack.{cell_value, is_text, pushed_value};

use crate::emit::Op;
use eql_operators::Arguments;
use eql_values::{Memory, Value};

/// One entry of the stack: a value made here, the value of a slot, or the constant of an operation of the code.
#[derive(Drop)]
pub enum Cell {
    Made(Value),
    Slot(usize),
    Here(usize),
}

/// What the cells of a stack refer to.
#[derive(Drop)]
pub struct Frame<'a> {
    /// The operations that run.
    pub ops: &'a [Op],
    /// The values of the slots.
    pub slots: &'a [Value],
    /// A null, lent where there is no value.
    pub null: &'a Value,
    ghost null_is: { null.now ≡ NullValue },
}

impl Frame<'_> {
    /// The value of a cell.
    pub fn seen<'b>(&'b self, cell: &'b Cell) -> &'b Value
        ensures { result.now ≡ cell_value self.now.ops.now self.now.slots.now cell.now }
    {
        match cell {
            Cell::Made(value) => value,
            Cell::Slot(slot) => {
                if *slot < self.slots.len() {
                    &self.slots[*slot]
                } else {
                    self.null
                }
            }
            Cell::Here(at) => {
                if *at < self.ops.len() {
                    self.constant(&self.ops[*at])
                } else {
                    self.null
                }
            }
        }
    }

    /// The constant of an operation.
    fn constant<'b>(&'b self, op: &'b Op) -> &'b Value
        ensures { result.now ≡ pushed_value op.now }
    {
        match op {
            Op::Push(value) => value,
            _ => self.null,
        }
    }

    /// The value of a cell, made its own. `Memory` where memory ran out, which comes only for a text.
    pub fn owned(&self, cell: Cell) -> Result<Value, Memory>
        ensures value { IfOk result
            (λ v. v ≡ cell_value self.now.ops.now self.now.slots.now cell) }
        ensures free { is_text (cell_value self.now.ops.now self.now.slots.now cell) ≡ false
            → IsOk result }
    {
        match cell {
            Cell::Made(value) => Ok(value),
            other => copied(self.seen(&other)),
        }
    }
}

/// A copy, which takes memory for a text alone.
fn copied(value: &Value) -> Result<Value, Memory>
    ensures value { IfOk result (λ v. v ≡ value.now) }
    ensures free { is_text value.now ≡ false → IsOk result }
{
    match value {
        Value::Null => Ok(Value::Null),
        Value::Bool(b) => Ok(Value::Bool(*b)),
        Value::Long(n) => Ok(Value::Long(*n)),
        Value::Text(text) => Ok(Value::Text(text.clone()?)),
        Value::Ip(ip) => Ok(Value::Ip(*ip)),
    }
}

/// Cells as the arguments of a call.
#[derive(Drop)]
pub struct Operands<'a> {
    /// The cells, the first argument first.
    pub cells: &'a [Cell],
    /// What they refer to.
    pub frame: &'a Frame<'a>,
}

impl Arguments for Operands<'_> {
    ghost values = { λ o. map (cell_value o.frame.now.ops.now o.frame.now.slots.now) o.cells.now };

    fn count(&self) -> usize {
        self.cells.len()
    }

    fn at(&self, place: usize) -> &Value {
        self.frame.seen(&self.cells[place])
    }
}
