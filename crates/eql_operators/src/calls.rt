//! Calls of functions.
ghost use Rattle.std.specs.Prelude.{◌≡◌, ◌∷◌, [], IfOk, IsOk, Some, None, false, drop, ℕ, List};
ghost use Rattle.std.specs.Option.{option_copied};
ghost use Rattle.eql_check.specs.Functions as f;
ghost use Rattle.eql_operators.specs.Taken.{IsTaken};

use crate::addresses::{address, lies_in_one};
use crate::arguments::Arguments;
use crate::arithmetic::compute;
use crate::texts::{
    append, between_of, contains, ends_with, index_or_null, length_of, number_of, part_of,
    starts_with, string_of,
};
use crate::three_valued::value_of;
use eql_check::Function;
use eql_query::MathOp;
use eql_values::{Memory, Text, Value};
use std::alloc::Global;

/// The arguments of a call, where there are one to four.
enum Taken<'a> {
    One(&'a Value),
    Two(&'a Value, &'a Value),
    Three(&'a Value, &'a Value, &'a Value),
    Four(&'a Value, &'a Value, &'a Value, &'a Value),
    Other,
}

fn take_all<A: Arguments>(args: &A) -> Taken<'_>
    ensures { IsTaken (A.values args.now) result }
{
    match args.count() {
        1 => Taken::One(args.at(0)),
        2 => Taken::Two(args.at(0), args.at(1)),
        3 => Taken::Three(args.at(0), args.at(1), args.at(2)),
        4 => Taken::Four(args.at(0), args.at(1), args.at(2), args.at(3)),
        _ => Taken::Other,
    }
}

/// A function of one argument.
fn call_one(alloc: Global, function: Function, fold: bool, a: &Value) -> Result<Value, Memory>
    requires { f.takes_any function ≡ false }
    ensures value { IfOk result (λ v. v ≡ f.call_value function fold (a.now ∷ [])) }
    ensures free { f.makes_text function ≡ false → IsOk result }
{
    match function {
        Function::Length => Ok(length_of(a)),
        Function::String => string_of(alloc, a),
        Function::Number => Ok(number_of(a)),
        Function::Concat | Function::CidrMatch => unreachable!(),
        _ => Ok(Value::Null),
    }
}

/// A function of two arguments.
fn call_two(
    alloc: Global,
    function: Function,
    fold: bool,
    a: &Value,
    b: &Value,
) -> Result<Value, Memory>
    requires { f.takes_any function ≡ false }
    ensures value { IfOk result (λ v. v ≡ f.call_value function fold (a.now ∷ b.now ∷ [])) }
    ensures free { f.makes_text function ≡ false → IsOk result }
{
    match function {
        Function::Add => Ok(compute(MathOp::Add, a, b)),
        Function::Subtract => Ok(compute(MathOp::Sub, a, b)),
        Function::Multiply => Ok(compute(MathOp::Mul, a, b)),
        Function::Divide => Ok(compute(MathOp::Div, a, b)),
        Function::Modulo => Ok(compute(MathOp::Mod, a, b)),
        Function::IndexOf => Ok(index_or_null(fold, a, b, None)),
        Function::StartsWith => Ok(starts_with(fold, a, b)),
        Function::EndsWith => Ok(ends_with(fold, a, b)),
        Function::StringContains => Ok(contains(fold, a, b)),
        Function::Substring => part_of(alloc, a, b, None),
        Function::Concat | Function::CidrMatch => unreachable!(),
        _ => Ok(Value::Null),
    }
}

/// A function of three arguments.
fn call_three(
    alloc: Global,
    function: Function,
    fold: bool,
    a: &Value,
    b: &Value,
    c: &Value,
) -> Result<Value, Memory>
    requires { f.takes_any function ≡ false }
    ensures value { IfOk result
        (λ v. v ≡ f.call_value function fold (a.now ∷ b.now ∷ c.now ∷ [])) }
    ensures free { f.makes_text function ≡ false → IsOk result }
{
    match function {
        Function::IndexOf => Ok(index_or_null(fold, a, b, Some(c))),
        Function::Substring => part_of(alloc, a, b, Some(c)),
        Function::Between => between_of(alloc, fold, a, b, c, None),
        Function::Concat | Function::CidrMatch => unreachable!(),
        _ => Ok(Value::Null),
    }
}

/// A function of four arguments.
fn call_four(
    alloc: Global,
    function: Function,
    fold: bool,
    a: &Value,
    b: &Value,
    c: &Value,
    d: &Value,
) -> Result<Value, Memory>
    requires { f.takes_any function ≡ false }
    ensures value { IfOk result
        (λ v. v ≡ f.call_value function fold (a.now ∷ b.now ∷ c.now ∷ d.now ∷ [])) }
    ensures free { f.makes_text function ≡ false → IsOk result }
{
    match function {
        Function::Between => between_of(alloc, fold, a, b, c, Some(d)),
        Function::Concat | Function::CidrMatch => unreachable!(),
        _ => Ok(Value::Null),
    }
}

/// A function of a fixed number of arguments.
fn call_fixed<A: Arguments>(
    alloc: Global,
    function: Function,
    fold: bool,
    args: &A,
) -> Result<Value, Memory>
    requires { f.takes_any function ≡ false }
    ensures value { IfOk result (λ v. v ≡ f.call_value function fold (A.values args.now)) }
    ensures free { f.makes_text function ≡ false → IsOk result }
{
    match take_all(args) {
        Taken::One(a) => call_one(alloc, function, fold, a),
        Taken::Two(a, b) => call_two(alloc, function, fold, a, b),
        Taken::Three(a, b, c) => call_three(alloc, function, fold, a, b, c),
        Taken::Four(a, b, c, d) => call_four(alloc, function, fold, a, b, c, d),
        Taken::Other => Ok(Value::Null),
    }
}

/// The texts of all arguments, joined; null where one is null.
fn concat<A: Arguments>(alloc: Global, args: &A) -> Result<Value, Memory>
    ensures { IfOk result (λ v. v ≡ f.text_or_null (f.texts_of (A.values args.now))) }
{
    let mut text = String::new(alloc);
    for place in 0..args.count() {
        if !append(&mut text, args.at(place))? {
            return Ok(Value::Null);
        }
    }
    Ok(Value::Text(Text::of(text)))
}

/// Whether an address lies in one of the blocks that the arguments behind the first write; null where one of
/// them writes none.
fn lies_in<A: Arguments>(ip: u32, args: &A) -> Option<bool>
    ensures { result ≡ f.lies_in ip (drop 1 (A.values args.now)) }
{
    let mut found = false;
    for place in 1..args.count() {
        match lies_in_one(ip, args.at(place)) {
            Some(inside) => found = found || inside,
            None => return None,
        }
    }
    Some(found)
}

/// Whether the address that the first argument is, or writes, lies in one of the blocks that the others write.
fn cidr_match<A: Arguments>(args: &A) -> Value
    ensures { result ≡ f.cidr_match (A.values args.now) }
{
    if args.count() == 0 {
        return Value::Null;
    }
    match address(args.at(0)) {
        Some(ip) => value_of(lies_in(ip, args)),
        None => Value::Null,
    }
}

/// What a function gives for its arguments (EQL function reference); `fold` says whether it compares with folding.
/// Null where an argument is null or of a wrong kind, where there is no such place, number, address or block, or
/// where the number of arguments is wrong; but `concat` of nothing is the empty text, and `cidrMatch` of an address
/// without blocks is false. `Memory` where memory ran out, which comes only for a function that makes a text:
/// `concat`, `substring`, `between` and `string`.
pub fn call<A: Arguments>(
    alloc: Global,
    function: Function,
    fold: bool,
    args: &A,
) -> Result<Value, Memory>
    ensures value { IfOk result (λ v. v ≡ f.call_value function fold (A.values args.now)) }
    ensures free { f.makes_text function ≡ false → IsOk result }
{
    match function {
        Function::Concat => concat(alloc, args),
        Function::CidrMatch => Ok(cidr_match(args)),
        _ => call_fixed(alloc, function, fold, args),
    }
}
