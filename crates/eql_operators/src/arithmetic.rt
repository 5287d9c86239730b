//! Arithmetic on whole numbers of 64 signed bits.
ghost use Rattle.std.specs.Prelude.{◌≡◌, ◌≢◌, pos, neg_ℤ, ◌≤ℤ◌, ◌<ℤ◌, ◌^◌};
ghost use Rattle.std.specs.Int.{int_rem_euclid};
ghost use Rattle.eql_check.specs.Arithmetic as a;

use eql_query::MathOp;
use eql_values::Value;

/// A number, or null where it has more than 64 signed bits.
fn held(number: i128) -> Value
    ensures { result ≡ a.long_or_null number }
{
    match i64::try_from(number) {
        Ok(n) => Value::Long(n),
        Err(_) => Value::Null,
    }
}

/// The floor of the quotient.
fn floor(x: i64, y: i64) -> i128
    requires { y ≢ pos 0 }
    ensures { result ≡ a.floor_div x y }
{
    let (x, y) = (i128::from(x), i128::from(y));
    if y < 0 {
        (-x).div_euclid(-y)
    } else {
        x.div_euclid(y)
    }
}

/// The number with the other sign.
fn opposite(n: i128) -> i128
    requires low { pos 0 ≤ℤ n }
    requires high { n <ℤ pos (2 ^ 64) }
    ensures { result ≡ neg_ℤ n }
{
    -n
}

/// What the floor of the quotient by a negative number leaves, told by both numbers with the other sign.
fn rest_below(x: i128, y: i128) -> i128
    requires low { pos 0 <ℤ y }
    requires high { y <ℤ pos (2 ^ 64) }
    ensures { result ≡ neg_ℤ (int_rem_euclid x y) }
{
    opposite(x.rem_euclid(y))
}

/// What the floor of the quotient leaves.
fn rest(x: i64, y: i64) -> i128
    requires { y ≢ pos 0 }
    ensures { result ≡ a.floor_rest x y }
{
    let (x, y) = (i128::from(x), i128::from(y));
    if y < 0 {
        rest_below(-x, -y)
    } else {
        x.rem_euclid(y)
    }
}

fn calculate(op: MathOp, x: i64, y: i64) -> Value
    ensures { result ≡ a.result_of op x y }
{
    match op {
        MathOp::Add => held(i128::from(x) + i128::from(y)),
        MathOp::Sub => held(i128::from(x) - i128::from(y)),
        MathOp::Mul => held(i128::from(x) * i128::from(y)),
        MathOp::Div => {
            if y == 0 {
                Value::Null
            } else {
                held(floor(x, y))
            }
        }
        MathOp::Mod => {
            if y == 0 {
                Value::Null
            } else {
                held(rest(x, y))
            }
        }
    }
}

/// An operator on two values (EQL syntax reference, "Math operators"): `/` is the floor of the quotient, and `%` what
/// that leaves. Null where one is no whole number, the divisor is 0, or the result has more than 64 signed bits.
pub fn compute(op: MathOp, x: &Value, y: &Value) -> Value
    ensures { result ≡ a.math_value op x.now y.now }
{
    match (x, y) {
        (Value::Long(x), Value::Long(y)) => calculate(op, *x, *y),
        _ => Value::Null,
    }
}

/// The number with the other sign; null of what is no whole number, and where it has more than 64 signed bits.
pub fn negate(x: &Value) -> Value
    ensures { result ≡ a.negative_value x.now }
{
    match x {
        Value::Long(x) => held(-i128::from(*x)),
        _ => Value::Null,
    }
}
