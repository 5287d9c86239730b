//! Comparisons, patterns and list tests.
ghost use Rattle.std.specs.Prelude.{◌≡◌};
ghost use Rattle.eql_values.specs.Orders.{text_eq};
ghost use Rattle.eql_check.specs.Comparisons as c;

use eql_query::{CmpOp, PatOp};
use eql_text::{equal, parse_ip4, wildcard};
use eql_values::{Literals, Text, Texts, Value};
use std::cmp::Ordering;

fn is_null(value: &Value) -> bool
    ensures { result ≡ c.is_null value.now }
{
    match value {
        Value::Null => true,
        _ => false,
    }
}

/// How two values of one kind are ordered. A text beside an address is the address that it writes. `None` where
/// one is null, or they have no order.
fn order(a: &Value, b: &Value) -> Option<Ordering>
    ensures { result ≡ c.order_of a.now b.now }
{
    match (a, b) {
        (Value::Bool(a), Value::Bool(b)) => Some(a.cmp(b)),
        (Value::Long(a), Value::Long(b)) => Some(a.cmp(b)),
        (Value::Text(a), Value::Text(b)) => Some(a.cmp(b)),
        (Value::Ip(a), Value::Ip(b)) => Some(a.cmp(b)),
        (Value::Ip(a), Value::Text(t)) => match parse_ip4(t) {
            Some(b) => Some(a.cmp(&b)),
            None => None,
        },
        (Value::Text(t), Value::Ip(b)) => match parse_ip4(t) {
            Some(a) => Some(a.cmp(b)),
            None => None,
        },
        _ => None,
    }
}

fn says(op: CmpOp, order: Ordering) -> bool
    ensures { result ≡ c.says op order }
{
    match op {
        CmpOp::Lt => order.is_lt(),
        CmpOp::Le => order.is_le(),
        CmpOp::Eq => order.is_eq(),
        CmpOp::Ne => !order.is_eq(),
        CmpOp::Ge => !order.is_lt(),
        CmpOp::Gt => !order.is_le(),
    }
}

fn compare_with_null(op: CmpOp, a: &Value, b: &Value) -> Value
    ensures { result ≡ c.compared_with_null op a.now b.now }
{
    match op {
        CmpOp::Eq => Value::Bool(is_null(a) && is_null(b)),
        CmpOp::Ne => Value::Bool(!(is_null(a) && is_null(b))),
        _ => Value::Null,
    }
}

/// Whether two texts are equal, which they are only where they have as many bytes.
fn are_equal(a: &Text, b: &Text) -> bool
    ensures { result ≡ text_eq a.now b.now }
{
    a.text().len() == b.text().len() && a == b
}

/// `==` and `!=` of two texts, and each other comparison of two values.
fn compare_values(op: CmpOp, a: &Value, b: &Value) -> Value
    ensures { result ≡ c.comparison_value op a.now b.now }
{
    match (op, a, b) {
        (CmpOp::Eq, Value::Text(a), Value::Text(b)) => Value::Bool(are_equal(a, b)),
        (CmpOp::Ne, Value::Text(a), Value::Text(b)) => Value::Bool(!are_equal(a, b)),
        _ => match order(a, b) {
            Some(order) => Value::Bool(says(op, order)),
            None => Value::Null,
        },
    }
}

/// A comparison of two values (EQL syntax reference, "Comparison operators"); null where one is null, or the two have
/// no order. `literal` says that a side is written as `null`: then `==` and `!=` tell whether the other is null, and
/// each other operator gives null.
pub fn compare(literal: bool, op: CmpOp, a: &Value, b: &Value) -> Value
    ensures { result ≡ c.compares literal op a.now b.now }
{
    if literal {
        return compare_with_null(op, a, b);
    }
    compare_values(op, a, b)
}

fn folds(op: PatOp) -> bool
    ensures { result ≡ c.pattern_folds op }
{
    match op {
        PatOp::Colon | PatOp::LikeFold => true,
        PatOp::Like => false,
    }
}

/// Whether a text fits one of the patterns (EQL syntax reference, "Pattern comparison keywords"), in which `*` fits any
/// characters and `?` one; null of what is no text. `:` and `like~` compare with folding.
pub fn matches_one(op: PatOp, value: &Value, patterns: &Texts) -> Value
    ensures { result ≡ c.matches_one op value.now patterns.now }
{
    match value {
        Value::Text(text) => Value::Bool(fits_one(text, patterns.items(), folds(op))),
        _ => Value::Null,
    }
}

fn fits_one(text: &Text, patterns: &[Text], fold: bool) -> bool
    ensures { result ≡ c.fits_one fold text.now patterns.now }
{
    patterns.iter().any(|pattern| wildcard(pattern, text, fold))
}

/// Whether a value equals a literal of a list: texts with folding where it is asked for, an address where the
/// literal writes it.
fn is_literal(fold: bool, value: &Value, literal: &Value) -> bool
    ensures { result ≡ c.is_literal fold value.now literal.now }
{
    match (value, literal) {
        (Value::Text(a), Value::Text(b)) => equal(a, b, fold),
        (Value::Ip(a), Value::Text(t)) => parse_ip4(t) == Some(*a),
        _ => value == literal,
    }
}

/// Whether a value is one of the literals, or with `negated` none of them (EQL syntax reference, "Lookup operators");
/// null of null. `fold` says whether texts are compared with folding.
pub fn is_among(fold: bool, negated: bool, value: &Value, list: &Literals) -> Value
    ensures { result ≡ c.is_among fold negated value.now list.now }
{
    match value {
        Value::Null => Value::Null,
        _ => {
            let found = is_one(fold, value, list.items());
            Value::Bool(if negated { !found } else { found })
        }
    }
}

fn is_one(fold: bool, value: &Value, list: &[Value]) -> bool
    ensures { result ≡ c.is_one fold value.now list.now }
{
    list.iter().any(|literal| is_literal(fold, value, literal))
}
