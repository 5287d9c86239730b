//! Three-valued logic: a truth value is true, false or null, which is `None`.
ghost use Rattle.std.specs.Prelude.{◌≡◌};
ghost use Rattle.eql_check.specs.ThreeValued as three;

use eql_values::Value;

/// The truth value that a value is. Every value but true and false counts as null.
pub fn truth_of(value: &Value) -> Option<bool>
    ensures { result ≡ three.truth_in value.now }
{
    match value {
        Value::Bool(b) => Some(*b),
        _ => None,
    }
}

/// A truth value as a value.
pub fn value_of(truth: Option<bool>) -> Value
    ensures { result ≡ three.truth truth }
{
    match truth {
        Some(b) => Value::Bool(b),
        None => Value::Null,
    }
}

/// `not`: null stays null.
pub fn negation(p: Option<bool>) -> Option<bool>
    ensures { result ≡ three.negation p }
{
    match p {
        Some(b) => Some(!b),
        None => None,
    }
}

/// `and` of two: false where one is false, else null where one is null, else true.
pub fn conjunction(p: Option<bool>, q: Option<bool>) -> Option<bool>
    ensures { result ≡ three.conjunction p q }
{
    match (p, q) {
        (Some(false), _) | (_, Some(false)) => Some(false),
        (Some(true), Some(true)) => Some(true),
        _ => None,
    }
}

/// `or` of two: true where one is true, else null where one is null, else false.
pub fn disjunction(p: Option<bool>, q: Option<bool>) -> Option<bool>
    ensures { result ≡ three.disjunction p q }
{
    match (p, q) {
        (Some(true), _) | (_, Some(true)) => Some(true),
        (Some(false), Some(false)) => Some(false),
        _ => None,
    }
}
