//! Kinds, and which may stand where. An expression that is always null has none: the literal null, and an optional field
//! that the mapping doesn't have.
ghost use Rattle.std.specs.Prelude.{◌≡◌};
ghost use Rattle.std.specs.List.{list_all};
ghost use Rattle.eql_query.specs.View.{tree, trees};
ghost use Rattle.eql_values.specs.Fitting as fitting;
ghost use Rattle.eql_check.specs.Kinds as kinds;
ghost use Rattle.eql_check.specs.Truth.{is_literal_null};

use eql_query::{CmpOp, Expr, Exprs};
use eql_text::parse_ip4;
use eql_values::{Kind, Value};

fn same_kind(j: Kind, k: Kind) -> bool
    ensures { result ≡ fitting.same_kind j k }
{
    match (j, k) {
        (Kind::Bool, Kind::Bool) => true,
        (Kind::Long, Kind::Long) => true,
        (Kind::Text, Kind::Text) => true,
        (Kind::Ip, Kind::Ip) => true,
        _ => false,
    }
}

/// Whether an operand of the second kind may stand where the first is asked for.
pub(crate) fn may_be(asked: Kind, kind: Option<Kind>) -> bool
    ensures { result ≡ fitting.may_be asked kind }
{
    match kind {
        None => true,
        Some(kind) => same_kind(asked, kind),
    }
}

/// Whether operands of these kinds may stand beside each other.
pub(crate) fn alike(j: Option<Kind>, k: Option<Kind>) -> bool
    ensures { result ≡ kinds.alike j k }
{
    match j {
        None => true,
        Some(j) => may_be(j, k),
    }
}

fn kind_of_value(value: &Value) -> Option<Kind>
    ensures { result ≡ fitting.kind_of_value value.now }
{
    match value {
        Value::Null => None,
        Value::Bool(_) => Some(Kind::Bool),
        Value::Long(_) => Some(Kind::Long),
        Value::Text(_) => Some(Kind::Text),
        Value::Ip(_) => Some(Kind::Ip),
    }
}

/// Whether this is a text in quotes that is an IPv4 address.
fn is_address(expr: &Expr) -> bool
    ensures { result ≡ kinds.is_address (tree expr.now) }
{
    match expr {
        Expr::Str(text) => parse_ip4(text).is_some(),
        _ => false,
    }
}

fn are_addresses(kind: Option<Kind>, other: &Expr) -> bool
    ensures { result ≡ kinds.are_addresses kind (tree other.now) }
{
    match kind {
        Some(Kind::Ip) => is_address(other),
        _ => false,
    }
}

fn is_ordered(kind: Option<Kind>) -> bool
    ensures { result ≡ kinds.is_ordered kind }
{
    may_be(Kind::Long, kind) || may_be(Kind::Text, kind)
}

/// Whether a comparison takes two sides of these kinds.
pub(crate) fn can_compare(op: CmpOp, j: Option<Kind>, k: Option<Kind>, a: &Expr, b: &Expr) -> bool
    ensures { result ≡ kinds.can_compare op j k (tree a.now) (tree b.now) }
{
    match op {
        CmpOp::Eq | CmpOp::Ne => alike(j, k) || are_addresses(j, b) || are_addresses(k, a),
        _ => alike(j, k) && is_ordered(j) && is_ordered(k),
    }
}

/// Whether a value of this kind may equal the literal.
fn can_equal(kind: Option<Kind>, literal: &Value) -> bool
    ensures { result ≡ kinds.can_equal kind literal.now }
{
    match (kind, literal) {
        (None, _) => true,
        (Some(Kind::Ip), Value::Text(text)) => parse_ip4(text).is_some(),
        (Some(kind), _) => may_be(kind, kind_of_value(literal)),
    }
}

/// Whether a literal is a text or null.
fn is_text(literal: &Value) -> bool
    ensures { result ≡ kinds.is_text literal.now }
{
    match literal {
        Value::Text(_) | Value::Null => true,
        _ => false,
    }
}

fn are_texts(list: &[Value]) -> bool
    ensures { result ≡ list_all kinds.is_text list.now }
{
    list.iter().all(is_text)
}

fn can_equal_each(kind: Option<Kind>, list: &[Value]) -> bool
    ensures { result ≡ list_all (λ literal. kinds.can_equal kind literal) list.now }
{
    list.iter().all(|literal| can_equal(kind, literal))
}

/// Whether a value of this kind may be looked for among these literals.
pub(crate) fn can_be_among(fold: bool, kind: Option<Kind>, list: &[Value]) -> bool
    ensures { result ≡ kinds.can_be_among fold kind list.now }
{
    if fold {
        may_be(Kind::Text, kind) && are_texts(list)
    } else {
        can_equal_each(kind, list)
    }
}

/// Whether the expression is the literal `null`.
pub fn is_null(expr: &Expr) -> bool
    ensures { result ≡ is_literal_null (tree expr.now) }
{
    match expr {
        Expr::Null => true,
        _ => false,
    }
}

/// Whether a field stands in the expression.
#[cycle(holds)]
pub fn holds_field(expr: &Expr) -> bool
    ensures { result ≡ kinds.holds_field (tree expr.now) }
{
    match expr {
        Expr::Field(_) => true,
        Expr::Null | Expr::Bool(_) | Expr::Long(_) | Expr::Str(_) => false,
        Expr::Not(a) | Expr::Neg(a) | Expr::Pattern(_, a, _) | Expr::Member { left: a, .. } =>
            holds_field(a),
        Expr::Cmp(_, a, b) | Expr::Math(_, a, b) => holds_field(a) || holds_field(b),
        Expr::And(es) | Expr::Or(es) | Expr::Call { args: es, .. } => hold_field(es),
    }
}

#[cycle(holds)]
fn hold_field(exprs: &Exprs) -> bool
    ensures { result ≡ kinds.hold_field (trees exprs.now) }
{
    for item in exprs.items() {
        if holds_field(item) {
            return true;
        }
    }
    false
}
