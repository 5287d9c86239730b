//! How operators, units and truth values are written.
ghost use Rattle.std.specs.Prelude.{◌≡◌, IsTrue};
ghost use Rattle.eql_parser.specs.Adding.{all_ascii};
ghost use Rattle.eql_parser.specs.Printed.{bool_text, cmp_text, pat_text, math_text, member_text, unit_text};

use eql_query::{CmpOp, MathOp, PatOp, Unit};

/// `true` or `false`.
pub(crate) fn bool_text(value: bool) -> &'static str
    ensures text { result.now ≡ bool_text value }
    ensures ascii { IsTrue (all_ascii result.now) }
{
    if value { "true" } else { "false" }
}

/// A comparison between its sides.
pub(crate) fn cmp_text(op: CmpOp) -> &'static str
    ensures text { result.now ≡ cmp_text op }
    ensures ascii { IsTrue (all_ascii result.now) }
{
    match op {
        CmpOp::Lt => " < ",
        CmpOp::Le => " <= ",
        CmpOp::Eq => " == ",
        CmpOp::Ne => " != ",
        CmpOp::Ge => " >= ",
        CmpOp::Gt => " > ",
    }
}

/// A test against patterns, between a text and its patterns.
pub(crate) fn pat_text(op: PatOp) -> &'static str
    ensures text { result.now ≡ pat_text op }
    ensures ascii { IsTrue (all_ascii result.now) }
{
    match op {
        PatOp::Colon => " : ",
        PatOp::Like => " like ",
        PatOp::LikeFold => " like~ ",
    }
}

/// An operator between two whole numbers.
pub(crate) fn math_text(op: MathOp) -> &'static str
    ensures text { result.now ≡ math_text op }
    ensures ascii { IsTrue (all_ascii result.now) }
{
    match op {
        MathOp::Add => " + ",
        MathOp::Sub => " - ",
        MathOp::Mul => " * ",
        MathOp::Div => " / ",
        MathOp::Mod => " % ",
    }
}

/// `in` and its kin, up to the parenthesis of the list.
pub(crate) fn member_text(fold: bool, negated: bool) -> &'static str
    ensures text { result.now ≡ member_text fold negated }
    ensures ascii { IsTrue (all_ascii result.now) }
{
    match (fold, negated) {
        (false, false) => " in (",
        (true, false) => " in~ (",
        (false, true) => " not in (",
        (true, true) => " not in~ (",
    }
}

/// A unit of time.
pub(crate) fn unit_text(unit: &Unit) -> &'static str
    ensures text { result.now ≡ unit_text unit.now }
    ensures ascii { IsTrue (all_ascii result.now) }
{
    match unit {
        Unit::Ms => "ms",
        Unit::S => "s",
        Unit::M => "m",
        Unit::H => "h",
        Unit::D => "d",
    }
}
