//! Laws of the rules of kinds, and of what the operators mean.
ghost use Rattle.eql_check.specs.ByCharacters.{TextsCompareByCharacters};
ghost use Rattle.eql_check.specs.Arithmetic.{FloorsAreExact};
ghost use Rattle.eql_check.specs.Typing.{CheckIsExact, KindsAreExact};
ghost use Rattle.eql_check.specs.Kept.{KeepsKinds, MeetsKinds};
ghost use Rattle.eql_check.specs.ThreeValued.{ConnectivesRead};

/// The rules, one by one, hold of an expression exactly when no first broken rule is found in it.
pub fn kinds_are_exact()
    ensures { KindsAreExact }
{}

/// No rule is broken exactly when there is no first broken rule.
pub fn check_is_exact()
    ensures { CheckIsExact }
{}

/// Where each field has a value of its kind, or null, each expression means a value of its kind, or null.
pub fn kinds_are_kept()
    ensures { KeepsKinds }
{}

/// And no operator meets a wrong kind: each in an expression that has a kind takes the values that its operands mean.
pub fn kinds_are_met()
    ensures { MeetsKinds }
{}

/// `and` is false where one operand is false, else null where one is neither true nor false, else true; and `or` with
/// true and false exchanged.
pub fn connectives_read()
    ensures { ConnectivesRead }
{}

/// Where the divisor isn't zero, the quotient is the floor of the exact one, and what it leaves is zero or has the sign
/// of the divisor, and is less in size.
pub fn floors_are_exact()
    ensures { FloorsAreExact }
{}

/// Texts are ordered by their characters: the first that differ decide, by their numbers.
pub fn texts_by_characters()
    ensures { TextsCompareByCharacters }
{}
