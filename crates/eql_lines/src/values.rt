//! The values of fields, by their kinds.
ghost use Rattle.std.specs.Prelude.{◌≡◌, ◌==◌, Ok, Err, pos, IfOk, if◌then◌else◌, codes};
ghost use Rattle.std.specs.List.{list_any};
ghost use Rattle.std.specs.Str.{chars};
ghost use Rattle.std.specs.Fmt.{signed_decimal};
ghost use Rattle.eql_values.specs.declared.value.Kind.TheVariants as kinds;
ghost use Rattle.eql_values.specs.declared.value.Value.TheVariants as is;
ghost use Rattle.eql_values.specs.declared.cut.Reason.{Reason as Cause};
ghost use Rattle.eql_lines.specs.declared.refused.Refused.TheVariants as refused;
ghost use Rattle.eql_lines.specs.Values.{as_long, as_truth, as_address, scalar_value, only_tie, by_long_read};
ghost use Rattle.eql_lines.specs.Found.{single_scalar, found_of, only_found};
ghost use Rattle.eql_lines.specs.Gathered.{value_found};
ghost use Rattle.eql_lines.specs.Reach as scalar;
ghost use Rattle.eql_text.specs.Numbers.{parse_long};

use crate::number::Num;
use crate::refused::Refused;
use crate::slots::{Single, Slot};
use eql_text::{LongRead, ip4_from_str, long_from_str};
use eql_values::{Kind, Memory, Reason, Text, Value};
use std::alloc::Global;

/// The value that is a copy of this text.
fn text_value(alloc: Global, text: &str) -> Result<Value, Memory>
    ensures { IfOk result (λ v. v ≡ is.Text (chars text.now)) }
{
    Ok(Value::Text(Text::copy_of(alloc, text)?))
}

/// The decimal digits of a number that isn't negative, as a value.
fn unsigned_value(alloc: Global, number: u64) -> Result<Value, Memory>
    ensures { IfOk result (λ v. v ≡ is.Text (chars (signed_decimal (pos number)))) }
{
    let mut text = String::new(alloc);
    write!(text, "{number}")?;
    Ok(Value::Text(Text::of(text)))
}

/// The decimal digits of a number, as a value.
fn signed_value(alloc: Global, number: i64) -> Result<Value, Memory>
    ensures { IfOk result (λ v. v ≡ is.Text (chars (signed_decimal number))) }
{
    let mut text = String::new(alloc);
    write!(text, "{number}")?;
    Ok(Value::Text(Text::of(text)))
}

/// The word of a truth value.
fn word(truth: bool) -> &'static str
    ensures { result.now ≡ (if truth then codes "true" else codes "false") }
{
    if truth { "true" } else { "false" }
}

/// A scalar as a keyword.
fn keyword(alloc: Global, single: Single<'_>) -> Result<Value, Refused>
    ensures ok { IfOk result (λ v. scalar_value kinds.Text (single_scalar single.entry) ≡ Ok v) }
    ensures bad { (r : Cause) → result ≡ Err (refused.Bad r)
        → scalar_value kinds.Text (single_scalar single.entry) ≡ Err r }
{
    match single {
        Single::Text(text) => Ok(text_value(alloc, text)?),
        Single::Number(Num::Unsigned(number)) => Ok(unsigned_value(alloc, number)?),
        Single::Number(Num::Negative(number)) => Ok(signed_value(alloc, number)?),
        Single::Number(Num::Fractional) => Err(Refused::Bad(Reason::Fraction)),
        Single::Truth(truth) => Ok(text_value(alloc, word(truth))?),
    }
}

/// A text as a whole number.
fn text_long(text: &str) -> Result<i64, Reason>
    ensures { result ≡ by_long_read (parse_long (chars text.now)) }
{
    match long_from_str(text) {
        LongRead::Long(number) => Ok(number),
        LongRead::Range => Err(Reason::Range),
        LongRead::NoLong => Err(Reason::Kind),
    }
}

/// A scalar as a whole number of 64 signed bits.
fn long_of(single: Single<'_>) -> Result<i64, Reason>
    ensures { result ≡ as_long (single_scalar single.entry) }
{
    match single {
        Single::Text(text) => text_long(text),
        Single::Number(Num::Unsigned(number)) => match i64::try_from(number) {
            Ok(number) => Ok(number),
            Err(_) => Err(Reason::Range),
        },
        Single::Number(Num::Negative(number)) => Ok(number),
        Single::Number(Num::Fractional) => Err(Reason::Fraction),
        Single::Truth(_) => Err(Reason::Kind),
    }
}

/// A scalar as a truth value.
fn truth_of(single: Single<'_>) -> Result<bool, Reason>
    ensures { result ≡ as_truth (single_scalar single.entry) }
{
    match single {
        Single::Text(text) => if text == "true" {
            Ok(true)
        } else if text == "false" {
            Ok(false)
        } else {
            Err(Reason::Kind)
        },
        Single::Number(_) => Err(Reason::Kind),
        Single::Truth(truth) => Ok(truth),
    }
}

/// Whether a text has a colon.
fn has_colon(text: &str) -> bool
    ensures { result ≡ list_any (λ b. b == 58) text.now }
{
    text.as_bytes().iter().any(|byte| *byte == b':')
}

/// A text as an IPv4 address; null where it has a colon.
fn text_address(text: &str) -> Result<Value, Reason>
    ensures { result ≡ as_address (scalar.text text.now) }
{
    if has_colon(text) {
        return Ok(Value::Null);
    }
    match ip4_from_str(text) {
        Some(address) => Ok(Value::Ip(address)),
        None => Err(Reason::Kind),
    }
}

/// A scalar as an IPv4 address.
fn address_of(single: Single<'_>) -> Result<Value, Reason>
    ensures { result ≡ as_address (single_scalar single.entry) }
{
    match single {
        Single::Text(text) => text_address(text),
        Single::Number(_) | Single::Truth(_) => Err(Reason::Kind),
    }
}

/// A scalar by the kind of its field.
fn scalar_in(alloc: Global, kind: Kind, single: Single<'_>) -> Result<Value, Refused>
    ensures ok { IfOk result (λ v. scalar_value kind (single_scalar single.entry) ≡ Ok v) }
    ensures bad { (r : Cause) → result ≡ Err (refused.Bad r)
        → scalar_value kind (single_scalar single.entry) ≡ Err r }
{
    match kind {
        Kind::Text => keyword(alloc, single),
        Kind::Long => Ok(Value::Long(long_of(single)?)),
        Kind::Bool => Ok(Value::Bool(truth_of(single)?)),
        Kind::Ip => Ok(address_of(single)?),
    }
}

/// The value of a field of this kind, from what was found under its name.
pub(crate) fn value_in(alloc: Global, kind: Kind, slot: &Slot) -> Result<Value, Refused>
    ensures ok { IfOk result (λ v. value_found kind (found_of slot.now) ≡ Ok v) }
    ensures bad { (r : Cause) → result ≡ Err (refused.Bad r)
        → value_found kind (found_of slot.now) ≡ Err r }
{
    match slot.single() {
        Some(single) => scalar_in(alloc, kind, single),
        None => Ok(Value::Null),
    }
}

/// The tiebreaker, from what was found under its name.
pub(crate) fn tie_in(slot: &Slot) -> Result<Option<i64>, Reason>
    ensures { result ≡ only_tie (only_found (found_of slot.now)) }
{
    match slot.single() {
        Some(single) => Ok(Some(long_of(single)?)),
        None => Ok(None),
    }
}
