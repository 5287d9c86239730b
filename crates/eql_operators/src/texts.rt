//! The texts of values.
ghost use Rattle.std.specs.Prelude.{◌≡◌, ◌≤◌, ◌++◌, IfOk, OnOk, string_bytes, if◌then◌else◌, codes, length};
ghost use Rattle.std.specs.Str.{chars};
ghost use Rattle.std.specs.Fmt.{signed_decimal};
ghost use Rattle.std.specs.Option.{option_copied};
ghost use Rattle.eql_text.specs.Comparing.{starts, ends};
ghost use Rattle.eql_check.specs.Functions as f;

use eql_text as text;
use eql_values::{Memory, Text, Value};
use std::alloc::Global;

/// Appends the decimal digits of a number.
fn append_number(text: &mut String, number: i64) -> Result<(), Memory>
    ensures { OnOk result (string_bytes text.new
        ≡ string_bytes text.old ++ signed_decimal number) }
{
    write!(text, "{number}")?;
    Ok(())
}

/// Appends an address as four numbers with dots between.
fn append_address(text: &mut String, ip: u32) -> Result<(), Memory>
    ensures { OnOk result (string_bytes text.new ≡ string_bytes text.old ++ f.dotted_text ip) }
{
    let (a, b) = (ip / 16_777_216, ip / 65_536 % 256);
    let (c, d) = (ip / 256 % 256, ip % 256);
    write!(text, "{a}.{b}.{c}.{d}")?;
    Ok(())
}

/// The text of a truth value.
fn word(b: bool) -> &'static str
    ensures { result.now ≡ (if b then codes "true" else codes "false") }
{
    if b { "true" } else { "false" }
}

/// Appends the text of a value, and tells whether it has one: null has none. `Memory` where memory ran out.
pub fn append(text: &mut String, value: &Value) -> Result<bool, Memory>
    ensures { IfOk result
        (λ has. f.joined_texts (Some (chars (string_bytes text.old))) (f.text_of value.now)
        ≡ (if has then Some (chars (string_bytes text.new)) else None)) }
{
    match value {
        Value::Null => return Ok(false),
        Value::Bool(b) => text.push_str(word(*b))?,
        Value::Long(n) => append_number(text, *n)?,
        Value::Text(more) => text.push_str(more.text())?,
        Value::Ip(ip) => append_address(text, *ip)?,
    }
    Ok(true)
}

/// The text of a value; null of null. `Memory` where memory ran out.
pub fn string_of(alloc: Global, value: &Value) -> Result<Value, Memory>
    ensures { IfOk result (λ v. v ≡ f.text_or_null (f.text_of value.now)) }
{
    let mut text = String::new(alloc);
    if append(&mut text, value)? {
        Ok(Value::Text(Text::of(text)))
    } else {
        Ok(Value::Null)
    }
}

/// The number of characters of a text.
pub fn length_of(value: &Value) -> Value
    ensures { result ≡ f.length_of value.now }
{
    match value {
        Value::Text(text) => Value::Long(characters(text.text()) as i64),
        _ => Value::Null,
    }
}

/// How many characters a text has.
fn characters(text: &str) -> usize
    ensures count { result ≡ length (chars text.now) }
    ensures within { result ≤ length text.now }
{
    text.chars().count()
}

/// The number that a text writes.
pub fn number_of(value: &Value) -> Value
    ensures { result ≡ f.number_of value.now }
{
    match value {
        Value::Text(text) => number_or_null(text::parse_number(text)),
        _ => Value::Null,
    }
}

fn number_or_null(number: Option<i64>) -> Value
    ensures { result ≡ f.number_or_null number }
{
    match number {
        Some(number) => Value::Long(number),
        None => Value::Null,
    }
}

/// The least place of `t` in `s` at or after a start, 0 where none is given.
pub fn index_or_null(fold: bool, s: &Value, t: &Value, from: Option<&Value>) -> Value
    ensures { result ≡ f.index_or_null fold s.now t.now (option_copied from.entry) }
{
    match (s, t, from) {
        (Value::Text(s), Value::Text(t), None) => number_or_null(text::index_of(s, t, 0, fold)),
        (Value::Text(s), Value::Text(t), Some(Value::Long(from))) => {
            number_or_null(text::index_of(s, t, *from, fold))
        }
        _ => Value::Null,
    }
}

/// The part of a text from one place up to and not including another, or up to the end. `Memory` where memory
/// ran out.
pub fn part_of(alloc: Global, s: &Value, from: &Value, to: Option<&Value>) -> Result<Value, Memory>
    ensures { IfOk result (λ v. v ≡ f.part_of s.now from.now (option_copied to.entry)) }
{
    match (s, from, to) {
        (Value::Text(s), Value::Long(from), None) => {
            Ok(Value::Text(text::substring(alloc, s, *from, None)?))
        }
        (Value::Text(s), Value::Long(from), Some(Value::Long(to))) => {
            Ok(Value::Text(text::substring(alloc, s, *from, Some(*to))?))
        }
        _ => Ok(Value::Null),
    }
}

/// What stands between two texts. `Memory` where memory ran out.
pub fn between_of(
    alloc: Global,
    fold: bool,
    s: &Value,
    l: &Value,
    r: &Value,
    greedy: Option<&Value>,
) -> Result<Value, Memory>
    ensures { IfOk result
        (λ v. v ≡ f.between_of fold s.now l.now r.now (option_copied greedy.entry)) }
{
    match (s, l, r, greedy) {
        (Value::Text(s), Value::Text(l), Value::Text(r), None) => {
            Ok(Value::Text(text::between(alloc, s, l, r, false, fold)?))
        }
        (Value::Text(s), Value::Text(l), Value::Text(r), Some(Value::Bool(greedy))) => {
            Ok(Value::Text(text::between(alloc, s, l, r, *greedy, fold)?))
        }
        _ => Ok(Value::Null),
    }
}

/// Whether `t` stands at the beginning of `s`.
pub fn starts_with(fold: bool, s: &Value, t: &Value) -> Value
    ensures { result ≡ f.test_value (starts fold) s.now t.now }
{
    match (s, t) {
        (Value::Text(s), Value::Text(t)) => Value::Bool(text::starts(s, t, fold)),
        _ => Value::Null,
    }
}

/// Whether `t` stands at the end of `s`.
pub fn ends_with(fold: bool, s: &Value, t: &Value) -> Value
    ensures { result ≡ f.test_value (ends fold) s.now t.now }
{
    match (s, t) {
        (Value::Text(s), Value::Text(t)) => Value::Bool(text::ends(s, t, fold)),
        _ => Value::Null,
    }
}

/// Whether a text stands in another; the empty text stands in none.
fn stands_in(s: &Text, t: &Text, fold: bool) -> bool
    ensures { result ≡ f.stands_in fold s.now t.now }
{
    match t.text().chars().next() {
        None => false,
        Some(_) => text::contains(s, t, fold),
    }
}

/// Whether `t` stands somewhere in `s`; where `t` is empty it doesn't.
pub fn contains(fold: bool, s: &Value, t: &Value) -> Value
    ensures { result ≡ f.test_value (f.stands_in fold) s.now t.now }
{
    match (s, t) {
        (Value::Text(s), Value::Text(t)) => Value::Bool(stands_in(s, t, fold)),
        _ => Value::Null,
    }
}
