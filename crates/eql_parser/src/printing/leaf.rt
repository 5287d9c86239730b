//! How strings, names of fields, and literals are written.
ghost use Rattle.std.specs.Prelude.{◌<◌, ◌++◌, ◌∷◌, ◌/◌, ◌%◌, codes, OnOk};
ghost use Rattle.std.specs.Str.{chars};
ghost use Rattle.eql_parser.specs.Adding.{Adds};
ghost use Rattle.eql_values.specs.Shown.{hex_digit, upper_digits, escape_by_number};
ghost use Rattle.eql_parser.specs.Printed.{char_shown, all_escaped, string_shown, name_shown, field_shown, literal_shown};

use super::page::Page;
use super::symbol::bool_text;
use eql_query::FieldRef;
use eql_values::{Memory, Text, Value, hex_digit, is_hidden};

/// Writes the upper two hexadecimal digits of a number, where it has more than two.
fn put_upper(page: &mut Page, number: u32) -> Result<(), Memory>
    requires { number < 65536 }
    ensures { OnOk result (Adds page.old page.new (λ rest. upper_digits number ++ rest)) }
{
    if number < 256 {
        return Ok(());
    }
    page.put_char(hex_digit(number / 4096))?;
    page.put_char(hex_digit(number / 256 % 16))
}

/// Writes the lower two, and the brace behind them.
fn put_lower(page: &mut Page, number: u32) -> Result<(), Memory>
    ensures { OnOk result (Adds page.old page.new (λ rest.
        hex_digit (number / 16 % 16) ∷ hex_digit (number % 16) ∷ codes "}" ++ rest)) }
{
    page.put_char(hex_digit(number / 16 % 16))?;
    page.put_char(hex_digit(number % 16))?;
    page.put("}")
}

/// Writes a character by its number.
fn put_code(page: &mut Page, number: u32) -> Result<(), Memory>
    requires { number < 65536 }
    ensures { OnOk result (Adds page.old page.new (λ rest. escape_by_number number ++ rest)) }
{
    page.put("\\u{")?;
    put_upper(page, number)?;
    put_lower(page, number)
}

/// Writes a character of a string.
fn put_escaped(page: &mut Page, c: char) -> Result<(), Memory>
    ensures { OnOk result (Adds page.old page.new (char_shown c)) }
{
    match c {
        '\n' => page.put("\\n"),
        '\r' => page.put("\\r"),
        '\t' => page.put("\\t"),
        '\\' => page.put("\\\\"),
        '"' => page.put("\\\""),
        c if is_hidden(c) => put_code(page, c as u32),
        c => page.put_char(c),
    }
}

/// Writes the characters of a string.
fn put_all_escaped(page: &mut Page, text: &str) -> Result<(), Memory>
    ensures { OnOk result (Adds page.old page.new (all_escaped (chars text.now))) }
{
    for c in text.chars() {
        put_escaped(page, c)?;
    }
    Ok(())
}

/// Writes a string in quotes.
pub(crate) fn put_quoted(page: &mut Page, text: &Text) -> Result<(), Memory>
    ensures { OnOk result (Adds page.old page.new (string_shown text.now)) }
{
    page.put("\"")?;
    put_all_escaped(page, text.text())?;
    page.put("\"")
}

/// Writes a name, with each backtick doubled.
fn put_doubled(page: &mut Page, name: &str) -> Result<(), Memory>
    ensures { OnOk result (Adds page.old page.new (name_shown (chars name.now))) }
{
    for c in name.chars() {
        if c == '`' {
            page.put("``")?;
        } else {
            page.put_char(c)?;
        }
    }
    Ok(())
}

/// Writes a field: its whole name in backticks.
pub(crate) fn put_field(page: &mut Page, field: &FieldRef) -> Result<(), Memory>
    ensures { OnOk result (Adds page.old page.new
        (field_shown field.now.name field.now.optional)) }
{
    page.put(if field.optional { "?`" } else { "`" })?;
    put_doubled(page, field.name.text())?;
    page.put("`")
}

/// Writes a literal of a list.
pub(crate) fn put_literal(page: &mut Page, literal: &Value) -> Result<(), Memory>
    ensures { OnOk result (Adds page.old page.new (literal_shown literal.now)) }
{
    match literal {
        Value::Bool(value) => page.put(bool_text(*value)),
        Value::Long(number) => page.put_number(number),
        Value::Text(text) => put_quoted(page, text),
        _ => page.put("null"),
    }
}
