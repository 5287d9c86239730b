//! How lists are written: texts, literals and fields, with commas between.
ghost use Rattle.std.specs.Prelude.{◌≡◌, OnOk};
ghost use Rattle.eql_parser.specs.Adding.{Adds};
ghost use Rattle.eql_parser.specs.Printed.{texts_shown, patterns_shown, literals_shown, fields_shown, by_shown};

use super::leaf::{put_field, put_literal, put_quoted};
use super::page::Page;
use eql_query::FieldRef;
use eql_values::{Memory, Text, Value};

/// Writes texts.
fn put_texts(page: &mut Page, texts: &[Text]) -> Result<(), Memory>
    ensures { OnOk result (Adds page.old page.new (texts_shown texts.now)) }
{
    let mut between = "";
    for text in texts {
        page.put(between)?;
        put_quoted(page, text)?;
        between = ", ";
    }
    Ok(())
}

/// Writes patterns: one alone, or several in parentheses.
pub(crate) fn put_patterns(page: &mut Page, patterns: &[Text]) -> Result<(), Memory>
    ensures { OnOk result (Adds page.old page.new (patterns_shown patterns.now)) }
{
    if let [pattern] = patterns {
        return put_quoted(page, pattern);
    }
    page.put("(")?;
    put_texts(page, patterns)?;
    page.put(")")
}

/// Writes literals.
pub(crate) fn put_literals(page: &mut Page, literals: &[Value]) -> Result<(), Memory>
    ensures { OnOk result (Adds page.old page.new (literals_shown literals.now)) }
{
    let mut between = "";
    for literal in literals {
        page.put(between)?;
        put_literal(page, literal)?;
        between = ", ";
    }
    Ok(())
}

/// Writes fields.
fn put_fields(page: &mut Page, fields: &[FieldRef]) -> Result<(), Memory>
    ensures { OnOk result (Adds page.old page.new (fields_shown fields.now)) }
{
    let mut between = "";
    for field in fields {
        page.put(between)?;
        put_field(page, field)?;
        between = ", ";
    }
    Ok(())
}

/// Writes join keys, where there are any.
pub(crate) fn put_by(page: &mut Page, fields: &[FieldRef]) -> Result<(), Memory>
    ensures { OnOk result (Adds page.old page.new (by_shown fields.now)) }
{
    if fields.is_empty() {
        return Ok(());
    }
    page.put(" by ")?;
    put_fields(page, fields)
}
