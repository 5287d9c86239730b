//! Tables of texts, a row a line: what is asked stands in front of ` => `, and the answer behind it. `|` parts each where
//! it has more than one field.
use crate::tests::{json, text, values};
use eql_values::{Memory, Text};
use std::alloc::Global;
use std::process::Abort;

/// What the rows of a table ask.
pub enum Asked {
    /// Whether bytes are one JSON text.
    Json,
    /// How a text is shown.
    Shown,
    /// Whether a span holds two events.
    Span,
    /// Whether two mappings are equal.
    Mapping,
    /// What a function of texts gives.
    Text(OfTexts),
}

/// What is asked of texts.
pub enum OfTexts {
    /// Where one is found in another one.
    Place,
    /// The part between two places.
    Part,
    /// The part between two others.
    Between,
    /// The number that one writes.
    Number,
    /// The address that one writes, and whether a block has it.
    Address,
    /// Whether two are equal.
    Equal,
    /// Whether one starts with another one, ends with it and contains it.
    Sides,
}

/// Whether this is the answer to what a row asks.
fn is_answer(alloc: Global, asked: &Asked, row: &str, wanted: &str) -> Result<bool, Memory> {
    match asked {
        Asked::Json => json::is_told(alloc, row, wanted),
        Asked::Shown => values::is_shown(alloc, row, wanted),
        Asked::Span => Ok(values::is_span(row, wanted)),
        Asked::Mapping => values::is_compared(alloc, row, wanted),
        Asked::Text(of) => text::is_answer(alloc, of, row, wanted),
    }
}

/// Whether a line of a table is as it should be: a row with its answer, or empty.
fn is_right(alloc: Global, asked: &Asked, line: &str) -> bool {
    match line.rsplit_once(" => ") {
        Some((row, wanted)) => is_answer(alloc, asked, row, wanted) == Ok(true),
        None => line.is_empty(),
    }
}

/// The first line of a table that isn't as it should be.
fn wrong_line(alloc: Global, asked: &Asked, table: &'static str) -> Option<&'static str> {
    for line in table.lines() {
        if !is_right(alloc, asked, line) {
            return Some(line);
        }
    }
    None
}

/// Sees that no line of a table is wrong.
pub fn see(rt: &impl Abort, alloc: Global, asked: &Asked, table: &'static str) {
    let wrong = wrong_line(alloc, asked, table);
    assert!(rt; wrong.is_none(), "{wrong:?}");
}

/// Sees that a test holds.
pub fn see_true(rt: &impl Abort, holds: Result<bool, Memory>) {
    assert!(rt; holds == Ok(true));
}

/// The field of a row at this place, from 0.
pub fn field(row: &str, at: usize) -> &str {
    row.split('|').nth(at).unwrap_or("")
}

/// The number that a field writes.
pub fn number_at(row: &str, at: usize) -> Option<i64> {
    field(row, at).parse::<i64>().ok()
}

/// A field as a text.
pub fn text_at(alloc: Global, row: &str, at: usize) -> Result<Text, Memory> {
    Ok(Text::copy_of(alloc, field(row, at))?)
}

/// Whether this is what `true` or `false` says.
pub fn is_bool(got: bool, wanted: &str) -> bool {
    wanted == if got { "true" } else { "false" }
}

/// Whether this is what a number, or `none`, says.
pub fn is_number(got: Option<i64>, wanted: &str) -> bool {
    match got {
        Some(number) => number_at(wanted, 0) == Some(number),
        None => wanted == "none",
    }
}

/// The bytes that a text stands for: a character stands for the lowest byte of its number. So `␊` stands for a line
/// feed, as other pictures do for their control characters, and `ÿ` for ff.
pub fn bytes_of(alloc: Global, text: &str) -> Result<Vec<u8>, Memory> {
    let mut bytes = Vec::new(alloc);
    for character in text.chars() {
        bytes.push((u32::from(character) % 256) as u8)?;
    }
    Ok(bytes)
}
