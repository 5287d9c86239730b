//! The limits of how many fields, names, items and bytes there may be.
use crate::tests::answer::{Asked, Trial, each_line_answers};
use crate::tests::mappings::is_read;
use eql_check::Mapping;
use eql_values::Memory;
use std::alloc::{AllocError, Global};
use std::fmt::Write;
use std::process::Abort;
use std::test::Fail;

/// Adds a text so many times.
fn push_times(text: &mut String, count: usize, piece: &str) -> Result<(), AllocError> {
    for _ in 0..count {
        text.push_str(piece)?;
    }
    Ok(())
}

/// A text so many times.
fn times_of(alloc: Global, count: usize, piece: &str) -> Result<String, AllocError> {
    let mut pieces = String::new(alloc);
    push_times(&mut pieces, count, piece)?;
    Ok(pieces)
}

/// The names of so many fields, `f0`, `f1` and so on, with this between two.
fn names_of(alloc: Global, count: usize, between: &str) -> Result<String, AllocError> {
    let mut names = String::new(alloc);
    for n in 0..count {
        if n > 0 {
            names.push_str(between)?;
        }
        write!(names, "f{n}")?;
    }
    Ok(names)
}

/// Queries, and what the check of each returns. In place of `{or}` and `{used}` stand the names of 64 fields, in place of
/// `{items}` 256 items, and in place of `{more}` 9,999 keys.
static QUERIES: &str = r#"
// 64 fields may be used. One that is used twice counts once, and one that the mapping doesn't have never.
any where {or} => 0 keys {used}
any where {or} or f0 or f63 => 0 keys {used}
any where {or} or ?x => 0 keys {used}

// 64 fields with one more are too many.
any where {or} or f64 => ManyFields 65
sequence by f64 [any where {or}] [any where true] => ManyFields 65
sequence [any where {or}] [any where f64] => ManyFields 65
// the field limit comes before those of spans and pipes
sequence with maxspan=0s [any where f64 or {or}] [any where true] | head 1000001 => ManyFields 65

// The key limit comes before the field limit: of too many keys and fields the keys are told.
sequence by f0, f1, f2, f3, f4, f5, f6, f7 [any where {or} or f64] [any where true] => ManyFields 65
sequence by f0, f1, f2, f3, f4, f5, f6, f7, f8 [any where {or} or f64] [any where true] => ManyKeys 9

// A sequence has 2 to 256 items.
sequence [any where true] => FewStages
sequence [any where true] [any where true] => 0 keys
sequence{items} => 0 keys
sequence{items} [any where true] => ManyStages 257

// The rules of keys by item are judged before there is a limit on their number. The 10,000 keys of both items are
// optional fields that the mapping doesn't have; then the second item has one more.
sequence [any where true] by ?x{more} [any where true] by ?x{more} => ManyKeys 10000
sequence [any where true] by ?x{more} [any where true] by ?x{more},f0 => KeyCount 2
"#;

/// The table of queries with the names of its fields.
fn with_fields(alloc: Global) -> Result<String, AllocError> {
    let or = names_of(alloc, 64, " or ")?;
    let used = names_of(alloc, 64, " ")?;
    let table = QUERIES.replace(alloc, "{or}", or.as_str())?;
    table.as_str().replace(alloc, "{used}", used.as_str())
}

/// The same with its items.
fn with_items(alloc: Global) -> Result<String, AllocError> {
    let items = times_of(alloc, 256, " [any where true]")?;
    let table = with_fields(alloc)?;
    table.as_str().replace(alloc, "{items}", items.as_str())
}

/// The same with its keys.
fn with_keys(alloc: Global) -> Result<String, AllocError> {
    let more = times_of(alloc, 9_999, ",?x")?;
    let table = with_items(alloc)?;
    table.as_str().replace(alloc, "{more}", more.as_str())
}

/// Sees that for each query of the table is returned what stands beside it.
fn queries_answer(rt: &impl Abort, alloc: Global, trial: &Trial) -> Result<(), Memory> {
    let table = with_keys(alloc)?;
    each_line_answers(rt, alloc, trial, table.as_str())
}

/// A mapping of Boolean fields, with a mark in place of their names.
const FIELDS: &str = r#"{"{names}":"boolean"}"#;

/// A mapping with so many names in place of its mark, and with blanks behind it up to so many bytes.
fn mapping_text(
    alloc: Global,
    fields: &str,
    count: usize,
    bytes: usize,
) -> Result<String, AllocError> {
    let names = names_of(alloc, count, r#"":"boolean",""#)?;
    let mut text = fields.replace(alloc, "{names}", names.as_str())?;
    let blanks = bytes.saturating_sub(text.as_str().len());
    push_times(&mut text, blanks, " ")?;
    Ok(text)
}

/// A mapping of 70 of these fields, over which queries are checked.
fn trial(alloc: Global) -> Result<Trial, Fail> {
    let text = mapping_text(alloc, FIELDS, 70, 0)?;
    Ok(Trial {
        mapping: Mapping::read(alloc, text.as_str().as_bytes())?,
        asked: Asked::Check,
    })
}

#[test]
fn many_fields_keys_and_items(rt: HostRuntime) -> Result<(), Fail> {
    let trial = trial(rt.alloc())?;
    let seen = queries_answer(&rt, rt.alloc(), &trial);
    drop(trial);
    Ok(seen?)
}

/// Mappings by their names: their fields, how many names they have, up to how many bytes there are blanks behind them,
/// and what is read. The limit of bytes comes before that of names.
static MAPPINGS: &[(&str, &str, usize, usize, &str)] = &[
    ("0 names", "{}", 0, 0, "0 names"),
    ("1024 names", FIELDS, 1024, 0, "1024 names"),
    ("1025 names", FIELDS, 1025, 0, "MapMany"),
    ("0 names in 4194304 bytes", "{}", 0, 4_194_304, "0 names"),
    ("0 names in 4194305 bytes", "{}", 0, 4_194_305, "MapLong"),
    (
        "1025 names in 4194304 bytes",
        FIELDS,
        1025,
        4_194_304,
        "MapMany",
    ),
    (
        "1025 names in 4194305 bytes",
        FIELDS,
        1025,
        4_194_305,
        "MapLong",
    ),
];

#[test]
fn many_names_and_long_mappings(rt: HostRuntime) -> Result<(), Fail> {
    for &(name, fields, count, bytes, wanted) in MAPPINGS {
        let text = mapping_text(rt.alloc(), fields, count, bytes)?;
        is_read(&rt, rt.alloc(), name, text.as_str().as_bytes(), wanted)?;
    }
    Ok(())
}
