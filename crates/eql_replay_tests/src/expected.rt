//! The listing that is expected: the matches that the look-back finds, line by line.
use eql_lookback::{ascend, find};
use eql_values::{Item, Items, Match, Value};
use std::alloc::{AllocError, Global};
use std::fmt::Write;
use std::test::Fail;

/// Adds a value as it stands in a key.
fn push_value(listing: &mut String, value: &Value) -> Result<(), AllocError> {
    match value {
        Value::Text(text) => {
            let text = text.text();
            write!(listing, "\"{text}\"")
        }
        _ => listing.push_str("null"),
    }
}

/// Adds the line of a match.
fn push_match(listing: &mut String, number: u32, found: &Match) -> Result<(), AllocError> {
    write!(listing, "{number} [")?;
    for value in found.key.items() {
        push_value(listing, value)?;
    }
    listing.push(']')?;
    for event in found.chain.items() {
        let (shard, line) = (event.shard, event.line);
        write!(listing, " {shard}:{line}")?;
    }
    listing.push('\n')
}

/// The listing of the matches by these events.
pub(crate) fn listing_of(
    alloc: Global,
    items: Vec<Item>,
    stages: u32,
    span: Option<i128>,
) -> Result<String, Fail> {
    let items = Items::of(items);
    if stages < 1 || 256 < stages || !ascend(items.items()) {
        return Err(Fail::new("the events don't ascend"));
    }
    let matches = find(alloc, &items, stages, span)?;
    let mut listing = String::new(alloc);
    let mut number = 0u32;
    for found in matches.items() {
        number = number.saturating_add(1);
        push_match(&mut listing, number, found)?;
    }
    Ok(listing)
}
