//! Logs: their lines, their texts, and which events of them are accepted.
use crate::queries::{Query, routes_of};
use eql_values::{Item, OrderKey, Routes};
use std::alloc::Global;
use std::fmt::Write;
use std::test::Fail;

/// Nanoseconds in a millisecond.
const MILLISECOND: i128 = 1_000_000;

/// The names of processes, by their number.
pub(crate) const NAMES: [&str; 6] = ["a", "b", "c", "d", "e", "f"];

/// A line of a log.
#[derive(Clone, Copy)]
pub(crate) enum Line {
    /// It has spaces alone.
    Blank,
    /// It is no JSON text.
    Bad,
    /// It is an event.
    Event(Event),
}

/// An event: a process starts.
#[derive(Clone, Copy)]
pub(crate) struct Event {
    /// Its time, in milliseconds since the epoch.
    pub(crate) ms: u32,
    /// The number of its user, where it has one.
    pub(crate) user: Option<u32>,
    /// The number of its process's name.
    pub(crate) name: u32,
}

/// Adds a line to a text.
fn push_line(text: &mut String, line: Line) -> Result<(), Fail> {
    match line {
        Line::Blank => text.push_str("  \n")?,
        Line::Bad => text.push_str("{\"@timestamp\":7,\n")?,
        Line::Event(event) => {
            let ms = event.ms;
            let name = NAMES.get(event.name as usize).ok_or("a name")?;
            write!(
                text,
                "{{\"@timestamp\":{ms},\"event\":{{\"category\":\"process\"}},"
            )?;
            if let Some(user) = event.user {
                write!(text, "\"user\":{{\"name\":\"u{user}\"}},")?;
            }
            write!(text, "\"process\":{{\"name\":\"{name}\"}}}}\n")?;
        }
    }
    Ok(())
}

/// The text of these lines.
fn text_of(alloc: Global, lines: &Vec<Line>) -> Result<Vec<u8>, Fail> {
    let mut text = String::new(alloc);
    for line in lines {
        push_line(&mut text, *line)?;
    }
    Ok(text.into_bytes())
}

/// The text of each shard.
pub(crate) fn texts_of(alloc: Global, shards: &Vec<Vec<Line>>) -> Result<Vec<Vec<u8>>, Fail> {
    let mut texts = Vec::new(alloc);
    for lines in shards {
        texts.push(text_of(alloc, lines)?)?;
    }
    Ok(texts)
}

/// Puts an event where it belongs in the order.
fn put_in_order(items: &mut Vec<Item>, item: Item) -> Result<(), Fail> {
    let mut at = 0usize;
    for other in items.as_slice() {
        if other.order < item.order {
            at = at.saturating_add(1);
        }
    }
    if items.len() < at {
        return Err(Fail::new("no such place"));
    }
    items.insert(at, item)?;
    Ok(())
}

/// Whether an event of this time is late behind the greatest time of its shard, by a slack in milliseconds.
fn is_late(best: Option<u32>, slack: Option<u64>, ms: u32) -> bool {
    match (best, slack) {
        (Some(best), Some(slack)) => u64::from(ms).saturating_add(slack) < u64::from(best),
        _ => false,
    }
}

/// Adds the accepted events of a shard.
fn add_accepted(
    alloc: Global,
    query: &Query,
    shard: u32,
    lines: &Vec<Line>,
    slack: Option<u64>,
    items: &mut Vec<Item>,
) -> Result<(), Fail> {
    let mut text = String::new(alloc);
    let mut best: Option<u32> = None;
    let mut number = 0u32;
    for line in lines {
        number = number.saturating_add(1);
        if let Line::Event(event) = *line {
            if !is_late(best, slack, event.ms) {
                let order = OrderKey {
                    ts: i128::from(event.ms).saturating_mul(MILLISECOND),
                    tie: None,
                    shard,
                    line: number,
                    at: text.len() as u64,
                };
                let routes = routes_of(alloc, query, event)?;
                put_in_order(items, Item { order, routes })?;
            }
            best = Some(event.ms.max(best.unwrap_or(0)));
        }
        push_line(&mut text, *line)?;
    }
    Ok(())
}

/// The accepted events of all shards, in their order, with what the query says of each.
pub(crate) fn accepted(
    alloc: Global,
    query: &Query,
    shards: &Vec<Vec<Line>>,
    slack: Option<u64>,
) -> Result<Vec<Item>, Fail> {
    let mut items = Vec::new(alloc);
    let mut shard = 0u32;
    for lines in shards {
        add_accepted(alloc, query, shard, lines, slack, &mut items)?;
        shard = shard.saturating_add(1);
    }
    Ok(items)
}
