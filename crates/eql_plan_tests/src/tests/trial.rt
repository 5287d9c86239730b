//! A plan from its texts, and what lines give to it, as short texts.
use eql_check::{Mapping, can_check, check};
use eql_lexer::lex;
use eql_parser::parse;
use eql_stages::{Plan, PlanReader};
use eql_values::{Item, Key, LineGot, LineReader, Mask, Memory, Text, Value};
use std::alloc::{AllocError, Global};
use std::process::Abort;
use std::test::Fail;

/// The shard and the line that each line is read at.
const SHARD: u32 = 3;

const LINE: u32 = 7;

/// The fields that queries name.
static MAPPING: &[u8] = br#"{"destination.ip":"ip","destination.port":"long","event.type":"keyword",
"file.pid":"long","host.id":"keyword","process.args_count":"long","process.name":"keyword","process.pid":"long",
"user.id":"keyword","user.name":"keyword"}"#;

/// The plan of a query; none where it isn't read or is refused.
pub fn plan_of(alloc: Global, query: &str, tie: &str) -> Result<Option<Plan>, Fail> {
    let Ok(tokens) = lex(alloc, query.as_bytes()) else {
        return Ok(None);
    };
    let Ok(query) = parse(alloc, &tokens) else {
        return Ok(None);
    };
    let mapping = Mapping::read(alloc, MAPPING)?;
    if !can_check(&query) {
        return Ok(None);
    }
    let Ok(checked) = check(alloc, &query, &mapping) else {
        return Ok(None);
    };
    let tie = if tie.is_empty() {
        None
    } else {
        Some(Text::of(String::from_str(alloc, tie)?))
    };
    Ok(Some(Plan::make(alloc, checked, tie)?))
}

/// A value as it stands in a key.
fn push_value(alloc: Global, text: &mut String, value: &Value) -> Result<(), AllocError> {
    match value {
        Value::Null => text.push_str("null"),
        Value::Bool(b) => text.push_str(format!(in alloc; "{b}")?.as_str()),
        Value::Long(n) => text.push_str(format!(in alloc; "{n}")?.as_str()),
        Value::Text(t) => text.push_str(t.text()),
        Value::Ip(n) => text.push_str(format!(in alloc; "ip {n}")?.as_str()),
    }
}

/// A key: its values in brackets.
fn push_key(alloc: Global, text: &mut String, key: &Key) -> Result<(), AllocError> {
    let mut before = " [";
    for value in key.items() {
        text.push_str(before)?;
        push_value(alloc, text, value)?;
        before = ", ";
    }
    if key.items().is_empty() {
        text.push_str(before)?;
    }
    text.push(']')
}

/// Stages in a row.
fn push_range(alloc: Global, text: &mut String, from: u32, to: u32) -> Result<(), AllocError> {
    if from == to {
        text.push_str(format!(in alloc; " {from}")?.as_str())
    } else {
        text.push_str(format!(in alloc; " {from}-{to}")?.as_str())
    }
}

/// The stages of a mask.
fn push_stages(alloc: Global, text: &mut String, mask: &Mask) -> Result<(), AllocError> {
    let mut begun: Option<u32> = None;
    for stage in 1..257u32 {
        match begun {
            None if mask.has(stage) => begun = Some(stage),
            Some(from) if !mask.has(stage) => {
                push_range(alloc, text, from, stage.saturating_sub(1))?;
                begun = None;
            }
            _ => {}
        }
    }
    match begun {
        Some(from) => push_range(alloc, text, from, 256),
        None => Ok(()),
    }
}

/// An event: its timestamp, its tiebreaker, its shard, line and place, and each route.
fn push_item(alloc: Global, text: &mut String, item: &Item) -> Result<(), AllocError> {
    let order = item.order;
    let tie = match order.tie {
        Some(n) => format!(in alloc; "{n}")?,
        None => String::from_str(alloc, "none")?,
    };
    let (ts, shard, line, at) = (order.ts, order.shard, order.line, order.at);
    text.push_str(format!(in alloc; "{ts} {tie} {shard}:{line}@{at}")?.as_str())?;
    for route in item.routes.items() {
        push_key(alloc, text, &route.key)?;
        push_stages(alloc, text, &route.mask)?;
        if route.until {
            text.push_str(" until")?;
        }
    }
    Ok(())
}

/// What a line gave, as a text.
fn told(alloc: Global, got: &LineGot) -> Result<String, AllocError> {
    match got {
        LineGot::Blank => String::from_str(alloc, "blank"),
        LineGot::Bad(reason) => format!(in alloc; "bad {reason:?}"),
        LineGot::Item(item) => {
            let mut text = String::new(alloc);
            push_item(alloc, &mut text, item)?;
            Ok(text)
        }
    }
}

/// What a line gives to a reader, as a text.
pub fn line_told(alloc: Global, reader: &mut PlanReader, bytes: &[u8]) -> Result<String, Memory> {
    let got = reader.read(alloc, SHARD, LINE, bytes)?;
    Ok(told(alloc, &got)?)
}

// Sees that a line gives this text to a reader, and to a fresh reader of its plan.
fn line_gives(
    rt: &impl Abort,
    alloc: Global,
    plan: &Plan,
    reader: &mut PlanReader,
    line: &str,
    expected: &str,
) -> Result<(), Fail> {
    let got = line_told(alloc, reader, line.as_bytes())?;
    assert_eq!(rt; got.as_str(), expected, "{line}");
    let mut fresh = PlanReader::new(alloc, plan)?;
    let again = line_told(alloc, &mut fresh, line.as_bytes())?;
    assert_eq!(rt; again.as_str(), expected, "by a fresh reader: {line}");
    Ok(())
}

// Sees that each line gives the text beside it to a plan: to one reader, line by line, and to a reader of its own.
fn lines_give(
    rt: &impl Abort,
    alloc: Global,
    plan: &Plan,
    lines: &[(&str, &str)],
) -> Result<(), Fail> {
    let mut reader = PlanReader::new(alloc, plan)?;
    for (line, expected) in lines {
        line_gives(rt, alloc, plan, &mut reader, *line, *expected)?;
    }
    Ok(())
}

/// Sees that each line gives the text beside it to the plan of a query: to one reader, line by line, and to a reader of
/// its own.
pub fn each_gives(
    rt: &impl Abort,
    alloc: Global,
    query: &str,
    tie: &str,
    lines: &[(&str, &str)],
) -> Result<(), Fail> {
    let Some(plan) = plan_of(alloc, query, tie)? else {
        assert!(rt; false, "refused: {query}");
        return Ok(());
    };
    let given = lines_give(rt, alloc, &plan, lines);
    drop(plan);
    given
}
