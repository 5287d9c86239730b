//! The parts of queries, and refusals made by hand.
use eql_lexer::{LexRefused, lex};
use eql_parser::{ParseRefused, parse};
use eql_query::{Body, Expr, Query, Term};
use eql_values::{Memory, Text};
use std::alloc::Global;

/// The query that a text is.
fn query(alloc: Global, text: &str) -> Option<Query> {
    let Ok(tokens) = lex(alloc, text.as_bytes()) else {
        return None;
    };
    parse(alloc, &tokens).ok()
}

/// A sequence with all its parts.
static SEQUENCE: &str =
    "sequence by a, b.c with maxspan=1m [any where true] by d until [any where false] | head 2 | tail 1";

/// Whether a sequence has two keys, a span, one item, and an item that ends it.
fn has_sequence(body: &Body) -> bool {
    match body {
        Body::Sequence {
            by,
            span,
            items,
            until,
        } => {
            by.items().len() == 2 && items.items().len() == 1 && span.is_some() && until.is_some()
        }
        Body::Event(_) => false,
    }
}

/// Whether a sequence has these parts and two pipes.
fn is_sequence(query: Query) -> bool {
    let (body, pipes) = query.into_parts();
    has_sequence(&body) & (pipes.into_items().len() == 2)
}

/// Whether an event is any one, without a condition, a key or a run.
fn is_any(term: &Term) -> bool {
    term.category.is_none()
        && matches!(&term.cond, Expr::Bool(true))
        && term.by.items().is_empty()
        && term.runs == 1
}

/// Whether a query is for such an event.
fn is_event(query: Query) -> bool {
    let (body, pipes) = query.into_parts();
    drop(pipes);
    match &body {
        Body::Event(term) => is_any(term),
        Body::Sequence { .. } => false,
    }
}

/// Whether a sequence has its parts.
fn sequence_has_parts(alloc: Global) -> bool {
    match query(alloc, SEQUENCE) {
        Some(query) => is_sequence(query),
        None => false,
    }
}

/// Whether an event has its parts.
fn event_has_parts(alloc: Global) -> bool {
    match query(alloc, "any where true") {
        Some(query) => is_event(query),
        None => false,
    }
}

#[test]
fn queries_have_these_parts(rt: HostRuntime) {
    assert!(rt; sequence_has_parts(rt.alloc()) && event_has_parts(rt.alloc()));
}

/// Whether a refusal has this line.
fn is_line(line: Result<String, Memory>, expected: &str) -> bool {
    match line {
        Ok(line) => line.as_str() == expected,
        Err(_) => false,
    }
}

/// The line of a refusal of a word with bytes that are no letters.
fn line_of_word(alloc: Global) -> Result<String, Memory> {
    let word = Text::of(String::from_str(alloc, "a\n\u{1b}b")?);
    ParseRefused::LeftOut { word, at: 3 }.message(alloc)
}

/// The line of a refusal for want of memory.
fn line_of_memory(alloc: Global) -> Result<String, Memory> {
    ParseRefused::Memory.message(alloc)
}

/// Whether refusals have their lines.
fn have_lines(alloc: Global) -> bool {
    is_line(line_of_word(alloc), "parse: LeftOut a\\n\\u{1b}b at 3")
        && is_line(line_of_memory(alloc), "parse: Memory")
        && is_line(LexRefused::Memory.message(alloc), "lex: Memory")
}

#[test]
fn messages(rt: HostRuntime) {
    assert!(rt; have_lines(rt.alloc()));
}
