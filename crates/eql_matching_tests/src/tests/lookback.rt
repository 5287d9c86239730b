//! Worked examples of the EQL syntax reference and of its rules, each event a line of one shard.
ghost use Rattle.std.specs.Prelude.{◌≡◌, ◌∷◌, [], IfSome, length};

use eql_lookback::{ascend, find};
use eql_values::{
    Chain, Holder, Item, Items, Key, Mask, Match, Matches, OrderKey, Route, Routes, Text, Value,
};
use std::alloc::Global;

pub(crate) const SECOND: i128 = 1_000_000_000;

/// The key of an event: none, or one value.
#[derive(Clone, Copy)]
pub(crate) enum Name {
    Empty,
    Null,
    Number(i64),
    Text(&'static str),
}

pub(crate) const EMPTY: Name = Name::Empty;

pub(crate) const NULL: Name = Name::Null;

pub(crate) const SEVEN: Name = Name::Number(7);

pub(crate) const ROOT: Name = Name::Text("root");

pub(crate) const ELKBEE: Name = Name::Text("elkbee");

pub(crate) const NOBODY: Name = Name::Text("nobody");

/// Of two names that are alike in their first sixteen bytes, the one that comes first.
pub(crate) const GATE: Name = Name::Text("service-account-of-gate");

/// The other one.
pub(crate) const SHOP: Name = Name::Text("service-account-of-shop");

/// An event: its line, its time in nanoseconds, and what it says to its key.
#[derive(Clone, Copy)]
pub(crate) struct Event {
    pub(crate) line: u32,
    pub(crate) ts: i128,
    pub(crate) key: Name,
    pub(crate) stages: u128,
    pub(crate) until: bool,
}

/// The event of a line that fits stages, given by their bits, and the until item or not.
macro_rules! event {
    ($line:expr, $ts:expr, $key:ident, $stages:expr, $until:expr) => {
        $crate::tests::lookback::Event {
            line: $line,
            ts: $ts,
            key: $crate::tests::lookback::$key,
            stages: $stages,
            until: $until,
        }
    };
}

pub(crate) use event;

/// The event of a line that fits stages.
macro_rules! fits {
    ($line:expr, $ts:expr, $key:ident, $stages:expr) => {
        $crate::tests::lookback::event!($line, $ts, $key, $stages, false)
    };
}

pub(crate) use fits;

/// The event of a line that fits stages and the until item.
macro_rules! ends {
    ($line:expr, $ts:expr, $key:ident, $stages:expr) => {
        $crate::tests::lookback::event!($line, $ts, $key, $stages, true)
    };
}

pub(crate) use ends;

/// A key, and the lines of the events of its sequence.
#[derive(Clone, Copy)]
pub(crate) struct Found {
    pub(crate) key: Name,
    pub(crate) lines: &'static [u32],
}

/// A sequence of a key by the events of these lines.
macro_rules! found {
    ($key:ident, $lines:expr) => {
        $crate::tests::lookback::Found {
            key: $crate::tests::lookback::$key,
            lines: $lines,
        }
    };
}

pub(crate) use found;

/// The list of one value, or `None` where memory is short.
pub(crate) fn one<T: Drop>(alloc: Global, value: T) -> Option<Vec<T>>
    ensures { IfSome result (λ list. list.items ≡ value ∷ []) }
{
    let mut list = Vec::new(alloc);
    match list.push(value) {
        Ok(()) => Some(list),
        Err(_) => None,
    }
}

/// A text as a value.
fn text_of(alloc: Global, characters: &str) -> Option<Value> {
    match String::from_str(alloc, characters) {
        Ok(text) => Some(Value::Text(Text::of(text))),
        Err(_) => None,
    }
}

/// The values of a key.
fn values_of(alloc: Global, name: Name) -> Option<Vec<Value>> {
    match name {
        Name::Empty => Some(Vec::new(alloc)),
        Name::Null => one(alloc, Value::Null),
        Name::Number(number) => one(alloc, Value::Long(number)),
        Name::Text(characters) => one(alloc, text_of(alloc, characters)?),
    }
}

pub(crate) fn key_of(alloc: Global, name: Name) -> Option<Key> {
    match values_of(alloc, name) {
        Some(values) => Some(Key::of(values)),
        None => None,
    }
}

/// The place of the event of a line, at this time in nanoseconds.
pub(crate) fn order_at(ts: i128, shard: u32, line: u32) -> OrderKey {
    OrderKey {
        ts,
        tie: None,
        shard,
        line,
        at: 0,
    }
}

/// The chain of one event, on this line of the first shard.
pub(crate) fn chain_of(alloc: Global, ts: i128, line: u32) -> Option<Chain>
    ensures { IfSome result (λ chain. length chain ≡ 1) }
{
    match one(alloc, order_at(ts, 0, line)) {
        Some(events) => Some(Chain::of(events)),
        None => None,
    }
}

/// The event on its line, with a route where it says something.
pub(crate) fn item_of(alloc: Global, event: &Event) -> Option<Item> {
    let order = order_at(event.ts, 0, event.line);
    if event.stages == 0 && !event.until {
        return Some(Item {
            order,
            routes: Routes::of(Vec::new(alloc)),
        });
    }
    let route = Route {
        key: key_of(alloc, event.key)?,
        mask: Mask {
            low: event.stages,
            high: 0,
        },
        until: event.until,
    };
    match one(alloc, route) {
        Some(routes) => Some(Item {
            order,
            routes: Routes::of(routes),
        }),
        None => None,
    }
}

/// Adds an event. Returns whether there is memory for that.
pub(crate) fn adds_event(alloc: Global, items: &mut Vec<Item>, event: &Event) -> bool {
    match item_of(alloc, event) {
        Some(item) => items.push(item).is_ok(),
        None => false,
    }
}

/// Some events, or `None` where memory is short.
pub(crate) fn items_of(alloc: Global, events: &[Event]) -> Option<Items> {
    let mut items = Vec::new(alloc);
    for event in events {
        if !adds_event(alloc, &mut items, event) {
            return None;
        }
    }
    Some(Items::of(items))
}

/// Whether a key is the one of this name.
fn is_key(alloc: Global, key: &Key, name: Name) -> bool {
    match key_of(alloc, name) {
        Some(named) => *key == named,
        None => false,
    }
}

/// Whether events stand on these lines.
pub(crate) fn has_lines(events: &[OrderKey], lines: &[u32]) -> bool {
    for (at, event) in events.iter().enumerate() {
        if lines.get(at) != Some(&event.line) {
            return false;
        }
    }
    events.len() == lines.len()
}

/// Whether a sequence has this key and the events of these lines.
fn is_found(alloc: Global, key: &Key, chain: &Chain, expected: Option<&Found>) -> bool {
    match expected {
        Some(expected) => {
            has_lines(chain.items(), expected.lines) && is_key(alloc, key, expected.key)
        }
        None => false,
    }
}

/// Whether matches have these keys and lines.
pub(crate) fn are_matches(alloc: Global, matches: &[Match], expected: &[Found]) -> bool {
    for (at, found) in matches.iter().enumerate() {
        if !is_found(alloc, &found.key, &found.chain, expected.get(at)) {
            return false;
        }
    }
    matches.len() == expected.len()
}

/// Whether pending sequences have these keys and lines, each at the stage of its last event.
pub(crate) fn are_pending(alloc: Global, held: &[Holder], expected: &[Found]) -> bool {
    for (at, holder) in held.iter().enumerate() {
        if holder.stage as usize != holder.chain.items().len()
            || !is_found(alloc, &holder.key, &holder.chain, expected.get(at))
        {
            return false;
        }
    }
    held.len() == expected.len()
}

/// The matches that the look-back finds, or `None` where the events don't ascend, there are too many stages or none, or
/// memory is short.
pub(crate) fn look_back(
    alloc: Global,
    stages: u32,
    span: Option<i128>,
    items: &Items,
) -> Option<Matches> {
    if stages < 1 || 256 < stages || !ascend(items.items()) {
        return None;
    }
    find(alloc, items, stages, span).ok()
}

/// A worked example: events, and the matches by them.
pub(crate) struct Example {
    pub(crate) shows: &'static str,
    pub(crate) stages: u32,
    pub(crate) span: Option<i128>,
    pub(crate) events: &'static [Event],
    pub(crate) matches: &'static [Found],
}

/// An example: what it shows, its stages and its span, and its events with the matches by them.
macro_rules! example {
    ($shows:expr, $stages:expr, $span:expr; $events:expr => $matches:expr) => {
        $crate::tests::lookback::Example {
            shows: $shows,
            stages: $stages,
            span: $span,
            events: $events,
            matches: $matches,
        }
    };
}

pub(crate) use example;

/// Whether the look-back finds the matches of an example by its events.
pub(crate) fn finds(alloc: Global, example: &Example) -> bool {
    let Some(items) = items_of(alloc, example.events) else {
        return false;
    };
    match look_back(alloc, example.stages, example.span, &items) {
        Some(found) => are_matches(alloc, found.items(), example.matches),
        None => false,
    }
}

/// Examples that a part plays, too.
pub(crate) const REFERENCE: Example = example!("the reference's example", 3, None;
    &[
        fits!(1, 1, ROOT, 1),
        fits!(2, 2, ROOT, 1),
        fits!(3, 3, ELKBEE, 2),
        fits!(4, 4, ROOT, 2),
        fits!(5, 5, ROOT, 2),
        fits!(6, 6, ELKBEE, 1),
        fits!(7, 7, ROOT, 1),
        fits!(8, 8, ELKBEE, 2),
        fits!(9, 9, ROOT, 4),
        fits!(10, 10, ELKBEE, 4),
        fits!(11, 11, ROOT, 4),
    ] => &[found!(ROOT, &[2, 4, 9]), found!(ELKBEE, &[6, 8, 10])]);

pub(crate) const UNTIL_BETWEEN: Example = example!("an until event between two stages", 2, None;
    &[fits!(1, 1, EMPTY, 1), ends!(2, 2, EMPTY, 0), fits!(3, 3, EMPTY, 2)] => &[]);

pub(crate) const WITHIN_SPAN: Example = example!("maxspan is inclusive", 2, Some(10 * SECOND);
    &[fits!(1, 0, EMPTY, 1), fits!(2, 10 * SECOND, EMPTY, 2)] => &[found!(EMPTY, &[1, 2])]);

pub(crate) const BEYOND_SPAN: Example =
    example!("a nanosecond more than maxspan", 2, Some(10 * SECOND);
        &[fits!(1, 0, EMPTY, 1), fits!(2, 10 * SECOND + 1, EMPTY, 2)] => &[]);

pub(crate) const TWO_STAGES: Example = example!("an event may stand on two stages", 2, None;
    &[fits!(1, 1, EMPTY, 3), fits!(2, 2, EMPTY, 3), fits!(3, 3, EMPTY, 3)]
        => &[found!(EMPTY, &[1, 2]), found!(EMPTY, &[2, 3])]);

static EXAMPLES: &[Example] = &[
    REFERENCE,
    example!("a stage that runs", 4, None;
        &[
            fits!(1, 1, EMPTY, 7), fits!(2, 2, EMPTY, 7), fits!(3, 3, EMPTY, 7), fits!(4, 4, EMPTY, 7),
            fits!(5, 5, EMPTY, 8),
        ] => &[found!(EMPTY, &[2, 3, 4, 5])]),
    UNTIL_BETWEEN,
    example!("an until event behind the match", 2, None;
        &[fits!(1, 1, EMPTY, 1), fits!(2, 2, EMPTY, 2), ends!(3, 3, EMPTY, 0)]
            => &[found!(EMPTY, &[1, 2])]),
    example!("an event that fits the last stage and until", 2, None;
        &[fits!(1, 1, EMPTY, 1), ends!(2, 2, EMPTY, 2)] => &[]),
    WITHIN_SPAN,
    BEYOND_SPAN,
    example!("a key field that may be missing gives the key null", 2, None;
        &[fits!(1, 1, NULL, 1), fits!(2, 2, NULL, 2)] => &[found!(NULL, &[1, 2])]),
    example!("a key field that may not be missing gives no key", 2, None;
        &[fits!(1, 1, EMPTY, 0), fits!(2, 2, EMPTY, 0)] => &[]),
    example!("two items may take the key from two fields", 2, None;
        &[fits!(1, 1, SEVEN, 1), fits!(2, 2, SEVEN, 2)] => &[found!(SEVEN, &[1, 2])]),
    TWO_STAGES,
];

/// What the first example shows whose events don't have its matches.
fn wrong_example(alloc: Global) -> Option<&'static str> {
    for example in EXAMPLES {
        if !finds(alloc, example) {
            return Some(example.shows);
        }
    }
    None
}

#[test]
fn the_look_back_finds_the_matches(rt: HostRuntime) {
    assert_eq!(rt; wrong_example(rt.alloc()), None);
}
