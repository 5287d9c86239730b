//! Queries, each with what the name of a process says to it.
use crate::logs::Event;
use eql_values::{Key, Mask, Memory, Route, Routes, Text, Value};
use std::alloc::Global;

/// Which key an event gives.
#[derive(Clone, Copy)]
pub(crate) enum Keyed {
    /// The empty key.
    Alike,
    /// Its user, and nothing where it has none.
    ByUser,
    /// Its user, or null.
    ByAnyUser,
}

/// A query, as it is written without a span and with one of 6 milliseconds.
pub(crate) struct Query {
    pub(crate) plain: &'static [u8],
    pub(crate) spanned: &'static [u8],
    pub(crate) stages: u32,
    pub(crate) keyed: Keyed,
    /// The stages that a process of each name fits, by their bits, and whether it ends sequences.
    pub(crate) says: [(u128, bool); 6],
}

/// The span of queries that have one, in nanoseconds.
pub(crate) const SPAN: i128 = 6_000_000;

pub(crate) static QUERIES: [Query; 3] = [
    Query {
        plain: br#"sequence by user.name [process where process.name in ("a", "d")] [process where process.name in ("b", "d")] [process where process.name == "c"] until [process where process.name == "e"]"#,
        spanned: br#"sequence by user.name with maxspan=6ms [process where process.name in ("a", "d")] [process where process.name in ("b", "d")] [process where process.name == "c"] until [process where process.name == "e"]"#,
        stages: 3,
        keyed: Keyed::ByUser,
        says: [
            (1, false),
            (2, false),
            (4, false),
            (3, false),
            (0, true),
            (0, false),
        ],
    },
    Query {
        plain: br#"sequence [process where process.name in ("a", "d")] with runs=2 [process where process.name in ("b", "d")]"#,
        spanned: br#"sequence with maxspan=6ms [process where process.name in ("a", "d")] with runs=2 [process where process.name in ("b", "d")]"#,
        stages: 3,
        keyed: Keyed::Alike,
        says: [
            (3, false),
            (4, false),
            (0, false),
            (7, false),
            (0, false),
            (0, false),
        ],
    },
    Query {
        plain: br#"sequence by ?user.name [any where process.name == "a"] [any where process.name in ("a", "b", "c")] until [process where process.name == "c"]"#,
        spanned: br#"sequence by ?user.name with maxspan=6ms [any where process.name == "a"] [any where process.name in ("a", "b", "c")] until [process where process.name == "c"]"#,
        stages: 2,
        keyed: Keyed::ByAnyUser,
        says: [
            (3, false),
            (2, false),
            (2, true),
            (0, false),
            (0, false),
            (0, false),
        ],
    },
];

/// The value of a user in a key.
fn user_value(alloc: Global, user: u32) -> Result<Value, Memory> {
    Ok(Value::Text(Text::of(format!(in alloc; "u{user}")?)))
}

/// The key of one value.
fn key_with(alloc: Global, value: Value) -> Result<Option<Key>, Memory> {
    let mut values = Vec::new(alloc);
    values.push(value)?;
    Ok(Some(Key::of(values)))
}

/// The key of an event by this user, where it gives one.
fn key_of(alloc: Global, keyed: Keyed, user: Option<u32>) -> Result<Option<Key>, Memory> {
    match keyed {
        Keyed::Alike => Ok(Some(Key::of(Vec::new(alloc)))),
        Keyed::ByUser => match user {
            Some(user) => key_with(alloc, user_value(alloc, user)?),
            None => Ok(None),
        },
        Keyed::ByAnyUser => match user {
            Some(user) => key_with(alloc, user_value(alloc, user)?),
            None => key_with(alloc, Value::Null),
        },
    }
}

/// What an event says to a query.
pub(crate) fn routes_of(alloc: Global, query: &Query, event: Event) -> Result<Routes, Memory> {
    let (low, until) = match query.says.get(event.name as usize) {
        Some(says) => *says,
        None => (0, false),
    };
    let mut routes = Vec::new(alloc);
    if (low != 0 || until)
        && let Some(key) = key_of(alloc, query.keyed, event.user)?
    {
        routes.push(Route {
            key,
            mask: Mask { low, high: 0 },
            until,
        })?;
    }
    Ok(Routes::of(routes))
}
