//! Searches in several shards: their order, tiebreakers, places, and how many shards and stages there may be.
use crate::tests::row::{Row, Told, Words, found, refused};
use crate::tests::run::check;
use crate::tests::sequences::{ELEVEN, PAIR, REFERENCE};
use crate::tests::text::Piece::{Bytes, Each, Events, Lines, OneOfEach, Starts};
use crate::tests::text::Pieces;

/// Two events of one time, of which the second is numbered first.
const SECOND: Pieces = &[Lines(&[r#"{"@timestamp":1000,"event.sequence":2}"#])];

/// The event that is numbered first.
const FIRST: Pieces = &[Lines(&[r#"{"@timestamp":1000,"event.sequence":1}"#])];

/// The order of events of several shards.
static ORDERS: &[Row] = &[
    found!(
        "of equal times the lesser tiebreaker comes first",
        "any where true",
        SECOND,
        &["1 [] 1:1", "2 [] 0:1"],
        more: &[FIRST],
        words: Words::Find("--tiebreaker event.sequence"),
    ),
    found!(
        "without a tiebreaker the lesser shard does",
        "any where true",
        SECOND,
        &["1 [] 0:1", "2 [] 1:1"],
        more: &[FIRST],
    ),
    found!(
        "an event without a tiebreaker comes last",
        "any where true",
        &[Lines(&[r#"{"@timestamp":1000}"#])],
        &["1 [] 1:1", "2 [] 0:1"],
        more: &[FIRST],
        words: Words::Find("--tiebreaker event.sequence"),
    ),
    found!(
        "a tiebreaker is a number, whatever the mapping says",
        "any where true",
        &[Lines(&[r#"{"@timestamp":1000,"event":{"sequence":"10"}}"#])],
        &["1 [] 1:1", "2 [] 0:1"],
        more: &[&[Lines(&[r#"{"@timestamp":1000,"event":{"sequence":9}}"#])]],
        fields: &[Bytes(br#"{"event.sequence":"keyword"}"#)],
        words: Words::Find("--tiebreaker=event.sequence"),
    ),
    found!(
        "a sequence goes from shard to shard",
        PAIR,
        &[Events("2 file, 3 process")],
        &["1 [] 1:1 0:1", "2 [] 0:2 2:1"],
        more: &[&[Events("1 process")], &[Events("4 file")]],
    ),
    found!(
        "an empty shard among others",
        "any where true",
        &[],
        &["1 [] 2:1", "2 [] 1:1"],
        more: &[&[Events("2 a")], &[Events("1 a")]],
    ),
    found!(
        "each shard has its own late lines",
        "any where true",
        &[Events("10000 a, 3000 a, 6000 a")],
        &["1 [] 1:1", "2 [] 1:2", "3 [] 0:3", "4 [] 0:1"],
        more: &[&[Events("1 a, 2 a")]],
        words: Words::Find("--slack 5s --batch 1"),
        told: Told::Lines(&[
            "shard 0: lines 3 accepted 2 late 1 rejected 0",
            "shard 1: lines 2 accepted 2 late 0 rejected 0",
        ]),
    ),
    found!(
        "each shard has its own rejected lines",
        "any where true",
        &[Lines(&["x"])],
        &["1 [] 1:1"],
        more: &[&[Events("1 a")], &[Lines(&["", "[]", "y"])]],
        told: Told::Lines(&[
            "shard 0: lines 1 accepted 0 late 0 rejected 1 first 1 NotJson",
            "shard 1: lines 1 accepted 1 late 0 rejected 0",
            "shard 2: lines 3 accepted 0 late 0 rejected 2 first 2 NotObject",
        ]),
    ),
    found!(
        "one file may be searched twice",
        "any where true",
        &[Events("1 a, 2 a")],
        &["1 [] 0:1", "2 [] 1:1", "3 [] 0:2", "4 [] 1:2"],
        words: Words::Line("find --query q --fields f s0 s0"),
        told: Told::Lines(&[
            "shard 0: lines 2 accepted 2 late 0 rejected 0",
            "shard 1: lines 2 accepted 2 late 0 rejected 0",
        ]),
    ),
    found!(
        "any file may be searched, that of the query too",
        "any where true",
        &[],
        &[],
        words: Words::Line("find --query q --fields f q"),
        told: Told::Lines(&["shard 0: lines 1 accepted 0 late 0 rejected 1 first 1 NotJson"]),
    ),
];

/// Events with the places of their lines.
static PLACES: &[Row] = &[
    found!(
        "places in the reference's example",
        REFERENCE,
        ELEVEN,
        &[r#"1 ["root"] 0:2@102 0:4@306 0:9@814"#, r#"2 ["elkbee"] 0:6@506 0:8@712 0:10@913"#],
        words: Words::Find("--places"),
    ),
    found!(
        "places behind blank lines and in several shards",
        "any where true",
        &[Bytes(b"\n \r\n{\"@timestamp\":1}\r\n{\"@timestamp\":3}")],
        &["1 [] 0:3@4", "2 [] 1:1@0", "3 [] 0:4@22"],
        more: &[&[Lines(&[r#"{"@timestamp":2}"#])]],
        words: Words::Find("--places --batch 1"),
        told: Told::Lines(&[
            "shard 0: lines 4 accepted 2 late 0 rejected 0",
            "shard 1: lines 1 accepted 1 late 0 rejected 0",
        ]),
    ),
    found!(
        "a place counts bytes and not characters",
        "any where true | tail 1",
        &[Lines(&[r#"{"@timestamp":1,"é":"😀"}"#, r#"{"@timestamp":2}"#])],
        &["2 [] 0:2@29"],
        words: Words::Find("--places --slack 1d"),
    ),
];

/// The greatest numbers of stages and of keys.
static WIDTHS: &[Row] = &[
    found!(
        "256 stages",
        "sequence [a where true] with runs=100 [a where true] with runs=100 [a where true] with runs=56",
        &[Each("{\"@timestamp\":#,\"event\":{\"category\":\"a\"}}\n", 256)],
        &[],
        rest: &[Bytes(b"1 []"), Each(" 0:#", 256), Bytes(b"\n")],
    ),
    refused!(
        "257 stages",
        "sequence [a where true] with runs=100 [a where true] with runs=100 [a where true] with runs=57",
        "check: ManyStages 257",
    ),
    found!(
        "eight keys",
        "sequence by user.name, process.name, user.name, process.name, user.name, process.name, user.name, process.name [process where true] [process where true]",
        &[Starts("1 a b, 2 a b")],
        &[r#"1 ["a","b","a","b","a","b","a","b"] 0:1 0:2"#],
    ),
];

#[test]
fn shards_are_merged(rt: HostRuntime) {
    check(&rt, rt.alloc(), &[ORDERS, PLACES, WIDTHS]);
}

/// A search for any event in so many shards, each of one event at one time.
macro_rules! in_shards {
    ($shows:expr, $shards:expr) => {
        found!(
            $shows,
            "any where true",
            &[Events("1 a")],
            &[],
            fields: &[Bytes(b"{}")],
            copies: $shards - 1,
            rest: &[OneOfEach($shards)],
        )
    };
}

/// Up to as many shards as there may be, and one more.
static MANY: &[Row] = &[
    in_shards!("65 shards", 65),
    in_shards!("256 shards", 256),
    Row {
        status: 2,
        rest: &[],
        told: Told::Usage,
        ..in_shards!("257 shards", 257)
    },
];

#[test]
fn up_to_256_shards_are_searched(rt: HostRuntime) {
    check(&rt, rt.alloc(), &[MANY]);
}
