//! Lines of shards: blank, rejected and late ones, forms of times, and the pipes behind a search.
use crate::tests::row::{Row, Told, Words, found, rejected};
use crate::tests::run::check;
use crate::tests::sequences::{ELEVEN, REFERENCE, REFERENCE_LISTS};
use crate::tests::text::Piece::{Bytes, Events, Lines, Times};
use crate::tests::text::Pieces;

/// How lines are split, and which are left out.
static SPLITS: &[Row] = &[
    found!(
        "blank lines count, and the last line needs no line feed",
        "sequence [process where true] [file where true]",
        &[Bytes(
            b"\n \t\r\n{\"@timestamp\":1,\"event\":{\"category\":\"process\"}}\n\r\n{\"@timestamp\":2,\"event\":{\"category\":\"file\"}}",
        )],
        &["1 [] 0:3 0:5"],
        told: Told::Lines(&["shard 0: lines 5 accepted 2 late 0 rejected 0"]),
    ),
    found!(
        "deep nesting, a byte that is no text, and ends of lines of every kind",
        "any where true",
        &[
            Bytes(b"{\"@timestamp\":1,\"a\":"),
            Times("[", 200),
            Times("]", 200),
            Bytes(b"}\n\xff\n"),
            Bytes(b"{\"@timestamp\":2,\"event\":{\"category\":\"a\"}}\r\n"),
            Bytes(b"{\"@timestamp\":3,\"event\":{\"category\":\"a\"}}"),
        ],
        &["1 [] 0:3", "2 [] 0:4"],
        told: Told::Lines(&["shard 0: lines 4 accepted 2 late 0 rejected 2 first 1 NotJson"]),
    ),
    found!(
        "the first rejected line is told, also behind accepted ones",
        "any where true",
        &[Lines(&[r#"{"@timestamp":1}"#, "", "[1]", "x", "{}"])],
        &["1 [] 0:1"],
        told: Told::Lines(&["shard 0: lines 5 accepted 1 late 0 rejected 3 first 3 NotObject"]),
    ),
];

/// Lines of about 1,048,576 bytes, which is the longest that a line may be.
static LONG_LINES: &[Row] = &[
    found!(
        "rejected lines are left out",
        "any where process.pid == null",
        &[
            Bytes(b"{\"@timestamp\":1,\"event\":{\"cat\n"),
            Times("x", 1_048_577),
            Bytes(b"\n"),
            Lines(&[
                r#"{"@timestamp":2,"process.pid":1.5}"#,
                r#"{"@timestamp":3,"other":1.5}"#,
            ]),
        ],
        &["1 [] 0:4"],
        piece: 65_536,
        told: Told::Lines(&["shard 0: lines 4 accepted 1 late 0 rejected 3 first 1 NotJson"]),
    ),
    found!(
        "the longest line",
        "any where true",
        &[
            Bytes(b"{\"@timestamp\":1}"),
            Times(" ", 1_048_560),
            Bytes(b"\n"),
            Lines(&[r#"{"@timestamp":2}"#]),
        ],
        &["1 [] 0:1", "2 [] 0:2"],
        piece: 65_536,
    ),
    found!(
        "a line of one byte more",
        "any where true",
        &[
            Bytes(b"{\"@timestamp\":1}"),
            Times(" ", 1_048_561),
            Bytes(b"\n"),
            Lines(&[r#"{"@timestamp":2}"#]),
        ],
        &["1 [] 0:2"],
        piece: 65_536,
        told: Told::Lines(&["shard 0: lines 2 accepted 1 late 0 rejected 1 first 1 Long"]),
    ),
    found!(
        "a blank line may be longer",
        "any where true",
        &[Times(" ", 1_048_577), Lines(&["", r#"{"@timestamp":2}"#])],
        &["1 [] 0:2"],
        piece: 65_536,
        told: Told::Lines(&["shard 0: lines 2 accepted 1 late 0 rejected 0"]),
    ),
];

/// Why a line is rejected.
static REASONS: &[Row] = &[
    rejected!(
        "an object that isn't closed",
        &[Bytes(b"{\"@timestamp\":1,")],
        "NotJson"
    ),
    rejected!(
        "a line that isn't UTF-8",
        &[Bytes(b"{\"@timestamp\":1,\"a\":\"fil\xff\"}\n")],
        "NotJson",
    ),
    rejected!("a list", &[Lines(&["[1]"])], "NotObject"),
    rejected!("no time", &[Lines(&[r#"{"timestamp":1}"#])], "NoTime"),
    rejected!(
        "null as the time",
        &[Lines(&[r#"{"@timestamp":null}"#])],
        "NoTime"
    ),
    rejected!(
        "two times",
        &[Lines(&[r#"{"@timestamp":[1,2]}"#])],
        "BadTime"
    ),
    rejected!(
        "a time that is none, and a value that is none",
        &[Lines(&[r#"{"@timestamp":"soon","process.pid":"x"}"#])],
        "BadTime",
    ),
    rejected!(
        "a text as a number",
        &[Lines(&[r#"{"@timestamp":1,"process.pid":"x"}"#])],
        "Kind"
    ),
    rejected!(
        "a fraction as a number",
        &[Lines(&[r#"{"@timestamp":1,"process":{"pid":1.5}}"#])],
        "Fraction",
    ),
    rejected!(
        "a number that is too great",
        &[Lines(&[r#"{"@timestamp":1,"process.pid":9223372036854775808}"#])],
        "Range",
    ),
    rejected!(
        "a tiebreaker is read before the fields",
        &[Lines(&[r#"{"@timestamp":1,"process.pid":"x","event.sequence":0.5}"#])],
        "Fraction",
        words: Words::Find("--tiebreaker event.sequence"),
    ),
    found!(
        "times that are none",
        "any where true",
        &[Lines(&[
            r#"{"@timestamp":1.0}"#,
            r#"{"@timestamp":-0}"#,
            r#"{"@timestamp":1e3}"#,
            r#"{"@timestamp":9223372036854775808}"#,
            r#"{"@timestamp":-9223372036854775809}"#,
            r#"{"@timestamp":true}"#,
            r#"{"@timestamp":"1"}"#,
            r#"{"@timestamp":"2024-02-30"}"#,
            r#"{"@timestamp":"2024-05-01T00:00:00+99:00"}"#,
        ])],
        &[],
        told: Told::Lines(&["shard 0: lines 9 accepted 0 late 0 rejected 9 first 1 BadTime"]),
    ),
];

/// The forms of one moment, and a nanosecond before it.
const MOMENTS: Pieces = &[Lines(&[
    r#"{"@timestamp":"2024-05-01T00:00:00Z"}"#,
    r#"{"@timestamp":"2024-05-01"}"#,
    r#"{"@timestamp":1714521600000}"#,
    r#"{"@timestamp":"2024-05-01T02:00:00+02:00"}"#,
    r#"{"@timestamp":"2024-05-01T00:00:00"}"#,
    r#"{"@timestamp":"2024-04-30T23:59:59.999999999Z"}"#,
    r#"{"@timestamp":[["2024-05-01T00:00:00.000Z"]]}"#,
])];

/// Events of which the second may be late.
const LATE: Pieces = &[Events("10000 a, 3000 a, 6000 a")];

/// Forms of times, and late lines.
static TIMES: &[Row] = &[
    found!(
        "forms of one moment",
        "any where true",
        MOMENTS,
        &[
            "1 [] 0:6", "2 [] 0:1", "3 [] 0:2", "4 [] 0:3", "5 [] 0:4", "6 [] 0:5", "7 [] 0:7"
        ],
    ),
    found!(
        "an event is more than the slack behind a greater one before it",
        "any where true",
        LATE,
        &["1 [] 0:3", "2 [] 0:1"],
        words: Words::Find("--slack 5s --batch 1"),
        told: Told::Lines(&["shard 0: lines 3 accepted 2 late 1 rejected 0"]),
    ),
    found!(
        "an event is just within the slack",
        "any where true",
        &[Events("10000 a, 5000 a, 6000 a")],
        &["1 [] 0:2", "2 [] 0:3", "3 [] 0:1"],
        words: Words::Find("--slack 5s --batch 1"),
    ),
    found!(
        "hands change no byte of it",
        "any where true",
        LATE,
        &["1 [] 0:3", "2 [] 0:1"],
        words: Words::Find("--slack 5s --batch 3 --hands 4"),
        told: Told::Lines(&["shard 0: lines 3 accepted 2 late 1 rejected 0"]),
    ),
    found!(
        "without a slack nothing is late",
        "any where true",
        LATE,
        &["1 [] 0:2", "2 [] 0:3", "3 [] 0:1"],
        words: Words::Find("--batch 1"),
    ),
    found!(
        "no slack at all, and equal times",
        "any where true",
        &[Events("1 a, 1 a, 0 a, 2 a")],
        &["1 [] 0:1", "2 [] 0:2", "3 [] 0:4"],
        words: Words::Find("--slack=0ms"),
        told: Told::Lines(&["shard 0: lines 4 accepted 3 late 1 rejected 0"]),
    ),
    found!(
        "rejected lines make no line late",
        "any where process.pid == null",
        &[Lines(&[
            r#"{"@timestamp":1000}"#,
            r#"{"@timestamp":9000,"process.pid":"x"}"#,
            r#"{"@timestamp":0}"#,
            r#"{"@timestamp":500}"#,
            r#"{"@timestamp":1}"#,
        ])],
        &["1 [] 0:4", "2 [] 0:1"],
        words: Words::Find("--slack 500ms --batch 2"),
        told: Told::Lines(&["shard 0: lines 5 accepted 2 late 2 rejected 1 first 2 Kind"]),
    ),
    found!(
        "slack in hours",
        "any where true",
        &[Events("3600000 a, 0 a, 3600001 a, 0 a")],
        &["1 [] 0:2", "2 [] 0:1", "3 [] 0:3"],
        words: Words::Find("--slack 1h"),
        told: Told::Lines(&["shard 0: lines 4 accepted 3 late 1 rejected 0"]),
    ),
];

/// Five events.
const FIVE: Pieces = &[Events("1 a, 2 a, 3 a, 4 a, 5 a")];

/// What pipes let through, and what changes no byte of it.
static PIPES: &[Row] = &[
    found!(
        "the first of the last",
        "any where true | tail 2 | head 1",
        FIVE,
        &["4 [] 0:4"]
    ),
    found!(
        "the last of the first",
        "any where true | head 3 | tail 1",
        FIVE,
        &["3 [] 0:3"]
    ),
    found!("none of the first", "any where true | head 0", FIVE, &[]),
    found!("none of the last", "any where true | tail 0", FIVE, &[]),
    found!(
        "the first two",
        "any where true | head 2",
        FIVE,
        &["1 [] 0:1", "2 [] 0:2"]
    ),
    found!(
        "more than there are",
        "any where true | tail 1000000 | head 1000000",
        FIVE,
        &["1 [] 0:1", "2 [] 0:2", "3 [] 0:3", "4 [] 0:4", "5 [] 0:5"],
    ),
    found!(
        "the last of the reference's example",
        REFERENCE,
        ELEVEN,
        &[r#"2 ["elkbee"] 0:6 0:8 0:10"#],
        behind: &[Bytes(b" | tail 1")],
    ),
    found!("one line a time", REFERENCE, ELEVEN, REFERENCE_LISTS, words: Words::Find("--batch 1")),
    found!(
        "seven lines a time, and hands",
        REFERENCE,
        ELEVEN,
        REFERENCE_LISTS,
        words: Words::Find("--batch=7 --hands 5"),
    ),
    found!("takes of one byte", REFERENCE, ELEVEN, REFERENCE_LISTS, piece: 1),
    found!(
        "a slack where no line is late",
        REFERENCE,
        ELEVEN,
        REFERENCE_LISTS,
        words: Words::Find("--slack 0ms --batch 2 --hands 3"),
    ),
];

#[test]
fn lines_are_read(rt: HostRuntime) {
    check(&rt, rt.alloc(), &[SPLITS, REASONS, TIMES]);
}

#[test]
fn long_lines_are_read(rt: HostRuntime) {
    check(&rt, rt.alloc(), &[LONG_LINES]);
}

#[test]
fn pipes_let_matches_through(rt: HostRuntime) {
    check(&rt, rt.alloc(), &[PIPES]);
}
