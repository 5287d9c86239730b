//! Sequences: their stages, spans, ends and keys.
use crate::tests::row::{Row, found};
use crate::tests::run::check;
use crate::tests::text::Piece::{Bytes, Events, Lines, Starts};
use crate::tests::text::Pieces;

/// A process event, then a file event.
pub(crate) const PAIR: &str = "sequence [process where true] [file where true]";

/// Events of which [`PAIR`] finds one pair, those of lines 2 and 3.
pub(crate) const FOUR: Pieces = &[Events("1 process, 2 process, 3 file, 4 file")];

/// Three events in a row.
const THREE: &str = "sequence [a where true] [b where true] [c where true]";

/// The query of the reference's example of pending sequences.
pub(crate) const REFERENCE: &str =
    r#"sequence by user.name [process where process.name == "attrib"] [process where process.name == "bash"] [process where process.name == "cat"]"#;

/// The events of that example.
pub(crate) const ELEVEN: Pieces = &[Starts(
    "1000 root attrib, 2000 root attrib, 3000 elkbee bash, 4000 root bash, 5000 root bash, 6000 elkbee attrib, 7000 root attrib, 8000 elkbee bash, 9000 root cat, 10000 elkbee cat, 11000 root cat",
)];

/// The lines that it lists.
pub(crate) const REFERENCE_LISTS: &[&str] = &[
    r#"1 ["root"] 0:2 0:4 0:9"#,
    r#"2 ["elkbee"] 0:6 0:8 0:10"#,
];

/// Which events a sequence takes.
static STAGES: &[Row] = &[
    found!(
        "the reference's example",
        REFERENCE,
        ELEVEN,
        REFERENCE_LISTS
    ),
    found!("no sequence in an empty shard", REFERENCE, &[], &[]),
    found!(
        "the latest first event is taken, and only once",
        PAIR,
        FOUR,
        &["1 [] 0:2 0:3"]
    ),
    found!(
        "events are taken by time and not by line",
        PAIR,
        &[Events("5 file, 3 process")],
        &["1 [] 0:2 0:1"],
    ),
    found!(
        "of equal times the lesser line comes first",
        PAIR,
        &[Events("7 process, 7 file, 7 file")],
        &["1 [] 0:1 0:2"],
    ),
    found!(
        "times before the epoch come first",
        PAIR,
        &[Events("0 file, -1 process, -9223372036854775808 file, 9223372036854775807 process")],
        &["1 [] 0:2 0:1"],
    ),
    found!(
        "a category that no item asks for is passed over",
        PAIR,
        &[Events("1 process, 2 network, 3 file")],
        &["1 [] 0:1 0:3"],
    ),
    found!(
        "escapes in a category are characters",
        PAIR,
        &[Events(r"1 pro\u0063ess, 2 file")],
        &["1 [] 0:1 0:2"],
    ),
    found!(
        "a sequence that moved on leaves its stage",
        THREE,
        &[Events("1 a, 2 b, 3 b, 4 c, 5 c")],
        &["1 [] 0:1 0:2 0:4"],
    ),
    found!(
        "a later sequence takes the place of an older one",
        THREE,
        &[Events("1 a, 2 b, 3 a, 4 b, 5 c, 6 c")],
        &["1 [] 0:3 0:4 0:5"],
    ),
    found!(
        "one event stands on two stages",
        r#"sequence [any where process.name : "a*"] [any where process.name : "*b"]"#,
        &[Lines(&[
            r#"{"@timestamp":1,"process.name":"AB"}"#,
            r#"{"@timestamp":2,"process.name":"AB"}"#,
            r#"{"@timestamp":3,"process.name":"AB"}"#,
        ])],
        &["1 [] 0:1 0:2", "2 [] 0:2 0:3"],
    ),
    found!(
        "a category of two words stands on both stages",
        "sequence [a where true] [b where true]",
        &[Lines(&[
            r#"{"@timestamp":1,"event":{"category":["a","b"]}}"#,
            r#"{"@timestamp":2,"event.category":["b","a"]}"#,
        ])],
        &["1 [] 0:1 0:2"],
    ),
    found!(
        "the same item several times in a row",
        "sequence [process where true] with runs=3 [file where true]",
        &[Events("1 process, 2 process, 3 process, 4 process, 5 file")],
        &["1 [] 0:2 0:3 0:4 0:5"],
    ),
    found!(
        "a sequence of one item with runs",
        "sequence [any where true] with runs=3",
        &[Events("1 a, 2 a, 3 a, 4 a, 5 a")],
        &["1 [] 0:1 0:2 0:3", "2 [] 0:2 0:3 0:4", "3 [] 0:3 0:4 0:5"],
    ),
    found!(
        "other events between runs are passed over",
        "sequence [a where true] with runs=2 [b where true]",
        &[Events("1 a, 2 b, 3 a, 4 b")],
        &["1 [] 0:1 0:3 0:4"],
    ),
    found!(
        "nine items",
        "sequence [a where true] [b where true] [c where true] [d where true] [e where true] [f where true] [g where true] [h where true] [i where true]",
        &[Events("1 a, 2 b, 3 c, 4 d, 5 e, 6 f, 7 g, 8 h, 9 i")],
        &["1 [] 0:1 0:2 0:3 0:4 0:5 0:6 0:7 0:8 0:9"],
    ),
];

/// A process event, then a file event, unless a network event comes.
const UNTIL: &str = "sequence [process where true] [file where true] until [network where true]";

/// What ends sequences.
static ENDS: &[Row] = &[
    found!(
        "an event that ends sequences comes between",
        UNTIL,
        &[Events("1 process, 2 network, 3 file")],
        &[],
    ),
    found!(
        "it comes too late",
        UNTIL,
        &[Events("1 process, 2 file, 3 network")],
        &["1 [] 0:1 0:2"],
    ),
    found!(
        "it is the event that would complete the sequence",
        UNTIL,
        &[Lines(&[
            r#"{"@timestamp":1,"event":{"category":"process"}}"#,
            r#"{"@timestamp":2,"event":{"category":["file","network"]}}"#,
        ])],
        &[],
    ),
    found!(
        "it begins a sequence itself",
        "sequence [process where true] [file where true] until [process where true]",
        &[Events("1 process, 2 file")],
        &["1 [] 0:1 0:2"],
    ),
    found!(
        "it ends the sequences at every stage",
        "sequence [a where true] [b where true] [c where true] until [x where true]",
        &[Events("1 a, 2 b, 3 a, 4 x, 5 b, 6 c")],
        &[],
    ),
    found!(
        "it ends the sequences of its own key alone",
        r#"sequence by user.name [process where process.name == "a"] [process where process.name == "b"] until [process where process.name == "x"]"#,
        &[Starts("1 ann a, 2 bob a, 3 ann x, 4 ann b, 5 bob b")],
        &[r#"1 ["bob"] 0:2 0:5"#],
    ),
];

/// Two events within ten seconds.
const TEN_SECONDS: &str = "sequence with maxspan=10s [process where true] [file where true]";

/// The greatest time from the first event to the last.
static SPANS: &[Row] = &[
    found!(
        "just within the span",
        TEN_SECONDS,
        &[Events(r#""2024-05-01T00:00:00Z" process, "2024-05-01T00:00:10Z" file"#)],
        &["1 [] 0:1 0:2"],
    ),
    found!(
        "a nanosecond beyond it",
        TEN_SECONDS,
        &[Events(r#""2024-05-01T00:00:00Z" process, "2024-05-01T00:00:10.000000001Z" file"#)],
        &[],
    ),
    found!(
        "the span is measured from the first event",
        "sequence with maxspan=10s [a where true] [b where true] [c where true]",
        &[Events("0 a, 5000 b, 10000 c, 20000 a, 25000 b, 30001 c, 40000 a, 45000 b, 49999 c")],
        &["1 [] 0:1 0:2 0:3", "2 [] 0:7 0:8 0:9"],
    ),
    found!(
        "the span of a later sequence is its own",
        "sequence with maxspan=10s [a where true] [b where true] [c where true]",
        &[Events("0 a, 1000 a, 5000 b, 10500 c")],
        &["1 [] 0:2 0:3 0:4"],
    ),
    found!(
        "milliseconds",
        "sequence with maxspan=7ms [process where true] [file where true]",
        &[Events("0 process, 7 file, 10 process, 18 file")],
        &["1 [] 0:1 0:2"],
    ),
    found!(
        "minutes",
        "sequence with maxspan=1m [process where true] [file where true]",
        &[Events("0 process, 60000 file, 100000 process, 160001 file")],
        &["1 [] 0:1 0:2"],
    ),
    found!(
        "hours",
        "sequence with maxspan=2h [process where true] [file where true]",
        &[Events("0 process, 7200000 file, 10000000 process, 17200001 file")],
        &["1 [] 0:1 0:2"],
    ),
    found!(
        "days",
        "sequence with maxspan=1d [process where true] [file where true]",
        &[Events("0 process, 86400000 file, 100000000 process, 186400001 file")],
        &["1 [] 0:1 0:2"],
    ),
];

/// A sequence as users write it.
const FULL: &str =
    r#"sequence by host.id, user.name with maxspan=1m [process where event.type == "start" and process.name : "cmd.exe" and process.args_count > 1] [network where cidrMatch(destination.ip, "10.0.0.0/8") and destination.port in (445, 3389)] until [process where event.type == "end"]"#;

/// A process event as agents write it.
const AGENT_LINE: &str =
    r#"{"@timestamp":"2024-05-01T08:00:00.000Z","ecs":{"version":"8.0.0"},"host":{"id":"h1","ip":["10.1.2.3","fe80::1"]},"user":{"name":"ann"},"event":{"category":["process"],"type":["start"]},"process":{"name":"CMD.EXE","pid":412,"args_count":3},"load":0.25}"#;

/// Join keys.
static KEYS: &[Row] = &[
    found!(
        "an optional key that isn't there is null",
        "sequence by ?user.id [process where true] [file where true]",
        &[Events("1 process, 2 file")],
        &["1 [null] 0:1 0:2"],
    ),
    found!(
        "any other key that isn't there joins nothing",
        "sequence by user.id [process where true] [file where true]",
        &[Events("1 process, 2 file")],
        &[],
    ),
    found!(
        "keys of items, of which one is written as a text",
        "sequence [process where true] by process.pid [file where true] by file.pid",
        &[Lines(&[
            r#"{"@timestamp":1,"event.category":"process","process.pid":7}"#,
            r#"{"@timestamp":2,"event.category":"file","file.pid":"7"}"#,
        ])],
        &["1 [7] 0:1 0:2"],
    ),
    found!(
        "the keys of the sequence come before those of its items",
        "sequence by host.id [process where true] by user.name [file where true] by process.name",
        &[Lines(&[
            r#"{"@timestamp":1,"event.category":"process","host.id":"h","user.name":"ann"}"#,
            r#"{"@timestamp":2,"event.category":"file","host.id":"h","process.name":"ann"}"#,
        ])],
        &[r#"1 ["h","ann"] 0:1 0:2"#],
    ),
    found!(
        "texts are joined exactly",
        "sequence by user.name [process where true] [process where true]",
        &[Starts("1 ann a, 2 Ann a, 3 ann b")],
        &[r#"1 ["ann"] 0:1 0:3"#],
    ),
    found!(
        "a field with two values is no key",
        "sequence by user.name [any where true] [any where true]",
        &[Lines(&[
            r#"{"@timestamp":1,"user.name":["ann","bob"]}"#,
            r#"{"@timestamp":2,"user.name":["ann","bob"]}"#,
        ])],
        &[],
    ),
    found!(
        "keys of every kind are printed as JSON",
        "sequence by b, n, a, t, ?x [process where true] [file where true]",
        &[Lines(&[
            r#"{"@timestamp":1,"event.category":"process","b":true,"n":-7,"a":"10.0.0.1","t":"a\"b\\\u00e9\n"}"#,
            r#"{"@timestamp":2,"event.category":"file","b":"true","n":"-7","a":"10.0.0.1","t":"a\"b\\é\u000a"}"#,
        ])],
        &[r#"1 [true,-7,"10.0.0.1","a\"b\\é\n",null] 0:1 0:2"#],
        fields: &[Bytes(br#"{"b":"boolean","n":"long","a":"ip","t":"keyword"}"#)],
    ),
    found!(
        "no character of a key steers a terminal or turns the line",
        "sequence by user.name [process where true] [file where true]",
        &[Lines(&[
            "{\"@timestamp\":1,\"event.category\":\"process\",\"user.name\":\"exe\u{202e}gpj\u{85}\u{2028}\u{7f}\"}",
            r#"{"@timestamp":2,"event.category":"file","user.name":"exe\u202Egpj\u0085\u2028\u007f"}"#,
        ])],
        &[r#"1 ["exe\u202egpj\u0085\u2028\u007f"] 0:1 0:2"#],
    ),
    found!(
        "a sequence as users write it",
        FULL,
        &[Lines(&[
            AGENT_LINE,
            r#"{"@timestamp":"2024-05-01T08:00:30.500Z","host":{"id":"h1"},"user":{"name":"ann"},"event":{"category":["network"],"type":["connection"]},"destination":{"ip":"10.9.8.7","port":445}}"#,
        ])],
        &[r#"1 ["h1","ann"] 0:1 0:2"#],
    ),
    found!(
        "an address of version 6 is read as null, and its line is accepted",
        FULL,
        &[Lines(&[
            AGENT_LINE,
            r#"{"@timestamp":"2024-05-01T08:00:30.500Z","host":{"id":"h1"},"user":{"name":"ann"},"event":{"category":["network"],"type":["connection"]},"destination":{"ip":"fe80::1","port":445}}"#,
        ])],
        &[],
    ),
    found!(
        "the span holds for each key apart",
        "sequence by user.name with maxspan=1s [process where true] with runs=2",
        &[Starts("0 ann a, 500 bob a, 1000 ann a, 1501 bob a")],
        &[r#"1 ["ann"] 0:1 0:3"#],
    ),
];

#[test]
fn sequences_are_found(rt: HostRuntime) {
    check(&rt, rt.alloc(), &[STAGES, ENDS, SPANS, KEYS]);
}
