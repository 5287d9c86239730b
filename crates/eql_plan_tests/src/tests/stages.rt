//! What lines give to queries. An expected text has the timestamp in nanoseconds, the tiebreaker, the shard, the line and
//! the place, and for each key its values, its stages, and `until` where the event ends it.
use crate::tests::trial::{each_gives, line_told, plan_of};
use eql_stages::{Plan, PlanReader};
use std::alloc::Global;
use std::process::Abort;
use std::test::Fail;

/// A query, the tiebreaker field or nothing, and lines with what they give.
type Row = (
    &'static str,
    &'static str,
    &'static [(&'static str, &'static str)],
);

/// A query, its tiebreaker field where it has one, and lines with what they give.
macro_rules! row {
    ($query:expr, $tie:expr; $($line:expr => $gives:expr),+ $(,)?) => {
        ($query, $tie, &[$(($line, $gives)),+])
    };
    ($query:expr; $($line:expr => $gives:expr),+ $(,)?) => {
        row!($query, ""; $($line => $gives),+)
    };
}

/// Queries whose keys are fields that all items share.
static KEYS: &[Row] = &[
    // one key by a shared field
    row!(r#"sequence by user.name [process where process.name == "attrib"] [process where process.name == "bash"] [process where process.name == "cat"]"#;
        r#"{"@timestamp":1000,"event":{"category":"process"},"user":{"name":"root"},"process":{"name":"attrib"}}"# => "1000000000 none 3:7@0 [root] 1",
        r#"{"@timestamp":3000,"event":{"category":"process"},"user":{"name":"elkbee"},"process":{"name":"bash"}}"# => "3000000000 none 3:7@0 [elkbee] 2",
        r#"{"@timestamp":9000,"event":{"category":"process"},"user":{"name":"root"},"process":{"name":"cat"}}"# => "9000000000 none 3:7@0 [root] 3",
        // another name, another category, no user
        r#"{"@timestamp":9000,"event":{"category":"process"},"user":{"name":"root"},"process":{"name":"vi"}}"# => "9000000000 none 3:7@0",
        r#"{"@timestamp":9000,"event":{"category":"file"},"user":{"name":"root"},"process":{"name":"cat"}}"# => "9000000000 none 3:7@0",
        r#"{"@timestamp":9000,"event":{"category":"process"},"process":{"name":"cat"}}"# => "9000000000 none 3:7@0",
    ),
    // null is a key only where the field is marked
    row!("sequence by ?user.id [process where true] [file where true]";
        r#"{"@timestamp":1,"event":{"category":"process"}}"# => "1000000 none 3:7@0 [null] 1",
        r#"{"@timestamp":2,"event":{"category":"file"},"user.id":"u"}"# => "2000000 none 3:7@0 [u] 2",
    ),
    row!("sequence by user.id [process where true] [file where true]";
        r#"{"@timestamp":1,"event":{"category":"process"}}"# => "1000000 none 3:7@0",
    ),
    // a field that the mapping doesn't have
    row!("sequence by ?nowhere, host.id [process where true] [file where true]";
        r#"{"@timestamp":1,"event":{"category":"process"},"nowhere":"x","host.id":"h"}"# => "1000000 none 3:7@0 [null, h] 1",
        r#"{"@timestamp":1,"event":{"category":"process"},"nowhere":"x"}"# => "1000000 none 3:7@0",
    ),
    // a key of several kinds of values
    row!("sequence by process.pid, destination.ip, ?user.id [any where true] [file where true]";
        r#"{"@timestamp":1,"process.pid":-3,"destination.ip":"0.0.1.2","user.id":"u"}"# => "1000000 none 3:7@0 [-3, ip 258, u] 1",
    ),
];

/// Queries with key fields of their items, and of the item that ends sequences.
static KEYS_OF_ITEMS: &[Row] = &[
    // it has key fields of its own
    row!("sequence [process where true] by process.pid [file where true] by file.pid until [process where true] by file.pid";
        r#"{"@timestamp":1,"event.category":"process","process.pid":9,"file.pid":7}"# => "1000000 none 3:7@0 [7] until [9] 1",
        r#"{"@timestamp":1,"event.category":"process","process.pid":7,"file.pid":7}"# => "1000000 none 3:7@0 [7] 1 until",
        r#"{"@timestamp":1,"event.category":"process","process.pid":9}"# => "1000000 none 3:7@0 [9] 1",
    ),
    // keys of the items, which one event gives in the order of keys
    row!("sequence [process where true] by process.pid [file where true] by file.pid";
        r#"{"@timestamp":1,"event.category":"process","process.pid":7}"# => "1000000 none 3:7@0 [7] 1",
        r#"{"@timestamp":2,"event.category":"file","file.pid":"7"}"# => "2000000 none 3:7@0 [7] 2",
        r#"{"@timestamp":3,"event.category":["process","file"],"process.pid":9,"file.pid":7}"# => "3000000 none 3:7@0 [7] 2 [9] 1",
        r#"{"@timestamp":3,"event.category":["process","file"],"process.pid":-9,"file.pid":7}"# => "3000000 none 3:7@0 [-9] 1 [7] 2",
        r#"{"@timestamp":3,"event.category":["process","file"],"process.pid":7,"file.pid":7}"# => "3000000 none 3:7@0 [7] 1-2",
    ),
    // three keys of one event
    row!("sequence [any where true] by process.pid [any where true] by file.pid [any where true] by destination.port";
        r#"{"@timestamp":3,"process.pid":5,"file.pid":9,"destination.port":7}"# => "3000000 none 3:7@0 [5] 1 [7] 3 [9] 2",
        r#"{"@timestamp":3,"process.pid":9,"file.pid":5,"destination.port":9}"# => "3000000 none 3:7@0 [5] 2 [9] 1 3",
    ),
    // shared key fields come first
    row!("sequence by host.id [process where true] by process.pid [file where true] by file.pid";
        r#"{"@timestamp":1,"event.category":"process","process.pid":7,"host.id":"h"}"# => "1000000 none 3:7@0 [h, 7] 1",
    ),
    // keys are ordered by their first value that differs
    row!("sequence [any where true] by user.name, process.pid [any where true] by user.name, file.pid";
        r#"{"@timestamp":1,"user.name":"ann","process.pid":8,"file.pid":2}"# => "1000000 none 3:7@0 [ann, 2] 2 [ann, 8] 1",
    ),
];

/// Queries whose events stand for several stages.
static STAGES: &[Row] = &[
    // an item that runs stands for as many stages
    row!("sequence [process where true] with runs=3 [file where true]";
        r#"{"@timestamp":1,"event":{"category":"process"}}"# => "1000000 none 3:7@0 [] 1-3",
        r#"{"@timestamp":5,"event":{"category":"file"}}"# => "5000000 none 3:7@0 [] 4",
        r#"{"@timestamp":5,"event":{"category":["file","process"]}}"# => "5000000 none 3:7@0 [] 1-4",
        r#"{"@timestamp":5,"event":{"category":"network"}}"# => "5000000 none 3:7@0",
    ),
    // the item that ends sequences
    row!("sequence [process where true] [file where true] until [network where true]";
        r#"{"@timestamp":1,"event":{"category":"process"}}"# => "1000000 none 3:7@0 [] 1",
        r#"{"@timestamp":2,"event":{"category":"network"}}"# => "2000000 none 3:7@0 [] until",
        r#"{"@timestamp":2,"event":{"category":["file","network"]}}"# => "2000000 none 3:7@0 [] 2 until",
    ),
    // one event fits two stages
    row!(r#"sequence [any where process.name : "a*"] [any where process.name : "*b"]"#;
        r#"{"@timestamp":1,"process.name":"AB"}"# => "1000000 none 3:7@0 [] 1-2",
        r#"{"@timestamp":1,"process.name":"A"}"# => "1000000 none 3:7@0 [] 1",
    ),
    // stages in both halves of a mask
    row!("sequence [a where true] with runs=100 [b where true] with runs=100 [c where true] with runs=56";
        r#"{"@timestamp":1,"event.category":"a"}"# => "1000000 none 3:7@0 [] 1-100",
        r#"{"@timestamp":1,"event.category":"b"}"# => "1000000 none 3:7@0 [] 101-200",
        r#"{"@timestamp":1,"event.category":"c"}"# => "1000000 none 3:7@0 [] 201-256",
        r#"{"@timestamp":1,"event.category":["a","c"]}"# => "1000000 none 3:7@0 [] 1-100 201-256",
        r#"{"@timestamp":1,"event.category":["a","b","c"]}"# => "1000000 none 3:7@0 [] 1-256",
    ),
    // stages 1, 128, 129 and 256
    row!("sequence [a where true] [x where true] with runs=100 [x where true] with runs=26 [b where true] [c where true] [x where true] with runs=100 [x where true] with runs=26 [d where true]";
        r#"{"@timestamp":1,"event.category":"a"}"# => "1000000 none 3:7@0 [] 1",
        r#"{"@timestamp":1,"event.category":"b"}"# => "1000000 none 3:7@0 [] 128",
        r#"{"@timestamp":1,"event.category":"c"}"# => "1000000 none 3:7@0 [] 129",
        r#"{"@timestamp":1,"event.category":"d"}"# => "1000000 none 3:7@0 [] 256",
        r#"{"@timestamp":1,"event.category":["a","b","c","d"]}"# => "1000000 none 3:7@0 [] 1 128-129 256",
        r#"{"@timestamp":1,"event.category":"x"}"# => "1000000 none 3:7@0 [] 2-127 130-255",
    ),
];

/// Queries whose events are told by a category and a condition.
static CONDITIONS: &[Row] = &[
    // one of several categories, and no part of one
    row!(r#"process where process.name == "x""#;
        r#"{"@timestamp":1,"event":{"category":["network","process"]},"process.name":"x"}"# => "1000000 none 3:7@0 [] 1",
        r#"{"@timestamp":1,"event":{"category":["network","processes"]},"process.name":"x"}"# => "1000000 none 3:7@0",
        r#"{"@timestamp":1,"event":{"category":["network","proc"]},"process.name":"x"}"# => "1000000 none 3:7@0",
        r#"{"@timestamp":1,"process.name":"x"}"# => "1000000 none 3:7@0",
    ),
    row!(r#"network where process.name : "X""#;
        r#"{"@timestamp":1,"event":{"category":["network","process"]},"process.name":"x"}"# => "1000000 none 3:7@0 [] 1",
    ),
    // a sequence as users write it
    row!(r#"sequence by host.id, user.name with maxspan=1m [process where event.type == "start" and process.name : "cmd.exe" and process.args_count > 1] [network where cidrMatch(destination.ip, "10.0.0.0/8") and destination.port in (445, 3389)] until [process where event.type == "end"]"#;
        r#"{"@timestamp":"2024-05-01T08:00:00.000Z","ecs":{"version":"8.0.0"},"host":{"id":"h1","ip":["10.1.2.3","fe80::1"]},"user":{"name":"ann"},"event":{"category":["process"],"type":["start"]},"process":{"name":"CMD.EXE","pid":412,"args_count":3},"load":0.25}"# => "1714550400000000000 none 3:7@0 [h1, ann] 1",
        r#"{"@timestamp":"2024-05-01T08:00:30.500Z","host":{"id":"h1"},"user":{"name":"ann"},"event":{"category":["network"],"type":["connection"]},"destination":{"ip":"10.9.8.7","port":445}}"# => "1714550430500000000 none 3:7@0 [h1, ann] 2",
        r#"{"@timestamp":"2024-05-01T08:00:30.500Z","host":{"id":"h1"},"user":{"name":"ann"},"event":{"category":["network"],"type":["connection"]},"destination":{"ip":"fe80::1","port":445}}"# => "1714550430500000000 none 3:7@0",
        r#"{"@timestamp":"2024-05-01T08:00:30.500Z","host":{"id":"h1"},"user":{"name":"ann"},"event":{"category":"process","type":"end"}}"# => "1714550430500000000 none 3:7@0 [h1, ann] until",
    ),
    // null is no match
    row!("process where not (process.pid == 1)";
        r#"{"@timestamp":1,"event":{"category":"process"}}"# => "1000000 none 3:7@0",
    ),
    row!("process where ?x == null";
        r#"{"@timestamp":1,"event":{"category":"process"}}"# => "1000000 none 3:7@0 [] 1",
    ),
    // texts are made in a condition
    row!(r#"any where concat(user.name, "/", process.name) == "ann/vi""#;
        r#"{"@timestamp":1,"user.name":"ann","process.name":"vi"}"# => "1000000 none 3:7@0 [] 1",
        r#"{"@timestamp":1,"user.name":"bob","process.name":"vi"}"# => "1000000 none 3:7@0",
    ),
];

/// Queries with a tiebreaker or without, and lines that are rejected.
static LINES: &[Row] = &[
    // the tiebreaker
    row!("any where true", "event.sequence";
        r#"{"@timestamp":1000,"event.sequence":2}"# => "1000000000 2 3:7@0 [] 1",
        r#"{"@timestamp":1000}"# => "1000000000 none 3:7@0 [] 1",
        r#"{"@timestamp":1000,"event.sequence":1.5}"# => "bad Fraction",
    ),
    row!("any where true";
        r#"{"@timestamp":1000,"event.sequence":2}"# => "1000000000 none 3:7@0 [] 1",
        r#"{"@timestamp":1000,"event.sequence":1.5}"# => "1000000000 none 3:7@0 [] 1",
    ),
    // lines that are rejected
    row!("any where process.pid == null";
        r#"{"@timestamp":1,"event":{"cat"# => "bad NotJson",
        r#"{"@timestamp":2,"process.pid":1.5}"# => "bad Fraction",
        r#"{"@timestamp":3,"other":1.5}"# => "3000000 none 3:7@0 [] 1",
        "[]" => "bad NotObject",
        r#"{"process.pid":1}"# => "bad NoTime",
        " \t" => "blank",
        "" => "blank",
    ),
];

// Sees that the lines of each row give what stands beside them.
fn each_row_gives(rt: &impl Abort, alloc: Global, rows: &[Row]) -> Result<(), Fail> {
    for &(query, tie, lines) in rows {
        each_gives(rt, alloc, query, tie, lines)?;
    }
    Ok(())
}

#[test]
fn lines_give_routes(rt: HostRuntime) -> Result<(), Fail> {
    let alloc = rt.alloc();
    each_row_gives(&rt, alloc, KEYS)?;
    each_row_gives(&rt, alloc, KEYS_OF_ITEMS)?;
    each_row_gives(&rt, alloc, STAGES)?;
    each_row_gives(&rt, alloc, CONDITIONS)?;
    each_row_gives(&rt, alloc, LINES)
}

// Sees that a line of this byte alone, one more than may be read, gives this to a plan.
fn long_line_gives(
    rt: &impl Abort,
    alloc: Global,
    plan: &Plan,
    byte: u8,
    expected: &str,
) -> Result<(), Fail> {
    let mut reader = PlanReader::new(alloc, plan)?;
    let bytes = vec![in alloc; byte; 1_048_577]?;
    let got = line_told(alloc, &mut reader, &bytes)?;
    assert_eq!(rt; got.as_str(), expected);
    Ok(())
}

// Sees what lines of one byte more than may be read give to a plan.
fn long_lines_give(rt: &impl Abort, alloc: Global, plan: &Plan) -> Result<(), Fail> {
    long_line_gives(rt, alloc, plan, b'x', "bad Long")?;
    long_line_gives(rt, alloc, plan, b' ', "blank")
}

/// A line of one byte more than may be read is rejected, and one of spaces is blank.
#[test]
fn a_line_may_be_too_long(rt: HostRuntime) -> Result<(), Fail> {
    let Some(plan) = plan_of(rt.alloc(), "any where true", "")? else {
        assert!(&rt; false);
        return Ok(());
    };
    let given = long_lines_give(&rt, rt.alloc(), &plan);
    drop(plan);
    given
}
