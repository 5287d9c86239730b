//! Conditions over events, and what functions give.
use crate::tests::row::{Row, found, refused};
use crate::tests::run::check;
use crate::tests::text::Piece::{Events, Lines};
use crate::tests::text::Pieces;

/// A condition that is true of an event without fields.
macro_rules! holds {
    ($query:expr) => {
        found!($query, $query, &[Events("1 a")], &["1 [] 0:1"])
    };
}

/// A condition that is false or null of an event without fields.
macro_rules! fails {
    ($query:expr) => {
        found!($query, $query, &[Events("1 a")], &[])
    };
}

/// An event with fields, each in a form of its own.
const AGENT: Pieces = &[Lines(&[
    r#"{"@timestamp":1,"event":{"category":["network","process"],"type":"start"},"process":{"name":"CMD.exe","pid":412,"args_count":"3"},"process.args":[],"user":[{"name":"ann"}],"destination.ip":"10.9.8.7","destination":{"port":[[445]]},"host":null}"#,
])];

/// A condition that is true of that event.
macro_rules! meets {
    ($query:expr) => {
        found!($query, $query, AGENT, &["1 [] 0:1"])
    };
}

/// A condition that is false or null of that event.
macro_rules! misses {
    ($query:expr) => {
        found!($query, $query, AGENT, &[])
    };
}

/// Categories and nulls.
static NULLS: &[Row] = &[
    found!(
        "every event is any event",
        "any where true",
        &[Events("1 process, 2 file, 3 process")],
        &["1 [] 0:1", "2 [] 0:2", "3 [] 0:3"],
    ),
    found!(
        "a field that isn't there is compared",
        "process where not (process.pid == 1)",
        &[Events("1 process")],
        &[],
    ),
    found!(
        "a field that needn't be mapped",
        "process where ?x == null",
        &[Events("1 process")],
        &["1 [] 0:1"],
    ),
    refused!(
        "a field that has to be mapped",
        "process where x == null",
        "check: UnknownField x",
        shard: &[Events("1 process")],
    ),
    holds!("any where process.pid == null and not (process.pid != null)"),
    fails!("any where process.pid != 1"),
    holds!("any where true or process.pid == 1"),
    fails!("any where true and process.pid == 1"),
    fails!("any where false"),
];

/// Fields by their kinds.
static FIELDS: &[Row] = &[
    meets!(r#"process where process.name : "cmd.EXE""#),
    meets!(r#"network where process.name : ("x", "c?d*")"#),
    misses!(r#"file where process.name : "cmd.exe""#),
    misses!(r#"process where process.name == "cmd.exe""#),
    meets!(r#"process where process.name like "CMD*""#),
    misses!(r#"process where process.name like "cmd*""#),
    meets!(r#"process where process.name like~ ("cmd.ex") or process.name like~ "cmd.ex?""#),
    meets!("process where process.pid in (1, 412)"),
    misses!("process where process.pid not in (1, 412)"),
    meets!(r#"process where process.name in~ ("cmd.exe")"#),
    meets!(r#"any where process.name not in ("cmd.exe")"#),
    meets!("any where process.args_count == 3"),
    meets!("any where process.args_count * 2 - 10 < -3"),
    meets!("any where `destination`.`port` >= 445"),
    meets!(r#"any where destination.ip == "10.9.8.7""#),
    meets!(r#"any where destination.ip in ("10.0.0.1", "10.9.8.7")"#),
    meets!(r#"any where cidrMatch(destination.ip, "10.9.0.0/16")"#),
    meets!(r#"any where string(destination.ip) == "10.9.8.7""#),
    meets!(r#"any where user.name > "amy" and user.name < "bob""#),
    meets!("any where host.id == null"),
    misses!(r#"any where host.id != "h""#),
    meets!(r#"any where process.pid == 412 and (user.name == "x" or event.type == "start")"#),
];

/// Quotients, remainders, and numbers that there aren't.
static NUMBERS: &[Row] = &[
    holds!("any where -7 / 2 == -4 and -7 % 2 == 1"),
    holds!("any where 7 / -2 == -4 and 7 % -2 == -1"),
    fails!("any where 5 / 0 == 0"),
    fails!("any where not (5 / 0 == 0)"),
    fails!("any where 9223372036854775807 + 1 == 0"),
    holds!("any where 9223372036854775807 + 1 == null and 5 % 0 == null"),
];

/// Functions, with what the reference or this language's tables say of them.
static FUNCTIONS: &[Row] = &[
    holds!(r#"any where length("café") == 4"#),
    holds!(r#"any where indexOf("abcabc", "c", 3) == 5"#),
    holds!(r#"any where indexOf("abc", "x") == null"#),
    holds!(r#"any where indexOf("abc", "", 3) == 3"#),
    holds!(r#"any where indexOf("abc", "a", -1) == 0"#),
    holds!(r#"any where substring("start regsvr32.exe", 6) == "regsvr32.exe""#),
    holds!(r#"any where substring("start regsvr32.exe", -4) == ".exe""#),
    holds!(r#"any where substring("start regsvr32.exe", -4, -1) == ".ex""#),
    holds!(r#"any where substring("abc", 5) == """#),
    holds!(r#"any where between("system event log", "system ", " log") == "event""#),
    holds!(r#"any where between("a-b-c-d", "a", "-") == """#),
    holds!(r#"any where between("a-b-c-d", "a", "-", true) == "-b-c""#),
    holds!(r#"any where endsWith~("CMD.EXE", ".exe") == true"#),
    holds!(r#"any where startsWith("a", "") == true and endsWith("", "") == true"#),
    holds!(r#"any where stringContains("a", "") == false"#),
    holds!(r#"any where stringContains("", "") == false"#),
    holds!(r#"any where concat("a", 1, true) == "a1true""#),
    holds!(r#"any where concat("a", null) == null"#),
    holds!(r#"any where number("-12") == -12"#),
    holds!(r#"any where number("1x") == null"#),
    holds!(r#"any where number("0x1F") == 31"#),
    holds!(r#"any where number("0x") == null"#),
    holds!(r#"any where cidrMatch("10.9.8.7", "10.0.0.0/8") == true"#),
    holds!(r#"any where cidrMatch("11.0.0.1", "10.0.0.0/8", "0.0.0.0/0") == true"#),
];

#[test]
fn conditions_hold_or_not(rt: HostRuntime) {
    check(&rt, rt.alloc(), &[NULLS, FIELDS, NUMBERS, FUNCTIONS]);
}
