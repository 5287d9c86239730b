//! Objects that fail: each call of a run in turn, and which of several causes is told. No fault is passed over.
use crate::tests::row::{
    Failing, Object, Row, Share, Told, Words, ended, found, printed, refused, usage,
};
use crate::tests::run::{Areas, Ran, check, is_as_said, run, see};
use crate::tests::sequences::{ELEVEN, REFERENCE, REFERENCE_LISTS};
use crate::tests::text::Piece::{Bytes, Each, Events, Times};
use eql_cli::NoGate;
use eql_values::Memory;
use std::alloc::Global;
use std::process::Abort;
use std::sync::Wait;
use std::thread::Threads;

/// The first take of the query file.
const QUERY: Failing = (Object::Query, 1);

/// The first take of the fields file.
const FIELDS: Failing = (Object::Fields, 1);

/// The first take of the first shard.
const SHARD: Failing = (Object::Shard(0), 1);

/// The first write of the output.
const OUT: Failing = (Object::Out, 1);

/// The first write of the error output.
const ERR: Failing = (Object::Err, 1);

/// A search that ends with a read fault of this file.
macro_rules! unread {
    ($shows:expr, $line:expr, $fails:expr $(, $field:ident: $value:expr)* $(,)?) => {
        ended!($shows, 4, $line, fails: $fails $(, $field: $value)*)
    };
}

/// Files that can't be read.
static READS: &[Row] = &[
    unread!("a query", "read fault: q", &[QUERY], fields: &[Bytes(b"x")]),
    unread!("a mapping", "read fault: f", &[FIELDS], query: "any where x == 1"),
    unread!(
        "a shard, and nothing is listed",
        "read fault: s0",
        &[SHARD],
        query: REFERENCE,
        shard: ELEVEN,
        words: Words::Find("--hands 0"),
    ),
    unread!("an empty query", "read fault: q", &[QUERY], query: ""),
    unread!("an empty shard", "read fault: s0", &[SHARD]),
    unread!(
        "a query to check",
        "read fault: q",
        &[QUERY],
        words: Words::Line("check --query q --fields f"),
    ),
    unread!(
        "a mapping to check with",
        "read fault: f",
        &[FIELDS],
        words: Words::Line("check --query q --fields f"),
    ),
    unread!(
        "the second of three shards",
        "read fault: s1",
        &[(Object::Shard(1), 1)],
        shard: &[Events("1 a")],
        more: &[&[Events("2 a")], &[Events("3 a")]],
        words: Words::Find("--hands 0"),
        listed: &["1 [] 0:1", "2 [] 1:1", "3 [] 2:1"],
    ),
    unread!(
        "the last of three shards at its end",
        "read fault: s2",
        &[(Object::Shard(2), 2)],
        more: &[&[], &[Events("3 a")]],
        piece: 1000,
        words: Words::Find("--hands 0"),
        listed: &["1 [] 2:1"],
    ),
    unread!(
        "two shards",
        "read fault: s0",
        &[SHARD, (Object::Shard(1), 1)],
        more: &[&[]],
        words: Words::Find("--hands 0"),
    ),
    unread!(
        "one of the shards that are one file",
        "read fault: s0",
        &[(Object::Shard(0), 2)],
        shard: &[Events("1 a")],
        piece: 1000,
        words: Words::Line("find --query q --fields f s0 s0"),
        listed: &["1 [] 0:1", "2 [] 1:1"],
    ),
    unread!(
        "a shard behind all that is let through",
        "read fault: s0",
        &[(Object::Shard(0), 2)],
        query: "any where true | head 1",
        shard: &[Events("1 a, 2 a")],
        piece: 1000,
        listed: &["1 [] 0:1"],
    ),
    unread!(
        "a shard of which nothing is let through",
        "read fault: s0",
        &[(Object::Shard(0), 2)],
        query: "any where true | head 0",
        shard: &[Events("1 a, 2 a")],
        piece: 1000,
    ),
    unread!(
        "a shard behind a line that is too long",
        "read fault: s0",
        &[(Object::Shard(0), 18)],
        shard: &[Times("x", 1_048_577)],
        piece: 65_536,
    ),
    unread!(
        "a shard behind its blank lines",
        "read fault: s0",
        &[(Object::Shard(0), 2)],
        shard: &[Bytes(b"\n \n\r\n")],
    ),
];

/// Faults of the shelf, each time that it is asked for a file.
static SHELF_CALLS: &[Row] = &[
    unread!("the query", "read fault: q", &[(Object::Shelf, 1)]),
    unread!("the mapping", "read fault: f", &[(Object::Shelf, 2)]),
    unread!("the shard", "read fault: s0", &[(Object::Shelf, 3)]),
    found!(
        "no further call",
        REFERENCE,
        ELEVEN,
        REFERENCE_LISTS,
        words: Words::Find("--batch 2 --hands 0"),
        piece: 100,
        fails: &[(Object::Shelf, 4)],
    ),
    unread!(
        "the second shard",
        "read fault: s1",
        &[(Object::Shelf, 4)],
        shard: &[Events("1 a")],
        more: &[&[Events("2 a")], &[Events("3 a")]],
        listed: &["1 [] 0:1", "2 [] 1:1", "3 [] 2:1"],
    ),
    unread!(
        "a name that no file has",
        "read fault: p",
        &[(Object::Shelf, 1)],
        words: Words::Line("find --query p --fields f s0"),
    ),
    unread!(
        "the mapping of a check",
        "read fault: f",
        &[(Object::Shelf, 2)],
        words: Words::Line("check --query q --fields f"),
    ),
    printed!(
        "no further call of a check",
        "any where true",
        &["any where true"],
        fails: &[(Object::Shelf, 3)],
    ),
];

/// Faults that a run doesn't come to, since it stops before.
static UNREACHED: &[Row] = &[
    usage!("words", "find", fails: &[(Object::Shelf, 1), QUERY]),
    ended!(
        "a missing shard before the disk of a checkpoint",
        1,
        "no file t",
        words: Words::Line("find --query q --fields f --slack 1s --checkpoint c --every 5 s0 t"),
        fails: &[(Object::Shelf, 5), (Object::Disk, 1)],
    ),
    refused!("the grammar", "x", "parse: Syntax at 1", fails: &[FIELDS, SHARD]),
    refused!(
        "the grammar of a query to check",
        "x",
        "parse: Syntax at 1",
        words: Words::Line("check --query q --fields f"),
        fails: &[(Object::Shelf, 2)],
    ),
    refused!(
        "the check",
        "any where x == 1",
        "check: UnknownField x",
        fails: &[(Object::Shelf, 3), SHARD],
    ),
    ended!(
        "a missing shard",
        1,
        "no file t",
        words: Words::Line("find --query q --fields f s0 t"),
        fails: &[SHARD],
    ),
    // Of a query without end 65,537 bytes are taken, and of a mapping 4,194,305.
    refused!(
        "a query that is too long",
        "",
        "lex: TooLong",
        behind: &[Times("x", 70_000)],
        piece: 65_536,
        fails: &[(Object::Query, 3)],
    ),
    ended!(
        "a mapping that is too long",
        3,
        "mapping: MapLong",
        fields: &[Times(" ", 4_300_000)],
        piece: 65_536,
        fails: &[(Object::Fields, 66)],
    ),
];

/// A search that ends with a write fault.
macro_rules! unwritten {
    ($shows:expr, $fails:expr $(, $field:ident: $value:expr)* $(,)?) => {
        ended!($shows, 5, "write fault", fails: $fails $(, $field: $value)*)
    };
}

/// Outputs that refuse a write.
static WRITES: &[Row] = &[
    unwritten!(
        "the reference's example",
        &[OUT],
        query: REFERENCE,
        shard: ELEVEN,
        listed: REFERENCE_LISTS,
    ),
    unwritten!(
        "what a pipe holds back until the end",
        &[OUT],
        query: "any where true | tail 1",
        shard: &[Events("1 a, 2 a")],
        listed: &["2 [] 0:2"],
    ),
    unwritten!(
        "the second piece of a long listing",
        &[(Object::Out, 2)],
        shard: &[Each("{\"@timestamp\":#}\n", 7000)],
        piece: 1000,
        rest: &[Each("# [] 0:#\n", 7000)],
    ),
    unwritten!(
        "the canonical text",
        &[OUT],
        words: Words::Line("check --query q --fields f"),
        listed: &["any where true"],
    ),
    unwritten!("both outputs", &[OUT, ERR], shard: &[Events("1 a")]),
    found!(
        "an empty listing isn't written",
        "any where false",
        &[Events("1 a")],
        &[],
        fails: &[OUT],
    ),
];

/// Faults that can't be told leave the status. A report that can't be written leaves the listing whole.
static UNTOLD: &[Row] = &[
    usage!("words", "find", fails: &[ERR]),
    ended!(
        "a missing file",
        1,
        "no file p",
        words: Words::Line("find --query p --fields f s0"),
        fails: &[ERR],
    ),
    refused!("a query", "x", "parse: Syntax at 1", fails: &[ERR]),
    unread!("a query that can't be read", "read fault: q", &[QUERY, ERR]),
    unread!(
        "a shard that can't be read",
        "read fault: s0",
        &[SHARD, ERR]
    ),
    printed!("a check tells nothing", "any where true", &["any where true"], fails: &[ERR]),
    found!("a report", "any where true", &[Events("1 a")], &["1 [] 0:1"], status: 5, fails: &[ERR]),
    found!(
        "a report, and what a pipe holds back until the end",
        "any where true | tail 1",
        &[Events("1 a, 2 a")],
        &["2 [] 0:2"],
        status: 5,
        fails: &[ERR],
    ),
];

#[test]
fn faults_are_told(rt: HostRuntime) {
    check(
        &rt,
        rt.alloc(),
        &[READS, SHELF_CALLS, UNREACHED, WRITES, UNTOLD],
    );
}

/// A shard of four lines that come in one take, read line by line with these options. The next take fails.
macro_rules! line_by_line {
    ($shows:expr, $options:expr $(, $field:ident: $value:expr)* $(,)?) => {
        unread!(
            $shows,
            "read fault: s0",
            &[(Object::Shard(0), 2)],
            shard: &[Events("10 a, 20 a, 30 a, 40 a")],
            words: Words::Find($options),
            piece: 1000,
            share: Share::Whole
            $(, $field: $value)*
        )
    };
}

/// What was found before a fault stands. In the first row each round from the second on reads a line, and finds the event of
/// the line before below its low. The last event isn't below any. Without a slack nothing is. A round writes once all lanes
/// were fed, so nothing of the round that fails is written. With hands rounds read other numbers of lines.
static BEFORE_A_FAULT: &[Row] = &[
    line_by_line!(
        "line by line",
        "--slack 1ms --batch 1 --hands 0",
        listed: &["1 [] 0:1", "2 [] 0:2", "3 [] 0:3"],
    ),
    line_by_line!(
        "with a slack of ten",
        "--slack 10ms --batch 1 --hands 0",
        listed: &["1 [] 0:1", "2 [] 0:2"],
    ),
    line_by_line!(
        "all lines in one round",
        "--slack 1ms --batch 4 --hands 0",
        listed: &["1 [] 0:1", "2 [] 0:2", "3 [] 0:3"],
    ),
    line_by_line!(
        "all lines and the end in one round",
        "--slack 1ms --batch 5 --hands 0"
    ),
    line_by_line!("without a slack", "--batch 1 --hands 0"),
];

#[test]
fn matches_are_written_while_shards_are_read(rt: HostRuntime) {
    check(&rt, rt.alloc(), &[BEFORE_A_FAULT]);
}

/// The search in which each call fails in turn, with these options.
macro_rules! whole {
    ($options:expr $(, $field:ident: $value:expr)* $(,)?) => {
        found!(
            "each call in turn",
            REFERENCE,
            ELEVEN,
            REFERENCE_LISTS,
            words: Words::Find($options),
            piece: 100
            $(, $field: $value)*
        )
    };
}

/// An object of which each call fails in turn, how many calls it has at least, and how each of these runs ends.
struct InTurn {
    object: Object,
    least: u64,
    faulty: Row,
}

macro_rules! in_turn {
    ($object:expr, $least:expr, $faulty:expr) => {
        InTurn {
            object: $object,
            least: $least,
            faulty: $faulty,
        }
    };
}

/// The objects of a search of which each call fails in turn. The 139 bytes of the query come in two takes, the 226 of the mapping
/// in three, and the 1,115 of the shard in twelve. One more sees the end.
macro_rules! each_in_turn {
    ($options:expr) => {
        &[
            in_turn!(Object::Query, 3,
                whole!($options, status: 4, told: Told::Lines(&["read fault: q"]))),
            in_turn!(Object::Fields, 4,
                whole!($options, status: 4, told: Told::Lines(&["read fault: f"]))),
            in_turn!(Object::Shard(0), 13,
                whole!($options, status: 4, told: Told::Lines(&["read fault: s0"]))),
            in_turn!(Object::Out, 1, whole!($options, status: 5, told: Told::Lines(&["write fault"]))),
            in_turn!(Object::Err, 1, whole!($options, status: 5)),
        ]
    };
}

/// Without hands, and beside two.
static ALONE: &[InTurn] = each_in_turn!("--batch 2 --hands 0");

static BESIDE: &[InTurn] = each_in_turn!("--batch 2 --hands 2");

/// What a run of either gives where no call fails.
static DONE: Row = whole!("--batch 2");

/// Whether a run is done, where it ended as it should: with what the last row says, or as one does in which a call fails.
fn is_done(
    alloc: Global,
    case: &InTurn,
    ran: &Ran,
    came: &mut String,
) -> Result<Option<bool>, Memory> {
    let is_done = ran.status == 0;
    let row = if is_done { &DONE } else { &case.faulty };
    let is_as_said = is_as_said(alloc, row, row.listed, ran, came)?;
    Ok(is_as_said.then_some(is_done))
}

/// Lets a call of an object fail, and returns whether the run is done, where it ended as it should.
fn fail_at<R: Threads + Wait + Sync>(
    rt: &R,
    alloc: Global,
    case: &InTurn,
    call: u64,
    came: &mut String,
) -> Result<Option<bool>, Memory> {
    let fails = [(case.object, call)];
    let start = Areas::empty(alloc);
    let (ran, disk) = run(rt, alloc, &case.faulty, &fails, &start, None, &NoGate)?;
    drop(disk);
    is_done(alloc, case, &ran, came)
}

/// Lets one call of an object fail after another, until a run is done. Returns whether each run ended as it should, and there
/// are as many calls as there have to be at least.
fn each_fails<R: Threads + Wait + Sync>(
    rt: &R,
    alloc: Global,
    case: &InTurn,
    came: &mut String,
) -> Result<bool, Memory> {
    for call in 1..1000u64 {
        match fail_at(rt, alloc, case, call, came)? {
            Some(true) => return Ok(case.least < call),
            Some(false) => {}
            None => return Ok(false),
        }
    }
    Ok(false)
}

/// Lets each call of each of these objects fail in turn.
fn all_fail<R: Threads + Wait + Sync>(
    rt: &R,
    alloc: Global,
    cases: &[InTurn],
    came: &mut String,
) -> Result<bool, Memory> {
    for case in cases {
        if !each_fails(rt, alloc, case, came)? {
            return Ok(false);
        }
    }
    Ok(true)
}

/// Sees that each run ends as it should in which one of these calls fails.
fn check_in_turn<R: Threads + Wait + Sync + Abort>(rt: &R, alloc: Global, cases: &[InTurn]) {
    let mut came = String::new(alloc);
    let seen = all_fail(rt, alloc, cases, &mut came);
    see(rt, seen, came.as_str());
}

#[test]
fn each_call_fails_in_turn(rt: HostRuntime) {
    check_in_turn(&rt, rt.alloc(), ALONE);
}

/// Where a hand meets the fault of a take the conductor reads on, so more may be listed than without hands.
#[test]
fn each_call_fails_in_turn_beside_hands(rt: HostRuntime) {
    check_in_turn(&rt, rt.alloc(), BESIDE);
}

/// Searches line by line in which the take at the end of the shard fails and, before it, another call.
static TWO_FAULTS: &[Row] = &[
    whole!(
        "--slack 0ms --batch 1 --hands 0",
        status: 5,
        told: Told::Lines(&["write fault"]),
        fails: &[(Object::Shard(0), 13), OUT],
    ),
    whole!(
        "--slack 0ms --batch 1 --hands 2",
        status: 4,
        told: Told::Lines(&["read fault: s0"]),
        fails: &[(Object::Shard(0), 13), OUT],
    ),
    whole!(
        "--slack 0ms --batch 1 --hands 0 --checkpoint c --every 5",
        status: 6,
        told: Told::Lines(&["checkpoint disk fault"]),
        fails: &[(Object::Shard(0), 13), (Object::Disk, 5)],
    ),
    whole!(
        "--slack 0ms --batch 1 --hands 2 --checkpoint c --every 5",
        status: 4,
        told: Told::Lines(&["read fault: s0"]),
        fails: &[(Object::Shard(0), 13), (Object::Disk, 5)],
    ),
];

/// Without hands a run stops at the first fault. Hands read on, and of several faults a read fault is told.
#[test]
fn read_fault_is_told_before_others(rt: HostRuntime) {
    check(&rt, rt.alloc(), &[TWO_FAULTS]);
}
