//! Which runs a cut fits: a cut that fits a run of three stages, and what breaks each rule.
use crate::tests::bytes::push_hex;
use eql_cut::{Cut, decode, fits};
use eql_values::{Pipe, Pipes};
use std::alloc::{AllocError, Global};

/// A cut of one shard with one event, two pending sequences of one key, a head and a tail. Each line is a part: its name
/// with `=`, and its bytes in hexadecimal.
///
/// The mark is 1000, the slack 2 ms, and the best 2,001,000. The shard has 2^40 bytes and 4,294,967,294 lines, of which 1 was
/// accepted, 4,294,967,000 were late and 293 rejected. The event is at the mark, in the last line, at stages 1 to 3.
/// The pending sequences are of stage 1, from 900, and of stage 2, from 800. 7 are found and listed, and the head let 2 pass.
/// The tail keeps the match 7, whose events are at 600.
static FITTING: &str = "front= 45514c43 03 0100000000000000 71 0000000000000000 00
slack= 0200000000000000
shards= 01000000
mark= e803000000000000 0000000000000000
lanes= 0100000000000000
offset= 0000000000010000
closed= 00
best= 01 68881e0000000000 0000000000000000
lines= feffffff
accepted= 01000000
late= d8feffff
rejected= 25010000
bad= 01 05000000 01
items= 0100000000000000
time= e803000000000000 0000000000000000
shard= 00 00000000
line= feffffff
place= 0000000000000000
routes= 0100000000000000
key= 0100000000000000 00
low= 0700000000000000 0000000000000000
high= 0000000000000000 0000000000000000
until= 00
pending= 0200000000000000
first_key= 0100000000000000 00
first_stage= 01000000 0100000000000000
first_time= 8403000000000000 0000000000000000
first_shard= 00 00000000
first_line= 09000000 0000000000000000
second_key= 0100000000000000 00
second_stage= 02000000 0200000000000000
second_time= 2003000000000000 0000000000000000
second_line= 00 00000000 09000000 0000000000000000
last_line= b603000000000000 0000000000000000 00 00000000 0a000000 0000000000000000
found= 0700000000000000
listed= 0700000000000000
pipes= 0200000000000000 00
passed= 02000000
tail= 01 0100000000000000
number= 0700000000000000
kept_key= 0100000000000000 00
kept= 0300000000000000
kept_first= 5802000000000000 0000000000000000 00 00000000 00000000 0000000000000000
kept_second= 5802000000000000 0000000000000000 00 00000000 01000000 0000000000000000
kept_third= 5802000000000000 0000000000000000 00 00000000 02000000 0000000000000000";

/// What differs from the cut that fits, the parts that do, and whether it fits the run of three stages, of
/// keys of one value and of the pipes `head 2` and `tail 1`.
///
/// The greatest time is `0000000000000000 20a1070000000000`, and the least `0000000000000000 e05ef8ffffffffff`.
static ROWS: &str = "
as it is:  => true
mark too low: mark= ffff532c82293cd4 df5ef8ffffffffff => false
mark above the best less the slack: mark= e903000000000000 0000000000000000; time= e903000000000000 0000000000000000 => false
mark at the best less the slack, with no slack: slack= 0000000000000000; mark= e903000000000000 0000000000000000; best= 01 e903000000000000 0000000000000000; time= e903000000000000 0000000000000000 => true
mark too high: mark= 0100000000000000 20a1070000000000; closed= 01; time= 0000000000000000 20a1070000000000 => false
greatest mark: mark= 0000000000000000 20a1070000000000; closed= 01; time= 0000000000000000 20a1070000000000 => true
open without a best: best= 00 => false
closed without a best: closed= 01; best= 00 => true
closed with a low best: closed= 01; best= 01 fbffffffffffffff ffffffffffffffff => true
best too high: best= 01 0100000000000000 20a1070000000000 => false
greatest best: best= 01 0000000000000000 20a1070000000000 => true
best too low: closed= 01; best= 01 ffffffffffffffff df5ef8ffffffffff => false
least best: closed= 01; best= 01 0000000000000000 e05ef8ffffffffff => true
too many bytes: offset= 0100000000010000 => false
too many lines: lines= ffffffff => false
more lines told than there are: rejected= 26010000 => false
first without a rejected line: rejected= 00000000 => false
rejected without a first: bad= 00 => false
none rejected: rejected= 00000000; bad= 00 => true
more events than accepted: accepted= 00000000 => false
event below the mark: time= e703000000000000 0000000000000000 => false
event too late in time: time= 0100000000000000 20a1070000000000 => false
event of another shard: shard= 00 01000000 => false
event at line 0: line= 00000000 => false
event behind the lines: lines= 09000000; late= 01000000; rejected= 02000000; line= 0a000000 => false
event at the last line: lines= 09000000; late= 01000000; rejected= 02000000; line= 09000000 => true
a stage above the last: low= 0800000000000000 0000000000000000 => false
stage 128: low= 0000000000000000 0000000000000080 => false
stage 129: high= 0100000000000000 0000000000000000 => false
event without a value of its key: key= 0000000000000000 => false
event with two values of its key: key= 0200000000000000 0000 => false
pending at the mark: first_time= e803000000000000 0000000000000000 => false
pending just below the mark: first_time= e703000000000000 0000000000000000 => true
pending too early: second_time= ffffffffffffffff df5ef8ffffffffff => false
pending at the least time: second_time= 0000000000000000 e05ef8ffffffffff => true
pending of another shard: first_shard= 00 01000000 => false
pending without a value of its key: first_key= 0000000000000000; second_key= 0000000000000000 => false
first events that rise: second_time= 8503000000000000 0000000000000000 => false
the same first event: second_time= 8403000000000000 0000000000000000 => false
more listed than found: listed= 0800000000000000 => false
too many found: found= 0100000000010000 => false
greatest found: found= 0000000000010000 => true
head let through too many: passed= 03000000 => false
head let through none: passed= 00000000 => true
kept number 0: number= 0000000000000000 => false
kept number above the found: number= 0800000000000000 => false
kept match with two events: kept= 0200000000000000; kept_third=  => false
kept match with four events: kept= 0400000000000000; kept_third= 5802000000000000 0000000000000000 00 00000000 02000000 0000000000000000 5802000000000000 0000000000000000 00 00000000 03000000 0000000000000000 => false
kept match too early: kept_first= ffffffffffffffff df5ef8ffffffffff 00 00000000 00000000 0000000000000000; kept_second= ffffffffffffffff df5ef8ffffffffff 00 00000000 01000000 0000000000000000; kept_third= ffffffffffffffff df5ef8ffffffffff 00 00000000 02000000 0000000000000000 => false
kept match of another shard: kept_first= 5802000000000000 0000000000000000 00 01000000 00000000 0000000000000000; kept_second= 5802000000000000 0000000000000000 00 01000000 01000000 0000000000000000; kept_third= 5802000000000000 0000000000000000 00 01000000 02000000 0000000000000000 => false
kept match with two values of its key: kept_key= 0200000000000000 0000 => false";

/// What a row has in place of the part of this name.
fn own_part<'a>(parts: &'a str, name: &str) -> Option<&'a str> {
    for part in parts.split("; ") {
        match part.split_once(' ') {
            Some((own, hex)) if own == name => return Some(hex),
            _ => {}
        }
    }
    None
}

/// Puts the cut that fits, with the parts of a row in place of its own. Returns how many of them were put.
fn push_cut(bytes: &mut Vec<u8>, parts: &str) -> Result<usize, AllocError> {
    let mut count = 0usize;
    for part in FITTING.lines() {
        let (name, hex) = part.split_once(' ').unwrap_or((part, ""));
        match own_part(parts, name) {
            Some(own) => {
                push_hex(bytes, own.as_bytes())?;
                count = count.saturating_add(1);
            }
            None => push_hex(bytes, hex.as_bytes())?,
        }
    }
    Ok(count)
}

/// The bytes of the cut that fits with the parts of a row; none where not each of them is put.
fn cut_with(alloc: Global, parts: &str) -> Result<Vec<u8>, AllocError> {
    let mut bytes = Vec::new(alloc);
    let count = push_cut(&mut bytes, parts)?;
    if parts.split('=').count() == count.saturating_add(1) {
        Ok(bytes)
    } else {
        Ok(Vec::new(alloc))
    }
}

/// The shards that a cut names, and a run: its stages, the values of a key, and its pipes.
type Run = (u32, u32, u32, &'static [Pipe]);

/// Whether a cut fits a run; none where memory is wanting.
fn fits_run(alloc: Global, cut: &Cut, &(_, stages, values, pipes): &Run) -> Option<bool> {
    match Vec::from_slice(alloc, pipes) {
        Ok(pipes) => Some(fits(cut, stages, values, &Pipes::of(pipes))),
        Err(_) => None,
    }
}

/// Whether the cut of these bytes, with the shards that it is to name, fits a run; none where they are no cut.
fn text_fits(alloc: Global, bytes: &[u8], run: &Run) -> Option<bool> {
    match decode(alloc, bytes) {
        Ok(mut read) => {
            read.cut.head.shards = run.0;
            fits_run(alloc, &read.cut, run)
        }
        Err(_) => None,
    }
}

/// Whether the cut with the parts of a row fits a run; none where it is no cut.
fn is_fitting(alloc: Global, parts: &str, run: &Run) -> Option<bool> {
    match cut_with(alloc, parts) {
        Ok(bytes) => text_fits(alloc, &bytes, run),
        Err(_) => None,
    }
}

/// The run of the rows.
static RUN: Run = (1, 3, 1, &[Pipe::Head(2), Pipe::Tail(1)]);

/// The same run, of a cut that names more shards or fewer than it has.
static SHARDS: &[(Run, bool)] = &[
    ((2, 3, 1, &[Pipe::Head(2), Pipe::Tail(1)]), false),
    ((0, 3, 1, &[Pipe::Head(2), Pipe::Tail(1)]), false),
];

/// Whether a row is as it should be.
fn is_kept(alloc: Global, row: &str) -> bool {
    let Some((named, expected)) = row.rsplit_once(" => ") else {
        return row.is_empty();
    };
    let (_, parts) = named.split_once(": ").unwrap_or((named, "?"));
    match is_fitting(alloc, parts, &RUN) {
        Some(true) => expected == "true",
        Some(false) => expected == "false",
        None => false,
    }
}

/// Whether the cut that fits its run fits just those of these runs that it should.
fn are_told_apart(alloc: Global, runs: &[(Run, bool)]) -> bool {
    for (run, expected) in runs {
        if is_fitting(alloc, "", run) != Some(*expected) {
            return false;
        }
    }
    true
}

/// The first row that isn't as it should be, or nothing.
fn wrong_row(alloc: Global) -> &'static str {
    for row in ROWS.lines() {
        if !is_kept(alloc, row) {
            return row;
        }
    }
    if are_told_apart(alloc, SHARDS) {
        ""
    } else {
        "the number of shards"
    }
}

#[test]
fn each_rule_is_kept(rt: HostRuntime) {
    assert_eq!(rt; wrong_row(rt.alloc()), "");
}

/// Runs, and whether the cut that fits the run above fits them.
static RUNS: &[(Run, bool)] = &[
    ((1, 3, 1, &[Pipe::Head(2), Pipe::Tail(1)]), true),
    ((1, 3, 1, &[Pipe::Head(9), Pipe::Tail(9)]), true),
    ((1, 3, 1, &[Pipe::Head(2), Pipe::Tail(0)]), false),
    ((1, 3, 1, &[Pipe::Head(2)]), false),
    (
        (1, 3, 1, &[Pipe::Head(2), Pipe::Tail(1), Pipe::Head(1)]),
        false,
    ),
    ((1, 3, 1, &[Pipe::Tail(2), Pipe::Head(2)]), false),
    ((1, 3, 2, &[Pipe::Head(2), Pipe::Tail(1)]), false),
    ((1, 2, 1, &[Pipe::Head(2), Pipe::Tail(1)]), false),
    ((1, 4, 1, &[Pipe::Head(2), Pipe::Tail(1)]), false),
];

#[test]
fn runs_are_told_apart(rt: HostRuntime) {
    assert!(rt; are_told_apart(rt.alloc(), RUNS));
}
