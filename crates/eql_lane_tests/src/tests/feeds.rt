//! Feeds of long lines, of many events, and after faults and want of memory.
use crate::tests::lanes::{END, NINE, ONE, TestLane, lane, play, replies, source, write_reply};
use crate::tests::reader::FirstByte;
use eql_lane::{Lane, LaneOp, LaneReply, LaneStart};
use eql_values::{Counts, Items};
use std::alloc::Global;
use std::fmt::Write;
use std::test::Fail;

const MANY: LaneOp = LaneOp::Feed { max: 4096 };

/// A text of a piece so many times, and of what stands behind.
pub(crate) fn text_of(
    alloc: Global,
    count: usize,
    piece: &[u8],
    behind: &[u8],
) -> Result<Vec<u8>, Fail> {
    let mut text = Vec::new(alloc);
    for _ in 0..count {
        text.extend_from_slice(piece)?;
    }
    text.extend_from_slice(behind)?;
    Ok(text)
}

/// The bytes of the first line, the bytes of a piece, how many lines are rejected, and the results
/// of two feeds and a take.
static LONG: &[(usize, usize, u32, &str)] = &[
    (1048576, 65536, 0, "fed 2;closed;taken 2@1048577 1@0;"),
    (1048577, 65536, 1, "fed 2;closed;taken 2@1048578;"),
    (1048577, 4099, 1, "fed 2;closed;taken 2@1048578;"),
    (1048577, 61, 1, "fed 2;closed;taken 2@1048578;"),
    (3000000, 65536, 1, "fed 2;closed;taken 2@3000001;"),
    (5000000, 4099, 1, "fed 0;fed 2;taken 2@5000001;"),
];

/// What two feeds and a take return over a line of so many bytes and one more line, in pieces, and what is counted then.
fn told_of_long(alloc: Global, bytes: usize, piece: usize) -> Result<(String, Counts), Fail> {
    let text = text_of(alloc, bytes, b"A", b"\n1")?;
    let source = source(alloc, text.as_slice(), piece, &[])?;
    let mut lane = lane(alloc, source, None)?;
    let told = replies(alloc, &mut lane, &[NINE, NINE, END]);
    let counts = lane.counts();
    drop(lane);
    Ok((told?, counts))
}

#[test]
fn long_lines_are_passed_over(rt: HostRuntime) -> Result<(), Fail> {
    for &(bytes, piece, rejected, told) in LONG {
        let (out, counts) = told_of_long(rt.alloc(), bytes, piece)?;
        assert_eq!(rt; out.as_str(), told);
        assert_eq!(rt; counts.rejected, rejected);
        assert_eq!(rt; counts.accepted, 2 - rejected);
    }
    Ok(())
}

/// Whether a feed of so many lines at most reads some.
fn is_fed(lane: &mut TestLane, max: u32) -> Result<bool, Fail> {
    let reply = play(lane, LaneOp::Feed { max })?;
    let is_fed = match &reply {
        LaneReply::Fed { .. } => true,
        _ => false,
    };
    drop(reply);
    Ok(is_fed)
}

/// Reads so many lines of a lane and no more, so that it doesn't meet the end behind them.
fn read_lines(lane: &mut TestLane, lines: u32) -> Result<(), Fail> {
    for _ in 0..100u32 {
        let max = lines.saturating_sub(lane.counts().lines).min(4096);
        if max == 0 {
            return Ok(());
        }
        if !is_fed(lane, max)? {
            return Err(Fail::from("a feed ended"));
        }
    }
    Err(Fail::from("too many feeds"))
}

/// How many events lie below the low, and what a feed, a look, a take and a feed return. Of what was
/// taken the number is told.
static FULL: &[(u32, &str)] = &[
    (65535, "closed;low end;65536;closed;"),
    (65536, "held 65536;low 8000000000;65536;closed;"),
];

/// Plays an operation, and writes the reply. Of what was taken the number is written.
fn play_counted(lane: &mut TestLane, op: LaneOp, out: &mut String) -> Result<(), Fail> {
    match play(lane, op)? {
        LaneReply::Taken(items) => {
            let count = items.items().len();
            drop(items);
            write!(out, "{count};")?;
            Ok(())
        }
        reply => {
            let written = write_reply(out, &reply);
            drop(reply);
            written
        }
    }
}

/// What a lane returns from which so many lines were read.
fn told_behind(alloc: Global, lane: &mut TestLane, lines: u32) -> Result<String, Fail> {
    read_lines(lane, lines)?;
    let mut out = String::new(alloc);
    for op in [ONE, LaneOp::Look, END, ONE] {
        play_counted(lane, op, &mut out)?;
    }
    Ok(out)
}

/// What a lane returns behind so many events of second 1, with one of second 9 behind them.
fn told_of_full(alloc: Global, events: u32) -> Result<String, Fail> {
    let text = text_of(alloc, events as usize, b"1\n", b"9\n")?;
    let source = source(alloc, text.as_slice(), 65536, &[])?;
    let mut lane = lane(alloc, source, Some(1000))?;
    let told = told_behind(alloc, &mut lane, events.saturating_add(1));
    drop(lane);
    told
}

#[test]
fn feeds_wait_behind_many_events(rt: HostRuntime) -> Result<(), Fail> {
    for &(events, told) in FULL {
        assert_eq!(rt; told_of_full(rt.alloc(), events)?.as_str(), told);
    }
    Ok(())
}

/// Eleven lines of 102 bytes with their line feeds.
fn eleven_lines(alloc: Global) -> Result<Vec<u8>, Fail> {
    let mut text = Vec::new(alloc);
    for line in 0..11u8 {
        text.push(b'0' + line)?;
        for _ in 0..100 {
            text.push(b' ')?;
        }
        text.push(b'\n')?;
    }
    Ok(text)
}

/// A source whose second take fails, in pieces of a line.
#[test]
fn lines_before_a_fault_stand(rt: HostRuntime) -> Result<(), Fail> {
    let alloc = rt.alloc();
    let text = eleven_lines(alloc)?;
    let source = source(alloc, text.as_slice(), 102, &[2])?;
    let mut lane = lane(alloc, source, None)?;
    let told = replies(alloc, &mut lane, &[MANY, MANY]);
    drop(lane);
    assert_eq!(rt; told?.as_str(), "failed 1;fed 10;");
    Ok(())
}

/// The reading that lacks memory, from 1, and what two feeds of nine lines and a take return over
/// `3\n1\n2`.
static LACKS: &[(u32, &str)] = &[
    (1, "memory 0;fed 3;taken 2@2 3@4 1@0;"),
    (2, "memory 1;fed 2;taken 2@2 3@4 1@0;"),
    (3, "memory 2;fed 1;taken 2@2 3@4 1@0;"),
    (4, "fed 3;closed;taken 2@2 3@4 1@0;"),
];

/// What a lane returns whose reading of this number lacks memory.
fn told_of_lack(alloc: Global, at: u32) -> Result<String, Fail> {
    let source = source(alloc, b"3\n1\n2", 3, &[])?;
    let reader = FirstByte::lacking_at(at);
    match Lane::make(alloc, source, reader, 0, None, LaneStart::Fresh) {
        Ok(lane) => {
            let mut lane = lane;
            let told = replies(alloc, &mut lane, &[NINE, NINE, END]);
            drop(lane);
            told
        }
        Err((_, source)) => {
            drop(source);
            Err(Fail::from("the lane isn't made"))
        }
    }
}

/// After want of memory the line at hand is read again.
#[test]
fn feeds_go_on_after_want_of_memory(rt: HostRuntime) -> Result<(), Fail> {
    for &(at, told) in LACKS {
        assert_eq!(rt; told_of_lack(rt.alloc(), at)?.as_str(), told);
    }
    Ok(())
}

/// Texts with lines of many lengths, each of which begins with its time.
static TEXTS: &[&[u8]] = &[b"5abc\n4\n\n \n6de\r\n3 f", b"\n\n\n9\n", b"7\n6\n5\n4\n"];

/// Reads nine lines, and takes what was read.
fn feed_and_take(lane: &mut TestLane) -> Result<Items, Fail> {
    drop(play(lane, NINE)?);
    match play(lane, END)? {
        LaneReply::Taken(items) => Ok(items),
        other => {
            drop(other);
            Err(Fail::from("nothing was taken"))
        }
    }
}

/// The events of a text, and how many were accepted.
fn events_of(alloc: Global, text: &[u8]) -> Result<(Items, u32), Fail> {
    let source = source(alloc, text, 2, &[])?;
    let mut lane = lane(alloc, source, None)?;
    let taken = feed_and_take(&mut lane);
    let accepted = lane.counts().accepted;
    drop(lane);
    Ok((taken?, accepted))
}

/// Each event stands at the place of its line: there its first byte is, behind a line feed.
#[test]
fn places_are_those_of_lines(rt: HostRuntime) -> Result<(), Fail> {
    for &text in TEXTS {
        let (items, accepted) = events_of(rt.alloc(), text)?;
        assert_eq!(rt; items.items().len(), accepted as usize);
        for item in items.items() {
            let at = item.order.at as usize;
            let seconds = item.order.ts / 1000000000;
            assert_eq!(rt;
                text.get(at).map(|byte| i128::from(*byte)),
                Some(seconds + 48)
            );
            assert!(rt; at == 0 || text.get(at - 1) == Some(&b'\n'));
        }
    }
    Ok(())
}
