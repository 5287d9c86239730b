//! Lanes that are lifted: wanted lines with their places, and those that are missing.
ghost use Rattle.std.specs.Prelude.{◌≡◌, IfOk};
ghost use Rattle.std.specs.List.Sorted.{IsStrictlyIncreasing};
ghost use Rattle.eql_lane.specs.Starts.{MayStart};

use crate::tests::lanes::{
    END, NINE, TestLane, begun, cut_of_two, empty_cut, refusal, replies, source,
};
use crate::tests::reader::FirstByte;
use eql_digest::Digest;
use eql_lane::{Lane, LaneOp, LaneStart};
use eql_values::{Counts, Item, Items, LaneCut, Lines, Memory, OrderKey, Places, Routes};
use std::alloc::Global;
use std::fmt::Write;
use std::test::Fail;

/// A lift of a cut with no events, and what is told of it.
struct Lift {
    /// The text of the shard.
    text: &'static [u8],
    /// The numbers, from 1, of the takes that fail.
    fails: &'static [u64],
    /// The bytes that the cut says were read.
    offset: u64,
    /// Whether the cut says that the shard was closed.
    closed: bool,
    /// The wanted lines.
    wanted: &'static [u32],
    /// Why the lane isn't made, or the places.
    told: &'static str,
}

static LIFTS: &[Lift] = &[
    Lift {
        text: b"ab\n\nc\nd\n",
        fails: &[],
        offset: 6,
        closed: false,
        wanted: &[1, 2, 3],
        told: "1@0 2@3 3@4;",
    },
    Lift {
        text: b"ab\n\nc\nd\n",
        fails: &[],
        offset: 6,
        closed: false,
        wanted: &[3],
        told: "3@4;",
    },
    Lift {
        text: b"ab\n\nc\nd\n",
        fails: &[],
        offset: 6,
        closed: false,
        wanted: &[],
        told: "none;",
    },
    // Line 4 stands behind the offset.
    Lift {
        text: b"ab\n\nc\nd\n",
        fails: &[],
        offset: 6,
        closed: false,
        wanted: &[2, 4, 7],
        told: "no line 4",
    },
    // The offset cuts line 3 in two.
    Lift {
        text: b"ab\n\nc\nd\n",
        fails: &[],
        offset: 5,
        closed: false,
        wanted: &[2, 3],
        told: "no line 3",
    },
    Lift {
        text: b"ab\n\nc\nd\n",
        fails: &[],
        offset: 5,
        closed: false,
        wanted: &[1, 2],
        told: "1@0 2@3;",
    },
    // The last line needs no line feed.
    Lift {
        text: b"ab\n\nc",
        fails: &[],
        offset: 5,
        closed: true,
        wanted: &[1, 3],
        told: "1@0 3@4;",
    },
    Lift {
        text: b"ab\n\nc",
        fails: &[],
        offset: 5,
        closed: false,
        wanted: &[3],
        told: "3@4;",
    },
    Lift {
        text: b"ab\n\nc",
        fails: &[],
        offset: 5,
        closed: true,
        wanted: &[3, 4],
        told: "no line 4",
    },
    // A missing line comes before a further byte, and behind too few.
    Lift {
        text: b"ab\n\nc\n",
        fails: &[],
        offset: 5,
        closed: true,
        wanted: &[3],
        told: "no line 3",
    },
    Lift {
        text: b"ab\n\nc\n",
        fails: &[],
        offset: 5,
        closed: true,
        wanted: &[2],
        told: "grown",
    },
    Lift {
        text: b"ab\n",
        fails: &[],
        offset: 5,
        closed: true,
        wanted: &[4],
        told: "short 5 3",
    },
    // Lines count from 1.
    Lift {
        text: b"ab\n",
        fails: &[],
        offset: 3,
        closed: false,
        wanted: &[0, 1],
        told: "no line 0",
    },
    Lift {
        text: b"",
        fails: &[],
        offset: 0,
        closed: true,
        wanted: &[1],
        told: "no line 1",
    },
    Lift {
        text: b"ab\n",
        fails: &[1],
        offset: 3,
        closed: false,
        wanted: &[1],
        told: "failed",
    },
    // The take behind the offset fails.
    Lift {
        text: b"a",
        fails: &[2],
        offset: 1,
        closed: false,
        wanted: &[1],
        told: "failed",
    },
];

/// Lines that ascend.
fn ascending(alloc: Global, lines: &[u32]) -> Result<Lines, Fail>
    ensures { IfOk result IsStrictlyIncreasing }
{
    let mut next = 1;
    while next < lines.len() {
        if lines[next] <= lines[next - 1] {
            return Err(Fail::from("the lines don't ascend"));
        }
        next += 1;
    }
    Ok(Lines::of(Vec::from_slice(alloc, lines)?))
}

/// The start of a lift.
fn start_of(alloc: Global, lift: &Lift) -> Result<LaneStart, Fail>
    ensures { IfOk result MayStart }
{
    if 1099511627776 < lift.offset {
        return Err(Fail::from("no such cut"));
    }
    let wanted = ascending(alloc, lift.wanted)?;
    let cut = empty_cut(alloc, lift.offset, Digest::new(), lift.closed, 9);
    Ok(LaneStart::Lift { cut, wanted })
}

/// Writes lines with their places.
fn write_places(out: &mut String, places: &Places) -> Result<(), Fail> {
    if places.items().is_empty() {
        write!(out, "none")?;
    }
    let mut between = "";
    for (line, at) in places.items() {
        write!(out, "{between}{line}@{at}")?;
        between = " ";
    }
    write!(out, ";")?;
    Ok(())
}

/// The places of a lane.
fn told_of_places(alloc: Global, lane: &mut TestLane) -> Result<String, Fail> {
    let mut out = String::new(alloc);
    write_places(&mut out, &lane.places())?;
    Ok(out)
}

/// The places of a lane, which has none a second time.
fn only_places(alloc: Global, lane: &mut TestLane) -> Result<String, Fail> {
    let told = told_of_places(alloc, lane)?;
    if lane.places().items().is_empty() {
        Ok(told)
    } else {
        Err(Fail::from("there are places a second time"))
    }
}

/// What is told of a lift, in pieces of so many bytes.
fn told_of_lift(alloc: Global, lift: &Lift, piece: usize) -> Result<String, Fail> {
    let source = source(alloc, lift.text, piece, lift.fails)?;
    let start = start_of(alloc, lift)?;
    match Lane::make(alloc, source, FirstByte::new(), 0, None, start) {
        Err((refused, source)) => {
            drop(source);
            refusal(alloc, refused)
        }
        Ok(lane) => {
            let mut lane = lane;
            let told = only_places(alloc, &mut lane);
            drop(lane);
            told
        }
    }
}

#[test]
fn wanted_lines_have_places(rt: HostRuntime) -> Result<(), Fail> {
    let alloc = rt.alloc();
    for lift in LIFTS {
        for piece in [1, 2, 4, 65536] {
            if piece > 1 && !lift.fails.is_empty() {
                continue;
            }
            let out = told_of_lift(alloc, lift, piece)?;
            assert_eq!(rt; out.as_str(), lift.told);
        }
    }
    Ok(())
}

/// A lift of a cut with a slack of a second over the lines `1` and `5`, of which the second is
/// held and has no place.
fn lift_of_line_two(alloc: Global) -> Result<LaneStart, Memory>
    ensures { IfOk result MayStart }
{
    let mut wanted = Vec::new(alloc);
    wanted.push(2)?;
    let cut = cut_of_two!(alloc, Digest::new(), 2, 2, 0);
    Ok(LaneStart::Lift {
        cut,
        wanted: Lines::of(wanted),
    })
}

/// The places of a lane, and what it returns then.
fn places_and_replies(alloc: Global, lane: &mut TestLane) -> Result<(String, String), Fail> {
    let places = told_of_places(alloc, lane)?;
    let replies = replies(alloc, lane, &[LaneOp::Snap, NINE, END])?;
    Ok((places, replies))
}

/// The held event has the place of its line, and the lane goes on as from a cut with places.
#[test]
fn held_events_have_places(rt: HostRuntime) -> Result<(), Fail> {
    let alloc = rt.alloc();
    let source = source(alloc, b"1\n5\n4\n3\n", 3, &[])?;
    let mut lane = begun(alloc, source, lift_of_line_two(alloc)?)?;
    let told = places_and_replies(alloc, &mut lane);
    drop(lane);
    let (places, replies) = told?;
    assert_eq!(rt; places.as_str(), "2@2;");
    assert_eq!(rt; replies.as_str(), "cut 4 2 false 2@2;fed 2;taken 3@4 2@2;");
    Ok(())
}
