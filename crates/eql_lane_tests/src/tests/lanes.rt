//! Rows of lanes: texts in pieces, batches, slacks and faults, with what each operation returns.
//! The results were worked out by hand.
ghost use Rattle.std.specs.Prelude.{◌≡◌, ◌≤◌, [], IfOk};
ghost use Rattle.eql_lane.specs.Starts.{MayBegin, MayStart};

use crate::tests::digests::digest_of;
use crate::tests::reader::FirstByte;
use eql_digest::Digest;
use eql_lane::{Lane, LaneOp, LaneRefused, LaneReply, LaneStart, ShardLimit};
use eql_outside::{MemFile, MemSource, Source};
use eql_values::{Counts, Item, Items, LaneCut, LineReader, Mark, Memory, OrderKey, Routes};
use std::alloc::Global;
use std::fmt::Write;
use std::test::Fail;

/// A lane in memory.
pub(crate) type TestLane = Lane<MemSource, FirstByte>;

/// What is played on a lane, and what is told.
struct Row {
    /// The text of the shard.
    text: &'static [u8],
    /// The numbers, from 1, of the takes that fail.
    fails: &'static [u64],
    /// The slack, in milliseconds.
    slack: Option<u64>,
    /// What is played.
    ops: &'static [LaneOp],
    /// Each result, followed by `;`.
    told: &'static str,
}

pub(crate) const END: LaneOp = LaneOp::Take { mark: Mark::End };

const LOOK: LaneOp = LaneOp::Look;

pub(crate) const ONE: LaneOp = LaneOp::Feed { max: 1 };

pub(crate) const NINE: LaneOp = LaneOp::Feed { max: 9 };

/// The rows whose results are the same for all pieces.
static ROWS: &[Row] = &[
    // Line 2 comes 6 s behind line 1, line 3 comes 4 s behind it.
    Row {
        text: b":\n4\n6\n",
        fails: &[],
        slack: Some(5000),
        ops: &[ONE, LOOK, NINE, LOOK, END, ONE],
        told: "fed 1;low 5000000000;fed 2;low end;taken 3@4 1@0;closed;",
    },
    // A line that comes the slack behind isn't late, in a batch of its own or not.
    Row {
        text: b":\n5\n4",
        fails: &[],
        slack: Some(5000),
        ops: &[ONE, ONE, ONE, ONE, END],
        told: "fed 1;fed 1;fed 1;closed;taken 2@2 1@0;",
    },
    // Blank lines and rejected ones are counted, and the last line needs no line feed.
    Row {
        text: b"\n!\n \t\r\nA",
        fails: &[],
        slack: None,
        ops: &[NINE, LOOK, END],
        told: "fed 4;low end;taken 4@7;",
    },
    // What lies at the mark isn't handed out, and neither is what lies above the low.
    Row {
        text: b"1\n2\n3\n4\n",
        fails: &[],
        slack: Some(1000),
        ops: &[
            LaneOp::Feed { max: 3 },
            LaneOp::Take {
                mark: Mark::At(1000000000),
            },
            END,
            NINE,
            LaneOp::Take {
                mark: Mark::At(3000000000),
            },
            END,
        ],
        told: "fed 3;taken;taken 1@0;fed 1;taken 2@2;taken 3@4 4@6;",
    },
    // With no slack nothing is late, and nothing is handed out before the end.
    Row {
        text: b"z\n0\n",
        fails: &[],
        slack: None,
        ops: &[LaneOp::Feed { max: 2 }, LOOK, END, ONE, LOOK, END, ONE],
        told: "fed 2;low start;taken;closed;low end;taken 2@2 1@0;closed;",
    },
    // Events in any order are told, and handed out, in theirs.
    Row {
        text: b"3\n1\n5\n2\n4\n",
        fails: &[],
        slack: None,
        ops: &[NINE, LaneOp::Snap, END, LaneOp::Snap],
        told: "fed 5;cut 10 5 true 2@2 4@6 1@0 5@8 3@4;taken 2@2 4@6 1@0 5@8 3@4;cut 10 5 true;",
    },
    // An empty shard.
    Row {
        text: b"",
        fails: &[],
        slack: None,
        ops: &[ONE, LOOK, END, ONE],
        told: "closed;low end;taken;closed;",
    },
];

/// A failed take is told with the lines before it, and the next feed goes on.
static FAULTS: &[Row] = &[
    Row {
        text: b"1\n2\n3\n",
        fails: &[1],
        slack: None,
        ops: &[NINE, NINE, END],
        told: "failed 0;fed 3;taken 1@0 2@2 3@4;",
    },
    Row {
        text: b"1\n2\n3\n",
        fails: &[2],
        slack: None,
        ops: &[NINE, NINE, END],
        told: "failed 1;fed 2;taken 1@0 2@2 3@4;",
    },
    Row {
        text: b"1\n2\n3\n",
        fails: &[3],
        slack: None,
        ops: &[NINE, NINE, END],
        told: "failed 2;fed 1;taken 1@0 2@2 3@4;",
    },
    Row {
        text: b"1\n2\n3\n",
        fails: &[4],
        slack: None,
        ops: &[NINE, LOOK, NINE, LOOK, END],
        told: "failed 3;low start;closed;low end;taken 1@0 2@2 3@4;",
    },
];

/// A source in memory, in pieces of so many bytes, of which these takes fail, numbered from 1.
pub(crate) fn source(
    alloc: Global,
    text: &[u8],
    piece: usize,
    fails: &[u64],
) -> Result<MemSource, Fail> {
    if piece == 0 {
        return Err(Fail::from("a piece has no bytes"));
    }
    Ok(MemSource::new(MemFile {
        name: String::new(alloc),
        bytes: Vec::from_slice(alloc, text)?,
        piece,
        fails: Vec::from_slice(alloc, fails)?,
    }))
}

/// A fresh lane over a source.
pub(crate) fn lane(alloc: Global, source: MemSource, slack: Option<u64>) -> Result<TestLane, Fail> {
    if let Some(ms) = slack
        && ms > 3153600000000
    {
        return Err(Fail::from("the slack is too great"));
    }
    match Lane::make(alloc, source, FirstByte::new(), 0, slack, LaneStart::Fresh) {
        Ok(lane) => Ok(lane),
        Err(_) => Err(Fail::from("the lane isn't made")),
    }
}

/// Plays an operation that may be played.
pub(crate) fn play<L: LineReader>(
    lane: &mut Lane<MemSource, L>,
    op: LaneOp,
) -> Result<LaneReply, Fail> {
    match op {
        LaneOp::Feed { max } => {
            if max < 1 || 4096 < max {
                return Err(Fail::from("no such batch"));
            }
            Ok(lane.play(LaneOp::Feed { max }))
        }
        LaneOp::Take { mark } => Ok(lane.play(LaneOp::Take { mark })),
        LaneOp::Look => Ok(lane.play(LaneOp::Look)),
        LaneOp::Snap => Ok(lane.play(LaneOp::Snap)),
    }
}

fn crosses_threads<T: Send>(_value: &T) {}

/// A lane may go to another thread where its source and its reader may.
fn lane_crosses_threads<S: Source + Send, L: LineReader + Send>(lane: &Lane<S, L>) {
    crosses_threads(lane);
}

/// Writes the lines of events with their places.
fn write_items(out: &mut String, items: &Items) -> Result<(), Fail> {
    for item in items.items() {
        let line = item.order.line;
        let at = item.order.at;
        write!(out, " {line}@{at}")?;
    }
    Ok(())
}

fn write_cut(out: &mut String, cut: &LaneCut) -> Result<(), Fail> {
    let offset = cut.offset;
    let lines = cut.counts.lines;
    let closed = cut.closed;
    write!(out, "cut {offset} {lines} {closed}")?;
    write_items(out, &cut.items)
}

/// Writes a result, followed by `;`.
pub(crate) fn write_reply(out: &mut String, reply: &LaneReply) -> Result<(), Fail> {
    match reply {
        LaneReply::Fed { lines } => write!(out, "fed {lines}")?,
        LaneReply::Held { ready } => write!(out, "held {ready}")?,
        LaneReply::Closed => write!(out, "closed")?,
        LaneReply::Failed { lines } => write!(out, "failed {lines}")?,
        LaneReply::Limit(ShardLimit::Lines { shard }) => write!(out, "too many lines {shard}")?,
        LaneReply::Limit(_) => write!(out, "limit")?,
        LaneReply::Taken(items) => {
            write!(out, "taken")?;
            write_items(out, items)?;
        }
        LaneReply::Low(Mark::Start) => write!(out, "low start")?,
        LaneReply::Low(Mark::At(t)) => write!(out, "low {t}")?,
        LaneReply::Low(Mark::End) => write!(out, "low end")?,
        LaneReply::Cut(cut) => write_cut(out, cut)?,
        LaneReply::Memory { lines } => write!(out, "memory {lines}")?,
    }
    write!(out, ";")?;
    Ok(())
}

/// Plays an operation, and writes the reply.
fn play_told<L: LineReader>(
    lane: &mut Lane<MemSource, L>,
    op: LaneOp,
    out: &mut String,
) -> Result<(), Fail> {
    let reply = play(lane, op)?;
    let written = write_reply(out, &reply);
    drop(reply);
    written
}

/// What operations in turn return.
pub(crate) fn replies<L: LineReader>(
    alloc: Global,
    lane: &mut Lane<MemSource, L>,
    ops: &[LaneOp],
) -> Result<String, Fail> {
    let mut out = String::new(alloc);
    for op in ops {
        play_told(lane, *op, &mut out)?;
    }
    Ok(out)
}

/// What a lane over the row's text in such pieces returns.
fn told(alloc: Global, row: &Row, piece: usize) -> Result<String, Fail> {
    let source = source(alloc, row.text, piece, row.fails)?;
    let mut lane = lane(alloc, source, row.slack)?;
    let told = replies(alloc, &mut lane, row.ops);
    drop(lane);
    told
}

/// A start from a cut with no events, and what is told of it.
struct Start {
    /// The text of the shard.
    text: &'static [u8],
    /// The numbers, from 1, of the takes that fail.
    fails: &'static [u64],
    /// How many bytes the cut says were read.
    offset: u64,
    /// The bytes of whose digest the cut is.
    read: &'static [u8],
    /// Whether the cut says that the shard was closed.
    closed: bool,
    /// The lines that the cut says were read.
    lines: u32,
    /// Why the lane isn't made, or what feeds of one line and of nine, and a take return.
    told: &'static str,
}

static STARTS: &[Start] = &[
    Start {
        text: b"1\n2\n3",
        fails: &[],
        offset: 2,
        read: b"1\n",
        closed: false,
        lines: 7,
        told: "fed 1;fed 1;taken 8@2 9@4;",
    },
    Start {
        text: b"1\n",
        fails: &[],
        offset: 2,
        read: b"1\n",
        closed: false,
        lines: 1,
        told: "closed;closed;taken;",
    },
    Start {
        text: b"1\n2",
        fails: &[],
        offset: 5,
        read: b"1\n2",
        closed: false,
        lines: 1,
        told: "short 5 3",
    },
    Start {
        text: b"",
        fails: &[],
        offset: 1,
        read: b"",
        closed: true,
        lines: 1,
        told: "short 1 0",
    },
    Start {
        text: b"1\n2",
        fails: &[],
        offset: 3,
        read: b"1\n2",
        closed: true,
        lines: 2,
        told: "closed;closed;taken;",
    },
    Start {
        text: b"1\n2",
        fails: &[],
        offset: 2,
        read: b"1\n",
        closed: true,
        lines: 1,
        told: "grown",
    },
    Start {
        text: b"1\n2",
        fails: &[1],
        offset: 2,
        read: b"1\n",
        closed: false,
        lines: 1,
        told: "failed",
    },
    // The take behind a closed cut fails.
    Start {
        text: b"1\n",
        fails: &[3],
        offset: 2,
        read: b"1\n",
        closed: true,
        lines: 1,
        told: "failed",
    },
    // Other bytes stand before the offset, by one or by what stands behind it too.
    Start {
        text: b"1\n2\n3",
        fails: &[],
        offset: 2,
        read: b"2\n",
        closed: false,
        lines: 1,
        told: "differs",
    },
    Start {
        text: b"1\n2\n3",
        fails: &[],
        offset: 2,
        read: b"1\n2\n",
        closed: false,
        lines: 1,
        told: "differs",
    },
    // They are told before a further byte is, and not where there are too few.
    Start {
        text: b"1\n2",
        fails: &[],
        offset: 2,
        read: b"",
        closed: true,
        lines: 1,
        told: "differs",
    },
    Start {
        text: b"1\n2",
        fails: &[],
        offset: 4,
        read: b"3\n4\n",
        closed: false,
        lines: 2,
        told: "short 4 3",
    },
    // No further line may be read.
    Start {
        text: b"{}a",
        fails: &[],
        offset: 2,
        read: b"{}",
        closed: false,
        lines: 4294967294,
        told: "too many lines 0;too many lines 0;taken;",
    },
];

/// A cut that holds no events.
pub(crate) fn empty_cut(
    alloc: Global,
    offset: u64,
    digest: Digest,
    closed: bool,
    lines: u32,
) -> LaneCut
    requires lines { lines ≤ 4294967294 }
    requires bytes { offset ≤ 1099511627776 }
    ensures may { MayBegin result }
    ensures none { result.items ≡ [] }
{
    LaneCut {
        offset,
        digest,
        closed,
        best: None,
        counts: Counts {
            lines,
            accepted: 0,
            late: 0,
            rejected: 0,
            first: None,
        },
        items: Items::of(Vec::new(alloc)),
    }
}

/// Writes why a lane isn't made.
fn write_refused(out: &mut String, refused: LaneRefused) -> Result<(), Fail> {
    match refused {
        LaneRefused::Short { offset, had } => write!(out, "short {offset} {had}")?,
        LaneRefused::Differs => write!(out, "differs")?,
        LaneRefused::NoLine { line } => write!(out, "no line {line}")?,
        LaneRefused::Grown => write!(out, "grown")?,
        LaneRefused::Failed => write!(out, "failed")?,
        LaneRefused::Memory => write!(out, "memory")?,
    }
    Ok(())
}

/// Why a lane isn't made.
pub(crate) fn refusal(alloc: Global, refused: LaneRefused) -> Result<String, Fail> {
    let mut out = String::new(alloc);
    write_refused(&mut out, refused)?;
    Ok(out)
}

/// What is told of a start, in pieces of one byte.
fn told_of_start(alloc: Global, start: &Start) -> Result<String, Fail> {
    if 4294967294 < start.lines || 1099511627776 < start.offset {
        return Err(Fail::from("no such cut"));
    }
    let source = source(alloc, start.text, 1, start.fails)?;
    let digest = digest_of(start.read);
    let cut = empty_cut(alloc, start.offset, digest, start.closed, start.lines);
    match Lane::make(
        alloc,
        source,
        FirstByte::new(),
        0,
        None,
        LaneStart::From(cut),
    ) {
        Err((refused, source)) => {
            drop(source);
            refusal(alloc, refused)
        }
        Ok(lane) => {
            let mut lane = lane;
            let told = replies(alloc, &mut lane, &[ONE, NINE, END]);
            drop(lane);
            told
        }
    }
}

/// What a cut keeps of a lane with a slack of a second over two lines, with this digest. The one on this line is `5`, and is held.
/// So many of both were accepted, and so many late.
macro_rules! cut_of_two {
    ($alloc:expr, $digest:expr, $line:expr, $accepted:expr, $late:expr) => {{
        let mut items = Vec::new($alloc);
        items.push(Item {
            order: OrderKey {
                ts: 5000000000,
                tie: None,
                shard: 0,
                line: $line,
                at: 0,
            },
            routes: Routes::of(Vec::new($alloc)),
        })?;
        LaneCut {
            offset: 4,
            digest: $digest,
            closed: false,
            best: Some(5000000000),
            counts: Counts {
                lines: 2,
                accepted: $accepted,
                late: $late,
                rejected: 0,
                first: None,
            },
            items: Items::of(items),
        }
    }};
}

pub(crate) use cut_of_two;

/// What a cut keeps over the lines `5` and `1`, with this digest: the first is held, the second is late.
pub(crate) fn cut_of_two_lines(alloc: Global, digest: Digest) -> Result<LaneCut, Memory>
    ensures { IfOk result MayBegin }
{
    Ok(cut_of_two!(alloc, digest, 1, 1, 1))
}

/// A lane with a slack of a second that begins so.
pub(crate) fn begun(alloc: Global, source: MemSource, start: LaneStart) -> Result<TestLane, Fail>
    requires { MayStart start }
{
    match Lane::make(alloc, source, FirstByte::new(), 0, Some(1000), start) {
        Ok(lane) => Ok(lane),
        Err((_, source)) => {
            drop(source);
            Err(Fail::from("the lane isn't made"))
        }
    }
}

/// The time and the held events of a cut go on: line 3 isn't late, line 4 is.
#[test]
fn held_events_go_on_from_a_cut(rt: HostRuntime) -> Result<(), Fail> {
    let alloc = rt.alloc();
    let source = source(alloc, b"5\n1\n4\n3\n", 3, &[])?;
    let cut = cut_of_two_lines(alloc, digest_of(b"5\n1\n"))?;
    let mut lane = begun(alloc, source, LaneStart::From(cut))?;
    let told = replies(alloc, &mut lane, &[LOOK, LaneOp::Snap, NINE, END]);
    let counts = lane.counts();
    drop(lane);
    let expected = "low 4000000000;cut 4 2 false 1@0;fed 2;taken 3@4 1@0;";
    assert_eq!(rt; told?.as_str(), expected);
    assert_eq!(rt; (counts.late, counts.accepted), (2, 2));
    Ok(())
}

#[test]
fn lanes_begin_from_cuts(rt: HostRuntime) -> Result<(), Fail> {
    let alloc = rt.alloc();
    for start in STARTS {
        let out = told_of_start(alloc, start)?;
        assert_eq!(rt; out.as_str(), start.told);
    }
    Ok(())
}

#[test]
fn rows_answer_in_all_pieces(rt: HostRuntime) -> Result<(), Fail> {
    let alloc = rt.alloc();
    for row in ROWS {
        for piece in [1, 2, 3, 7, 65536] {
            let out = told(alloc, row, piece)?;
            assert_eq!(rt; out.as_str(), row.told);
        }
    }
    Ok(())
}

#[test]
fn feeds_go_on_after_faults(rt: HostRuntime) -> Result<(), Fail> {
    let alloc = rt.alloc();
    for row in FAULTS {
        let out = told(alloc, row, 2)?;
        assert_eq!(rt; out.as_str(), row.told);
    }
    Ok(())
}

#[test]
fn cuts_tell_what_is_held(rt: HostRuntime) -> Result<(), Fail> {
    let alloc = rt.alloc();
    let source = source(alloc, b"3\n1\n2\n", 4, &[])?;
    let mut lane = lane(alloc, source, None)?;
    lane_crosses_threads(&lane);
    let ops = [LaneOp::Feed { max: 2 }, LaneOp::Snap, NINE, LaneOp::Snap];
    let told = replies(alloc, &mut lane, &ops);
    drop(lane);
    assert_eq!(rt;
        told?.as_str(),
        "fed 2;cut 4 2 false 2@2 1@0;fed 1;cut 6 3 true 2@2 3@4 1@0;"
    );
    Ok(())
}
