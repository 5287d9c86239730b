//! A bench that writes down what is played on it and what is returned, a sink that writes down its calls, and a run over both.
ghost use Rattle.std.specs.Prelude.{◌≡◌, ◌<◌, ℕ, None, length, true};
ghost use Rattle.eql_parts.specs.PartSteps.{Rules};
ghost use Rattle.eql_replay_tests.specs.Opens.{MayKeepOver, Starts};

use crate::opening::{MemLane, fresh_lanes};
use crate::parts::Sought;
use crate::running::open_bench;
use crate::starting::{fresh_book, head_of, sought_by};
use eql_book::Book;
use eql_ckdisk::recover;
use eql_conductor::{Bench, Conductor, Keep, NotPlayed, RunPlan, Stop};
use eql_lane::{Lane, LaneOp, LaneReply};
use eql_outside::{Disk, MemDisk, MemSink, MemSource, OutRefused, Sink};
use eql_parts::{PartOp, PartReply};
use eql_replay::{Foreigns, ListBench, Opening};
use eql_stages::{Plan, PlanReader};
use eql_values::{Holders, LineReader, Mark};
use std::alloc::{AllocError, Global};
use std::fmt::Write;
use std::marker::Brand;
use std::sync::ledger::{Blank, Ledger};
use std::test::Fail;

/// A bench that writes down what is played on it, lanes and parts apart.
#[derive(Drop)]
struct Scribe<B: Bench> {
    bench: B,
    lanes: String,
    parts: String,
}

/// Writes a mark, in milliseconds.
fn write_mark(notes: &mut String, mark: Mark) -> Result<(), AllocError> {
    match mark {
        Mark::Start => write!(notes, "start;"),
        Mark::At(time) => {
            let ms = time.checked_div(1_000_000).unwrap_or(0);
            write!(notes, "{ms};")
        }
        Mark::End => write!(notes, "end;"),
    }
}

/// Writes what a feed of a lane returned.
fn note_feed(
    notes: &mut String,
    s: u32,
    reply: &Result<LaneReply, NotPlayed>,
) -> Result<(), AllocError> {
    match reply {
        Ok(LaneReply::Fed { lines }) => write!(notes, "{s} fed {lines};"),
        Ok(LaneReply::Held { ready }) => write!(notes, "{s} held {ready};"),
        Ok(LaneReply::Closed) => write!(notes, "{s} closed;"),
        _ => write!(notes, "{s} failed;"),
    }
}

/// Writes what was played on a lane.
fn note_lane(
    notes: &mut String,
    s: u32,
    op: LaneOp,
    reply: &Result<LaneReply, NotPlayed>,
) -> Result<(), AllocError> {
    match (op, reply) {
        (LaneOp::Feed { max: _ }, _) => note_feed(notes, s, reply),
        (LaneOp::Look, Ok(LaneReply::Low(mark))) => {
            write!(notes, "{s} low ")?;
            write_mark(notes, *mark)
        }
        (LaneOp::Look, _) => write!(notes, "{s} look;"),
        (LaneOp::Take { mark }, _) => {
            write!(notes, "{s} took to ")?;
            write_mark(notes, mark)
        }
        (LaneOp::Snap, _) => write!(notes, "{s} snapped;"),
    }
}

/// What a part is asked.
#[derive(Clone, Copy)]
enum Asked {
    Deliver,
    Turn,
    Collect,
    Snap,
}

fn ask_of(op: &PartOp) -> Asked {
    match op {
        PartOp::Deliver { items: _, mark: _ } => Asked::Deliver,
        PartOp::Turn { max: _ } => Asked::Turn,
        PartOp::Collect => Asked::Collect,
        PartOp::Snap => Asked::Snap,
    }
}

/// Writes what was played on a part.
fn note_part(
    notes: &mut String,
    p: u32,
    asked: Asked,
    reply: &Result<PartReply, NotPlayed>,
) -> Result<(), AllocError> {
    match (asked, reply) {
        (Asked::Deliver, _) => write!(notes, "{p} delivered;"),
        (Asked::Turn, Ok(PartReply::Turned { items })) => write!(notes, "{p} turned {items};"),
        (Asked::Turn, _) => write!(notes, "{p} turned 0;"),
        (Asked::Collect, _) => write!(notes, "{p} collected;"),
        (Asked::Snap, _) => write!(notes, "{p} snapped;"),
    }
}

impl<B: Bench> Bench for Scribe<B> {
    ghost known = { λ s. B.known s.bench };

    fn lanes(&self) -> u32 {
        self.bench.lanes()
    }

    fn parts(&self) -> u32 {
        self.bench.parts()
    }

    fn lane(&mut self, s: u32, op: LaneOp) -> Result<LaneReply, NotPlayed> {
        let reply = self.bench.lane(s, op);
        let _ = note_lane(&mut self.lanes, s, op, &reply);
        reply
    }

    fn part(&mut self, p: u32, op: PartOp) -> Result<PartReply, NotPlayed> {
        let asked = ask_of(&op);
        let reply = self.bench.part(p, op);
        let _ = note_part(&mut self.parts, p, asked, &reply);
        reply
    }
}

/// A sink that writes down its calls.
#[derive(Drop)]
struct SinkScribe<K: Sink> {
    sink: K,
    calls: String,
}

impl<K: Sink> Sink for SinkScribe<K> {
    ghost written = { λ s. K.written s.sink };

    ghost kept = { λ s. K.kept s.sink };

    ghost fault_count = { λ s. K.fault_count s.sink };

    ghost fault_plan = { λ s. K.fault_plan s.sink };

    fn write(&mut self, alloc: Global, bytes: &[u8]) -> Result<(), OutRefused> {
        let done = self.sink.write(alloc, bytes);
        let count = bytes.len();
        let _ = write!(self.calls, "wrote {count};");
        done
    }

    fn keep(&mut self, alloc: Global) -> Result<(), OutRefused> {
        let done = self.sink.keep(alloc);
        let _ = write!(self.calls, "kept;");
        done
    }

    fn faults(&self) -> u64 {
        self.sink.faults()
    }
}

/// How a run ended, and what was played on lanes and on parts.
#[derive(Drop)]
struct Played {
    end: Result<(), Stop>,
    lanes: String,
    parts: String,
}

/// The same, with the calls of the sink, and the sink as the run left it.
#[derive(Drop)]
pub(crate) struct Noted {
    pub(crate) end: Result<(), Stop>,
    pub(crate) lanes: String,
    pub(crate) parts: String,
    pub(crate) calls: String,
    pub(crate) sink: MemSink,
}

/// Runs over such a bench and sink, and writes down what is played.
fn note_over<L: LineReader + Drop, G: Ledger, T: Opening<MemSource, L>>(
    alloc: Global,
    plan: &RunPlan,
    sought: Sought,
    lanes: Vec<Lane<MemSource, L>>,
    holders: &Holders,
    plays: Vec<Foreigns>,
    blank: Blank,
    book: &mut Book,
    sink: &mut SinkScribe<MemSink>,
    keep: &mut Option<Keep<MemDisk>>,
) -> Result<Played, Fail>
    requires ledger { (blank.name ≡ G.name) × (blank.parts ≡ G.parts) × (0 < G.parts) }
    requires opening { (lanes.items ≡ T.lanes) × (plays.items ≡ T.plays) }
    requires untold { (s : ℕ) → T.text s ≡ None }
    requires starts { let rules : Rules = record { stages = sought.stages; span = sought.span }
        in Starts plan.now rules lanes.items holders.now book.old }
    requires whole { book.old.whole ≡ true }
    requires keeps { MayKeepOver ⟦<MemDisk as Disk>⟧.history plan.now (length lanes.items)
        keep.old }
{
    let bench: ListBench<MemSource, L, G, T> = open_bench(
        alloc, plan, sought, lanes, holders, plays, blank, book,
    )?;
    let mut scribe = Scribe {
        bench,
        lanes: String::new(alloc),
        parts: String::new(alloc),
    };
    let end = Conductor::run(alloc, plan, &mut scribe, book, sink, keep);
    let Scribe {
        bench: _,
        lanes,
        parts,
    } = scribe;
    Ok(Played { end, lanes, parts })
}

/// A run afresh that reads line by line with no slack, and keeps a cut after each so many rounds that count.
pub(crate) fn run_noted(
    alloc: Global,
    plan: &Plan,
    texts: &Vec<Vec<u8>>,
    every: u32,
    plays: Vec<Foreigns>,
) -> Result<Noted, Fail> {
    if every == 0 {
        return Err(Fail::new("no rounds"));
    }
    let lanes: Vec<MemLane> = fresh_lanes(alloc, plan, texts, Some(0))?;
    let go = RunPlan {
        batch: 1,
        every: Some(every),
        head: head_of(alloc, Some(0), lanes.len())?,
        mark: Mark::Start,
    };
    let mut book = fresh_book(alloc)?;
    let none = Holders::of(Vec::new(alloc));
    let (a, b) = (Vec::new(alloc), Vec::new(alloc));
    let mut disk = MemDisk::new(alloc, a, b, Vec::new(alloc), None)?;
    let state = recover(alloc, &mut disk)?.state;
    let mut keep = Some(Keep { disk, state });
    let mut scribe = SinkScribe {
        sink: MemSink::new(alloc, Vec::new(alloc)),
        calls: String::new(alloc),
    };
    let blank = Blank::new(1);
    let Played { end, lanes, parts } = note_over::<PlanReader, Brand, Brand>(
        alloc,
        &go,
        sought_by(plan),
        lanes,
        &none,
        plays,
        blank,
        &mut book,
        &mut scribe,
        &mut keep,
    )?;
    let SinkScribe { sink, calls } = scribe;
    Ok(Noted {
        end,
        lanes,
        parts,
        calls,
        sink,
    })
}
