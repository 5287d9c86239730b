//! A stop at each call of the disk, and runs that go on from whatever a crash may leave then.
//!
//! What both runs write is the listing together, each line under its number, and no cut is lost once it was put.
use crate::tests::checkpoints::{ALONE, BESIDE, FIRST_RUN};
use crate::tests::kept::{AFTER_FIVE, AFTER_TEN, Kept, cut_at, kept_in};
use crate::tests::row::{Row, Told, Words, found, row_like};
use crate::tests::run::{Areas, Ran, is_as_said, listed_of, run, see};
use crate::tests::sequences::REFERENCE;
use crate::tests::text::Piece::Starts;
use eql_cli::NoGate;
use eql_outside::MemDisk;
use eql_values::Memory;
use std::alloc::Global;
use std::process::Abort;
use std::sync::Wait;
use std::thread::Threads;

/// A first run, the cuts that it puts, and a second run that goes on from what a crash leaves of each.
struct Crash {
    first: Row,
    /// The first run where its disk stops.
    stopped: Row,
    cuts: &'static [Kept],
    second: Row,
    /// The second run where it goes on from the first thing that a crash may leave.
    beside: Row,
    /// How many of the things that a crash may leave are tried.
    images: u64,
}

/// The lines behind the first ones.
fn behind(lines: &'static [&'static str], count: u64) -> &'static [&'static str] {
    let all = lines.len();
    let from = if count < all as u64 {
        count as usize
    } else {
        all
    };
    &lines[from..]
}

/// How many cuts were put by a run before this call of its disk. It makes four calls to find nothing, and six for each cut.
fn put_before(call: u64) -> u64 {
    call.saturating_sub(5) / 6
}

/// How many lines were listed before the cut that a disk keeps, where that is one of these: the last one that was put, or the next.
fn listed_before(alloc: Global, areas: &Areas, cuts: &[Kept], put: u64) -> Option<u64> {
    let kept = kept_in(alloc, areas)?;
    if kept.generation != put && kept.generation != put.saturating_add(1) {
        return None;
    }
    if kept.generation == 0 || cuts.contains(&kept) {
        Some(kept.listed)
    } else {
        None
    }
}

/// Whether a run that goes on gave what its row says, with these lines, and wrote with the first one, which wrote so many bytes,
/// each line of the listing.
fn is_rest(
    alloc: Global,
    row: &Row,
    lines: &[&str],
    ran: &Ran,
    written: usize,
    came: &mut String,
) -> Result<bool, Memory> {
    let both = ran.out.bytes().len().saturating_add(written);
    Ok(
        listed_of(alloc, row, row.listed)?.len() <= both
            && is_as_said(alloc, row, lines, ran, came)?,
    )
}

/// Whether a run goes on from one of the things that a crash may leave of a disk, once so many cuts were put and so many bytes
/// were written.
fn goes_on<R: Threads + Wait + Sync>(
    rt: &R,
    alloc: Global,
    crash: &Crash,
    areas: &Areas,
    row: &Row,
    put: u64,
    written: usize,
    came: &mut String,
) -> Result<bool, Memory> {
    let Some(count) = listed_before(alloc, areas, crash.cuts, put) else {
        return Ok(false);
    };
    let (ran, disk) = run(rt, alloc, row, &[], areas, None, &NoGate)?;
    drop(disk);
    is_rest(alloc, row, behind(row.listed, count), &ran, written, came)
}

/// Whether runs go on from each thing that a crash may leave of a disk, once so many cuts were put and so many bytes were written.
fn go_on<R: Threads + Wait + Sync>(
    rt: &R,
    alloc: Global,
    crash: &Crash,
    disk: &MemDisk,
    put: u64,
    written: usize,
    came: &mut String,
) -> Result<bool, Memory> {
    for choice in 0..crash.images {
        let row = if choice == 0 {
            &crash.beside
        } else {
            &crash.second
        };
        let areas = Areas::left_by(alloc, disk, choice)?;
        if !goes_on(rt, alloc, crash, &areas, row, put, written, came)? {
            return Ok(false);
        }
    }
    Ok(true)
}

/// Whether a first run was done, or ended by its disk.
fn is_stopped(alloc: Global, crash: &Crash, ran: &Ran, came: &mut String) -> Result<bool, Memory> {
    let row = if ran.status == 0 {
        &crash.first
    } else {
        &crash.stopped
    };
    is_as_said(alloc, row, row.listed, ran, came)
}

/// Whether a first run gave what it should, and runs go on from whatever a crash may leave of its disk, once so many cuts were
/// put. Returns its status then.
fn is_gone_on<R: Threads + Wait + Sync>(
    rt: &R,
    alloc: Global,
    crash: &Crash,
    ran: &Ran,
    disk: &MemDisk,
    put: u64,
    came: &mut String,
) -> Result<Option<u8>, Memory> {
    if !is_stopped(alloc, crash, ran, came)? {
        return Ok(None);
    }
    let goes_on = go_on(rt, alloc, crash, disk, put, ran.out.bytes().len(), came)?;
    Ok(goes_on.then_some(ran.status))
}

/// Stops the first run at a call of its disk, and goes on from whatever a crash may leave. Returns its status, where all is as it
/// should be.
fn stop_at<R: Threads + Wait + Sync>(
    rt: &R,
    alloc: Global,
    crash: &Crash,
    call: u64,
    came: &mut String,
) -> Result<Option<u8>, Memory> {
    let start = Areas::empty(alloc);
    let (ran, disk) = run(rt, alloc, &crash.first, &[], &start, Some(call), &NoGate)?;
    drop(start);
    is_gone_on(rt, alloc, crash, &ran, &disk, put_before(call), came)
}

/// Stops the first run at each call of its disk, until it isn't stopped any more, and returns whether all cuts were put by then.
fn stop_at_each<R: Threads + Wait + Sync>(
    rt: &R,
    alloc: Global,
    crash: &Crash,
    came: &mut String,
) -> Result<bool, Memory> {
    for call in 1..1000u64 {
        match stop_at(rt, alloc, crash, call, came)? {
            Some(0) => return Ok(put_before(call) == crash.cuts.len() as u64),
            Some(_) => {}
            None => return Ok(false),
        }
    }
    Ok(false)
}

/// Sees that runs go on from whatever a stop of the first run may leave.
fn check_crash<R: Threads + Wait + Sync + Abort>(rt: &R, alloc: Global, crash: &Crash) {
    let mut came = String::new(alloc);
    let seen = stop_at_each(rt, alloc, crash, &mut came);
    see(rt, seen, came.as_str());
}

/// A first run, the options of the second run and of the one beside, how many images are tried, and the cuts that are put.
macro_rules! crash {
    ($first:expr, $second:expr, $beside:expr, $images:expr, $cuts:expr $(,)?) => {
        Crash {
            first: $first,
            stopped: row_like!($first, status: 6, told: Told::Lines(&["checkpoint disk fault"])),
            cuts: $cuts,
            second: row_like!($first, words: Words::Find($second)),
            beside: row_like!($first, words: Words::Find($beside)),
            images: $images,
        }
    };
}

/// The first run of the example.
static EXAMPLE: Crash = crash!(FIRST_RUN, ALONE, BESIDE, 16, &[AFTER_FIVE, AFTER_TEN]);

#[test]
fn crash_loses_no_cut(rt: HostRuntime) {
    check_crash(&rt, rt.alloc(), &EXAMPLE);
}

/// Events of three shards by turns, each a second after the one before. Each line of a shard is a round.
const THREE_SHARDS: Row = found!(
    "three shards",
    REFERENCE,
    &[Starts("1000 a attrib, 4000 b bash, 7000 c cat, 10000 a attrib, 13000 a cat")],
    &[
        r#"1 ["c"] 2:1 1:2 0:3"#,
        r#"2 ["a"] 0:1 2:2 1:3"#,
        r#"3 ["b"] 1:1 0:2 2:3"#,
        r#"4 ["a"] 0:4 1:4 0:5"#,
        r#"5 ["b"] 2:4 1:5 2:5"#,
    ],
    more: &[
        &[Starts("2000 b attrib, 5000 c bash, 8000 a cat, 11000 a bash, 14000 b bash")],
        &[Starts("3000 c attrib, 6000 a bash, 9000 b cat, 12000 b attrib, 15000 b cat")],
    ],
    words: Words::Find("--slack 0ms --batch 1 --hands 0 --checkpoint c --every 1"),
);

/// The run over three shards. It keeps a cut each round.
static IN_EACH_ROUND: Crash = crash!(
    THREE_SHARDS,
    "--slack 0ms --batch 3 --hands 0 --checkpoint c --every 2",
    "--slack 0ms --batch 3 --hands 1 --checkpoint c --every 2",
    4,
    &[
        cut_at!(1, 1, 99, 0),
        cut_at!(2, 4, 196, 0),
        cut_at!(3, 7, 292, 0),
        cut_at!(4, 10, 392, 3),
        cut_at!(5, 13, 489, 3),
    ],
);

#[test]
fn run_that_is_cut_off_in_any_round_is_gone_on_with(rt: HostRuntime) {
    check_crash(&rt, rt.alloc(), &IN_EACH_ROUND);
}
