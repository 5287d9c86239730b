//! Runs that keep cuts, stopped at each call of the disk and of the sink, and gone on from what is found.
use crate::dice::Dice;
use crate::disks::{Ended, go_on};
use crate::expected::listing_of;
use crate::listed::{kept, written};
use crate::logs::{accepted, texts_of};
use crate::plans::{REFERENCE, plan_of};
use crate::queries::{QUERIES, SPAN};
use crate::random::{Split, log_of, plays_of, split_by};
use crate::starting::Way;
use crate::worked::{ELEVEN, LISTED, starts};
use eql_ckdisk::recover;
use eql_conductor::Stop;
use eql_outside::{MemDisk, MemSink};
use eql_replay::Foreigns;
use eql_stages::Plan;
use std::alloc::{AllocError, Global};
use std::process::Abort;
use std::test::Fail;

/// A search: its plan, its texts, its slack in milliseconds, whether others play meanwhile, and the listing that is
/// expected.
#[derive(Drop)]
struct Search {
    plan: Plan,
    texts: Vec<Vec<u8>>,
    slack: u64,
    has_others: bool,
    listing: String,
}

/// The calls that fail: of the disk all from a number on, and of the sink that of a number.
#[derive(Clone, Copy)]
struct Faults {
    disk: Option<u64>,
    sink: Option<u64>,
}

const NONE: Faults = Faults {
    disk: None,
    sink: None,
};

/// How a run ended, what it wrote, and what of it is kept.
#[derive(Drop)]
struct Ran {
    ended: Ended,
    listing: String,
    kept: String,
}

/// The sink whose call of this number fails.
fn sink_of(alloc: Global, call: Option<u64>) -> Result<MemSink, Fail> {
    let mut fails = Vec::new(alloc);
    if let Some(number) = call {
        fails.push(number)?;
    }
    Ok(MemSink::new(alloc, fails))
}

/// What others play: something before one call of 150, where they do.
fn others(alloc: Global, search: &Search, seed: u32) -> Result<Vec<Foreigns>, Fail> {
    if !search.has_others {
        return Ok(Vec::new(alloc));
    }
    let mut dice = Dice::seeded(u64::from(seed));
    let shards = u32::try_from(search.texts.len())?;
    plays_of(alloc, &mut dice, shards, 150)
}

/// Runs on from what stands in these areas.
fn run(
    alloc: Global,
    search: &Search,
    batch: u32,
    every: u32,
    areas: (Vec<u8>, Vec<u8>),
    faults: Faults,
) -> Result<Ran, Fail> {
    let way = Way {
        slack: Some(search.slack),
        batch,
        every: Some(every),
    };
    let (a, b) = areas;
    let disk = MemDisk::new(alloc, a, b, Vec::new(alloc), faults.disk)?;
    let mut sink = sink_of(alloc, faults.sink)?;
    let plays = others(alloc, search, every)?;
    let ended = go_on(
        alloc,
        &search.plan,
        &search.texts,
        way,
        plays,
        disk,
        &mut sink,
    )?;
    Ok(Ran {
        ended,
        listing: written(alloc, &sink)?,
        kept: kept(alloc, &sink)?,
    })
}

/// Two empty areas.
fn empty(alloc: Global) -> (Vec<u8>, Vec<u8>) {
    (Vec::new(alloc), Vec::new(alloc))
}

/// So many first lines of the one text, or all where there are fewer, and then the other.
fn joined(alloc: Global, first: &str, count: u64, then: &str) -> Result<String, AllocError> {
    let mut text = String::new(alloc);
    let mut lines = 0u64;
    for line in first.lines() {
        if lines < count {
            text.push_str(line)?;
            text.push('\n')?;
        }
        lines = lines.saturating_add(1);
    }
    text.push_str(then)?;
    Ok(text)
}

/// Whether these lines before the cut that is found, and what is written from there on, are the listing.
fn check_joined<R: Abort>(
    rt: &R,
    alloc: Global,
    search: &Search,
    front: &str,
    rest: &Ran,
) -> Result<(), Fail> {
    let listed = rest.ended.listed;
    assert!(rt; search.listing.starts_with(front), "written\n{front}");
    let whole = joined(alloc, front, listed, rest.listing.as_str())?;
    assert!(rt;
        whole.as_str() == search.listing.as_str(),
        "of {listed} lines, and then\n{whole}"
    );
    Ok(())
}

/// Goes on from what a crash may leave of the disk of a run that stopped: from all that was written, and from what a
/// power cut leaves of it, which is what was kept.
fn check_rest<R: Abort>(
    rt: &R,
    alloc: Global,
    search: &Search,
    every: u32,
    stopped: &Ran,
) -> Result<(), Fail> {
    for (choice, batch) in [(0, 1), (1, 7), (5, 1)] {
        let areas = stopped.ended.disk.crashed(alloc, choice)?;
        let rest = run(alloc, search, batch, every, areas, NONE)?;
        assert!(rt; rest.ended.end.is_ok());
        check_joined(rt, alloc, search, stopped.listing.as_str(), &rest)?;
        check_joined(rt, alloc, search, stopped.kept.as_str(), &rest)?;
    }
    Ok(())
}

/// Stops a run at a fault, and goes on. Returns whether it came to its end before.
fn check_fault<R: Abort>(
    rt: &R,
    alloc: Global,
    search: &Search,
    every: u32,
    faults: Faults,
) -> Result<bool, Fail> {
    let ran = run(alloc, search, 1, every, empty(alloc), faults)?;
    if ran.ended.end.is_ok() {
        assert_eq!(rt; ran.listing.as_str(), search.listing.as_str());
        return Ok(true);
    }
    let is_cause = match (faults.disk, ran.ended.end) {
        (Some(_), Err(Stop::Disk)) | (None, Err(Stop::Write)) => true,
        _ => false,
    };
    assert!(rt; is_cause);
    check_rest(rt, alloc, search, every, &ran)?;
    Ok(false)
}

/// The fault of a call of the disk of this number, or else of the sink.
fn fault_at(number: u64, of_disk: bool) -> Faults {
    if of_disk {
        Faults {
            disk: Some(number),
            sink: None,
        }
    } else {
        Faults {
            disk: None,
            sink: Some(number),
        }
    }
}

/// Stops a run at each call of the disk, or else of the sink. Returns how many of them it makes.
fn calls_in<R: Abort>(
    rt: &R,
    alloc: Global,
    search: &Search,
    every: u32,
    of_disk: bool,
) -> Result<u64, Fail> {
    for before in 0..1_000u64 {
        let faults = fault_at(before.saturating_add(1), of_disk);
        if check_fault(rt, alloc, search, every, faults)? {
            return Ok(before);
        }
    }
    Err(Fail::new("the run doesn't end"))
}

/// The search of the reference's example.
fn reference(alloc: Global) -> Result<Search, Fail> {
    Ok(Search {
        plan: plan_of(alloc, REFERENCE)?,
        texts: vec![in alloc; starts(alloc, &ELEVEN)?]?,
        slack: 0,
        has_others: false,
        listing: String::from_str(alloc, LISTED)?,
    })
}

/// A search in a made-up log of 30 lines over two shards.
fn made_up(alloc: Global, seed: u64, query: usize) -> Result<Search, Fail> {
    let query = QUERIES.get(query).ok_or("a query")?;
    let mut dice = Dice::seeded(seed);
    let log = log_of(alloc, &mut dice, 30)?;
    let shards = split_by(alloc, &mut dice, Split::InTurn, 2, &log)?;
    let items = accepted(alloc, query, &shards, Some(3))?;
    Ok(Search {
        plan: plan_of(alloc, query.spanned)?,
        texts: texts_of(alloc, &shards)?,
        slack: 3,
        has_others: true,
        listing: listing_of(alloc, items, query.stages, Some(SPAN))?,
    })
}

/// A recovery of two empty areas makes four calls, and a cut six. The reference's example, read line by line, has a round
/// with a mark for each of its eleven times. Its matches are written in two of them, and before each cut what was written is
/// kept.
#[test]
fn the_references_example_goes_on_from_each_stop(rt: HostRuntime) -> Result<(), Fail> {
    let alloc = rt.alloc();
    let search = reference(alloc)?;
    for (every, cuts) in [(1, 11), (2, 5)] {
        assert_eq!(rt; calls_in(&rt, alloc, &search, every, true)?, 4 + 6 * cuts);
        assert_eq!(rt; calls_in(&rt, alloc, &search, every, false)?, 2 + cuts);
    }
    Ok(())
}

/// Two logs over two shards, while others feed and turn. Each run has more cuts than one, and more calls of the sink.
#[test]
fn made_up_logs_go_on_from_each_stop(rt: HostRuntime) -> Result<(), Fail> {
    let alloc = rt.alloc();
    for (seed, query) in [(1, 1), (2, 2)] {
        let search = made_up(alloc, seed, query)?;
        for every in [1, 2] {
            let calls = calls_in(&rt, alloc, &search, every, true)?;
            let sends = calls_in(&rt, alloc, &search, every, false)?;
            assert!(rt; 4 + 6 < calls && 2 < sends, "{calls} {sends}");
        }
    }
    Ok(())
}

/// With a cut after each fifth round the reference's example, read line by line, has cuts after rounds 5 and 10. The
/// second is of the time of line 10, after ten lines of 1,015 bytes, with one match listed. From there the other is listed.
/// Where a cut is due after more rounds than there are, none is put.
#[test]
fn cuts_are_put_when_they_are_due(rt: HostRuntime) -> Result<(), Fail> {
    let alloc = rt.alloc();
    let search = reference(alloc)?;
    let ran = run(alloc, &search, 1, 5, empty(alloc), NONE)?;
    assert!(rt; ran.ended.end.is_ok());
    assert_eq!(rt; ran.listing.as_str(), LISTED);
    let (a, b) = ran.ended.disk.crashed(alloc, 0)?;
    let mut disk = MemDisk::new(alloc, a, b, Vec::new(alloc), None)?;
    let found = recover(alloc, &mut disk)?;
    assert_eq!(rt; found.state.generation(), 2);
    let cut = found.cut.ok_or("no cut")?;
    assert_eq!(rt; cut.mark, 10_000_000_000);
    assert_eq!(rt; cut.book.listed, 1);
    let lane = cut.lanes.items().first().ok_or("no lane")?;
    assert_eq!(rt; lane.offset, 1015);
    let areas = ran.ended.disk.crashed(alloc, 0)?;
    let rest = run(alloc, &search, 7, 5, areas, NONE)?;
    assert!(rt; rest.ended.end.is_ok());
    assert_eq!(rt; rest.listing.as_str(), "2 [\"elkbee\"] 0:6 0:8 0:10\n");
    let none = run(alloc, &search, 1, 100, empty(alloc), NONE)?;
    assert_eq!(rt; none.listing.as_str(), LISTED);
    let (a, b) = none.ended.disk.crashed(alloc, 1)?;
    assert!(rt; a.is_empty() && b.is_empty());
    Ok(())
}

/// With a cut after each fifth round the calls of the sink are: keep, before the cut after round 5; the write of the first
/// line; keep, before the cut after round 10; the write of the other line. Where a keep fails, the run stops by a fault of the
/// sink, its cut isn't put, and what was kept before stays.
#[test]
fn no_cut_is_put_whose_lines_are_not_kept(rt: HostRuntime) -> Result<(), Fail> {
    let alloc = rt.alloc();
    let search = reference(alloc)?;
    for (call, generation, lines) in [(1, 0, 0), (3, 1, 1)] {
        let ran = run(alloc, &search, 1, 5, empty(alloc), fault_at(call, false))?;
        assert!(rt; matches!(ran.ended.end, Err(Stop::Write)));
        assert_eq!(rt; ran.listing.lines().count(), lines);
        assert_eq!(rt; ran.kept.as_str(), "");
        let (a, b) = ran.ended.disk.crashed(alloc, 0)?;
        let mut disk = MemDisk::new(alloc, a, b, Vec::new(alloc), None)?;
        assert_eq!(rt; recover(alloc, &mut disk)?.state.generation(), generation);
    }
    let ran = run(alloc, &search, 1, 5, empty(alloc), NONE)?;
    assert_eq!(rt; ran.kept.as_str(), "1 [\"root\"] 0:2 0:4 0:9\n");
    Ok(())
}
