//! One run of the program over files in memory, and what it has to give.
use crate::tests::checkpoints::first_run;
use crate::tests::cuts::write_areas;
use crate::tests::kept::kept_in;
use crate::tests::row::{Failing, Object, Row, Share, Told, Words};
use crate::tests::text::{Pieces, add_lines, add_pieces, line_count};
use eql_cli::{Ended, Gate, NoGate, eql_main};
use eql_outside::{MemDisk, MemFile, MemShelf, MemSink, Sink};
use eql_values::Memory;
use std::alloc::{AllocError, Global};
use std::process::Abort;
use std::sync::Wait;
use std::thread::Threads;

/// What is told of words that make no command.
const USAGE: &[&str] = &[
    "usage: eql find --query FILE --fields FILE [--tiebreaker FIELD] [--slack TIME] [--batch N] [--hands N] [--checkpoint NAME --every N] [--places] SHARD..",
    "usage: eql check --query FILE --fields FILE",
    "usage: eql made [--hands N] N",
];

/// How a run ended.
pub(crate) type Ran = Ended<MemSink, MemSink>;

/// The bytes of both areas of a disk.
#[derive(Drop)]
pub(crate) struct Areas {
    pub(crate) first: Vec<u8>,
    pub(crate) second: Vec<u8>,
}

impl Areas {
    /// Areas without a byte.
    pub(crate) fn empty(alloc: Global) -> Areas {
        Areas {
            first: Vec::new(alloc),
            second: Vec::new(alloc),
        }
    }

    /// What a crash may leave of a disk.
    pub(crate) fn left_by(alloc: Global, disk: &MemDisk, choice: u64) -> Result<Areas, Memory> {
        let (first, second) = disk.crashed(alloc, choice)?;
        Ok(Areas { first, second })
    }
}

/// The numbers of the calls of an object that fail.
fn failing(alloc: Global, fails: &[Failing], object: Object) -> Result<Vec<u64>, Memory> {
    let mut numbers = Vec::new(alloc);
    for (of, number) in fails {
        if *of == object {
            numbers.push(*number)?;
        }
    }
    Ok(numbers)
}

/// The pieces of a file of a row.
fn pieces_of(row: &Row, object: Object) -> Pieces {
    match object {
        Object::Query => row.behind,
        Object::Fields => row.fields,
        Object::Shard(number) if 0 < number && number <= row.more.len() => row.more[number - 1],
        _ => row.shard,
    }
}

/// The text of a file of a row.
fn text_of(alloc: Global, row: &Row, object: Object) -> Result<Vec<u8>, Memory> {
    let mut text = Vec::new(alloc);
    if object == Object::Query {
        text.extend_from_slice(row.query.as_bytes())?;
    }
    add_pieces(alloc, &mut text, pieces_of(row, object))?;
    Ok(text)
}

/// The name of a file.
fn name_of(alloc: Global, object: Object) -> Result<String, Memory> {
    let name = match object {
        Object::Query => String::from_str(alloc, "q"),
        Object::Shard(number) => format!(in alloc; "s{number}"),
        _ => String::from_str(alloc, "f"),
    };
    Ok(name?)
}

/// A file of a row, with these calls failing.
fn file_of(alloc: Global, row: &Row, fails: &[Failing], object: Object) -> Result<MemFile, Memory> {
    Ok(MemFile {
        name: name_of(alloc, object)?,
        bytes: text_of(alloc, row, object)?,
        piece: row.piece.max(1),
        fails: failing(alloc, fails, object)?,
    })
}

/// How many shards a row has.
fn shard_count(row: &Row) -> usize {
    row.more.len().saturating_add(row.copies).saturating_add(1)
}

/// The files of a row, with these calls failing.
fn files_of(alloc: Global, row: &Row, fails: &[Failing]) -> Result<Vec<MemFile>, Memory> {
    let mut files = Vec::new(alloc);
    files.push(file_of(alloc, row, fails, Object::Query)?)?;
    files.push(file_of(alloc, row, fails, Object::Fields)?)?;
    for number in 0..shard_count(row) {
        files.push(file_of(alloc, row, fails, Object::Shard(number))?)?;
    }
    Ok(files)
}

/// Adds the words of a line, which have a space between each two. An empty line has none.
fn add_words(alloc: Global, words: &mut Vec<String>, line: &str) -> Result<(), Memory> {
    if !line.is_empty() {
        for word in line.split(' ') {
            words.push(String::from_str(alloc, word)?)?;
        }
    }
    Ok(())
}

/// Adds the names of so many shards.
fn add_shards(alloc: Global, words: &mut Vec<String>, shards: usize) -> Result<(), Memory> {
    for number in 0..shards {
        words.push(name_of(alloc, Object::Shard(number))?)?;
    }
    Ok(())
}

/// The words of a row.
pub(crate) fn words_of(alloc: Global, row: &Row) -> Result<Vec<String>, Memory> {
    let mut words = Vec::new(alloc);
    match row.words {
        Words::Find(options) => {
            add_words(alloc, &mut words, "find --query q --fields f")?;
            add_words(alloc, &mut words, options)?;
            add_shards(alloc, &mut words, shard_count(row))?;
        }
        Words::Line(line) => add_words(alloc, &mut words, line)?,
    }
    Ok(words)
}

/// A disk with these areas, with these calls failing, and all of its calls from a number on.
pub(crate) fn disk_of(
    alloc: Global,
    areas: &Areas,
    fails: &[Failing],
    stop: Option<u64>,
) -> Result<MemDisk, Memory> {
    let (first, second) = (areas.first.clone()?, areas.second.clone()?);
    let fails = failing(alloc, fails, Object::Disk)?;
    MemDisk::new(alloc, first, second, fails, stop)
}

/// An output with these calls failing.
fn sink_of(alloc: Global, fails: &[Failing], object: Object) -> Result<MemSink, Memory> {
    Ok(MemSink::new(alloc, failing(alloc, fails, object)?))
}

/// What a run gets beside its words.
#[derive(Drop)]
struct Given {
    files: Vec<MemFile>,
    fails: Vec<u64>,
    out: MemSink,
    err: MemSink,
}

/// What a run of a row gets beside its words, with these calls failing.
fn given_of(alloc: Global, row: &Row, fails: &[Failing]) -> Result<Given, Memory> {
    Ok(Given {
        files: files_of(alloc, row, fails)?,
        fails: failing(alloc, fails, Object::Shelf)?,
        out: sink_of(alloc, fails, Object::Out)?,
        err: sink_of(alloc, fails, Object::Err)?,
    })
}

/// Runs a row on a disk with these areas, with these calls failing, and all of the disk from a number on. The disk is handed
/// back. The hands pass a gate.
pub(crate) fn run<R: Threads + Wait + Sync, W: Gate + Sync>(
    rt: &R,
    alloc: Global,
    row: &Row,
    fails: &[Failing],
    areas: &Areas,
    stop: Option<u64>,
    gate: &W,
) -> Result<(Ran, MemDisk), Memory> {
    let disk = disk_of(alloc, areas, fails, stop)?;
    let words = words_of(alloc, row)?;
    let given = given_of(alloc, row, fails)?;
    let shelf = MemShelf::new(alloc, given.files, disk, given.fails)?;
    let mut shelf = match row.in_use {
        Some(why) => shelf.holding(why),
        None => shelf,
    };
    let ran = eql_main(rt, alloc, &words, &mut shelf, given.out, given.err, gate);
    Ok((ran, shelf.into_disk()))
}

/// Adds the report over a shard all of whose lines were accepted.
fn add_report(
    alloc: Global,
    told: &mut Vec<u8>,
    number: usize,
    lines: usize,
) -> Result<(), AllocError> {
    let line = format!(in alloc;
        "shard {number}: lines {lines} accepted {lines} late 0 rejected 0\n"
    )?;
    told.extend_from_slice(line.as_bytes())
}

/// Adds the report over shards all of whose lines were accepted.
fn add_accepted(alloc: Global, told: &mut Vec<u8>, row: &Row) -> Result<(), Memory> {
    for number in 0..shard_count(row) {
        let lines = line_count(&text_of(alloc, row, Object::Shard(number))?);
        add_report(alloc, told, number, lines)?;
    }
    Ok(())
}

/// What the error output of a row has to get.
fn told_of(alloc: Global, row: &Row) -> Result<Vec<u8>, Memory> {
    let mut told = Vec::new(alloc);
    match row.told {
        Told::Accepted => add_accepted(alloc, &mut told, row)?,
        Told::Usage => add_lines(&mut told, USAGE)?,
        Told::Lines(lines) => add_lines(&mut told, lines)?,
    }
    Ok(told)
}

/// What the output of a row has to get, with these lines.
pub(crate) fn listed_of(alloc: Global, row: &Row, lines: &[&str]) -> Result<Vec<u8>, Memory> {
    let mut listed = Vec::new(alloc);
    add_lines(&mut listed, lines)?;
    add_pieces(alloc, &mut listed, row.rest)?;
    Ok(listed)
}

/// Whether an output got this share of a text.
fn is_share(got: &[u8], wanted: &[u8], share: Share) -> bool {
    match share {
        Share::Whole => got == wanted,
        Share::Front => wanted.starts_with(got),
        Share::End => match wanted.strip_suffix(got) {
            Some(front) => front.is_empty() || front.ends_with(b"\n"),
            None => false,
        },
    }
}

/// Whether a run gave what the row says, with these lines as its listing: its status, and on both outputs the whole texts, but
/// for an error output that failed, and the listing of a run that stopped for another cause.
fn gave(alloc: Global, row: &Row, lines: &[&str], ran: &Ran) -> Result<bool, Memory> {
    let err_failed = 0 < ran.err.faults();
    let share = match row.share {
        Share::Front if row.status == 0 || err_failed => Share::Whole,
        share => share,
    };
    let told_share = if err_failed {
        Share::Front
    } else {
        Share::Whole
    };
    Ok(
        ran.status == row.status
            && is_share(ran.out.bytes(), &listed_of(alloc, row, lines)?, share)
            && is_share(ran.err.bytes(), &told_of(alloc, row)?, told_share),
    )
}

/// Adds bytes as a text.
fn add_bytes(alloc: Global, came: &mut String, bytes: &[u8]) -> Result<(), AllocError> {
    came.push_str(String::from_utf8_lossy(alloc, bytes)?.as_str())
}

/// Adds what came of a row: its words, both outputs and the status.
fn add_came(alloc: Global, row: &Row, ran: &Ran, came: &mut String) -> Result<(), AllocError> {
    came.push_str(row.shows)?;
    came.push_str(":\n")?;
    add_bytes(alloc, came, ran.out.bytes())?;
    add_bytes(alloc, came, ran.err.bytes())?;
    came.push_str(format!(in alloc; "status {}", ran.status)?.as_str())
}

/// Whether a run gave what the row says, with these lines as its listing. What came is added where it didn't.
pub(crate) fn is_as_said(
    alloc: Global,
    row: &Row,
    lines: &[&str],
    ran: &Ran,
    came: &mut String,
) -> Result<bool, Memory> {
    let is_as_said = gave(alloc, row, lines, ran)?;
    if !is_as_said {
        add_came(alloc, row, ran, came)?;
    }
    Ok(is_as_said)
}

/// Whether areas keep the cut that a row says, where it says one.
fn keeps(alloc: Global, areas: &Areas, row: &Row) -> bool {
    match &row.kept {
        Some(cut) => kept_in(alloc, areas) == Some(*cut),
        None => true,
    }
}

/// Whether two texts are the same bytes.
fn is_same(text: &[u8], other: &[u8]) -> bool {
    text == other
}

/// Whether areas are as they were before a row, where that is a run that its disk refuses.
fn are_left(row: &Row, before: &Areas, now: &Areas) -> bool {
    row.status != 7 || is_same(&before.first, &now.first) && is_same(&before.second, &now.second)
}

/// Runs a row on a disk with these areas, which are then what it left, and returns whether it gave what the row says. The hands
/// pass a gate.
fn goes<R: Threads + Wait + Sync, W: Gate + Sync>(
    rt: &R,
    alloc: Global,
    row: &Row,
    areas: &mut Areas,
    gate: &W,
    came: &mut String,
) -> Result<bool, Memory> {
    let (ran, disk) = run(rt, alloc, row, row.fails, areas, None, gate)?;
    let left = Areas::left_by(alloc, &disk, 0)?;
    drop(disk);
    let stays = are_left(row, areas, &left);
    *areas = left;
    Ok(is_as_said(alloc, row, row.listed, &ran, came)? && stays && keeps(alloc, areas, row))
}

/// Runs a row on what its disk holds, and returns whether it gave what the row says, and so did the run before.
fn goes_on<R: Threads + Wait + Sync, W: Gate + Sync>(
    rt: &R,
    alloc: Global,
    row: &Row,
    gate: &W,
    came: &mut String,
) -> Result<bool, Memory> {
    let mut areas = Areas::empty(alloc);
    if let Some(first) = first_run(row.held) {
        if !goes(rt, alloc, first, &mut areas, gate, came)? {
            return Ok(false);
        }
    }
    write_areas(row.held, &mut areas)?;
    goes(rt, alloc, row, &mut areas, gate, came)
}

/// Runs the rows of tables, and returns whether each gave what it says. Else what came of the first that didn't is added. The
/// hands pass a gate.
fn are_as_said<R: Threads + Wait + Sync, W: Gate + Sync>(
    rt: &R,
    alloc: Global,
    tables: &[&[Row]],
    gate: &W,
    came: &mut String,
) -> Result<bool, Memory> {
    for rows in tables {
        for row in *rows {
            if !goes_on(rt, alloc, row, gate, came)? {
                return Ok(false);
            }
        }
    }
    Ok(true)
}

/// Sees that all was as it should be, and else tells what came.
pub(crate) fn see<R: Abort>(rt: &R, seen: Result<bool, Memory>, came: &str) {
    assert_eq!(rt; seen, Ok(true), "{came}");
}

/// Runs the rows of tables, and sees that each gives what it says. The hands pass a gate.
pub(crate) fn check_through<R: Threads + Wait + Sync + Abort, W: Gate + Sync>(
    rt: &R,
    alloc: Global,
    tables: &[&[Row]],
    gate: &W,
) {
    let mut came = String::new(alloc);
    let seen = are_as_said(rt, alloc, tables, gate, &mut came);
    see(rt, seen, came.as_str());
}

/// Runs the rows of tables, and sees that each gives what it says.
pub(crate) fn check<R: Threads + Wait + Sync + Abort>(rt: &R, alloc: Global, tables: &[&[Row]]) {
    check_through(rt, alloc, tables, &NoGate);
}
