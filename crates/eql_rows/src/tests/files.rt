//! Searches in files of the system.
use crate::tests::row::{Row, Words, ended};
use crate::tests::run::{is_as_said, see, words_of};
use eql_cli::{NoGate, eql_main};
use eql_outside::{FileShelf, MemSink, Shelf};
use eql_values::Memory;
use std::alloc::Global;
use std::sync::Wait;
use std::thread::Threads;

/// A folder opens, and fails at its first read. A path through a file is no file.
static RUNS: &[Row] = &[
    ended!("a folder", 4, "read fault: /", words: Words::Line("find --query / --fields f s")),
    ended!(
        "a path through a file",
        1,
        "no file /dev/null/q",
        words: Words::Line("find --query /dev/null/q --fields f s"),
    ),
    ended!(
        "an empty file",
        3,
        "parse: Syntax at 0",
        words: Words::Line("find --query /dev/null --fields f s"),
    ),
    ended!(
        "no file",
        1,
        "no file /dev/no-such-file",
        words: Words::Line("check --query /dev/no-such-file --fields f"),
    ),
];

/// Runs the words of a row over a shelf, and returns whether it gave what the row says.
fn goes<R: Threads + Wait + Sync, H: Shelf>(
    rt: &R,
    alloc: Global,
    row: &Row,
    shelf: &mut H,
    came: &mut String,
) -> Result<bool, Memory> {
    let words = words_of(alloc, row)?;
    let out = MemSink::new(alloc, Vec::new(alloc));
    let err = MemSink::new(alloc, Vec::new(alloc));
    let ran = eql_main(rt, alloc, &words, shelf, out, err, &NoGate);
    is_as_said(alloc, row, row.listed, &ran, came)
}

/// Runs the words of each row over a shelf.
fn all_go<R: Threads + Wait + Sync, H: Shelf>(
    rt: &R,
    alloc: Global,
    shelf: &mut H,
    came: &mut String,
) -> Result<bool, Memory> {
    for row in RUNS {
        if !goes(rt, alloc, row, shelf, came)? {
            return Ok(false);
        }
    }
    Ok(true)
}

#[test]
fn files_of_the_system_are_opened(rt: HostRuntime) {
    let mut came = String::new(rt.alloc());
    let mut shelf = FileShelf::new(rt.alloc(), rt.clone().expect(&rt, "memory"));
    let seen = all_go(&rt, rt.alloc(), &mut shelf, &mut came);
    drop(shelf);
    see(&rt, seen, came.as_str());
}
