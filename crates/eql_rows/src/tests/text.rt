//! The texts of files, written as short as the tables need them.
use std::alloc::{AllocError, Global};

/// The mapping of a row that says nothing of it: ten fields of three kinds.
const ALL_FIELDS: &[u8] =
    br#"{"destination.ip":"ip","destination.port":"long","event.type":"keyword","file.pid":"long","host.id":"keyword","process.args_count":"long","process.name":"keyword","process.pid":"long","user.id":"keyword","user.name":"keyword"}"#;

/// The line of an event, but for its time and its category.
const EVENT: &str = "{\"@timestamp\":#,\"event\":{\"category\":\"#\"}}\n";

/// A process event, but for its time, the user's name and the process's.
macro_rules! start {
    ($end:literal) => {
        concat!(
            "{\"@timestamp\":#,\"event\":{\"category\":\"process\"},",
            "\"user\":{\"name\":\"#\"},\"process\":{\"name\":\"#\"}}",
            $end
        )
    };
}

/// What stands in a text, piece by piece.
#[derive(Clone, Copy)]
pub(crate) enum Piece {
    /// A line for each event of a list such as `1 process, 2 file`: its time in milliseconds and its category.
    Events(&'static str),
    /// A line for each process event of a list such as `1000 root attrib`: its time, the user's name and the process's.
    Starts(&'static str),
    /// The same with a space in place of each line feed.
    Spaced(&'static str),
    /// These lines, each with a line feed.
    Lines(&'static [&'static str]),
    /// These bytes.
    Bytes(&'static [u8]),
    /// A mapping of all fields that rows name.
    AllFields,
    /// This text, so many times.
    Times(&'static str, usize),
    /// This text, once for each number from 1 on, so many times, with the number in place of each `#`.
    Each(&'static str, usize),
    /// What a search for any event lists of so many shards that have one event each, all at one time.
    OneOfEach(usize),
}

/// A text.
pub(crate) type Pieces = &'static [Piece];

/// Adds two texts.
fn add_both(bytes: &mut Vec<u8>, first: &str, second: &str) -> Result<(), AllocError> {
    bytes.extend_from_slice(first.as_bytes())?;
    bytes.extend_from_slice(second.as_bytes())
}

/// The word of this number, from 0, or the last one.
fn word_at(words: &str, number: usize) -> &str {
    match words.split(' ').nth(number) {
        Some(word) => word,
        None => words.split(' ').last().unwrap_or(""),
    }
}

/// Adds a text with these words in place of its `#`, a word for each in turn, and the last word for all that are left.
fn add_filled(bytes: &mut Vec<u8>, text: &str, words: &str) -> Result<(), AllocError> {
    let mut parts = text.split('#');
    add_both(bytes, parts.next().unwrap_or(""), "")?;
    for (number, part) in parts.enumerate() {
        add_both(bytes, word_at(words, number), part)?;
    }
    Ok(())
}

/// Adds a text for each item of a list, with the words of the item in place of its `#`.
fn add_list(bytes: &mut Vec<u8>, text: &str, list: &str) -> Result<(), AllocError> {
    for words in list.split(", ") {
        add_filled(bytes, text, words)?;
    }
    Ok(())
}

/// Adds lines, each with a line feed.
pub(crate) fn add_lines(bytes: &mut Vec<u8>, lines: &[&str]) -> Result<(), AllocError> {
    for line in lines {
        add_both(bytes, *line, "\n")?;
    }
    Ok(())
}

/// Adds a text so many times.
fn add_times(bytes: &mut Vec<u8>, text: &str, times: usize) -> Result<(), AllocError> {
    for _ in 0..times {
        bytes.extend_from_slice(text.as_bytes())?;
    }
    Ok(())
}

/// Adds a text for each number from 1 to this one.
fn add_each(
    alloc: Global,
    bytes: &mut Vec<u8>,
    text: &str,
    times: usize,
) -> Result<(), AllocError> {
    for before in 0..times {
        let number = format!(in alloc; "{}", before + 1)?;
        add_filled(bytes, text, number.as_str())?;
    }
    Ok(())
}

/// Adds what a search lists of so many shards, of which each has one event.
fn add_one_of_each(alloc: Global, bytes: &mut Vec<u8>, shards: usize) -> Result<(), AllocError> {
    for shard in 0..shards {
        let line = format!(in alloc; "{} [] {shard}:1\n", shard + 1)?;
        bytes.extend_from_slice(line.as_bytes())?;
    }
    Ok(())
}

/// Adds a piece.
fn add_piece(alloc: Global, bytes: &mut Vec<u8>, piece: Piece) -> Result<(), AllocError> {
    match piece {
        Piece::Events(events) => add_list(bytes, EVENT, events),
        Piece::Starts(starts) => add_list(bytes, start!("\n"), starts),
        Piece::Spaced(starts) => add_list(bytes, start!(" "), starts),
        Piece::Lines(lines) => add_lines(bytes, lines),
        Piece::Bytes(more) => bytes.extend_from_slice(more),
        Piece::AllFields => bytes.extend_from_slice(ALL_FIELDS),
        Piece::Times(text, times) => add_times(bytes, text, times),
        Piece::Each(text, times) => add_each(alloc, bytes, text, times),
        Piece::OneOfEach(shards) => add_one_of_each(alloc, bytes, shards),
    }
}

/// Adds the pieces of a text.
pub(crate) fn add_pieces(
    alloc: Global,
    bytes: &mut Vec<u8>,
    pieces: &[Piece],
) -> Result<(), AllocError> {
    for piece in pieces {
        add_piece(alloc, bytes, *piece)?;
    }
    Ok(())
}

/// How many lines a text has. The last one needs no line feed.
pub(crate) fn line_count(text: &[u8]) -> usize {
    let mut lines = 0usize;
    let mut before = b'\n';
    for byte in text {
        if before == b'\n' {
            lines = lines.saturating_add(1);
        }
        before = *byte;
    }
    lines
}
