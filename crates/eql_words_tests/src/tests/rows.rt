//! Lists of words with the commands that they make.
use crate::tests::tables::COMMANDS;
use eql_words::{Command, Find, read_command, usage};
use std::alloc::{AllocError, Global};

/// Puts the names of a search, its tiebreaker and its slack.
fn push_front(line: &mut String, find: &Find) -> Result<(), AllocError> {
    write!(line, "find {} {}", find.query.name(), find.fields.name())?;
    if let Some(tie) = &find.tie {
        write!(line, " tie={}", tie.text())?;
    }
    match find.slack {
        Some(slack) => write!(line, " slack={slack}"),
        None => Ok(()),
    }
}

/// Puts the numbers of a search, its checkpoint, and whether the listing has places.
fn push_numbers(line: &mut String, find: &Find) -> Result<(), AllocError> {
    write!(line, " batch={} hands={}", find.batch, find.hands)?;
    if let Some(kept) = &find.checkpoint {
        write!(line, " at={}/{}", kept.name.name(), kept.every)?;
    }
    line.push_str(if find.places { " places" } else { "" })
}

/// Puts a search by its values, those that are there.
fn push_find(line: &mut String, find: &Find) -> Result<(), AllocError> {
    push_front(line, find)?;
    push_numbers(line, find)?;
    for shard in find.shards.items() {
        write!(line, " {}", shard.name())?;
    }
    Ok(())
}

/// Puts a command by its values, or `none`.
fn push_command(line: &mut String, command: &Option<Command>) -> Result<(), AllocError> {
    match command {
        Some(Command::Find(find)) => push_find(line, find),
        Some(Command::Check { query, fields }) => {
            write!(line, "check {} {}", query.name(), fields.name())
        }
        Some(Command::Made { hands, events }) => write!(line, "made {hands} {events}"),
        None => line.push_str("none"),
    }
}

/// Whether a command is written so.
fn is_written(alloc: Global, command: &Option<Command>, expected: &str) -> bool {
    let mut line = String::new(alloc);
    push_command(&mut line, command).is_ok() && line.as_str() == expected
}

/// The words of a line, with a space between each two.
fn words_of(alloc: Global, line: &str) -> Result<Vec<String>, AllocError> {
    let mut words = Vec::new(alloc);
    for word in line.split(' ') {
        words.push(String::from_str(alloc, word)?)?;
    }
    Ok(words)
}

/// Whether words make this command.
fn make(alloc: Global, words: &Vec<String>, expected: &str) -> bool {
    match read_command(alloc, words) {
        Ok(command) => is_written(alloc, &command, expected),
        Err(_) => false,
    }
}

/// Whether the words of a row make its command.
fn is_right(alloc: Global, row: &str) -> bool {
    match row.rsplit_once(" => ") {
        Some((line, expected)) => match words_of(alloc, line) {
            Ok(words) => make(alloc, &words, expected),
            Err(_) => false,
        },
        None => row.is_empty() || row.starts_with("// "),
    }
}

/// The first row whose words don't make its command, or nothing.
fn wrong_row(alloc: Global) -> &'static str {
    for row in COMMANDS.lines() {
        if !is_right(alloc, row) {
            return row;
        }
    }
    ""
}

#[test]
fn words_make_their_commands(rt: HostRuntime) {
    assert_eq!(rt; wrong_row(rt.alloc()), "");
}

/// Whether no words make no command.
fn none_make_none(alloc: Global) -> bool {
    make(alloc, &Vec::new(alloc), "none")
}

#[test]
fn no_words_make_no_command(rt: HostRuntime) {
    assert!(rt; none_make_none(rt.alloc()));
}

/// The words of a search in so many shards.
fn words_with(alloc: Global, shards: usize) -> Result<Vec<String>, AllocError> {
    let mut words = words_of(alloc, "find --query q --fields f")?;
    for _ in 0..shards {
        words.push(String::from_str(alloc, "s")?)?;
    }
    Ok(words)
}

/// How many shards the command of words has, or 0 where there is none.
fn shards_of(alloc: Global, words: &Vec<String>) -> usize {
    match read_command(alloc, words) {
        Ok(Some(Command::Find(find))) => find.shards.items().len(),
        _ => 0,
    }
}

/// How many shards the command has that names so many, or 0 where there is no command.
fn shards_read(alloc: Global, shards: usize) -> usize {
    match words_with(alloc, shards) {
        Ok(words) => shards_of(alloc, &words),
        Err(_) => 0,
    }
}

/// How many shards are named, and how many are read.
static SHARDS: &[(usize, usize)] = &[(255, 255), (256, 256), (257, 0)];

#[test]
fn shards_are_at_most_256(rt: HostRuntime) {
    for &(named, read) in SHARDS {
        assert_eq!(rt; shards_read(rt.alloc(), named), read);
    }
}

/// The usage lines.
static USAGE: &str =
    "usage: eql find --query FILE --fields FILE [--tiebreaker FIELD] [--slack TIME] [--batch N] [--hands N] [--checkpoint NAME --every N] [--places] SHARD..
usage: eql check --query FILE --fields FILE
usage: eql made [--hands N] N
";

#[test]
fn three_lines_tell_the_usage(rt: HostRuntime) {
    assert_eq!(rt; usage(), USAGE);
}
