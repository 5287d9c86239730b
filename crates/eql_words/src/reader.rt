//! The command that words make.
ghost use Rattle.std.specs.Prelude.{◌≡◌, IfOk, option_map};
ghost use Rattle.eql_words.specs.Commands.{check_of, command_from, command_of, find_of, made_of, only_word};
ghost use Rattle.eql_words.specs.Words.{bytes_of};

use crate::commands::Command;
use crate::find::{copied, search_of};
use crate::given::{Given, are_among, stand_once};
use crate::line::{Line, read_line};
use crate::numbers::number_in;
use crate::options::OptionName;
use crate::values::{name_in, number_or};
use eql_values::Memory;
use std::alloc::Global;

/// The search of these options and shards.
fn find_of(alloc: Global, given: &[Given<'_>], plain: &[String]) -> Result<Option<Command>, Memory>
    ensures { IfOk result (λ found. found ≡ option_map (λ find. Command.Find find)
        (find_of given.now (bytes_of plain.now))) }
{
    match search_of(given, plain) {
        Some(search) => Ok(Some(Command::Find(search.copied(alloc)?))),
        None => Ok(None),
    }
}

/// The names of the query and of the mapping, where only these are given.
fn check_names<'a>(given: &[Given<'a>], plain: &[String]) -> Option<(&'a str, &'a str)>
    ensures { option_map (λ names. Command.Check names.0.now names.1.now) result
        ≡ check_of given.now (bytes_of plain.now) }
{
    if !plain.is_empty() || !are_among(&[OptionName::Query, OptionName::Fields], given) {
        return None;
    }
    let query = name_in(OptionName::Query, given)?;
    let fields = name_in(OptionName::Fields, given)?;
    Some((query, fields))
}

/// The check of these options.
fn check_of(alloc: Global, given: &[Given<'_>], plain: &[String]) -> Result<Option<Command>, Memory>
    ensures { IfOk result (λ found. found ≡ check_of given.now (bytes_of plain.now)) }
{
    match check_names(given, plain) {
        Some((query, fields)) => Ok(Some(Command::Check {
            query: copied(alloc, query)?,
            fields: copied(alloc, fields)?,
        })),
        None => Ok(None),
    }
}

/// The one plain word, where there is just one.
fn only_word(plain: &[String]) -> Option<&str>
    ensures { option_map (λ word. word.now) result ≡ only_word (bytes_of plain.now) }
{
    let (word, others) = plain.split_first()?;
    if others.is_empty() {
        Some(word.as_str())
    } else {
        None
    }
}

/// The run over made input of these options.
fn made_of(given: &[Given<'_>], plain: &[String]) -> Option<Command>
    ensures { result ≡ made_of given.now (bytes_of plain.now) }
{
    let word = only_word(plain)?;
    if !are_among(&[OptionName::Hands], given) {
        return None;
    }
    let hands = number_or(1, 0, 16, OptionName::Hands, given)?;
    let events = number_in(0, 1_000_000, word)?;
    Some(Command::Made { hands, events })
}

/// The command of this first word, by the options and the plain words behind it.
fn command_from(alloc: Global, verb: &str, line: &Line<'_>) -> Result<Option<Command>, Memory>
    ensures { IfOk result (λ found. found ≡ command_from verb.now line.now) }
{
    let given = line.given.as_slice();
    if !stand_once(given) {
        return Ok(None);
    }
    match verb {
        "find" => find_of(alloc, given, line.plain),
        "check" => check_of(alloc, given, line.plain),
        "made" => Ok(made_of(given, line.plain)),
        _ => Ok(None),
    }
}

/// The command that these words make, the words behind the program's name. `None` comes exactly when they make none.
///
/// Errors: want of memory alone.
pub fn read_command(alloc: Global, words: &Vec<String>) -> Result<Option<Command>, Memory>
    ensures command { IfOk result (λ found. found ≡ command_of (bytes_of words.now.items)) }
{
    let Some((verb, rest)) = words.as_slice().split_first() else {
        return Ok(None);
    };
    match read_line(alloc, rest)? {
        Some(line) => command_from(alloc, verb.as_str(), &line),
        None => Ok(None),
    }
}
