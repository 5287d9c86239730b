//! The values of options.
ghost use Rattle.std.specs.Prelude.{◌≡◌, option_map, string_bytes};
ghost use Rattle.std.specs.List.{list_all};
ghost use Rattle.eql_words.specs.Commands.{checkpoint_in, checkpoint_with, if_given, name_in, name_of, or_else, shards_of, slack_in};
ghost use Rattle.eql_words.specs.Finds.{as_checkpoint};
ghost use Rattle.eql_words.specs.Numbers.{number_in};
ghost use Rattle.eql_words.specs.Spelling.{value_of};
ghost use Rattle.eql_words.specs.Words.{bytes_of, is_name};

use crate::given::{Given, value_of};
use crate::numbers::{number_in, time_of};
use crate::options::OptionName;

/// Where and how often the state of a run is kept, as the words say it.
#[derive(Clone, Copy)]
pub(crate) struct KeptAt<'a> {
    pub name: &'a str,
    pub every: u32,
}

/// Whether a word is a name: it isn't empty and isn't `-`.
fn is_name(word: &str) -> bool
    ensures { result ≡ is_name word.now }
{
    word != "" && word != "-"
}

/// A word that is a name.
fn name_of(word: &str) -> Option<&str>
    ensures { option_map (λ w. w.now) result ≡ name_of word.now }
{
    if is_name(word) { Some(word) } else { None }
}

/// The name that an option has, which has to be given.
pub(crate) fn name_in<'a>(name: OptionName, given: &[Given<'a>]) -> Option<&'a str>
    ensures { option_map (λ w. w.now) result ≡ name_in name given.now }
{
    name_of(value_of(given, name)?)
}

/// The name that an option has, if it is given.
pub(crate) fn name_if_given<'a>(name: OptionName, given: &[Given<'a>]) -> Option<Option<&'a str>>
    ensures { option_map (λ o. option_map (λ w. w.now) o) result
        ≡ if_given name_of (value_of name given.now) }
{
    match value_of(given, name) {
        None => Some(None),
        Some(word) => Some(Some(name_of(word)?)),
    }
}

/// The slack in milliseconds, if it is given.
pub(crate) fn slack_in(given: &[Given<'_>]) -> Option<Option<u64>>
    ensures { result ≡ slack_in given.now }
{
    match value_of(given, OptionName::Slack) {
        None => Some(None),
        Some(word) => Some(Some(time_of(word)?)),
    }
}

/// The number from `least` to `most` that an option has, or `other` where it isn't given.
pub(crate) fn number_or(
    other: u32,
    least: u32,
    most: u32,
    name: OptionName,
    given: &[Given<'_>],
) -> Option<u32>
    ensures { result ≡ or_else other (number_in least most) (value_of name given.now) }
{
    match value_of(given, name) {
        None => Some(other),
        Some(word) => number_in(least, most, word),
    }
}

/// After how many rounds the state is kept, if it is given.
fn every_in(given: &[Given<'_>]) -> Option<Option<u32>>
    ensures { result ≡ if_given (number_in 1 1000000) (value_of OptionName.Every given.now) }
{
    match value_of(given, OptionName::Every) {
        None => Some(None),
        Some(word) => Some(Some(number_in(1, 1_000_000, word)?)),
    }
}

/// A checkpoint's name and how often it is put, which go together and need a slack.
fn checkpoint_with<'a>(
    slack: Option<u64>,
    name: Option<&'a str>,
    every: Option<u32>,
) -> Option<Option<KeptAt<'a>>>
    ensures { option_map (λ o. option_map as_checkpoint o) result
        ≡ checkpoint_with slack (option_map (λ w. w.now) name.entry) every }
{
    match (slack, name, every) {
        (_, None, None) => Some(None),
        (Some(_), Some(name), Some(every)) => Some(Some(KeptAt { name, every })),
        _ => None,
    }
}

/// The checkpoint, if it is given.
pub(crate) fn checkpoint_in<'a>(
    slack: Option<u64>,
    given: &[Given<'a>],
) -> Option<Option<KeptAt<'a>>>
    ensures { option_map (λ o. option_map as_checkpoint o) result
        ≡ checkpoint_in slack given.now }
{
    let name = name_if_given(OptionName::Checkpoint, given)?;
    let every = every_in(given)?;
    checkpoint_with(slack, name, every)
}

/// Whether all words are names.
fn are_names(words: &[String]) -> bool
    ensures { result ≡ list_all (λ word. is_name (string_bytes word)) words.now }
{
    words.iter().all(|word| is_name(word.as_str()))
}

/// One to 256 shards, each of which is a name.
pub(crate) fn shards_of(plain: &[String]) -> Option<&[String]>
    ensures { option_map (λ words. bytes_of words.now) result ≡ shards_of (bytes_of plain.now) }
{
    if 1 <= plain.len() && plain.len() <= 256 && are_names(plain) {
        Some(plain)
    } else {
        None
    }
}
