//! The options that are given, and their values.
ghost use Rattle.std.specs.Prelude.{◌≡◌, count_by, option_map};
ghost use Rattle.std.specs.List.{list_any};
ghost use Rattle.eql_words.specs.Commands.{are_among};
ghost use Rattle.eql_words.specs.Spelling.{same_option, sets, stand_once, value_of};

use crate::options::{OptionName, are_same};
use std::marker::Model;

/// An option as the words give it, with its value; a flag has the empty value.
#[derive(Drop)]
pub(crate) struct Given<'a> {
    pub name: OptionName,
    pub value: &'a str,
}

impl<'a> Model for Given<'a> {
    ghost use Rattle.std.specs.Prelude.{List, ℕ};
    ghost use Rattle.eql_words.specs.declared.options.OptionName.{OptionName};

    ghost Value = { OptionName × List ℕ };

    ghost view = { λ g. (g.name, g.value.now) };
}

/// Every option.
const EVERY_OPTION: [OptionName; 9] = [
    OptionName::Query,
    OptionName::Fields,
    OptionName::Tiebreaker,
    OptionName::Slack,
    OptionName::Batch,
    OptionName::Hands,
    OptionName::Checkpoint,
    OptionName::Every,
    OptionName::Places,
];

/// The value of an option, if it is given.
pub(crate) fn value_of<'a>(given: &[Given<'a>], name: OptionName) -> Option<&'a str>
    ensures { option_map (λ v. v.now) result ≡ value_of name given.now }
{
    let setting = given.iter().find(|setting| are_same(setting.name, name))?;
    Some(setting.value)
}

/// How often an option is given.
fn count_of(given: &[Given<'_>], name: OptionName) -> usize
    ensures { result ≡ count_by (sets name) given.now }
{
    given
        .iter()
        .filter(|setting| are_same(setting.name, name))
        .count()
}

/// Whether each option is given at most once.
pub(crate) fn stand_once(given: &[Given<'_>]) -> bool
    ensures { result ≡ stand_once given.now }
{
    EVERY_OPTION.iter().all(|name| count_of(given, *name) <= 1)
}

/// Whether an option is among these.
fn is_among(names: &[OptionName], name: OptionName) -> bool
    ensures { result ≡ list_any (same_option name) names.now }
{
    names.iter().any(|other| are_same(name, *other))
}

/// Whether all options that are given are among these.
pub(crate) fn are_among(names: &[OptionName], given: &[Given<'_>]) -> bool
    ensures { result ≡ are_among names.now given.now }
{
    given.iter().all(|setting| is_among(names, setting.name))
}
