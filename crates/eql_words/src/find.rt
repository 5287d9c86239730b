//! The command `find`.
ghost use Rattle.std.specs.Prelude.{◌≡◌, IfOk, option_map};
ghost use Rattle.std.specs.Str.{chars};
ghost use Rattle.eql_words.specs.Commands.{find_of};
ghost use Rattle.eql_words.specs.Finds.{as_checkpoint};
ghost use Rattle.eql_words.specs.Words.{bytes_of};

use crate::commands::{Checkpoint, Find};
use crate::given::{Given, value_of};
use crate::names::{Name, Names};
use crate::options::OptionName;
use crate::values::{
    KeptAt, checkpoint_in, name_if_given, name_in, number_or, shards_of, slack_in,
};
use eql_values::{Memory, Text};
use std::alloc::Global;
use std::marker::Model;

/// A search as the words say it.
#[derive(Drop)]
pub(crate) struct Search<'a> {
    query: &'a str,
    fields: &'a str,
    tie: Option<&'a str>,
    slack: Option<u64>,
    batch: u32,
    hands: u32,
    checkpoint: Option<KeptAt<'a>>,
    places: bool,
    shards: &'a [String],
}

impl<'a> Model for Search<'a> {
    ghost use Rattle.std.specs.Prelude.{option_map};
    ghost use Rattle.std.specs.Str.{chars};
    ghost use Rattle.eql_words.specs.declared.commands.Find.{Find};
    ghost use Rattle.eql_words.specs.Finds.{as_checkpoint};
    ghost use Rattle.eql_words.specs.Words.{bytes_of};

    ghost Value = { Find };

    ghost view = { λ s. record {
      query = s.query.now;
      fields = s.fields.now;
      tie = option_map (λ t. chars t.now) s.tie;
      slack = s.slack;
      batch = s.batch;
      hands = s.hands;
      checkpoint = option_map as_checkpoint s.checkpoint;
      places = s.places;
      shards = bytes_of s.shards.now;
    } };
}

/// The search that options and shards say, if they say one.
pub(crate) fn search_of<'a>(given: &[Given<'a>], plain: &'a [String]) -> Option<Search<'a>>
    ensures { result ≡ find_of given.now (bytes_of plain.now) }
{
    let query = name_in(OptionName::Query, given)?;
    let fields = name_in(OptionName::Fields, given)?;
    let tie = name_if_given(OptionName::Tiebreaker, given)?;
    let slack = slack_in(given)?;
    let batch = number_or(256, 1, 4096, OptionName::Batch, given)?;
    let hands = number_or(1, 0, 16, OptionName::Hands, given)?;
    let checkpoint = checkpoint_in(slack, given)?;
    let shards = shards_of(plain)?;
    let places = value_of(given, OptionName::Places).is_some();
    Some(Search {
        query,
        fields,
        tie,
        slack,
        batch,
        hands,
        checkpoint,
        places,
        shards,
    })
}

/// A copy of a name.
pub(crate) fn copied(alloc: Global, word: &str) -> Result<Name, Memory>
    ensures { IfOk result (λ name. name ≡ word.now) }
{
    Ok(Name::of(String::from_str(alloc, word)?))
}

/// Copies of names.
fn all_copied(alloc: Global, words: &[String]) -> Result<Names, Memory>
    ensures { IfOk result (λ names. names ≡ bytes_of words.now) }
{
    let mut names = Vec::new(alloc);
    for word in words {
        names.push(copied(alloc, word.as_str())?)?;
    }
    Ok(Names::of(names))
}

/// A copy of the tiebreaker, if there is one.
fn tie_copied(alloc: Global, tie: Option<&str>) -> Result<Option<Text>, Memory>
    ensures { IfOk result (λ text. text ≡ option_map (λ t. chars t.now) tie.entry) }
{
    match tie {
        Some(tie) => Ok(Some(Text::copy_of(alloc, tie)?)),
        None => Ok(None),
    }
}

/// A copy of the checkpoint, if there is one.
fn checkpoint_copied(alloc: Global, kept: Option<KeptAt<'_>>) -> Result<Option<Checkpoint>, Memory>
    ensures { IfOk result (λ checkpoint. checkpoint ≡ option_map as_checkpoint kept.entry) }
{
    match kept {
        Some(kept) => Ok(Some(Checkpoint {
            name: copied(alloc, kept.name)?,
            every: kept.every,
        })),
        None => Ok(None),
    }
}

impl Search<'_> {
    /// The search with copies of its names.
    pub(crate) fn copied(&self, alloc: Global) -> Result<Find, Memory>
        ensures { IfOk result (λ find. find ≡ self.now) }
    {
        Ok(Find {
            query: copied(alloc, self.query)?,
            fields: copied(alloc, self.fields)?,
            tie: tie_copied(alloc, self.tie)?,
            slack: self.slack,
            batch: self.batch,
            hands: self.hands,
            checkpoint: checkpoint_copied(alloc, self.checkpoint)?,
            places: self.places,
            shards: all_copied(alloc, self.shards)?,
        })
    }
}
