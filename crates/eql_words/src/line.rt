//! A list of words as options and plain words.
ghost use Rattle.std.specs.Prelude.{◌≡◌, IfOk, Some, length, not, string_bytes};
ghost use Rattle.std.specs.List.{list_all};
ghost use Rattle.eql_words.specs.Fronts.{IsFront};
ghost use Rattle.eql_words.specs.Spelling.{line_from, line_of};
ghost use Rattle.eql_words.specs.Words.{bytes_of, is_dashed};

use crate::given::Given;
use crate::options::{Form, OptionName, form_of};
use eql_values::Memory;
use std::alloc::Global;
use std::marker::Model;

/// The options that words give, in their order, and the plain words behind them.
#[derive(Drop)]
pub(crate) struct Line<'a> {
    pub given: Vec<Given<'a>>,
    pub plain: &'a [String],
}

impl<'a> Model for Line<'a> {
    ghost use Rattle.eql_words.specs.Spelling.{Parts};
    ghost use Rattle.eql_words.specs.Words.{bytes_of};

    ghost Value = { Parts };

    ghost view = { λ l. record { given = l.given.items; plain = bytes_of l.plain.now } };
}

/// What a list of words begins with.
#[derive(Drop)]
pub(crate) enum Front<'a> {
    /// An option with its value, and the words behind it.
    Setting(Given<'a>, &'a [String]),
    /// The end of the options, and the plain words.
    Plain(&'a [String]),
    /// Neither.
    Faulty,
}

/// Whether a word begins with `-`.
fn is_dashed(word: &String) -> bool
    ensures { result ≡ is_dashed (string_bytes word.now) }
{
    match word.as_bytes() {
        [] => false,
        [first, ..] => *first == b'-',
    }
}

/// Whether none of the words begins with `-`.
fn are_plain(words: &[String]) -> bool
    ensures { result ≡ list_all (λ word. not (is_dashed (string_bytes word))) words.now }
{
    words.iter().all(|word| !is_dashed(word))
}

/// The option whose value is the first of the words. A value in a word of its own doesn't begin with `-`.
fn with_value<'a>(name: OptionName, words: &'a [String]) -> Front<'a>
    ensures { IsFront (line_from (Some name) (bytes_of words.now)) (length words.now) result }
{
    let Some((value, after)) = words.split_first() else {
        return Front::Faulty;
    };
    if is_dashed(value) {
        return Front::Faulty;
    }
    let value = value.as_str();
    Front::Setting(Given { name, value }, after)
}

/// What the words begin with.
fn front_of<'a>(words: &'a [String]) -> Front<'a>
    ensures { IsFront (line_of (bytes_of words.now)) (length words.now) result }
{
    let Some((word, after)) = words.split_first() else {
        return Front::Plain(words);
    };
    match form_of(word.as_str()) {
        Form::Ends => Front::Plain(after),
        Form::Plain => {
            if are_plain(after) {
                Front::Plain(words)
            } else {
                Front::Faulty
            }
        }
        Form::Whole(setting) => Front::Setting(setting, after),
        Form::Opens(name) => with_value(name, after),
        Form::Faulty => Front::Faulty,
    }
}

/// The options and plain words that these words are. `None` comes exactly when they are none.
#[tactic(auto, using(crate::proofs::Lines::line_more, crate::proofs::Lines::line_ends, crate::proofs::Lines::line_faulty, crate::proofs::Lines::behind_start))]
pub(crate) fn read_line(alloc: Global, words: &[String]) -> Result<Option<Line<'_>>, Memory>
    ensures { IfOk result (λ line. line ≡ line_of (bytes_of words.now)) }
{
    let mut given = Vec::new(alloc);
    let mut rest = words;
    loop {
        match front_of(rest) {
            Front::Setting(setting, after) => {
                given.push(setting)?;
                rest = after;
            }
            Front::Plain(plain) => return Ok(Some(Line { given, plain })),
            Front::Faulty => return Ok(None),
        }
    }
}
