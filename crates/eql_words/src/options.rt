//! The options of the command line, and what one word is.
ghost use Rattle.std.specs.Prelude.{◌≡◌, option_map};
ghost use Rattle.eql_words.specs.Spelling.{form_of, option_form, option_named, same_option};
ghost use Rattle.eql_words.specs.Words.{head_of, joined_value};

use crate::given::Given;

/// An option of a command.
#[derive(Clone, Copy, PartialEq, Eq)]
pub(crate) enum OptionName {
    Query,
    Fields,
    Tiebreaker,
    Slack,
    Batch,
    Hands,
    Checkpoint,
    Every,
    Places,
}

/// What a word is where an option or a plain word may stand.
#[derive(Drop)]
pub(crate) enum Form<'a> {
    /// The word `--`.
    Ends,
    /// A word that doesn't begin with `-`.
    Plain,
    /// An option with its value, or a flag.
    Whole(Given<'a>),
    /// An option whose value is the next word.
    Opens(OptionName),
    /// Any other word that begins with `-`.
    Faulty,
}

/// Whether two options are the same.
pub(crate) fn are_same(a: OptionName, b: OptionName) -> bool
    ensures { result ≡ same_option a b }
{
    a == b
}

/// The option of this text.
fn option_named(text: &str) -> Option<OptionName>
    ensures { result ≡ option_named text.now }
{
    match text {
        "--query" => Some(OptionName::Query),
        "--fields" => Some(OptionName::Fields),
        "--tiebreaker" => Some(OptionName::Tiebreaker),
        "--slack" => Some(OptionName::Slack),
        "--batch" => Some(OptionName::Batch),
        "--hands" => Some(OptionName::Hands),
        "--checkpoint" => Some(OptionName::Checkpoint),
        "--every" => Some(OptionName::Every),
        "--places" => Some(OptionName::Places),
        _ => None,
    }
}

/// An option with the value that is joined to it. `--places` has no value; any other option without one has it in
/// the next word.
fn option_form<'a>(name: Option<OptionName>, value: Option<&'a str>) -> Form<'a>
    ensures { result ≡ option_form name (option_map (λ v. v.now) value.entry) }
{
    match (name, value) {
        (None, _) | (Some(OptionName::Places), Some(_)) => Form::Faulty,
        (Some(OptionName::Places), None) => Form::Whole(Given {
            name: OptionName::Places,
            value: "",
        }),
        (Some(name), None) => Form::Opens(name),
        (Some(name), Some(value)) => Form::Whole(Given { name, value }),
    }
}

/// A word up to its first `=`, and what stands behind that, if there is one.
fn halves(word: &str) -> (&str, Option<&str>)
    ensures head { result.0.now ≡ head_of word.now }
    ensures value { option_map (λ v. v.now) result.1 ≡ joined_value word.now }
{
    match word.split_once('=') {
        Some((head, value)) => (head, Some(value)),
        None => (word, None),
    }
}

/// What a word is where an option or a plain word may stand.
pub(crate) fn form_of(word: &str) -> Form<'_>
    ensures { result ≡ form_of word.now }
{
    if word == "--" {
        return Form::Ends;
    }
    if !word.starts_with('-') {
        return Form::Plain;
    }
    let (head, value) = halves(word);
    option_form(option_named(head), value)
}
