//! The lines about the words that make a command.
ghost use Rattle.std.specs.Prelude.{◌≡◌};
ghost use Rattle.eql_words.specs.Usage.{usage_text};

/// The lines that tell which words make a command, one for each command, each with its line end.
pub fn usage() -> &'static str
    ensures { result.now ≡ usage_text }
{
    "usage: eql find --query FILE --fields FILE [--tiebreaker FIELD] [--slack TIME] [--batch N] [--hands N] [--checkpoint NAME --every N] [--places] SHARD..\nusage: eql check --query FILE --fields FILE\nusage: eql made [--hands N] N\n"
}
