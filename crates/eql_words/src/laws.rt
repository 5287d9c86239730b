//! Laws of the words, each the contract of a function that does nothing.
ghost use Rattle.eql_words.specs.Bounds.{CommandsAreBounded};
ghost use Rattle.eql_words.specs.Spelled.{SpelledIsRead, SpellingsAreAlike};

/// What words make lies within its bounds: a search has one to 256 shards, a batch of 1 to 4,096, at most 16 hands, a
/// slack of at most 36,500 days, a checkpoint after 1 to 1,000,000 rounds and only with a slack, and no name is empty
/// or `-`.
pub fn commands_are_bounded()
    ensures bounds { CommandsAreBounded }
{}

/// Words that spell options and plain words are read as these, so two spellings of the same make the same command: it is
/// the same whether a value stands behind `=` or in a word of its own.
pub fn spellings_are_read()
    ensures read { SpelledIsRead }
    ensures alike { SpellingsAreAlike }
{}
