//! A law of the words that calls meet. It is the contract of a function that does nothing.
ghost use Rattle.eql_turn_lock.specs.Tries.{ReadingIsOne, FoundIsNotLoaded};

/// The words that a refused call met tell which of them it loaded.
///
/// So a lock that is worn was loaded as such, and wasn't only met in place of another word.
pub fn loads_are_told()
    ensures one { ReadingIsOne }
    ensures apart { FoundIsNotLoaded }
{}
