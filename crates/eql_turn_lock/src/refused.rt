//! What is returned where nothing was played.

/// The operation wasn't played, and comes back with the last word that was met.
///
/// The word of a lock is twice the length of its history, plus 1 while the turn is held.
#[derive(Debug, Drop)]
pub enum NotNow<O> {
    /// The turn is held, or was taken since the word was loaded.
    Busy { word: u64, op: O },
    /// The word is at least 2^63, and the call loaded it: the lock takes no further turn.
    Worn { word: u64, op: O },
}

/// There is no memory for a lock.
#[derive(Clone, Copy, Debug, PartialEq, Eq)]
pub struct Memory;
