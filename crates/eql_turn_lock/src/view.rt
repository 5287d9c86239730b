//! What a caller knows of a lock. No value of these types is ever made.
use crate::history::Entry;
use std::collections::LinkedList;

/// What a pass knows of its lock.
pub struct View<T, O, R> {
    /// The pass's number; 0 is the first one.
    pub number: u64,
    /// The value that the lock was made of.
    pub opening: Option<T>,
    /// What the pass has seen of the history, from its beginning on.
    pub seen: LinkedList<Entry<O, R>>,
    /// The pass's own entries, in order.
    pub mine: LinkedList<Entry<O, R>>,
    /// All words that its calls loaded, or met in place of the one that they had loaded, in order.
    pub looked: LinkedList<u64>,
    /// How many passes were split off. It rises in the first pass alone.
    pub made: u64,
    /// The passes that were joined in, in order. The first pass alone has any.
    pub ended: LinkedList<Ended<O, R>>,
    /// The history, while the pass holds the turn; none between calls.
    pub turn: Option<LinkedList<Entry<O, R>>>,
}

/// What is kept of a pass that was joined into the first one.
pub struct Ended<O, R> {
    pub number: u64,
    pub mine: LinkedList<Entry<O, R>>,
    pub looked: LinkedList<u64>,
    /// What it had seen.
    pub seen: LinkedList<Entry<O, R>>,
    /// What the first pass had seen before it took this one in.
    pub before: LinkedList<Entry<O, R>>,
}
