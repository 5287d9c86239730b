//! What a history is made of.

/// One call that was answered. No value of it is ever made: histories are known to contracts alone.
pub struct Entry<O, R> {
    /// The number of the pass that made the call; 0 is the first one.
    pub by: u64,
    pub op: O,
    pub reply: R,
}
