//! By which rules sequences match.

/// By which rules sequences match.
#[derive(Clone, Copy)]
pub struct Rules {
    /// How many stages a sequence has, 1 to 256.
    pub stages: u32,
    /// How much time it may take at most, in nanoseconds, if that is bounded.
    pub span: Option<i128>,
}
