//! Steps of a feed.

/// What a step of a feed did.
#[derive(Clone, Copy, PartialEq, Eq)]
pub(crate) enum Step {
    /// It read a line.
    Line,
    /// It took so many bytes.
    Took(usize),
    /// It met the source's end, and read the last line if there was one without a line feed.
    End(bool),
    /// The source failed.
    Failed,
    /// Memory ran out.
    Memory,
    /// The shard has too many lines.
    Lines,
    /// The shard has too many bytes.
    Bytes,
}
