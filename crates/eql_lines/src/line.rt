//! What a line is.

/// What a line is, as JSON.
#[derive(Clone, Copy, Debug, Drop)]
pub(crate) enum Line {
    /// No JSON.
    NotJson,
    /// JSON, and no object.
    NotObject,
    /// An object.
    Object,
}
