//! What a caller played on a bench.

use eql_values::Mark;

/// What was played on a lane or on a part.
#[derive(Clone, Copy)]
pub enum Note {
    /// A lane was fed.
    Fed {
        /// How many lines it was asked to read at most.
        max: u32,
    },
    /// A lane's low was looked at.
    Looked {
        /// The low.
        low: Mark,
    },
    /// Events were taken from a lane.
    Took {
        /// The mark up to which they were asked for.
        mark: Mark,
    },
    /// A cut of a lane or of a part was taken.
    Snapped,
    /// Events were delivered to a part.
    Delivered,
    /// A part played events.
    Turned {
        /// How many.
        items: u32,
    },
    /// The matches of a part were collected.
    Collected,
}
