//! The operations of a part, and its replies.
use eql_values::{Holders, Items, Mark, Matches};

/// What a part is asked.
#[derive(Drop)]
pub enum PartOp {
    /// To put events at the end of the inbox, which lie below the mark.
    Deliver {
        /// The events, in ascending order.
        items: Items,
        /// The mark below which all events are delivered then.
        mark: Mark,
    },
    /// To play events of the inbox.
    Turn {
        /// How many at most, from 1 to 4,096.
        max: u32,
    },
    /// To hand out the matches found.
    Collect,
    /// To copy the pending sequences.
    Snap,
}

/// What a part replies.
#[derive(Drop)]
pub enum PartReply {
    /// The events are delivered.
    Done,
    /// Events were played.
    Turned {
        /// How many.
        items: u32,
    },
    /// No event waits in the inbox.
    Idle,
    /// The matches found since the last such reply.
    Found {
        /// The matches, in the order in which they were found.
        matches: Matches,
        /// The last delivered mark all of whose events were played.
        done: Mark,
    },
    /// The pending sequences, by key and stage.
    Cut(Holders),
    /// Memory ran out.
    Memory {
        /// The events that weren't delivered.
        back: Items,
        /// How many events were played before.
        items: u32,
    },
}
