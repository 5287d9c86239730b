//! The commands, each with its values.

use crate::names::{Name, Names};
use eql_values::Text;

/// What the words of a command line ask for.
#[derive(Drop)]
pub enum Command {
    /// Search shards for the matches of a query.
    Find(Find),
    /// Check a query and print its canonical text.
    Check {
        /// The file of the query.
        query: Name,
        /// The file of the mapping.
        fields: Name,
    },
    /// Search input that the program makes itself.
    Made {
        /// How many further threads take part, 0 to 16.
        hands: u32,
        /// How many events are made, 0 to 1,000,000.
        events: u32,
    },
}

/// A search, by the values of its words.
#[derive(Drop)]
pub struct Find {
    /// The file of the query.
    pub query: Name,
    /// The file of the mapping.
    pub fields: Name,
    /// The field of the tiebreaker, if one is named.
    pub tie: Option<Text>,
    /// The slack in milliseconds, at most 36,500 days, if one is given.
    pub slack: Option<u64>,
    /// How many lines are read in one round, 1 to 4,096.
    pub batch: u32,
    /// How many further threads take part, 0 to 16.
    pub hands: u32,
    /// Where and how often the state of the run is kept. There is a slack where this is given.
    pub checkpoint: Option<Checkpoint>,
    /// Whether the listing has the place of each event.
    pub places: bool,
    /// The files of the shards, 1 to 256, in order; shard 0 comes first.
    pub shards: Names,
}

/// Where and how often the state of a run is kept.
#[derive(Drop)]
pub struct Checkpoint {
    /// The name of the checkpoint.
    pub name: Name,
    /// After how many rounds the state is kept each time, 1 to 1,000,000.
    pub every: u32,
}
