//! A cut: what a run keeps, so that a later run can go on.
use eql_values::{BookCut, Holders, LaneCuts, NameKinds, Text};

/// What a cut says of its run.
#[derive(Drop)]
pub struct CutHead {
    /// The canonical text of the query.
    pub query: Text,
    /// The mapping, by name.
    pub mapping: NameKinds,
    /// The field of the tiebreaker.
    pub tie: Option<Text>,
    /// The slack, in milliseconds.
    pub slack: u64,
    /// The number of shards.
    pub shards: u32,
}

/// What a run keeps between two rounds.
#[derive(Drop)]
pub struct Cut {
    /// What it says of its run.
    pub head: CutHead,
    /// The mark, in nanoseconds since the epoch.
    pub mark: i128,
    /// The shards.
    pub lanes: LaneCuts,
    /// The pending sequences.
    pub holders: Holders,
    /// The output.
    pub book: BookCut,
}
