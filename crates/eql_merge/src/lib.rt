//! The merge of lists that stand in order: of events, one list from each shard, and of matches and of pending sequences,
//! one from each part of the keys.
#![tactic(auto)]

mod fronts;
mod groups;
mod lists;
mod pair;
mod ranked;
mod run;

pub use lists::{merge, merge_holders, merge_matches};
pub use ranked::Ranked;
