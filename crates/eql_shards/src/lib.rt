//! The shards of a run: opened as sources, made into lanes, lent back to their shelf, and reported.
#![tactic(auto)]

mod giving;
mod making;
mod opening;
mod readers;
mod report;

pub use giving::{give_lanes, give_sources};
pub use making::{NotMade, make_lanes};
pub use opening::open_shards;
pub use readers::Readers;
pub use report::write_report;
