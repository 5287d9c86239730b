//! A lane reads one shard, and holds the accepted events that weren't handed on yet.
#![tactic(auto)]

mod buffer;
mod held;
mod kept;
mod lane;
mod laws;
mod make;
mod notes;
mod ops;
mod pass;
mod step;

pub use lane::Lane;
pub use laws::{cuts_begin, feeds_keep, places_have_lines, takes_hand_out};
pub use make::{LaneRefused, LaneStart};
pub use ops::{LaneOp, LaneReply, ShardLimit};
