//! A part of the conductor: the pending sequences of its keys, the events that were delivered to it, and the matches that
//! it found.
#![tactic(auto)]

mod ops;
mod part;
mod room;
mod spread;
mod waiting;

pub use ops::{PartOp, PartReply};
pub use part::Part;
pub use spread::part_of;
