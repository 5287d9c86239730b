//! The plain search: matches found by the definition itself, stage by stage over all events. The tests compare
//! every later search with it.
#![tactic(auto)]

mod ascending;
mod look_back;
mod routed_event;
mod sequence;
mod stages;

pub use ascending::ascend;
pub use look_back::find;
