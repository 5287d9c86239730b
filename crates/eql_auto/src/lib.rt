//! The machine of one key: a table of slots, each with at most one pending sequence, which an event moves from the
//! last stage to the first. It touches only the slots that the event may change, and counts each touch as a probe.
#![tactic(auto)]

mod auto;
mod count;
mod movers;
mod moves;
mod steps;
mod table;

pub use auto::Auto;
pub use steps::Steps;
