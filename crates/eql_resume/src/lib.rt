//! What a run begins with: the cut that its checkpoint's disk holds, tested against the run, and taken apart into what lanes,
//! parts and book begin with.
#![tactic(auto)]

mod beginning;
mod finding;
mod fresh;
mod laws;

pub use beginning::{Beginning, Pending, begin};
pub use finding::{FoundCut, StartRefused, find_start};
pub use laws::lifted_lanes_are_placed;
