//! A run of `find`: a query and its mapping are read, the shards are searched, the listing is written on the output
//! and the report beside it, and every source goes back to the shelf. With a checkpoint the run goes on from the cut
//! that a disk holds, and puts cuts on it.
#![tactic(auto)]

mod checkpoint;
mod error;
mod find;
mod plan;
mod running;
mod stops;

pub use error::{CutStop, FindError};
pub use find::find_matches;
