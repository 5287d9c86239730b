//! The two checkpoint areas of a disk, one of which holds the last cut whole at each moment.
#![tactic(auto)]

mod find;
mod head;
mod laws;
mod puts;
mod recovery;
mod refused;
mod state;
mod through;

pub use laws::{
    at_each_moment, found_is_one, never_older, puts_are_found, puts_go_on, recovery_adds_nothing,
};
pub use puts::put;
pub use recovery::{Recovered, recover};
pub use refused::CkRefused;
pub use state::CkState;
