//! The conductor, replayed: lanes and parts in lists, on which given operations of others are played before each call.
#![tactic(auto)]

mod foreign;
mod list_bench;
mod noted;
mod notes;
mod opening;
mod pool;
mod run;

pub use foreign::{Foreign, Foreigns};
pub use list_bench::ListBench;
pub use opening::Opening;
pub use run::replay;
