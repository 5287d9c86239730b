//! A bench over a hub of locks: the conductor plays by the hub's first hand, while other hands feed lanes and turn parts on
//! threads of their own.
#![tactic(auto)]

mod bench;
mod opening;

pub use bench::LockBench;
pub use opening::LockOpening;
