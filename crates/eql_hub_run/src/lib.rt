//! A run of the conductor over a hub of turn locks, with other hands beside it on threads of their own.
#![tactic(auto)]

mod conducting;
mod gathering;
mod helping;
mod opening;
mod run;
mod splitting;
mod workers;

pub use opening::HubOpening;
pub use run::run_hub;
