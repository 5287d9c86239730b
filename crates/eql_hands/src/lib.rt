//! What one further thread does: it plays steps of its hand until the run has ended, and sleeps where there is nothing to do.
//!
//! [`run_hand`] is that thread's work, and a [`Gate`] is where a test may hold it.
#![tactic(auto)]

mod gate;
mod run;

pub use gate::{Gate, Moment, NoGate};
pub use run::run_hand;
