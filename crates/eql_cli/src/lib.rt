//! The program as one call: from the words of the command line to the bytes on the output.
#![tactic(auto)]

mod check;
mod made;
mod program;
mod run;
mod tell;

pub use eql_hands::{Gate, Moment, NoGate};
pub use program::{Ended, eql_main};
