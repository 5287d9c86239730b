//! A run of `made`: the program searches events that it makes itself, and writes four lines on what it found.
#![tactic(auto)]

mod ends;
mod inputs;
mod search;
mod texts;
mod write;

pub use write::write_summary;
