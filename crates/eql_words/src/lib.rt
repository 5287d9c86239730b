//! The words of the command line: they make one command with its values, or none.
#![tactic(auto)]

mod commands;
mod find;
mod given;
mod laws;
mod line;
mod names;
mod numbers;
mod options;
mod reader;
mod usage_lines;
mod values;

pub use commands::{Checkpoint, Command, Find};
pub use laws::{commands_are_bounded, spellings_are_read};
pub use names::{Name, Names};
pub use reader::read_command;
pub use usage_lines::usage;
