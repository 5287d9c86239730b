//! Reading the files that a command names: its query and mapping, checked; opening one; and telling why that stopped.
#![tactic(auto)]

mod checked;
mod error;
mod file;
mod front;
mod query;
mod tell;

pub use checked::{Inputs, read_checked};
pub use error::{InputError, Refused};
pub use file::{open_file, read_file};
pub use front::read_front;
pub use tell::{tell_error, tell_text};
