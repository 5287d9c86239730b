//! Conditions as code: operations on a stack, which read the fields of an event from numbered slots.
#![tactic(auto)]

mod cells;
mod emit;
mod machine;

pub use emit::Op;
pub use machine::{Code, Stack, compile};
