//! The plain evaluator: what an expression means, by recursion on its tree. Code that runs conditions is compared
//! with it in tests.
#![tactic(auto)]

mod evaluate;
mod slots;

pub use evaluate::{eval, eval_constant};
