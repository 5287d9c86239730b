//! The operators and functions of the Event Query Language on values, in three-valued logic: where an operand is
//! null, so is the result, but for `and`, `or` and a comparison with the literal `null`. What each gives is
//! defined in eql_check's specs/, and what evaluates expressions and what runs code both stand on them.
#![tactic(auto)]

mod addresses;
mod arguments;
mod arithmetic;
mod calls;
mod comparisons;
mod prepared;
mod slots;
mod texts;
mod three_valued;

pub use arguments::Arguments;
pub use arithmetic::{compute, negate};
pub use calls::call;
pub use comparisons::{compare, is_among, matches_one};
pub use prepared::{Addresses, Blocks, addresses_in, equals_address, is_among_read, is_in_blocks};
pub use slots::slot_of;
pub use three_valued::{conjunction, disjunction, negation, truth_of, value_of};
