//! The tests, by what of matching they look at.

mod auto;
mod lookback;
mod machine;
mod merge;
mod part;
mod parts;
mod span_list;
