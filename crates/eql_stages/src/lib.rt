//! A checked query becomes a plan, and a plan a reader of lines: what a line gives to the stages of a query and to the
//! item that ends sequences, key by key. What that is stands in specs/: Stages, Given and Planned.
#![tactic(auto)]

mod compile;
mod keys;
mod laws;
mod masks;
mod matcher;
mod matchers;
mod plan;
mod reader;
mod routes;

pub use laws::readers_fit;
pub use plan::Plan;
pub use reader::PlanReader;
